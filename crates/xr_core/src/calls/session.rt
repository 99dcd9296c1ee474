// The calls on sessions (OpenXR 1.0 chapter 9).
ghost use Rattle.std.specs.Prelude.{◌≡◌, ◌≢◌, ◌<◌, ◌^◌, length, true, false, Some};
ghost use Rattle.xr_types.specs.declared.handles.Kind.TheVariants as kind;
ghost use Rattle.xr_types.specs.declared.handles.TheConstants.{SESSIONS};
ghost use Rattle.xr_model.specs.machine.Frames.{new_loop, reset_loop};
ghost use Rattle.xr_model.specs.machine.Handles.{is_live, has_room, was_given};
ghost use Rattle.xr_types.specs.declared.calls.Call.TheVariants as ask;
ghost use Rattle.xr_model.specs.machine.SessionLife.{started_session};
ghost use Rattle.xr_model.specs.machine.Sync.{no_columns};
ghost use Rattle.xr_model.specs.machine.Rules.Session.{life_of, loop_of, with_loop, with_session, create_session_rule};
ghost use Rattle.xr_core.specs.inside.Changes.{place_at, life_request, session_added, changed_life, with_period, answer_to};
ghost use Rattle.xr_core.specs.inside.Deciding.{Decides, DecidesCells, MayTouch};
ghost use Rattle.xr_core.specs.inside.Groups.{IsSessionCall};
ghost use Rattle.xr_core.specs.inside.Refusing.{unless_refused};
ghost use Rattle.xr_core.specs.inside.Seats.{with_own_loop, with_own_columns};

use crate::calls::instance::SYSTEM;
use crate::halt::{Halt, done, giving, refused};
use crate::parts::{Parts, give, slot_of};
use crate::sessions::{LifeCall, Session, change_life, place_of, success_of};
use crate::slots::clear_at;
use xr_frames::Frames;
use xr_handles::Handles;
use xr_model::Cells;
use xr_sync::Columns;
use xr_types::{Call, Code, Gives, Kind, Reply};

/// The frame loop of a live session is a new one from now on, and actions show nothing in it.
fn renew_slot(handles: &Handles, frames: &mut Frames, columns: &mut Vec<Columns>, session: u64)
    requires live { is_live handles.now kind.Session session ≡ true }
    requires stand { length columns.old.items ≡ SESSIONS }
    ensures frames { frames.new ≡ with_own_loop frames.old handles.now.sessions session new_loop }
    ensures columns { columns.new.items ≡ with_own_columns columns.old.items handles.now.sessions session no_columns }
{
    let slot = slot_of(handles, session);
    frames.renew(slot);
    clear_at(columns, slot);
}

impl Parts {
    #[inline(never)]
    pub(crate) fn session_call(&mut self, call: &Call<'_>) -> Result<Reply, Halt>
        requires given { length self.old.handles.given < 2 ^ 44 }
        requires created { self.old.created < 2 ^ 44 }
        requires group { IsSessionCall call.now }
        ensures { Decides self.old call.now self.new result }
    {
        match call {
            Call::CreateSession { instance, system } => self.create_session(*instance, *system),
            Call::BeginSession { session, view } => self.change_life(
                *session,
                LifeCall::Begin(*view),
            ),
            Call::EndSession { session } => self.change_life(*session, LifeCall::End),
            Call::RequestExitSession { session } => self.change_life(
                *session,
                LifeCall::RequestExit,
            ),
            _ => unreachable!(),
        }
    }

    /// What refuses a session: a handle of no instance, another system, and one too many.
    fn may_create_session(&self, instance: u64, system: u64) -> Result<(), Code>
        ensures { result ≡ unless_refused (create_session_rule self.now 0 instance system) tt }
    {
        self.live(Kind::Instance, instance)?;
        if system != SYSTEM {
            return Err(Code::SystemInvalid);
        }
        self.room(Kind::Session)
    }

    fn create_session(&mut self, instance: u64, system: u64) -> Result<Reply, Halt>
        requires given { length self.old.handles.given < 2 ^ 44 }
        requires created { self.old.created < 2 ^ 44 }
        ensures { Decides self.old (ask.CreateSession instance system) self.new result }
    {
        self.may_create_session(instance, system)?;
        let handle = self.new_session(instance);
        giving(Code::Success, Gives::Handle(handle))
    }

    /// Lists a new session, where there is room for one, and tells its first states. Gives its handle.
    fn add_session(&mut self, instance: u64) -> u64
        requires given { length self.old.handles.given < 2 ^ 44 }
        requires created { self.old.created < 2 ^ 44 }
        requires room { has_room self.old.handles kind.Session ≡ true }
        ensures state { self.new ≡ session_added self.old instance result (started_session self.old.device.wish) }
        ensures fresh { (result ≢ 0) × (was_given self.old.handles result ≡ false) }
    {
        let handle = give(&mut self.handles, Kind::Session, instance);
        self.created += 1;
        let session = Session::create(handle, self.created, self.device.wish(), &mut self.events);
        self.sessions.push(session);
        renew_slot(&self.handles, &mut self.frames, &mut self.columns, handle);
        handle
    }

    /// Gives the handle of a new session, where there is room for one. All sessions settle.
    fn new_session(&mut self, instance: u64) -> u64
        requires given { length self.old.handles.given < 2 ^ 44 }
        requires created { self.old.created < 2 ^ 44 }
        requires room { has_room self.old.handles kind.Session ≡ true }
        ensures state { self.new ≡ with_session self.old instance result (started_session self.old.device.wish) }
        ensures fresh { (result ≢ 0) × (was_given self.old.handles result ≡ false) }
    {
        let handle = self.add_session(instance);
        self.settle();
        handle
    }

    #[inline(never)]
    pub(crate) fn destroy_session<C: Cells>(
        &mut self,
        cells: &mut C,
        session: u64,
    ) -> Result<Reply, Halt>
        requires may { MayTouch C.may C.does self.old cells.old (ask.DestroySession session) }
        ensures { DecidesCells C.does self.old (ask.DestroySession session) self.new result cells.old cells.new }
    {
        self.live(Kind::Session, session)?;
        self.destroy_over(cells, session);
        done(Code::Success)
    }

    /// Makes the call of the session in a place. The others don't follow it yet.
    fn change_life_at(&mut self, session: u64, place: usize, call: LifeCall) -> Code
        requires found { place_at self.old.sessions session ≡ Some place }
        requires within { place < length self.old.sessions }
        ensures state { self.new ≡ changed_life self.old session call }
        ensures code { result ≡ answer_to call (life_of self.old session) }
    {
        change_life(
            &mut self.sessions,
            session,
            place,
            call,
            self.device.wish(),
            &mut self.events,
        )
    }

    /// No frame of a live session is waited for or begun.
    fn reset_loop(&mut self, session: u64)
        requires live { is_live self.old.handles kind.Session session ≡ true }
        ensures { self.new ≡ with_loop self.old session (reset_loop (loop_of self.old session)) }
    {
        let slot = slot_of(&self.handles, session);
        self.frames.reset(slot);
    }

    /// A running period that begins or ends has no frame waited for or begun.
    fn end_frames(&mut self, session: u64, call: LifeCall)
        requires live { is_live self.old.handles kind.Session session ≡ true }
        ensures { self.new ≡ with_period self.old session call }
    {
        match call {
            LifeCall::Begin(_) | LifeCall::End => self.reset_loop(session),
            LifeCall::RequestExit => {}
        }
    }

    /// Begins a session, ends it, or asks for its end.
    fn change_life(&mut self, session: u64, call: LifeCall) -> Result<Reply, Halt>
        ensures { Decides self.old (life_request session call) self.new result }
    {
        let Some(place) = place_of(self.sessions.as_slice(), session) else {
            return refused(Code::HandleInvalid);
        };
        let success = success_of(self.sessions.as_slice(), session, place);
        let code = self.change_life_at(session, place, call);
        if code != Code::Success {
            return refused(code);
        }
        self.end_frames(session, call);
        self.settle();
        done(success)
    }
}
