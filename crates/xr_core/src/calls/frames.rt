// The calls on frames (OpenXR 1.0 chapter 10).
ghost use Rattle.std.specs.Prelude.{◌≡◌, ◌≤◌, ◌<◌, ◌^◌, ◌+◌, ◌||◌, ◌&&◌, is_none, slice_get, [], ◌∷◌, ◌++◌, None, Ok, Err, IfSome, not, true, false, length, if◌then◌else◌};
ghost use Rattle.xr_types.specs.declared.device.Wish.TheVariants as wish;
ghost use Rattle.xr_types.specs.declared.session.SessionState.TheVariants.{Visible, Focused};
ghost use Rattle.xr_model.specs.machine.CellCalls.{MayCall, Leads, pin_calls};
ghost use Rattle.xr_model.specs.machine.Frames.{waited_loop, begun_loop, ended_loop, is_frame_held_back};
ghost use Rattle.xr_model.specs.machine.Handles.{is_live};
ghost use Rattle.xr_model.specs.machine.Layers.{frame_checks};
ghost use Rattle.xr_model.specs.machine.LiveSessions.{session_at};
ghost use Rattle.xr_model.specs.machine.Refusals.{first_of, when};
ghost use Rattle.xr_types.specs.declared.calls.Call.TheVariants as ask;
ghost use Rattle.xr_model.specs.machine.Rule.{ahead, refusals};
ghost use Rattle.xr_model.specs.machine.SessionLife.{is_state, synced_session};
ghost use Rattle.xr_model.specs.machine.Rules.Frames.{not_running, next_time, wait_frame_rule, look_of, new_frame, end_frame_rule, is_frame_awaited, with_frame_taken};
ghost use Rattle.xr_model.specs.machine.Rules.Session.{life_of, loop_of, with_change, with_loop};
ghost use Rattle.xr_core.specs.inside.Changes.{changed_alone};
ghost use Rattle.xr_core.specs.inside.Deciding.{Decides, DecidesCells, MayTouch};
ghost use Rattle.xr_core.specs.inside.Groups.{IsFrameCall};
ghost use Rattle.xr_model.specs.machine.PartAnswers.{or_refused};
ghost use Rattle.xr_core.specs.inside.Refusing.{success_on, unless_refused};

use crate::halt::{Halt, done, giving};
use crate::parts::{Parts, slot_of};
use crate::sessions::{place_of, session_at, sync_at};
use crate::sight::Sight;
use arrayvec::ArrayVec;
use xr_layers::check;
use xr_model::Cells;
use xr_types::{
    Blend, Call, Code, Frame, FrameState, Gives, Image, Kind, Layer, MOST_LAYERS, Reply,
};

/// These images take the place of others.
fn keep_images(kept: &mut ArrayVec<Image, MOST_LAYERS>, images: &[Image])
    requires { length images.now ≤ MOST_LAYERS }
    ensures { kept.new.items ≡ images.now }
{
    kept.clear();
    for image in images {
        kept.push(*image);
    }
}

/// One frame more uses each of these images.
fn pin_all<C: Cells>(cells: &mut C, images: &[Image])
    requires { MayCall C.may C.does cells.old (pin_calls images.now) }
    ensures { Leads C.does cells.old (pin_calls images.now) cells.new }
{
    for image in images {
        cells.pin(*image);
    }
}

impl Parts {
    #[inline(never)]
    pub(crate) fn frame_call(&mut self, call: &Call<'_>) -> Result<Reply, Halt>
        requires group { IsFrameCall call.now }
        ensures { Decides self.old call.now self.new result }
    {
        match call {
            Call::WaitFrame { session } => self.wait_frame(*session),
            Call::BeginFrame { session } => self.begin_frame(*session),
            _ => unreachable!(),
        }
    }

    /// A frame belongs to a running period.
    #[tactic(auto, using(crate::proofs::Seated::life_seated))]
    fn running(&self, session: u64) -> Result<(), Code>
        ensures { result ≡ or_refused (first_of (not_running (life_of self.now session) ∷ [])) tt }
    {
        let listed = session_at(self.sessions.as_slice(), session);
        if listed.is_some_and(|session| session.is_running()) {
            Ok(())
        } else {
            Err(Code::SessionNotRunning)
        }
    }

    /// Whether it is worth while to render a frame of a session.
    #[tactic(auto, using(crate::proofs::Seated::life_seated))]
    fn is_seen(&self, session: u64) -> bool
        ensures { result ≡ is_state (life_of self.now session).state Visible || is_state (life_of self.now session).state Focused }
    {
        let listed = session_at(self.sessions.as_slice(), session);
        listed.is_some_and(|session| session.is_seen())
    }

    /// What refuses a call on the frames of a session ahead of the call order, or what its plain success is answered as.
    fn may_frame(&self, session: u64) -> Result<Code, Code>
        ensures { result ≡ or_refused (first_of (ahead (wait_frame_rule self.now session))) (success_on self.now session) }
    {
        self.live(Kind::Session, session)?;
        let success = self.on_session(session)?;
        self.running(session)?;
        Ok(success)
    }

    /// Waits for a frame of a live session with this advice on rendering, or says by nothing that the call has to wait.
    fn wait(&mut self, session: u64, render: bool) -> Option<FrameState>
        requires live { is_live self.old.handles Kind.Session session ≡ true }
        ensures waits { result ≡ None → (is_frame_held_back self.old.frames (loop_of self.old session) ≡ true) × (self.new ≡ self.old) }
        ensures free { IfSome result (λ state. is_frame_held_back self.old.frames (loop_of self.old session) ≡ false) }
        ensures predicts { IfSome result (λ state. state ≡ record { time = next_time self.old session; period = self.old.device.period; render = render }) }
        ensures waited { IfSome result (λ state. self.new ≡ with_loop self.old session (waited_loop (loop_of self.old session) (next_time self.old session))) }
    {
        let slot = slot_of(&self.handles, session);
        let device = &self.device;
        self.frames.wait(slot, device.clock(), device.base(), device.period(), render)
    }

    /// Whether a wait for a frame of a live session is held back.
    fn is_held_back(&self, session: u64) -> bool
        requires live { is_live self.now.handles Kind.Session session ≡ true }
        ensures { result ≡ is_frame_held_back self.now.frames (loop_of self.now session) }
    {
        let slot = slot_of(&self.handles, session);
        self.frames.is_held_back(slot)
    }

    /// Whether a wait for a frame has to wait: it is held back, and nothing refuses it.
    #[tactic(auto, using(crate::proofs::FrameCalls::ok_where))]
    pub(crate) fn wait_frame_waits(&self, session: u64) -> bool
        ensures { result ≡ ((wait_frame_rule self.now session).waits && is_none (first_of (refusals (wait_frame_rule self.now session)))) }
    {
        self.may_frame(session).is_ok() && self.is_held_back(session)
    }

    /// Waits for a frame, or says that the call has to wait.
    fn wait_frame(&mut self, session: u64) -> Result<Reply, Halt>
        ensures { Decides self.old (ask.WaitFrame session) self.new result }
    {
        let success = self.may_frame(session)?;
        let render = self.is_seen(session);
        match self.wait(session, render) {
            Some(state) => giving(success, Gives::Frame(state)),
            None => Err(Halt::NotReady),
        }
    }

    /// Begins the frame that a live session waits for. A discarded frame is told as that, and a plain success is answered so.
    fn begin(&mut self, session: u64, success: Code) -> Result<Code, Code>
        requires live { is_live self.old.handles Kind.Session session ≡ true }
        ensures code { result ≡ (if (loop_of self.old session).has_waited then Ok (if (loop_of self.old session).has_begun then Code.FrameDiscarded else success) else Err Code.CallOrderInvalid) }
        ensures state { self.new ≡ (if (loop_of self.old session).has_waited then with_loop self.old session (begun_loop (loop_of self.old session)) else self.old) }
    {
        let slot = slot_of(&self.handles, session);
        match self.frames.begin(slot) {
            Code::Success => Ok(success),
            Code::FrameDiscarded => Ok(Code::FrameDiscarded),
            code => Err(code),
        }
    }

    /// Begins a frame.
    fn begin_frame(&mut self, session: u64) -> Result<Reply, Halt>
        ensures { Decides self.old (ask.BeginFrame session) self.new result }
    {
        let success = self.may_frame(session)?;
        let code = self.begin(session, success)?;
        done(code)
    }

    /// The frame of a live session that is ended has to be begun.
    fn has_begun(&self, session: u64) -> Result<(), Code>
        requires live { is_live self.now.handles Kind.Session session ≡ true }
        ensures { result ≡ or_refused (first_of (when (not (loop_of self.now session).has_begun) Code.CallOrderInvalid ∷ [])) tt }
    {
        let slot = slot_of(&self.handles, session);
        match self.frames.may_end(slot) {
            Code::Success => Ok(()),
            code => Err(code),
        }
    }

    /// What refuses the end of a frame of a session by its time, in ns of device time, its blend mode and its layers. Where nothing does the
    /// frame has that time, these layers and their images.
    fn check_frame(
        &self,
        session: u64,
        time: &i64,
        blend: Blend,
        layers: &[Layer],
        frame: &mut Frame,
    ) -> Result<(), Code>
        ensures checks { result ≡ or_refused (first_of (frame_checks (look_of self.now session) time.now blend layers.now)) tt }
        ensures frame { result ≡ Ok tt → frame.new ≡ record (new_frame self.now session time.now layers.now) { number = frame.old.number } }
    {
        let sight = Sight {
            session,
            handles: &self.handles,
            chains: &self.chains,
        };
        match check(*time, blend, layers, &sight, frame) {
            Code::Success => Ok(()),
            code => Err(code),
        }
    }

    /// What refuses the end of a frame, or what its success is answered as. Where nothing refuses it the frame is the one that
    /// is submitted.
    fn may_end_frame(
        &self,
        session: u64,
        time: &i64,
        blend: Blend,
        layers: &[Layer],
        frame: &mut Frame,
    ) -> Result<Code, Code>
        requires number { frame.old.number ≡ self.now.ended + 1 }
        ensures checks { result ≡ unless_refused (end_frame_rule self.now session time.now blend layers.now) (success_on self.now session) }
        ensures frame { first_of (refusals (end_frame_rule self.now session time.now blend layers.now)) ≡ None → frame.new ≡ new_frame self.now session time.now layers.now }
    {
        let success = self.may_frame(session)?;
        self.has_begun(session)?;
        self.check_frame(session, time, blend, layers, frame)?;
        Ok(success)
    }

    /// A frame of a session was ended: a ready session enters `Synchronized` by its first, and any other stays as it was. The others
    /// don't follow it yet.
    fn sync_one(&mut self, session: u64)
        ensures { self.new ≡ changed_alone self.old (session_at self.old.sessions session) (synced_session wish.Ready) }
    {
        let Some(place) = place_of(self.sessions.as_slice(), session) else {
            return;
        };
        sync_at(&mut self.sessions, session, place, &mut self.events);
    }

    /// A frame of a session was ended, behind which all sessions settle.
    fn sync(&mut self, session: u64)
        ensures { self.new ≡ with_change self.old (session_at self.old.sessions session) (synced_session wish.Ready) }
    {
        self.sync_one(session);
        self.settle();
    }

    /// The frame that a live session has begun is pending from now on.
    fn submit(&mut self, session: u64, frame: Frame)
        requires ended { self.old.ended < 2 ^ 44 }
        requires live { is_live self.old.handles Kind.Session session ≡ true }
        requires begun { (loop_of self.old session).has_begun ≡ true }
        ensures { self.new ≡ record (with_loop self.old session (ended_loop (loop_of self.old session))) {
          frames = record { pending = self.old.frames.pending ++ frame ∷ [] };
          ended = self.old.ended + 1;
        } }
    {
        let slot = slot_of(&self.handles, session);
        self.ended += 1;
        self.frames.end(slot, frame);
    }

    /// Ends a frame, which uses the images of its layers from now on.
    #[inline(never)]
    pub(crate) fn end_frame<C: Cells>(
        &mut self,
        cells: &mut C,
        session: u64,
        time: &i64,
        blend: Blend,
        layers: &[Layer],
    ) -> Result<Reply, Halt>
        requires ended { self.old.ended < 2 ^ 44 }
        requires may { MayTouch C.may C.does self.old cells.old (ask.EndFrame session time.now blend layers.now) }
        ensures { DecidesCells C.does self.old (ask.EndFrame session time.now blend layers.now) self.new result cells.old cells.new }
    {
        let mut frame = Frame {
            number: self.ended + 1,
            time: 0,
            layers: ArrayVec::new(),
            images: ArrayVec::new(),
        };
        let success = self.may_end_frame(session, time, blend, layers, &mut frame)?;
        pin_all(cells, frame.images.as_slice());
        self.submit(session, frame);
        self.sync(session);
        done(success)
    }

    /// Whether the compositor has to wait for a frame: none is pending, and some application hasn't left.
    pub(crate) fn next_frame_waits(&self) -> bool
        ensures { result ≡ is_frame_awaited self.now }
    {
        !self.frames.has_pending() && !self.all_left()
    }

    /// Takes the frame that is pending longest, where one is.
    pub(crate) fn take(&mut self) -> Option<Frame>
        ensures frame { result ≡ slice_get self.old.frames.pending 0 }
        ensures state { self.new ≡ with_frame_taken self.old }
    {
        let frame = self.frames.pop()?;
        keep_images(&mut self.shown, frame.images.as_slice());
        self.sweep();
        Some(frame)
    }
}
