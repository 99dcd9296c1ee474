// The calls on spaces (OpenXR 1.0 chapter 7).
ghost use Rattle.std.specs.Prelude.{◌≡◌, ◌≢◌, ◌<◌, ◌^◌, [], ◌∷◌, length, true, false, IfSome};
ghost use Rattle.xr_model.specs.machine.Handles.{has_room, was_given};
ghost use Rattle.xr_model.specs.machine.Refusals.{first_of};
ghost use Rattle.xr_types.specs.declared.calls.Call.TheVariants as ask;
ghost use Rattle.xr_model.specs.machine.Spaces.{reference_checks, located};
ghost use Rattle.xr_model.specs.machine.Sync.{no_columns};
ghost use Rattle.xr_model.specs.machine.Rules.Session.{columns_of};
ghost use Rattle.xr_model.specs.machine.Rules.Spaces.{with_new_space, with_space_gone, session_above, create_reference_space_rule, locate_space_rule};
ghost use Rattle.xr_model.specs.machine.Rules.Sync.{column_named, action_space_checks, action_root, create_action_space_rule};
ghost use Rattle.xr_core.specs.inside.Deciding.{Decides};
ghost use Rattle.xr_core.specs.inside.Groups.{IsSpaceCall};
ghost use Rattle.xr_model.specs.machine.PartAnswers.{or_refused};
ghost use Rattle.xr_core.specs.inside.Refusing.{success_on, unless_refused};

use crate::halt::{Halt, done, giving};
use crate::parts::{Parts, give};
use crate::slots::NOTHING_SHOWN;
use xr_profiles::user_of;
use xr_spaces::check_reference;
use xr_types::{ActionType, Call, Code, Gives, Kind, Location, RefKind, Reply, Root, user_place};

impl Parts {
    #[inline(never)]
    pub(crate) fn space_call(&mut self, call: &Call<'_>) -> Result<Reply, Halt>
        requires given { length self.old.handles.given < 2 ^ 44 }
        requires group { IsSpaceCall call.now }
        ensures { Decides self.old call.now self.new result }
    {
        match call {
            Call::CreateReferenceSpace {
                session,
                kind,
                offset,
            } => self.create_reference_space(*session, *kind, *offset),
            Call::CreateActionSpace {
                session,
                action,
                sub,
                offset,
            } => self.create_action_space(*session, *action, *sub, *offset),
            Call::DestroySpace { space } => self.destroy_space(*space),
            Call::LocateSpace { space, base, time } => self.locate_space(*space, *base, time),
            _ => unreachable!(),
        }
    }

    /// What refuses a reference space by its kind and its offset.
    fn check_space(&self, kind: RefKind, offset: u64) -> Result<(), Code>
        ensures { result ≡ or_refused (first_of (reference_checks kind offset self.now.device.stage)) tt }
    {
        match check_reference(kind, offset, self.device.has_stage()) {
            Code::Success => Ok(()),
            code => Err(code),
        }
    }

    /// What refuses a reference space, or what its success is answered as.
    fn may_create_reference_space(
        &self,
        session: u64,
        kind: RefKind,
        offset: u64,
    ) -> Result<Code, Code>
        ensures { result ≡ unless_refused (create_reference_space_rule self.now 0 session kind offset) (success_on self.now session) }
    {
        self.live(Kind::Session, session)?;
        let success = self.on_session(session)?;
        self.check_space(kind, offset)?;
        self.room(Kind::Space)?;
        Ok(success)
    }

    fn create_reference_space(
        &mut self,
        session: u64,
        kind: RefKind,
        offset: u64,
    ) -> Result<Reply, Halt>
        requires { length self.old.handles.given < 2 ^ 44 }
        ensures { Decides self.old (ask.CreateReferenceSpace session kind offset) self.new result }
    {
        let success = self.may_create_reference_space(session, kind, offset)?;
        let handle = self.add_space(session, Root::Fixed(kind), offset);
        giving(success, Gives::Handle(handle))
    }

    /// Gives the handle of a new space that moves so, where there is room for one.
    fn add_space(&mut self, session: u64, root: Root, offset: u64) -> u64
        requires given { length self.old.handles.given < 2 ^ 44 }
        requires room { has_room self.old.handles Kind.Space ≡ true }
        ensures state { self.new ≡ with_new_space self.old session result root offset }
        ensures fresh { (result ≢ 0) × (was_given self.old.handles result ≡ false) }
    {
        let handle = give(&mut self.handles, Kind::Space, session);
        self.room.add(handle, root, offset);
        handle
    }

    /// The column of a user path by its atom, where the action declares it; column 0 is that of all, by 0.
    fn column_named(&self, action: u64, sub: u64) -> Option<usize>
        ensures column { result ≡ column_named self.now action sub }
        ensures within { IfSome result (λ column. column < 6) }
    {
        if sub == 0 {
            return Some(0);
        }
        let user = user_of(self.paths.text_at(sub)?)?;
        if !self.inputs.declares(action, user) {
            return None;
        }
        Some(user_place(user) + 1)
    }

    /// What refuses an action space by its action's type, its user path and its offset.
    fn check_action_space(&self, action: u64, sub: u64, offset: u64) -> Result<(), Code>
        ensures { result ≡ or_refused (first_of (action_space_checks self.now action sub offset)) tt }
    {
        if !matches!(self.inputs.kind_of(action), Some(ActionType::Pose)) {
            return Err(Code::ActionTypeMismatch);
        }
        if self.column_named(action, sub).is_none() {
            return Err(Code::PathUnsupported);
        }
        if offset == 0 {
            return Err(Code::PoseInvalid);
        }
        Ok(())
    }

    /// What refuses an action space, or what its success is answered as.
    fn may_create_action_space(
        &self,
        session: u64,
        action: u64,
        sub: u64,
        offset: u64,
    ) -> Result<Code, Code>
        ensures { result ≡ unless_refused (create_action_space_rule self.now 0 session action sub offset) (success_on self.now session) }
    {
        self.live(Kind::Session, session)?;
        self.live(Kind::Action, action)?;
        let success = self.on_session(session)?;
        self.check_action_space(action, sub, offset)?;
        self.room(Kind::Space)?;
        Ok(success)
    }

    fn create_action_space(
        &mut self,
        session: u64,
        action: u64,
        sub: u64,
        offset: u64,
    ) -> Result<Reply, Halt>
        requires { length self.old.handles.given < 2 ^ 44 }
        ensures { Decides self.old (ask.CreateActionSpace session action sub offset) self.new result }
    {
        let success = self.may_create_action_space(session, action, sub, offset)?;
        let handle = self.add_space(session, self.action_root(action, sub), offset);
        giving(success, Gives::Handle(handle))
    }

    /// What an action space moves with: a column of its action.
    fn action_root(&self, action: u64, sub: u64) -> Root
        ensures { result ≡ action_root self.now action sub }
    {
        let place = self.handles.place_among(Kind::Action, action).unwrap_or(0);
        let column = self.column_named(action, sub).unwrap_or(0);
        Root::Action {
            place: place as u8,
            column: column as u8,
        }
    }

    /// A space goes, and nothing with it.
    fn remove_space(&mut self, space: u64)
        ensures { self.new ≡ with_space_gone self.old space }
    {
        self.handles.remove(Kind::Space, space);
        self.room.remove(space);
    }

    fn destroy_space(&mut self, space: u64) -> Result<Reply, Halt>
        ensures { Decides self.old (ask.DestroySpace space) self.new result }
    {
        self.live(Kind::Space, space)?;
        self.remove_space(space);
        done(Code::Success)
    }

    /// What refuses locating a space in a base, or what its success is answered as.
    fn may_locate_space(&self, space: u64, base: u64, time: &i64) -> Result<Code, Code>
        ensures { result ≡ unless_refused (locate_space_rule self.now space base time.now) (success_on self.now (session_above self.now.handles space)) }
    {
        let session = self.session_of(Kind::Space, space)?;
        self.below(Kind::Space, session, base)?;
        let success = self.on_session(session)?;
        if *time <= 0 {
            return Err(Code::TimeInvalid);
        }
        Ok(success)
    }

    /// Where a space is in a base, at a time, where no action shows anything. It stays a function of its own: what all actions show
    /// takes kilobytes on the stack.
    #[inline(never)]
    fn find_unshown(&self, space: u64, base: u64, time: i64) -> Option<Location>
        ensures { result ≡ located self.now.room (record { columns = no_columns }) space base time }
    {
        let states = NOTHING_SHOWN;
        self.room.locate(space, base, time, &states)
    }

    /// Where a space is in a base, at a time. The space of an action moves with what the action shows in the space's session.
    fn find(&self, space: u64, base: u64, time: i64) -> Option<Location>
        ensures { result ≡ located self.now.room (record { columns = columns_of self.now (session_above self.now.handles space) }) space base time }
    {
        let session = self.handles.parent_of(space).unwrap_or(0);
        if !self.handles.is_live(Kind::Session, session) {
            return self.find_unshown(space, base, time);
        }
        self.room
            .locate(space, base, time, self.own_columns(session).states())
    }

    fn locate_space(&mut self, space: u64, base: u64, time: &i64) -> Result<Reply, Halt>
        ensures { Decides self.old (ask.LocateSpace space base time.now) self.new result }
    {
        let success = self.may_locate_space(space, base, time)?;
        let found = self.find(space, base, *time);
        giving(success, Gives::Location(found.unwrap_or(Location::Missing)))
    }
}
