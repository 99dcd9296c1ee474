// The calls on action sets and actions (OpenXR 1.0 chapter 11).
ghost use Rattle.std.specs.Prelude.{◌≡◌, ◌≢◌, ◌<◌, ◌^◌, ℕ, length, map, Some, None, true, false};
ghost use Rattle.std.specs.List.{list_all};
ghost use Rattle.xr_types.specs.declared.handles.Kind.TheVariants as kind;
ghost use Rattle.xr_model.specs.machine.Handles.{is_live, has_room, no_handle, was_given};
ghost use Rattle.xr_model.specs.machine.LiveSessions.{session_at, attached_in};
ghost use Rattle.xr_model.specs.machine.Refusals.{first_of};
ghost use Rattle.xr_model.specs.machine.Sets.{no_users, set_checks, action_checks, action_label_checks, attach_checks};
ghost use Rattle.xr_types.specs.declared.calls.Call.TheVariants as ask;
ghost use Rattle.xr_model.specs.machine.Rules.Sets.{with_action_set, with_new_action, with_attached_sets, declared_by, create_action_set_rule, create_action_rule, attach_sets_rule};
ghost use Rattle.xr_sets.specs.NewActions.{new_action};
ghost use Rattle.xr_core.specs.inside.Changes.{place_at};
ghost use Rattle.xr_core.specs.inside.Deciding.{Decides};
ghost use Rattle.xr_core.specs.inside.Groups.{IsSetCall};
ghost use Rattle.xr_model.specs.machine.PartAnswers.{or_refused};
ghost use Rattle.xr_core.specs.inside.Refusing.{success_on, unless_refused};

use crate::halt::{Halt, done, giving};
use crate::parts::{Parts, give};
use crate::sessions::{attach_at, place_of, session_at};
use crate::subactions::declared_by;
use xr_handles::Handles;
use xr_sets::NewAction;
use xr_types::{ActionType, Call, Code, Gives, Kind, Reply, USERS};

/// Whether all of these are live action sets.
fn are_sets(handles: &Handles, sets: &[u64]) -> bool
    ensures { result ≡ list_all (λ set. is_live handles.now kind.ActionSet set) sets.now }
{
    sets.iter()
        .all(|set| handles.is_live(Kind::ActionSet, *set))
}

impl Parts {
    #[inline(never)]
    pub(crate) fn set_call(&mut self, call: &Call<'_>) -> Result<Reply, Halt>
        requires given { length self.old.handles.given < 2 ^ 44 }
        requires group { IsSetCall call.now }
        ensures { Decides self.old call.now self.new result }
    {
        match call {
            Call::CreateActionSet {
                instance,
                name,
                localized,
                priority,
            } => self.create_action_set(
                *instance,
                name.as_slice(),
                localized.as_slice(),
                *priority,
            ),
            Call::DestroyActionSet { set } => self.destroy_action_set(*set),
            Call::CreateAction {
                set,
                name,
                kind,
                subs,
                localized,
            } => self.create_action(
                *set,
                name.as_slice(),
                *kind,
                subs.as_slice(),
                localized.as_slice(),
            ),
            Call::DestroyAction { action } => self.destroy_action(*action),
            Call::AttachSets { session, sets } => self.attach_sets(*session, sets.as_slice()),
            _ => unreachable!(),
        }
    }

    /// What refuses a set by its names.
    fn check_set(&self, name: &[u8], localized: &[u8]) -> Result<(), Code>
        ensures { result ≡ or_refused (first_of (set_checks self.now.inputs name.now localized.now)) tt }
    {
        match self.inputs.check_set(name, localized) {
            Code::Success => Ok(()),
            code => Err(code),
        }
    }

    /// What refuses an action set, whatever its priority.
    fn may_create_action_set(
        &self,
        instance: u64,
        name: &[u8],
        localized: &[u8],
    ) -> Result<(), Code>
        ensures { (priority : ℕ) → result ≡ unless_refused (create_action_set_rule self.now 0 instance name.now localized.now priority) tt }
    {
        self.live(Kind::Instance, instance)?;
        self.check_set(name, localized)?;
        self.room(Kind::ActionSet)
    }

    fn create_action_set(
        &mut self,
        instance: u64,
        name: &[u8],
        localized: &[u8],
        priority: u32,
    ) -> Result<Reply, Halt>
        requires { length self.old.handles.given < 2 ^ 44 }
        ensures { Decides self.old (ask.CreateActionSet instance name.now localized.now priority) self.new result }
    {
        self.may_create_action_set(instance, name, localized)?;
        let handle = self.new_set(instance, name, localized, priority);
        giving(Code::Success, Gives::Handle(handle))
    }

    /// Gives the handle of a new action set, where nothing refuses it.
    fn new_set(&mut self, instance: u64, name: &[u8], localized: &[u8], priority: u32) -> u64
        requires given { length self.old.handles.given < 2 ^ 44 }
        requires checked { first_of (set_checks self.old.inputs name.now localized.now) ≡ None }
        requires room { has_room self.old.handles kind.ActionSet ≡ true }
        ensures state { self.new ≡ with_action_set self.old instance result name.now localized.now priority }
        ensures fresh { (result ≢ 0) × (was_given self.old.handles result ≡ false) }
    {
        let handle = give(&mut self.handles, Kind::ActionSet, instance);
        self.inputs.add_set(handle, name, localized, priority);
        handle
    }

    fn destroy_action_set(&mut self, set: u64) -> Result<Reply, Halt>
        ensures { Decides self.old (ask.DestroyActionSet set) self.new result }
    {
        self.live(Kind::ActionSet, set)?;
        self.destroy(set);
        done(Code::Success)
    }

    /// What refuses an action by its set and its name.
    fn check_action(&self, set: u64, name: &[u8]) -> Result<(), Code>
        ensures { result ≡ or_refused (first_of (action_checks self.now.inputs set name.now)) tt }
    {
        match self.inputs.check_action(set, name) {
            Code::Success => Ok(()),
            code => Err(code),
        }
    }

    /// What refuses an action by its localized name.
    fn check_label(&self, set: u64, localized: &[u8]) -> Result<(), Code>
        ensures { result ≡ or_refused (first_of (action_label_checks self.now.inputs set localized.now)) tt }
    {
        match self.inputs.check_label(set, localized) {
            Code::Success => Ok(()),
            code => Err(code),
        }
    }

    /// What refuses an action of any type, or the user paths that it declares.
    fn may_create_action(
        &self,
        set: u64,
        name: &[u8],
        subs: &[u64],
        localized: &[u8],
    ) -> Result<[bool; USERS], Code>
        ensures { (type : ActionType) → result ≡ unless_refused (create_action_rule self.now 0 set name.now type subs.now localized.now) (declared_by self.now.atoms no_users subs.now) }
    {
        self.live(Kind::ActionSet, set)?;
        self.check_action(set, name)?;
        let declared = declared_by(&self.paths, subs)?;
        self.check_label(set, localized)?;
        self.room(Kind::Action)?;
        Ok(declared)
    }

    fn create_action(
        &mut self,
        set: u64,
        name: &[u8],
        kind: ActionType,
        subs: &[u64],
        localized: &[u8],
    ) -> Result<Reply, Halt>
        requires { length self.old.handles.given < 2 ^ 44 }
        ensures { Decides self.old (ask.CreateAction set name.now kind subs.now localized.now) self.new result }
    {
        let declared = self.may_create_action(set, name, subs, localized)?;
        let handle = self.new_action(NewAction {
            handle: 0,
            set,
            name,
            localized,
            kind,
            declared,
        });
        giving(Code::Success, Gives::Handle(handle))
    }

    /// Gives the handle of a new action, where nothing refuses it. It takes the place of the handle that the action came
    /// with.
    fn new_action(&mut self, action: NewAction) -> u64
        requires given { length self.old.handles.given < 2 ^ 44 }
        requires name { first_of (action_checks self.old.inputs action.set action.name.now) ≡ None }
        requires label { first_of (action_label_checks self.old.inputs action.set action.localized.now) ≡ None }
        requires room { has_room self.old.handles kind.Action ≡ true }
        ensures state { self.new ≡ with_new_action self.old result (new_action result action.entry.set action.entry.name.now action.entry.localized.now action.entry.kind action.entry.declared) }
        ensures fresh { (result ≢ 0) × (was_given self.old.handles result ≡ false) }
    {
        let handle = give(&mut self.handles, Kind::Action, action.set);
        self.inputs.add_action(NewAction { handle, ..action });
        handle
    }

    fn destroy_action(&mut self, action: u64) -> Result<Reply, Halt>
        ensures { Decides self.old (ask.DestroyAction action) self.new result }
    {
        self.live(Kind::Action, action)?;
        self.destroy(action);
        done(Code::Success)
    }

    /// What refuses attaching sets by what the session has attached, and by their number.
    #[tactic(auto, using(crate::proofs::Seated::attached_seated))]
    fn check_attached(&self, session: u64, sets: &[u64]) -> Result<(), Code>
        ensures { result ≡ or_refused (first_of (attach_checks (attached_in (session_at self.now.sessions session)) sets.now)) tt }
    {
        let listed = session_at(self.sessions.as_slice(), session);
        if listed.is_some_and(|session| session.has_attached()) {
            Err(Code::ActionsetsAlreadyAttached)
        } else if sets.is_empty() {
            Err(Code::ValidationFailure)
        } else {
            Ok(())
        }
    }

    /// What refuses the handles of action sets: the first that is no live one.
    fn live_sets(&self, sets: &[u64]) -> Result<(), Code>
        ensures { result ≡ or_refused (first_of (map (no_handle self.now.handles kind.ActionSet) sets.now)) tt }
    {
        if are_sets(&self.handles, sets) {
            Ok(())
        } else {
            Err(Code::HandleInvalid)
        }
    }

    /// What refuses attaching these sets, or what its success is answered as.
    fn may_attach_sets(&self, session: u64, sets: &[u64]) -> Result<Code, Code>
        ensures { result ≡ unless_refused (attach_sets_rule self.now session sets.now) (success_on self.now session) }
    {
        self.live(Kind::Session, session)?;
        let success = self.on_session(session)?;
        self.check_attached(session, sets)?;
        self.live_sets(sets)?;
        Ok(success)
    }

    /// The session in a place has attached these sets, which are sealed from now on.
    fn attach(&mut self, session: u64, place: usize, sets: &[u64])
        requires found { place_at self.old.sessions session ≡ Some place }
        requires within { place < length self.old.sessions }
        ensures { self.new ≡ with_attached_sets self.old session sets.now }
    {
        let named = self.inputs.named(sets);
        attach_at(&mut self.sessions, session, place, named);
        self.inputs.seal(sets);
    }

    fn attach_sets(&mut self, session: u64, sets: &[u64]) -> Result<Reply, Halt>
        ensures { Decides self.old (ask.AttachSets session sets.now) self.new result }
    {
        let success = self.may_attach_sets(session, sets)?;
        let Some(place) = place_of(self.sessions.as_slice(), session) else {
            unreachable!()
        };
        self.attach(session, place, sets);
        done(success)
    }
}
