// The action sets with their actions, and the calls on them.
ghost use Rattle.std.specs.Prelude.{◌≡◌, ◌≤◌, ◌<◌, ◌==◌, ◌&&◌, None, length, IfOk};
ghost use Rattle.std.specs.List.{list_any};
ghost use Rattle.std.specs.Option.{option_copied};
ghost use Rattle.xr_model.specs.machine.PartAnswers.{code_by};
ghost use Rattle.xr_model.specs.machine.Refusals.{first_of};
ghost use Rattle.xr_model.specs.machine.Sets.{no_sets, same_text, set_at, action_at, set_priority, set_of_action, type_of_action, is_sealed, is_in_sealed_set, action_declares, set_declares, is_declared, set_checks, action_checks, action_label_checks, with_set, with_action, without_input, sets_named, with_sealed};
ghost use Rattle.xr_sets.specs.NewActions.{new_action};

use crate::action::Action;
use crate::set::{Set, named_among, seal_sets};
use crate::texts::{check_new_label, check_new_name, copied};
use arrayvec::ArrayVec;
use std::alloc::Global;
use std::marker::Model;
use xr_types::{ACTION_SETS, ACTIONS, ActionType, Code, NoMemory, USERS, User};

/// An action that is to be created: its handle and that of its set, its name and its localized name, its type, and for
/// each user path, at its `user_place`, whether it declares it.
#[derive(Clone, Copy)]
pub struct NewAction<'a> {
    pub handle: u64,
    pub set: u64,
    pub name: &'a [u8],
    pub localized: &'a [u8],
    pub kind: ActionType,
    pub declared: [bool; USERS],
}

/// The action sets and the actions in the order of their creation, in room for as many as there may be, which is taken once.
/// Contracts see the machine's sets.
#[derive(Drop)]
pub struct Sets {
    sets: Vec<Set>,
    actions: Vec<Action>,
}

impl Model for Sets {
    ghost use Rattle.std.specs.Prelude.{◌≡◌, vec_capacity};
    ghost use Rattle.xr_types.specs.declared.handles.TheConstants.{ACTION_SETS, ACTIONS};
    ghost use Rattle.xr_model.specs.machine.Sets as model;

    ghost Value = { model.Sets };

    ghost view = { λ s. record { sets = s.sets.items; actions = s.actions.items } };

    ghost invariant = { λ s. (vec_capacity s.sets ≡ ACTION_SETS) × (vec_capacity s.actions ≡ ACTIONS) };
}

impl Sets {
    /// No set and no action yet. Takes the room of 16 sets and 64 actions, and nothing later takes memory. `NoMemory` comes where
    /// there isn't as much.
    pub fn start(alloc: Global) -> Result<Sets, NoMemory>
        ensures { IfOk result (λ sets. sets ≡ no_sets) }
    {
        let (Ok(sets), Ok(actions)) = (
            Vec::with_capacity(alloc, ACTION_SETS),
            Vec::with_capacity(alloc, ACTIONS),
        ) else {
            return Err(NoMemory);
        };
        Ok(Sets { sets, actions })
    }

    /// Checks the names of a set that is asked for, which differ among the sets. Refused are, in this order, a name that
    /// is empty, longer than 63 bytes or made of periods alone (`NameInvalid`), one with a byte that no name has
    /// (`PathFormatInvalid`), one that is taken (`NameDuplicated`), a localized name that isn't UTF-8 of 1 to 127 bytes
    /// (`LocalizedNameInvalid`), and one that is taken (`LocalizedNameDuplicated`); else it is a `Success`. OpenXR 1.0
    /// chapter 11, xrCreateActionSet.
    pub fn check_set(&self, name: &[u8], localized: &[u8]) -> Code
        ensures { result ≡ code_by (first_of (set_checks self.now name.now localized.now)) }
    {
        match check_new_name(name, self.has_set_name(name)) {
            Code::Success => check_new_label(localized, self.has_set_label(localized)),
            code => code,
        }
    }

    /// A set was created: it stands behind the others with its handle, its names and its priority, any number, and isn't
    /// sealed. Before, there are fewer than 16 sets, and `check_set` refuses nothing. OpenXR 1.0
    /// chapter 11, xrCreateActionSet.
    pub fn add_set(&mut self, handle: u64, name: &[u8], localized: &[u8], priority: u32)
        requires room { length self.old.sets < 16 }
        requires checked { first_of (set_checks self.old name.now localized.now) ≡ None }
        ensures { self.new ≡ with_set self.old handle name.now localized.now priority }
    {
        self.sets.push_reserved(Set {
            handle,
            name: copied(name),
            localized: copied(localized),
            priority,
            sealed: false,
        });
    }

    /// Checks the name of an action that is asked for in a set, which differs among the actions of that set. Refused are,
    /// in this order, a set that any session ever attached (`ActionsetsAlreadyAttached`), a name that is empty, longer
    /// than 63 bytes or made of periods alone (`NameInvalid`), one with a byte that no name has (`PathFormatInvalid`),
    /// and one that is taken (`NameDuplicated`); else it is a `Success`. OpenXR 1.0 chapter 11, xrCreateAction.
    pub fn check_action(&self, set: u64, name: &[u8]) -> Code
        ensures { result ≡ code_by (first_of (action_checks self.now set name.now)) }
    {
        if self.sealed(set) {
            return Code::ActionsetsAlreadyAttached;
        }
        check_new_name(name, self.has_action_name(set, name))
    }

    /// Checks the localized name of an action that is asked for in a set, which differs among the actions of that set.
    /// Refused are, in this order, one that isn't UTF-8 of 1 to 127 bytes (`LocalizedNameInvalid`), and one that is taken
    /// (`LocalizedNameDuplicated`); else it is a `Success`. OpenXR 1.0 chapter 11, xrCreateAction.
    pub fn check_label(&self, set: u64, localized: &[u8]) -> Code
        ensures { result ≡ code_by (first_of (action_label_checks self.now set localized.now)) }
    {
        check_new_label(localized, self.has_action_label(set, localized))
    }

    /// An action was created: it stands behind the others. Before, there are fewer than 64 actions, and neither
    /// `check_action` nor `check_label` refuses anything. OpenXR 1.0 chapter 11, xrCreateAction.
    pub fn add_action(&mut self, action: NewAction)
        requires room { length self.old.actions < 64 }
        requires name { first_of (action_checks self.old action.set action.name.now) ≡ None }
        requires label { first_of (action_label_checks self.old action.set action.localized.now) ≡ None }
        ensures { self.new ≡ with_action self.old (new_action action.entry.handle action.entry.set action.entry.name.now action.entry.localized.now action.entry.kind action.entry.declared) }
    {
        self.actions.push_reserved(Action {
            handle: action.handle,
            set: action.set,
            name: copied(action.name),
            localized: copied(action.localized),
            kind: action.kind,
            declared: action.declared,
        });
    }

    /// The sets of these handles, each once, in the order of their creation. OpenXR 1.0 chapter 11,
    /// xrAttachSessionActionSets.
    pub fn named(&self, handles: &[u64]) -> ArrayVec<u64, ACTION_SETS>
        ensures { result.items ≡ sets_named self.now handles.now }
    {
        named_among(self.sets.as_slice(), handles)
    }

    /// A session attached these sets, by their handles: they are sealed from now on. A handle of no set changes none. OpenXR
    /// 1.0 chapter 11, xrAttachSessionActionSets.
    pub fn seal(&mut self, handles: &[u64])
        ensures { self.new ≡ with_sealed self.old handles.now }
    {
        seal_sets(self.sets.as_mut_slice(), handles);
    }

    /// The set or the action of a handle was destroyed; where there is none, all stays as it was. The actions of a set
    /// stay until they are removed by their own handles. OpenXR 1.0 chapter 11, xrDestroyActionSet and xrDestroyAction.
    pub fn remove(&mut self, handle: u64)
        ensures { self.new ≡ without_input self.old handle }
    {
        self.sets.retain(|set| set.handle != handle);
        self.actions.retain(|action| action.handle != handle);
    }

    /// The priority of a set by its handle, where there is one: of two sets, the larger number comes first. OpenXR 1.0
    /// chapter 11, XrActionSetCreateInfo.
    pub fn priority(&self, set: u64) -> Option<u32>
        ensures { result ≡ set_priority self.now set }
    {
        self.set_at(set).map(|set| set.priority)
    }

    /// The handle of an action's set, where there is an action of this handle. OpenXR 1.0 chapter 11, xrCreateAction.
    pub fn set_of(&self, action: u64) -> Option<u64>
        ensures { result ≡ set_of_action self.now action }
    {
        self.action_at(action).map(|action| action.set)
    }

    /// Whether any session ever attached the set of this action, where there is one of this handle. OpenXR 1.0 chapter
    /// 11, xrSuggestInteractionProfileBindings.
    pub fn is_in_sealed_set(&self, action: u64) -> bool
        ensures { result ≡ is_in_sealed_set self.now action }
    {
        self.set_of(action).is_some_and(|set| self.sealed(set))
    }

    /// The type of an action by its handle, where there is one. OpenXR 1.0 chapter 11, XrActionType.
    pub fn kind_of(&self, action: u64) -> Option<ActionType>
        ensures { result ≡ type_of_action self.now action }
    {
        self.action_at(action).map(|action| action.kind)
    }

    /// Whether there is an action of this handle, and it declares the user path. OpenXR 1.0 chapter 11,
    /// XrActionCreateInfo.
    pub fn declares(&self, action: u64, user: User) -> bool
        ensures { result ≡ action_declares self.now action user }
    {
        self.action_at(action)
            .is_some_and(|action| action.declares(user))
    }

    /// Whether some action of the set declares the user path. OpenXR 1.0 chapter 11, XrActionCreateInfo.
    pub fn set_declares(&self, set: u64, user: User) -> bool
        ensures { result ≡ set_declares self.now set user }
    {
        self.actions
            .iter()
            .any(|action| action.set == set && action.declares(user))
    }

    /// Whether there is a set of this handle, and any session ever attached it. OpenXR 1.0 chapter 11,
    /// xrAttachSessionActionSets.
    pub fn sealed(&self, set: u64) -> bool
        ensures { result ≡ is_sealed self.now set }
    {
        self.set_at(set).is_some_and(|set| set.sealed)
    }

    /// Whether some set has this name.
    fn has_set_name(&self, name: &[u8]) -> bool
        ensures { result ≡ list_any (λ x. same_text x.name name.now) self.now.sets }
    {
        self.sets.iter().any(|set| set.name.as_slice() == name)
    }

    /// Whether some set has this localized name.
    fn has_set_label(&self, localized: &[u8]) -> bool
        ensures { result ≡ list_any (λ x. same_text x.localized localized.now) self.now.sets }
    {
        self.sets
            .iter()
            .any(|set| set.localized.as_slice() == localized)
    }

    /// Whether some action of the set has this name.
    fn has_action_name(&self, set: u64, name: &[u8]) -> bool
        ensures { result ≡ list_any (λ x. x.set == set && same_text x.name name.now) self.now.actions }
    {
        self.actions.iter().any(|action| action.set == set && action.name.as_slice() == name)
    }

    /// Whether some action of the set has this localized name.
    fn has_action_label(&self, set: u64, localized: &[u8]) -> bool
        ensures { result ≡ list_any (λ x. x.set == set && same_text x.localized localized.now) self.now.actions }
    {
        self.actions.iter().any(|action| action.set == set
            && action.localized.as_slice() == localized)
    }

    /// The set of a handle, where it is one's.
    fn set_at(&self, handle: u64) -> Option<&Set>
        ensures { option_copied result ≡ set_at self.now handle }
    {
        self.sets.iter().find(|set| set.handle == handle)
    }

    /// All actions, in the order of their creation, 64 at most.
    pub fn actions(&self) -> &[Action]
        ensures actions { result.now ≡ self.now.actions }
        ensures few { length result.now ≤ 64 }
    {
        self.actions.as_slice()
    }

    /// Whether some action declares a user path.
    pub fn some_declares(&self, user: User) -> bool
        ensures { result ≡ list_any (λ x. is_declared x.declared user) self.now.actions }
    {
        self.actions
            .as_slice()
            .iter()
            .any(|action| action.declares(user))
    }

    /// The action of a handle, where it is one's. OpenXR 1.0 chapter 11, xrCreateAction.
    pub fn action_at(&self, handle: u64) -> Option<&Action>
        ensures { option_copied result ≡ action_at self.now handle }
    {
        self.actions.iter().find(|action| action.handle == handle)
    }
}
