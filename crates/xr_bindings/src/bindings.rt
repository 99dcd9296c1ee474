// The suggestions for all profiles, and the calls on them.
ghost use Rattle.std.specs.Prelude.{◌≡◌, ◌≤◌, None, true, length};
ghost use Rattle.std.specs.List.{list_all};
ghost use Rattle.xr_types.specs.Code.{is_out_of_memory};
ghost use Rattle.xr_types.specs.declared.limits.TheConstants.{MOST_SUGGESTED};
ghost use Rattle.xr_model.specs.machine.Bindings.{no_suggestions, suggestions_of, number_checks, suggest_refusals, with_suggestions, without_suggestions_of};
ghost use Rattle.xr_model.specs.machine.PartAnswers.{code_by};
ghost use Rattle.xr_model.specs.machine.Refusals.{first_of, unless};
ghost use Rattle.xr_model.specs.machine.Sync.{is_source};

use crate::profiles::{PROFILES, profile_place};
use crate::suggestions::{Suggestions, forget_action};
use std::alloc::Global;
use std::marker::Model;
use xr_types::{Bound, Code, MOST_SUGGESTED, Profile};

/// The suggestions for each profile, at its place among the four. Contracts see the list of their lists.
#[derive(Drop)]
pub struct Bindings {
    lists: [Suggestions; PROFILES],
}

impl Model for Bindings {
    ghost use Rattle.std.specs.Prelude.{List};
    ghost use Rattle.xr_types.specs.declared.input.Bound.{Bound};

    ghost Value = { List (List Bound) };

    ghost view = { λ b. b.lists };
}

impl Bindings {
    /// Nothing is suggested for any profile. Takes no memory: each new list takes its own.
    pub fn start() -> Bindings
        ensures { result ≡ no_suggestions }
    {
        Bindings {
            lists: [
                Suggestions::none(),
                Suggestions::none(),
                Suggestions::none(),
                Suggestions::none(),
            ],
        }
    }

    /// Suggests these bindings for a profile, in this order, in the place of those that were suggested for it before.
    /// Refused are, in this order, an empty list (`ValidationFailure`), one of more than 512 (`LimitReached`), and one
    /// for which there is no memory (`OutOfMemory`); each leaves all as it was. No other call takes memory. The time is linear
    /// in the list's length. Each picks one of the thirty identifiers. OpenXR 1.0 chapter 11,
    /// xrSuggestInteractionProfileBindings.
    pub fn suggest(&mut self, alloc: Global, profile: Profile, list: &[Bound]) -> Code
        requires sources { list_all is_source list.now ≡ true }
        ensures state { self.new ≡ unless (first_of (suggest_refusals list.now (is_out_of_memory result))) self.old (with_suggestions self.old profile list.now) }
        ensures code { result ≡ code_by (first_of (suggest_refusals list.now (is_out_of_memory result))) }
        ensures memory { is_out_of_memory result ≡ true → first_of (number_checks list.now) ≡ None }
    {
        if list.is_empty() {
            return Code::ValidationFailure;
        }
        if list.len() > MOST_SUGGESTED {
            return Code::LimitReached;
        }
        let Ok(suggestions) = Suggestions::from_slice(alloc, list) else {
            return Code::OutOfMemory;
        };
        self.lists[profile_place(profile)] = suggestions;
        Code::Success
    }

    /// What is suggested for a profile, in the order of the call, and nothing where it never was. OpenXR 1.0 chapter 11,
    /// xrSuggestInteractionProfileBindings.
    pub fn of_profile(&self, profile: Profile) -> &[Bound]
        ensures list { result.now ≡ suggestions_of self.now profile }
        ensures few { length result.now ≤ MOST_SUGGESTED }
        ensures sources { list_all is_source result.now ≡ true }
    {
        self.lists[profile_place(profile)].as_slice()
    }

    /// An action was destroyed: its suggestions for all profiles go, and the others stay in their order. An action that
    /// has none changes nothing. OpenXR 1.0 chapter 11, xrDestroyAction.
    pub fn forget(&mut self, action: u64)
        ensures { self.new ≡ without_suggestions_of self.old action }
    {
        forget_action(&mut self.lists, action);
    }

    /// The instance is gone: nothing is suggested for any profile, and the memory of the lists is given back. OpenXR 1.0
    /// chapter 4, xrDestroyInstance.
    pub fn clear(&mut self)
        ensures { self.new ≡ no_suggestions }
    {
        *self = Bindings::start();
    }
}
