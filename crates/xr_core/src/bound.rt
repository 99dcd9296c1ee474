// What suggested bindings come to: a profile by its atom, and what each binding picks of its controller. It changes no part.
ghost use Rattle.std.specs.Prelude.{◌≡◌, ◌≤◌, ◌<◌, ◌++◌, [], ◌∷◌, IfOk, length, filter_map, flat_map};
ghost use Rattle.std.specs.Result.{result_map_both};
ghost use Rattle.xr_types.specs.declared.limits.TheConstants.{MOST_SUGGESTED};
ghost use Rattle.xr_model.specs.machine.Refusals.{first_of};
ghost use Rattle.xr_model.specs.machine.Rules.Bindings.{profile_at, profile_checks, pick_of, binding_checks, bound_of};
ghost use Rattle.xr_model.specs.machine.PartAnswers.{or_refused};
ghost use Rattle.xr_core.specs.inside.Refusing.{some_or_refused};

use crate::parts::Parts;
use std::alloc::Global;
use std::marker::Model;
use xr_profiles::{component, profile_of};
use xr_types::{Binding, Bound, Code, Kind, MOST_SUGGESTED, NoMemory, Pick, Profile};

/// What the bindings of a call come to, in their order. Its room is taken at the start, and each call fills it anew.
#[derive(Drop)]
pub(crate) struct Draft {
    list: Vec<Bound>,
}

impl Model for Draft {
    ghost use Rattle.std.specs.Prelude.{List, ◌≤◌, vec_capacity};
    ghost use Rattle.xr_types.specs.declared.input.Bound.{Bound};
    ghost use Rattle.xr_types.specs.declared.limits.TheConstants.{MOST_SUGGESTED};

    ghost Value = { List Bound };

    ghost view = { λ d. d.list.items };

    ghost invariant = { λ d. MOST_SUGGESTED ≤ vec_capacity d.list };
}

impl Draft {
    /// Nothing yet. Takes the room of as many as may be suggested at once, and nothing later takes any.
    pub(crate) fn start(alloc: Global) -> Result<Draft, NoMemory>
        ensures { IfOk result (λ draft. draft ≡ []) }
    {
        let list = Vec::with_capacity(alloc, MOST_SUGGESTED)?;
        Ok(Draft { list })
    }

    /// Nothing from now on.
    fn clear(&mut self)
        ensures { self.new ≡ [] }
    {
        self.list.clear();
    }

    /// One more.
    fn push(&mut self, bound: Bound)
        requires room { length self.old < MOST_SUGGESTED }
        ensures { self.new ≡ self.old ++ bound ∷ [] }
    {
        self.list.push_reserved(bound);
    }

    /// All of them.
    pub(crate) fn as_slice(&self) -> &[Bound]
        ensures { result.now ≡ self.now }
    {
        self.list.as_slice()
    }
}

impl Parts {
    /// The profile of an atom. Refused are what is no atom (`PathInvalid`), and the atom of another path
    /// (`PathUnsupported`).
    pub(crate) fn profile_at(&self, atom: u64) -> Result<Profile, Code>
        ensures { result ≡ some_or_refused (first_of (profile_checks self.now.atoms atom)) (profile_at self.now.atoms atom) }
    {
        let Some(text) = self.paths.text_at(atom) else {
            return Err(Code::PathInvalid);
        };
        profile_of(text).ok_or(Code::PathUnsupported)
    }

    /// What a binding picks of a profile's controller. Refused are, in this order, what is no live action
    /// (`HandleInvalid`), an action of a set that any session ever attached (`ActionsetsAlreadyAttached`), what is no atom
    /// (`PathInvalid`), and a path by which the controller has no part for the action's type (`PathUnsupported`).
    fn pick_of(&self, profile: Profile, binding: Binding) -> Result<Pick, Code>
        ensures { result ≡ some_or_refused (first_of (binding_checks self.now profile binding)) (pick_of self.now profile binding) }
    {
        if !self.handles.is_live(Kind::Action, binding.action) {
            return Err(Code::HandleInvalid);
        }
        if self.inputs.is_in_sealed_set(binding.action) {
            return Err(Code::ActionsetsAlreadyAttached);
        }
        let Some(path) = self.paths.text_at(binding.path) else {
            return Err(Code::PathInvalid);
        };
        match self.inputs.kind_of(binding.action) {
            Some(kind) => component(profile, kind, path).ok_or(Code::PathUnsupported),
            None => Err(Code::PathUnsupported),
        }
    }

    /// What these bindings come to, in their order, or the refusal of the first that is refused. There are 512 of them at
    /// most. The time is linear in their number. The draft has room for them, since a list of so many is kilobytes to move.
    pub(crate) fn bound_by(
        &self,
        profile: Profile,
        list: &[Binding],
        draft: &mut Draft,
    ) -> Result<(), Code>
        requires { length list.now ≤ MOST_SUGGESTED }
        ensures bound { result_map_both (λ done. draft.new) (λ code. code) result ≡ or_refused (first_of (flat_map (binding_checks self.now profile) list.now)) (filter_map (bound_of self.now profile) list.now) }
        ensures counted { IfOk result (λ done. length draft.new ≡ length list.now) }
    {
        draft.clear();
        for binding in list {
            match self.pick_of(profile, *binding) {
                Ok(pick) => draft.push(Bound {
                    action: binding.action,
                    pick,
                }),
                Err(code) => return Err(code),
            }
        }
        Ok(())
    }
}
