// One action set, which of all a session names, and what it does to them.
ghost use Rattle.std.specs.Prelude.{◌≡◌, ◌≤◌, ◌<◌, ◌+◌, ◌++◌, [], ◌∷◌, map, length, if◌then◌else◌};
ghost use Rattle.std.specs.List.{filter};
ghost use Rattle.xr_types.specs.declared.handles.TheConstants.{ACTION_SETS};
ghost use Rattle.xr_model.specs.machine.Handles.{is_among};
ghost use Rattle.xr_model.specs.machine.Sets as model;
ghost use Rattle.xr_model.specs.machine.Sets.{sealed_by};

use arrayvec::ArrayVec;
use std::marker::Model;
use xr_types::{ACTION_SETS, MOST_LOCALIZED, MOST_NAME};

/// An action set by its handle: its name, its localized name, its priority, and whether it is sealed: whether any session
/// ever attached it. Contracts see the machine's set.
#[derive(Default, Drop)]
pub(crate) struct Set {
    pub(crate) handle: u64,
    pub(crate) name: ArrayVec<u8, MOST_NAME>,
    pub(crate) localized: ArrayVec<u8, MOST_LOCALIZED>,
    pub(crate) priority: u32,
    pub(crate) sealed: bool,
}

impl Model for Set {
    ghost use Rattle.xr_model.specs.machine.Sets as model;

    ghost Value = { model.Set };

    ghost view = { λ s. record {
      handle = s.handle;
      name = s.name.items;
      localized = s.localized.items;
      priority = s.priority;
      sealed = s.sealed;
    } };
}

/// Adds the handle of a set that is among these.
fn add_named(named: &mut ArrayVec<u64, ACTION_SETS>, set: &Set, handles: &[u64])
    requires { length named.old.items < ACTION_SETS }
    ensures items { named.new.items ≡ if is_among handles.now set.now.handle then named.old.items ++ set.now.handle ∷ [] else named.old.items }
    ensures few { length named.new.items ≤ length named.old.items + 1 }
{
    if handles.contains(&set.handle) {
        named.push(set.handle);
    }
}

/// The handles of those that are among these.
pub(crate) fn named_among(sets: &[Set], handles: &[u64]) -> ArrayVec<u64, ACTION_SETS>
    requires { length sets.now ≤ ACTION_SETS }
    ensures { result.items ≡ map (λ x. x.handle) (filter (λ x. is_among handles.now x.handle) sets.now) }
{
    let mut named = ArrayVec::new();
    for set in sets.iter() {
        add_named(&mut named, set, handles);
    }
    named
}

/// Seals a set that is among these.
fn seal_by(handles: &[u64], set: &mut Set)
    ensures { set.new ≡ sealed_by handles.now set.old }
{
    if handles.contains(&set.handle) {
        set.sealed = true;
    }
}

/// Seals the sets that are among these.
pub(crate) fn seal_sets(sets: &mut [Set], handles: &[u64])
    ensures { sets.new ≡ map (sealed_by handles.now) sets.old }
{
    for set in sets.iter_mut() {
        seal_by(handles, set);
    }
}
