// What is suggested for one profile, and what an action that goes takes from all of them.
ghost use Rattle.std.specs.Prelude.{◌≡◌, ◌≤◌, ◌==◌, ◌||◌, [], true, nat_le, not, map, take, length, IfOk};
ghost use Rattle.std.specs.List.{filter, list_all, list_any};
ghost use Rattle.xr_types.specs.declared.limits.TheConstants.{MOST_SUGGESTED};
ghost use Rattle.xr_model.specs.machine.Bindings.{without_suggestions_of};
ghost use Rattle.xr_model.specs.machine.Sync.{is_source};

use std::alloc::{AllocError, Global};
use std::boxed::BoxedSlice;
use std::marker::Model;
use xr_types::Bound;

/// The suggestions for a profile, if there were any, seen by contracts as their list, in the order of the call. What is
/// suggested takes the memory for all of it once: its list can't grow, so what goes later takes none.
#[derive(Drop)]
pub(crate) struct Suggestions {
    list: Option<BoxedSlice<Bound>>,
    /// How many are left, at the front of the list.
    left: usize,
    /// None that is left is for an action behind this one.
    last: u64,
}

impl Model for Suggestions {
    ghost use Rattle.std.specs.Prelude.{List, [], ◌≤◌, ◌≡◌, true, nat_le, option_map, unwrap_or, take, length};
    ghost use Rattle.std.specs.List.{list_all};
    ghost use Rattle.xr_types.specs.declared.input.Bound.{Bound};
    ghost use Rattle.xr_types.specs.declared.limits.TheConstants.{MOST_SUGGESTED};
    ghost use Rattle.xr_model.specs.machine.Sync.{is_source};

    ghost Value = { List Bound };

    ghost view = { λ s. take s.left (unwrap_or (option_map (λ list. list.items.items) s.list) []) };

    ghost invariant = { λ s. (s.left ≤ length (unwrap_or (option_map (λ list. list.items.items) s.list) [])) × (s.left ≤ MOST_SUGGESTED) × (list_all is_source (take s.left (unwrap_or (option_map (λ list. list.items.items) s.list) [])) ≡ true) × (list_all (λ b. nat_le b.action s.last) (take s.left (unwrap_or (option_map (λ list. list.items.items) s.list) [])) ≡ true) };
}

impl Suggestions {
    /// Nothing is suggested.
    pub(crate) fn none() -> Suggestions
        ensures { result ≡ [] }
    {
        Suggestions {
            list: None,
            left: 0,
            last: 0,
        }
    }

    /// These are suggested. Takes the memory for a copy of them, where there is as much.
    pub(crate) fn from_slice(alloc: Global, list: &[Bound]) -> Result<Suggestions, AllocError>
        requires few { length list.now ≤ MOST_SUGGESTED }
        requires sources { list_all is_source list.now ≡ true }
        ensures { IfOk result (λ suggestions. suggestions ≡ list.now) }
    {
        let left = list.len();
        let last = last_of(list);
        let list = BoxedSlice::from_slice(alloc, list)?;
        Ok(Suggestions {
            list: Some(list),
            left,
            last,
        })
    }

    /// What is suggested.
    pub(crate) fn as_slice(&self) -> &[Bound]
        ensures list { result.now ≡ self.now }
        ensures few { length result.now ≤ MOST_SUGGESTED }
        ensures sources { list_all is_source result.now ≡ true }
    {
        match &self.list {
            Some(list) => &list.as_slice()[..self.left],
            None => &[],
        }
    }

    /// Takes those of an action away.
    fn forget(&mut self, action: u64)
        ensures { self.new ≡ filter (λ b. not (b.action == action)) self.old }
    {
        if action > self.last {
            return;
        }
        if let Some(list) = &mut self.list {
            self.left = keep_others(list.as_mut_slice(), self.left, action);
        }
    }
}

/// The action of these that was created last, or 0 where there is none.
fn last_of(list: &[Bound]) -> u64
    ensures most { list_all (λ b. nat_le b.action result) list.now ≡ true }
    ensures of_these { ((result == 0) || list_any (λ b. b.action == result) list.now) ≡ true }
{
    let mut last = 0;
    for bound in list {
        if bound.action > last {
            last = bound.action;
        }
    }
    last
}

/// Whether any of these is for an action.
fn has(list: &[Bound], action: u64) -> bool
    ensures { result ≡ list_any (λ b. b.action == action) list.now }
{
    list.iter().any(|bound| bound.action == action)
}

/// Of the first `left`, moves those for other actions to the front, in their order, and tells how many they are. Mostly
/// all are for others, so nothing is moved before one is found that isn't.
fn keep_others(list: &mut [Bound], left: usize, action: u64) -> usize
    requires { left ≤ length list.old }
    ensures list { take result list.new ≡ filter (λ b. not (b.action == action)) (take left list.old) }
    ensures within { result ≤ left }
{
    if !has(&list[..left], action) {
        return left;
    }
    let mut kept = 0;
    for next in 0..left {
        let bound = list[next];
        if bound.action != action {
            list[kept] = bound;
            kept += 1;
        }
    }
    kept
}

/// Takes those of an action from all lists.
pub(crate) fn forget_action(lists: &mut [Suggestions], action: u64)
    ensures { lists.new ≡ without_suggestions_of lists.old action }
{
    for list in lists.iter_mut() {
        list.forget(action);
    }
}
