// One row of places: what is found in it, put into it, and swept out of it.
ghost use Rattle.std.specs.Prelude.{◌≡◌, ◌≤◌, ◌<◌, ◌+◌, ◌++◌, ℕ, [], false, length, slice_index_or, is_some, option_map, IfSome, if◌then◌else◌};
ghost use Rattle.xr_model.specs.machine.Destroyed.{has_action};
ghost use Rattle.xr_model.specs.machine.Handles.{free, first_free, put_in, has, goes, going, cleared};
ghost use Rattle.xr_model.specs.machine.HandlePlaces.{place_in, slot_in};

use arrayvec::ArrayVec;
use xr_types::{ACTIONS, MOST_HANDLES, Slot};

/// A place without a handle.
pub(crate) const FREE: Slot = Slot {
    handle: 0,
    parent: 0,
};

/// The first free place of a row.
pub(crate) fn free_place(row: &[Slot]) -> Option<usize>
    ensures place { result ≡ first_free row.now }
    ensures within { IfSome result (λ k. k < length row.now) }
{
    row.iter().position(|slot| slot.handle == 0)
}

/// Puts a handle into the first free place, where there is one.
pub(crate) fn put(row: &mut [Slot], handle: u64, parent: u64) -> bool
    ensures fits { result ≡ is_some (first_free row.old) }
    ensures row { row.new ≡ put_in row.old (record { handle = handle; parent = parent }) (first_free row.old) }
{
    let Some(place) = free_place(row) else {
        return false;
    };
    row[place] = Slot { handle, parent };
    true
}

/// Whether a handle stands in a row.
pub(crate) fn has(row: &[Slot], handle: u64) -> bool
    ensures { result ≡ has row.now handle }
{
    row.iter().any(|slot| slot.handle == handle)
}

/// The place of a handle in a row.
pub(crate) fn place_in(row: &[Slot], handle: u64) -> Option<usize>
    ensures place { result ≡ place_in row.now handle }
    ensures within { IfSome result (λ k. k < length row.now) }
{
    row.iter().position(|slot| slot.handle == handle)
}

/// In which places of the row of actions a handle stands.
pub(crate) fn told_by_places(row: &[Slot; ACTIONS]) -> [bool; ACTIONS]
    ensures { (place : ℕ) → slice_index_or result place false ≡ has_action row.now place }
{
    row.map(|slot| slot.handle != 0)
}

/// The parent of a handle of a row.
pub(crate) fn parent_in(row: &[Slot], handle: u64) -> Option<u64>
    ensures { result ≡ option_map (λ s. s.parent) (slot_in row.now handle) }
{
    match row.iter().find(|slot| slot.handle == handle) {
        Some(slot) => Some(slot.parent),
        None => None,
    }
}

/// Whether a place's handle is the one that is destroyed or is below one that goes.
#[tactic(auto, unfolding(xr_model::specs::machine::Handles::goes))]
fn leaves(slot: Slot, handle: u64, above: &[u64]) -> bool
    ensures { result ≡ goes handle above.now slot }
{
    slot.handle != 0 && (slot.handle == handle || above.contains(&slot.parent))
}

/// Frees the places of the handles that go, and lists these.
pub(crate) fn sweep(
    row: &mut [Slot],
    handle: u64,
    above: &[u64],
    destroyed: &mut ArrayVec<u64, MOST_HANDLES>,
)
    requires { length destroyed.old.items + length row.old ≤ 165 }
    ensures row { row.new ≡ cleared handle above.now row.old }
    ensures destroyed { destroyed.new.items ≡ destroyed.old.items ++ going handle above.now row.old }
    ensures few { length destroyed.new.items ≤ length destroyed.old.items + length row.old }
{
    let count = row.len();
    for i in 0..count {
        let slot = row[i];
        if leaves(slot, handle, above) {
            destroyed.push(slot.handle);
            row[i] = FREE;
        }
    }
}

/// Frees a place where this handle stands in it, below which nothing stands.
fn vacate(slot: &mut Slot, handle: u64)
    ensures { slot.new ≡ if goes handle [] slot.old then free else slot.old }
{
    if leaves(*slot, handle, &[]) {
        *slot = FREE;
    }
}

/// Frees the place of a handle, below which nothing stands.
pub(crate) fn clear(row: &mut [Slot], handle: u64)
    ensures { row.new ≡ cleared handle [] row.old }
{
    for slot in row.iter_mut() {
        vacate(slot, handle);
    }
}

/// The same handles in the same order.
pub(crate) fn copied(all: &ArrayVec<u64, MOST_HANDLES>) -> ArrayVec<u64, MOST_HANDLES>
    ensures { result.items ≡ all.now.items }
{
    let mut same = ArrayVec::new();
    for handle in all.as_slice() {
        same.push(*handle);
    }
    same
}
