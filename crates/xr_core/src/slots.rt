// What actions show in each session, by the sessions' slots.
ghost use Rattle.std.specs.Prelude.{◌≡◌, ◌<◌, length, map, replicate, slice_set, slice_index_or, true, false, All, IfOk};
ghost use Rattle.xr_types.specs.declared.handles.TheConstants.{SESSIONS};
ghost use Rattle.xr_types.specs.Device.{is_time};
ghost use Rattle.xr_model.specs.machine.Sync.{no_columns, columns_after, left_columns};
ghost use Rattle.xr_sync.specs.Ranks.{IsPlaced};

use std::alloc::Global;
use xr_sync::Columns;
use xr_types::{ACTIONS, Column, Heard, Inputs, NoMemory, Ranked, SESSIONS, States, USERS};

/// How many columns an action has.
pub(crate) const COLUMNS: usize = 1 + USERS;

/// What a column shows that shows nothing.
const INACTIVE: Column = Column {
    x: 0,
    y: 0,
    changed: false,
    time: 0,
    active: false,
    origin: None,
};

/// What actions show where no session is.
pub(crate) const NOTHING_SHOWN: States = States {
    columns: [[INACTIVE; COLUMNS]; ACTIONS],
};

/// Columns for each slot, all of them inactive. Takes all memory that they ever take.
#[tactic(auto, using(crate::proofs::Start::same_more))]
pub(crate) fn start_columns(alloc: Global) -> Result<Vec<Columns>, NoMemory>
    ensures { IfOk result (λ columns. columns.items ≡ replicate SESSIONS no_columns) }
{
    let mut columns = Vec::with_capacity(alloc, SESSIONS)?;
    for _ in 0..SESSIONS {
        let own = Columns::start(alloc)?;
        columns.push_reserved(own);
    }
    Ok(columns)
}

/// Nothing is shown in a slot from now on.
pub(crate) fn clear_at(columns: &mut Vec<Columns>, slot: usize)
    requires within { slot < length columns.old.items }
    ensures { columns.new.items ≡ slice_set columns.old.items slot no_columns }
{
    let shown = &mut columns[slot];
    shown.clear();
}

/// A slot is synced: the sets that are heard, the bindings in their order, what the inputs show, and the device's clock.
#[tactic(auto, using(crate::proofs::Seats::any_default))]
pub(crate) fn sync_slot(
    columns: &mut Vec<Columns>,
    slot: usize,
    heard: &[Heard],
    bindings: &[Ranked],
    inputs: &Inputs,
    clock: i64,
)
    requires within { slot < length columns.old.items }
    requires placed { All IsPlaced bindings.now }
    requires time { is_time clock ≡ true }
    ensures { columns.new.items ≡ slice_set columns.old.items slot (columns_after heard.now bindings.now inputs.now clock (slice_index_or columns.old.items slot no_columns)) }
{
    let own = &mut columns[slot];
    own.sync(heard, bindings, inputs, clock);
}

/// Only the actions in these places are left in each slot.
fn leave_each(columns: &mut [Columns], there: &[bool; ACTIONS])
    ensures { columns.new ≡ map (left_columns (λ place. slice_index_or there.now place false)) columns.old }
{
    for own in columns.iter_mut() {
        own.leave(there);
    }
}

/// Only the actions in these places are left in all slots.
pub(crate) fn leave_all(columns: &mut Vec<Columns>, there: &[bool; ACTIONS])
    ensures { columns.new.items ≡ map (left_columns (λ place. slice_index_or there.now place false)) columns.old.items }
{
    leave_each(columns.as_mut_slice(), there);
}
