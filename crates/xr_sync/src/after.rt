// What a column shows after a sync, from what it found and what it showed.
ghost use Rattle.std.specs.Prelude.{◌≡◌};
ghost use Rattle.xr_model.specs.machine.Sync.{value_before, differs, time_of, column_after};

use xr_types::{Column, Found};

/// What a column shows that found nothing.
pub(crate) const INACTIVE: Column = Column {
    x: 0,
    y: 0,
    changed: false,
    time: 0,
    active: false,
    origin: None,
};

/// The value that a column showed; an inactive one counts as zero.
fn value_before(before: Column) -> (i32, i32)
    ensures { result ≡ value_before before }
{
    if before.active {
        (before.x, before.y)
    } else {
        (0, 0)
    }
}

/// Whether what was found differs from the value before.
fn differs(found: Found, before: (i32, i32)) -> bool
    ensures { result ≡ differs found before }
{
    !(found.x == before.0 && found.y == before.1)
}

/// The time of the last change, in ns of device time.
fn time_of(changed: bool, clock: &i64, before: Column) -> i64
    ensures { result ≡ time_of changed clock.now before }
{
    if changed {
        *clock
    } else if before.active {
        before.time
    } else {
        0
    }
}

/// What a column shows after the sync.
#[tactic(auto, unfolding(xr_model::specs::machine::Sync::column_after))]
pub(crate) fn column_after(clock: &i64, before: Column, found: Found) -> Column
    ensures { result ≡ column_after clock.now before found }
{
    if !found.active {
        return INACTIVE;
    }
    let changed = differs(found, value_before(before));
    Column {
        x: found.x,
        y: found.y,
        changed,
        time: time_of(changed, clock, before),
        active: true,
        origin: found.origin,
    }
}
