// What all columns show after a sync, from the table of what they found.
ghost use Rattle.std.specs.Prelude.{◌≡◌, ◌≤◌, ◌<◌, false, length, All, slice_index_or, if◌then◌else◌};
ghost use Rattle.xr_model.specs.machine.Sync.{columns_after, inactive_row, left_columns, no_columns};
ghost use Rattle.xr_sync.specs.Ranks.{IsPlaced};
ghost use Rattle.xr_sync.specs.Tables.{no_row, no_table, row_after, rows_after, AreBeyond, IsQuiet, IsTidy};

use crate::after::{INACTIVE, column_after};
use crate::found::{ACTIONS, COLUMNS, NOTHING, gather};
use xr_types::{Column, Found, Heard, Inputs, Ranked};

/// The columns of an action after the sync.
fn update(row: &mut [Column; COLUMNS], found: &[Found; COLUMNS], clock: &i64)
    ensures after { row.new ≡ row_after clock.now row.old found.now }
    ensures six { length row.old ≡ 6 }
{
    for column in 0..COLUMNS {
        row[column] = column_after(clock, row[column], found[column]);
    }
}

/// The same where some of them is active or was. What was found is forgotten.
#[tactic(auto, using(crate::proofs::Quiet::stays, crate::proofs::Quiet::tidy_after))]
fn settle_row(row: &mut [Column; COLUMNS], found: &mut [Found; COLUMNS], clock: &i64)
    requires quiet { IsQuiet found.old }
    requires tidy { IsTidy row.old }
    ensures after { row.new ≡ row_after clock.now row.old found.old }
    ensures clean { found.new ≡ no_row }
    ensures tidy { IsTidy row.new }
    ensures six { length row.old ≡ 6 }
{
    if row[0].active || found[0].active {
        update(row, found, clock);
        *found = [NOTHING; COLUMNS];
    }
}

/// The columns of all actions after the sync, where only those in the places before `reach` have found or shown anything. What
/// was found is forgotten.
fn settle(
    rows: &mut [[Column; COLUMNS]; ACTIONS],
    found: &mut [[Found; COLUMNS]; ACTIONS],
    reach: usize,
    clock: &i64,
)
    requires quiet { All IsQuiet found.old }
    requires tidy { All IsTidy rows.old }
    requires shown { AreBeyond reach inactive_row rows.old }
    requires seen { AreBeyond reach no_row found.old }
    ensures after { rows.new ≡ rows_after clock.now rows.old found.old }
    ensures clean { found.new ≡ no_table }
    ensures tidy { All IsTidy rows.new }
    ensures beyond { AreBeyond reach inactive_row rows.new }
    ensures six { All (λ row. length row ≡ 6) rows.old }
{
    for place in 0..reach {
        settle_row(&mut rows[place], &mut found[place], clock);
    }
}

/// The same of columns of which nothing is known.
fn settle_all(
    rows: &mut [[Column; COLUMNS]; ACTIONS],
    found: &[[Found; COLUMNS]; ACTIONS],
    clock: &i64,
)
    ensures after { rows.new ≡ rows_after clock.now rows.old found.now }
    ensures six { All (λ row. length row ≡ 6) rows.old }
{
    for place in 0..ACTIONS {
        update(&mut rows[place], &found[place], clock);
    }
}

/// The place behind those of these bindings, which this one is at least.
fn reach_of(bindings: &[Ranked], least: usize) -> usize
    requires placed { All IsPlaced bindings.now }
    requires within { least ≤ 64 }
    ensures within { result ≤ 64 }
    ensures least { least ≤ result }
    ensures before { All (λ b. b.place < result) bindings.now }
{
    let mut reach = least;
    for b in bindings {
        if usize::from(b.place) >= reach {
            reach = usize::from(b.place) + 1;
        }
    }
    reach
}

/// The columns after a sync, in place of those before; `found` is the table that it works with. From the place `reach` on no
/// column shows anything; answers with the place from which on none does then.
pub(crate) fn sync_tidy(
    active: &[Heard],
    bindings: &[Ranked],
    inputs: &Inputs,
    clock: &i64,
    rows: &mut [[Column; COLUMNS]; ACTIONS],
    found: &mut [[Found; COLUMNS]; ACTIONS],
    reach: usize,
) -> usize
    requires placed { All IsPlaced bindings.now }
    requires none { found.old ≡ no_table }
    requires tidy { All IsTidy rows.old }
    requires beyond { AreBeyond reach inactive_row rows.old }
    ensures after { rows.new ≡ columns_after active.now bindings.now inputs.now clock.now rows.old }
    ensures clean { found.new ≡ no_table }
    ensures tidy { All IsTidy rows.new }
    ensures beyond { AreBeyond result inactive_row rows.new }
{
    let reach = reach_of(bindings, reach);
    gather(active, bindings, inputs, found);
    settle(rows, found, reach, clock);
    reach
}

/// The same of columns of which nothing is known, with a table of its own.
pub(crate) fn sync_all(
    active: &[Heard],
    bindings: &[Ranked],
    inputs: &Inputs,
    clock: &i64,
    rows: &mut [[Column; COLUMNS]; ACTIONS],
)
    requires { All IsPlaced bindings.now }
    ensures { rows.new ≡ columns_after active.now bindings.now inputs.now clock.now rows.old }
{
    let mut found = [[NOTHING; COLUMNS]; ACTIONS];
    gather(active, bindings, inputs, &mut found);
    settle_all(rows, &found, clock);
}

/// The columns of a place are inactive where no action is there.
fn leave_row(row: &mut [Column; COLUMNS], there: bool)
    requires tidy { IsTidy row.old }
    ensures row { row.new ≡ (if there then row.old else inactive_row) }
    ensures tidy { IsTidy row.new }
{
    if !there && row[0].active {
        *row = [INACTIVE; COLUMNS];
    }
}

/// The columns of the places in which no action is left are inactive. From the place `reach` on all are.
#[tactic(auto, using(crate::proofs::Rows::left_more))]
pub(crate) fn leave(rows: &mut [[Column; COLUMNS]; ACTIONS], there: &[bool; ACTIONS], reach: usize)
    requires tidy { All IsTidy rows.old }
    requires beyond { AreBeyond reach inactive_row rows.old }
    ensures left { rows.new ≡ left_columns (λ place. slice_index_or there.now place false) rows.old }
    ensures tidy { All IsTidy rows.new }
    ensures beyond { AreBeyond reach inactive_row rows.new }
{
    for place in 0..reach {
        leave_row(&mut rows[place], there[place]);
    }
}

/// All columns are inactive, as they are from the place `reach` on.
pub(crate) fn clear(rows: &mut [[Column; COLUMNS]; ACTIONS], reach: usize)
    requires tidy { All IsTidy rows.old }
    requires beyond { AreBeyond reach inactive_row rows.old }
    ensures { rows.new ≡ no_columns }
{
    for place in 0..reach {
        leave_row(&mut rows[place], false);
    }
}
