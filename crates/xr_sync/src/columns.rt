// The columns of a core, which syncs change in place.
ghost use Rattle.std.specs.Prelude.{◌≡◌, true, false, slice_get, slice_index_or, option_and_then, All, IfOk};
ghost use Rattle.std.specs.Option.{option_copied};
ghost use Rattle.xr_model.specs.machine.Sync.{no_columns, columns_after, left_columns};
ghost use Rattle.xr_types.specs.Device.{is_time};
ghost use Rattle.xr_sync.specs.Ranks.{IsPlaced};
ghost use Rattle.xr_sync.specs.Tables.{no_table, AreTimed};

use crate::after::INACTIVE;
use crate::found::{ACTIONS, COLUMNS, NOTHING};
use crate::settle::{clear, leave, sync_tidy};
use std::alloc::Global;
use std::marker::Model;
use xr_types::{Column, Found, Heard, Inputs, NoMemory, Ranked, States};

/// Every column is inactive.
const NO_STATES: States = States {
    columns: [[INACTIVE; COLUMNS]; ACTIONS],
};

/// What the actions show: a row for each of 64 places of actions, whose column 0 is that of all user paths, and the others those
/// of the five user paths in their order. Beside it stands the table that a sync works with. They are 9 and 5 KB, which nobody moves.
/// Contracts see the columns.
#[derive(Drop)]
pub struct Columns {
    states: Box<States>,
    /// What the columns have found: nothing between two syncs.
    found: Box<[[Found; COLUMNS]; ACTIONS]>,
    /// The place from which on each column is inactive, so that none is looked at.
    reach: usize,
}

impl Model for Columns {
    ghost use Rattle.std.specs.Prelude.{◌≡◌, All, List};
    ghost use Rattle.xr_types.specs.declared.input.Column as input;
    ghost use Rattle.xr_model.specs.machine.Sync.{inactive_row};
    ghost use Rattle.xr_sync.specs.Tables.{no_table, AreBeyond, IsTidy, AreTimed};

    ghost Value = { List (List input.Column) };

    ghost view = { λ c. c.states.value.columns };

    ghost invariant = { λ c. (c.found.value ≡ no_table) × All IsTidy c.states.value.columns × AreTimed c.states.value.columns × AreBeyond c.reach inactive_row c.states.value.columns };
}

/// Columns that are inactive, where they stay.
#[inline(never)]
fn no_states(alloc: Global) -> Result<Box<States>, NoMemory>
    ensures { IfOk result (λ states. states.value.columns ≡ no_columns) }
{
    Ok(Box::new(alloc, NO_STATES)?)
}

/// A table in which nothing was found, where it stays.
#[inline(never)]
fn no_table(alloc: Global) -> Result<Box<[[Found; COLUMNS]; ACTIONS]>, NoMemory>
    ensures { IfOk result (λ found. found.value ≡ no_table) }
{
    Ok(Box::new(alloc, [[NOTHING; COLUMNS]; ACTIONS])?)
}

impl Columns {
    /// Every column is inactive. Takes all memory that these columns ever take.
    pub fn start(alloc: Global) -> Result<Columns, NoMemory>
        ensures { IfOk result (λ columns. columns ≡ no_columns) }
    {
        let states = no_states(alloc)?;
        let found = no_table(alloc)?;
        Ok(Columns {
            states,
            found,
            reach: 0,
        })
    }

    /// Syncs: the sets that are heard, the suggestions for the controllers that are connected, in the order of the user paths and
    /// then of the suggestions, what the inputs show, and the device's clock, 0 to 2^62 - 1 ns. Each binding has a place below 64
    /// and one of the 30 identifiers. Nothing is refused, and no memory is taken.
    pub fn sync(&mut self, active: &[Heard], bindings: &[Ranked], inputs: &Inputs, clock: i64)
        requires placed { All IsPlaced bindings.now }
        requires time { is_time clock ≡ true }
        ensures { self.new ≡ columns_after active.now bindings.now inputs.now clock self.old }
    {
        self.reach = sync_tidy(
            active,
            bindings,
            inputs,
            &clock,
            &mut self.states.columns,
            &mut self.found,
            self.reach,
        );
    }

    /// Every column is inactive from now on.
    pub fn clear(&mut self)
        ensures { self.new ≡ no_columns }
    {
        clear(&mut self.states.columns, self.reach);
        self.reach = 0;
    }

    /// Only the actions in these places are left: the columns of the others are inactive from now on.
    pub fn leave(&mut self, there: &[bool; ACTIONS])
        ensures { self.new ≡ left_columns (λ place. slice_index_or there.now place false) self.old }
    {
        leave(&mut self.states.columns, there, self.reach);
    }

    /// What is known since the last sync. Each time is 0 to 2^62 - 1 ns of device time.
    pub fn states(&self) -> &States
        ensures columns { result.now.columns ≡ self.now }
        ensures times { AreTimed result.now.columns }
    {
        &self.states
    }

    /// A column of the action in a place, where there is such a place and column.
    pub fn column(&self, place: usize, column: usize) -> Option<&Column>
        ensures { option_copied result ≡ option_and_then (λ row. slice_get row column) (slice_get self.now place) }
    {
        self.states.columns.get(place)?.get(column)
    }
}
