// An application's seat enters the front, looks at words, and leaves.
ghost use Rattle.std.specs.Prelude.{◌≡◌, ◌<◌, ℕ, length, slice_index};
ghost use Rattle.xr_rule.specs.View.{view};
ghost use Rattle.xr_snap.specs.Reading.{MayEnter, MayEnterAs, HasEntered, HasEnteredAs, IsIn, words_in};

use std::marker::Brand;
use xr_model::Machine;
use xr_rule::{Enter, Layout, Leave, Noting, Read, XrSeat, XrTable};
use xr_types::Call;

/// By how much an entry makes the front's word greater, which has the number of its buffer below.
const ENTRY: u64 = 16;

// Enters the front, which decides the getter: what it reads there is what is published at its place.
pub(crate) fn enter<M: Machine + Drop>(
    table: &XrTable<M>,
    seat: &mut XrSeat<M>,
    call: &Call<'_>,
) -> usize
    requires own { seat.old.table_id ≡ table.now.table.shared.table_id }
    requires may { MayEnter seat.old.me call.now }
    ensures own { seat.new.table_id ≡ seat.old.table_id }
    ensures entered { HasEntered seat.old.me call.now result seat.new.me }
{
    enter_as::<M, Brand>(table, seat, call)
}

// the entry that is picked
fn enter_as<M: Machine + Drop, J: Noting>(
    table: &XrTable<M>,
    seat: &mut XrSeat<M>,
    _call: &Call<'_>,
) -> usize
    requires own { seat.old.table_id ≡ table.now.table.shared.table_id }
    requires may { MayEnterAs seat.old.me J.entry }
    ensures own { seat.new.table_id ≡ seat.old.table_id }
    ensures entered { HasEnteredAs seat.old.me J.entry result seat.new.me }
{
    let found = table
        .table
        .shared
        .fetch_add::<Enter<J>>(seat, Layout::front(), ENTRY);
    (found % ENTRY) as usize
}

// a word of the buffer that the seat is in
pub(crate) fn word<M: Machine + Drop>(
    table: &XrTable<M>,
    seat: &mut XrSeat<M>,
    buffer: usize,
    place: usize,
) -> u64
    requires own { seat.old.table_id ≡ table.now.table.shared.table_id }
    requires inside { IsIn seat.old.me.0.eyes buffer }
    requires there { place < length (words_in seat.old.me.0.eyes) }
    ensures same { (seat.new.table_id ≡ seat.old.table_id) × (seat.new.me ≡ seat.old.me) }
    ensures word { result ≡ slice_index (words_in seat.old.me.0.eyes) place }
{
    table
        .table
        .shared
        .load::<Read>(seat, Layout::state(buffer, place))
}

pub(crate) fn leave<M: Machine + Drop>(table: &XrTable<M>, seat: &mut XrSeat<M>, buffer: usize)
    requires own { seat.old.table_id ≡ table.now.table.shared.table_id }
    requires inside { IsIn seat.old.me.0.eyes buffer }
    ensures own { seat.new.table_id ≡ seat.old.table_id }
    ensures out { seat.new.me ≡ (view seat.old.me.0.know seat.old.me.0.turn, seat.old.me.1) }
{
    table
        .table
        .shared
        .fetch_add::<Leave>(seat, Layout::exit(buffer), 1);
}
