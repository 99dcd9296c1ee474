// The steps on words of images, each for a call that its caller picks.
ghost use Rattle.std.specs.Prelude.{◌≡◌, ℕ, [], Bool};
ghost use Rattle.xr_model.specs.laws.ImageLaws.{IsPlaced};
ghost use Rattle.xr_model.specs.machine.CellCalls as cell;
ghost use Rattle.xr_rule.specs.Plays.{Claimed, Decides, done_entry};
ghost use Rattle.xr_rule.specs.Rule.{MayReturn};
ghost use Rattle.xr_rule.specs.Seats.{IsBetween};
ghost use Rattle.xr_rule.specs.View.{Hold, Holding};
ghost use Rattle.xr_words.specs.Table.{wait_entry, MaySet, MayStep, SetsMore, Finds};

use xr_model::Machine;
use xr_rule::{Claim, Claiming, GiveBack, Layout, Make, Making, Peek, Peeking, XrSeat, XrTable};
use xr_types::{Call, Image};

/// The word of an image that an application owns.
const OWNED: u64 = 1 << 32;

// one use more
pub(crate) fn pin_by<M: Machine, J: Making>(table: &XrTable<M>, seat: &mut XrSeat<M>, image: Image)
    requires may { MaySet table.now.table.shared.table_id seat.old (cell.pin image) }
    requires picks { J.call ≡ cell.pin image }
    ensures own { seat.new.table_id ≡ seat.old.table_id }
    ensures made { SetsMore (cell.pin image) seat.old.me seat.new.me }
{
    table
        .table
        .shared
        .fetch_add::<Make<J>>(seat, Layout::image(image), 1);
}

// no application's any longer
pub(crate) fn free_by<M: Machine, J: Making>(table: &XrTable<M>, seat: &mut XrSeat<M>, image: Image)
    requires may { MaySet table.now.table.shared.table_id seat.old (cell.free image) }
    requires picks { J.call ≡ cell.free image }
    ensures own { seat.new.table_id ≡ seat.old.table_id }
    ensures made { SetsMore (cell.free image) seat.old.me seat.new.me }
{
    table
        .table
        .shared
        .store::<Make<J>>(seat, Layout::image(image), 0);
}

pub(crate) fn stamp_by<M: Machine, J: Making>(
    table: &XrTable<M>,
    seat: &mut XrSeat<M>,
    image: Image,
    value: u64,
)
    requires may { MaySet table.now.table.shared.table_id seat.old (cell.stamp image value) }
    requires picks { J.call ≡ cell.stamp image value }
    ensures own { seat.new.table_id ≡ seat.old.table_id }
    ensures made { SetsMore (cell.stamp image value) seat.old.me seat.new.me }
{
    table
        .table
        .shared
        .store::<Make<J>>(seat, Layout::stamp(image), value);
}

pub(crate) fn peek_by<M: Machine, J: Peeking>(
    table: &XrTable<M>,
    seat: &mut XrSeat<M>,
    image: Image,
) -> u64
    requires may { (answer : ℕ) → MaySet table.now.table.shared.table_id seat.old (cell.peek image answer) }
    requires picks { J.image ≡ image }
    ensures own { seat.new.table_id ≡ seat.old.table_id }
    ensures found { Finds image seat.old.me result seat.new.me }
{
    table
        .table
        .shared
        .load::<Peek<J>>(seat, Layout::stamp(image))
}

// the wait's image, told whether its time is up; what the word was
pub(crate) fn claim_by<M: Machine, J: Claiming>(
    table: &XrTable<M>,
    seat: &mut XrSeat<M>,
    _call: &Call<'_>,
    late: bool,
    image: Image,
) -> u64
    requires may { (answer : Bool) → MayStep table.now.table.shared.table_id _call.now late seat.old (cell.claim image answer) }
    requires picks { (J.entry ≡ wait_entry seat.old.me.0.know _call.now) × (J.late ≡ late) }
    ensures own { seat.new.table_id ≡ seat.old.table_id }
    ensures claimed { (h : Hold) → seat.old.me.0.turn ≡ Holding h → Claimed (wait_entry seat.old.me.0.know _call.now) late seat.old.me result seat.new.me h }
{
    table
        .table
        .shared
        .compare_exchange::<Claim<J>>(seat, Layout::image(image), 0, OWNED)
}

/// The compositor gives back the first image that it holds, without the lock. This decides its entry.
pub fn give_back<M: Machine>(table: &XrTable<M>, seat: &mut XrSeat<M>, image: Image)
    requires own { seat.old.table_id ≡ table.now.table.shared.table_id }
    requires between { IsBetween seat.old.me }
    requires placed { IsPlaced image }
    requires may { MayReturn seat.old.me.0.know image }
    ensures own { seat.new.table_id ≡ seat.old.table_id }
    ensures decides { (look : _) × Decides seat.old.me.0.know look done_entry seat.new.me.0 }
    ensures carries { seat.new.me.1 ≡ [] }
{
    table
        .table
        .shared
        .fetch_sub::<GiveBack>(seat, Layout::image(image), 1);
}
