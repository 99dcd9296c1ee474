// The holder publishes.
ghost use Rattle.std.specs.Prelude.{◌≡◌, ◌<◌, ◌^◌, ◌≤◌, ◌+◌, [], take, length, slice_index};
ghost use Rattle.xr_rule.specs.Shows.{buffers, buffer_words};
ghost use Rattle.xr_rule.specs.View.{Keeps, Writes, sight};
ghost use Rattle.xr_snap.specs.Publishing.{MayPublish, HasPublished, MayShow, IsHolding};

use xr_model::Machine;
use xr_rule::{BUFFERS, Change, Find, Held, Layout, NO_COUNT, Search, Swap, XrSeat, XrTable};

/// How many buffers' numbers fit below a number of entries in the front's word.
const ENTRY: u64 = 16;

/// At how many entries their number begins anew.
const TURN: u64 = 1 << 60;

/// Writes the words in the holder's room, which are what is published behind its noted entry, into a buffer that no seat is in, and makes
/// it the front. This decides the entry. A word that is there already is looked at alone.
pub fn publish<M: Machine + Drop>(table: &XrTable<M>, seat: &mut XrSeat<M>, held: &mut Held<M>)
    requires own { seat.old.table_id ≡ table.now.table.shared.table_id }
    requires may { MayPublish seat.old.me held.old.counts held.old.room.value }
    ensures own { seat.new.table_id ≡ seat.old.table_id }
    ensures value { held.new.value ≡ held.old.value }
    ensures published { HasPublished seat.old.me seat.new.me held.new.counts }
{
    let buffer = find(table, seat, &held.counts);
    write(
        table,
        seat,
        &held.counts,
        buffer,
        held.room.words.as_slice(),
    );
    show(table, seat, &mut held.counts, buffer);
}

// Finds a buffer that no seat is in: of ten one is the front, and eight applications are in eight others at most.
fn find<M: Machine + Drop>(
    table: &XrTable<M>,
    seat: &mut XrSeat<M>,
    counts: &[u64; BUFFERS],
) -> usize
    requires own { seat.old.table_id ≡ table.now.table.shared.table_id }
    requires keeps { seat.old.me.0.eyes ≡ Keeps counts.now 0 }
    ensures own { seat.new.table_id ≡ seat.old.table_id }
    ensures near { (result < buffers) × (slice_index counts.now result < 2 ^ 60) }
    ensures found { seat.new.me ≡ (sight seat.old.me.0.know seat.old.me.0.turn (Writes counts.now result []), seat.old.me.1) }
{
    let mut buffer = 0;
    while buffer < BUFFERS {
        let exits = table
            .table
            .shared
            .load::<Search>(seat, Layout::exit(buffer));
        if exits % TURN == counts[buffer] {
            return buffer;
        }
        buffer += 1;
    }
    unreachable!()
}

// Writes the words, those that aren't there yet.
fn write<M: Machine + Drop>(
    table: &XrTable<M>,
    seat: &mut XrSeat<M>,
    counts: &[u64; BUFFERS],
    buffer: usize,
    words: &[u64],
)
    requires own { seat.old.table_id ≡ table.now.table.shared.table_id }
    requires near { buffer < buffers }
    requires short { length words.now ≤ buffer_words }
    requires holds { IsHolding seat.old.me.0.turn }
    requires found { seat.old.me.0.eyes ≡ Writes counts.now buffer [] }
    ensures own { seat.new.table_id ≡ seat.old.table_id }
    ensures written { seat.new.me ≡ (sight seat.old.me.0.know seat.old.me.0.turn (Writes counts.now buffer words.now), seat.old.me.1) }
{
    let mut place = 0;
    while place < words.len() {
        put(table, seat, counts, buffer, words, place);
        place += 1;
    }
}

// Writes the word at a place, where another is there.
fn put<M: Machine + Drop>(
    table: &XrTable<M>,
    seat: &mut XrSeat<M>,
    counts: &[u64; BUFFERS],
    buffer: usize,
    words: &[u64],
    place: usize,
)
    requires own { seat.old.table_id ≡ table.now.table.shared.table_id }
    requires near { buffer < buffers }
    requires short { (length words.now ≤ buffer_words) × (place < length words.now) }
    requires holds { IsHolding seat.old.me.0.turn }
    requires begun { seat.old.me.0.eyes ≡ Writes counts.now buffer (take place words.now) }
    ensures own { seat.new.table_id ≡ seat.old.table_id }
    ensures put { seat.new.me ≡ (sight seat.old.me.0.know seat.old.me.0.turn (Writes counts.now buffer (take (place + 1) words.now)), seat.old.me.1) }
{
    let word = words[place];
    let at = Layout::state(buffer, place);
    let found = table.table.shared.load::<Find>(seat, at);
    if found == word {
        return;
    }
    table.table.shared.store::<Change>(seat, at, word);
}

// Makes the buffer the front.
fn show<M: Machine + Drop>(
    table: &XrTable<M>,
    seat: &mut XrSeat<M>,
    counts: &mut [u64; BUFFERS],
    buffer: usize,
)
    requires own { seat.old.table_id ≡ table.now.table.shared.table_id }
    requires near { (buffer < buffers) × (slice_index counts.old buffer < 2 ^ 60) }
    requires may { MayShow seat.old.me counts.old buffer }
    ensures own { seat.new.table_id ≡ seat.old.table_id }
    ensures shown { HasPublished seat.old.me seat.new.me counts.new }
{
    let front = buffer as u64 + ENTRY * counts[buffer];
    let found = table
        .table
        .shared
        .swap::<Swap>(seat, Layout::front(), front);
    counts[buffer] = NO_COUNT;
    counts[(found % ENTRY) as usize] = found / ENTRY;
}
