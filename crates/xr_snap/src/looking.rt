// What the words of a buffer tell a getter: the beginning, a session, an action, the atoms of the user paths, a column.
ghost use Rattle.std.specs.Prelude.{◌≡◌, ◌<◌, Some, length, option_map, slice_get};
ghost use Rattle.xr_snap.specs.Reading.{IsIn, HasFit, asked_of, column_seen, heading_of, publication_seen, shown_cells, standing_of};

use crate::decoding::{Asked, Cells, asked_in, bit_at, column_in, low_bit};
use crate::places::{ATOMS, action_word, column_word, session_word};
use crate::reading::word;
use xr_model::Machine;
use xr_rule::{XrSeat, XrTable};
use xr_types::USERS;

/// How a publication begins: the place of the call that published it, and how many sessions and actions there are.
#[derive(Drop)]
pub(crate) struct Heading {
    pub(crate) number: u64,
    pub(crate) sessions: usize,
    pub(crate) actions: usize,
}

pub(crate) fn heading_in<M: Machine + Drop>(
    table: &XrTable<M>,
    seat: &mut XrSeat<M>,
    buffer: usize,
) -> Heading
    requires own { seat.old.table_id ≡ table.now.table.shared.table_id }
    requires inside { IsIn seat.old.me.0.eyes buffer }
    requires fits { HasFit seat.old.me.0.eyes }
    ensures same { (seat.new.table_id ≡ seat.old.table_id) × (seat.new.me ≡ seat.old.me) }
    ensures heading { result ≡ heading_of (publication_seen seat.old.me.0.eyes) }
{
    let number = word(table, seat, buffer, 0);
    let counts = word(table, seat, buffer, 1);
    Heading {
        number,
        sessions: (counts % (1 << 32)) as usize,
        actions: (counts / (1 << 32)) as usize,
    }
}

/// A session's loss, and whether it has attached the set of an action.
#[derive(Drop)]
pub(crate) struct Standing {
    pub(crate) lost: bool,
    pub(crate) pending: bool,
    pub(crate) attached: bool,
}

/// How the session at a place stands to the action at another.
pub(crate) fn standing_at<M: Machine + Drop>(
    table: &XrTable<M>,
    seat: &mut XrSeat<M>,
    buffer: usize,
    heading: &Heading,
    session: usize,
    action: usize,
) -> Standing
    requires own { seat.old.table_id ≡ table.now.table.shared.table_id }
    requires inside { IsIn seat.old.me.0.eyes buffer }
    requires fits { HasFit seat.old.me.0.eyes }
    requires heading { heading.now ≡ heading_of (publication_seen seat.old.me.0.eyes) }
    requires there { (session < heading.now.sessions) × (action < heading.now.actions) }
    ensures same { (seat.new.table_id ≡ seat.old.table_id) × (seat.new.me ≡ seat.old.me) }
    ensures standing { option_map (standing_of action) (slice_get (publication_seen seat.old.me.0.eyes).sessions session) ≡ Some result }
{
    let at = session_word(heading.actions, session);
    let loss = word(table, seat, buffer, at + 1);
    let attached = word(table, seat, buffer, at + 2);
    Standing {
        lost: low_bit(loss),
        pending: low_bit(loss / 2),
        attached: bit_at(attached, action),
    }
}

/// What is published of the action at a place.
pub(crate) fn asked_at<M: Machine + Drop>(
    table: &XrTable<M>,
    seat: &mut XrSeat<M>,
    buffer: usize,
    action: usize,
) -> Asked
    requires own { seat.old.table_id ≡ table.now.table.shared.table_id }
    requires inside { IsIn seat.old.me.0.eyes buffer }
    requires fits { HasFit seat.old.me.0.eyes }
    requires there { action < length (publication_seen seat.old.me.0.eyes).actions }
    ensures same { (seat.new.table_id ≡ seat.old.table_id) × (seat.new.me ≡ seat.old.me) }
    ensures asked { option_map asked_of (slice_get (publication_seen seat.old.me.0.eyes).actions action) ≡ Some result }
{
    let at = action_word(action);
    asked_in(word(table, seat, buffer, at + 1))
}

/// The atoms of the user paths.
pub(crate) fn atoms<M: Machine + Drop>(
    table: &XrTable<M>,
    seat: &mut XrSeat<M>,
    buffer: usize,
) -> [u64; USERS]
    requires own { seat.old.table_id ≡ table.now.table.shared.table_id }
    requires inside { IsIn seat.old.me.0.eyes buffer }
    requires fits { HasFit seat.old.me.0.eyes }
    ensures same { (seat.new.table_id ≡ seat.old.table_id) × (seat.new.me ≡ seat.old.me) }
    ensures atoms { result ≡ (publication_seen seat.old.me.0.eyes).atoms }
{
    let left = word(table, seat, buffer, ATOMS);
    let right = word(table, seat, buffer, ATOMS + 1);
    let head = word(table, seat, buffer, ATOMS + 2);
    let gamepad = word(table, seat, buffer, ATOMS + 3);
    let treadmill = word(table, seat, buffer, ATOMS + 4);
    [left, right, head, gamepad, treadmill]
}

/// A column of the action at a place, in the session at another.
pub(crate) fn column_at<M: Machine + Drop>(
    table: &XrTable<M>,
    seat: &mut XrSeat<M>,
    buffer: usize,
    heading: &Heading,
    session: usize,
    action: usize,
    column: usize,
) -> Cells
    requires own { seat.old.table_id ≡ table.now.table.shared.table_id }
    requires inside { IsIn seat.old.me.0.eyes buffer }
    requires fits { HasFit seat.old.me.0.eyes }
    requires heading { heading.now ≡ heading_of (publication_seen seat.old.me.0.eyes) }
    requires there { (session < heading.now.sessions) × (action < heading.now.actions) × (column < 6) }
    ensures same { (seat.new.table_id ≡ seat.old.table_id) × (seat.new.me ≡ seat.old.me) }
    ensures column { column_seen (publication_seen seat.old.me.0.eyes) session action column ≡ Some (shown_cells result) }
{
    let at = column_word(heading.actions, session, action, column);
    let values = word(table, seat, buffer, at);
    let when = word(table, seat, buffer, at + 1);
    column_in(values, when)
}
