// The asked session and action are found among the words, by their handles.
ghost use Rattle.std.specs.Prelude.{◌≡◌, ◌≤◌, MatchOption};
ghost use Rattle.xr_model.specs.machine.Publication.{place_at};
ghost use Rattle.xr_snap.specs.Reading.{AreThere, HasFit, IsFirst, IsIn, IsNone, heading_of, publication_seen, session_place, words_in};

use crate::looking::Heading;
use crate::places::{ACTIONS, PER_ACTION, per_session, sessions_from};
use crate::reading::word;
use xr_model::Machine;
use xr_rule::{XrSeat, XrTable};

/// Where handles stand among the words: the first, how far apart they are, and how many.
#[derive(Drop)]
struct Handles {
    first: usize,
    apart: usize,
    count: usize,
}

/// The place of a handle among others; that of the first, where it stands more than once.
fn find_handle<M: Machine + Drop>(
    table: &XrTable<M>,
    seat: &mut XrSeat<M>,
    buffer: usize,
    handles: &Handles,
    handle: u64,
) -> Option<usize>
    requires own { seat.old.table_id ≡ table.now.table.shared.table_id }
    requires inside { IsIn seat.old.me.0.eyes buffer }
    requires there { AreThere (words_in seat.old.me.0.eyes) handles.now }
    ensures same { (seat.new.table_id ≡ seat.old.table_id) × (seat.new.me ≡ seat.old.me) }
    ensures found { MatchOption result (IsNone (words_in seat.old.me.0.eyes) handles.now handle) (λ i. IsFirst (words_in seat.old.me.0.eyes) handles.now handle i) }
{
    let mut place = 0;
    while place < handles.count {
        let found = word(table, seat, buffer, handles.first + handles.apart * place);
        if found == handle {
            return Some(place);
        }
        place += 1;
    }
    None
}

/// The place of a session among those that are published. 0 is nobody's handle.
pub(crate) fn find_session<M: Machine + Drop>(
    table: &XrTable<M>,
    seat: &mut XrSeat<M>,
    buffer: usize,
    heading: &Heading,
    session: u64,
) -> Option<usize>
    requires own { seat.old.table_id ≡ table.now.table.shared.table_id }
    requires inside { IsIn seat.old.me.0.eyes buffer }
    requires fits { HasFit seat.old.me.0.eyes }
    requires heading { heading.now ≡ heading_of (publication_seen seat.old.me.0.eyes) }
    ensures same { (seat.new.table_id ≡ seat.old.table_id) × (seat.new.me ≡ seat.old.me) }
    ensures found { result ≡ session_place (publication_seen seat.old.me.0.eyes) session }
{
    if session == 0 {
        return None;
    }
    let handles = Handles {
        first: sessions_from(heading.actions),
        apart: per_session(heading.actions),
        count: heading.sessions,
    };
    find_handle(table, seat, buffer, &handles, session)
}

/// The place of an action among those that are published.
pub(crate) fn find_action<M: Machine + Drop>(
    table: &XrTable<M>,
    seat: &mut XrSeat<M>,
    buffer: usize,
    heading: &Heading,
    action: u64,
) -> Option<usize>
    requires own { seat.old.table_id ≡ table.now.table.shared.table_id }
    requires inside { IsIn seat.old.me.0.eyes buffer }
    requires fits { HasFit seat.old.me.0.eyes }
    requires heading { heading.now ≡ heading_of (publication_seen seat.old.me.0.eyes) }
    ensures same { (seat.new.table_id ≡ seat.old.table_id) × (seat.new.me ≡ seat.old.me) }
    ensures found { result ≡ place_at (publication_seen seat.old.me.0.eyes) action }
{
    let handles = Handles {
        first: ACTIONS,
        apart: PER_ACTION,
        count: heading.actions,
    };
    find_handle(table, seat, buffer, &handles, action)
}
