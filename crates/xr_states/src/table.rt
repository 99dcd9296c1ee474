// The table of states, and a session's way through it. A session goes where the first row that fits leads,
// until none fits:
//
//   IDLE          to EXITING       where an exit was requested
//   IDLE          to READY         where the wish isn't Rest
//   SYNCHRONIZED  to STOPPING      where an exit was requested, or the wish is Rest
//   SYNCHRONIZED  to VISIBLE       where the wish is Visible or Focused
//   VISIBLE       to SYNCHRONIZED  where an exit was requested, or the wish is Rest or Ready
//   VISIBLE       to FOCUSED       where the wish is Focused
//   FOCUSED       to VISIBLE       where an exit was requested, or the wish isn't Focused
//
// No row is of READY, which the first frame leaves, of STOPPING, which xrEndSession leaves, or of EXITING and
// LOSS_PENDING, which nothing leaves. A loss takes a session from any state but these two to LOSS_PENDING.
ghost use Rattle.std.specs.Prelude.{◌≡◌, ◌≤◌, [], ◌∷◌, ◌++◌, length};
ghost use Rattle.xr_model.specs.machine.SessionLife.{next_state, changes, most_changes, last_of};

use crate::Changes;
use xr_types::{SessionState, Wish};

/// More changes than there can be until no row fits.
const MOST_CHANGES: u8 = 4;

/// The state to which the first row that fits leads, by the device's wish and whether the application has
/// asked for the session's end; none where no row fits.
pub(crate) fn next_state(state: SessionState, wish: Wish, exit: bool) -> Option<SessionState>
    ensures { result ≡ next_state wish exit state }
{
    match state {
        SessionState::Idle => {
            if exit {
                return Some(SessionState::Exiting);
            }
            match wish {
                Wish::Rest => None,
                Wish::Ready | Wish::Visible | Wish::Focused => Some(SessionState::Ready),
            }
        }
        SessionState::Synchronized => {
            if exit {
                return Some(SessionState::Stopping);
            }
            match wish {
                Wish::Rest => Some(SessionState::Stopping),
                Wish::Ready => None,
                Wish::Visible | Wish::Focused => Some(SessionState::Visible),
            }
        }
        SessionState::Visible => {
            if exit {
                return Some(SessionState::Synchronized);
            }
            match wish {
                Wish::Rest | Wish::Ready => Some(SessionState::Synchronized),
                Wish::Visible => None,
                Wish::Focused => Some(SessionState::Focused),
            }
        }
        SessionState::Focused => {
            if exit {
                return Some(SessionState::Visible);
            }
            match wish {
                Wish::Rest | Wish::Ready | Wish::Visible => Some(SessionState::Visible),
                Wish::Focused => None,
            }
        }
        SessionState::Ready
        | SessionState::Stopping
        | SessionState::LossPending
        | SessionState::Exiting => None,
    }
}

/// Goes where the first row that fits leads, until none fits, and tells each state behind those that were
/// told.
pub(crate) fn settle(state: &mut SessionState, wish: Wish, exit: bool, out: &mut Changes)
    requires { length out.old ≤ 1 }
    ensures through { out.new ≡ out.old ++ changes most_changes wish exit state.old }
    ensures state { state.new ≡ last_of state.old (changes most_changes wish exit state.old) }
{
    for _ in 0..MOST_CHANGES {
        let Some(to) = next_state(*state, wish, exit) else {
            return;
        };
        out.push(to);
        *state = to;
    }
}

/// Enters a state, which is told, and settles.
pub(crate) fn enter(
    state: &mut SessionState,
    first: SessionState,
    wish: Wish,
    exit: bool,
    out: &mut Changes,
)
    requires { out.old ≡ [] }
    ensures through { out.new ≡ first ∷ changes most_changes wish exit first }
    ensures state { state.new ≡ last_of first (changes most_changes wish exit first) }
{
    out.push(first);
    *state = first;
    settle(state, wish, exit, out);
}
