// The list of changes, which lies in the value itself and takes no memory.
ghost use Rattle.std.specs.Prelude.{◌≡◌, ◌<◌, [], ◌∷◌, ◌++◌, length};

use std::marker::Model;
use xr_types::SessionState;

/// How many changes a list has room for, which is more than any call tells.
const ROOM: usize = 8;

/// The states that a session went through, in order, seen by contracts as their list.
#[derive(Drop)]
pub struct Changes {
    states: [SessionState; ROOM],
    count: usize,
}

impl Model for Changes {
    ghost use Rattle.std.specs.Prelude.{◌≤◌, List, take};
    ghost use Rattle.xr_types.specs.declared.session.SessionState.{SessionState as State};

    ghost Value = { List State };

    ghost view = { λ c. take c.count c.states };

    ghost invariant = { λ c. c.count ≤ 8 };
}

impl Changes {
    /// No change yet.
    pub fn new() -> Changes
        ensures { result ≡ [] }
    {
        Changes {
            states: [SessionState::Idle; ROOM],
            count: 0,
        }
    }

    /// Tells a state behind those that were told.
    pub(crate) fn push(&mut self, state: SessionState)
        requires { length self.old < 8 }
        ensures { self.new ≡ self.old ++ state ∷ [] }
    {
        self.states[self.count] = state;
        self.count += 1;
    }

    /// The states, the first that was entered first.
    pub fn as_slice(&self) -> &[SessionState]
        ensures { result.now ≡ self.now }
    {
        &self.states[..self.count]
    }
}
