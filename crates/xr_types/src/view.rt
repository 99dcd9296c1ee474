// The words of what getters of input answer from.
ghost use Rattle.std.specs.Prelude.{◌≡◌, []};

use crate::SESSIONS;
use arrayvec::ArrayVec;
use std::marker::Model;

/// How many words there are at most: seven and two for each of 64 actions, and in each session three and twelve for each action; both
/// are rounded up to lines of eight words.
pub const MOST_WORDS: usize = 136 + 776 * SESSIONS;

/// What getters of input answer from, as words that threads can share. Contracts see the list of the words.
#[derive(Drop)]
pub struct View {
    pub words: ArrayVec<u64, MOST_WORDS>,
}

impl Model for View {
    ghost use Rattle.std.specs.Prelude.{ℕ, List};

    ghost Value = { List ℕ };

    ghost view = { λ v. v.words.items };
}

impl View {
    /// No word yet.
    pub fn start() -> View
        ensures { result ≡ [] }
    {
        View {
            words: ArrayVec::new(),
        }
    }
}
