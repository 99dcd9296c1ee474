// A counter as a machine, which stands for every state.
use xr_model::Machine;

/// How many turns there were, and what came of the work in them.
#[derive(Drop)]
pub(crate) struct Counter {
    pub(crate) turns: u64,
    pub(crate) mixed: u64,
}

impl Machine for Counter {
    ghost stands = { λ c s. Unit {0} };
}

/// Some nanoseconds of work, by so many rounds.
fn mix(from: u64, rounds: u64) -> u64 {
    let mut mixed = from;
    for round in 0..rounds {
        mixed = (mixed ^ (mixed >> 29))
            .wrapping_mul(6_364_136_223_846_793_005)
            .wrapping_add(round);
    }
    mixed
}

impl Counter {
    /// A turn with so much work, unless there were enough; whether there were.
    pub(crate) fn turn(&mut self, most: u64, inside: u64) -> bool {
        if self.turns >= most {
            return true;
        }
        self.turns += 1;
        self.mixed = mix(self.mixed, inside);
        false
    }
}
