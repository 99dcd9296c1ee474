// A gate at which the first two applications meet.
use std::sync::atomic::Ordering::SeqCst;
use std::sync::atomic::{AtomicBool, AtomicU64};
use std::thread::yield_now;
use xr_core::Core;
use xr_rule::XrSeat;
use xr_types::Actor;
use xr_workers::Gate;

/// How many turns an application waits for the other at most.
pub(crate) const PATIENCE: u64 = 1_000_000_000;

/// Holds each of the applications 1 and 2 before its first call until the other has come there too.
#[derive(Drop)]
pub(crate) struct Meeting {
    came: AtomicU64,
    gave_up: AtomicBool,
    patience: u64,
}

impl Meeting {
    pub(crate) fn new(patience: u64) -> Meeting {
        Meeting {
            came: AtomicU64::new(0),
            gave_up: AtomicBool::new(false),
            patience,
        }
    }

    /// Whether both came, and neither waited too long.
    pub(crate) fn was_held_up_by_none(&self) -> bool {
        self.came.load(SeqCst) == 2 && !self.gave_up.load(SeqCst)
    }

    /// Waits until both have come.
    fn meet(&self) {
        self.came.fetch_add(1, SeqCst);
        for _ in 0..self.patience {
            if self.came.load(SeqCst) >= 2 {
                return;
            }
            yield_now();
        }
        self.gave_up.store(true, SeqCst);
    }
}

impl Gate for Meeting {
    ghost came = { λ gate actor call made. Unit {0} };

    ghost went = { λ gate actor call made. Unit {0} };

    fn before(&self, actor: Actor, call: u64, _seat: &XrSeat<Core>) {
        if call == 1 && matches!(actor, Actor::App(1) | Actor::App(2)) {
            self.meet();
        }
    }

    fn after(&self, _actor: Actor, _call: u64, _seat: &XrSeat<Core>) {}
}
