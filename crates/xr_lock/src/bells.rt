// The bells at which calls that aren't ready wait. They decide nothing: a bell that rings too often or not at all costs time alone.
use std::hint::spin_loop;
use std::sync::Wait;
use std::sync::atomic::Ordering::SeqCst;
use std::time::Duration;
use xr_rule::Bell;

// how often one who listens looks before it sleeps
const LOOKS: u32 = 256;

// how long it sleeps at most, in microseconds, should a bell not ring that ought to
const LONGEST: u64 = 20_000;

/// Rings a bell: those who listen to it try their calls again. Where nobody listens it is one look.
pub fn ring(bell: &Bell) {
    if bell.listeners.load(SeqCst) > 0 {
        bell.rings.fetch_add(1, SeqCst);
        bell.rings.wake_all();
    }
}

/// One who tries a call until it is ready, and waits at a bell between its tries.
#[derive(Drop)]
pub struct Listener<'a> {
    bell: &'a Bell,
    listens: bool,
    heard: u64,
}

impl<'a> Listener<'a> {
    /// One who hasn't tried yet.
    pub fn new(bell: &'a Bell) -> Listener<'a> {
        Listener {
            bell,
            listens: false,
            heard: 0,
        }
    }

    /// Before each try. Most calls are ready at once, so before the first it does nothing. Before each further one it begins to listen:
    /// whoever makes the call ready behind that try rings.
    pub fn listen(&mut self) {
        if self.listens {
            self.bell.listeners.fetch_add(1, SeqCst);
            self.heard = self.bell.rings.load(SeqCst);
        }
    }

    /// Behind the try that found the call ready.
    pub fn leave(&mut self) {
        if self.listens {
            self.bell.listeners.fetch_sub(1, SeqCst);
        }
    }

    /// Behind a try that found the call not ready: sleeps until the bell has rung since it began to listen, and 20 milliseconds at most.
    /// Behind the first try it returns at once.
    pub fn wait<R: Wait>(&mut self, rt: &R) {
        if self.listens {
            self.sleep(rt);
        }
        self.leave();
        self.listens = true;
    }

    // looks a bounded number of times, and sleeps then
    fn sleep<R: Wait>(&self, rt: &R) {
        let rings = &self.bell.rings;
        for _ in 0..LOOKS {
            if rings.load(SeqCst) != self.heard {
                return;
            }
            spin_loop();
        }
        let heard = (self.heard & 0xffff_ffff) as u32;
        rings.park_timeout(rt, heard, Duration::from_micros(LONGEST));
    }
}
