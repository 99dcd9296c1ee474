// Plain words beside the table, at which threads wait for one another. They decide nothing, so no contract says what they hold.
ghost use Rattle.std.specs.Prelude.{◌≡◌, length};
ghost use Rattle.xr_types.specs.declared.limits.TheConstants.{MOST_MARK};

use std::alloc::Global;
use std::sync::atomic::AtomicU64;
use xr_types::{MOST_MARK, NoMemory};

/// How many words are left unused on each side of the door, so that nothing else stands on its line of a processor's cache.
const APART: usize = 8;

/// What threads wait at before they draw a ticket, so that nobody who sleeps has the next one.
#[derive(Drop)]
pub struct Door {
    _before: [u64; APART],
    /// 0 is open, 1 is shut, and at 2 somebody may sleep in front of it too.
    pub word: AtomicU64,
    _behind: [u64; APART],
}

impl Door {
    // an open one
    fn open() -> Door {
        Door {
            _before: [0; APART],
            word: AtomicU64::new(0),
            _behind: [0; APART],
        }
    }
}

/// A bell, at which those whose calls aren't ready sleep until another's call may have made them so.
#[derive(Drop)]
pub struct Bell {
    /// How often it rang.
    pub rings: AtomicU64,
    /// How many listen to it.
    pub listeners: AtomicU64,
}

impl Bell {
    // one that nobody listens to
    fn still() -> Bell {
        Bell {
            rings: AtomicU64::new(0),
            listeners: AtomicU64::new(0),
        }
    }
}

/// The words beside a table: the door in front of the tickets, and a bell for each thing that a call can wait for.
#[derive(Drop)]
pub struct Beside {
    pub door: Door,
    /// For each mark that it is set.
    pub marks: Vec<Bell>,
    /// That a session may have another frame waited for.
    pub frames: Bell,
    /// That an image may be free, or the time to wait for it up.
    pub images: Bell,
    /// That a frame is pending, or all applications have left.
    pub pending: Bell,
    pub ghost sized: { length marks.items ≡ MOST_MARK },
}

impl Beside {
    /// An open door, and bells that nobody listens to.
    pub(crate) fn start(alloc: Global) -> Result<Beside, NoMemory> {
        let mut marks = Vec::with_capacity(alloc, MOST_MARK as usize)?;
        while marks.len() < MOST_MARK as usize {
            marks.push_reserved(Bell::still());
        }
        Ok(Beside {
            door: Door::open(),
            marks,
            frames: Bell::still(),
            images: Bell::still(),
            pending: Bell::still(),
        })
    }
}
