// The bytes of a source that were read and not yet used.
ghost use Rattle.std.specs.Prelude.{◌≡◌, ◌≤◌, ◌<◌, ◌+◌, [], length, drop, IfOk};
ghost use Rattle.xr_device.specs.inside.Steps.{HasReadInto};

use std::alloc::Global;
use std::marker::Model;
use xr_io::Source;
use xr_types::{Failed, NoMemory};

/// How many bytes are held at most.
pub(crate) const ROOM: usize = 4096;

/// The held bytes, seen by contracts as their list. They stand in a room of their own, which is taken once, so that nobody moves
/// them and no run has them on its stack.
#[derive(Drop)]
pub(crate) struct Held {
    bytes: Box<[u8; ROOM]>,
    start: usize,
    end: usize,
}

impl Model for Held {
    ghost use Rattle.std.specs.Prelude.{◌≤◌, List, ℕ, slice_range};

    ghost Value = { List ℕ };

    ghost view = { λ h. slice_range h.bytes.value h.start h.end };

    ghost invariant = { λ h. (h.start ≤ h.end) × (h.end ≤ 4096) };
}

impl Held {
    /// No byte is held. Takes all memory that these bytes ever take.
    #[inline(never)]
    pub(crate) fn start(alloc: Global) -> Result<Held, NoMemory>
        ensures { IfOk result (λ held. held ≡ []) }
    {
        let bytes = Box::new(alloc, [0; ROOM])?;
        Ok(Held {
            bytes,
            start: 0,
            end: 0,
        })
    }

    pub(crate) fn as_slice(&self) -> &[u8]
        ensures value { result.now ≡ self.now }
        ensures few { length self.now ≤ 4096 }
    {
        &self.bytes[self.start..self.end]
    }

    /// Lets so many bytes go from the front.
    pub(crate) fn skip(&mut self, count: usize)
        requires { count ≤ length self.old }
        ensures { self.new ≡ drop count self.old }
    {
        self.start += count;
    }

    /// Moves the held bytes to the front of the room, and puts at most so many of the next behind them. 0 is the end.
    pub(crate) fn read_from<S: Source>(
        &mut self,
        source: &mut S,
        most: usize,
    ) -> Result<usize, Failed>
        requires some { 0 < most }
        requires room { length self.old + most ≤ 4096 }
        ensures read { HasReadInto self.old self.new (S.state source.old) (S.state source.new) result }
        ensures most { IfOk result (λ n. n ≤ most) }
    {
        let (start, end) = (self.start, self.end);
        let held = end - start;
        self.bytes.copy_within(start..end, 0);
        self.start = 0;
        self.end = held;
        let Ok(count) = source.read(&mut self.bytes[held..held + most]) else {
            return Err(Failed);
        };
        self.end = held + count;
        Ok(count)
    }
}
