//! What is outside of the program, as traits: files that are opened by name and read, and a place
//! to write to. The whole program reaches the outside through these traits alone. Two sets of
//! objects stand behind them: files and output in memory, whose calls fail where a list says so,
//! and real files with standard output. Nothing here knows what the bytes mean.
#![tactic(auto)]

ghost use Rattle.std.specs.Prelude.{◌≡◌, None, IfOk};
ghost use Rattle.xr_io.specs.Outside.{SourceState, just_opened, is_end, WasRead, Files, Opened, Closed, Output, Wrote};

mod asked;
mod files;
mod memory;

pub use files::{FileOpener, FileSource, StdSink};
pub use memory::{Failing, MemoryFile, MemoryOpener, MemorySink, MemorySource};
use xr_types::Failed;

/// The two files that a run reads.
#[derive(Clone, Copy, Debug, PartialEq, Eq)]
pub enum Which {
    /// The text of the scenario.
    Scenario,
    /// The text of the device's events.
    Device,
}

/// What was taken of a file.
#[derive(Clone, Copy)]
pub struct Taken {
    /// How many bytes.
    pub count: u64,
    /// Whether a read was late: the file was over, since one before it had met the end or had failed.
    pub late: bool,
}

/// An opened file, of which the next bytes are read.
pub trait Source {
    /// What is seen of it: its bytes, where it tells them, what was taken of it, whether it is over, and which file it was
    /// opened as. `faults` is how often a read has failed: it never falls, and stops at the largest u64.
    ghost state: { Self → SourceState };

    /// Puts the next bytes at the front of a buffer and says how many. 0 into a buffer that has
    /// room is the end. `Failed` comes only where `faults` rose, and takes no byte; nothing else changes the
    /// count.
    fn read(&mut self, buf: &mut [u8]) -> Result<usize, Failed>
        ensures { WasRead buf.new (state self.old) (state self.new) result };
}

/// Whether so many bytes, given into a buffer of this size, tell the end.
fn is_end(count: usize, size: usize) -> bool
    ensures { result ≡ is_end count size }
{
    count == 0 && size > 0
}

/// A place to write to.
pub trait Sink {
    /// What is seen of it: the bytes written, where it tells them, and how often a write has failed or has taken nothing of a
    /// piece. That count never falls, and stops at the largest u64.
    ghost output: { Self → Output };

    /// Takes the first bytes of a piece and says how many. 0 of a piece that has bytes is a fault.
    /// `Failed` comes only where `faults` rose, and then nothing was taken that is told.
    fn write(&mut self, piece: &[u8]) -> Result<usize, Failed>
        ensures { Wrote piece.now (output self.old) (output self.new) result };
}

/// What opens files by name, each of the two at most once. The names outlive it.
pub trait Opener<'n> {
    /// What it opens.
    type S: Source;

    /// What is seen of it: names asked for, open sources, bytes under names, what was taken of closed sources, and counts of
    /// faults, which never fall and stop at the largest u64.
    ghost files: { Self → Files };

    /// Opens the file of a name as one of the two, which was not asked for before. The name counts
    /// as asked for also where the call failed. `Failed` comes only where `open_faults` rose, and else that count stays.
    fn open_file(&mut self, which: Which, name: &'n str) -> Result<Self::S, Failed>
        requires first { (files self.old).asked which ≡ None }
        ensures opened { Opened which name.now (files self.old) (files self.new) result }

        // The source is the file of this name, of which nothing was read.
        ensures source { IfOk result (λ source. Self.S.state source ≡ just_opened ((files self.old).bytes name.now) which) };

    /// Closes a source; the other file stays as it is. `read_faults` of the source's own file rises exactly where the source has a
    /// fault, and `taken` of it is what was taken of the source.
    fn close(&mut self, source: Self::S)
        ensures { Closed (Self.S.state source) (files self.old) (files self.new) };
}
