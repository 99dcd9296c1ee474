// Files and standard output behind the traits. These few lines are trusted to pass on what the
// system does: they tell no bytes, and count each error. A count stops at the largest u64. A call that was
// interrupted is made again, some times.
ghost use Rattle.std.specs.Prelude.{◌≡◌, false, length, None, IfOk, is_err};
ghost use Rattle.std.specs.Io.{ReadsAtMost, WritesAtMost};
ghost use Rattle.xr_io.specs.declared.Which.{Which};
ghost use Rattle.xr_io.specs.Outside.{none_taken, just_opened, WasRead, Opened, Closed, Wrote, raised_if};
ghost use Rattle.xr_io.specs.Asked.{asked_as, is_open_of, open_faults_of, read_faults_of, taken_of, files_of, none_asked, after_opening, after_closing};
ghost use Rattle.xr_io.specs.Files.{no_bytes, seen_of, is_write_fault};

use crate::asked::Asked;
use crate::{Opener, Sink, Source, Taken, Which, is_end};
use std::fs;
use std::io::{ErrorKind, Print, Read};
use std::marker::Model;
use std::rt::Files;
use xr_types::Failed;

/// How often a call is made at most, where a signal interrupts it each time.
const MOST_TRIES: u32 = 100;

/// An opened file. It tells no bytes.
#[derive(Drop)]
pub struct FileSource<F> {
    file: F,
    opened_as: Which,
    taken: Taken,
    is_over: bool,
    faults: u64,
}

impl<F> Model for FileSource<F> {
    ghost use Rattle.xr_io.specs.Files.{OpenFile};

    ghost Value = { OpenFile };

    ghost view = { λ source. record {
      opened_as = source.opened_as;
      taken = source.taken;
      is_over = source.is_over;
      faults = source.faults;
    } };
}

impl<F> FileSource<F> {
    /// How often a read has failed.
    pub fn faults(&self) -> u64
        ensures { result ≡ self.now.faults }
    {
        self.faults
    }
}

/// Reads the next bytes, once more where that was interrupted.
fn read_again<F: Read>(file: &mut F, buf: &mut [u8]) -> Result<usize, Failed>
    ensures { ReadsAtMost result buf.new }
{
    for _ in 0..MOST_TRIES {
        match file.read(buf) {
            Ok(count) => return Ok(count),
            Err(e) if e.kind() == ErrorKind::Interrupted => {}
            Err(_) => break,
        }
    }
    Err(Failed)
}

impl<F: Read> Source for FileSource<F> {
    ghost state = { seen_of };

    /// `Failed` comes where the system's read fails, or was interrupted a hundred times in a row, or gives more bytes than are
    /// counted, and there alone the count of faults rises.
    fn read(&mut self, buf: &mut [u8]) -> Result<usize, Failed>
        ensures read { WasRead buf.new (seen_of self.old) (seen_of self.new) result }
        ensures rises { self.new.faults ≡ raised_if (is_err result) self.old.faults }
    {
        self.taken.late |= self.is_over;
        if let Ok(count) = read_again(&mut self.file, buf) {
            if let Some(all) = self.taken.count.checked_add(count as u64) {
                self.taken.count = all;
                self.is_over |= is_end(count, buf.len());
                return Ok(count);
            }
        }
        self.is_over = true;
        self.faults = self.faults.saturating_add(1);
        Err(Failed)
    }
}

/// Opens files by their names, which outlive it, and keeps what it was asked for. It tells no bytes.
#[derive(Drop)]
pub struct FileOpener<'r, 'n, R: Files> {
    files: &'r R,
    asked: Asked<'n>,
}

impl<'r, 'n, R: Files> Model for FileOpener<'r, 'n, R> {
    ghost use Rattle.xr_io.specs.Asked.{Asked};

    ghost Value = { Asked };

    ghost view = { λ opener. opener.asked };
}

impl<'r, 'n, R: Files> FileOpener<'r, 'n, R> {
    /// An opener that was asked for nothing.
    pub fn new(files: &'r R) -> FileOpener<'r, 'n, R>
        ensures new { result ≡ none_asked }
        ensures asked { (w : Which) → asked_as result w ≡ None }
        ensures closed { (w : Which) → is_open_of result w ≡ false }
        ensures taken { (w : Which) → taken_of result w ≡ none_taken }
    {
        FileOpener {
            files,
            asked: Asked::new(),
        }
    }

    /// How often opening this one has failed.
    pub fn open_faults(&self, which: Which) -> u64
        ensures { result ≡ open_faults_of self.now which }
    {
        self.asked.open_faults(which)
    }

    /// What was taken of this one's closed source.
    pub fn taken(&self, which: Which) -> Taken
        ensures { result ≡ taken_of self.now which }
    {
        self.asked.taken(which)
    }

    /// How many closed sources of this one had a fault.
    pub fn read_faults(&self, which: Which) -> u64
        ensures { result ≡ read_faults_of self.now which }
    {
        self.asked.read_faults(which)
    }
}

impl<'r, 'n, R: Files> Opener<'n> for FileOpener<'r, 'n, R> {
    type S = FileSource<R::File>;

    ghost files = { files_of (λ name. no_bytes) };

    /// `Failed` comes where the system opens no file of this name, and there alone the count rises.
    fn open_file(&mut self, which: Which, name: &'n str) -> Result<FileSource<R::File>, Failed>
        requires first { asked_as self.old which ≡ None }
        ensures opened { Opened which name.now (files_of (λ name. no_bytes) self.old) (files_of (λ name. no_bytes) self.new) result }

        // Neither the opener nor the source tells bytes.
        ensures source { IfOk result (λ source. seen_of source ≡ just_opened no_bytes which) }

        // All of that at once, exactly.
        ensures new { self.new ≡ after_opening self.old which name.now (is_err result) }
    {
        let Ok(file) = fs::open(self.files, name) else {
            self.asked.open(which, name, true);
            return Err(Failed);
        };
        self.asked.open(which, name, false);
        Ok(FileSource {
            file,
            opened_as: which,
            taken: Taken {
                count: 0,
                late: false,
            },
            is_over: false,
            faults: 0,
        })
    }

    fn close(&mut self, source: FileSource<R::File>)
        ensures closed { Closed (seen_of source) (files_of (λ name. no_bytes) self.old) (files_of (λ name. no_bytes) self.new) }

        // All of that at once, exactly.
        ensures new { self.new ≡ after_closing self.old source.opened_as source.faults source.taken }
    {
        self.asked
            .close(source.opened_as, source.faults, source.taken);
    }
}

/// Writes the first bytes of a piece, once more where that was interrupted.
fn write_again<P: Print>(out: &P, piece: &[u8]) -> Result<usize, Failed>
    ensures { WritesAtMost result piece.now }
{
    for _ in 0..MOST_TRIES {
        match out.write_some(piece) {
            Ok(count) => return Ok(count),
            Err(e) if e.kind() == ErrorKind::Interrupted => {}
            Err(_) => break,
        }
    }
    Err(Failed)
}

/// Standard output. It tells no bytes.
#[derive(Drop)]
pub struct StdSink<'r, P> {
    out: &'r P,
    faults: u64,
}

// Contracts see how often a write has failed or has taken nothing of a piece.
impl<'r, P> Model for StdSink<'r, P> {
    ghost use Rattle.std.specs.Prelude.{ℕ};

    ghost Value = { ℕ };

    ghost view = { λ sink. sink.faults };
}

impl<'r, P> StdSink<'r, P> {
    /// Standard output, of which no write has failed.
    pub fn new(out: &'r P) -> StdSink<'r, P>
        ensures { result ≡ 0 }
    {
        StdSink { out, faults: 0 }
    }

    /// How often a write has failed or has taken nothing of a piece.
    pub fn faults(&self) -> u64
        ensures { result ≡ self.now }
    {
        self.faults
    }
}

impl<'r, P: Print> Sink for StdSink<'r, P> {
    ghost output = { λ sink. record { bytes = no_bytes; faults = sink } };

    /// Makes one call of the system, and another where that was interrupted. `Failed` comes where it fails, or was
    /// interrupted a hundred times in a row. The count rises there, and where nothing was taken of a piece that has
    /// bytes, and nowhere else.
    fn write(&mut self, piece: &[u8]) -> Result<usize, Failed>
        ensures wrote { Wrote piece.now (record { bytes = no_bytes; faults = self.old }) (record { bytes = no_bytes; faults = self.new }) result }
        ensures rises { self.new ≡ raised_if (is_write_fault result (length piece.now)) self.old }
    {
        let Ok(count) = write_again(self.out, piece) else {
            self.faults = self.faults.saturating_add(1);
            return Err(Failed);
        };
        if count == 0 && !piece.is_empty() {
            self.faults = self.faults.saturating_add(1);
        }
        Ok(count)
    }
}
