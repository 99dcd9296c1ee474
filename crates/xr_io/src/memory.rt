// Files and output in memory, whose calls fail where a list says so. Nothing here touches the
// outside. Calls are numbered from 0, and a count stops at the largest u64.
ghost use Rattle.std.specs.Prelude.{◌≡◌, ◌↔◌, [], false, length, Some, None, IsTrue, IsErr, IfOk, option_map};
ghost use Rattle.xr_io.specs.declared.Which.{Which};
ghost use Rattle.xr_io.specs.Outside.{none_taken, just_opened, WasRead, Opened, Closed, Wrote};
ghost use Rattle.xr_io.specs.Asked.{asked_as, is_open_of, open_faults_of, read_faults_of, taken_of, files_of, none_asked, after_opening, after_closing};
ghost use Rattle.xr_io.specs.Memory.{seen_of, is_listed, given_count, fails_to_read, buffer_after_read, after_read, taken_count, fails_to_write, after_write, bytes_under, failing_of, fails_to_open, with_asked};
ghost use Rattle.xr_io.specs.Held.{held_files, failing_calls};

use crate::asked::Asked;
use crate::{Opener, Sink, Source, Taken, Which, is_end};
use std::alloc::{AllocError, Global};
use std::marker::Model;
use xr_types::Failed;

/// Whether the call of this number is in the list.
fn is_listed(calls: &[u64], next: u64) -> bool
    ensures { result ≡ is_listed calls.now next }
{
    calls.contains(&next)
}

/// The bytes of one opened file. The reads of a list fail.
#[derive(Drop)]
pub struct MemorySource<'a> {
    bytes: &'a [u8],
    taken: usize,
    late: bool,
    is_over: bool,
    failing: &'a [u64],
    calls: u64,
    faults: u64,
    opened_as: Which,
}

impl<'a> Model for MemorySource<'a> {
    ghost use Rattle.std.specs.Prelude.{◌≤◌, length};
    ghost use Rattle.xr_io.specs.Memory.{Reading};

    ghost Value = { Reading };

    ghost view = { λ source. record {
      bytes = source.bytes.now;
      taken = record { count = source.taken; late = source.late };
      is_over = source.is_over;
      failing = source.failing.now;
      calls = source.calls;
      faults = source.faults;
      opened_as = source.opened_as;
    } };

    ghost invariant = { λ source. source.taken ≤ length source.bytes.now };
}

impl<'a> MemorySource<'a> {
    /// A file of these bytes, of which nothing was read. The reads of these numbers are to fail.
    pub fn new(opened_as: Which, bytes: &'a [u8], failing: &'a [u64]) -> MemorySource<'a>
        ensures { result ≡ record {
          bytes = bytes.now;
          taken = none_taken;
          is_over = false;
          failing = failing.now;
          calls = 0;
          faults = 0;
          opened_as = opened_as;
        } }
    {
        MemorySource {
            bytes,
            taken: 0,
            late: false,
            is_over: false,
            failing,
            calls: 0,
            faults: 0,
            opened_as,
        }
    }

    /// What was taken of its bytes.
    pub fn taken(&self) -> Taken
        ensures { result ≡ self.now.taken }
    {
        Taken {
            count: self.taken as u64,
            late: self.late,
        }
    }

    /// How often a read has failed.
    pub fn faults(&self) -> u64
        ensures { result ≡ self.now.faults }
    {
        self.faults
    }
}

impl<'a> Source for MemorySource<'a> {
    ghost state = { seen_of };

    /// `Failed` comes exactly at the reads of the list, and there alone the count rises.
    fn read(&mut self, buf: &mut [u8]) -> Result<usize, Failed>
        ensures read { WasRead buf.new (seen_of self.old) (seen_of self.new) result }

        // All of that, exactly.
        ensures fails { IsErr result ↔ IsTrue (fails_to_read self.old) }
        ensures count { IfOk result (λ n. n ≡ given_count self.old (length buf.old)) }
        ensures buffer { buf.new ≡ buffer_after_read self.old buf.old }
        ensures new { self.new ≡ after_read self.old (length buf.old) }
    {
        let fails = is_listed(self.failing, self.calls);
        self.calls = self.calls.saturating_add(1);
        self.late |= self.is_over;
        if fails {
            self.is_over = true;
            self.faults = self.faults.saturating_add(1);
            return Err(Failed);
        }
        let left = &self.bytes[self.taken..];
        let count = buf.len().min(left.len());
        buf[..count].copy_from_slice(&left[..count]);
        self.taken += count;
        self.is_over |= is_end(count, buf.len());
        Ok(count)
    }
}

/// An output in memory. The writes of one list fail, and those of another take nothing.
#[derive(Drop)]
pub struct MemorySink<'a> {
    out: Vec<u8>,
    room: usize,
    failing: &'a [u64],
    idle: &'a [u64],
    calls: u64,
    faults: u64,
}

impl<'a> Model for MemorySink<'a> {
    ghost use Rattle.std.specs.Prelude.{◌+◌, ◌≤◌, vec_len, vec_capacity};
    ghost use Rattle.xr_io.specs.Memory.{Writing};

    ghost Value = { Writing };

    ghost view = { λ sink. record {
      written = sink.out.items;
      room = sink.room;
      failing = sink.failing.now;
      idle = sink.idle.now;
      calls = sink.calls;
      faults = sink.faults;
    } };

    ghost invariant = { λ sink. vec_len sink.out + sink.room ≤ vec_capacity sink.out };
}

impl<'a> MemorySink<'a> {
    /// An output with room for so many bytes, which is had here and never grows. The writes of the
    /// numbers in `failing` are to fail, and those of the numbers in `idle` to take nothing.
    /// `AllocError` comes where that room can't be had.
    pub fn new(
        alloc: Global,
        room: usize,
        failing: &'a [u64],
        idle: &'a [u64],
    ) -> Result<MemorySink<'a>, AllocError>
        ensures { IfOk result (λ sink. sink ≡ record {
          written = [];
          room = room;
          failing = failing.now;
          idle = idle.now;
          calls = 0;
          faults = 0;
        }) }
    {
        let out = Vec::with_capacity(alloc, room)?;
        Ok(MemorySink {
            out,
            room,
            failing,
            idle,
            calls: 0,
            faults: 0,
        })
    }

    /// The bytes written.
    pub fn bytes(&self) -> &[u8]
        ensures { result.now ≡ self.now.written }
    {
        self.out.as_slice()
    }

    /// How often a write has failed or has taken nothing of a piece.
    pub fn faults(&self) -> u64
        ensures { result ≡ self.now.faults }
    {
        self.faults
    }
}

impl<'a> Sink for MemorySink<'a> {
    ghost output = { λ sink. record { bytes = Some sink.written; faults = sink.faults } };

    /// `Failed` comes exactly at the writes of the one list. The count rises there and, for a piece
    /// that has bytes, at the writes of the other list. Beside these it rises in one place: where
    /// no room is left, a piece that has bytes is counted too, and nothing of it is taken.
    fn write(&mut self, piece: &[u8]) -> Result<usize, Failed>
        ensures wrote { Wrote piece.now (record { bytes = Some self.old.written; faults = self.old.faults }) (record { bytes = Some self.new.written; faults = self.new.faults }) result }

        // All of that, exactly.
        ensures fails { IsErr result ↔ IsTrue (fails_to_write self.old) }
        ensures count { IfOk result (λ n. n ≡ taken_count self.old (length piece.now)) }
        ensures new { self.new ≡ after_write self.old piece.now }
    {
        let call = self.calls;
        self.calls = self.calls.saturating_add(1);
        if is_listed(self.failing, call) {
            self.faults = self.faults.saturating_add(1);
            return Err(Failed);
        }
        if piece.is_empty() {
            return Ok(0);
        }
        if self.room == 0 || is_listed(self.idle, call) {
            self.faults = self.faults.saturating_add(1);
            return Ok(0);
        }
        let count = piece.len().min(self.room);
        let Ok(()) = self.out.extend_from_slice(&piece[..count]) else {
            unreachable!();
        };
        self.room -= count;
        Ok(count)
    }
}

/// A file in memory.
#[derive(Clone, Copy)]
pub struct MemoryFile<'a> {
    pub name: &'a str,
    pub bytes: &'a [u8],
}

/// How the calls on one of the two files fail.
#[derive(Clone, Copy)]
pub struct Failing<'a> {
    /// Whether opening it fails.
    pub open: bool,
    /// The numbers of its reads that fail, from 0.
    pub reads: &'a [u64],
}

/// The bytes of the first file of this name.
fn bytes_under<'a>(files: &'a [MemoryFile<'a>], name: &str) -> Option<&'a [u8]>
    ensures { option_map (λ bytes. bytes.now) result ≡ bytes_under (held_files files.now) name.now }
{
    for file in files {
        if file.name == name {
            return Some(file.bytes);
        }
    }
    None
}

/// Opens files in memory. One file may be opened both as the scenario and as the device.
#[derive(Drop)]
pub struct MemoryOpener<'a, 'n> {
    files: &'a [MemoryFile<'a>],
    scenario_fails: Failing<'a>,
    device_fails: Failing<'a>,
    asked: Asked<'n>,
}

impl<'a, 'n> Model for MemoryOpener<'a, 'n> {
    ghost use Rattle.xr_io.specs.Memory.{Holding};

    ghost Value = { Holding };

    ghost use Rattle.xr_io.specs.Held.{held_files, failing_calls};

    ghost view = { λ opener. record {
      files = held_files opener.files.now;
      scenario_fails = failing_calls opener.scenario_fails;
      device_fails = failing_calls opener.device_fails;
      asked = opener.asked;
    } };
}

impl<'a, 'n> MemoryOpener<'a, 'n> {
    /// An opener of these files that was asked for nothing. Where two files have one name, the
    /// first is opened.
    pub fn new(
        files: &'a [MemoryFile<'a>],
        scenario_fails: Failing<'a>,
        device_fails: Failing<'a>,
    ) -> MemoryOpener<'a, 'n>
        ensures new { result ≡ record {
          files = held_files files.now;
          scenario_fails = failing_calls scenario_fails.entry;
          device_fails = failing_calls device_fails.entry;
          asked = none_asked;
        } }
        ensures asked { (w : Which) → asked_as result.asked w ≡ None }
        ensures closed { (w : Which) → is_open_of result.asked w ≡ false }
        ensures taken { (w : Which) → taken_of result.asked w ≡ none_taken }
    {
        MemoryOpener {
            files,
            scenario_fails,
            device_fails,
            asked: Asked::new(),
        }
    }

    /// How often opening this one has failed.
    pub fn open_faults(&self, which: Which) -> u64
        ensures { result ≡ open_faults_of self.now.asked which }
    {
        self.asked.open_faults(which)
    }

    /// What was taken of this one's closed source.
    pub fn taken(&self, which: Which) -> Taken
        ensures { result ≡ taken_of self.now.asked which }
    {
        self.asked.taken(which)
    }

    /// How many closed sources of this one had a fault.
    pub fn read_faults(&self, which: Which) -> u64
        ensures { result ≡ read_faults_of self.now.asked which }
    {
        self.asked.read_faults(which)
    }
}

impl<'a, 'n> Opener<'n> for MemoryOpener<'a, 'n> {
    type S = MemorySource<'a>;

    ghost files = { λ opener. files_of (bytes_under opener.files) opener.asked };

    /// `Failed` comes exactly where this one's opening is to fail or no file has the name, and
    /// there alone the count rises.
    fn open_file(&mut self, which: Which, name: &'n str) -> Result<MemorySource<'a>, Failed>
        requires first { asked_as self.old.asked which ≡ None }
        ensures opened { Opened which name.now (files_of (bytes_under self.old.files) self.old.asked) (files_of (bytes_under self.new.files) self.new.asked) result }
        ensures source { IfOk result (λ source.
            seen_of source ≡ just_opened (bytes_under self.old.files name.now) which) }

        // All of that, exactly.
        ensures fails { IsErr result ↔ IsTrue (fails_to_open self.old which name.now) }
        ensures failing { IfOk result (λ source.
            source.failing ≡ (failing_of self.old which).reads) }
        ensures calls { IfOk result (λ source. source.calls ≡ 0) }
        ensures new { self.new ≡ with_asked self.old
            (after_opening self.old.asked which name.now
            (fails_to_open self.old which name.now)) }
    {
        let fails = match which {
            Which::Scenario => self.scenario_fails,
            Which::Device => self.device_fails,
        };
        if !fails.open {
            if let Some(bytes) = bytes_under(self.files, name) {
                self.asked.open(which, name, false);
                return Ok(MemorySource::new(which, bytes, fails.reads));
            }
        }
        self.asked.open(which, name, true);
        Err(Failed)
    }

    fn close(&mut self, source: MemorySource<'a>)
        ensures closed { Closed (seen_of source.entry) (files_of (bytes_under self.old.files) self.old.asked) (files_of (bytes_under self.new.files) self.new.asked) }

        // All of that at once, exactly.
        ensures new { self.new ≡ with_asked self.old
            (after_closing self.old.asked source.entry.opened_as source.entry.faults source.entry.taken) }
    {
        let taken = source.taken();
        self.asked.close(source.opened_as, source.faults, taken);
    }
}
