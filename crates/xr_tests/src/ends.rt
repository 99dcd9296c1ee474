// Runs of both top calls over files in memory, and how they end.
use std::alloc::{AllocError, Global};
use std::sync::Wait;
use std::thread::Threads;
use xr_drive::{exit_of, explain, run_serial};
use xr_drive_threads::run_threads;
use xr_io::{Failing, MemoryFile, MemoryOpener, MemorySink};
use xr_types::Status;
use xr_workers::Gate;

/// The most bytes that are written here.
const MOST: usize = 65_536;

/// What never fails.
const SOUND: Failing<'static> = Failing {
    open: false,
    reads: &[],
};

/// A run: its words, whether it is one on threads, the texts under `scenario.json` and `device.txt`, which readings of the device and which
/// writings fail, from 0; and how it ends: the exit status, the line on standard error and the report.
#[derive(Clone, Copy)]
pub(super) struct Row {
    pub(super) name: &'static str,
    pub(super) words: &'static [&'static str],
    pub(super) on_threads: bool,
    pub(super) scenario: &'static str,
    pub(super) device: &'static str,
    pub(super) failing_reads: &'static [u64],
    pub(super) failing_writes: &'static [u64],
    pub(super) status: u8,
    pub(super) line: &'static str,
    pub(super) report: &'static str,
}

impl Row {
    /// A run on one thread, without words and texts, that is done and prints nothing. Nothing fails.
    pub(super) const EMPTY: Row = Row {
        name: "",
        words: &[],
        on_threads: false,
        scenario: "",
        device: "",
        failing_reads: &[],
        failing_writes: &[],
        status: 0,
        line: "",
        report: "",
    };
}

/// The words of a row.
fn words_of(alloc: Global, row: &Row) -> Result<Vec<String>, AllocError> {
    let mut words = Vec::new(alloc);
    for word in row.words {
        words.push(word.to_string(alloc)?)?;
    }
    Ok(words)
}

/// The files of a row.
fn files_of(row: &Row) -> [MemoryFile<'static>; 2] {
    [
        MemoryFile {
            name: "scenario.json",
            bytes: row.scenario.as_bytes(),
        },
        MemoryFile {
            name: "device.txt",
            bytes: row.device.as_bytes(),
        },
    ]
}

/// What fails of a row's device.
fn device_of(row: &Row) -> Failing<'static> {
    Failing {
        open: false,
        reads: row.failing_reads,
    }
}

/// Whether this is said of a status on standard error.
pub(super) fn says(alloc: Global, status: Status, line: &str) -> Result<bool, AllocError> {
    let mut errors = MemorySink::new(alloc, MOST, &[], &[])?;
    explain(&mut errors, status);
    Ok(errors.bytes() == line.as_bytes())
}

/// Whether a run ended as its row says.
fn is_as_wanted(
    alloc: Global,
    row: &Row,
    status: Status,
    report: &[u8],
) -> Result<bool, AllocError> {
    let said = says(alloc, status, row.line)?;
    Ok(said && exit_of(status) == row.status && report == row.report.as_bytes())
}

/// Whether a run on one thread ends as its row says.
pub(super) fn passes_alone(alloc: Global, row: &Row) -> Result<bool, AllocError> {
    let words = words_of(alloc, row)?;
    let files = files_of(row);
    let mut opener = MemoryOpener::new(&files, SOUND, device_of(row));
    let mut sink = MemorySink::new(alloc, MOST, row.failing_writes, &[])?;
    let status = run_serial(alloc, words.as_slice(), &mut opener, &mut sink);
    is_as_wanted(alloc, row, status, sink.bytes())
}

/// Whether the runtime of a run with this exit status was closed: one was started once all was read, and no thread wanted memory.
fn is_closed(status: u8) -> bool {
    matches!(status, 0 | 5 | 6 | 8)
}

/// Whether a run on threads, under a gate, ends as its row says.
pub(super) fn passes_on_threads<R: Threads + Wait + Sync, G: Gate + Sync>(
    rt: &R,
    alloc: Global,
    row: &Row,
    gate: &G,
) -> Result<bool, AllocError> {
    let words = words_of(alloc, row)?;
    let files = files_of(row);
    let mut opener = MemoryOpener::new(&files, SOUND, device_of(row));
    let mut sink = MemorySink::new(alloc, MOST, row.failing_writes, &[])?;
    let ran = run_threads(rt, alloc, words.as_slice(), &mut opener, &mut sink, gate);
    let ends = is_as_wanted(alloc, row, ran.status, sink.bytes())?;
    Ok(ends && ran.closed.is_some() == is_closed(row.status))
}
