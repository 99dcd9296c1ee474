// The top call on threads.
ghost use Rattle.std.specs.Prelude.{◌≡◌, ◌+◌};
ghost use Rattle.xr_io.specs.Outside.{AreUnasked};
ghost use Rattle.xr_drive.specs.Run.{RunBy};
ghost use Rattle.xr_drive.specs.Top.{outside, IsAnswer};
ghost use Rattle.xr_drive_threads.specs.Top.{threads_form, RanClosed, IsClosedFor};

use crate::files::{FilesRun, run_files};
use std::alloc::Global;
use std::sync::Wait;
use std::thread::Threads;
use xr_command::{WordsFault, threads_options};
use xr_drive::answer_files;
use xr_io::{Opener, Sink};
use xr_runtime::Closed;
use xr_types::Status;
use xr_workers::Gate;

/// How a run on threads ended, and what is left of its runtime.
#[derive(Drop)]
pub struct Ran {
    pub status: Status,
    pub closed: Option<Closed>,
}

/// Runs the words `threads FILE`, with `--device FILE` and `--places` where these are wanted: opens the scenario's file and the device's,
/// reads the scenario, runs it on threads beside the device, over one runtime, and writes its report. Every source that was opened is
/// closed. The gate is called round each call of a script and of the device, and each turn of the compositor; no clause here says so.
///
/// Whatever the threads' interleaving, the report is that of one legal history of the written machine of one thread, for which the closed
/// runtime stands. Under `Done`, `DeviceFailed` and `DeviceGarbled` the whole report is written, and under `WriteFault` a first part of
/// it; each comes where it comes of `run_serial`. `Stuck` never comes: where scripts, the device and the compositor wait for each other
/// the run doesn't return. Under `Usage`, `OpenFault`, `ReadFault` and `ScenarioRefused` nothing was run and no runtime is closed.
/// `NoMemory` is free.
pub fn run_threads<'n, R: Threads + Wait + Sync, O: Opener<'n>, K: Sink, G: Gate + Sync>(
    rt: &R,
    alloc: Global,
    words: &'n [String],
    opener: &mut O,
    sink: &mut K,
    gate: &G,
) -> Ran
    requires fresh { AreUnasked (O.files opener.old) }
    ensures answer { IsAnswer (RunBy (RanClosed result.closed)) (threads_form words.now) (outside (O.files opener.old) (K.output sink.old)) (outside (O.files opener.new) (K.output sink.new)) result.status }
    ensures closed { IsClosedFor result.status result.closed }
{
    let options = match threads_options(alloc, words) {
        Ok(options) => options,
        Err(WordsFault::Usage) => {
            return Ran {
                status: Status::Usage,
                closed: None,
            };
        }
        Err(WordsFault::NoMemory) => {
            return Ran {
                status: Status::NoMemory,
                closed: None,
            };
        }
    };
    let FilesRun { lists, closed } = run_files(rt, alloc, &options, opener, gate);
    let status = answer_files(alloc, &options, lists, sink);
    Ran { status, closed }
}
