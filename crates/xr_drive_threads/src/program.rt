// A program over the top call on threads.
ghost use Rattle.xr_io.specs.Outside.{AreUnasked};
ghost use Rattle.xr_drive.specs.Program.{Ends};
ghost use Rattle.xr_drive.specs.Top.{outside};
ghost use Rattle.xr_drive_threads.specs.Top.{threads_form, ThreadsAnswer};

use crate::threads::run_threads;
use std::alloc::Global;
use std::process::ExitCode;
use std::sync::Wait;
use std::thread::Threads;
use xr_drive::end_with;
use xr_io::{Opener, Sink};
use xr_workers::OpenGate;

/// Runs the words as `run_threads` does, through a gate that holds nobody, and ends with the status that it answers: its line on the
/// output for errors, and its number as the exit status.
#[inline(never)]
pub fn run_threads_program<'n, R: Threads + Wait + Sync, O: Opener<'n>, K: Sink, E: Sink>(
    rt: &R,
    alloc: Global,
    words: &'n [String],
    opener: &mut O,
    sink: &mut K,
    errors: &mut E,
) -> ExitCode
    requires fresh { AreUnasked (O.files opener.old) }
    ensures { Ends (ThreadsAnswer (threads_form words.now) (outside (O.files opener.old) (K.output sink.old)) (outside (O.files opener.new) (K.output sink.new))) (E.output errors.old) (E.output errors.new) result }
{
    let ran = run_threads(rt, alloc, words, opener, sink, &OpenGate);
    end_with(errors, ran.status)
}
