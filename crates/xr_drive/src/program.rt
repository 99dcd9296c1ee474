// A program over the top call: one line on an output for errors where not all is done, and the exit status.
ghost use Rattle.std.specs.Prelude.{◌≡◌};
ghost use Rattle.std.specs.Process.{exit_status};
ghost use Rattle.xr_io.specs.Outside.{AreUnasked};
ghost use Rattle.xr_model.specs.report.RunEnding.{exit_of};
ghost use Rattle.xr_drive.specs.Program.{Ends, Says, said_of, Prints};
ghost use Rattle.xr_drive.specs.Run.{RunOf};
ghost use Rattle.xr_drive.specs.Top.{form_by, outside, IsAnswer};

use crate::explanation::explain;
use crate::output::write_all;
use crate::serial::run_serial;
use std::alloc::Global;
use std::process::ExitCode;
use xr_io::{Opener, Sink};
use xr_report::exit_of;
use xr_types::Status;

/// Prints what a program says of itself: `Done`, or `WriteFault` where the output failed, with a first part of the text
/// written.
pub fn print<K: Sink>(sink: &mut K, text: &str) -> Status
    ensures { Prints (K.output sink.old) (K.output sink.new) text.now result }
{
    match write_all(sink, text.as_bytes()) {
        Ok(()) => Status::Done,
        Err(_) => Status::WriteFault,
    }
}

/// Says in one line how a program ended where not all is done, and gives the exit status of that end. After a fault of the
/// output a first part of the line is written.
pub fn end_with<E: Sink>(errors: &mut E, status: Status) -> ExitCode
    ensures number { exit_status result ≡ exit_of status }
    ensures says { Says (E.output errors.old) (E.output errors.new) (said_of status) }
{
    explain(errors, status);
    ExitCode::from(exit_of(status))
}

/// Runs the words as `run_serial` does, and ends with the status that it answers: its line on the output for errors, and
/// its number as the exit status.
pub fn run_program<'n, O: Opener<'n>, K: Sink, E: Sink>(
    alloc: Global,
    words: &'n [String],
    opener: &mut O,
    sink: &mut K,
    errors: &mut E,
) -> ExitCode
    requires fresh { AreUnasked (O.files opener.old) }
    ensures { Ends (IsAnswer RunOf (form_by words.now) (outside (O.files opener.old) (K.output sink.old)) (outside (O.files opener.new) (K.output sink.new))) (E.output errors.old) (E.output errors.new) result }
{
    let status = run_serial(alloc, words, opener, sink);
    end_with(errors, status)
}
