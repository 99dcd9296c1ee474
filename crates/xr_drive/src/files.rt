// The files of a run: they are opened and read before it, and its report is written behind it.
ghost use Rattle.std.specs.Prelude.{◌≡◌, ◌+◌, true, take, IfOk, IfErr, IfSome, Some, None, IsErr};
ghost use Rattle.xr_types.specs.declared.limits.TheConstants.{MOST_SCENARIO};
ghost use Rattle.xr_io.specs.Outside.{AreUnasked};
ghost use Rattle.xr_io.specs.declared.Which.{Which};
ghost use Rattle.xr_command.specs.Reads.{shown};
ghost use Rattle.xr_drive.specs.Top.{is_unrun};
ghost use Rattle.xr_drive.specs.Files.{FilesUnrun, IsScenarioOf, ReadAlone, ReadBeside, DeviceClosed, ReportsFiles};
ghost use Rattle.xr_drive.specs.inside.Input.{RoseIfStopped, KeptUnlessFailed};
ghost use Rattle.xr_drive.specs.inside.CallParts.{IsJustOpened, UnreadBy, ReadOut};

use crate::faults::RunFault;
use crate::input::{Stop, read_all};
use crate::written::write_text;
use std::alloc::Global;
use xr_command::{RunOptions, WordsForm};
use xr_device::LineDevice;
use xr_io::{Opener, Sink, Source, Which};
use xr_report::ending_of;
use xr_scenario::read;
use xr_types::{Lists, Scenario, Status};

/// A scenario that was read, and the device of a file that was opened for it.
#[derive(Drop)]
pub struct Beside<S: Source> {
    /// It can be run.
    pub scenario: Scenario,
    /// Nothing was read of it yet.
    pub device: LineDevice<S>,
}

/// The bytes of the scenario's opened file, or why there are none. The source is closed.
fn read_text<'n, O: Opener<'n>>(
    alloc: Global,
    opener: &mut O,
    source: O::S,
) -> Result<Vec<u8>, Stop>
    requires fresh { IsJustOpened Which.Scenario (O.S.state source) }
    ensures bytes { IfOk result (λ text. IfSome (O.S.state source).bytes (λ bytes. text.items ≡ take (MOST_SCENARIO + 1) bytes)) }
    ensures cause { IfErr result (RoseIfStopped ((O.files opener.old).read_faults Which.Scenario) ((O.files opener.new).read_faults Which.Scenario)) }
    ensures counts { KeptUnlessFailed ((O.files opener.old).read_faults Which.Scenario) ((O.files opener.new).read_faults Which.Scenario) result }
    ensures out { ReadOut (O.files opener.old) (O.files opener.new) }
{
    let mut source = source;
    match read_all(alloc, &mut source) {
        Ok(text) => {
            opener.close(source);
            Ok(text)
        }
        Err(stop) => {
            opener.close(source);
            Err(stop)
        }
    }
}

/// The scenario of its opened file, or why there is none. The source is closed.
fn read_scenario<'n, O: Opener<'n>>(
    alloc: Global,
    opener: &mut O,
    source: O::S,
) -> Result<Scenario, RunFault>
    requires fresh { IsJustOpened Which.Scenario (O.S.state source) }
    ensures read { IfOk result (IsScenarioOf (O.S.state source).bytes) }
    ensures sound { IfOk result (λ scenario. (O.files opener.new).read_faults Which.Scenario ≡ (O.files opener.old).read_faults Which.Scenario) }
    ensures unread { IfErr result (UnreadBy (O.S.state source).bytes (O.files opener.old) (O.files opener.new)) }
    ensures out { ReadOut (O.files opener.old) (O.files opener.new) }
{
    let text = match read_text(alloc, opener, source) {
        Ok(text) => text,
        Err(stop) => return Err(RunFault::of_stop(stop)),
    };
    match read(alloc, text.as_slice()) {
        Ok(scenario) => Ok(scenario),
        Err(fault) => Err(RunFault::of_scenario(fault)),
    }
}

/// Opens the scenario under a file, reads it and closes it. The scenario that it gives can be run. No device's file is
/// opened.
pub fn open_alone<'n, O: Opener<'n>>(
    alloc: Global,
    opener: &mut O,
    file: &'n str,
) -> Result<Scenario, RunFault>
    requires fresh { AreUnasked (O.files opener.old) }
    ensures ready { IfOk result (ReadAlone file.now (O.files opener.old) (O.files opener.new)) }
    ensures unrun { IfErr result (FilesUnrun file.now None (O.files opener.old) (O.files opener.new)) }
{
    let Ok(source) = opener.open_file(Which::Scenario, file) else {
        return Err(RunFault::OpenFault);
    };
    let scenario = read_scenario(alloc, opener, source)?;
    Ok(scenario)
}

/// Opens the scenario under a file and the device's file under a name, reads the scenario and closes its file. The scenario that
/// it gives can be run, and of the device nothing was read yet. Where there is no scenario the device's file is closed too.
pub fn open_beside<'n, O: Opener<'n>>(
    alloc: Global,
    opener: &mut O,
    file: &'n str,
    name: &'n str,
) -> Result<Beside<O::S>, RunFault>
    requires fresh { AreUnasked (O.files opener.old) }
    ensures ready { IfOk result (λ beside. ReadBeside file.now name.now (O.files opener.old) (O.files opener.new) beside.scenario beside.device) }
    ensures unrun { IfErr result (FilesUnrun file.now (Some name.now) (O.files opener.old) (O.files opener.new)) }
{
    let Ok(source) = opener.open_file(Which::Scenario, file) else {
        return Err(RunFault::OpenFault);
    };
    let Ok(events) = opener.open_file(Which::Device, name) else {
        opener.close(source);
        return Err(RunFault::OpenFault);
    };
    let scenario = match read_scenario(alloc, opener, source) {
        Ok(scenario) => scenario,
        Err(fault) => {
            opener.close(events);
            return Err(fault);
        }
    };
    match LineDevice::start(alloc, events) {
        Ok(device) => Ok(Beside { scenario, device }),
        Err(events) => {
            opener.close(events);
            Err(RunFault::NoMemory)
        }
    }
}

/// Closes the file of a device behind its run.
pub fn close_device<'n, O: Opener<'n>>(opener: &mut O, device: LineDevice<O::S>)
    ensures { DeviceClosed device (O.files opener.old) (O.files opener.new) }
{
    opener.close(device.into_source());
}

/// Writes the report of what came of a run's files, and says how all ended. Where there are no lists nothing is written, and
/// only there the status says that nothing was run.
pub fn answer_files<K: Sink>(
    alloc: Global,
    options: &RunOptions<'_>,
    lists: Result<Lists, RunFault>,
    sink: &mut K,
) -> Status
    ensures answer { ReportsFiles (shown options.now) lists (K.output sink.old) (K.output sink.new) result }
    ensures unrun { is_unrun result ≡ true → IsErr lists }
{
    let lists = match lists {
        Ok(lists) => lists,
        Err(fault) => return fault.status(),
    };
    let form = WordsForm::Run(*options);
    match write_text(alloc, sink, &form, &lists) {
        Ok(()) => ending_of(&lists),
        Err(fault) => fault.status(),
    }
}
