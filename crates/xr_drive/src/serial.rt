// The top call of one thread.
ghost use Rattle.std.specs.Prelude.{◌≡◌, ◌≤◌, IfOk, Some, None};
ghost use Rattle.xr_types.specs.declared.limits.TheConstants.{MOST_LOAD};
ghost use Rattle.xr_io.specs.Outside.{Files, AreUnasked};
ghost use Rattle.xr_model.specs.command_line.Words.{run, load};
ghost use Rattle.xr_model.specs.scenario.LoadScenario.{load_device};
ghost use Rattle.xr_command.specs.Reads.{shown, shown_form, FitsLimits};
ghost use Rattle.xr_serial.specs.Ran.{Ran};
ghost use Rattle.xr_drive.specs.Run.{RunOf};
ghost use Rattle.xr_drive.specs.Top.{form_by, outside, IsAnswer};
ghost use Rattle.xr_drive.specs.Files.{FilesAnswer, FilesEnded};
ghost use Rattle.xr_drive.specs.inside.CallParts.{RunLoad};

use crate::faults::RunFault;
use crate::files::{Beside, answer_files, close_device, open_alone, open_beside};
use crate::written::write_text;
use std::alloc::Global;
use xr_command::{RunOptions, WordsFault, WordsForm, form_of};
use xr_device::ListDevice;
use xr_io::{Opener, Sink};
use xr_report::ending_of;
use xr_scenario::generate;
use xr_types::{DeviceEvent, Lists, NoMemory, Status, Wish};

/// The events of a load's device.
fn load_events(alloc: Global) -> Result<Vec<DeviceEvent>, NoMemory>
    ensures { IfOk result (λ events. events.items ≡ load_device.events) }
{
    let mut events = Vec::with_capacity(alloc, 2)?;
    events.push(DeviceEvent::Wish(Wish::Focused))?;
    events.push(DeviceEvent::Mark(1))?;
    Ok(events)
}

/// Runs a load of so many frames beside its device.
fn run_load(alloc: Global, frames: u32) -> Result<Lists, NoMemory>
    requires { frames ≤ MOST_LOAD }
    ensures { IfOk result (λ lists. RunLoad frames lists) }
{
    let scenario = generate(alloc, frames)?;
    let mut device = ListDevice::new(load_events(alloc)?);
    let lists = xr_serial::run(alloc, &scenario, &mut device)?;
    Ok(lists)
}

/// Runs a load of so many frames and writes its summary, and says how that ended. Whatever the files are, none is opened.
fn answer_load<K: Sink>(alloc: Global, frames: u32, sink: &mut K) -> Status
    requires few { frames ≤ MOST_LOAD }
    ensures { (files : Files) → AreUnasked files → IsAnswer RunOf (Some (load frames)) (outside files (K.output sink.old)) (outside files (K.output sink.new)) result }
{
    let Ok(lists) = run_load(alloc, frames) else {
        return Status::NoMemory;
    };
    let form = WordsForm::Load(frames);
    match write_text(alloc, sink, &form, &lists) {
        Ok(()) => ending_of(&lists),
        Err(fault) => fault.status(),
    }
}

/// Opens the scenario under a file and runs it by the round robin, beside a device without events. Its source is closed.
#[inline(never)]
fn run_alone<'n, O: Opener<'n>>(
    alloc: Global,
    file: &'n str,
    opener: &mut O,
) -> Result<Lists, RunFault>
    requires fresh { AreUnasked (O.files opener.old) }
    ensures { FilesEnded Ran file.now None (O.files opener.old) (O.files opener.new) result }
{
    let scenario = open_alone(alloc, opener, file)?;
    let mut none = ListDevice::new(Vec::new(alloc));
    let lists = xr_serial::run(alloc, &scenario, &mut none)?;
    Ok(lists)
}

/// Opens the scenario under a file and the device's file under a name, and runs the scenario by the round robin beside the device.
/// Every source that was opened is closed.
#[inline(never)]
fn run_beside<'n, O: Opener<'n>>(
    alloc: Global,
    file: &'n str,
    name: &'n str,
    opener: &mut O,
) -> Result<Lists, RunFault>
    requires fresh { AreUnasked (O.files opener.old) }
    ensures { FilesEnded Ran file.now (Some name.now) (O.files opener.old) (O.files opener.new) result }
{
    let Beside {
        scenario,
        mut device,
    } = open_beside(alloc, opener, file, name)?;
    let ran = xr_serial::run(alloc, &scenario, &mut device);
    close_device(opener, device);
    let lists = ran?;
    Ok(lists)
}

/// Runs the files of a run by the round robin, beside the device where one is named. Every source that was opened is closed.
fn run_files<'n, O: Opener<'n>>(
    alloc: Global,
    options: &RunOptions<'n>,
    opener: &mut O,
) -> Result<Lists, RunFault>
    requires fresh { AreUnasked (O.files opener.old) }
    ensures { FilesAnswer Ran (shown options.now) (O.files opener.old) (O.files opener.new) result }
{
    match options.device {
        Some(name) => run_beside(alloc, options.file, name, opener),
        None => run_alone(alloc, options.file, opener),
    }
}

/// Runs the files of a run and writes the report, and says how that ended.
fn answer_run<'n, O: Opener<'n>, K: Sink>(
    alloc: Global,
    options: &RunOptions<'n>,
    opener: &mut O,
    sink: &mut K,
) -> Status
    requires fresh { AreUnasked (O.files opener.old) }
    ensures { IsAnswer RunOf (Some (run (shown options.now))) (outside (O.files opener.old) (K.output sink.old)) (outside (O.files opener.new) (K.output sink.new)) result }
{
    let lists = run_files(alloc, options, opener);
    answer_files(alloc, options, lists, sink)
}

/// Runs what a form asks for and writes what it made, and says how that ended.
fn answer<'n, O: Opener<'n>, K: Sink>(
    alloc: Global,
    form: &WordsForm<'n>,
    opener: &mut O,
    sink: &mut K,
) -> Status
    requires fresh { AreUnasked (O.files opener.old) }
    requires fits { FitsLimits form.now }
    ensures { IsAnswer RunOf (Some (shown_form form.now)) (outside (O.files opener.old) (K.output sink.old)) (outside (O.files opener.new) (K.output sink.new)) result }
{
    match form {
        WordsForm::Run(options) => answer_run(alloc, options, opener, sink),
        WordsForm::Load(frames) => answer_load(alloc, *frames, sink),
    }
}

/// Runs the words `serial FILE`, with `--device FILE` and `--places` where these are wanted: opens the scenario's file
/// and the device's, reads the scenario, runs it on one thread beside the device, and writes its report. Or runs the words
/// `load N`: makes a scenario of N frames, 1 to 200,000, runs it beside a device of its own, and writes its summary; no file is
/// opened. Every source that was opened is closed, whatever happens. No more than 1,048,577 bytes of the scenario and
/// 16,777,217 of the device are taken, and no read comes behind the end of a file or a read that failed.
///
/// Under `Done`, `DeviceFailed`, `DeviceGarbled` and `Stuck` the whole text is written, and nothing else: it is that
/// of a legal history of the written machine, the round robin's of this scenario and of this device's events.
/// `DeviceFailed` comes where the device couldn't be read on, behind the events of all whole lines that were read, else
/// `DeviceGarbled` with the first malformed line of its text, else `Stuck` where somebody waits for ever. `Usage` comes
/// exactly where the words have no form; `OpenFault`, `ReadFault`, `DeviceFailed` and `WriteFault` only where that object's
/// count of faults rose; `ScenarioRefused` exactly where the text is no scenario, with the reason: `TooLong`, `Json`, or
/// `BadShape` with the first wrong place. `NoMemory` is free. Under the others nothing is written, but under `WriteFault` a
/// first part of the text.
pub fn run_serial<'n, O: Opener<'n>, K: Sink>(
    alloc: Global,
    words: &'n [String],
    opener: &mut O,
    sink: &mut K,
) -> Status
    requires fresh { AreUnasked (O.files opener.old) }
    ensures { IsAnswer RunOf (form_by words.now) (outside (O.files opener.old) (K.output sink.old)) (outside (O.files opener.new) (K.output sink.new)) result }
{
    match form_of(alloc, words) {
        Ok(form) => answer(alloc, &form, opener, sink),
        Err(WordsFault::Usage) => Status::Usage,
        Err(WordsFault::NoMemory) => Status::NoMemory,
    }
}
