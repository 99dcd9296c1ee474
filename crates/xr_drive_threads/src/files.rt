// The files of a run on threads.
ghost use Rattle.std.specs.Prelude.{◌≡◌, Err, None};
ghost use Rattle.xr_io.specs.Outside.{AreUnasked};
ghost use Rattle.xr_command.specs.Reads.{shown};
ghost use Rattle.xr_drive.specs.Files.{FilesAnswer};
ghost use Rattle.xr_drive_threads.specs.Top.{RanClosed};
ghost use Rattle.xr_drive_threads.specs.inside.Runs.{files_run, NoneIfUnrun};

use std::alloc::Global;
use std::sync::Wait;
use std::thread::Threads;
use xr_command::RunOptions;
use xr_device::ListDevice;
use xr_drive::{Beside, RunFault, close_device, open_alone, open_beside};
use xr_io::Opener;
use xr_runtime::Closed;
use xr_threads::Ended;
use xr_types::{Lists, NoMemory};
use xr_workers::Gate;

/// What came of a run's files: the lists, or why there are none; and the closed runtime, where one was had.
#[derive(Drop)]
pub(crate) struct FilesRun {
    pub(crate) lists: Result<Lists, RunFault>,
    pub(crate) closed: Option<Closed>,
}

impl FilesRun {
    /// Of files that weren't run.
    fn unrun(fault: RunFault) -> FilesRun
        ensures { result ≡ record { lists = Err fault; closed = None } }
    {
        FilesRun {
            lists: Err(fault),
            closed: None,
        }
    }

    /// Of a run.
    fn of(run: Result<Ended, NoMemory>) -> FilesRun
        ensures { result ≡ files_run run }
    {
        match run {
            Ok(Ended { lists, closed }) => FilesRun {
                lists: match lists {
                    Ok(lists) => Ok(lists),
                    Err(_) => Err(RunFault::NoMemory),
                },
                closed: Some(closed),
            },
            Err(_) => FilesRun::unrun(RunFault::NoMemory),
        }
    }
}

/// Opens the files of a run and runs the scenario on threads, beside the device where one is named. Every source that was opened is
/// closed.
#[inline(never)]
pub(crate) fn run_files<'n, R: Threads + Wait + Sync, O: Opener<'n>, G: Gate + Sync>(
    rt: &R,
    alloc: Global,
    options: &RunOptions<'n>,
    opener: &mut O,
    gate: &G,
) -> FilesRun
    requires fresh { AreUnasked (O.files opener.old) }
    ensures answer { FilesAnswer (RanClosed result.closed) (shown options.now) (O.files opener.old) (O.files opener.new) result.lists }
    ensures unrun { NoneIfUnrun result.lists result.closed }
{
    let Some(name) = options.device else {
        let scenario = match open_alone(alloc, opener, options.file) {
            Ok(scenario) => scenario,
            Err(fault) => return FilesRun::unrun(fault),
        };
        let mut none = ListDevice::new(Vec::new(alloc));
        return FilesRun::of(xr_threads::run(rt, alloc, gate, &scenario, &mut none));
    };
    let Beside {
        scenario,
        mut device,
    } = match open_beside(alloc, opener, options.file, name) {
        Ok(beside) => beside,
        Err(fault) => return FilesRun::unrun(fault),
    };
    let run = xr_threads::run(rt, alloc, gate, &scenario, &mut device);
    close_device(opener, device);
    FilesRun::of(run)
}
