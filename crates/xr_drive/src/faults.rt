// Why a part of a top call has no result, and the status that this is.
ghost use Rattle.std.specs.Prelude.{◌≡◌};
ghost use Rattle.xr_drive.specs.inside.CallParts.{fault_of_stop, fault_of_scenario, status_of_unwritten};
ghost use Rattle.xr_drive.specs.Files.{status_of_fault};

use crate::input::Stop;
use xr_scenario::ScenarioFault;
use xr_types::{NoMemory, Refusal, Status};

/// Why the files of a run give no lists.
#[derive(Clone, Copy)]
pub enum RunFault {
    /// The scenario's file couldn't be opened, or the device's.
    OpenFault,
    /// The scenario's file couldn't be read.
    ReadFault,
    /// Its text is no scenario.
    Refused(Refusal),
    /// Memory was short.
    NoMemory,
}

/// Why a report isn't written whole.
#[derive(Clone, Copy)]
pub(crate) enum Unwritten {
    Failed,
    NoMemory,
}

impl From<NoMemory> for RunFault {
    ghost use Rattle.xr_drive.specs.declared.faults.RunFault.TheVariants.{NoMemory as OutOfMemory};

    ghost from_gives = { λ _ fault. fault ≡ OutOfMemory };

    fn from(_: NoMemory) -> RunFault {
        RunFault::NoMemory
    }
}

impl RunFault {
    /// Why the scenario has no bytes.
    pub(crate) fn of_stop(stop: Stop) -> RunFault
        ensures { result ≡ fault_of_stop stop }
    {
        match stop {
            Stop::Failed => RunFault::ReadFault,
            Stop::NoMemory => RunFault::NoMemory,
        }
    }

    /// Why its text isn't run.
    pub(crate) fn of_scenario(fault: ScenarioFault) -> RunFault
        ensures { result ≡ fault_of_scenario fault }
    {
        match fault {
            ScenarioFault::Refused(why) => RunFault::Refused(why),
            ScenarioFault::NoMemory => RunFault::NoMemory,
        }
    }

    pub(crate) fn status(self) -> Status
        ensures { result ≡ status_of_fault self }
    {
        match self {
            RunFault::OpenFault => Status::OpenFault,
            RunFault::ReadFault => Status::ReadFault,
            RunFault::Refused(why) => Status::ScenarioRefused(why),
            RunFault::NoMemory => Status::NoMemory,
        }
    }
}

impl Unwritten {
    pub(crate) fn status(self) -> Status
        ensures { result ≡ status_of_unwritten self }
    {
        match self {
            Unwritten::Failed => Status::WriteFault,
            Unwritten::NoMemory => Status::NoMemory,
        }
    }
}
