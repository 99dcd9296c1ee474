//! The round robin on one thread: a turn to each unfinished actor, the scripts in order, the device and the compositor,
//! round after round. It makes the calls of a scenario's ops and of a device's events on the core, and knows no
//! bytes of scenarios, devices or reports.
#![tactic(auto)]

ghost use Rattle.std.specs.Prelude.{◌≡◌, ◌≤◌, ◌+◌, ℕ, true, false, IfOk};
ghost use Rattle.std.specs.List.{list_any};
ghost use Rattle.xr_io.specs.Outside.{Rose};
ghost use Rattle.xr_model.specs.report.RunEnding.{is_fault};
ghost use Rattle.xr_device.specs.Answers.{ReadsOn};
ghost use Rattle.xr_serial.specs.Ran.{Ran};
ghost use Rattle.xr_runs.specs.Runs.{CanBeRun, FailsBehind};

mod application;
mod calls;
mod compositor;
mod lists;
mod machine;
mod rounds;
mod side;

use crate::lists::lists;
use crate::machine::Machine;
use crate::rounds::{go_on, start};
use std::alloc::Global;
use xr_device::Device;
use xr_types::{Lists, NoMemory, Scenario};

/// Runs a scenario beside a device and the compositor, and lists what was made: each script's calls and, behind its last
/// op, `leave`; the device's calls with its events, its fault or its garbled line last; the frames that the compositor was
/// shown, with the replies of these calls, and how it ended; and, where nobody can go on, the next calls of those that have
/// not finished.
///
/// A turn goes to each script in order, to the device and to the compositor, round after round (the order is this
/// project's own). In its turn an actor makes its next call, unless that has to wait; the device is asked for its next
/// event only then, once the one before is done. The scenario has 1 to 8 scripts and fewer than 2^22 ops, each in
/// range and with names that earlier ops of its script gave. Answers `NoMemory` where memory was short, and nothing else
/// but the lists.
pub fn run<D: Device>(alloc: Global, scenario: &Scenario, device: &mut D) -> Result<Lists, NoMemory>
    requires runs { CanBeRun scenario.now }
    ensures ran { IfOk result (λ lists. (count : ℕ) × ((D.prospect device.new).given ≡ (D.prospect device.old).given + count) × Ran scenario.now (D.prospect device.old).remaining count lists) }
    ensures fault { IfOk result (λ lists. list_any is_fault lists.events ≡ true → Rose (D.prospect device.old).faults (D.prospect device.new).faults) }
    ensures unfailed { IfOk result (λ lists. list_any is_fault lists.events ≡ false → (D.prospect device.new).faults ≡ (D.prospect device.old).faults) }
    ensures failed { IfOk result (λ lists. list_any is_fault lists.events ≡ true → FailsBehind (D.prospect device.old) (D.prospect device.new) lists.events) }
    ensures later { (D.prospect device.old).faults ≤ (D.prospect device.new).faults }
    ensures reads { ReadsOn (D.prospect device.old) (D.prospect device.new) }
{
    let mut machine = Machine::start(alloc, scenario.scripts.as_slice().len() as u8)?;
    let mut run = start(alloc, scenario)?;
    go_on(alloc, &mut machine, scenario, device, &mut run)?;
    let all = lists(alloc, scenario, run)?;
    Ok(all)
}
