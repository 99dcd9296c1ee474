// All actors of a run on their threads.
ghost use Rattle.std.specs.Prelude.{◌≡◌, length};
ghost use Rattle.xr_types.specs.declared.calls.Actor.TheVariants.{Device as Devices};
ghost use Rattle.xr_runtime.specs.Passes.{table_of, IsDevice};
ghost use Rattle.xr_workers.specs.Workers.{IsGated, ComposesGated, RanDevice, RanCompositor};
ghost use Rattle.xr_threads.specs.inside.Working.{MayWorkAll, MayRun, HaveWorked};
ghost use Rattle.xr_runs.specs.Runs.{CanBeRun};

use crate::app::{AppWorker, run_scripts};
use std::sync::Wait;
use std::thread::{Threads, join_mut};
use xr_device::Device;
use xr_runtime::{CompositorPass, DevicePass};
use xr_types::{NoMemory, Scenario};
use xr_workers::{Composed, Context, DeviceMade, Gate, run_compositor, run_device};

/// The scripts on threads of their own, and the device on this one. Where no thread can be had the device comes first.
fn run_scripts_and_device<R: Threads + Wait + Sync, G: Gate + Sync, D: Device>(
    context: &Context<'_, R, G>,
    scenario: &Scenario,
    workers: &mut Vec<AppWorker>,
    device: &mut D,
    pass: &mut DevicePass,
) -> Result<DeviceMade, NoMemory>
    requires runs { CanBeRun scenario.now }
    requires may { MayWorkAll (table_of context.now.runtime.now) scenario.now workers.old.items }
    requires device { IsDevice (table_of context.now.runtime.now) pass.old }
    requires none_told { pass.old.calls ≡ 0 }
    ensures have { HaveWorked (G.came context.now.gate.now) (G.went context.now.gate.now) (table_of context.now.runtime.now) scenario.now workers.new.items }
    ensures count { length workers.new.items ≡ length workers.old.items }
    ensures told { RanDevice (table_of context.now.runtime.now) (D.prospect device.old) (D.prospect device.new) pass.old pass.new result }
    ensures told_gated { IsGated (G.came context.now.gate.now) (G.went context.now.gate.now) Devices pass.old.calls pass.new.calls }
{
    let ((), told) = join_mut(
        context.rt,
        &mut ||
            requires { CanBeRun scenario.now × MayWorkAll (table_of context.now.runtime.now) scenario.now workers.now.items }
        { run_scripts(context, scenario, workers.as_mut_slice()) },
        &mut || run_device(context, device, pass),
    );
    told
}

/// What the compositor and the device have listed.
#[derive(Drop)]
pub(crate) struct Listed {
    pub(crate) composed: Result<Composed, NoMemory>,
    pub(crate) told: Result<DeviceMade, NoMemory>,
}

/// All actors, each on a thread of its own where one can be had, and else one after another: the device, the scripts from the last to the
/// first, and the compositor.
pub(crate) fn run_actors<R: Threads + Wait + Sync, G: Gate + Sync, D: Device>(
    context: &Context<'_, R, G>,
    scenario: &Scenario,
    workers: &mut Vec<AppWorker>,
    compositor: &mut CompositorPass,
    device: &mut D,
    pass: &mut DevicePass,
) -> Listed
    requires runs { CanBeRun scenario.now }
    requires may { MayRun (table_of context.now.runtime.now) scenario.now workers.old.items compositor.old pass.old }
    ensures have { HaveWorked (G.came context.now.gate.now) (G.went context.now.gate.now) (table_of context.now.runtime.now) scenario.now workers.new.items }
    ensures count { length workers.new.items ≡ length workers.old.items }
    ensures composed { RanCompositor (table_of context.now.runtime.now) compositor.old compositor.new result.composed }
    ensures told { RanDevice (table_of context.now.runtime.now) (D.prospect device.old) (D.prospect device.new) pass.old pass.new result.told }
    ensures composed_gated { ComposesGated (G.came context.now.gate.now) (G.went context.now.gate.now) compositor.old.seat.me.0.know compositor.new.seat.me.0.know }
    ensures told_gated { IsGated (G.came context.now.gate.now) (G.went context.now.gate.now) Devices pass.old.calls pass.new.calls }
{
    let (composed, told) = join_mut(
        context.rt,
        &mut || run_compositor(context, compositor),
        &mut ||
            requires { CanBeRun scenario.now × MayWorkAll (table_of context.now.runtime.now) scenario.now workers.now.items × IsDevice (table_of context.now.runtime.now) pass.now × (pass.now.calls ≡ 0) }
        { run_scripts_and_device(context, scenario, workers, device, pass) },
    );
    Listed { composed, told }
}
