// A run of a scenario on threads.
ghost use Rattle.std.specs.Prelude.{◌≡◌, ◌≤◌, ◌+◌, ℕ, true, false, IfOk};
ghost use Rattle.std.specs.List.{list_any};
ghost use Rattle.xr_device.specs.Answers.{ReadsOn};
ghost use Rattle.xr_io.specs.Outside.{Rose};
ghost use Rattle.xr_model.specs.report.RunEnding.{is_fault};
ghost use Rattle.xr_threads.specs.Threads.{RanBeside, ClosesRun};
ghost use Rattle.xr_threads.specs.inside.Ending.{AreListed};
ghost use Rattle.xr_runs.specs.Runs.{CanBeRun, FailsBehind};

use crate::actors::{Listed, run_actors};
use crate::app::{part, workers_of};
use std::alloc::Global;
use std::sync::Wait;
use std::thread::Threads;
use xr_device::Device;
use xr_runtime::{Closed, Passes, Runtime};
use xr_types::{Lists, MadeList, NoMemory, Scenario, Several};
use xr_workers::{Composed, Context, DeviceMade, Gate};

/// What is left of a run on threads: its lists, none where memory was short for them, and the closed runtime.
#[derive(Drop)]
pub struct Ended {
    pub lists: Result<Lists, NoMemory>,
    pub closed: Closed,
}

/// The lists of a run, where every worker has its own.
fn lists(alloc: Global, apps: Vec<MadeList>, all: bool, listed: Listed) -> Result<Lists, NoMemory>
    ensures { IfOk result (λ lists. AreListed apps.items all listed.composed listed.told lists) }
{
    let Listed { composed, told } = listed;
    if !all {
        return Err(NoMemory);
    }
    let Composed {
        frames,
        replies,
        ended,
    } = composed?;
    let DeviceMade { events, calls } = told?;
    Ok(Lists {
        apps: Several::new(apps),
        device: calls,
        compositor: frames,
        ended: Some(ended),
        shown: replies,
        done: Several::new(Vec::new(alloc)),
        events,
        next: Several::new(Vec::new(alloc)),
    })
}

/// Runs a scenario on threads, over one runtime: each script, the compositor and the device on a thread of its own, the device on this
/// one. Where no thread can be had for an actor its calls are made by another's, before or behind those; a run whose actors wait for each
/// other may then not return. The scenario can be run.
///
/// There is one legal history of the written machine that holds the calls of all scripts, of the compositor and of the device, and no
/// others; the lists are those of this history, and the closed runtime stands for it. Where memory is short for a list that actor makes
/// no further call of its script, but leaves, or none of its device; who waits for its marks then waits for ever.
pub fn run<R: Threads + Wait + Sync, G: Gate + Sync, D: Device>(
    rt: &R,
    alloc: Global,
    gate: &G,
    scenario: &Scenario,
    device: &mut D,
) -> Result<Ended, NoMemory>
    requires runs { CanBeRun scenario.now }
    ensures closed { IfOk result (λ e. ClosesRun (G.came gate.now) (G.went gate.now) scenario.now (D.prospect device.old) (D.prospect device.new) e.closed) }
    ensures ran { IfOk result (λ e. IfOk e.lists (λ lists. RanBeside e.closed scenario.now (D.prospect device.old) (D.prospect device.new) lists)) }
    ensures fault { IfOk result (λ e. IfOk e.lists (λ lists. list_any is_fault lists.events ≡ true → Rose (D.prospect device.old).faults (D.prospect device.new).faults)) }
    ensures unfailed { IfOk result (λ e. IfOk e.lists (λ lists. list_any is_fault lists.events ≡ false → (D.prospect device.new).faults ≡ (D.prospect device.old).faults)) }
    ensures failed { IfOk result (λ e. IfOk e.lists (λ lists. list_any is_fault lists.events ≡ true → FailsBehind (D.prospect device.old) (D.prospect device.new) lists.events)) }
    ensures later { (D.prospect device.old).faults ≤ (D.prospect device.new).faults }
    ensures reads { ReadsOn (D.prospect device.old) (D.prospect device.new) }
{
    let count = scenario.scripts.as_slice().len();
    let mut apps = Vec::with_capacity(alloc, count)?;
    let mut calls = Vec::with_capacity(alloc, count)?;
    let (runtime, passes) = Runtime::start(alloc, count as u8)?;
    let Passes {
        apps: passes,
        mut compositor,
        device: mut pass,
    } = passes;
    let mut workers = workers_of(alloc, passes)?;
    let context = Context {
        rt,
        alloc,
        runtime: &runtime,
        gate,
    };
    let listed = run_actors(
        &context,
        scenario,
        &mut workers,
        &mut compositor,
        device,
        &mut pass,
    );
    let all = part(workers, &mut apps, &mut calls);
    let closed = runtime.close(Passes {
        apps,
        compositor,
        device: pass,
    });
    let lists = lists(alloc, calls, all, listed);
    Ok(Ended { lists, closed })
}
