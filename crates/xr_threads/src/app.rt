// The applications of a run, each on its thread.
ghost use Rattle.std.specs.Prelude.{◌≡◌, ◌≤◌, ◌<◌, ◌+◌, ℕ, [], map, length, slice_index_or, vec_capacity, IfOk};
ghost use Rattle.xr_types.specs.declared.limits.TheConstants.{MOST_SCRIPTS};
ghost use Rattle.xr_runtime.specs.Passes.{table_of, AreFirst};
ghost use Rattle.xr_threads.specs.inside.Working.{MayWork, HasWorked, MayWorkAll, HaveWorked, pass_of, Parted};
ghost use Rattle.xr_runs.specs.Runs.{CanBeRun};

use std::alloc::Global;
use std::sync::Wait;
use std::thread::{Threads, for_each_mut};
use xr_runtime::AppPass;
use xr_types::{MOST_SCRIPTS, MadeList, NoMemory, Scenario};
use xr_workers::{AppScript, Context, Gate, run_script};

/// An application on its thread: its pass, and its calls once they are listed. There is no list where memory was short.
#[derive(Drop)]
pub(crate) struct AppWorker {
    pub(crate) pass: AppPass,
    pub(crate) listed: Option<MadeList>,
}

impl AppWorker {
    /// Makes the calls of the script at this place, from 0.
    fn work<R: Wait, G: Gate>(
        &mut self,
        context: &Context<'_, R, G>,
        scenario: &Scenario,
        place: usize,
    )
        requires runs { CanBeRun scenario.now }
        requires may { MayWork (table_of context.now.runtime.now) scenario.now place self.old }
        ensures has { HasWorked (G.came context.now.gate.now) (G.went context.now.gate.now) (table_of context.now.runtime.now) scenario.now place self.new }
    {
        let script = AppScript {
            app: place as u8 + 1,
            ops: scenario.scripts.as_slice()[place].as_slice(),
        };
        self.listed = match run_script(context, script, &mut self.pass) {
            Ok(list) => Some(list),
            Err(_) => None,
        };
    }
}

/// A worker for each of these passes.
pub(crate) fn workers_of(alloc: Global, passes: Vec<AppPass>) -> Result<Vec<AppWorker>, NoMemory>
    ensures { IfOk result (λ workers. map pass_of workers.items ≡ passes.items) }
{
    let mut workers = Vec::new(alloc);
    for pass in passes {
        let Ok(()) = workers.push(AppWorker { pass, listed: None }) else {
            return Err(NoMemory);
        };
    }
    Ok(workers)
}

/// Makes the calls of all scripts, each on a thread of its own where one can be had, and else one after another. Takes no memory of its
/// own.
pub(crate) fn run_scripts<R: Threads + Wait + Sync, G: Gate + Sync>(
    context: &Context<'_, R, G>,
    scenario: &Scenario,
    workers: &mut [AppWorker],
)
    requires runs { CanBeRun scenario.now }
    requires may { MayWorkAll (table_of context.now.runtime.now) scenario.now workers.old }
    ensures have { HaveWorked (G.came context.now.gate.now) (G.went context.now.gate.now) (table_of context.now.runtime.now) scenario.now workers.new }
    ensures count { length workers.new ≡ length workers.old }
{
    for_each_mut(
        context.rt,
        workers,
        MOST_SCRIPTS,
        &|place, worker: &mut AppWorker| worker.work(context, scenario, place),
    );
}

/// The passes and the lists of the workers, in their order; whether each has a list.
pub(crate) fn part(
    workers: Vec<AppWorker>,
    passes: &mut Vec<AppPass>,
    lists: &mut Vec<MadeList>,
) -> bool
    requires empty { (passes.old.items ≡ []) × (lists.old.items ≡ []) }
    requires room { length workers.items ≤ vec_capacity passes.old }
    requires list_room { length workers.items ≤ vec_capacity lists.old }
    ensures { Parted workers.items passes.new.items lists.new.items result }
{
    let mut all = true;
    for worker in workers {
        let AppWorker { pass, listed } = worker;
        passes.push_reserved(pass);
        match listed {
            Some(list) => lists.push_reserved(list),
            None => all = false,
        }
    }
    all
}
