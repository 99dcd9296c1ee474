// A run on its way, turn by turn, until no unfinished actor can make its call.
ghost use Rattle.std.specs.Prelude.{◌≡◌, ◌≤◌, ◌<◌, ◌+◌, ℕ, [], true, false, None, IfOk, OnOk, length, map, if◌then◌else◌};
ghost use Rattle.xr_model.specs.machine.State.{opening};
ghost use Rattle.xr_device.specs.Prospect.{Prospect};
ghost use Rattle.xr_device.specs.Answers.{ReadsOn};
ghost use Rattle.xr_serial.specs.inside.Sides.{new_app, first_run};
ghost use Rattle.xr_serial.specs.inside.Turns.{actors_of, turn_behind};
ghost use Rattle.xr_serial.specs.inside.RunInvariant.{calls_made, RunInvariant};
ghost use Rattle.xr_serial.specs.inside.KeptTurns.{StandsAt, KeepsTurn, RunsOut};
ghost use Rattle.xr_runs.specs.Runs.{CanBeRun};

use crate::application::Application;
use crate::compositor::CompositorSide;
use crate::machine::Machine;
use crate::side::DeviceSide;
use std::alloc::Global;
use std::marker::Model;
use xr_device::Device;
use xr_types::{NoMemory, Scenario, Script};

/// A run on its way: its applications, the device and the compositor.
#[derive(Drop)]
pub(crate) struct Run {
    pub(crate) apps: Vec<Application>,
    pub(crate) side: DeviceSide,
    pub(crate) compositor: CompositorSide,
}

impl Model for Run {
    ghost use Rattle.xr_serial.specs.inside.RunState.{RunState};

    ghost Value = { RunState };

    ghost view = { λ run. record { apps = run.apps.items; side = run.side; compositor = run.compositor } };
}

/// The applications of these scripts before their first calls.
fn start_apps(alloc: Global, scripts: &[Script]) -> Result<Vec<Application>, NoMemory>
    ensures { IfOk result (λ apps. apps.items ≡ map new_app scripts.now) }
{
    let mut apps = Vec::new(alloc);
    for ops in scripts {
        let app = Application::start(alloc, ops.as_slice())?;
        apps.push(app)?;
    }
    Ok(apps)
}

/// A run before its first call.
pub(crate) fn start(alloc: Global, scenario: &Scenario) -> Result<Run, NoMemory>
    ensures { IfOk result (λ run. run ≡ first_run scenario.now) }
{
    let apps = start_apps(alloc, scenario.scripts.as_slice())?;
    Ok(Run {
        apps,
        side: DeviceSide::new(alloc),
        compositor: CompositorSide::new(alloc),
    })
}

/// The turn behind this one, of so many actors.
fn behind(turn: usize, actors: usize) -> usize
    requires within { turn < actors }
    ensures { result ≡ turn_behind turn actors }
{
    if turn + 1 < actors { turn + 1 } else { 0 }
}

/// The device's turn; whether it made a call.
fn device_turn<D: Device>(
    alloc: Global,
    machine: &mut Machine,
    scenario: &Scenario,
    device: &mut D,
    run: &mut Run,
) -> Result<bool, NoMemory>
    requires runs { CanBeRun scenario.now }
    requires run { StandsAt scenario.now (length scenario.now.scripts) machine.old run.old (D.prospect device.old) }
    ensures run { IfOk result (λ went. KeepsTurn scenario.now (length scenario.now.scripts) went machine.old run.old (D.prospect device.old) machine.new run.new (D.prospect device.new)) }
    ensures counts { IfOk result (λ went. calls_made machine.new run.new ≡ calls_made machine.old run.old + (if went then 1 else 0)) }
    ensures later { (D.prospect device.old).faults ≤ (D.prospect device.new).faults }
    ensures reads { ReadsOn (D.prospect device.old) (D.prospect device.new) }
{
    run.side.look(device);
    let Some(event) = run.side.pending else {
        return Ok(false);
    };
    let went = run.side.make_event(alloc, machine, event)?;
    Ok(went)
}

/// The compositor's turn, in which it gives back an image or asks for a frame; whether it made a call.
fn compositor_turn(
    machine: &mut Machine,
    scenario: &Scenario,
    run: &mut Run,
) -> Result<bool, NoMemory>
    requires runs { CanBeRun scenario.now }
    requires run { (now : Prospect) × StandsAt scenario.now (length scenario.now.scripts + 1) machine.old run.old now }
    ensures run { IfOk result (λ went. (now : Prospect) → KeepsTurn scenario.now (length scenario.now.scripts + 1) went machine.old run.old now machine.new run.new now) }
    ensures counts { IfOk result (λ went. calls_made machine.new run.new ≡ calls_made machine.old run.old + (if went then 1 else 0)) }
{
    if run.compositor.ended.is_some() {
        return Ok(false);
    }
    if machine.holds_images() {
        run.compositor.give_back(machine)?;
        return Ok(true);
    }
    let went = run.compositor.take(machine)?;
    Ok(went)
}

/// One turn; whether a call was made.
fn one_turn<D: Device>(
    alloc: Global,
    machine: &mut Machine,
    scenario: &Scenario,
    device: &mut D,
    run: &mut Run,
    turn: usize,
) -> Result<bool, NoMemory>
    requires runs { CanBeRun scenario.now }
    requires within { turn < actors_of scenario.now }
    requires run { StandsAt scenario.now turn machine.old run.old (D.prospect device.old) }
    ensures run { IfOk result (λ went. KeepsTurn scenario.now turn went machine.old run.old (D.prospect device.old) machine.new run.new (D.prospect device.new)) }
    ensures counts { IfOk result (λ went. calls_made machine.new run.new ≡ calls_made machine.old run.old + (if went then 1 else 0)) }
    ensures later { (D.prospect device.old).faults ≤ (D.prospect device.new).faults }
    ensures reads { ReadsOn (D.prospect device.old) (D.prospect device.new) }
{
    let apps = scenario.scripts.as_slice().len();
    if turn < apps {
        let ops = scenario.scripts.as_slice()[turn].as_slice();
        let number = turn as u8 + 1;
        let app = &mut run.apps[turn];
        if app.has_left {
            return Ok(false);
        }
        if app.made < ops.len() {
            let went = app.make_op(alloc, machine, number, ops)?;
            return Ok(went);
        }
        app.leave(alloc, machine, number)?;
        return Ok(true);
    }
    if turn == apps {
        return device_turn(alloc, machine, scenario, device, run);
    }
    let went = compositor_turn(machine, scenario, run)?;
    Ok(went)
}

/// Goes on turn by turn, until no unfinished actor can make its call.
pub(crate) fn go_on<D: Device>(
    alloc: Global,
    machine: &mut Machine,
    scenario: &Scenario,
    device: &mut D,
    run: &mut Run,
) -> Result<(), NoMemory>
    requires runs { CanBeRun scenario.now }
    requires run { (start : Prospect) × RunInvariant scenario.now 0 0 machine.old run.old start (D.prospect device.old) }
    ensures run { OnOk result (RunsOut scenario.now machine.old run.old (D.prospect device.old) machine.new run.new (D.prospect device.new)) }
    ensures later { (D.prospect device.old).faults ≤ (D.prospect device.new).faults }
    ensures reads { ReadsOn (D.prospect device.old) (D.prospect device.new) }
{
    let actors = scenario.scripts.as_slice().len() + 2;
    let mut turn = 0;
    let mut idle = 0;
    while idle < actors {
        let went = one_turn(alloc, machine, scenario, device, run, turn)?;
        idle = if went { 0 } else { idle + 1 };
        turn = behind(turn, actors);
    }
    Ok(())
}
