// What a run has made, as lists.
ghost use Rattle.std.specs.Prelude.{◌≡◌, ◌≤◌, ◌++◌, [], IfOk, OnOk, map, drop, length};
ghost use Rattle.xr_types.specs.declared.limits.TheConstants.{MOST_SCRIPTS};
ghost use Rattle.xr_model.specs.runs.Lists.{waiting_of, mark_awaited};
ghost use Rattle.xr_serial.specs.inside.Turns.{device_part, compositor_part};
ghost use Rattle.xr_serial.specs.inside.AtEnd.{next_name, list_if, app_next, apps_next, next_calls, lists_at};

use crate::application::Application;
use crate::rounds::Run;
use std::alloc::Global;
use xr_types::{
    Actor, CallName, DeviceEvent, Lists, MadeList, NoMemory, Op, Reply, Scenario, Script, Several,
    Waiting,
};

/// The name of a script's next call.
fn next_name(ops: &[Op], made: usize) -> CallName
    ensures { result ≡ next_name (drop made ops.now) }
{
    if made < ops.len() {
        ops[made].name()
    } else {
        CallName::Leave
    }
}

/// An application's next call, unless it has left.
fn app_next(number: u8, ops: &[Op], app: &Application) -> Option<Waiting>
    ensures { list_if result ≡ app_next number ops.now app.now }
{
    if app.has_left {
        return None;
    }
    Some(Waiting {
        actor: Actor::App(number),
        op: app.made as u32 + 1,
        name: next_name(ops, app.made),
    })
}

/// The mark that a device's event awaits, else 0.
fn mark_awaited(event: DeviceEvent) -> u8
    ensures { result ≡ mark_awaited event }
{
    match event {
        DeviceEvent::Await(mark) => mark,
        _ => 0,
    }
}

/// The device's next call, where that is known.
fn device_next(pending: Option<DeviceEvent>) -> Option<Waiting>
    ensures { list_if result ≡ map waiting_of (device_part pending []) }
{
    let event = pending?;
    Some(Waiting {
        actor: Actor::Device,
        op: mark_awaited(event) as u32,
        name: CallName::Await,
    })
}

/// The compositor's next call, unless it was told the end.
fn compositor_next(ended: &Option<Reply>) -> Option<Waiting>
    ensures { list_if result ≡ map waiting_of (compositor_part ended.now 0) }
{
    match ended {
        Some(_) => None,
        None => Some(Waiting {
            actor: Actor::Compositor,
            op: 0,
            name: CallName::NextFrame,
        }),
    }
}

/// Keeps a next call, where there is one.
fn add_next(list: &mut Vec<Waiting>, next: Option<Waiting>) -> Result<(), NoMemory>
    ensures { OnOk result (list.new.items ≡ list.old.items ++ list_if next) }
{
    let Some(one) = next else {
        return Ok(());
    };
    list.push(one)?;
    Ok(())
}

/// Keeps the next calls of the applications that haven't left.
fn add_apps(
    list: &mut Vec<Waiting>,
    scripts: &[Script],
    apps: &[Application],
) -> Result<(), NoMemory>
    requires most { length scripts.now ≤ MOST_SCRIPTS }
    requires count { length apps.now ≡ length scripts.now }
    ensures { OnOk result (list.new.items ≡ list.old.items ++ apps_next 1 scripts.now apps.now) }
{
    for (place, ops) in scripts.iter().enumerate() {
        let number = place as u8 + 1;
        add_next(list, app_next(number, ops.as_slice(), &apps[place]))?;
    }
    Ok(())
}

/// The next calls of those that have not finished, in the order of a round.
fn waiting(alloc: Global, scenario: &Scenario, run: &Run) -> Result<Vec<Waiting>, NoMemory>
    requires most { length scenario.now.scripts ≤ MOST_SCRIPTS }
    requires count { length run.now.apps ≡ length scenario.now.scripts }
    ensures { IfOk result (λ next. next.items ≡ next_calls scenario.now run.now) }
{
    let mut next = Vec::new(alloc);
    add_apps(&mut next, scenario.scripts.as_slice(), run.apps.as_slice())?;
    add_next(&mut next, device_next(run.side.pending))?;
    add_next(&mut next, compositor_next(&run.compositor.ended))?;
    Ok(next)
}

/// The calls of each application.
fn calls_of(alloc: Global, apps: Vec<Application>) -> Result<Vec<MadeList>, NoMemory>
    ensures { IfOk result (λ lists. lists.items ≡ map (λ app. app.calls) apps.items) }
{
    let mut lists = Vec::new(alloc);
    for app in apps {
        lists.push(Several::new(app.calls))?;
    }
    Ok(lists)
}

/// What a run has made, where nobody can go on.
pub(crate) fn lists(alloc: Global, scenario: &Scenario, run: Run) -> Result<Lists, NoMemory>
    requires most { length scenario.now.scripts ≤ MOST_SCRIPTS }
    requires count { length run.apps ≡ length scenario.now.scripts }
    ensures { IfOk result (λ lists. lists ≡ lists_at scenario.now run) }
{
    let next = waiting(alloc, scenario, &run)?;
    let Run {
        apps,
        side,
        compositor,
    } = run;
    let apps = calls_of(alloc, apps)?;
    Ok(Lists {
        apps: Several::new(apps),
        device: Several::new(side.calls),
        compositor: Several::new(compositor.frames),
        ended: compositor.ended,
        shown: Several::new(compositor.replies),
        done: Several::new(compositor.done),
        events: Several::new(side.events),
        next: Several::new(next),
    })
}
