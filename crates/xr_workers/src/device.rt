// The device's worker.
ghost use Rattle.std.specs.Prelude.{◌≡◌, ◌<◌, ◌+◌, ◌^◌, true};
ghost use Rattle.xr_types.specs.Device.{checks};
ghost use Rattle.xr_types.specs.declared.calls.Actor.TheVariants.{Device as Devices};
ghost use Rattle.xr_runtime.specs.Passes.{table_of, IsDevice};
ghost use Rattle.xr_workers.specs.Workers.{IsGated, RanDevice};
ghost use Rattle.xr_workers.specs.inside.Telling.{MadeEvent};

use crate::context::Context;
use crate::gate::Gate;
use std::sync::Wait;
use xr_device::{Device, ask_next};
use xr_runtime::DevicePass;
use xr_types::{Actor, Bytes, CallName, DeviceEvent, Made, MadeList, NoMemory, Reply, Several};

/// What the device's worker lists: the events whose calls it made, and these calls.
#[derive(Drop)]
pub struct DeviceMade {
    pub events: Several<DeviceEvent>,
    pub calls: MadeList,
}

// Makes the call of an event.
fn make_event<R: Wait, G: Gate>(
    context: &Context<'_, R, G>,
    pass: &mut DevicePass,
    event: DeviceEvent,
) -> Reply
    requires is { IsDevice (table_of context.now.runtime.now) pass.old }
    requires few { pass.old.calls < 2 ^ 40 }
    requires checks { checks event ≡ true }
    ensures made { MadeEvent (table_of context.now.runtime.now) pass.old event result pass.new }
    ensures gated { IsGated (G.came context.now.gate.now) (G.went context.now.gate.now) Devices pass.old.calls (pass.old.calls + 1) }
{
    let number = pass.calls() + 1;
    context.gate.before(Actor::Device, number, pass.seat());
    let reply = context.runtime.device(context.rt, pass, event);
    context.gate.after(Actor::Device, number, pass.seat());
    reply
}

/// Asks a device for its events and makes the call of each before it asks for the next, and lists them. A fault or a malformed line
/// is the last. The pass has made no call yet. Where memory is short it makes no further call, and answers `NoMemory`.
pub fn run_device<R: Wait, G: Gate, D: Device>(
    context: &Context<'_, R, G>,
    device: &mut D,
    pass: &mut DevicePass,
) -> Result<DeviceMade, NoMemory>
    requires is { IsDevice (table_of context.now.runtime.now) pass.old }
    requires first { pass.old.calls ≡ 0 }
    ensures ran { RanDevice (table_of context.now.runtime.now) (D.prospect device.old) (D.prospect device.new) pass.old pass.new result }
    ensures gated { IsGated (G.came context.now.gate.now) (G.went context.now.gate.now) Devices pass.old.calls pass.new.calls }
{
    let mut events = Vec::new(context.alloc);
    let mut calls = Vec::new(context.alloc);
    for _ in context.rt.forever() {
        let told = ask_next(device);
        if let Some(event) = told.event {
            let reply = make_event(context, pass, event);
            let made = Made {
                op: calls.len() as u32 + 1,
                name: CallName::Device,
                mark: 0,
                start: 0,
                reply,
                text: Bytes::new(Vec::new(context.alloc)),
            };
            calls.push(made)?;
            events.push(event)?;
        }
        if told.is_last {
            return Ok(DeviceMade {
                events: Several::new(events),
                calls: MadeList::new(calls),
            });
        }
    }
    unreachable!()
}
