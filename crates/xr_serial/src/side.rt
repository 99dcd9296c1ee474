// The device's side of a run: its next event, and its calls.
ghost use Rattle.std.specs.Prelude.{◌≡◌, ◌≤◌, ◌<◌, ◌^◌, [], true, false, Some, None, IfSome, IfOk, length};
ghost use Rattle.xr_runs.specs.Sides.{SideState};
ghost use Rattle.xr_device.specs.Answers.{ReadsOn};
ghost use Rattle.xr_device.specs.Told.{IsChecked};
ghost use Rattle.xr_serial.specs.inside.Sides.{EventTurn};
ghost use Rattle.xr_serial.specs.inside.KeptTurns.{KeepsRun};

use crate::machine::Machine;
use std::alloc::Global;
use std::marker::Model;
use xr_device::{Device, ask_next};
use xr_types::{Actor, Call, DeviceEvent, Made, NoMemory};

/// A device on its way: its next event, where that is known, whether nothing more will come behind it, and the events
/// whose calls were made, with these.
#[derive(Drop)]
pub(crate) struct DeviceSide {
    pub(crate) pending: Option<DeviceEvent>,
    over: bool,
    pub(crate) events: Vec<DeviceEvent>,
    pub(crate) calls: Vec<Made>,
}

impl Model for DeviceSide {
    ghost Value = { SideState };

    ghost view = { λ side. record { pending = side.pending; over = side.over; events = side.events.items; calls = side.calls.items } };
}

impl DeviceSide {
    /// A device before its first event. Takes no memory.
    pub(crate) fn new(alloc: Global) -> DeviceSide
        ensures { result ≡ record { pending = None; over = false; events = []; calls = [] } }
    {
        DeviceSide {
            pending: None,
            over: false,
            events: Vec::new(alloc),
            calls: Vec::new(alloc),
        }
    }

    /// Asks the device what comes next, where that isn't known and more may come.
    pub(crate) fn look<D: Device>(&mut self, device: &mut D)
        requires done { IfSome self.old.pending IsChecked }
        ensures run { KeepsRun self.old (D.prospect device.old) self.new (D.prospect device.new) }
        ensures known { self.new.pending ≡ None → self.new.over ≡ true }
        ensures done { IfSome self.new.pending IsChecked }
        ensures calls { self.new.calls ≡ self.old.calls }
        ensures later { (D.prospect device.old).faults ≤ (D.prospect device.new).faults }
        ensures reads { ReadsOn (D.prospect device.old) (D.prospect device.new) }
    {
        if self.pending.is_none() && !self.over {
            let told = ask_next(device);
            self.pending = told.event;
            self.over = told.is_last;
        }
    }

    /// Makes the call of the next event, unless it has to wait; whether it was made.
    pub(crate) fn make_event(
        &mut self,
        alloc: Global,
        machine: &mut Machine,
        event: DeviceEvent,
    ) -> Result<bool, NoMemory>
        requires calls { machine.old.core.locked < 2 ^ 44 }
        requires next { self.old.pending ≡ Some event }
        requires done { IsChecked event }
        requires few { length self.old.calls < 2 ^ 31 }
        ensures { IfOk result (λ went. EventTurn event self.old self.new machine.old machine.new went) }
    {
        let call = Call::Device(event);
        let place = self.calls.len() as u32 + 1;
        let lender = &mut machine.lender;
        if !lender.make(alloc, Actor::Device, &call, place, &mut self.calls)? {
            return Ok(false);
        }
        self.events.push(event)?;
        self.pending = None;
        Ok(true)
    }
}
