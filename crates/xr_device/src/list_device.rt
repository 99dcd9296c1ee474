// The device that holds its events.
ghost use Rattle.std.specs.Prelude.{◌≡◌, ◌≤◌, true, length};
ghost use Rattle.std.specs.List.{list_all};
ghost use Rattle.xr_types.specs.declared.limits.TheConstants.{MOST_DEVICE};
ghost use Rattle.xr_device.specs.Answers.{may_tell};

use crate::numbers::GREATEST;
use crate::{Device, Next};
use std::marker::Model;
use xr_types::DeviceEvent;

/// Whether a device may tell an event: its numbers are in range, it is none of the two ways in which a device ends early,
/// and its pose is one that a line tells.
pub fn may_tell(event: &DeviceEvent) -> bool
    ensures { result ≡ may_tell event.now }
{
    event.check()
        && matches!(
            *event,
            DeviceEvent::Clock(_)
                | DeviceEvent::Grid { .. }
                | DeviceEvent::Wish(_)
                | DeviceEvent::Loss
                | DeviceEvent::Lost
                | DeviceEvent::Stage(_)
                | DeviceEvent::Profile { .. }
                | DeviceEvent::Input { .. }
                | DeviceEvent::Pose {
                    pose: 0..=GREATEST,
                    ..
                }
                | DeviceEvent::Mark(_)
                | DeviceEvent::Await(_)
        )
}

/// A device that gives the events of a list in their order, seen by contracts as the list of those that are still to
/// come and the count of those that it has given.
#[derive(Drop)]
pub struct ListDevice {
    events: Vec<DeviceEvent>,
    next: usize,
}

impl Model for ListDevice {
    ghost use Rattle.std.specs.Prelude.{◌≡◌, ◌≤◌, true, length, drop};
    ghost use Rattle.std.specs.List.{list_all};
    ghost use Rattle.xr_device.specs.Answers.{may_tell};
    ghost use Rattle.xr_types.specs.declared.limits.TheConstants.{MOST_DEVICE};
    ghost use Rattle.xr_device.specs.Kinds.{Stored};

    ghost Value = { Stored };

    ghost view = { λ d. record { events = drop d.next d.events.items; given = d.next } };

    ghost invariant = { λ d. (d.next ≤ length d.events.items) × (length d.events.items ≤ MOST_DEVICE) × (list_all may_tell d.events.items ≡ true) };
}

impl ListDevice {
    /// A device of these events, each of which a device may tell.
    pub fn new(events: Vec<DeviceEvent>) -> ListDevice
        requires few { length events.items ≤ MOST_DEVICE }
        requires all { list_all may_tell events.items ≡ true }
        ensures { result ≡ record { events = events.items; given = 0 } }
    {
        ListDevice { events, next: 0 }
    }
}

impl Device for ListDevice {
    ghost use Rattle.std.proofs.Common.{rules, arith};
    ghost use Rattle.xr_device.specs.Kinds.{of_list};

    ghost prospect = { of_list };

    fn next(&mut self) -> Next {
        if self.next == self.events.len() {
            return Next::End;
        }
        let event = self.events[self.next];
        self.next += 1;
        Next::Event(event)
    }

    ghost few = { Prim.search (rules, arith) };
}
