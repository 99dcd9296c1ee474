// What a device tells a run that asks it what comes next.
ghost use Rattle.xr_device.specs.Told.{HasTold};

use crate::{Device, Next};
use xr_types::DeviceEvent;

/// The event whose call comes next, if there is one, and whether it is the last: nothing comes behind it. A malformed line and a fault
/// are events of their own, and the last.
#[derive(Clone, Copy)]
pub struct Told {
    pub event: Option<DeviceEvent>,
    pub is_last: bool,
}

/// Asks a device what comes next.
pub fn ask_next<D: Device>(device: &mut D) -> Told
    ensures told { HasTold (D.prospect device.old) result (D.prospect device.new) }
{
    match device.next() {
        Next::Event(event) => Told {
            event: Some(event),
            is_last: false,
        },
        Next::End => Told {
            event: None,
            is_last: true,
        },
        Next::Garbled(line) => Told {
            event: Some(DeviceEvent::Garbled(line)),
            is_last: true,
        },
        Next::Failed => Told {
            event: Some(DeviceEvent::Fault),
            is_last: true,
        },
    }
}
