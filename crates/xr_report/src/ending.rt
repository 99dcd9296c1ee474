// How a run ended, and the number of each way to end.
ghost use Rattle.std.specs.Prelude.{◌≡◌};
ghost use Rattle.std.specs.List.{list_any};
ghost use Rattle.xr_model.specs.report.RunEnding.{is_fault, first_garbled, ending_of, exit_of};

use xr_types::{DeviceEvent, Lists, Status};

/// Whether the device couldn't be read on.
fn has_fault(events: &[DeviceEvent]) -> bool
    ensures { result ≡ list_any is_fault events.now }
{
    events
        .iter()
        .any(|event| matches!(event, DeviceEvent::Fault))
}

/// The first malformed line of the device's text.
fn first_garbled(events: &[DeviceEvent]) -> Option<u64>
    ensures { result ≡ first_garbled events.now }
{
    for event in events {
        if let DeviceEvent::Garbled(line) = *event {
            return Some(line);
        }
    }
    None
}

/// How a run ended that has made these lists: `DeviceFailed` where the device couldn't be read on, else `DeviceGarbled` with
/// the first malformed line of its text, else `Stuck` where somebody waits for ever, else `Done`.
pub fn ending_of(lists: &Lists) -> Status
    ensures { result ≡ ending_of lists.now }
{
    if has_fault(lists.events.as_slice()) {
        return Status::DeviceFailed;
    }
    if let Some(line) = first_garbled(lists.events.as_slice()) {
        return Status::DeviceGarbled(line);
    }
    if lists.next.as_slice().is_empty() {
        Status::Done
    } else {
        Status::Stuck
    }
}

/// The number of a way to end, 0 to 9: a report prints it, and a process ends with it.
pub fn exit_of(status: Status) -> u8
    ensures { result ≡ exit_of status }
{
    match status {
        Status::Done => 0,
        Status::Usage => 1,
        Status::OpenFault => 2,
        Status::ReadFault => 3,
        Status::ScenarioRefused(_) => 4,
        Status::DeviceFailed => 5,
        Status::DeviceGarbled(_) => 6,
        Status::Stuck => 7,
        Status::WriteFault => 8,
        Status::NoMemory => 9,
    }
}
