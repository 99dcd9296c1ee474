// A device that is a list.
use std::alloc::{AllocError, Global};
use std::test::Fail;
use xr_device::{Device, ListDevice, Next};
use xr_types::{DeviceEvent, Wish};

/// A device of three events.
fn list(alloc: Global) -> Result<ListDevice, AllocError> {
    let events = vec![in alloc;
        DeviceEvent::Clock(5),
        DeviceEvent::Wish(Wish::Ready),
        DeviceEvent::Lost,
    ]?;
    Ok(ListDevice::new(events))
}

#[test]
fn a_list_is_told_in_its_order(rt: HostRuntime) -> Result<(), Fail> {
    let mut device = list(rt.alloc())?;
    let tells = matches!(device.next(), Next::Event(DeviceEvent::Clock(5)))
        && matches!(device.next(), Next::Event(DeviceEvent::Wish(Wish::Ready)))
        && matches!(device.next(), Next::Event(DeviceEvent::Lost));
    let ends = matches!((device.next(), device.next()), (Next::End, Next::End));
    assert!(rt; tells && ends);
    Ok(())
}
