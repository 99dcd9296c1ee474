// A core with a head that moves, and how it is located.
use super::asking::{ask, handle, tell};
use xr_core::PlainCore;
use xr_types::{Call, DeviceEvent, Gives, Location, Origin, RefKind};

/// Tells a pose.
fn tell_pose(core: &mut PlainCore, origin: Origin, time: i64) {
    tell(
        core,
        DeviceEvent::Pose {
            origin,
            time,
            pose: 1,
        },
    );
}

/// What is located, and in what.
#[derive(Drop)]
pub(crate) struct Place {
    space: u64,
    base: u64,
}

/// Gives the core a session with a head in a room, each with 16 samples.
pub(crate) fn set_out(core: &mut PlainCore) -> Place {
    let instance = handle(ask(core, &Call::CreateInstance { major: 1, minor: 0 }));
    let session = handle(ask(
        core,
        &Call::CreateSession {
            instance,
            system: 1,
        },
    ));
    for time in 1..17_i64 {
        tell_pose(core, Origin::View, time);
        tell_pose(core, Origin::Local, time);
    }
    let space = handle(ask(
        core,
        &Call::CreateReferenceSpace {
            session,
            kind: RefKind::View,
            offset: 9,
        },
    ));
    let base = handle(ask(
        core,
        &Call::CreateReferenceSpace {
            session,
            kind: RefKind::Local,
            offset: 7,
        },
    ));
    Place { space, base }
}

/// Locates the head so often, at times from the newest sample to the oldest; how often it was found.
pub(crate) fn locate_often(core: &mut PlainCore, place: &Place, times: u64) -> u64 {
    let mut found: u64 = 0;
    for i in 0..times {
        let call = Call::LocateSpace {
            space: place.space,
            base: place.base,
            time: 16 - (i % 16) as i64,
        };
        if let Gives::Location(Location::Factors { .. }) = ask(core, &call) {
            found = found.saturating_add(1);
        }
    }
    found
}
