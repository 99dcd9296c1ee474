// What a run has made: the lists that a report prints.
use crate::{Actor, Bytes, CallName, DeviceEvent, Reply, Several, Shown};

/// A call that was made: its place in the script from 1 (of the device, among its events), its name, the
/// mark of an `await` (else 0), the start of a `wait_image` in ns of device time (else 0), its reply, and
/// the bytes that it put into the buffer that it was lent, a terminating zero among them.
#[derive(Drop)]
pub struct Made {
    pub op: u32,
    pub name: CallName,
    pub mark: u8,
    pub start: i64,
    pub reply: Reply,
    pub text: Bytes,
}

/// The calls of one script, in order.
pub type MadeList = Several<Made>;

/// The next call of an actor of a run that can't go on: of a script the op's place and name, of the
/// device the mark that it awaits and `Await`, of the compositor 0 and `NextFrame`.
#[derive(Clone, Copy)]
pub struct Waiting {
    pub actor: Actor,
    pub op: u32,
    pub name: CallName,
}

/// What a run has made: the calls of each script; the device's calls, one for each of its events, and the
/// events, its ending among them; the frames that the compositor has taken with their replies, the reply
/// that ended it, and the number of locked calls before each image that it gave back; and the next calls
/// where the run is stuck.
#[derive(Drop)]
pub struct Lists {
    pub apps: Several<MadeList>,
    pub device: MadeList,
    pub compositor: Several<Shown>,
    pub ended: Option<Reply>,
    pub shown: Several<Reply>,
    pub done: Several<u64>,
    pub events: Several<DeviceEvent>,
    pub next: Several<Waiting>,
}

const _: () = prove!(size_of::<Made>() < 600);

const _: () = prove!(size_of::<Shown>() < 600);

const _: () = prove!(size_of::<Waiting>() < 600);
