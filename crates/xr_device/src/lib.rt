//! The device: what tells a run its events, one after another. Events come from the text of a source, line by
//! line, or from a list. It knows the form of device texts, and nothing of what the events do.
#![tactic(auto)]

ghost use Rattle.std.specs.Prelude.{◌≤◌};
ghost use Rattle.xr_types.specs.declared.limits.TheConstants.{MOST_DEVICE};
ghost use Rattle.xr_device.specs.Prospect.{Prospect};
ghost use Rattle.xr_device.specs.Answers.{NextOf};

mod bytes;
mod held;
mod line_device;
mod lines;
mod list_device;
mod numbers;
mod text;
mod told;
mod words;

pub use line_device::LineDevice;
pub use list_device::{ListDevice, may_tell};
pub use told::{Told, ask_next};
use xr_types::DeviceEvent;

/// What a device answers.
#[derive(Clone, Copy)]
pub enum Next {
    /// The next event.
    Event(DeviceEvent),
    /// It has no more events.
    End,
    /// The line of this number is malformed.
    Garbled(u64),
    /// It couldn't be read on.
    Failed,
}

/// What tells events, one after another. After any answer but an event it answers `End` for ever.
pub trait Device {
    /// What is known of it. `remaining` is what is still to come, where it tells that. `over` says that it answers `End` for
    /// ever: `remaining` alone can't, since a text of which nothing is to come may still fail to be read to its end.
    /// `given` is how many events it has given, and `bound` how many are still to come at most: never more than
    /// 16,777,216, as the law `few` says. `faults` is how often a read has failed: it never falls, changes only where the
    /// device answers `Failed`, and stops at the largest u64. `which` is the file that it is read from, `begun` the place in it
    /// where `text` begins, and `taken` how many bytes of that were taken. `late` says that a read was late.
    ghost prospect: { Self → Prospect };

    /// The next event, or why there is none.
    fn next(&mut self) -> Next
        ensures { NextOf (prospect self.old) result (prospect self.new) };

    ghost few: { (device : Self) → (prospect device).bound ≤ MOST_DEVICE };
}
