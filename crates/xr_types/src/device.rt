// What happens at the device. The events are this project's own.
ghost use Rattle.std.specs.Prelude.{◌≡◌, Some, refl};
ghost use Rattle.xr_types.specs.Printed.{wish_name, all_wishes};
ghost use Rattle.xr_types.specs.Device.{checks, is_hand, is_time};

use crate::{MOST_MARK, MOST_ROW, Origin, Profile, User, Word};
use std::fmt;

/// The state that the device wishes its session to be in. `Rest` is none.
#[derive(Clone, Copy)]
pub enum Wish {
    Rest,
    Ready,
    Visible,
    Focused,
}

impl Word for Wish {
    ghost printed = { wish_name };

    ghost listed = { all_wishes };

    ghost own = { refl };

    fn word(self) -> &'static str {
        match self {
            Wish::Rest => "rest",
            Wish::Ready => "ready",
            Wish::Visible => "visible",
            Wish::Focused => "focused",
        }
    }

    fn all() -> &'static [Wish] {
        &[Wish::Rest, Wish::Ready, Wish::Visible, Wish::Focused]
    }
}

impl fmt::Display for Wish {
    ghost output = { λ wish. Some (wish_name wish) };

    fn fmt<W: fmt::Write>(&self, f: &mut fmt::Formatter<W>) -> fmt::Result {
        f.write_str(self.word())
    }
}

/// An event of the device. Times are in ns of device time, 0 to 2^62 - 1; a period is 1 to 1,000,000,000;
/// a row of inputs is 1 to 40, its value -32768 to 32768; a pose is at least 1; a mark is 1 to 64.
#[derive(Clone, Copy)]
pub enum DeviceEvent {
    /// The clock shows at least this time.
    Clock(i64),
    /// Frames are shown at the base and every period behind it.
    Grid {
        base: i64,
        period: i64,
    },
    Wish(Wish),
    /// The session will be lost.
    Loss,
    /// The session is lost.
    Lost,
    /// Whether there is a stage.
    Stage(bool),
    /// The profile that is connected at a user path, or none.
    Profile {
        user: User,
        profile: Option<Profile>,
    },
    /// An input's value.
    Input {
        user: User,
        row: u8,
        value: i32,
    },
    /// A sample of where an origin is.
    Pose {
        origin: Origin,
        time: i64,
        pose: u64,
    },
    /// Sets a mark.
    Mark(u8),
    /// Waits for a mark.
    Await(u8),
    /// The device couldn't be read on. The session is lost.
    Fault,
    /// This line of the device's text is none. The session is lost.
    Garbled(u64),
}

/// The first time that a device can't tell, in ns.
const TIME_END: i64 = 1 << 62;

const MOST_PERIOD: i64 = 1_000_000_000;

const MOST_VALUE: i32 = 32768;

fn is_time(time: i64) -> bool
    ensures { result ≡ is_time time }
{
    0 <= time && time < TIME_END
}

/// Whether an origin has samples: grip and aim are those of the hands alone.
fn is_placed(origin: Origin) -> bool
    ensures { result ≡ is_hand origin }
{
    match origin {
        Origin::View | Origin::Local | Origin::Stage => true,
        Origin::Grip(user) | Origin::Aim(user) => matches!(user, User::Left | User::Right),
    }
}

impl DeviceEvent {
    /// Whether the event's numbers are in range, and grip and aim those of a hand.
    pub fn check(&self) -> bool
        ensures { result ≡ checks self.now }
    {
        match *self {
            DeviceEvent::Clock(time) => is_time(time),
            DeviceEvent::Grid { base, period } => is_time(base)
                && 1 <= period
                && period <= MOST_PERIOD,
            DeviceEvent::Input { row, value, .. } => 1 <= row
                && row <= MOST_ROW
                && -MOST_VALUE <= value
                && value <= MOST_VALUE,
            DeviceEvent::Pose { origin, time, pose } => is_placed(origin)
                && is_time(time)
                && 1 <= pose,
            DeviceEvent::Mark(mark) | DeviceEvent::Await(mark) => 1 <= mark && mark <= MOST_MARK,
            _ => true,
        }
    }
}
