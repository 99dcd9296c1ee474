// What the device has told of itself.
ghost use Rattle.std.specs.Prelude.{◌≡◌, ◌≤◌, ◌≤ℤ◌, pos, true, slice_set};
ghost use Rattle.xr_model.specs.machine.Device.{first_device};
ghost use Rattle.xr_model.specs.machine.Inputs.{with_value, without_values};
ghost use Rattle.xr_model.specs.machine.Rules.Device.{later_of};
ghost use Rattle.xr_types.specs.declared.limits.TheConstants.{MOST_ROW};
ghost use Rattle.xr_types.specs.Device.{is_time};
ghost use Rattle.xr_types.specs.Users.{user_place};

use std::marker::Model;
use xr_fixed::{clamp, pressed};
use xr_types::{Inputs, Profile, ROWS, USERS, User, Wish, is_digital, user_place};

/// The period of frames until the device tells another, in ns.
const FIRST_PERIOD: i64 = 11_111_111;

/// Every input is 0, and none is pressed.
const NO_INPUTS: Inputs = Inputs {
    values: [[0; ROWS]; USERS],
    pressed: [[false; ROWS]; USERS],
};

/// The device's clock, the base and the period of frames, all in ns of device time, the state that it wishes sessions to
/// be in, whether it has a stage, the profile that is connected at each user path, and what its inputs show.
#[derive(Drop)]
pub(crate) struct DeviceValues {
    clock: i64,
    base: i64,
    period: i64,
    wish: Wish,
    stage: bool,
    profiles: [Option<Profile>; USERS],
    inputs: Inputs,
}

impl Model for DeviceValues {
    ghost use Rattle.std.specs.Prelude.{◌≡◌, ◌≤ℤ◌, pos, true};
    ghost use Rattle.xr_types.specs.Device.{is_time};
    ghost use Rattle.xr_model.specs.machine.Device.{Device};

    ghost Value = { Device };

    ghost invariant = { λ d. (pos 0 ≤ℤ d.clock) × (is_time d.clock ≡ true) × (pos 1 ≤ℤ d.period) };

    ghost view = { λ d. record { clock = d.clock; base = d.base; period = d.period; wish = d.wish; stage = d.stage; profiles = d.profiles; inputs = d.inputs } };
}

impl DeviceValues {
    /// What holds before the device tells anything.
    pub(crate) fn start() -> DeviceValues
        ensures { result ≡ first_device }
    {
        DeviceValues {
            clock: 0,
            base: 0,
            period: FIRST_PERIOD,
            wish: Wish::Rest,
            stage: false,
            profiles: [None; USERS],
            inputs: NO_INPUTS,
        }
    }

    /// The clock, 0 to 2^62 - 1.
    pub(crate) fn clock(&self) -> i64
        ensures clock { result ≡ self.now.clock }
        ensures begun { pos 0 ≤ℤ result }
        ensures time { is_time result ≡ true }
    {
        self.clock
    }

    pub(crate) fn base(&self) -> i64
        ensures { result ≡ self.now.base }
    {
        self.base
    }

    /// The period of frames, at least 1.
    pub(crate) fn period(&self) -> i64
        ensures period { result ≡ self.now.period }
        ensures some { pos 1 ≤ℤ result }
    {
        self.period
    }

    pub(crate) fn wish(&self) -> Wish
        ensures { result ≡ self.now.wish }
    {
        self.wish
    }

    pub(crate) fn has_stage(&self) -> bool
        ensures { result ≡ self.now.stage }
    {
        self.stage
    }

    /// The profile that is connected at each user path, at its `user_place`.
    pub(crate) fn profiles(&self) -> &[Option<Profile>; USERS]
        ensures { result.now ≡ self.now.profiles }
    {
        &self.profiles
    }

    /// What its inputs show.
    pub(crate) fn inputs(&self) -> &Inputs
        ensures { result.now ≡ self.now.inputs }
    {
        &self.inputs
    }

    /// The clock goes on to a time, 0 to 2^62 - 1, and never back.
    pub(crate) fn advance(&mut self, time: i64)
        requires { is_time time ≡ true }
        ensures { self.new ≡ record self.old { clock = later_of self.old.clock time } }
    {
        if self.clock <= time {
            self.clock = time;
        }
    }

    pub(crate) fn set_grid(&mut self, base: i64, period: i64)
        requires { pos 1 ≤ℤ period }
        ensures { self.new ≡ record self.old { base = base; period = period } }
    {
        self.base = base;
        self.period = period;
    }

    pub(crate) fn set_wish(&mut self, wish: Wish)
        ensures { self.new ≡ record self.old { wish = wish } }
    {
        self.wish = wish;
    }

    pub(crate) fn set_stage(&mut self, stage: bool)
        ensures { self.new ≡ record self.old { stage = stage } }
    {
        self.stage = stage;
    }

    /// A profile is connected at a user path, or none: its inputs are 0 from then on.
    pub(crate) fn connect(&mut self, user: User, profile: Option<Profile>)
        ensures { self.new ≡ record self.old { profiles = slice_set self.old.profiles (user_place user) profile; inputs = without_values self.old.inputs user } }
    {
        let place = user_place(user);
        self.profiles[place] = profile;
        self.inputs.values[place] = [0; ROWS];
        self.inputs.pressed[place] = [false; ROWS];
    }

    /// An input shows this value, from -32768 to 32768. Rows are 1 to 40.
    pub(crate) fn set_input(&mut self, user: User, row: u8, value: i32)
        requires first { 1 ≤ row }
        requires last { row ≤ MOST_ROW }
        ensures { self.new ≡ record self.old { inputs = with_value self.old.inputs user row value } }
    {
        let user = user_place(user);
        let place = row as usize - 1;
        let stored = clamp(row, value);
        self.inputs.values[user][place] = stored;
        if !is_digital(row) {
            let before = self.inputs.pressed[user][place];
            self.inputs.pressed[user][place] = pressed(before, stored);
        }
    }
}
