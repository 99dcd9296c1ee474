// What the controllers of the profiles have at each user path (OpenXR 1.0 section 6.4): their rows and their outputs,
// and all identifiers.
ghost use Rattle.std.specs.Prelude.{◌≡◌, ◌<◌, length, map, IfSome};
ghost use Rattle.std.specs.List.{position};
ghost use Rattle.std.specs.Str.{bytes_eq};
ghost use Rattle.xr_model.specs.machine.Profiles.{entry_name, rows_at, outputs_at, identifier_place, is_input, is_pose};

use xr_types::{MOST_ROW, Profile, User, input_name};

/// The row of `grip/pose`. The rows of inputs are 1 to 40, by the names that `input_name` gives.
const GRIP: u8 = 41;

/// The row of `aim/pose`.
const AIM: u8 = 42;

/// `select/click`, `menu/click`; and the poses.
const SIMPLE: [u8; 4] = [1, 2, GRIP, AIM];

/// `x/click`, `x/touch`, `y/click`, `y/touch`, `menu/click`; what both hands have: `squeeze/value`, `trigger/value`,
/// `trigger/touch`, `thumbstick/x`, `thumbstick/y`, `thumbstick/click`, `thumbstick/touch`, `thumbrest/touch`; and the
/// poses.
const TOUCH_LEFT: [u8; 15] = [9, 10, 11, 12, 2, 14, 16, 17, 18, 19, 20, 21, 22, GRIP, AIM];

/// `a/click`, `a/touch`, `b/click`, `b/touch`, `system/click`; what both hands have; and the poses.
const TOUCH_RIGHT: [u8; 15] = [5, 6, 7, 8, 3, 14, 16, 17, 18, 19, 20, 21, 22, GRIP, AIM];

/// `system/click`, `squeeze/click`, `menu/click`, `trigger/click`, `trigger/value`, `trackpad/x`, `trackpad/y`,
/// `trackpad/click`, `trackpad/touch`; and the poses.
const VIVE: [u8; 11] = [3, 13, 2, 15, 16, 23, 24, 25, 26, GRIP, AIM];

/// The clicks of `menu`, `view`, `a`, `b`, `x`, `y`, the four of the pad, the shoulders and the thumbsticks; the values
/// of the triggers; and `thumbstick_left/x`, `thumbstick_left/y`, `thumbstick_right/x`, `thumbstick_right/y`.
const XBOX: [u8; 20] = [
    2, 4, 5, 7, 9, 11, 27, 28, 29, 30, 31, 32, 35, 38, 39, 40, 33, 34, 36, 37,
];

/// The output of a controller that is held in a hand.
const IN_HAND: [&str; 1] = ["haptic"];

/// The outputs of a gamepad.
const OF_GAMEPAD: [&str; 4] = [
    "haptic_left",
    "haptic_right",
    "haptic_left_trigger",
    "haptic_right_trigger",
];

/// All identifiers and outputs, each by its place.
const IDENTIFIERS: [&str; 30] = [
    "select",
    "menu",
    "grip",
    "aim",
    "haptic",
    "x",
    "y",
    "a",
    "b",
    "system",
    "squeeze",
    "trigger",
    "thumbstick",
    "thumbrest",
    "trackpad",
    "view",
    "dpad_up",
    "dpad_down",
    "dpad_left",
    "dpad_right",
    "shoulder_left",
    "shoulder_right",
    "thumbstick_left",
    "thumbstick_right",
    "trigger_left",
    "trigger_right",
    "haptic_left",
    "haptic_right",
    "haptic_left_trigger",
    "haptic_right_trigger",
];

/// What a path has behind `/input/` for a row: an identifier, `/` and a component.
pub(crate) fn entry_name(row: u8) -> &'static str
    ensures { result.now ≡ entry_name row }
{
    match row {
        GRIP => "grip/pose",
        AIM => "aim/pose",
        _ => input_name(row),
    }
}

/// Whether a row is that of an input.
pub(crate) fn is_input(row: u8) -> bool
    ensures { result ≡ is_input row }
{
    row <= MOST_ROW
}

/// Whether a row is that of a pose.
pub(crate) fn is_pose(row: u8) -> bool
    ensures { result ≡ is_pose row }
{
    row == GRIP || row == AIM
}

/// The rows that a profile has at a user path, in the order of the standard's lists.
pub(crate) fn rows_at(profile: Profile, user: User) -> &'static [u8]
    ensures { result.now ≡ rows_at profile user }
{
    match (profile, user) {
        (Profile::Simple, User::Left | User::Right) => &SIMPLE,
        (Profile::Touch, User::Left) => &TOUCH_LEFT,
        (Profile::Touch, User::Right) => &TOUCH_RIGHT,
        (Profile::Vive, User::Left | User::Right) => &VIVE,
        (Profile::Xbox, User::Gamepad) => &XBOX,
        _ => &[],
    }
}

/// The outputs that a profile has at a user path.
pub(crate) fn outputs_at(profile: Profile, user: User) -> &'static [&'static str]
    ensures { map (λ n. n.now) result.now ≡ outputs_at profile user }
{
    match (profile, user) {
        (Profile::Xbox, User::Gamepad) => &OF_GAMEPAD,
        (Profile::Xbox, _) => &[],
        (_, User::Left | User::Right) => &IN_HAND,
        _ => &[],
    }
}

/// The place of a name among these.
fn place_among(names: &[&str], name: &[u8]) -> Option<usize>
    ensures place { result ≡ position (λ n. bytes_eq name.now n.now) names.now }
    ensures within { IfSome result (λ k. k < length names.now) }
{
    names.iter().position(|known| name == known.as_bytes())
}

/// The place of an identifier or an output among all, from 0 to 29.
pub(crate) fn identifier_place(name: &[u8]) -> Option<u8>
    ensures { result ≡ identifier_place name.now }
{
    let place = place_among(&IDENTIFIERS, name)?;
    Some(place as u8)
}
