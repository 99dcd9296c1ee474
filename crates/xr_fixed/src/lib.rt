//! Numbers of inputs: what is stored of one, when an analogue one counts as pressed, and which of two is larger (OpenXR 1.0
//! chapter 11, xrSyncActions). It knows rows and numbers, and no controller, binding or action.
#![tactic(auto)]

ghost use Rattle.std.specs.Prelude.{◌≡◌, ◌≤◌, ◌*◌, ◌^◌, unsigned_abs};
ghost use Rattle.xr_types.specs.declared.limits.TheConstants.{MOST_ROW};
ghost use Rattle.xr_types.specs.InputValues.{clamped, pressed_by, is_larger, is_longer};

use xr_types::{is_digital, is_value};

/// The least value from which an analogue input counts as pressed.
const PRESSED: i32 = 20_480;

/// The least value at which a pressed one still counts as pressed.
const HELD: i32 = 12_288;

/// What is stored of an input's value: a click or a touch is 1 where the value is at least 1, and else 0; a value isn't below 0; an
/// axis is as it is. Rows are 1 to 40.
pub fn clamp(row: u8, value: i32) -> i32
    requires first { 1 ≤ row }
    requires last { row ≤ MOST_ROW }
    ensures { result ≡ clamped row value }
{
    if is_digital(row) {
        return if value >= 1 { 1 } else { 0 };
    }
    if is_value(row) {
        return if value >= 0 { value } else { 0 };
    }
    value
}

/// Whether an analogue input counts as pressed: from 20480 upwards, not below 12288, and between these as before.
pub fn pressed(before: bool, value: i32) -> bool
    ensures { result ≡ pressed_by before value }
{
    if value >= PRESSED {
        return true;
    }
    if value < HELD { false } else { before }
}

/// Whether b is further from zero.
pub fn larger(a: i32, b: i32) -> bool
    ensures { result ≡ is_larger a b }
{
    a.unsigned_abs() < b.unsigned_abs()
}

/// The square of a number.
fn square(x: i32) -> u64
    ensures value { result ≡ unsigned_abs x * unsigned_abs x }
    ensures bound { result ≤ 2 ^ 62 }
{
    let size = u64::from(x.unsigned_abs());
    size * size
}

/// Whether b is longer, both being vectors: the squares of their lengths are compared, which fit for every number.
pub fn longer(a: (i32, i32), b: (i32, i32)) -> bool
    ensures { result ≡ is_longer a b }
{
    square(a.0) + square(a.1) < square(b.0) + square(b.1)
}
