// The inputs of controllers by their names, in the order of their rows (OpenXR 1.0 section 6.3).
ghost use Rattle.std.specs.Prelude.{◌≡◌, ◌≤◌, map, length};
ghost use Rattle.xr_types.specs.InputNames.{input_name, row_from, row_of, is_digital, is_value};

use crate::MOST_ROW;

/// The inputs of rows 1 to 40.
const INPUT_NAMES: [&str; 40] = [
    "select/click",
    "menu/click",
    "system/click",
    "view/click",
    "a/click",
    "a/touch",
    "b/click",
    "b/touch",
    "x/click",
    "x/touch",
    "y/click",
    "y/touch",
    "squeeze/click",
    "squeeze/value",
    "trigger/click",
    "trigger/value",
    "trigger/touch",
    "thumbstick/x",
    "thumbstick/y",
    "thumbstick/click",
    "thumbstick/touch",
    "thumbrest/touch",
    "trackpad/x",
    "trackpad/y",
    "trackpad/click",
    "trackpad/touch",
    "dpad_up/click",
    "dpad_down/click",
    "dpad_left/click",
    "dpad_right/click",
    "shoulder_left/click",
    "shoulder_right/click",
    "thumbstick_left/x",
    "thumbstick_left/y",
    "thumbstick_left/click",
    "thumbstick_right/x",
    "thumbstick_right/y",
    "thumbstick_right/click",
    "trigger_left/value",
    "trigger_right/value",
];

/// The name of the input of a row, its identifier and its component. Rows are 1 to 40; another has no name.
pub fn input_name(row: u8) -> &'static str
    ensures { result.now ≡ input_name row }
{
    if 1 <= row && row <= MOST_ROW {
        INPUT_NAMES[usize::from(row) - 1]
    } else {
        ""
    }
}

/// The rows of clicks and touches.
const DIGITAL: [u8; 28] = [
    1, 2, 3, 4, 5, 6, 7, 8, 9, 10, 11, 12, 13, 15, 17, 20, 21, 22, 25, 26, 27, 28, 29, 30, 31, 32,
    35, 38,
];

/// The rows of values.
const VALUES: [u8; 4] = [14, 16, 39, 40];

/// Whether a row is that of a click or a touch.
#[tactic(auto, using(crate::proofs::RowSorts::digital_rows))]
pub fn is_digital(row: u8) -> bool
    ensures { result ≡ is_digital row }
{
    DIGITAL.contains(&row)
}

/// Whether a row is that of a value, which goes from 0 up.
#[tactic(auto, using(crate::proofs::RowSorts::value_rows))]
pub fn is_value(row: u8) -> bool
    ensures { result ≡ is_value row }
{
    VALUES.contains(&row)
}

/// The row of a name among these, which begin with row 1.
fn row_among(names: &[&str], name: &[u8]) -> Option<u8>
    requires { length names.now ≤ MOST_ROW }
    ensures { result ≡ row_from 1 (map (λ n. n.now) names.now) name.now }
{
    let mut row = 0;
    for known in names {
        row += 1;
        if name == known.as_bytes() {
            return Some(row);
        }
    }
    None
}

/// The row of the input of a name, where there is one.
pub fn row_of(name: &[u8]) -> Option<u8>
    ensures { result ≡ row_of name.now }
{
    row_among(&INPUT_NAMES, name)
}
