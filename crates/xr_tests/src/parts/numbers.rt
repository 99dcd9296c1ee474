// Numbers of inputs at the ends of their ranges and on both sides of each threshold: what is stored, pressed and larger.
use std::test::Fail;
use xr_fixed::{clamp, larger, longer, pressed};
use xr_types::{MOST_ROW, input_name, is_digital, is_value};

/// Values of an input, and what is stored of them by a click or a touch, by a value, and by an axis.
const STORED: [(i32, i32, i32, i32); 7] = [
    (-32768, 0, 0, -32768),
    (-1, 0, 0, -1),
    (0, 0, 0, 0),
    (1, 1, 1, 1),
    (2, 1, 2, 2),
    (32767, 1, 32767, 32767),
    (32768, 1, 32768, 32768),
];

#[test]
fn each_row_stores_by_its_sort(rt: HostRuntime) -> Result<(), Fail> {
    for row in 1..=MOST_ROW {
        for (value, digital, upwards, axis) in STORED {
            let stored = if is_digital(row) {
                digital
            } else if is_value(row) {
                upwards
            } else {
                axis
            };
            assert!(rt; clamp(row, value) == stored, "{} {value}", input_name(row));
        }
    }
    Ok(())
}

/// Whether an input was pressed, its value, and whether it is pressed then.
const PRESSED: [(bool, i32, bool); 12] = [
    (false, -32768, false),
    (true, -32768, false),
    (false, 12287, false),
    (true, 12287, false),
    (false, 12288, false),
    (true, 12288, true),
    (false, 20479, false),
    (true, 20479, true),
    (false, 20480, true),
    (true, 20480, true),
    (false, 32768, true),
    (true, 32768, true),
];

#[test]
fn a_press_holds_between_its_thresholds(rt: HostRuntime) -> Result<(), Fail> {
    for (before, value, after) in PRESSED {
        assert!(rt; pressed(before, value) == after, "{before} {value}");
    }
    Ok(())
}

/// Two numbers, and whether the second is further from zero.
const LARGER: [(i32, i32, bool); 9] = [
    (0, 0, false),
    (0, 1, true),
    (0, -1, true),
    (-5, 5, false),
    (5, -5, false),
    (5, -6, true),
    (-6, 5, false),
    (i32::MAX, i32::MIN, true),
    (i32::MIN, i32::MAX, false),
];

#[test]
fn numbers_are_compared_by_their_size(rt: HostRuntime) -> Result<(), Fail> {
    for (a, b, is_larger) in LARGER {
        assert!(rt; larger(a, b) == is_larger, "{a} {b}");
        assert!(rt; longer((a, 0), (0, b)) == is_larger, "{a} {b}");
    }
    Ok(())
}

/// Two vectors, and whether the second is longer.
type Pair = ((i32, i32), (i32, i32), bool);

const LONGER: [Pair; 6] = [
    ((3, 4), (5, 0), false),
    ((5, 0), (-4, 3), false),
    ((3, 4), (5, 1), true),
    ((-32768, -32768), (32768, 32768), false),
    ((32768, 32767), (-32768, 32768), true),
    ((i32::MIN, i32::MAX), (i32::MIN, i32::MIN), true),
];

#[test]
fn vectors_are_compared_by_their_length(rt: HostRuntime) -> Result<(), Fail> {
    for (a, b, is_longer) in LONGER {
        assert!(rt; longer(a, b) == is_longer, "{a:?} {b:?}");
    }
    Ok(())
}
