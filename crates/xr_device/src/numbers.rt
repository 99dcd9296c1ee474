// Decimal numbers: digits without a leading zero, and `-` before a number below 0.
ghost use Rattle.std.specs.Prelude.{◌≡◌, ◌≤◌, ◌≤ℤ◌, ◌-◌, ◌^◌, pos, negsuc, IfSome, option_map, option_and_then};
ghost use Rattle.xr_model.specs.device_text.DeviceText.{number_of, digits_behind, below_0, integer_of};
ghost use Rattle.xr_device.specs.inside.Said.{up_to, ranged, whole};

/// The greatest number that is read, 2^63 - 1.
pub(crate) const GREATEST: u64 = (1 << 63) - 1;

/// A tenth of 2^63 - 1. A number past it is past 2^63 - 1 with one more digit, or at most two more than it.
const TENTH: u64 = 922_337_203_685_477_580;

/// The number of these digits, where it isn't past the most that it may be.
fn digits(word: &[u8], most: u64) -> Option<u64>
    requires { most ≤ GREATEST }
    ensures { result ≡ up_to most (digits_behind 0 word.now) }
{
    let mut number = 0;
    for b in word {
        if *b < b'0' || b'9' < *b {
            return None;
        }
        if number > TENTH {
            return None;
        }
        number = number * 10 + u64::from(*b - b'0');
    }
    if number > most {
        return None;
    }
    Some(number)
}

/// The number that a word is, where it isn't past the most that it may be.
fn number(word: &[u8], most: u64) -> Option<u64>
    requires { most ≤ GREATEST }
    ensures { result ≡ up_to most (number_of word.now) }
{
    if word.is_empty() {
        return None;
    }
    if word.len() > 1 && word[0] == b'0' {
        return None;
    }
    digits(word, most)
}

/// The number that a word is, where it is in a range.
pub(crate) fn number_in(word: &[u8], least: u64, most: u64) -> Option<u64>
    requires { most ≤ GREATEST }
    ensures value { result ≡ ranged least most (number_of word.now) }
    ensures within { IfSome result (λ n. n ≤ most) }
{
    match number(word, most) {
        Some(n) if least <= n => Some(n),
        _ => None,
    }
}

/// The number below 0 of these digits behind its sign, where it is in a range.
fn below_0_in(digits: &[u8], least: i64, most: i64) -> Option<i64>
    requires { negsuc (2 ^ 63 - 2) ≤ℤ least }
    ensures { result ≡ whole least most (option_and_then below_0 (number_of digits.now)) }
{
    let number = number_in(digits, 1, GREATEST)?;
    let number = -(number as i64);
    if least <= number && number <= most {
        Some(number)
    } else {
        None
    }
}

/// The number of these digits, where it is in a range.
fn from_0_in(digits: &[u8], least: i64, most: i64) -> Option<i64>
    ensures { result ≡ whole least most (option_map pos (number_of digits.now)) }
{
    let number = number(digits, GREATEST)? as i64;
    if least <= number && number <= most {
        Some(number)
    } else {
        None
    }
}

/// The whole number that a word is, where it is in a range of numbers from -(2^63 - 1) to 2^63 - 1.
pub(crate) fn integer_in(word: &[u8], least: i64, most: i64) -> Option<i64>
    requires { negsuc (2 ^ 63 - 2) ≤ℤ least }
    ensures { result ≡ whole least most (integer_of word.now) }
{
    if !word.is_empty() && word[0] == b'-' {
        below_0_in(&word[1..], least, most)
    } else {
        from_0_in(word, least, most)
    }
}
