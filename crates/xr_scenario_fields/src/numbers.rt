// Fields that are numbers or truths.
ghost use Rattle.std.specs.Prelude.{◌≡◌, ◌≤◌, ◌≤ℤ◌, IfOk, IfSome, IfErr};
ghost use Rattle.serde_json.specs.View.{view};
ghost use Rattle.serde_json.specs.Find.{as_bool};
ghost use Rattle.xr_scenario_fields.specs.Reads.{IsWrong, Reads};
ghost use Rattle.xr_model.specs.scenario.Fields.{field, most_u32, number_in, integer_in, mark_in, timeout_in};
ghost use Rattle.xr_model.specs.scenario.InRange.{IsMark, IsTimeout};

use crate::fault::{Fault, at, found};
use crate::keys::first_value;
use serde_json::Value;
use xr_types::{FieldName, MOST_MARK};

/// The greatest number of a field, 2^63 - 1.
pub const MOST: u64 = (1 << 63) - 1;

const MOST_SMALL: u64 = (1 << 32) - 1;

pub(crate) fn number_in(value: &Value, most: u64) -> Option<u64>
    ensures number { result ≡ number_in most (view value.now) }
    ensures within { IfSome result (λ n. n ≤ most) }
{
    let number = value.as_u64()?;
    if number <= most { Some(number) } else { None }
}

/// A whole number up to a greatest one.
pub fn number(value: &Value, key: FieldName, most: u64) -> Result<u64, Fault>
    ensures reads { Reads result (field (number_in most) key (view value.now)) }
    ensures formed { IfOk result (λ n. n ≤ most) }
    ensures only_wrong { IfErr result IsWrong }
{
    let found = found(value, key)?;
    at(key, number_in(found, most))
}

/// A whole number below 2^32.
pub fn small(value: &Value, key: FieldName) -> Result<u32, Fault>
    ensures reads { Reads result (field (number_in most_u32) key (view value.now)) }
    ensures formed { IfOk result (λ n. n ≤ most_u32) }
    ensures only_wrong { IfErr result IsWrong }
{
    let found = found(value, key)?;
    match number_in(found, MOST_SMALL) {
        Some(number) => Ok(number as u32),
        None => at(key, None),
    }
}

fn mark_in(value: &Value) -> Option<u8>
    ensures mark { result ≡ mark_in (view value.now) }
    ensures within { IfSome result IsMark }
{
    let number = value.as_u64()?;
    if 1 <= number && number <= u64::from(MOST_MARK) {
        Some(number as u8)
    } else {
        None
    }
}

/// A mark's number, 1 to 64.
pub fn mark_number(value: &Value, key: FieldName) -> Result<u8, Fault>
    ensures reads { Reads result (field mark_in key (view value.now)) }
    ensures formed { IfOk result IsMark }
    ensures only_wrong { IfErr result IsWrong }
{
    let Some(found) = first_value(value, key) else {
        return at(key, None);
    };
    at(key, mark_in(found))
}

pub(crate) fn integer_in(value: &Value, least: i64, most: i64) -> Option<i64>
    ensures number { result ≡ integer_in least most (view value.now) }
    ensures within { IfSome result (λ n. (least ≤ℤ n) × (n ≤ℤ most)) }
{
    let number = value.as_i64()?;
    if least <= number && number <= most {
        Some(number)
    } else {
        None
    }
}

fn timeout_in(value: &Value) -> Option<i64>
    ensures timeout { result ≡ timeout_in (view value.now) }
    ensures within { IfSome result IsTimeout }
{
    match value.as_str() {
        Some("inf") => Some(i64::MAX),
        Some(_) => None,
        None => integer_in(value, 0, i64::MAX),
    }
}

/// A timeout in ns: a whole number below 2^63, or `inf` for the greatest.
pub fn timeout(value: &Value, key: FieldName) -> Result<i64, Fault>
    ensures reads { Reads result (field timeout_in key (view value.now)) }
    ensures formed { IfOk result IsTimeout }
    ensures only_wrong { IfErr result IsWrong }
{
    let found = found(value, key)?;
    at(key, timeout_in(found))
}

/// Whether a field is true.
pub fn truth(value: &Value, key: FieldName) -> Result<bool, Fault>
    ensures reads { Reads result (field as_bool key (view value.now)) }
    ensures only_wrong { IfErr result IsWrong }
{
    let found = found(value, key)?;
    at(key, found.as_bool())
}
