// The name that an op gives.
ghost use Rattle.std.specs.Prelude.{◌≡◌, IfErr};
ghost use Rattle.std.specs.List.{list_all};
ghost use Rattle.serde_json.specs.View.{view};
ghost use Rattle.xr_scenario_fields.specs.Reads.{IsWrong, ReadsName};
ghost use Rattle.xr_model.specs.scenario.Fields.{is_name_byte, is_name, name_at};

use crate::fault::Fault;
use serde_json::Value;
use xr_types::{FieldName, MOST_GIVEN, What};

fn is_name_byte(byte: u8) -> bool
    ensures { result ≡ is_name_byte byte }
{
    matches!(byte, b'a'..=b'z' | b'0'..=b'9' | b'_')
}

fn are_name_bytes(text: &[u8]) -> bool
    ensures { result ≡ list_all is_name_byte text.now }
{
    for byte in text {
        if !is_name_byte(*byte) {
            return false;
        }
    }
    true
}

fn is_name(text: &str) -> bool
    ensures { result ≡ is_name text.now }
{
    !text.is_empty() && text.len() <= MOST_GIVEN && are_name_bytes(text.as_bytes())
}

/// The name that an op gives under `as`, if it gives one: 1 to 32 small letters, digits and `_`.
pub fn name(value: &Value) -> Result<Option<&str>, Fault>
    ensures reads { ReadsName result (name_at (view value.now)) }
    ensures only_wrong { IfErr result IsWrong }
{
    let Some(found) = value.get(FieldName::As.name()) else {
        return Ok(None);
    };
    let Some(text) = found.as_str() else {
        return Err(Fault::Wrong(What::Field(FieldName::As)));
    };
    if is_name(text) {
        Ok(Some(text))
    } else {
        Err(Fault::Wrong(What::Field(FieldName::As)))
    }
}
