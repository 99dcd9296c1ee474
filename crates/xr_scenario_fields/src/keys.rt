// The keys of an object.
ghost use Rattle.std.specs.Prelude.{◌≡◌, option_map};
ghost use Rattle.serde_json.specs.Find.{get};
ghost use Rattle.xr_types.specs.Field.{name_of_field};
ghost use Rattle.serde_json.specs.View.{view, members_view};
ghost use Rattle.xr_model.specs.scenario.Fields.{is_key, are_keys, only_keys};

use serde_json::{Map, Value};
use xr_types::FieldName;

fn is_key(keys: &[FieldName], key: &str) -> bool
    ensures { result ≡ is_key keys.now key.now }
{
    for known in keys {
        if known.name() == key {
            return true;
        }
    }
    false
}

fn are_keys(keys: &[FieldName], members: &Map<String, Value>) -> bool
    ensures { result ≡ are_keys keys.now (members_view members.now.entries) }
{
    for (key, _) in members {
        if !is_key(keys, key.as_str()) {
            return false;
        }
    }
    true
}

/// Whether a value is an object with no other key than these.
pub fn only_keys(keys: &[FieldName], value: &Value) -> bool
    ensures { result ≡ only_keys keys.now (view value.now) }
{
    match value.as_object() {
        Some(members) => are_keys(keys, members),
        None => false,
    }
}

/// The value under a key that mostly is the last of its object, so that the last member is looked at first.
#[inline(always)]
pub fn last_value(value: &Value, key: FieldName) -> Option<&Value>
    ensures { option_map (λ found. view found.now) result ≡ get (name_of_field key) (view value.now) }
{
    let members = value.as_object()?;
    match members.last_key_value() {
        Some((last, found)) if last.as_str() == key.name() => Some(found),
        _ => value.get(key.name()),
    }
}

/// The value under a key that mostly is the first of its object, so that the first member is looked at first.
#[inline(always)]
pub(crate) fn first_value(value: &Value, key: FieldName) -> Option<&Value>
    ensures { option_map (λ found. view found.now) result ≡ get (name_of_field key) (view value.now) }
{
    let members = value.as_object()?;
    match members.first_key_value() {
        Some((first, found)) if first.as_str() == key.name() => Some(found),
        _ => value.get(key.name()),
    }
}
