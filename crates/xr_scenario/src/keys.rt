// The keys of an op's object. Where an op is read, its reader found the keys that each op of its row has, so the count of the
// members tells whether there is another: only then is any key compared.
ghost use Rattle.std.specs.Prelude.{◌≡◌};
ghost use Rattle.serde_json.specs.View.{view};
ghost use Rattle.xr_model.specs.scenario.Fields.{only_keys};
ghost use Rattle.xr_model.specs.scenario.OpReading.{keys_of};
ghost use Rattle.xr_scenario.specs.inside.Keys.{needed, HasAll, has_last, is_full};

use crate::row_keys::keys_of;
use serde_json::Value;
use xr_scenario_fields::{last_value, only_keys};
use xr_types::{CallName, FieldName};

/// Whether the last key of a row is there, if an op may lack it.
#[tactic(auto, using(crate::proofs::FullRows::last_key))]
fn has_last(keys: &[FieldName], value: &Value) -> bool
    ensures { result ≡ has_last keys.now (view value.now) }
{
    match keys.last() {
        Some(FieldName::As) => value.get(FieldName::As.name()).is_some(),
        Some(FieldName::Value) => last_value(value, FieldName::Value).is_some(),
        _ => true,
    }
}

/// Whether an object has fewer members than there are keys, or as many and the last key.
#[tactic(auto, using(crate::proofs::FullRows::members_counted))]
fn is_full(keys: &[FieldName], value: &Value) -> bool
    ensures { result ≡ is_full keys.now (view value.now) }
{
    match value.as_object() {
        Some(members) => {
            let count = members.len();
            count < keys.len() || (count == keys.len() && has_last(keys, value))
        }
        None => false,
    }
}

/// Whether an object has no other key than those of a row, if it has those that each op of the row needs.
#[tactic(auto, using(crate::proofs::FullRows::full_row))]
pub(crate) fn only_its_keys(row: CallName, version: u8, value: &Value) -> bool
    ensures { HasAll (needed (keys_of version row)) (view value.now) → result ≡ only_keys (keys_of version row) (view value.now) }
{
    let keys = keys_of(row, version);
    is_full(keys, value) || only_keys(keys, value)
}
