// Why an op, or a part of it, isn't read.
ghost use Rattle.xr_scenario_fields.specs.Reads.{IsWrong, Reads};
ghost use Rattle.xr_model.specs.scenario.Fields.{at};
ghost use Rattle.std.specs.Prelude.{◌≡◌, Some, None, IfOk, IfErr};
ghost use Rattle.serde_json.specs.View.{view};
ghost use Rattle.serde_json.specs.Find.{get};
ghost use Rattle.xr_types.specs.Field.{name_of_field};
ghost use Rattle.xr_types.specs.declared.status.What.TheVariants.{Field};
ghost use Rattle.xr_scenario_fields.specs.declared.fault.Fault.TheVariants.{Wrong};

use serde_json::Value;
use xr_types::{FieldName, What};

/// Why a part of a text isn't read: this of it is wrong, or memory was short.
#[derive(Clone, Copy, Debug)]
pub enum Fault {
    Wrong(What),
    NoMemory,
}

/// The value of a field, or that field is wrong.
pub(crate) fn at<T: Drop>(key: FieldName, found: Option<T>) -> Result<T, Fault>
    ensures reads { Reads result (at key found) }
    ensures same { IfOk result (λ x. found ≡ Some x) }
    ensures only_wrong { IfErr result IsWrong }
{
    match found {
        Some(value) => Ok(value),
        None => Err(Fault::Wrong(What::Field(key))),
    }
}

/// The value under a key, or that field is wrong.
pub(crate) fn found(value: &Value, key: FieldName) -> Result<&Value, Fault>
    ensures found { IfOk result (λ field. get (name_of_field key) (view value.now) ≡ Some (view field.now)) }
    ensures missing { IfErr result (λ fault. (get (name_of_field key) (view value.now) ≡ None) × (fault ≡ Wrong (Field key))) }
{
    let Some(field) = value.get(key.name()) else {
        return Err(Fault::Wrong(What::Field(key)));
    };
    Ok(field)
}
