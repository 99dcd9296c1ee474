// Fields that are names of earlier ops, or numbers.
ghost use Rattle.std.specs.Prelude.{◌≡◌, IfOk, IfSome, pos, IfErr};
ghost use Rattle.serde_json.specs.View.{view};
ghost use Rattle.xr_scenario_fields.specs.Reads.{IsWrong, Reads};
ghost use Rattle.xr_model.specs.scenario.Fields.{field, optional, use_in, handle_in, atom_in, system_in, time_in, value_in};
ghost use Rattle.xr_model.specs.scenario.InRange.{IsUse, IsHandle, IsAtom, IsSystem, IsTime, IsValue};
ghost use Rattle.xr_model.specs.scenario.ScriptForm.{IsKnownPlace};
ghost use Rattle.xr_types.specs.declared.scenario.Use.TheVariants.{Number};

use crate::fault::{Fault, at, found};
use crate::keys::last_value;
use crate::named_ops::{NamedOps, known_place};
use crate::numbers::integer_in;
use serde_json::Value;
use xr_types::{FieldName, MOST_HANDLE_MARK, Sort, Use};

/// A name of a sort, or else a whole number of a range.
fn use_in(named_ops: &NamedOps<'_>, value: &Value, sort: Sort, least: i64, most: i64) -> Option<Use>
    ensures found { result ≡ use_in sort least most named_ops.now (view value.now) }
    ensures formed { IfSome result (λ u. IsUse (IsKnownPlace named_ops.now) sort least most u) }
{
    match value.as_str() {
        Some(name) => {
            let place = known_place(named_ops, name, sort)?;
            Some(Use::Of(place))
        }
        None => {
            let number = integer_in(value, least, most)?;
            Some(Use::Number(number))
        }
    }
}

pub(crate) fn handle_in(named_ops: &NamedOps<'_>, value: &Value) -> Option<Use>
    ensures found { result ≡ handle_in named_ops.now (view value.now) }
    ensures formed { IfSome result (λ u. IsHandle (IsKnownPlace named_ops.now) u) }
{
    use_in(named_ops, value, Sort::Handle, 0, 0)
}

pub(crate) fn atom_in(named_ops: &NamedOps<'_>, value: &Value) -> Option<Use>
    ensures found { result ≡ atom_in named_ops.now (view value.now) }
    ensures formed { IfSome result (λ u. IsAtom (IsKnownPlace named_ops.now) u) }
{
    use_in(named_ops, value, Sort::Atom, 0, i64::MAX)
}

/// A handle: a name of an op that gives one, or the number 0.
pub fn handle(named_ops: &NamedOps<'_>, value: &Value, key: FieldName) -> Result<Use, Fault>
    ensures reads { Reads result (field (handle_in named_ops.now) key (view value.now)) }
    ensures formed { IfOk result (λ u. IsHandle (IsKnownPlace named_ops.now) u) }
    ensures only_wrong { IfErr result IsWrong }
{
    let found = found(value, key)?;
    at(key, handle_in(named_ops, found))
}

/// An atom: a name of an op that gives one, or a number below 2^63.
pub fn atom(named_ops: &NamedOps<'_>, value: &Value, key: FieldName) -> Result<Use, Fault>
    ensures reads { Reads result (field (atom_in named_ops.now) key (view value.now)) }
    ensures formed { IfOk result (λ u. IsAtom (IsKnownPlace named_ops.now) u) }
    ensures only_wrong { IfErr result IsWrong }
{
    let found = found(value, key)?;
    at(key, atom_in(named_ops, found))
}

/// A system: a name of an op that gives a number, or a number below 2^63.
pub fn system(named_ops: &NamedOps<'_>, value: &Value, key: FieldName) -> Result<Use, Fault>
    ensures reads { Reads result (field (system_in named_ops.now) key (view value.now)) }
    ensures formed { IfOk result (λ u. IsSystem (IsKnownPlace named_ops.now) u) }
    ensures only_wrong { IfErr result IsWrong }
{
    let found = found(value, key)?;
    at(key, use_in(named_ops, found, Sort::Number, 0, i64::MAX))
}

/// A time: a name of an op that gives a number, or a number of 64 bits.
pub fn time(named_ops: &NamedOps<'_>, value: &Value, key: FieldName) -> Result<Use, Fault>
    ensures reads { Reads result (field (time_in named_ops.now) key (view value.now)) }
    ensures formed { IfOk result (λ u. IsTime (IsKnownPlace named_ops.now) u) }
    ensures only_wrong { IfErr result IsWrong }
{
    let found = found(value, key)?;
    at(
        key,
        use_in(named_ops, found, Sort::Number, i64::MIN, i64::MAX),
    )
}

/// The value of a mark, a handle for marks 1 to 32 and an atom for the others. Where it is missing, it
/// is the number 0.
pub fn mark_value(
    named_ops: &NamedOps<'_>,
    value: &Value,
    key: FieldName,
    mark: u8,
) -> Result<Use, Fault>
    ensures reads { Reads result (optional (value_in named_ops.now mark) (Number (pos 0)) key
        (view value.now)) }
    ensures formed { IfOk result (λ u. IsValue (IsKnownPlace named_ops.now) mark u) }
    ensures only_wrong { IfErr result IsWrong }
{
    let Some(found) = last_value(value, key) else {
        return Ok(Use::Number(0));
    };
    if mark <= MOST_HANDLE_MARK {
        at(key, handle_in(named_ops, found))
    } else {
        at(key, atom_in(named_ops, found))
    }
}
