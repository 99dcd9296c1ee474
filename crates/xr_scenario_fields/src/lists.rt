// Fields that are lists.
ghost use Rattle.std.specs.Prelude.{◌≡◌, length, map, option_map, IfOk, IfSome, Option, List};
ghost use Rattle.serde_json.specs.Data.{Data};
ghost use Rattle.serde_json.specs.View.{view, items_view};
ghost use Rattle.xr_scenario_fields.specs.Reads.{Reads};
ghost use Rattle.xr_model.specs.scenario.Fields.{field};
ghost use Rattle.xr_model.specs.scenario.InRange.{Each, AreAtMost};
ghost use Rattle.xr_model.specs.scenario.Names.{NamedOp};
ghost use Rattle.xr_model.specs.scenario.ListItems.{all_of, list_in};

use crate::fault::{Fault, at, found};
use crate::named_ops::NamedOps;
use serde_json::Value;
use std::alloc::{AllocError, Global};
use xr_types::{FieldName, Several};

/// What a list of an op may hold: how an item is read behind ops that gave these names, and when it is
/// in form.
pub trait ListItem {
    ghost part: { List NamedOp → Data → Option Self };

    ghost formed: { List NamedOp → Self → Type 0 };

    /// The item of a value, if it is one.
    fn read(
        alloc: Global,
        named_ops: &NamedOps<'_>,
        value: &Value,
    ) -> Result<Option<Self>, AllocError>
    where
        Self: Sized,
        ensures found { IfOk result (λ found. found ≡ part named_ops.now (view value.now)) }
        ensures formed { IfOk result (λ found. IfSome found (formed named_ops.now)) };
}

/// The items of a list, where each value is one.
#[tactic(auto, using(crate::proofs::Items::each_more))]
fn all_of<T: ListItem + Drop>(
    alloc: Global,
    named_ops: &NamedOps<'_>,
    values: &[Value],
) -> Result<Option<Vec<T>>, AllocError>
    ensures found { IfOk result (λ found. option_map (λ list. list.items) found
        ≡ all_of (T.part named_ops.now) (items_view values.now)) }
    ensures count { IfOk result (λ found. IfSome found (λ list. length list.items ≡ length values.now)) }
    ensures formed { IfOk result (λ found. IfSome found (λ list. Each (T.formed named_ops.now) list.items)) }
{
    let mut list = Vec::with_capacity(alloc, values.len())?;
    for value in values {
        match T::read(alloc, named_ops, value)? {
            Some(part) => list.push(part)?,
            None => return Ok(None),
        }
    }
    Ok(Some(list))
}

/// A list of at most so many items.
#[tactic(auto, using(crate::proofs::Items::items_counted))]
pub(crate) fn list_in<T: ListItem + Drop>(
    alloc: Global,
    named_ops: &NamedOps<'_>,
    value: &Value,
    most: usize,
) -> Result<Option<Several<T>>, AllocError>
    ensures found { IfOk result (λ found. found ≡ list_in (T.part named_ops.now) most (view value.now)) }
    ensures formed { IfOk result (λ found. IfSome found (AreAtMost most (T.formed named_ops.now))) }
{
    let Some(list) = value.as_array() else {
        return Ok(None);
    };
    if list.len() > most {
        return Ok(None);
    }
    let Some(parts) = all_of(alloc, named_ops, list.as_slice())? else {
        return Ok(None);
    };
    Ok(Some(Several::new(parts)))
}

/// A list of at most so many items.
pub fn list<T: ListItem + Drop>(
    alloc: Global,
    named_ops: &NamedOps<'_>,
    value: &Value,
    key: FieldName,
    most: usize,
) -> Result<Several<T>, Fault>
    ensures reads { Reads result (field (list_in (T.part named_ops.now) most) key (view value.now)) }
    ensures formed { IfOk result (AreAtMost most (T.formed named_ops.now)) }
{
    let found = found(value, key)?;
    match list_in(alloc, named_ops, found, most) {
        Ok(found) => at(key, found),
        Err(_) => Err(Fault::NoMemory),
    }
}
