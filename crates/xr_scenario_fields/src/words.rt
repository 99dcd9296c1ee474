// Fields that are texts, or words of a few.
ghost use Rattle.std.specs.Prelude.{◌≡◌, option_map, IfOk, IfSome, IfErr};
ghost use Rattle.serde_json.specs.View.{view};
ghost use Rattle.xr_scenario_fields.specs.Reads.{IsWrong, Reads};
ghost use Rattle.xr_model.specs.scenario.Fields.{field, text_in, word_in};
ghost use Rattle.xr_model.specs.scenario.InRange.{IsText};

use crate::fault::{Fault, at, found};
use serde_json::Value;
use std::alloc::Global;
use xr_types::{Bytes, FieldName, MOST_TEXT, Word, named};

fn text_in(value: &Value) -> Option<&str>
    ensures text { option_map (λ text. text.now) result ≡ text_in (view value.now) }
    ensures within { IfSome result (λ text. IsText text.now) }
{
    let text = value.as_str()?;
    if text.len() <= MOST_TEXT {
        Some(text)
    } else {
        None
    }
}

/// A text of at most 1024 bytes.
pub fn text(alloc: Global, value: &Value, key: FieldName) -> Result<Bytes, Fault>
    ensures reads { Reads result (field text_in key (view value.now)) }
    ensures formed { IfOk result IsText }
{
    let Some(text) = text_in(found(value, key)?) else {
        return at(key, None);
    };
    match Bytes::from_slice(alloc, text.as_bytes()) {
        Ok(bytes) => Ok(bytes),
        Err(_) => Err(Fault::NoMemory),
    }
}

fn word_in<W: Word>(value: &Value) -> Option<W>
    ensures { result ≡ word_in W.printed W.listed (view value.now) }
{
    let word = value.as_str()?;
    named(word.as_bytes())
}

/// A value of a few, by its word: a device's kind, a number of views, a reference space, what an action gives, or how a
/// frame is blended.
pub fn word<W: Word + Drop>(value: &Value, key: FieldName) -> Result<W, Fault>
    ensures reads { Reads result (field (word_in W.printed W.listed) key (view value.now)) }
    ensures only_wrong { IfErr result IsWrong }
{
    at(key, word_in(found(value, key)?))
}
