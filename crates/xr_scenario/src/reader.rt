// The reader: a text, its JSON value, the scenario's object, its scripts, and each script's ops.
ghost use Rattle.std.specs.Prelude.{◌≡◌, ℕ, List, ◌≤◌, ◌<◌, ◌^◌, ◌+◌, [], ◌∷◌, ◌++◌, length, IfOk, IfErr, OnOk, Some, None, Err, option_map};
ghost use Rattle.std.specs.List.{sum_by};
ghost use Rattle.serde_json.specs.View.{view, items_view};
ghost use Rattle.serde_json.specs.Find.{as_array};
ghost use Rattle.xr_types.specs.Op.{sort_of};
ghost use Rattle.xr_types.specs.declared.status.Refusal.TheVariants.{BadShape};
ghost use Rattle.xr_model.specs.scenario.Names.{NamedOp};
ghost use Rattle.xr_model.specs.scenario.ScriptForm.{IsInForm, AllInForm};
ghost use Rattle.xr_model.specs.scenario.OpReading.{with_name_of};
ghost use Rattle.xr_model.specs.scenario.Scenario.{ops_from, script_of, scripts_from, scripts_by, version_of, scenario_in, json_of, scenario_of};
ghost use Rattle.xr_scenario.specs.declared.fault.ScenarioFault.TheVariants.{Refused, NoMemory};
ghost use Rattle.xr_scenario.specs.Size.{size, items_size};
ghost use Rattle.xr_scenario.specs.inside.Shapes.{ReadsShape, IsJsonFault};

use crate::fault::ScenarioFault;
use crate::read_op::read_op;
use serde_json::Value;
use std::alloc::Global;
use xr_scenario_fields::{Fault, NamedOps, only_keys};
use xr_types::{
    FieldName, MOST_SCENARIO, MOST_SCRIPTS, Op, Refusal, Scenario, Script, Several, Sort, VERSION,
    What,
};

/// What the name stands for that an op gives, if it gives one.
#[tactic(auto, using(crate::proofs::OpReading::no_name))]
fn sort_named(op: &Op, name: Option<&str>) -> Option<Sort>
    ensures { (place : ℕ) (names : List NamedOp) → with_name_of place result (option_map (λ n. n.now) name.entry) names
        ≡ with_name_of place (sort_of op.now) (option_map (λ n. n.now) name.entry) names }
{
    match name {
        Some(_) => op.sort(),
        None => None,
    }
}

/// Keeps the name that an op gives, if it gives one.
fn keep<'v>(
    named_ops: &mut NamedOps<'v>,
    place: u32,
    sort: Option<Sort>,
    name: Option<&'v str>,
) -> Result<(), ScenarioFault>
    ensures names { OnOk result (named_ops.new ≡ with_name_of place sort (option_map (λ n. n.now) name.entry) named_ops.old) }
    ensures cause { IfErr result (λ e. e ≡ NoMemory) }
{
    let Some(sort) = sort else {
        return Ok(());
    };
    let Some(name) = name else {
        return Ok(());
    };
    if named_ops.give(name, place, sort).is_err() {
        return Err(ScenarioFault::NoMemory);
    }
    Ok(())
}

/// An empty list with room for so many items.
fn room_for<T>(alloc: Global, count: usize) -> Result<Vec<T>, ScenarioFault>
    ensures empty { IfOk result (λ list. list.items ≡ []) }
    ensures cause { IfErr result (λ e. e ≡ NoMemory) }
{
    match Vec::with_capacity(alloc, count) {
        Ok(list) => Ok(list),
        Err(_) => Err(ScenarioFault::NoMemory),
    }
}

fn add<T: Drop>(list: &mut Vec<T>, item: T) -> Result<(), ScenarioFault>
    ensures list { OnOk result (list.new.items ≡ list.old.items ++ item ∷ []) }
    ensures cause { IfErr result (λ e. e ≡ NoMemory) }
{
    if list.push(item).is_err() {
        return Err(ScenarioFault::NoMemory);
    }
    Ok(())
}

/// The ops of a script, or the first wrong place.
#[tactic(auto, using(crate::proofs::OpReading::prepended, crate::proofs::OpReading::ops_step, crate::proofs::OpReading::list_sizes))]
fn read_ops(
    alloc: Global,
    version: u8,
    script: u32,
    values: &[Value],
) -> Result<Script, ScenarioFault>
    requires { items_size (items_view values.now) < 2 ^ 31 }
    ensures reads { ReadsShape result (ops_from version script 1 [] (items_view values.now)) }
    ensures formed { IfOk result (λ ops. IsInForm ops) }
{
    let mut named_ops = NamedOps::new(alloc);
    let mut ops: Vec<Op> = room_for(alloc, values.len())?;
    let mut place = 0;
    for value in values {
        place += 1;
        let read = match read_op(alloc, version, &named_ops, value) {
            Ok(read) => read,
            Err(Fault::Wrong(what)) => {
                return Err(ScenarioFault::Refused(Refusal::BadShape {
                    script,
                    op: place,
                    what,
                }));
            }
            Err(Fault::NoMemory) => return Err(ScenarioFault::NoMemory),
        };
        let sort = sort_named(&read.op, read.name);
        add(&mut ops, read.op)?;
        keep(&mut named_ops, place, sort, read.name)?;
    }
    Ok(Several::new(ops))
}

/// The ops of one script.
#[tactic(auto, using(crate::proofs::Few::array_size))]
fn read_script(
    alloc: Global,
    version: u8,
    script: u32,
    value: &Value,
) -> Result<Script, ScenarioFault>
    requires { size (view value.now) < 2 ^ 31 }
    ensures reads { ReadsShape result (script_of version script (view value.now)) }
    ensures formed { IfOk result (λ ops. IsInForm ops) }
{
    match value.as_array() {
        Some(list) => read_ops(alloc, version, script, list.as_slice()),
        None => Err(ScenarioFault::Refused(Refusal::BadShape {
            script,
            op: 0,
            what: What::Script,
        })),
    }
}

/// The scripts of a scenario, or the first wrong place.
#[tactic(auto, using(crate::proofs::OpReading::list_sizes, crate::proofs::OpReading::script_steps))]
fn read_scripts(
    alloc: Global,
    version: u8,
    values: &[Value],
) -> Result<Several<Script>, ScenarioFault>
    requires { items_size (items_view values.now) < 2 ^ 31 }
    ensures reads { ReadsShape result (scripts_from version 1 (items_view values.now)) }
    ensures formed { IfOk result (λ scripts. AllInForm scripts) }
    ensures count { IfOk result (λ scripts. length scripts ≡ length values.now) }
{
    let mut scripts: Vec<Script> = Vec::new(alloc);
    let mut script = 0;
    for value in values {
        script += 1;
        let ops = match read_script(alloc, version, script, value) {
            Ok(ops) => ops,
            Err(fault) => return Err(fault),
        };
        add(&mut scripts, ops)?;
    }
    Ok(Several::new(scripts))
}

fn top<T>(what: What) -> Result<T, ScenarioFault>
    ensures { result ≡ Err (Refused (BadShape 0 0 what)) }
{
    Err(ScenarioFault::Refused(Refusal::BadShape {
        script: 0,
        op: 0,
        what,
    }))
}

/// The scripts of a list of 1 to 8.
#[tactic(auto, using(crate::proofs::OpReading::items_counted, crate::proofs::Few::array_size))]
fn read_list(alloc: Global, version: u8, scripts: &Value) -> Result<Several<Script>, ScenarioFault>
    requires { size (view scripts.now) < 2 ^ 31 }
    ensures reads { ReadsShape result (scripts_by version (as_array (view scripts.now))) }
    ensures formed { IfOk result (λ scripts. AllInForm scripts) }
    ensures count { IfOk result (λ scripts. (1 ≤ length scripts) × (length scripts ≤ MOST_SCRIPTS)) }
{
    let Some(list) = scripts.as_array() else {
        return top(What::Scripts);
    };
    if list.is_empty() || list.len() > MOST_SCRIPTS {
        return top(What::Scripts);
    }
    read_scripts(alloc, version, list.as_slice())
}

/// The version of the format in which a scenario is written, where it is one that there is.
fn version_of(value: &Value) -> Option<u8>
    ensures { result ≡ version_of (view value.now) }
{
    let number = value.get(FieldName::Version.name())?.as_u64()?;
    if number == u64::from(VERSION) {
        Some(VERSION)
    } else {
        None
    }
}

/// The scenario of a value.
#[tactic(auto, using(crate::proofs::Few::get_size))]
fn read_value(alloc: Global, value: &Value) -> Result<Scenario, ScenarioFault>
    requires { size (view value.now) < 2 ^ 31 }
    ensures reads { ReadsShape result (scenario_in (view value.now)) }
    ensures formed { IfOk result (λ scenario. AllInForm scenario.scripts) }
    ensures count { IfOk result (λ scenario. (1 ≤ length scenario.scripts) × (length scenario.scripts ≤ MOST_SCRIPTS)) }
{
    if !only_keys(&[FieldName::Version, FieldName::Scripts], value) {
        return top(What::Top);
    }
    let Some(version) = version_of(value) else {
        return top(What::Version);
    };
    let Some(found) = value.get(FieldName::Scripts.name()) else {
        return top(What::Scripts);
    };
    let scripts = read_list(alloc, version, found)?;
    Ok(Scenario { version, scripts })
}

/// The value of a text, if it is JSON.
#[tactic(auto, using(crate::proofs::Json::json_some, crate::proofs::Json::json_none, crate::proofs::Json::json_size))]
fn json(alloc: Global, text: &[u8]) -> Result<Value, ScenarioFault>
    ensures value { IfOk result (λ value. json_of text.now ≡ Some (view value)) }
    ensures cause { IfErr result (λ e. IsJsonFault e (json_of text.now)) }
    ensures size { IfOk result (λ value. size (view value) ≤ length text.now + 1) }
{
    match Value::from_slice(alloc, text) {
        Ok(value) => Ok(value),
        Err(e) => {
            if e.is_memory() {
                return Err(ScenarioFault::NoMemory);
            }
            Err(ScenarioFault::Refused(Refusal::Json))
        }
    }
}

/// The scenario of a text, or why there is none: `TooLong` exactly where it has more than 1,048,576 bytes,
/// else `Json` exactly where `serde_json` by its own statement doesn't read it as a value nested at most 127
/// deep, else `BadShape` exactly with the first wrong place. A scenario has 1 to 8 scripts, fewer than 2^20
/// ops, and only ops in form.
pub fn read(alloc: Global, text: &[u8]) -> Result<Scenario, ScenarioFault>
    ensures reads { ReadsShape result (scenario_of text.now) }
    ensures few { IfOk result (λ scenario. sum_by length scenario.scripts < MOST_SCENARIO) }
    ensures formed { IfOk result (λ scenario. AllInForm scenario.scripts) }
    ensures count { IfOk result (λ scenario. (1 ≤ length scenario.scripts) × (length scenario.scripts ≤ MOST_SCRIPTS)) }
{
    if text.len() > MOST_SCENARIO {
        return Err(ScenarioFault::Refused(Refusal::TooLong));
    }
    let value = json(alloc, text)?;
    let scenario = read_value(alloc, &value)?;
    Ok(scenario)
}
