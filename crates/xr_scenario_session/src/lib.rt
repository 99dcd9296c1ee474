//! Reading the ops on instances, paths, events and sessions (OpenXR 1.0 chapters 2, 4, 6 and 9), and on marks.
//! Each reader tells what an op's object says, or the first place of it that is wrong.
//! None is inlined, so that each writes its op straight to its caller.
#![tactic(auto)]

ghost use Rattle.std.specs.Prelude.{IfErr, IfOk, List};
ghost use Rattle.serde_json.specs.View.{view};
ghost use Rattle.xr_types.specs.declared.names.CallName.TheVariants as call;
ghost use Rattle.xr_scenario_fields.specs.Reads.{IsWrong, ReadsOp};
ghost use Rattle.xr_model.specs.scenario.InRange.{IsFormed};
ghost use Rattle.xr_model.specs.scenario.ScriptForm.{IsKnownPlace};
ghost use Rattle.xr_model.specs.scenario.Names.{NamedOp};
ghost use Rattle.xr_model.specs.scenario.OpReading.{op_in};

use serde_json::Value;
use std::alloc::Global;
use xr_scenario_fields::{
    Fault, NamedOps, ReadOp, atom, handle, mark_number, mark_value, name, number, small, system,
    text, word,
};
use xr_types::{FieldName, MOST_CAPACITY, Op};

// rows: the readers

/// Reads `create_instance`: `major`, `minor`, `as`?.
#[inline(never)]
pub fn create_instance<'v>(value: &'v Value) -> Result<ReadOp<'v>, Fault>
    ensures reads { (names : List NamedOp) → ReadsOp result (op_in names (view value.now) call.CreateInstance) }
    ensures formed { IfOk result (λ l. (names : List NamedOp) → IsFormed (IsKnownPlace names) l.op) }
    ensures only_wrong { IfErr result IsWrong }
{
    let major = small(value, FieldName::Major)?;
    let minor = small(value, FieldName::Minor)?;
    let name = name(value)?;
    let op = Op::CreateInstance { major, minor };
    Ok(ReadOp { op, name })
}

/// Reads `destroy_instance`: `instance`.
#[inline(never)]
pub fn destroy_instance<'v>(named_ops: &NamedOps<'_>, value: &'v Value) -> Result<ReadOp<'v>, Fault>
    ensures reads { ReadsOp result (op_in named_ops.now (view value.now) call.DestroyInstance) }
    ensures formed { IfOk result (λ l. IsFormed (IsKnownPlace named_ops.now) l.op) }
    ensures only_wrong { IfErr result IsWrong }
{
    let instance = handle(named_ops, value, FieldName::Instance)?;
    let op = Op::DestroyInstance { instance };
    Ok(ReadOp { op, name: None })
}

/// Reads `poll_event`: `instance`.
#[inline(never)]
pub fn poll_event<'v>(named_ops: &NamedOps<'_>, value: &'v Value) -> Result<ReadOp<'v>, Fault>
    ensures reads { ReadsOp result (op_in named_ops.now (view value.now) call.PollEvent) }
    ensures formed { IfOk result (λ l. IsFormed (IsKnownPlace named_ops.now) l.op) }
    ensures only_wrong { IfErr result IsWrong }
{
    let instance = handle(named_ops, value, FieldName::Instance)?;
    let op = Op::PollEvent { instance };
    Ok(ReadOp { op, name: None })
}

/// Reads `get_system`: `instance`, `form`, `as`?.
#[inline(never)]
pub fn get_system<'v>(named_ops: &NamedOps<'_>, value: &'v Value) -> Result<ReadOp<'v>, Fault>
    ensures reads { ReadsOp result (op_in named_ops.now (view value.now) call.GetSystem) }
    ensures formed { IfOk result (λ l. IsFormed (IsKnownPlace named_ops.now) l.op) }
    ensures only_wrong { IfErr result IsWrong }
{
    let instance = handle(named_ops, value, FieldName::Instance)?;
    let form = word(value, FieldName::Form)?;
    let name = name(value)?;
    let op = Op::GetSystem { instance, form };
    Ok(ReadOp { op, name })
}

/// Reads `string_to_path`: `instance`, `text`, `as`?.
#[inline(never)]
pub fn string_to_path<'v>(
    alloc: Global,
    named_ops: &NamedOps<'_>,
    value: &'v Value,
) -> Result<ReadOp<'v>, Fault>
    ensures reads { ReadsOp result (op_in named_ops.now (view value.now) call.StringToPath) }
    ensures formed { IfOk result (λ l. IsFormed (IsKnownPlace named_ops.now) l.op) }
{
    let instance = handle(named_ops, value, FieldName::Instance)?;
    let text = text(alloc, value, FieldName::Text)?;
    let name = name(value)?;
    let op = Op::StringToPath { instance, text };
    Ok(ReadOp { op, name })
}

/// Reads `path_to_string`: `instance`, `path`, `capacity`.
#[inline(never)]
pub fn path_to_string<'v>(named_ops: &NamedOps<'_>, value: &'v Value) -> Result<ReadOp<'v>, Fault>
    ensures reads { ReadsOp result (op_in named_ops.now (view value.now) call.PathToString) }
    ensures formed { IfOk result (λ l. IsFormed (IsKnownPlace named_ops.now) l.op) }
    ensures only_wrong { IfErr result IsWrong }
{
    let instance = handle(named_ops, value, FieldName::Instance)?;
    let path = atom(named_ops, value, FieldName::Path)?;
    let capacity = number(value, FieldName::Capacity, MOST_CAPACITY)?;
    let op = Op::PathToString {
        instance,
        path,
        capacity,
    };
    Ok(ReadOp { op, name: None })
}

/// Reads `create_session`: `instance`, `system`, `as`?.
#[inline(never)]
pub fn create_session<'v>(named_ops: &NamedOps<'_>, value: &'v Value) -> Result<ReadOp<'v>, Fault>
    ensures reads { ReadsOp result (op_in named_ops.now (view value.now) call.CreateSession) }
    ensures formed { IfOk result (λ l. IsFormed (IsKnownPlace named_ops.now) l.op) }
    ensures only_wrong { IfErr result IsWrong }
{
    let instance = handle(named_ops, value, FieldName::Instance)?;
    let system = system(named_ops, value, FieldName::System)?;
    let name = name(value)?;
    let op = Op::CreateSession { instance, system };
    Ok(ReadOp { op, name })
}

/// Reads `destroy_session`: `session`.
#[inline(never)]
pub fn destroy_session<'v>(named_ops: &NamedOps<'_>, value: &'v Value) -> Result<ReadOp<'v>, Fault>
    ensures reads { ReadsOp result (op_in named_ops.now (view value.now) call.DestroySession) }
    ensures formed { IfOk result (λ l. IsFormed (IsKnownPlace named_ops.now) l.op) }
    ensures only_wrong { IfErr result IsWrong }
{
    let session = handle(named_ops, value, FieldName::Session)?;
    let op = Op::DestroySession { session };
    Ok(ReadOp { op, name: None })
}

/// Reads `end_session`: `session`.
#[inline(never)]
pub fn end_session<'v>(named_ops: &NamedOps<'_>, value: &'v Value) -> Result<ReadOp<'v>, Fault>
    ensures reads { ReadsOp result (op_in named_ops.now (view value.now) call.EndSession) }
    ensures formed { IfOk result (λ l. IsFormed (IsKnownPlace named_ops.now) l.op) }
    ensures only_wrong { IfErr result IsWrong }
{
    let session = handle(named_ops, value, FieldName::Session)?;
    let op = Op::EndSession { session };
    Ok(ReadOp { op, name: None })
}

/// Reads `request_exit_session`: `session`.
#[inline(never)]
pub fn request_exit_session<'v>(
    named_ops: &NamedOps<'_>,
    value: &'v Value,
) -> Result<ReadOp<'v>, Fault>
    ensures reads { ReadsOp result (op_in named_ops.now (view value.now) call.RequestExitSession) }
    ensures formed { IfOk result (λ l. IsFormed (IsKnownPlace named_ops.now) l.op) }
    ensures only_wrong { IfErr result IsWrong }
{
    let session = handle(named_ops, value, FieldName::Session)?;
    let op = Op::RequestExitSession { session };
    Ok(ReadOp { op, name: None })
}

/// Reads `begin_session`: `session`, `view`.
#[inline(never)]
pub fn begin_session<'v>(named_ops: &NamedOps<'_>, value: &'v Value) -> Result<ReadOp<'v>, Fault>
    ensures reads { ReadsOp result (op_in named_ops.now (view value.now) call.BeginSession) }
    ensures formed { IfOk result (λ l. IsFormed (IsKnownPlace named_ops.now) l.op) }
    ensures only_wrong { IfErr result IsWrong }
{
    let session = handle(named_ops, value, FieldName::Session)?;
    let view = word(value, FieldName::View)?;
    let op = Op::BeginSession { session, view };
    Ok(ReadOp { op, name: None })
}

/// Reads `mark`: `mark`, `value`?.
#[inline(never)]
pub fn mark<'v>(named_ops: &NamedOps<'_>, value: &'v Value) -> Result<ReadOp<'v>, Fault>
    ensures reads { ReadsOp result (op_in named_ops.now (view value.now) call.Mark) }
    ensures formed { IfOk result (λ l. IsFormed (IsKnownPlace named_ops.now) l.op) }
    ensures only_wrong { IfErr result IsWrong }
{
    let mark = mark_number(value, FieldName::Mark)?;
    let marked = mark_value(named_ops, value, FieldName::Value, mark)?;
    let op = Op::Mark {
        mark,
        value: marked,
    };
    Ok(ReadOp { op, name: None })
}

/// Reads `await`: `mark`, `as`?.
#[inline(never)]
pub fn await_mark<'v>(value: &'v Value) -> Result<ReadOp<'v>, Fault>
    ensures reads { (names : List NamedOp) → ReadsOp result (op_in names (view value.now) call.Await) }
    ensures formed { IfOk result (λ l. (names : List NamedOp) → IsFormed (IsKnownPlace names) l.op) }
    ensures only_wrong { IfErr result IsWrong }
{
    let mark = mark_number(value, FieldName::Mark)?;
    let name = name(value)?;
    let op = Op::Await { mark };
    Ok(ReadOp { op, name })
}

// rows: end
