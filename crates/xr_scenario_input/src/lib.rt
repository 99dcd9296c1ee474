//! Reading the ops on action sets, actions, bindings and their states (OpenXR 1.0 chapter 11).
//! Each reader tells what an op's object says, or the first place of it that is wrong.
//! None is inlined, so that each writes its op straight to its caller.
#![tactic(auto)]

ghost use Rattle.std.specs.Prelude.{IfErr, IfOk};
ghost use Rattle.serde_json.specs.View.{view};
ghost use Rattle.xr_types.specs.declared.names.CallName.TheVariants as call;
ghost use Rattle.xr_scenario_fields.specs.Reads.{IsWrong, ReadsOp};
ghost use Rattle.xr_model.specs.scenario.InRange.{IsFormed};
ghost use Rattle.xr_model.specs.scenario.ScriptForm.{IsKnownPlace};
ghost use Rattle.xr_model.specs.scenario.OpReading.{op_in};

use serde_json::Value;
use std::alloc::Global;
use xr_scenario_fields::{Fault, NamedOps, ReadOp, atom, handle, list, name, small, text, word};
use xr_types::{FieldName, MOST_ACTIVE, MOST_ATTACHED, MOST_BINDINGS, MOST_SUBACTIONS, Op};

// rows: the readers

/// Reads `create_action_set`: `instance`, `name`, `localized`, `priority`, `as`?.
#[inline(never)]
pub fn create_action_set<'v>(
    alloc: Global,
    named_ops: &NamedOps<'_>,
    value: &'v Value,
) -> Result<ReadOp<'v>, Fault>
    ensures reads { ReadsOp result (op_in named_ops.now (view value.now) call.CreateActionSet) }
    ensures formed { IfOk result (λ l. IsFormed (IsKnownPlace named_ops.now) l.op) }
{
    let instance = handle(named_ops, value, FieldName::Instance)?;
    let called = text(alloc, value, FieldName::Name)?;
    let localized = text(alloc, value, FieldName::Localized)?;
    let priority = small(value, FieldName::Priority)?;
    let name = name(value)?;
    let op = Op::CreateActionSet {
        instance,
        name: called,
        localized,
        priority,
    };
    Ok(ReadOp { op, name })
}

/// Reads `destroy_action_set`: `set`.
#[inline(never)]
pub fn destroy_action_set<'v>(
    named_ops: &NamedOps<'_>,
    value: &'v Value,
) -> Result<ReadOp<'v>, Fault>
    ensures reads { ReadsOp result (op_in named_ops.now (view value.now) call.DestroyActionSet) }
    ensures formed { IfOk result (λ l. IsFormed (IsKnownPlace named_ops.now) l.op) }
    ensures only_wrong { IfErr result IsWrong }
{
    let set = handle(named_ops, value, FieldName::Set)?;
    let op = Op::DestroyActionSet { set };
    Ok(ReadOp { op, name: None })
}

/// Reads `create_action`: `set`, `name`, `type`, `subactions`, `localized`, `as`?.
#[inline(never)]
pub fn create_action<'v>(
    alloc: Global,
    named_ops: &NamedOps<'_>,
    value: &'v Value,
) -> Result<ReadOp<'v>, Fault>
    ensures reads { ReadsOp result (op_in named_ops.now (view value.now) call.CreateAction) }
    ensures formed { IfOk result (λ l. IsFormed (IsKnownPlace named_ops.now) l.op) }
{
    let set = handle(named_ops, value, FieldName::Set)?;
    let called = text(alloc, value, FieldName::Name)?;
    let kind = word(value, FieldName::ActionType)?;
    let subactions = list(
        alloc,
        named_ops,
        value,
        FieldName::Subactions,
        MOST_SUBACTIONS,
    )?;
    let localized = text(alloc, value, FieldName::Localized)?;
    let name = name(value)?;
    let op = Op::CreateAction {
        set,
        name: called,
        kind,
        subactions,
        localized,
    };
    Ok(ReadOp { op, name })
}

/// Reads `destroy_action`: `action`.
#[inline(never)]
pub fn destroy_action<'v>(named_ops: &NamedOps<'_>, value: &'v Value) -> Result<ReadOp<'v>, Fault>
    ensures reads { ReadsOp result (op_in named_ops.now (view value.now) call.DestroyAction) }
    ensures formed { IfOk result (λ l. IsFormed (IsKnownPlace named_ops.now) l.op) }
    ensures only_wrong { IfErr result IsWrong }
{
    let action = handle(named_ops, value, FieldName::Action)?;
    let op = Op::DestroyAction { action };
    Ok(ReadOp { op, name: None })
}

/// Reads `suggest_bindings`: `instance`, `profile`, `bindings`.
#[inline(never)]
pub fn suggest_bindings<'v>(
    alloc: Global,
    named_ops: &NamedOps<'_>,
    value: &'v Value,
) -> Result<ReadOp<'v>, Fault>
    ensures reads { ReadsOp result (op_in named_ops.now (view value.now) call.SuggestBindings) }
    ensures formed { IfOk result (λ l. IsFormed (IsKnownPlace named_ops.now) l.op) }
{
    let instance = handle(named_ops, value, FieldName::Instance)?;
    let profile = atom(named_ops, value, FieldName::Profile)?;
    let bindings = list(alloc, named_ops, value, FieldName::Bindings, MOST_BINDINGS)?;
    let op = Op::SuggestBindings {
        instance,
        profile,
        bindings,
    };
    Ok(ReadOp { op, name: None })
}

/// Reads `attach_sets`: `session`, `sets`.
#[inline(never)]
pub fn attach_sets<'v>(
    alloc: Global,
    named_ops: &NamedOps<'_>,
    value: &'v Value,
) -> Result<ReadOp<'v>, Fault>
    ensures reads { ReadsOp result (op_in named_ops.now (view value.now) call.AttachSets) }
    ensures formed { IfOk result (λ l. IsFormed (IsKnownPlace named_ops.now) l.op) }
{
    let session = handle(named_ops, value, FieldName::Session)?;
    let sets = list(alloc, named_ops, value, FieldName::Sets, MOST_ATTACHED)?;
    let op = Op::AttachSets { session, sets };
    Ok(ReadOp { op, name: None })
}

/// Reads `sync_actions`: `session`, `active`.
#[inline(never)]
pub fn sync_actions<'v>(
    alloc: Global,
    named_ops: &NamedOps<'_>,
    value: &'v Value,
) -> Result<ReadOp<'v>, Fault>
    ensures reads { ReadsOp result (op_in named_ops.now (view value.now) call.SyncActions) }
    ensures formed { IfOk result (λ l. IsFormed (IsKnownPlace named_ops.now) l.op) }
{
    let session = handle(named_ops, value, FieldName::Session)?;
    let active = list(alloc, named_ops, value, FieldName::Active, MOST_ACTIVE)?;
    let op = Op::SyncActions { session, active };
    Ok(ReadOp { op, name: None })
}

/// Reads `get_boolean`: `session`, `action`, `sub`.
#[inline(never)]
pub fn get_boolean<'v>(named_ops: &NamedOps<'_>, value: &'v Value) -> Result<ReadOp<'v>, Fault>
    ensures reads { ReadsOp result (op_in named_ops.now (view value.now) call.GetBoolean) }
    ensures formed { IfOk result (λ l. IsFormed (IsKnownPlace named_ops.now) l.op) }
    ensures only_wrong { IfErr result IsWrong }
{
    let session = handle(named_ops, value, FieldName::Session)?;
    let action = handle(named_ops, value, FieldName::Action)?;
    let sub = atom(named_ops, value, FieldName::Sub)?;
    let op = Op::GetBoolean {
        session,
        action,
        sub,
    };
    Ok(ReadOp { op, name: None })
}

/// Reads `get_float`: `session`, `action`, `sub`.
#[inline(never)]
pub fn get_float<'v>(named_ops: &NamedOps<'_>, value: &'v Value) -> Result<ReadOp<'v>, Fault>
    ensures reads { ReadsOp result (op_in named_ops.now (view value.now) call.GetFloat) }
    ensures formed { IfOk result (λ l. IsFormed (IsKnownPlace named_ops.now) l.op) }
    ensures only_wrong { IfErr result IsWrong }
{
    let session = handle(named_ops, value, FieldName::Session)?;
    let action = handle(named_ops, value, FieldName::Action)?;
    let sub = atom(named_ops, value, FieldName::Sub)?;
    let op = Op::GetFloat {
        session,
        action,
        sub,
    };
    Ok(ReadOp { op, name: None })
}

/// Reads `get_vector`: `session`, `action`, `sub`.
#[inline(never)]
pub fn get_vector<'v>(named_ops: &NamedOps<'_>, value: &'v Value) -> Result<ReadOp<'v>, Fault>
    ensures reads { ReadsOp result (op_in named_ops.now (view value.now) call.GetVector) }
    ensures formed { IfOk result (λ l. IsFormed (IsKnownPlace named_ops.now) l.op) }
    ensures only_wrong { IfErr result IsWrong }
{
    let session = handle(named_ops, value, FieldName::Session)?;
    let action = handle(named_ops, value, FieldName::Action)?;
    let sub = atom(named_ops, value, FieldName::Sub)?;
    let op = Op::GetVector {
        session,
        action,
        sub,
    };
    Ok(ReadOp { op, name: None })
}

/// Reads `get_pose_active`: `session`, `action`, `sub`.
#[inline(never)]
pub fn get_pose_active<'v>(named_ops: &NamedOps<'_>, value: &'v Value) -> Result<ReadOp<'v>, Fault>
    ensures reads { ReadsOp result (op_in named_ops.now (view value.now) call.GetPoseActive) }
    ensures formed { IfOk result (λ l. IsFormed (IsKnownPlace named_ops.now) l.op) }
    ensures only_wrong { IfErr result IsWrong }
{
    let session = handle(named_ops, value, FieldName::Session)?;
    let action = handle(named_ops, value, FieldName::Action)?;
    let sub = atom(named_ops, value, FieldName::Sub)?;
    let op = Op::GetPoseActive {
        session,
        action,
        sub,
    };
    Ok(ReadOp { op, name: None })
}

// rows: end
