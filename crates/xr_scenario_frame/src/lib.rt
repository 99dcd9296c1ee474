//! Reading the ops on spaces, swapchains and frames (OpenXR 1.0 chapters 7 and 10).
//! Each reader tells what an op's object says, or the first place of it that is wrong.
//! None is inlined, so that each writes its op straight to its caller.
#![tactic(auto)]

ghost use Rattle.std.specs.Prelude.{IfErr, IfOk};
ghost use Rattle.serde_json.specs.View.{view};
ghost use Rattle.xr_types.specs.declared.names.CallName.TheVariants as call;
ghost use Rattle.xr_scenario_fields.specs.Reads.{IsWrong, ReadsOp};
ghost use Rattle.xr_model.specs.scenario.InRange.{IsFormed};
ghost use Rattle.xr_model.specs.scenario.ScriptForm.{IsKnownPlace};
ghost use Rattle.xr_model.specs.scenario.OpReading.{op_in};

use serde_json::Value;
use std::alloc::Global;
use xr_scenario_fields::{
    Fault, MOST, NamedOps, ReadOp, atom, handle, list, name, number, small, time, timeout, truth,
    word,
};
use xr_types::{FieldName, MOST_LISTED, Op};

// rows: the readers

/// Reads `begin_frame`: `session`.
#[inline(never)]
pub fn begin_frame<'v>(named_ops: &NamedOps<'_>, value: &'v Value) -> Result<ReadOp<'v>, Fault>
    ensures reads { ReadsOp result (op_in named_ops.now (view value.now) call.BeginFrame) }
    ensures formed { IfOk result (λ l. IsFormed (IsKnownPlace named_ops.now) l.op) }
    ensures only_wrong { IfErr result IsWrong }
{
    let session = handle(named_ops, value, FieldName::Session)?;
    let op = Op::BeginFrame { session };
    Ok(ReadOp { op, name: None })
}

/// Reads `create_reference_space`: `session`, `kind`, `offset`, `as`?.
#[inline(never)]
pub fn create_reference_space<'v>(
    named_ops: &NamedOps<'_>,
    value: &'v Value,
) -> Result<ReadOp<'v>, Fault>
    ensures reads { ReadsOp result (op_in named_ops.now (view value.now) call.CreateReferenceSpace) }
    ensures formed { IfOk result (λ l. IsFormed (IsKnownPlace named_ops.now) l.op) }
    ensures only_wrong { IfErr result IsWrong }
{
    let session = handle(named_ops, value, FieldName::Session)?;
    let kind = word(value, FieldName::Kind)?;
    let offset = number(value, FieldName::Offset, MOST)?;
    let name = name(value)?;
    let op = Op::CreateReferenceSpace {
        session,
        kind,
        offset,
    };
    Ok(ReadOp { op, name })
}

/// Reads `create_action_space`: `session`, `action`, `sub`, `offset`, `as`?.
#[inline(never)]
pub fn create_action_space<'v>(
    named_ops: &NamedOps<'_>,
    value: &'v Value,
) -> Result<ReadOp<'v>, Fault>
    ensures reads { ReadsOp result (op_in named_ops.now (view value.now) call.CreateActionSpace) }
    ensures formed { IfOk result (λ l. IsFormed (IsKnownPlace named_ops.now) l.op) }
    ensures only_wrong { IfErr result IsWrong }
{
    let session = handle(named_ops, value, FieldName::Session)?;
    let action = handle(named_ops, value, FieldName::Action)?;
    let sub = atom(named_ops, value, FieldName::Sub)?;
    let offset = number(value, FieldName::Offset, MOST)?;
    let name = name(value)?;
    let op = Op::CreateActionSpace {
        session,
        action,
        sub,
        offset,
    };
    Ok(ReadOp { op, name })
}

/// Reads `destroy_space`: `space`.
#[inline(never)]
pub fn destroy_space<'v>(named_ops: &NamedOps<'_>, value: &'v Value) -> Result<ReadOp<'v>, Fault>
    ensures reads { ReadsOp result (op_in named_ops.now (view value.now) call.DestroySpace) }
    ensures formed { IfOk result (λ l. IsFormed (IsKnownPlace named_ops.now) l.op) }
    ensures only_wrong { IfErr result IsWrong }
{
    let space = handle(named_ops, value, FieldName::Space)?;
    let op = Op::DestroySpace { space };
    Ok(ReadOp { op, name: None })
}

/// Reads `locate_space`: `space`, `base`, `time`.
#[inline(never)]
pub fn locate_space<'v>(named_ops: &NamedOps<'_>, value: &'v Value) -> Result<ReadOp<'v>, Fault>
    ensures reads { ReadsOp result (op_in named_ops.now (view value.now) call.LocateSpace) }
    ensures formed { IfOk result (λ l. IsFormed (IsKnownPlace named_ops.now) l.op) }
    ensures only_wrong { IfErr result IsWrong }
{
    let space = handle(named_ops, value, FieldName::Space)?;
    let base = handle(named_ops, value, FieldName::Base)?;
    let time = time(named_ops, value, FieldName::Time)?;
    let op = Op::LocateSpace { space, base, time };
    Ok(ReadOp { op, name: None })
}

/// Reads `create_swapchain`: `session`, `format`, `width`, `height`, `static`, `as`?.
#[inline(never)]
pub fn create_swapchain<'v>(named_ops: &NamedOps<'_>, value: &'v Value) -> Result<ReadOp<'v>, Fault>
    ensures reads { ReadsOp result (op_in named_ops.now (view value.now) call.CreateSwapchain) }
    ensures formed { IfOk result (λ l. IsFormed (IsKnownPlace named_ops.now) l.op) }
    ensures only_wrong { IfErr result IsWrong }
{
    let session = handle(named_ops, value, FieldName::Session)?;
    let format = number(value, FieldName::Format, MOST)?;
    let width = small(value, FieldName::Width)?;
    let height = small(value, FieldName::Height)?;
    let fixed = truth(value, FieldName::Static)?;
    let name = name(value)?;
    let op = Op::CreateSwapchain {
        session,
        format,
        width,
        height,
        fixed,
    };
    Ok(ReadOp { op, name })
}

/// Reads `destroy_swapchain`: `chain`.
#[inline(never)]
pub fn destroy_swapchain<'v>(
    named_ops: &NamedOps<'_>,
    value: &'v Value,
) -> Result<ReadOp<'v>, Fault>
    ensures reads { ReadsOp result (op_in named_ops.now (view value.now) call.DestroySwapchain) }
    ensures formed { IfOk result (λ l. IsFormed (IsKnownPlace named_ops.now) l.op) }
    ensures only_wrong { IfErr result IsWrong }
{
    let chain = handle(named_ops, value, FieldName::Chain)?;
    let op = Op::DestroySwapchain { chain };
    Ok(ReadOp { op, name: None })
}

/// Reads `acquire_image`: `chain`.
#[inline(never)]
pub fn acquire_image<'v>(named_ops: &NamedOps<'_>, value: &'v Value) -> Result<ReadOp<'v>, Fault>
    ensures reads { ReadsOp result (op_in named_ops.now (view value.now) call.AcquireImage) }
    ensures formed { IfOk result (λ l. IsFormed (IsKnownPlace named_ops.now) l.op) }
    ensures only_wrong { IfErr result IsWrong }
{
    let chain = handle(named_ops, value, FieldName::Chain)?;
    let op = Op::AcquireImage { chain };
    Ok(ReadOp { op, name: None })
}

/// Reads `release_image`: `chain`.
#[inline(never)]
pub fn release_image<'v>(named_ops: &NamedOps<'_>, value: &'v Value) -> Result<ReadOp<'v>, Fault>
    ensures reads { ReadsOp result (op_in named_ops.now (view value.now) call.ReleaseImage) }
    ensures formed { IfOk result (λ l. IsFormed (IsKnownPlace named_ops.now) l.op) }
    ensures only_wrong { IfErr result IsWrong }
{
    let chain = handle(named_ops, value, FieldName::Chain)?;
    let op = Op::ReleaseImage { chain };
    Ok(ReadOp { op, name: None })
}

/// Reads `wait_image`: `chain`, `timeout`.
#[inline(never)]
pub fn wait_image<'v>(named_ops: &NamedOps<'_>, value: &'v Value) -> Result<ReadOp<'v>, Fault>
    ensures reads { ReadsOp result (op_in named_ops.now (view value.now) call.WaitImage) }
    ensures formed { IfOk result (λ l. IsFormed (IsKnownPlace named_ops.now) l.op) }
    ensures only_wrong { IfErr result IsWrong }
{
    let chain = handle(named_ops, value, FieldName::Chain)?;
    let timeout = timeout(value, FieldName::Timeout)?;
    let op = Op::WaitImage { chain, timeout };
    Ok(ReadOp { op, name: None })
}

/// Reads `paint`: `chain`, `stamp`.
#[inline(never)]
pub fn paint<'v>(named_ops: &NamedOps<'_>, value: &'v Value) -> Result<ReadOp<'v>, Fault>
    ensures reads { ReadsOp result (op_in named_ops.now (view value.now) call.Paint) }
    ensures formed { IfOk result (λ l. IsFormed (IsKnownPlace named_ops.now) l.op) }
    ensures only_wrong { IfErr result IsWrong }
{
    let chain = handle(named_ops, value, FieldName::Chain)?;
    let stamp = number(value, FieldName::Stamp, MOST)?;
    let op = Op::Paint { chain, stamp };
    Ok(ReadOp { op, name: None })
}

/// Reads `wait_frame`: `session`, `as`?.
#[inline(never)]
pub fn wait_frame<'v>(named_ops: &NamedOps<'_>, value: &'v Value) -> Result<ReadOp<'v>, Fault>
    ensures reads { ReadsOp result (op_in named_ops.now (view value.now) call.WaitFrame) }
    ensures formed { IfOk result (λ l. IsFormed (IsKnownPlace named_ops.now) l.op) }
    ensures only_wrong { IfErr result IsWrong }
{
    let session = handle(named_ops, value, FieldName::Session)?;
    let name = name(value)?;
    let op = Op::WaitFrame { session };
    Ok(ReadOp { op, name })
}

/// Reads `end_frame`: `session`, `time`, `blend`, `layers`.
#[inline(never)]
pub fn end_frame<'v>(
    alloc: Global,
    named_ops: &NamedOps<'_>,
    value: &'v Value,
) -> Result<ReadOp<'v>, Fault>
    ensures reads { ReadsOp result (op_in named_ops.now (view value.now) call.EndFrame) }
    ensures formed { IfOk result (λ l. IsFormed (IsKnownPlace named_ops.now) l.op) }
{
    let session = handle(named_ops, value, FieldName::Session)?;
    let time = time(named_ops, value, FieldName::Time)?;
    let blend = word(value, FieldName::Blend)?;
    let layers = list(alloc, named_ops, value, FieldName::Layers, MOST_LISTED)?;
    let op = Op::EndFrame {
        session,
        time,
        blend,
        layers,
    };
    Ok(ReadOp { op, name: None })
}

// rows: end
