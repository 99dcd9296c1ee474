// An op of a script: which one it is, and what it says.
ghost use Rattle.std.specs.Prelude.{◌≡◌, IfOk};
ghost use Rattle.std.specs.List.{find};
ghost use Rattle.std.specs.Str.{bytes_eq};
ghost use Rattle.serde_json.specs.View.{view};
ghost use Rattle.xr_types.specs.Op.{name_of_call};
ghost use Rattle.xr_scenario_fields.specs.Reads.{Reads, ReadsOp};
ghost use Rattle.xr_model.specs.scenario.InRange.{IsFormed};
ghost use Rattle.xr_model.specs.scenario.ScriptForm.{IsKnownPlace};
ghost use Rattle.xr_model.specs.scenario.OpReading.{op_named, op_of, op_name, op_in, read_op_of};
ghost use Rattle.xr_scenario.specs.inside.OpNames.{HasAllOfSize};

use crate::keys::only_its_keys;
use serde_json::Value;
use std::alloc::Global;
use xr_scenario_fields::{Fault, NamedOps, ReadOp, last_value};
// rows: import of readers
use xr_scenario_frame::{
    acquire_image, begin_frame, create_action_space, create_reference_space, create_swapchain,
    destroy_space, destroy_swapchain, end_frame, locate_space, paint, release_image, wait_frame,
    wait_image,
};
use xr_scenario_input::{
    attach_sets, create_action, create_action_set, destroy_action, destroy_action_set, get_boolean,
    get_float, get_pose_active, get_vector, suggest_bindings, sync_actions,
};
use xr_scenario_session::{
    await_mark, begin_session, create_instance, create_session, destroy_instance, destroy_session,
    end_session, get_system, mark, path_to_string, poll_event, request_exit_session,
    string_to_path,
};
// rows: end
use xr_types::{CallName, FieldName, What};

/// The ops among which a name of so many bytes stands, if it is one.
fn ops_of_size(size: usize) -> &'static [CallName]
    ensures { HasAllOfSize size result.now }
{
    match size {
        // rows: ops by size
        4 => &[CallName::Mark],
        5 => &[CallName::Paint, CallName::Await],
        9 => &[CallName::GetFloat, CallName::EndFrame],
        10 => &[
            CallName::PollEvent,
            CallName::GetSystem,
            CallName::GetVector,
            CallName::WaitImage,
            CallName::WaitFrame,
        ],
        11 => &[
            CallName::EndSession,
            CallName::BeginFrame,
            CallName::AttachSets,
            CallName::GetBoolean,
        ],
        12 => &[CallName::LocateSpace, CallName::SyncActions],
        13 => &[
            CallName::BeginSession,
            CallName::DestroySpace,
            CallName::CreateAction,
            CallName::AcquireImage,
            CallName::ReleaseImage,
        ],
        14 => &[
            CallName::StringToPath,
            CallName::PathToString,
            CallName::CreateSession,
            CallName::DestroyAction,
        ],
        15 => &[
            CallName::CreateInstance,
            CallName::DestroySession,
            CallName::GetPoseActive,
        ],
        16 => &[
            CallName::DestroyInstance,
            CallName::SuggestBindings,
            CallName::CreateSwapchain,
        ],
        17 => &[CallName::CreateActionSet, CallName::DestroySwapchain],
        18 => &[CallName::DestroyActionSet],
        19 => &[CallName::CreateActionSpace],
        20 => &[CallName::RequestExitSession],
        22 => &[CallName::CreateReferenceSpace],
        // rows: end
        _ => CallName::ops(),
    }
}

/// The first of these ops that has this name.
fn find_named(ops: &[CallName], text: &str) -> Option<CallName>
    ensures { result ≡ find (λ c. bytes_eq text.now (name_of_call c)) ops.now }
{
    for op in ops {
        if text == op.name() {
            return Some(*op);
        }
    }
    None
}

/// The op of a name.
fn op_named(text: &str) -> Option<CallName>
    ensures { result ≡ op_named text.now }
{
    find_named(ops_of_size(text.len()), text)
}

/// Which op an object is, if it is one.
fn op_of(value: &Value) -> Option<CallName>
    ensures { result ≡ op_of (view value.now) }
{
    let found = last_value(value, FieldName::Op)?;
    let Some(text) = found.as_str() else {
        return None;
    };
    op_named(text)
}

fn op_name(value: &Value) -> Result<CallName, Fault>
    ensures { Reads result (op_name (view value.now)) }
{
    match op_of(value) {
        Some(name) => Ok(name),
        None => Err(Fault::Wrong(What::Op)),
    }
}

/// What an object says as this op, or the first of its fields that is wrong.
fn op_in<'v>(
    alloc: Global,
    named_ops: &NamedOps<'_>,
    value: &'v Value,
    row: CallName,
) -> Result<ReadOp<'v>, Fault>
    ensures reads { ReadsOp result (op_in named_ops.now (view value.now) row) }
    ensures formed { IfOk result (λ l. IsFormed (IsKnownPlace named_ops.now) l.op) }
{
    match row {
        // rows: the readers
        CallName::CreateInstance => create_instance(value),
        CallName::DestroyInstance => destroy_instance(named_ops, value),
        CallName::PollEvent => poll_event(named_ops, value),
        CallName::GetSystem => get_system(named_ops, value),
        CallName::StringToPath => string_to_path(alloc, named_ops, value),
        CallName::PathToString => path_to_string(named_ops, value),
        CallName::CreateSession => create_session(named_ops, value),
        CallName::DestroySession => destroy_session(named_ops, value),
        CallName::EndSession => end_session(named_ops, value),
        CallName::RequestExitSession => request_exit_session(named_ops, value),
        CallName::BeginFrame => begin_frame(named_ops, value),
        CallName::BeginSession => begin_session(named_ops, value),
        CallName::CreateReferenceSpace => create_reference_space(named_ops, value),
        CallName::CreateActionSpace => create_action_space(named_ops, value),
        CallName::DestroySpace => destroy_space(named_ops, value),
        CallName::LocateSpace => locate_space(named_ops, value),
        CallName::CreateActionSet => create_action_set(alloc, named_ops, value),
        CallName::DestroyActionSet => destroy_action_set(named_ops, value),
        CallName::CreateAction => create_action(alloc, named_ops, value),
        CallName::DestroyAction => destroy_action(named_ops, value),
        CallName::SuggestBindings => suggest_bindings(alloc, named_ops, value),
        CallName::AttachSets => attach_sets(alloc, named_ops, value),
        CallName::SyncActions => sync_actions(alloc, named_ops, value),
        CallName::GetBoolean => get_boolean(named_ops, value),
        CallName::GetFloat => get_float(named_ops, value),
        CallName::GetVector => get_vector(named_ops, value),
        CallName::GetPoseActive => get_pose_active(named_ops, value),
        CallName::CreateSwapchain => create_swapchain(named_ops, value),
        CallName::DestroySwapchain => destroy_swapchain(named_ops, value),
        CallName::AcquireImage => acquire_image(named_ops, value),
        CallName::ReleaseImage => release_image(named_ops, value),
        CallName::WaitImage => wait_image(named_ops, value),
        CallName::Paint => paint(named_ops, value),
        CallName::WaitFrame => wait_frame(named_ops, value),
        CallName::EndFrame => end_frame(alloc, named_ops, value),
        CallName::Mark => mark(named_ops, value),
        CallName::Await => await_mark(value),
        CallName::Leave | CallName::Device | CallName::NextFrame | CallName::ImageDone => Err(
            Fault::Wrong(What::Op),
        ),
        // rows: end
    }
}

/// An op of a script in a version of the format, after ops that gave these names, or the first place of it that is wrong.
pub(crate) fn read_op<'v>(
    alloc: Global,
    version: u8,
    named_ops: &NamedOps<'_>,
    value: &'v Value,
) -> Result<ReadOp<'v>, Fault>
    ensures reads { ReadsOp result (read_op_of version named_ops.now (view value.now)) }
    ensures formed { IfOk result (λ l. IsFormed (IsKnownPlace named_ops.now) l.op) }
{
    let row = op_name(value)?;
    let only = only_its_keys(row, version, value);
    let read = op_in(alloc, named_ops, value, row)?;
    if only {
        Ok(read)
    } else {
        Err(Fault::Wrong(What::Extra))
    }
}
