// The call that an op asks for: a function for each group of ops.
ghost use Rattle.std.specs.Prelude.{◌≡◌};
ghost use Rattle.xr_model.specs.scenario.ScriptForm.{IsInRange};
ghost use Rattle.xr_model.specs.runs.Scripts.{request_for};
// rows: import of groups
ghost use Rattle.xr_scenario_calls.specs.inside.Groups.{IsInstanceOp, IsSessionOp, IsSpaceOp, IsActionOp, IsStateOp, IsImageOp, IsFrameOp};
// rows: end

use crate::lists::{layers_for, list_for};
use crate::{Names, Scratch};
use xr_types::{Call, Items, Op};

// rows: calls of groups

/// The call of an op on an instance, its system, its paths or its events.
fn instance_call<'a>(op: &'a Op, names: &Names) -> Call<'a>
    requires group { IsInstanceOp op.now }
    ensures { result ≡ request_for names.now op.now }
{
    match op {
        Op::CreateInstance { major, minor } => Call::CreateInstance {
            major: *major,
            minor: *minor,
        },
        Op::DestroyInstance { instance } => Call::DestroyInstance {
            instance: names.value_of(*instance),
        },
        Op::PollEvent { instance } => Call::PollEvent {
            instance: names.value_of(*instance),
        },
        Op::GetSystem { instance, form } => Call::GetSystem {
            instance: names.value_of(*instance),
            form: *form,
        },
        Op::StringToPath { instance, text } => Call::StringToPath {
            instance: names.value_of(*instance),
            text: Items::new(text.as_slice()),
        },
        Op::PathToString {
            instance,
            path,
            capacity,
        } => Call::PathToString {
            instance: names.value_of(*instance),
            path: names.value_of(*path),
            capacity: *capacity,
        },
        _ => unreachable!(),
    }
}

/// The call of an op on a session.
fn session_call<'a>(op: &'a Op, names: &Names) -> Call<'a>
    requires group { IsSessionOp op.now }
    ensures { result ≡ request_for names.now op.now }
{
    match op {
        Op::CreateSession { instance, system } => Call::CreateSession {
            instance: names.value_of(*instance),
            system: names.value_of(*system),
        },
        Op::DestroySession { session } => Call::DestroySession {
            session: names.value_of(*session),
        },
        Op::BeginSession { session, view } => Call::BeginSession {
            session: names.value_of(*session),
            view: *view,
        },
        Op::EndSession { session } => Call::EndSession {
            session: names.value_of(*session),
        },
        Op::RequestExitSession { session } => Call::RequestExitSession {
            session: names.value_of(*session),
        },
        _ => unreachable!(),
    }
}

/// The call of an op on a space.
fn space_call<'a>(op: &'a Op, names: &Names) -> Call<'a>
    requires group { IsSpaceOp op.now }
    ensures { result ≡ request_for names.now op.now }
{
    match op {
        Op::CreateReferenceSpace {
            session,
            kind,
            offset,
        } => Call::CreateReferenceSpace {
            session: names.value_of(*session),
            kind: *kind,
            offset: *offset,
        },
        Op::CreateActionSpace {
            session,
            action,
            sub,
            offset,
        } => Call::CreateActionSpace {
            session: names.value_of(*session),
            action: names.value_of(*action),
            sub: names.value_of(*sub),
            offset: *offset,
        },
        Op::DestroySpace { space } => Call::DestroySpace {
            space: names.value_of(*space),
        },
        Op::LocateSpace { space, base, time } => Call::LocateSpace {
            space: names.value_of(*space),
            base: names.value_of(*base),
            time: names.time_of(*time),
        },
        _ => unreachable!(),
    }
}

/// The call of an op on action sets and actions.
fn action_call<'a>(op: &'a Op, names: &Names, scratch: &'a mut Scratch) -> Call<'a>
    requires group { IsActionOp op.now }
    requires ranged { IsInRange op.now }
    ensures { result ≡ request_for names.now op.now }
{
    match op {
        Op::CreateActionSet {
            instance,
            name,
            localized,
            priority,
        } => Call::CreateActionSet {
            instance: names.value_of(*instance),
            name: Items::new(name.as_slice()),
            localized: Items::new(localized.as_slice()),
            priority: *priority,
        },
        Op::DestroyActionSet { set } => Call::DestroyActionSet {
            set: names.value_of(*set),
        },
        Op::CreateAction {
            set,
            name,
            kind,
            subactions,
            localized,
        } => Call::CreateAction {
            set: names.value_of(*set),
            name: Items::new(name.as_slice()),
            kind: *kind,
            subs: Items::new(list_for(&mut scratch.numbers, names, subactions.as_slice())),
            localized: Items::new(localized.as_slice()),
        },
        Op::DestroyAction { action } => Call::DestroyAction {
            action: names.value_of(*action),
        },
        Op::SuggestBindings {
            instance,
            profile,
            bindings,
        } => Call::SuggestBindings {
            instance: names.value_of(*instance),
            profile: names.value_of(*profile),
            list: Items::new(list_for(&mut scratch.bindings, names, bindings.as_slice())),
        },
        Op::AttachSets { session, sets } => Call::AttachSets {
            session: names.value_of(*session),
            sets: Items::new(list_for(&mut scratch.numbers, names, sets.as_slice())),
        },
        Op::SyncActions { session, active } => Call::SyncActions {
            session: names.value_of(*session),
            active: Items::new(list_for(&mut scratch.active, names, active.as_slice())),
        },
        _ => unreachable!(),
    }
}

/// The call of an op on an action's state.
fn state_call<'a>(op: &'a Op, names: &Names) -> Call<'a>
    requires group { IsStateOp op.now }
    ensures { result ≡ request_for names.now op.now }
{
    match op {
        Op::GetBoolean {
            session,
            action,
            sub,
        } => Call::GetBoolean {
            session: names.value_of(*session),
            action: names.value_of(*action),
            sub: names.value_of(*sub),
        },
        Op::GetFloat {
            session,
            action,
            sub,
        } => Call::GetFloat {
            session: names.value_of(*session),
            action: names.value_of(*action),
            sub: names.value_of(*sub),
        },
        Op::GetVector {
            session,
            action,
            sub,
        } => Call::GetVector {
            session: names.value_of(*session),
            action: names.value_of(*action),
            sub: names.value_of(*sub),
        },
        Op::GetPoseActive {
            session,
            action,
            sub,
        } => Call::GetPoseActive {
            session: names.value_of(*session),
            action: names.value_of(*action),
            sub: names.value_of(*sub),
        },
        _ => unreachable!(),
    }
}

/// The call of an op on a swapchain or its images.
fn image_call<'a>(op: &'a Op, names: &Names) -> Call<'a>
    requires group { IsImageOp op.now }
    ensures { result ≡ request_for names.now op.now }
{
    match op {
        Op::CreateSwapchain {
            session,
            format,
            width,
            height,
            fixed,
        } => Call::CreateSwapchain {
            session: names.value_of(*session),
            format: *format,
            width: *width,
            height: *height,
            fixed: *fixed,
        },
        Op::DestroySwapchain { chain } => Call::DestroySwapchain {
            chain: names.value_of(*chain),
        },
        Op::AcquireImage { chain } => Call::AcquireImage {
            chain: names.value_of(*chain),
        },
        Op::ReleaseImage { chain } => Call::ReleaseImage {
            chain: names.value_of(*chain),
        },
        Op::WaitImage { chain, timeout } => Call::WaitImage {
            chain: names.value_of(*chain),
            timeout: *timeout,
            start: 0,
        },
        Op::Paint { chain, stamp } => Call::Paint {
            chain: names.value_of(*chain),
            stamp: *stamp,
        },
        _ => unreachable!(),
    }
}

/// The call of an op on a frame.
fn frame_call<'a>(op: &'a Op, names: &Names, scratch: &'a mut Scratch) -> Call<'a>
    requires group { IsFrameOp op.now }
    requires ranged { IsInRange op.now }
    ensures { result ≡ request_for names.now op.now }
{
    match op {
        Op::WaitFrame { session } => Call::WaitFrame {
            session: names.value_of(*session),
        },
        Op::BeginFrame { session } => Call::BeginFrame {
            session: names.value_of(*session),
        },
        Op::EndFrame {
            session,
            time,
            blend,
            layers,
        } => Call::EndFrame {
            session: names.value_of(*session),
            time: names.time_of(*time),
            blend: *blend,
            layers: Items::new(layers_for(&mut scratch.layers, names, layers.as_slice())),
        },
        _ => unreachable!(),
    }
}

// rows: end

/// The call that an op asks for, where the ops before it gave these names. Its lists stand in `scratch`,
/// its texts in the op. The start of a `WaitImage` is 0: it isn't the script's to tell.
#[inline(always)]
pub fn call_of<'a>(op: &'a Op, names: &Names, scratch: &'a mut Scratch) -> Call<'a>
    requires { IsInRange op.now }
    ensures { result ≡ request_for names.now op.now }
{
    match op {
        // rows: the groups
        Op::Mark { mark, value } => Call::Mark {
            mark: *mark,
            value: names.value_of(*value),
        },
        Op::Await { mark } => Call::AwaitMark { mark: *mark },
        Op::CreateInstance { .. }
        | Op::DestroyInstance { .. }
        | Op::PollEvent { .. }
        | Op::GetSystem { .. }
        | Op::StringToPath { .. }
        | Op::PathToString { .. } => instance_call(op, names),
        Op::CreateSession { .. }
        | Op::DestroySession { .. }
        | Op::BeginSession { .. }
        | Op::EndSession { .. }
        | Op::RequestExitSession { .. } => session_call(op, names),
        Op::CreateReferenceSpace { .. }
        | Op::CreateActionSpace { .. }
        | Op::DestroySpace { .. }
        | Op::LocateSpace { .. } => space_call(op, names),
        Op::CreateActionSet { .. }
        | Op::DestroyActionSet { .. }
        | Op::CreateAction { .. }
        | Op::DestroyAction { .. }
        | Op::SuggestBindings { .. }
        | Op::AttachSets { .. }
        | Op::SyncActions { .. } => action_call(op, names, scratch),
        Op::GetBoolean { .. }
        | Op::GetFloat { .. }
        | Op::GetVector { .. }
        | Op::GetPoseActive { .. } => state_call(op, names),
        Op::CreateSwapchain { .. }
        | Op::DestroySwapchain { .. }
        | Op::AcquireImage { .. }
        | Op::ReleaseImage { .. }
        | Op::WaitImage { .. }
        | Op::Paint { .. } => image_call(op, names),
        Op::WaitFrame { .. } | Op::BeginFrame { .. } | Op::EndFrame { .. } => frame_call(
            op, names, scratch,
        ),
        // rows: end
    }
}
