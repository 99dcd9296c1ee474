// How calls are made on a core of one application.
ghost use Rattle.std.specs.Prelude.{◌<◌, ◌^◌, IsTrue};
ghost use Rattle.xr_types.specs.declared.calls.Actor.TheVariants.{App, Compositor, Device};
ghost use Rattle.xr_model.specs.machine.CoreCalls.{MayAsk};

use xr_core::PlainCore;
use xr_types::{Actor, Call, DeviceEvent, Form, Gives, Reply, Shown, Step};

/// Whether an application may make this call and be lent no bytes.
fn is_own(call: &Call<'_>) -> bool
    ensures { IsTrue result → MayAsk (App 1) call.now 0 }
{
    match call {
        Call::CreateInstance { .. }
        | Call::DestroyInstance { .. }
        | Call::GetSystem { .. }
        | Call::StringToPath { .. }
        | Call::PathToString { capacity: 0, .. }
        | Call::PollEvent { .. }
        | Call::CreateSession { .. }
        | Call::DestroySession { .. }
        | Call::BeginSession { .. }
        | Call::CreateReferenceSpace { .. }
        | Call::LocateSpace { .. }
        | Call::CreateActionSet { .. }
        | Call::CreateAction { .. }
        | Call::SuggestBindings { .. }
        | Call::AttachSets { .. }
        | Call::SyncActions { .. }
        | Call::GetBoolean { .. }
        | Call::CreateSwapchain { .. }
        | Call::AcquireImage { .. }
        | Call::WaitImage {
            timeout: 0 | 1,
            start: 0,
            ..
        }
        | Call::AwaitMark { mark: 64 }
        | Call::Paint { .. }
        | Call::ReleaseImage { .. }
        | Call::WaitFrame { .. }
        | Call::BeginFrame { .. }
        | Call::EndFrame { .. } => true,
        _ => false,
    }
}

/// Whether the core may be asked once more.
fn has_places(core: &PlainCore) -> bool
    ensures { IsTrue result → core.now.core.locked < 2 ^ 44 }
{
    core.calls() < 1 << 44
}

/// The reply to a call of the only application, where it can be made.
pub(crate) fn answer(core: &mut PlainCore, call: &Call<'_>) -> Option<Reply> {
    if !is_own(call) || !core.is_present(1) || !has_places(core) {
        return None;
    }
    match core.apply(Actor::App(1), call, &mut [], &mut Shown::default()) {
        Step::Done(reply) => Some(reply),
        Step::NotReady => None,
    }
}

/// What a call of the only application gives, nothing where it can't be made.
pub(crate) fn ask(core: &mut PlainCore, call: &Call<'_>) -> Gives {
    match answer(core, call) {
        Some(reply) => reply.gives,
        None => Gives::Nothing,
    }
}

/// The handle that was given, or 0.
pub(crate) fn handle(gives: Gives) -> u64 {
    match gives {
        Gives::Handle(handle) => handle,
        _ => 0,
    }
}

/// Whether this is a call of the compositor.
fn is_compositors(call: &Call<'_>) -> bool
    ensures { IsTrue result → MayAsk Compositor call.now 0 }
{
    matches!(call, Call::NextFrame | Call::ImageDone)
}

/// What a call of the compositor gives, nothing where it can't be made.
pub(crate) fn compose(core: &mut PlainCore, call: &Call<'_>, shown: &mut Shown) -> Gives {
    if !is_compositors(call) || !has_places(core) {
        return Gives::Nothing;
    }
    match core.apply(Actor::Compositor, call, &mut [], shown) {
        Step::Done(reply) => reply.gives,
        Step::NotReady => Gives::Nothing,
    }
}

/// Whether the device may tell this: a wish, a controller, or a pose whose numbers are in range.
fn is_told(call: &Call<'_>) -> bool
    ensures { IsTrue result → MayAsk Device call.now 0 }
{
    match call {
        Call::Device(event) => match event {
            DeviceEvent::Wish(_) => true,
            DeviceEvent::Pose { .. } | DeviceEvent::Profile { .. } => event.check(),
            _ => false,
        },
        _ => false,
    }
}

/// The device tells an event, where it may.
pub(crate) fn tell(core: &mut PlainCore, event: DeviceEvent) {
    let call = Call::Device(event);
    if is_told(&call) && has_places(core) {
        let _ = core.apply(Actor::Device, &call, &mut [], &mut Shown::default());
    }
}

/// Asks for the system so many times, each time so often; how many times.
pub(crate) fn ask_often(core: &mut PlainCore, instance: u64, each: u64, times: u64) -> u64 {
    let mut asked: u64 = 0;
    for _ in 0..times {
        for _ in 0..each {
            let _ = ask(
                core,
                &Call::GetSystem {
                    instance,
                    form: Form::Head,
                },
            );
        }
        asked = asked.saturating_add(1);
    }
    asked
}
