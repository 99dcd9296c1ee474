// An image that is given back without the lock, and how many calls a pass has made: an application and the compositor make calls of a
// runtime from one thread.
ghost use Rattle.xr_runtime.specs.Passes.{table_of, IsApp, IsCompositor};

use crate::parts::cores::is_own;
use std::alloc::Global;
use std::sync::Wait;
use std::test::Fail;
use xr_runtime::{AppPass, CompositorPass, Passes, Runtime};
use xr_types::{
    Blend, Call, Code, DeviceEvent, Gives, Items, Layer, RefKind, Reply, Shown, SubImage,
    ViewConfig, Wish,
};

/// Makes a call of the application, where it may.
fn make<R: Wait>(rt: &R, runtime: &Runtime, app: &mut AppPass, call: &Call<'_>) -> Option<Reply>
    requires is { IsApp (table_of runtime.now) app.old }
    ensures is { IsApp (table_of runtime.now) app.new }
{
    if !is_own(call) || app.left() || app.calls() >= 1 << 40 {
        return None;
    }
    Some(runtime.call(rt, app, call, &mut []))
}

/// The handle that a call gives, or 0.
fn handle<R: Wait>(rt: &R, runtime: &Runtime, app: &mut AppPass, call: &Call<'_>) -> u64
    requires is { IsApp (table_of runtime.now) app.old }
    ensures is { IsApp (table_of runtime.now) app.new }
{
    match make(rt, runtime, app, call) {
        Some(
            Reply {
                gives: Gives::Handle(handle),
                ..
            },
        ) => handle,
        _ => 0,
    }
}

/// The code of a call's answer.
fn code<R: Wait>(rt: &R, runtime: &Runtime, app: &mut AppPass, call: &Call<'_>) -> Option<Code>
    requires is { IsApp (table_of runtime.now) app.old }
    ensures is { IsApp (table_of runtime.now) app.new }
{
    Some(make(rt, runtime, app, call)?.code)
}

/// A session that runs, with its swapchain and its space.
#[derive(Clone, Copy)]
struct Scene {
    session: u64,
    chain: u64,
    space: u64,
}

fn set_out<R: Wait>(rt: &R, runtime: &Runtime, app: &mut AppPass) -> Scene
    requires is { IsApp (table_of runtime.now) app.old }
    ensures is { IsApp (table_of runtime.now) app.new }
{
    let instance = handle(
        rt,
        runtime,
        app,
        &Call::CreateInstance { major: 1, minor: 0 },
    );
    let session = handle(
        rt,
        runtime,
        app,
        &Call::CreateSession {
            instance,
            system: 1,
        },
    );
    let view = ViewConfig::Stereo;
    let _ = make(rt, runtime, app, &Call::BeginSession { session, view });
    let chain = Call::CreateSwapchain {
        session,
        format: 1,
        width: 64,
        height: 64,
        fixed: false,
    };
    let space = Call::CreateReferenceSpace {
        session,
        kind: RefKind::Local,
        offset: 1,
    };
    Scene {
        session,
        chain: handle(rt, runtime, app, &chain),
        space: handle(rt, runtime, app, &space),
    }
}

/// A frame shows the swapchain as a quad; the code of its end.
fn submit<R: Wait>(rt: &R, runtime: &Runtime, app: &mut AppPass, scene: Scene) -> Option<Code>
    requires is { IsApp (table_of runtime.now) app.old }
    ensures is { IsApp (table_of runtime.now) app.new }
{
    let session = scene.session;
    let Gives::Frame(state) = make(rt, runtime, app, &Call::WaitFrame { session })?.gives else {
        return None;
    };
    let _ = make(rt, runtime, app, &Call::BeginFrame { session });
    let image = SubImage {
        chain: scene.chain,
        x: 0,
        y: 0,
        w: 64,
        h: 64,
    };
    let quad = Layer::Quad {
        space: scene.space,
        image,
        pose: 1,
    };
    let layers = [quad];
    let end = Call::EndFrame {
        session,
        time: state.time,
        blend: Blend::Opaque,
        layers: Items::new(&layers),
    };
    code(rt, runtime, app, &end)
}

/// Takes a frame, where the compositor may ask for one.
fn take<R: Wait>(rt: &R, runtime: &Runtime, compositor: &mut CompositorPass) -> Option<Code>
    requires is { IsCompositor (table_of runtime.now) compositor.old }
    ensures is { IsCompositor (table_of runtime.now) compositor.new }
{
    if compositor.ended() || compositor.calls() >= 1 << 62 || compositor.held() > 0 {
        return None;
    }
    let mut shown = Shown::default();
    Some(runtime.next_frame(rt, compositor, &mut shown).code)
}

/// Gives an image back, where the compositor holds one.
fn give_back(runtime: &Runtime, compositor: &mut CompositorPass) -> Option<Code>
    requires is { IsCompositor (table_of runtime.now) compositor.old }
    ensures is { IsCompositor (table_of runtime.now) compositor.new }
{
    if compositor.ended() || compositor.calls() >= 1 << 62 || compositor.held() == 0 {
        return None;
    }
    Some(runtime.image_done(compositor).code)
}

/// What is done next.
#[derive(Clone, Copy)]
enum Turn {
    /// The application acquires an image.
    Acquire,
    /// It waits for its image, not at all.
    Wait,
    /// It paints the image.
    Paint,
    /// It releases the image.
    Release,
    /// It acquires an image of no swapchain.
    AcquireNone,
    /// It reads an action that there isn't.
    Read,
    /// A frame shows the swapchain.
    Submit,
    /// The compositor takes a frame.
    Take,
    /// It gives an image back.
    GiveBack,
}

fn play<R: Wait>(
    rt: &R,
    runtime: &Runtime,
    app: &mut AppPass,
    compositor: &mut CompositorPass,
    scene: Scene,
    turn: Turn,
) -> Option<Code>
    requires is { IsApp (table_of runtime.now) app.old }
    requires composes { IsCompositor (table_of runtime.now) compositor.old }
    ensures is { IsApp (table_of runtime.now) app.new }
    ensures composes { IsCompositor (table_of runtime.now) compositor.new }
{
    let chain = scene.chain;
    let (timeout, start) = (0, 0);
    let call = match turn {
        Turn::Acquire => Call::AcquireImage { chain },
        Turn::Wait => Call::WaitImage {
            chain,
            timeout,
            start,
        },
        Turn::Paint => Call::Paint { chain, stamp: 5 },
        Turn::Release => Call::ReleaseImage { chain },
        Turn::AcquireNone => Call::AcquireImage { chain: 0 },
        Turn::Read => Call::GetBoolean {
            session: scene.session,
            action: 0,
            sub: 0,
        },
        Turn::Submit => return submit(rt, runtime, app, scene),
        Turn::Take => return take(rt, runtime, compositor),
        Turn::GiveBack => return give_back(runtime, compositor),
    };
    code(rt, runtime, app, &call)
}

/// An image is shown, and waited for while its frame is pending, while the compositor has it, and once it was given back, with no call
/// under the lock between.
const STORY: [(Turn, Code); 21] = [
    (Turn::AcquireNone, Code::HandleInvalid),
    (Turn::Read, Code::HandleInvalid),
    (Turn::Acquire, Code::Success),
    (Turn::Wait, Code::Success),
    (Turn::Paint, Code::Success),
    (Turn::Release, Code::Success),
    (Turn::Submit, Code::Success),
    (Turn::Acquire, Code::Success),
    (Turn::Wait, Code::Success),
    (Turn::Release, Code::Success),
    (Turn::Acquire, Code::Success),
    (Turn::Wait, Code::Success),
    (Turn::Release, Code::Success),
    (Turn::Acquire, Code::Success),
    (Turn::Wait, Code::TimeoutExpired),
    (Turn::Take, Code::Success),
    (Turn::Wait, Code::TimeoutExpired),
    (Turn::GiveBack, Code::Success),
    (Turn::Wait, Code::Success),
    (Turn::Paint, Code::Success),
    (Turn::Release, Code::Success),
];

/// How many calls a turn makes. A frame has three.
fn calls_of(turn: Turn) -> u64 {
    match turn {
        Turn::Submit => 3,
        _ => 1,
    }
}

/// How many calls both have made.
fn made(app: &AppPass, compositor: &CompositorPass) -> u64 {
    app.calls().wrapping_add(compositor.calls())
}

/// How many turns of the story come to what they should, each call counted once, before one that doesn't.
fn count_right<R: Wait>(
    rt: &R,
    runtime: &Runtime,
    app: &mut AppPass,
    compositor: &mut CompositorPass,
) -> usize
    requires is { IsApp (table_of runtime.now) app.old }
    requires composes { IsCompositor (table_of runtime.now) compositor.old }
{
    let scene = set_out(rt, runtime, app);
    for (number, (turn, due)) in STORY.iter().enumerate() {
        let before = made(app, compositor);
        let code = play(rt, runtime, app, compositor, scene, *turn);
        if code != Some(*due) || made(app, compositor) != before.wrapping_add(calls_of(*turn)) {
            return number;
        }
    }
    STORY.len()
}

/// The same of a new runtime whose device wishes the session focused; nothing where memory is short.
fn told<R: Wait>(rt: &R, alloc: Global) -> Option<usize> {
    let Ok((runtime, passes)) = Runtime::start(alloc, 1) else {
        return None;
    };
    let Passes {
        mut apps,
        mut compositor,
        mut device,
    } = passes;
    let wish = DeviceEvent::Wish(Wish::Focused);
    let _ = runtime.device(rt, &mut device, wish);
    let Some(mut app) = apps.pop() else {
        return None;
    };
    Some(count_right(rt, &runtime, &mut app, &mut compositor))
}

/// How many calls the device's pass has made behind one; nothing where memory is short.
fn told_by_device<R: Wait>(rt: &R, alloc: Global) -> Option<u64> {
    let Ok((runtime, passes)) = Runtime::start(alloc, 1) else {
        return None;
    };
    let Passes { mut device, .. } = passes;
    let _ = runtime.device(rt, &mut device, DeviceEvent::Loss);
    Some(device.calls())
}

#[test]
fn a_call_of_the_device_is_counted_once(rt: HostRuntime) -> Result<(), Fail> {
    assert_eq!(rt; told_by_device(&rt, rt.alloc()), Some(1));
    Ok(())
}

#[test]
fn a_wait_gets_the_image_that_was_given_back_without_the_lock(rt: HostRuntime) -> Result<(), Fail> {
    assert_eq!(rt; told(&rt, rt.alloc()), Some(STORY.len()));
    Ok(())
}
