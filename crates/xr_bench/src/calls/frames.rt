// A core with a session that runs, and how its frames go round.
use super::asking::{answer, ask, compose, handle, tell};
use xr_core::PlainCore;
use xr_types::{
    Blend, Call, DeviceEvent, FrameState, Gives, Items, Layer, Reply, Shown, ViewConfig, Wish,
};

/// Takes a frame; whether one was pending.
pub(crate) fn take(core: &mut PlainCore, shown: &mut Shown) -> bool {
    matches!(compose(core, &Call::NextFrame, shown), Gives::Shown)
}

/// An instance and its session.
#[derive(Clone, Copy)]
pub(crate) struct Running {
    pub(crate) instance: u64,
    pub(crate) session: u64,
}

/// Gives the core a session that runs.
pub(crate) fn set_running(core: &mut PlainCore) -> Running {
    tell(core, DeviceEvent::Wish(Wish::Ready));
    let instance = handle(ask(core, &Call::CreateInstance { major: 1, minor: 0 }));
    let session = handle(ask(
        core,
        &Call::CreateSession {
            instance,
            system: 1,
        },
    ));
    let view = ViewConfig::Stereo;
    let _ = ask(core, &Call::BeginSession { session, view });
    Running { instance, session }
}

/// A frame is waited for, begun and ended with these layers.
pub(crate) fn submit(core: &mut PlainCore, session: u64, layers: &[Layer]) -> Option<Reply> {
    let waited = answer(core, &Call::WaitFrame { session })?;
    let Gives::Frame(FrameState { time, .. }) = waited.gives else {
        return None;
    };
    let _ = ask(core, &Call::BeginFrame { session });
    answer(
        core,
        &Call::EndFrame {
            session,
            time,
            blend: Blend::Opaque,
            layers: Items::new(layers),
        },
    )
}

/// So many frames go round, each of four calls; how many were shown.
pub(crate) fn frame_often(core: &mut PlainCore, running: Running, times: u64) -> u64 {
    let mut shown = Shown::default();
    let mut frames: u64 = 0;
    for _ in 0..times {
        let _ = submit(core, running.session, &[]);
        if take(core, &mut shown) {
            frames = frames.saturating_add(1);
        }
    }
    frames
}
