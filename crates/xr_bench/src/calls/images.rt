// A core with two swapchains, and how their images are painted, shown and waited for.
use super::asking::{answer, ask, compose, handle};
use super::frames::{Running, submit, take};
use xr_core::PlainCore;
use xr_types::{Call, Layer, RefKind, Shown, SubImage};

/// A session that runs, its two swapchains, and its space.
#[derive(Clone, Copy)]
pub(crate) struct Painting {
    pub(crate) running: Running,
    left: u64,
    right: u64,
    space: u64,
}

/// A swapchain of 64 by 64 pixels.
fn chain(core: &mut PlainCore, session: u64) -> u64 {
    handle(ask(
        core,
        &Call::CreateSwapchain {
            session,
            format: 1,
            width: 64,
            height: 64,
            fixed: false,
        },
    ))
}

/// Gives the session two swapchains and a space.
pub(crate) fn set_painting(core: &mut PlainCore, running: Running) -> Painting {
    let session = running.session;
    let left = chain(core, session);
    let right = chain(core, session);
    let space = handle(ask(
        core,
        &Call::CreateReferenceSpace {
            session,
            kind: RefKind::Local,
            offset: 1,
        },
    ));
    Painting {
        running,
        left,
        right,
        space,
    }
}

/// An image is acquired, waited for, painted and released.
fn paint(core: &mut PlainCore, chain: u64, stamp: u64) {
    let timeout = 0;
    let start = 0;
    let _ = ask(core, &Call::AcquireImage { chain });
    let _ = ask(
        core,
        &Call::WaitImage {
            chain,
            timeout,
            start,
        },
    );
    let _ = ask(core, &Call::Paint { chain, stamp });
    let _ = ask(core, &Call::ReleaseImage { chain });
}

/// Paints an image so often; how often.
pub(crate) fn paint_often(core: &mut PlainCore, painting: Painting, times: u64) -> u64 {
    let mut painted: u64 = 0;
    for stamp in 0..times {
        paint(core, painting.left, stamp);
        painted = painted.saturating_add(1);
    }
    painted
}

/// A quad of a swapchain's whole image.
fn quad(space: u64, chain: u64) -> Layer {
    Layer::Quad {
        space,
        image: SubImage {
            chain,
            x: 0,
            y: 0,
            w: 64,
            h: 64,
        },
        pose: 1,
    }
}

/// The layers of a frame of two images.
fn layers_of(painting: Painting) -> [Layer; 2] {
    [
        quad(painting.space, painting.left),
        quad(painting.space, painting.right),
    ]
}

/// A frame of two images is waited for, begun, ended, taken and given back; whether it was shown.
fn show(core: &mut PlainCore, session: u64, layers: &[Layer], shown: &mut Shown) -> bool {
    let _ = submit(core, session, layers);
    let is_shown = take(core, shown);
    let _ = compose(core, &Call::ImageDone, shown);
    let _ = compose(core, &Call::ImageDone, shown);
    is_shown
}

/// So many frames of two images go round, each of three calls and three of the compositor, and show the same images; how many
/// were shown.
pub(crate) fn show_often(core: &mut PlainCore, painting: Painting, times: u64) -> u64 {
    let layers = layers_of(painting);
    let mut shown = Shown::default();
    let mut frames: u64 = 0;
    for _ in 0..times {
        if show(core, painting.running.session, &layers, &mut shown) {
            frames = frames.saturating_add(1);
        }
    }
    frames
}

/// So many frames of two images go round, each of eleven calls and three of the compositor, and show newly painted images; how
/// many were shown.
pub(crate) fn paint_and_show_often(core: &mut PlainCore, painting: Painting, times: u64) -> u64 {
    let layers = layers_of(painting);
    let mut shown = Shown::default();
    let mut frames: u64 = 0;
    for stamp in 0..times {
        paint(core, painting.left, stamp);
        paint(core, painting.right, stamp);
        if show(core, painting.running.session, &layers, &mut shown) {
            frames = frames.saturating_add(1);
        }
    }
    frames
}

/// Has each image of a swapchain acquired, the first of them while a frame shows it that nobody takes.
pub(crate) fn set_in_use(core: &mut PlainCore, painting: Painting) {
    let chain = painting.left;
    let layers = [quad(painting.space, chain)];
    paint(core, chain, 1);
    let _ = submit(core, painting.running.session, &layers);
    paint(core, chain, 2);
    paint(core, chain, 3);
    let _ = ask(core, &Call::AcquireImage { chain });
}

/// Makes a call so often that has to wait; how often it had to.
fn wait_often(core: &mut PlainCore, call: &Call<'_>, times: u64) -> u64 {
    let mut waited: u64 = 0;
    for _ in 0..times {
        if answer(core, call).is_none() {
            waited = waited.saturating_add(1);
        }
    }
    waited
}

/// Waits for an image that is in use, for longer than the clock will show; how often.
pub(crate) fn wait_image_often(core: &mut PlainCore, painting: Painting, times: u64) -> u64 {
    let call = Call::WaitImage {
        chain: painting.left,
        timeout: 1,
        start: 0,
    };
    wait_often(core, &call, times)
}

/// Waits for a mark that nobody sets; how often.
pub(crate) fn await_often(core: &mut PlainCore, times: u64) -> u64 {
    wait_often(core, &Call::AwaitMark { mark: 64 }, times)
}
