// Summaries of what no run of a load makes: no frames, stamps beyond the greatest, other results, a stuck run.
use super::lists::{Row, device, lists_of, script};
use std::alloc::{AllocError, Global};
use std::test::Fail;
use xr_report::summary;
use xr_types::{
    Actor, CallName, Code, Gives, Lists, MOST_LAYERS, Several, Shown, ShownLayer, ShownLayers,
    Waiting,
};

/// Calls with the last result, one of the first, and the first, not in their order.
const CALLS: &[Row] = &[
    (
        CallName::Paint,
        0,
        Code::LocalizedNameInvalid,
        Gives::Nothing,
        b"",
    ),
    (
        CallName::EndFrame,
        0,
        Code::FrameDiscarded,
        Gives::Nothing,
        b"",
    ),
    (
        CallName::Paint,
        0,
        Code::LocalizedNameInvalid,
        Gives::Nothing,
        b"",
    ),
    (CallName::Leave, 0, Code::Success, Gives::Nothing, b""),
];

const NEXT: [Waiting; 1] = [Waiting {
    actor: Actor::Compositor,
    op: 0,
    name: CallName::NextFrame,
}];

/// A frame with these layers.
fn shown(number: u64, time: i64, layers: &[ShownLayer]) -> Shown {
    let mut frame = Shown {
        number,
        time,
        layers: ShownLayers::new(),
    };
    for layer in layers {
        if frame.layers.as_slice().len() < MOST_LAYERS {
            frame.layers.push(*layer);
        }
    }
    frame
}

/// A run that is stuck, with these frames.
fn stuck_run(alloc: Global, frames: Vec<Shown>) -> Result<Lists, AllocError> {
    let calls = script(alloc, CALLS)?;
    let none = device(alloc, 0)?;
    let next = NEXT.to_vec(alloc)?;
    let mut lists = lists_of(alloc, calls, none, Vec::new(alloc), next);
    lists.compositor = Several::new(frames);
    Ok(lists)
}

/// Whether the summary of a stuck run with these frames is this text.
fn is_summary(alloc: Global, frames: Vec<Shown>, text: &str) -> Result<bool, AllocError> {
    let lists = stuck_run(alloc, frames)?;
    match summary(alloc, 4294967295, &lists) {
        Ok(bytes) => Ok(bytes.as_slice() == text.as_bytes()),
        Err(_) => Err(AllocError),
    }
}

const NO_FRAMES: &str = "\
xrsim load 4294967295
calls 4
XR_SUCCESS 1
XR_FRAME_DISCARDED 1
XR_ERROR_LOCALIZED_NAME_INVALID 2
frames 0
stamps 0
last time 0
status 7
";

const THREE_FRAMES: &str = "\
xrsim load 4294967295
calls 4
XR_SUCCESS 1
XR_FRAME_DISCARDED 1
XR_ERROR_LOCALIZED_NAME_INVALID 2
frames 3
stamps 5
last time -1
status 7
";

#[test]
fn a_summary_counts_what_its_lists_have(rt: HostRuntime) -> Result<(), Fail> {
    let alloc = rt.alloc();
    let large = [ShownLayer::Quad(18446744073709551615), ShownLayer::Quad(3)];
    let frames = vec![in alloc;
        shown(1, 4611686018427387903, &large),
        shown(2, 16, &[ShownLayer::Projection(1, 2)]),
        shown(3, -1, &[]),
    ]?;
    assert!(rt; is_summary(alloc, Vec::new(alloc), NO_FRAMES)?);
    assert!(rt; is_summary(alloc, frames, THREE_FRAMES)?);
    Ok(())
}
