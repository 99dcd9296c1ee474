// The compositor's worker.
ghost use Rattle.std.specs.Prelude.{◌≡◌, [], false};
ghost use Rattle.xr_runtime.specs.Passes.{table_of, IsCompositor};
ghost use Rattle.xr_workers.specs.Workers.{ComposesGated, RanCompositor};
ghost use Rattle.xr_workers.specs.inside.Composing.{KeepsFrame, ListsAll};

use crate::context::Context;
use crate::gate::Gate;
use std::sync::Wait;
use xr_compositor::{Turned, turn};
use xr_runtime::CompositorPass;
use xr_types::{Actor, NoMemory, Reply, Several, Shown};

/// What the compositor's worker lists: the frames that it was shown, with the replies of these calls, and the reply that told it the
/// end.
#[derive(Drop)]
pub struct Composed {
    pub frames: Several<Shown>,
    pub replies: Several<Reply>,
    pub ended: Reply,
}

// The frames so far, with their replies.
#[derive(Drop)]
pub(crate) struct Frames {
    pub(crate) frames: Vec<Shown>,
    pub(crate) replies: Vec<Reply>,
}

// One frame more, or nothing any more once memory is short.
fn with_frame(kept: Option<Frames>, shown: Shown, reply: Reply) -> Option<Frames>
    ensures { KeepsFrame kept shown reply result }
{
    let mut kept = kept?;
    let Ok(()) = kept.frames.push(shown) else {
        return None;
    };
    let Ok(()) = kept.replies.push(reply) else {
        return None;
    };
    Some(kept)
}

// all that is listed
fn list(kept: Option<Frames>, ended: Reply) -> Result<Composed, NoMemory>
    ensures { ListsAll kept ended result }
{
    let Some(Frames { frames, replies }) = kept else {
        return Err(NoMemory);
    };
    Ok(Composed {
        frames: Several::new(frames),
        replies: Several::new(replies),
        ended,
    })
}

/// Takes frames and gives their images back, turn by turn, until it is told the end, and lists them. The pass has made no call yet.
/// Where memory is short it goes on to the end without keeping frames, and answers `NoMemory`.
pub fn run_compositor<R: Wait, G: Gate>(
    context: &Context<'_, R, G>,
    pass: &mut CompositorPass,
) -> Result<Composed, NoMemory>
    requires is { IsCompositor (table_of context.now.runtime.now) pass.old }
    requires first { (pass.old.ended ≡ false) × (pass.old.calls ≡ 0) }
    requires none_held { pass.old.held.items ≡ [] }
    ensures ran { RanCompositor (table_of context.now.runtime.now) pass.old pass.new result }
    ensures gated { ComposesGated (G.came context.now.gate.now) (G.went context.now.gate.now) pass.old.seat.me.0.know pass.new.seat.me.0.know }
{
    let mut kept = Some(Frames {
        frames: Vec::new(context.alloc),
        replies: Vec::new(context.alloc),
    });
    let mut turns = 0;
    for _ in context.rt.forever() {
        turns += 1;
        let mut shown = Shown::default();
        context.gate.before(Actor::Compositor, turns, pass.seat());
        let turned = turn(context.runtime, context.rt, pass, &mut shown);
        context.gate.after(Actor::Compositor, turns, pass.seat());
        match turned {
            Turned::Shown(reply) => kept = with_frame(kept, shown, reply),
            Turned::Ended(reply) => return list(kept, reply),
        }
    }
    unreachable!()
}
