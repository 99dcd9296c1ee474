//! A turn of the compositor: a frame is taken and shown, and all of its images are given back, without the lock. It knows no lists,
//! scripts or threads.
#![tactic(auto)]

ghost use Rattle.std.specs.Prelude.{◌≡◌, ◌+◌, ◌<◌, ◌^◌, [], false, length};
ghost use Rattle.xr_runtime.specs.Passes.{table_of, IsCompositor};
ghost use Rattle.xr_compositor.specs.Turns.{Turns, GaveOneBack, GaveAllBack};

use std::sync::Wait;
use xr_runtime::{CompositorPass, Runtime};
use xr_types::{Gives, Reply, Shown};

/// What a turn came to, with the reply to its request for a frame.
#[derive(Clone, Copy)]
pub enum Turned {
    /// A frame was shown.
    Shown(Reply),
    /// Every application has left and no frame is pending.
    Ended(Reply),
}

// Gives one image back.
fn give_back(runtime: &Runtime, pass: &mut CompositorPass)
    requires is { IsCompositor (table_of runtime.now) pass.old }
    requires unended { pass.old.ended ≡ false }
    requires few { pass.old.calls < 2 ^ 63 }
    requires some_held { 0 < length pass.old.held.items }
    ensures gave { GaveOneBack (table_of runtime.now) pass.old pass.new }
{
    runtime.image_done(pass);
}

// Gives back all images that are held.
fn give_all_back(runtime: &Runtime, pass: &mut CompositorPass)
    requires is { IsCompositor (table_of runtime.now) pass.old }
    requires unended { pass.old.ended ≡ false }
    requires few { pass.old.calls + length pass.old.held.items < 2 ^ 63 }
    ensures gave { GaveAllBack (table_of runtime.now) pass.old pass.new }
{
    while pass.held() > 0 {
        give_back(runtime, pass);
    }
}

/// Takes the next frame, waiting until there is one, and gives back all of its images; or is told the end. `out` is the frame that
/// was shown, and stays as it is at the end. This project's own.
pub fn turn<R: Wait>(
    runtime: &Runtime,
    rt: &R,
    pass: &mut CompositorPass,
    out: &mut Shown,
) -> Turned
    requires is { IsCompositor (table_of runtime.now) pass.old }
    requires unended { pass.old.ended ≡ false }
    requires few { pass.old.calls < 2 ^ 62 }
    requires none_held { pass.old.held.items ≡ [] }
    ensures turns { Turns (table_of runtime.now) pass.old out.old out.new result pass.new }
{
    let reply = runtime.next_frame(rt, pass, out);
    match reply.gives {
        Gives::Shown => {
            give_all_back(runtime, pass);
            Turned::Shown(reply)
        }
        Gives::Ended => Turned::Ended(reply),
        _ => unreachable!(),
    }
}
