//! The calls of the compositor and of the device.
ghost use Rattle.std.specs.Prelude.{◌≡◌, ◌<◌, ◌^◌, ℕ, List, [], false, true, length};
ghost use Rattle.xr_types.specs.Device.{checks};
ghost use Rattle.xr_model.specs.laws.FewCalls.{is_end};
ghost use Rattle.xr_model.specs.machine.CoreCalls.{Lent, as_lent};
ghost use Rattle.xr_types.specs.declared.calls.Call.TheVariants as ask;
ghost use Rattle.xr_runtime.specs.Passes.{table_of, IsCompositor, Composes, IsDevice, Tells};

use crate::calling::{Answered, Runtime};
use crate::passes::{CompositorPass, DevicePass};
use std::sync::Wait;
use xr_lock::ring;
use xr_types::{Actor, Call, Code, DeviceEvent, Gives, Reply, Shown};
use xr_words::give_back;

// whether a reply tells the end
fn is_told_end(reply: &Reply) -> bool
    ensures { result ≡ is_end reply.now.gives }
{
    matches!(reply.gives, Gives::Ended)
}

impl Runtime {
    /// Asks for the next frame, or for the end, and waits until there is one. This project's own.
    pub fn next_frame<R: Wait>(&self, rt: &R, pass: &mut CompositorPass, out: &mut Shown) -> Reply
        requires is { IsCompositor (table_of self.now) pass.old }
        requires unended { pass.old.ended ≡ false }
        requires few { pass.old.calls < 2 ^ 63 }
        requires none_held { pass.old.held.items ≡ [] }
        ensures called { (text : List ℕ) × Composes (table_of self.now) pass.old ask.NextFrame (as_lent [] out.old) (as_lent text out.new) result pass.new }
    {
        let Answered { reply, taken, .. } = self.make(
            rt,
            &mut pass.seat,
            Actor::Compositor,
            &Call::NextFrame,
            &mut [],
            out,
        );
        pass.calls += 1;
        pass.held = taken;
        pass.ended = is_told_end(&reply);
        reply
    }

    /// Gives back the first image of the taken frame that isn't given back. It never waits: the image's own word decides it, also while
    /// another thread has the lock. This project's own.
    pub fn image_done(&self, pass: &mut CompositorPass) -> Reply
        requires is { IsCompositor (table_of self.now) pass.old }
        requires unended { pass.old.ended ≡ false }
        requires few { pass.old.calls < 2 ^ 63 }
        requires some_held { 0 < length pass.old.held.items }
        ensures called { (before : Lent) × (after : Lent) × Composes (table_of self.now) pass.old ask.ImageDone before after result pass.new }
    {
        let image = pass.held.remove(0);
        give_back(&self.table, &mut pass.seat, image);
        ring(&self.table.beside.images);
        pass.calls += 1;
        Reply {
            code: Code::Success,
            gives: Gives::Nothing,
            place: 0,
        }
    }

    /// Tells what happens at the device. This project's own.
    pub fn device<R: Wait>(&self, rt: &R, pass: &mut DevicePass, event: DeviceEvent) -> Reply
        requires is { IsDevice (table_of self.now) pass.old }
        requires few { pass.old.calls < 2 ^ 40 }
        requires checks { checks event ≡ true }
        ensures called { Tells (table_of self.now) pass.old (ask.Device event) result pass.new }
    {
        let mut shown = Shown::default();
        let answered = self.make(
            rt,
            &mut pass.seat,
            Actor::Device,
            &Call::Device(event),
            &mut [],
            &mut shown,
        );
        pass.calls += 1;
        answered.reply
    }
}
