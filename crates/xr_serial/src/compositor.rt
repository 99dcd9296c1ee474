// The compositor's side of a run: the frames that it was shown.
ghost use Rattle.std.specs.Prelude.{◌≡◌, ◌<◌, ◌^◌, [], false, None, IfOk, OnOk};
ghost use Rattle.xr_model.specs.machine.Frames.{is_empty};
ghost use Rattle.xr_types.specs.declared.calls.Call.TheVariants as ask;
ghost use Rattle.xr_serial.specs.inside.Made.{frame_shown};
ghost use Rattle.xr_serial.specs.inside.Sides.{compositor_with, FrameTurn, ImageReturned};

use crate::machine::Machine;
use std::alloc::Global;
use std::marker::Model;
use xr_types::{Gives, NoMemory, Reply, Shown};

/// A compositor on its way: the frames that it was shown with the replies of these calls, for each image that it gave back how
/// many locked calls came before, and the reply that told it the end.
#[derive(Drop)]
pub(crate) struct CompositorSide {
    pub(crate) frames: Vec<Shown>,
    pub(crate) replies: Vec<Reply>,
    pub(crate) done: Vec<u64>,
    pub(crate) ended: Option<Reply>,
}

impl Model for CompositorSide {
    ghost use Rattle.xr_serial.specs.inside.RunState.{CompositorState};

    ghost Value = { CompositorState };

    ghost view = { λ c. record { frames = c.frames.items; replies = c.replies.items; done = c.done.items; ended = c.ended } };
}

impl CompositorSide {
    /// A compositor before its first frame. Takes no memory.
    pub(crate) fn new(alloc: Global) -> CompositorSide
        ensures { result ≡ record { frames = []; replies = []; done = []; ended = None } }
    {
        CompositorSide {
            frames: Vec::new(alloc),
            replies: Vec::new(alloc),
            done: Vec::new(alloc),
            ended: None,
        }
    }

    /// Keeps what its call came to: a frame, or the end.
    fn keep(&mut self, reply: Reply, shown: Shown) -> Result<(), NoMemory>
        ensures { OnOk result (self.new ≡ compositor_with self.old reply (frame_shown ask.NextFrame reply.gives shown)) }
    {
        if !matches!(reply.gives, Gives::Shown) {
            self.ended = Some(reply);
            return Ok(());
        }
        self.frames.push(shown)?;
        self.replies.push(reply)?;
        Ok(())
    }

    /// Gives back one of the images that it holds.
    pub(crate) fn give_back(&mut self, machine: &mut Machine) -> Result<(), NoMemory>
        requires calls { machine.old.core.locked < 2 ^ 44 }
        requires holds { is_empty machine.old.cells.held ≡ false }
        ensures { OnOk result (ImageReturned self.old self.new machine.old machine.new) }
    {
        let before = machine.calls();
        if machine.lender.give_back().is_none() {
            unreachable!()
        }
        self.done.push(before)?;
        Ok(())
    }

    /// Asks for a frame, where it holds no image, unless that has to wait: it is shown one, or told the end; whether it was.
    pub(crate) fn take(&mut self, machine: &mut Machine) -> Result<bool, NoMemory>
        requires calls { machine.old.core.locked < 2 ^ 44 }
        requires unheld { machine.old.cells.held ≡ [] }
        ensures { IfOk result (λ went. FrameTurn self.old self.new machine.old machine.new went) }
    {
        if machine.next_frame_waits() {
            return Ok(false);
        }
        self.take_next(machine)
    }

    // Asks for a frame. It is kept apart, since the place of a frame is cleared where it is made, and most turns ask for none.
    #[inline(never)]
    fn take_next(&mut self, machine: &mut Machine) -> Result<bool, NoMemory>
        requires calls { machine.old.core.locked < 2 ^ 44 }
        requires unheld { machine.old.cells.held ≡ [] }
        ensures { IfOk result (λ went. FrameTurn self.old self.new machine.old machine.new went) }
    {
        let mut shown = Shown::default();
        let Some(reply) = machine.lender.next_frame(&mut shown) else {
            return Ok(false);
        };
        self.keep(reply, shown)?;
        Ok(true)
    }
}
