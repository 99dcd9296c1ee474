// The core, and the calls of its actors in their turns.
ghost use Rattle.std.specs.Prelude.{◌≡◌, ◌≤◌, ◌≤ℤ◌, pos, true, false, IfOk, not};
ghost use Rattle.xr_types.specs.declared.limits.TheConstants.{MOST_SCRIPTS};
ghost use Rattle.xr_types.specs.declared.calls.Actor.TheVariants.{Compositor};
ghost use Rattle.xr_model.specs.machine.Machine.{ready};
ghost use Rattle.xr_types.specs.declared.calls.Call.TheVariants as ask;
ghost use Rattle.xr_model.specs.machine.State.{with_apps, opening};
ghost use Rattle.xr_model.specs.machine.Frames.{is_empty};
ghost use Rattle.xr_serial.specs.inside.Made.{asked};

use crate::calls::Lender;
use std::alloc::Global;
use std::marker::Model;
use xr_core::PlainCore;
use xr_scenario_calls::Scratch;
use xr_types::NoMemory;

/// The core with what its calls are lent, and the room where the lists of a call stand while it is made. Contracts see it as the
/// machine's state.
#[derive(Drop)]
pub(crate) struct Machine {
    pub(crate) lender: Lender,
    pub(crate) scratch: Scratch,
}

impl Model for Machine {
    ghost use Rattle.xr_model.specs.machine.State.{State};

    ghost Value = { State };

    ghost view = { λ m. m.lender };
}

impl Machine {
    /// A machine of 1 to 8 applications before any call.
    pub(crate) fn start(alloc: Global, apps: u8) -> Result<Machine, NoMemory>
        requires some { 1 ≤ apps }
        requires few { apps ≤ MOST_SCRIPTS }
        ensures { IfOk result (λ machine. machine ≡ opening (with_apps apps)) }
    {
        let core = PlainCore::start(alloc, apps)?;
        let scratch = Scratch::start(alloc)?;
        Ok(Machine {
            lender: Lender::new(core),
            scratch,
        })
    }

    /// The device's clock, in ns of device time, never negative.
    pub(crate) fn clock(&self) -> i64
        ensures clock { result ≡ self.now.core.device.clock }
        ensures begun { pos 0 ≤ℤ result }
    {
        self.lender.core.clock()
    }

    /// How many locked calls were answered.
    pub(crate) fn calls(&self) -> u64
        ensures { result ≡ self.now.core.locked }
    {
        self.lender.core.calls()
    }

    /// Whether the compositor holds images, which it gives back before it asks for a frame.
    pub(crate) fn holds_images(&self) -> bool
        ensures { result ≡ not (is_empty self.now.cells.held) }
    {
        self.lender.core.held() > 0
    }

    /// Whether the compositor's next call has to wait.
    #[tactic(auto, using(crate::proofs::Ops::frame_held_back))]
    pub(crate) fn next_frame_waits(&self) -> bool
        ensures { result ≡ true → ready self.now (asked Compositor ask.NextFrame) ≡ false }
    {
        self.lender.core.next_frame_waits()
    }
}
