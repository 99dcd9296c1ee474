// A core and plain cells as one value, seen as the whole state. It knows no call.
ghost use Rattle.std.specs.Prelude.{◌≡◌, ◌≤ℤ◌, pos, ◌≤◌, ◌<◌, ◌^◌, ◌↔◌, ◌&&◌, [], is_none, IfOk, IsTrue, length, not};
ghost use Rattle.xr_types.specs.declared.limits.TheConstants.{MOST_SCRIPTS};
ghost use Rattle.xr_model.specs.machine.Marks.{is_set};
ghost use Rattle.xr_model.specs.machine.State.{with_apps, opening};
ghost use Rattle.xr_model.specs.machine.Frames.{is_empty};
ghost use Rattle.xr_model.specs.machine.Machine.{IsPresent};
ghost use Rattle.xr_model.specs.machine.Refusals.{first_of};
ghost use Rattle.xr_model.specs.machine.Rule.{refusals};
ghost use Rattle.xr_model.specs.machine.Rules.Frames.{wait_frame_rule, is_frame_awaited};
ghost use Rattle.xr_model.specs.machine.CoreCalls.{MayMake, Applies};

use crate::Core;
use std::alloc::Global;
use std::marker::Model;
use xr_chains::PlainCells;
use xr_types::{Actor, Call, NoMemory, Shown, Step};

/// The machine of one thread: a core over plain cells, seen by contracts as its state.
#[derive(Drop)]
pub struct PlainCore {
    pub(crate) core: Core,
    pub(crate) cells: PlainCells,
}

impl Model for PlainCore {
    ghost use Rattle.xr_model.specs.machine.State.{State};
    ghost use Rattle.xr_core.specs.inside.Plainly.{IsPlain};

    ghost Value = { State };

    ghost view = { λ p. record { core = p.core.kept; cells = record { stamps = p.cells.stamps; held = p.core.held } } };

    ghost invariant = { λ p. IsPlain p.core p.cells };
}

impl PlainCore {
    /// A machine of 1 to 8 applications before any call. Takes all memory but that of new path texts and of suggestions.
    pub fn start(alloc: Global, apps: u8) -> Result<PlainCore, NoMemory>
        requires some { 1 ≤ apps }
        requires few { apps ≤ MOST_SCRIPTS }
        ensures { IfOk result (λ plain. plain ≡ opening (with_apps apps)) }
    {
        let core = Core::start(alloc, apps)?;
        Ok(PlainCore {
            core,
            cells: PlainCells::new(),
        })
    }

    /// How many locked calls were answered.
    pub fn calls(&self) -> u64
        ensures { result ≡ self.now.core.locked }
    {
        self.core.calls()
    }

    /// Whether there is such an application, from 1, and it hasn't left: whether it may make calls.
    pub fn is_present(&self, app: u8) -> bool
        ensures { IsTrue result ↔ IsPresent self.now.core (Actor.App app) }
    {
        self.core.is_present(app)
    }

    /// The device's clock, in ns of device time, never negative.
    pub fn clock(&self) -> i64
        ensures clock { result ≡ self.now.core.device.clock }
        ensures begun { pos 0 ≤ℤ result }
    {
        self.core.clock()
    }

    /// How many images of the frame taken last aren't given back yet.
    pub fn held(&self) -> usize
        ensures { result ≡ length self.now.cells.held }
    {
        self.core.taken().len()
    }

    /// Whether `AwaitMark` of this mark, from 1 to 64, has to wait: it isn't set yet.
    pub fn await_waits(&self, mark: u8) -> bool
        ensures { result ≡ not (is_set self.now.core.marks mark) }
    {
        self.core.await_waits(mark)
    }

    /// Whether `WaitFrame` of this session has to wait: a frame of it is waited for, or more than two are pending, of all sessions,
    /// or begun, of its own; and nothing refuses the call.
    pub fn wait_frame_waits(&self, session: u64) -> bool
        ensures { result ≡ ((wait_frame_rule self.now.core session).waits && is_none (first_of (refusals (wait_frame_rule self.now.core session)))) }
    {
        self.core.wait_frame_waits(session)
    }

    /// Whether the compositor's `NextFrame` has to wait: no frame is pending, some application hasn't left, and no image is held,
    /// for which the call would be refused.
    pub fn next_frame_waits(&self) -> bool
        ensures { result ≡ (is_frame_awaited self.now.core && is_empty self.now.cells.held) }
    {
        self.core.next_frame_waits() && self.core.taken().is_empty()
    }

    /// Makes a call, or says that it has to wait and leaves all as it was. `text` is the buffer that
    /// `path_to_string` is lent, of the call's `capacity`; for other calls it may have any size and stays. `shown` is the place
    /// for the frame that `NextFrame` shows; it stays where none is.
    /// The reply is the machine's to an allowed entry: it gives a handle exactly where a creation succeeds, and
    /// `OutOfMemory` comes only to a new path text that would else be interned, and to suggestions that would else be taken.
    #[inline(always)]
    pub fn apply(&mut self, who: Actor, call: &Call<'_>, text: &mut [u8], shown: &mut Shown) -> Step
        requires calls { self.old.core.locked < 2 ^ 44 }
        requires may { MayMake self.old.core who call.now (length text.old) }
        ensures { Applies self.old self.new who call.now (record { text = text.old; frame = shown.old }) (record { text = text.new; frame = shown.new }) result }
    {
        self.core.apply(&mut self.cells, who, call, text, shown)
    }
}
