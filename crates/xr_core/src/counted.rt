// A core: its inside decides each call, and here alone it is counted.
ghost use Rattle.std.specs.Prelude.{◌≡◌, ◌≤ℤ◌, pos, ◌≤◌, [], ◌<◌, ◌^◌, ◌+◌, ◌↔◌, ◌&&◌, is_none, IfOk, IsTrue, length, not, if◌then◌else◌};
ghost use Rattle.xr_types.specs.declared.limits.TheConstants.{MOST_SCRIPTS};
ghost use Rattle.xr_types.specs.CallKinds.{is_getter, is_locked, publishes};
ghost use Rattle.xr_model.specs.machine.Marks.{is_set};
ghost use Rattle.xr_model.specs.machine.State.{with_apps, opening_core};
ghost use Rattle.xr_model.specs.machine.Machine.{IsPresent};
ghost use Rattle.xr_model.specs.machine.Refusals.{first_of};
ghost use Rattle.xr_model.specs.machine.Rule.{refusals};
ghost use Rattle.xr_model.specs.machine.Rules.Frames.{wait_frame_rule, is_frame_awaited};
ghost use Rattle.xr_model.specs.laws.ImageWords.{late_of};
ghost use Rattle.xr_model.specs.machine.CoreCalls.{MayMake};
ghost use Rattle.xr_model.specs.machine.OverCells.{MayApply, AppliesOver, world};

use crate::calls::is_up;
use crate::halt::{Halt, refusal};
use crate::uncounted::Uncounted;
use arrayvec::ArrayVec;
use std::alloc::Global;
use std::marker::Model;
use xr_model::{Cells, Machine};
use xr_types::{Actor, Call, Image, MOST_LAYERS, NoMemory, Reply, Shown, Step};

/// What the machine of one thread has beside its cells: what it keeps, and the images of the frame taken last that aren't given
/// back. Memory for path texts and suggestions is taken from its allocator.
#[derive(Drop)]
pub struct Core {
    pub(crate) inside: Uncounted,
    /// How many locked calls were answered.
    pub(crate) calls: u64,
    /// The place of the call that published last what getters answer from, or 0.
    pub(crate) published: u64,
    pub(crate) alloc: Global,
}

impl Model for Core {
    ghost use Rattle.std.specs.Prelude.{◌≤◌, length};
    ghost use Rattle.xr_model.specs.machine.State.{WholeCore};

    ghost Value = { WholeCore };

    ghost view = { λ c. record c.inside { kept = record c.inside.kept { locked = c.calls; published = c.published } } };

    ghost invariant = { λ c. (length c.inside.kept.handles.given ≤ c.calls) × (c.inside.kept.created ≤ c.calls) × (c.inside.kept.ended ≤ c.calls) };
}

/// Answers a call that is made. It is counted where it is a locked one, and what it publishes has its place.
fn answered(calls: &mut u64, published: &mut u64, call: &Call<'_>, mut reply: Reply) -> Step
    requires { calls.old < 2 ^ 44 }
    ensures count { calls.new ≡ (if is_locked call.now then calls.old + 1 else calls.old) }
    ensures published { published.new ≡ (if publishes call.now reply.code then calls.old + 1 else published.old) }
    ensures reply { result ≡ Step.Done (record reply { place = if is_locked call.now then calls.old + 1 else (if is_getter call.now then published.old else 0) }) }
{
    let place = *calls + 1;
    reply.place = if call.is_locked() {
        place
    } else if call.is_getter() {
        *published
    } else {
        0
    };
    if call.publishes(reply.code) {
        *published = place;
    }
    if call.is_locked() {
        *calls = place;
    }
    Step::Done(reply)
}

impl Core {
    /// A core of 1 to 8 applications before any call. Takes all memory but that of new path texts and of suggestions.
    pub fn start(alloc: Global, apps: u8) -> Result<Core, NoMemory>
        requires some { 1 ≤ apps }
        requires few { apps ≤ MOST_SCRIPTS }
        ensures { IfOk result (λ core. core ≡ record { kept = opening_core (with_apps apps); held = [] }) }
    {
        let inside = Uncounted::start(alloc, apps)?;
        Ok(Core {
            inside,
            calls: 0,
            published: 0,
            alloc,
        })
    }

    /// How many locked calls were answered.
    pub fn calls(&self) -> u64
        ensures { result ≡ self.now.kept.locked }
    {
        self.calls
    }

    /// Whether there is such an application, from 1, and it hasn't left: whether it may make calls.
    pub fn is_present(&self, app: u8) -> bool
        ensures { IsTrue result ↔ IsPresent self.now.kept (Actor.App app) }
    {
        self.inside.parts.is_present(app)
    }

    /// The device's clock, in ns of device time, never negative.
    pub fn clock(&self) -> i64
        ensures clock { result ≡ self.now.kept.device.clock }
        ensures begun { pos 0 ≤ℤ result }
    {
        self.inside.parts.clock()
    }

    /// Whether `AwaitMark` of this mark, from 1 to 64, has to wait: it isn't set yet.
    pub fn await_waits(&self, mark: u8) -> bool
        ensures { result ≡ not (is_set self.now.kept.marks mark) }
    {
        self.inside.parts.mark_value(mark).is_none()
    }

    /// Whether `WaitFrame` of this session has to wait: a frame of it is waited for, or more than two are pending, of all sessions,
    /// or begun, of its own; and nothing refuses the call.
    pub fn wait_frame_waits(&self, session: u64) -> bool
        ensures { result ≡ ((wait_frame_rule self.now.kept session).waits && is_none (first_of (refusals (wait_frame_rule self.now.kept session)))) }
    {
        self.inside.parts.wait_frame_waits(session)
    }

    /// Whether the compositor's `NextFrame` has to wait where it holds no image: no frame is pending, and some application
    /// hasn't left.
    pub fn next_frame_waits(&self) -> bool
        ensures { result ≡ is_frame_awaited self.now.kept }
    {
        self.inside.parts.next_frame_waits()
    }

    /// The images of the frame taken last that aren't given back, in order.
    pub fn taken(&self) -> &[Image]
        ensures { result.now ≡ self.now.held }
    {
        self.inside.held.as_slice()
    }

    /// The same as a list of its own, for who keeps it beside the core.
    pub fn copy_taken(&self) -> ArrayVec<Image, MOST_LAYERS>
        ensures { result.items ≡ self.now.held }
    {
        self.inside.copy_held()
    }

    /// Forgets which images aren't given back, where this is kept beside the core.
    pub fn settle(&mut self)
        ensures { self.new ≡ record self.old { held = [] } }
    {
        self.inside.settle();
    }

    /// Whether a call is a wait for an image whose time is up by now.
    pub fn is_late(&self, call: &Call<'_>) -> bool
        ensures { result ≡ late_of self.now.kept.device.clock call.now }
    {
        let Call::WaitImage { timeout, start, .. } = call else {
            return false;
        };
        is_up(self.clock(), timeout, start)
    }

    /// Makes a call, or says that it has to wait and leaves all as it was. `text` is the buffer that
    /// `path_to_string` is lent, of the call's `capacity`; for other calls it may have any size and stays. `shown` is the place
    /// for the frame that `NextFrame` shows; it stays where none is.
    /// By what the cells tell, the reply is the machine's to an allowed entry: it gives a handle exactly where a creation
    /// succeeds, and `OutOfMemory` comes only to a new path text that would else be interned, and to suggestions that would
    /// else be taken. The calls on cells that it makes are those of the machine's step, in order.
    pub fn apply<C: Cells>(
        &mut self,
        cells: &mut C,
        who: Actor,
        call: &Call<'_>,
        text: &mut [u8],
        shown: &mut Shown,
    ) -> Step
        requires calls { self.old.kept.locked < 2 ^ 44 }
        requires may { MayMake self.old.kept who call.now (length text.old) }
        requires cells { MayApply C.may C.does self.old cells.old who call.now }
        ensures { AppliesOver C.does (world self.old cells.old text.old shown.old) (world self.new cells.new text.new shown.new) who call.now result }
    {
        let reply = match self
            .inside
            .decide(self.alloc, cells, who, call, text, shown)
        {
            Ok(reply) => reply,
            Err(Halt::Refused(code)) => refusal(code),
            Err(Halt::NotReady) => return Step::NotReady,
        };
        answered(&mut self.calls, &mut self.published, call, reply)
    }
}

/// It stands for each state that keeps what it keeps, whatever the cells are and whichever images are held.
impl Machine for Core {
    ghost use Rattle.std.specs.Prelude.{◌≡◌};

    ghost stands = { λ c s. c.kept ≡ s.core };
}
