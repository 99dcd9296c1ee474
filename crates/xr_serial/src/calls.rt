// Calls on the core, with what they are lent. A call that is made is kept at once in the list of its actor, where it stays.
ghost use Rattle.std.specs.Prelude.{◌≡◌, ◌≤◌, ◌<◌, ◌^◌, IfOk, length, take};
ghost use Rattle.xr_types.specs.declared.limits.TheConstants.{MOST_CAPACITY};
ghost use Rattle.xr_types.specs.declared.calls.Actor.TheVariants.{Compositor};
ghost use Rattle.xr_types.specs.declared.frames.Shown.{Shown};
ghost use Rattle.xr_types.specs.declared.calls.Call.TheVariants as ask;
ghost use Rattle.xr_model.specs.machine.Machine.{IsPresent};
ghost use Rattle.xr_model.specs.machine.CoreCalls.{MayAsk, Applies, as_lent};
ghost use Rattle.xr_serial.specs.inside.Made.{CallTurn, ComposedOrWaits};
ghost use Rattle.xr_types.specs.CallKinds.{lent_size};

use std::alloc::Global;
use std::marker::Model;
use xr_core::PlainCore;
use xr_runs::MOST_LENT;
use xr_types::{Actor, Bytes, Call, Made, NoMemory, Reply, Shown, Step};

/// The core, with the buffer that its calls are lent. Contracts see it as the machine's state.
#[derive(Drop)]
pub(crate) struct Lender {
    pub(crate) core: PlainCore,
    buffer: [u8; MOST_LENT],
}

impl Model for Lender {
    ghost use Rattle.xr_model.specs.machine.State.{State};

    ghost Value = { State };

    ghost view = { λ l. l.core };
}

/// Makes a call, which is lent the front of a buffer, or says that it has to wait.
fn ask(
    core: &mut PlainCore,
    who: Actor,
    call: &Call<'_>,
    buffer: &mut [u8],
    shown: &mut Shown,
) -> Step
    requires calls { core.old.core.locked < 2 ^ 44 }
    requires asks { MayAsk who call.now (lent_size call.now) }
    requires present { IsPresent core.old.core who }
    requires few { lent_size call.now ≤ length buffer.old }
    ensures applies { Applies core.old core.new who call.now (as_lent (take (lent_size call.now) buffer.old) shown.old) (as_lent (take (lent_size call.now) buffer.new) shown.new) result }
    ensures size { length buffer.new ≡ length buffer.old }
{
    let lent = &mut buffer[..call.lent_size() as usize];
    core.apply(who, call, lent, shown)
}

/// Makes a call of the compositor, which is lent no buffer, or says by nothing that it has to wait. The frame that it shows is left in
/// `frame`.
fn compose(core: &mut PlainCore, call: &Call<'_>, frame: &mut Shown) -> Option<Reply>
    requires calls { core.old.core.locked < 2 ^ 44 }
    requires asks { MayAsk Compositor call.now 0 }
    requires unlent { lent_size call.now ≡ 0 }
    ensures { ComposedOrWaits core.old core.new call.now frame.new result }
{
    match core.apply(Actor::Compositor, call, &mut [], frame) {
        Step::Done(reply) => Some(reply),
        Step::NotReady => None,
    }
}

impl Lender {
    /// This core, and a buffer in which nothing stands yet.
    pub(crate) fn new(core: PlainCore) -> Lender
        ensures { result ≡ core }
    {
        Lender {
            core,
            buffer: [0; MOST_LENT],
        }
    }

    /// Makes a call, which is lent as many bytes as it asks for, and lists it with what it came to at the end of its actor's list, as
    /// the call of the op at this place from 1; or leaves all as it was, where it has to wait. Tells whether it was made. Refused
    /// only by want of memory.
    pub(crate) fn make(
        &mut self,
        alloc: Global,
        who: Actor,
        call: &Call<'_>,
        place: u32,
        list: &mut Vec<Made>,
    ) -> Result<bool, NoMemory>
        requires calls { self.old.core.locked < 2 ^ 44 }
        requires asks { MayAsk who call.now (lent_size call.now) }
        requires present { IsPresent self.old.core who }
        requires few { lent_size call.now ≤ MOST_CAPACITY }
        ensures { IfOk result (λ went. CallTurn self.old self.new who call.now place list.old.items list.new.items went) }
    {
        let Lender { core, buffer } = self;
        let mut shown = Shown::default();
        let Step::Done(reply) = ask(core, who, call, buffer, &mut shown) else {
            return Ok(false);
        };
        let written = reply.gives.written_size(call.lent_size()) as usize;
        let text = Bytes::from_slice(alloc, &buffer[..written])?;
        list.push(call.listed(place, reply, text))?;
        Ok(true)
    }

    /// Makes the compositor's call for a frame, or says by nothing that it has to wait. The frame that it shows is left in `frame`.
    pub(crate) fn next_frame(&mut self, frame: &mut Shown) -> Option<Reply>
        requires calls { self.old.core.locked < 2 ^ 44 }
        ensures { ComposedOrWaits self.old self.new ask.NextFrame frame.new result }
    {
        compose(&mut self.core, &Call::NextFrame, frame)
    }

    /// Gives back the image that the compositor has held longest, or says by nothing that this has to wait.
    pub(crate) fn give_back(&mut self) -> Option<Reply>
        requires calls { self.old.core.locked < 2 ^ 44 }
        ensures { (frame : Shown) × ComposedOrWaits self.old self.new ask.ImageDone frame result }
    {
        compose(&mut self.core, &Call::ImageDone, &mut Shown::default())
    }
}
