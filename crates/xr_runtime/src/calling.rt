// One private call under the lock, which every public call but one is made of.
ghost use Rattle.std.specs.Prelude.{◌≡◌, true, [], length};
ghost use Rattle.xr_model.specs.laws.ImageLaws.{is_next_frame};
ghost use Rattle.xr_model.specs.machine.CoreCalls.{as_lent};
ghost use Rattle.xr_rule.specs.Seats.{stands_in};
ghost use Rattle.xr_runtime.specs.Calling.{MayMake, Called, CalledOrWaited, Reads};
ghost use Rattle.xr_runtime.specs.Settling.{MaySettle, Settles, keeps};

use crate::lending::{Told, lend};
use arrayvec::ArrayVec;
use std::sync::Wait;
use xr_core::Core;
use xr_lock::{Listener, Lock};
use xr_rule::{Held, XrSeat, XrTable};
use xr_snap::publish;
use xr_types::{Actor, Call, Image, MOST_LAYERS, Reply, Shown, Step};

/// A runtime that threads share: a core under a lock, and the words of images beside it.
#[derive(Drop)]
pub struct Runtime {
    pub(crate) table: XrTable<Core>,
}

// What the private call tells: the reply, the device's clock behind the call, and the images of a frame that it took.
#[derive(Drop)]
pub(crate) struct Answered {
    pub(crate) reply: Reply,
    pub(crate) clock: i64,
    pub(crate) taken: ArrayVec<Image, MOST_LAYERS>,
}

// Before a frame is asked for, the core's own list of images is emptied: the compositor has given all of them back.
fn settle_before(core: &mut Core, call: &Call<'_>)
    ensures kept { core.new.kept ≡ core.old.kept }
    ensures none { is_next_frame call.now ≡ true → core.new.held ≡ [] }
{
    if let Call::NextFrame = call {
        core.settle();
    }
}

// the images of the frame that a call took
fn taken_by(core: &Core, call: &Call<'_>) -> ArrayVec<Image, MOST_LAYERS>
    ensures { is_next_frame call.now ≡ true → result.items ≡ core.now.held }
{
    match call {
        Call::NextFrame => core.copy_taken(),
        _ => ArrayVec::new(),
    }
}

impl Runtime {
    // Notes a call that was made, unless a claim has decided it. Where the call publishes, what getters answer from is published behind
    // it, and that decides it.
    fn settle(
        &self,
        seat: &mut XrSeat<Core>,
        held: &mut Held<Core>,
        call: &Call<'_>,
        reply: &Reply,
        decided: bool,
    )
        requires own { seat.old.table_id ≡ self.now.table.table.shared.table_id }
        requires may { MaySettle (stands_in keeps) seat.old.me held.old call.now reply.now decided }
        ensures own { seat.new.table_id ≡ seat.old.table_id }
        ensures kept { held.new.value ≡ held.old.value }
        ensures settled { Settles decided seat.old.me held.old.counts call.now reply.now seat.new.me held.new.counts }
    {
        if decided {
            return;
        }
        let lock = Lock { table: &self.table };
        lock.note(seat, held, call, reply);
        if call.publishes(reply.code) {
            held.value.view(&mut held.room);
            publish(&self.table, seat, held);
        }
    }

    // Takes the lock, makes the call where it is ready, settles it, and gives the value back.
    pub(crate) fn make_once<R: Wait>(
        &self,
        rt: &R,
        seat: &mut XrSeat<Core>,
        who: Actor,
        call: &Call<'_>,
        text: &mut [u8],
        shown: &mut Shown,
    ) -> Option<Answered>
        requires own { seat.old.table_id ≡ self.now.table.table.shared.table_id }
        requires may { MayMake seat.old.me who call.now (length text.old) }
        ensures own { seat.new.table_id ≡ seat.old.table_id }
        ensures made { CalledOrWaited seat.old.me call.now result (as_lent text.old shown.old) (as_lent text.new shown.new) seat.new.me }
    {
        let lock = Lock { table: &self.table };
        let mut held = lock.take(rt, seat);
        let core: &mut Core = &mut held.value;
        settle_before(core, call);
        let Told { step, decided } = lend(&self.table, seat, core, who, call, text, shown);
        match step {
            Step::Done(reply) => {
                let clock = core.clock();
                let taken = taken_by(core, call);
                self.settle(seat, &mut held, call, &reply, decided);
                lock.give(seat, held);
                self.ring_behind(call, reply.code);
                Some(Answered {
                    reply,
                    clock,
                    taken,
                })
            }
            Step::NotReady => {
                lock.give(seat, held);
                None
            }
        }
    }

    // Makes the call, once it is ready: where it isn't, it waits at a bell until another's call may have made it so.
    pub(crate) fn make<R: Wait>(
        &self,
        rt: &R,
        seat: &mut XrSeat<Core>,
        who: Actor,
        call: &Call<'_>,
        text: &mut [u8],
        shown: &mut Shown,
    ) -> Answered
        requires own { seat.old.table_id ≡ self.now.table.table.shared.table_id }
        requires may { MayMake seat.old.me who call.now (length text.old) }
        ensures own { seat.new.table_id ≡ seat.old.table_id }
        ensures called { Called seat.old.me call.now result.reply (as_lent text.old shown.old) (as_lent text.new shown.new) seat.new.me }
        ensures reads { Reads seat.new.me.0.know call.now result.clock result.taken.items }
    {
        let mut listener = Listener::new(self.bell_of(call));
        for _ in rt.forever() {
            listener.listen();
            if let Some(answered) = self.make_once(rt, seat, who, call, text, shown) {
                listener.leave();
                return answered;
            }
            listener.wait(rt);
        }
        unreachable!()
    }
}
