//! The call of an application, which every named one is a line over.
ghost use Rattle.std.specs.Prelude.{◌≡◌, ℕ, true, List, if◌then◌else◌, length};
ghost use Rattle.xr_types.specs.declared.calls.Actor.TheVariants.{App};
ghost use Rattle.xr_model.specs.machine.CoreCalls.{as_lent, MayAsk};
ghost use Rattle.xr_model.specs.machine.History.{StartsAt};
ghost use Rattle.xr_types.specs.CallKinds.{is_getter, is_locked, with_start};
ghost use Rattle.xr_runtime.specs.Passes.{table_of, MayCall, AppMay, AppCalls, AnswersText};

use crate::calling::{Answered, Runtime};
use crate::passes::AppPass;
use std::sync::Wait;
use xr_snap::read;
use xr_types::{Actor, Call, Reply, Shown};

// the clock at which a wait begins behind a call: a call that is counted moves it
fn next_clock(call: &Call<'_>, pass: &AppPass, answered: &Answered) -> i64
    ensures { result ≡ (if is_locked call.now then answered.now.clock else pass.now.clock) }
{
    if call.is_locked() {
        answered.clock
    } else {
        pass.clock
    }
}

impl Runtime {
    // Makes a call of an application, which is lent so much.
    fn lent<R: Wait>(
        &self,
        rt: &R,
        pass: &mut AppPass,
        call: &Call<'_>,
        text: &mut [u8],
        shown: &mut Shown,
    ) -> Reply
        requires may { MayCall (table_of self.now) pass.old }
        requires asks { MayAsk (App pass.old.app) call.now (length text.old) }
        requires starts { StartsAt pass.old.clock call.now }
        ensures called { AppCalls (table_of self.now) pass.old call.now (as_lent text.old shown.old) (as_lent text.new shown.new) result pass.new }
    {
        let answered = self.make(rt, &mut pass.seat, Actor::App(pass.app), call, text, shown);
        pass.calls += 1;
        pass.left = call.is_leave();
        pass.clock = next_clock(call, pass, &answered);
        answered.reply
    }

    // Makes a getter of an application, which is answered by what was published last. It never waits.
    pub(crate) fn getter(&self, pass: &mut AppPass, call: &Call<'_>) -> Reply
        requires may { MayCall (table_of self.now) pass.old }
        requires getter { is_getter call.now ≡ true }
        ensures called { (text : List ℕ) → AnswersText (table_of self.now) pass.old call.now text text result pass.new }
    {
        let reply = read(&self.table, &mut pass.seat, call);
        pass.calls += 1;
        reply
    }

    /// Makes any call of an application over the buffer that the call asks for: `path_to_string` is lent as many bytes as its capacity,
    /// and any other call may be lent none. A wait for an image begins at the pass's clock, whatever start the call has. A getter never
    /// waits: it reads what was published last, also while another thread has the lock.
    pub fn call<R: Wait>(
        &self,
        rt: &R,
        pass: &mut AppPass,
        call: &Call<'_>,
        text: &mut [u8],
    ) -> Reply
        requires may { AppMay (table_of self.now) pass.old call.now (length text.old) }
        ensures called { AnswersText (table_of self.now) pass.old (with_start pass.old.clock call.now) text.old text.new result pass.new }
    {
        if call.is_getter() {
            return self.getter(pass, call);
        }
        let mut shown = Shown::default();
        match call {
            Call::WaitImage { chain, timeout, .. } => {
                let start = pass.clock;
                let begun = Call::WaitImage {
                    chain: *chain,
                    timeout: *timeout,
                    start,
                };
                self.lent(rt, pass, &begun, text, &mut shown)
            }
            _ => self.lent(rt, pass, call, text, &mut shown),
        }
    }
}
