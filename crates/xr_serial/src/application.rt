// An application of a run: how far it is in its script, and what its calls gave.
ghost use Rattle.std.specs.Prelude.{◌≡◌, ◌<◌, ◌≤ℤ◌, ◌^◌, ℕ, ℤ, pos, true, false, IfOk, OnOk, length};
ghost use Rattle.xr_types.specs.declared.calls.Actor.TheVariants.{App};
ghost use Rattle.xr_model.specs.scenario.ScriptForm.{IsInForm};
ghost use Rattle.xr_model.specs.machine.Machine.{IsPresent, ready};
ghost use Rattle.xr_types.specs.CallKinds.{with_start};
ghost use Rattle.xr_model.specs.runs.Robin.{clock_behind};
ghost use Rattle.xr_model.specs.runs.Scripts.{request_for};
ghost use Rattle.xr_serial.specs.inside.Made.{asked};
ghost use Rattle.xr_serial.specs.inside.Sides.{new_app, OpTurn, Leaves};

use crate::machine::Machine;
use std::alloc::Global;
use std::marker::Model;
use xr_core::PlainCore;
use xr_scenario_calls::{Names, call_of};
use xr_types::{Actor, Call, Made, NoMemory, Op};

/// The clock at which the next wait begins, once this call was made: a getter leaves it.
fn clock_behind(clock: i64, call: &Call<'_>, core: &PlainCore) -> i64
    requires { pos 0 ≤ℤ clock }
    ensures clock { result ≡ clock_behind clock call.now core.now }
    ensures begun { pos 0 ≤ℤ result }
{
    if call.is_locked() {
        core.clock()
    } else {
        clock
    }
}

/// Whether the call of an op has to wait, where that is seen at once: it awaits a mark that isn't set, or waits for a frame and
/// is held back.
#[tactic(auto, using(crate::proofs::Ops::held_back))]
fn waits(core: &PlainCore, op: &Op, names: &Names) -> bool
    ensures { (number : ℕ) (clock : ℤ) → result ≡ true → ready core.now (asked (App number) (with_start clock (request_for names.now op.now))) ≡ false }
{
    match op {
        Op::Await { mark } => core.await_waits(*mark),
        Op::WaitFrame { session } => core.wait_frame_waits(names.value_of(*session)),
        _ => false,
    }
}

/// An application on its way: how many ops of its script were made, what its names stand for, its calls, the clock after its
/// last locked one in ns of device time, and whether it has left.
#[derive(Drop)]
pub(crate) struct Application {
    pub(crate) made: usize,
    names: Names,
    pub(crate) calls: Vec<Made>,
    clock: i64,
    pub(crate) has_left: bool,
}

impl Model for Application {
    ghost use Rattle.std.specs.Prelude.{◌<◌, ◌≤ℤ◌, ◌^◌, pos};
    ghost use Rattle.xr_serial.specs.inside.RunState.{AppState};

    ghost Value = { AppState };

    ghost view = { λ app. record { made = app.made; names = app.names; calls = app.calls.items; clock = app.clock; has_left = app.has_left } };

    ghost invariant = { λ app. (app.made < 2 ^ 22) × (pos 0 ≤ℤ app.clock) };
}

impl Application {
    /// An application before its first call.
    pub(crate) fn start(alloc: Global, ops: &[Op]) -> Result<Application, NoMemory>
        ensures { IfOk result (λ app. app ≡ new_app ops.now) }
    {
        let names = Names::start(alloc, ops.len())?;
        // One call an op, and `leave`.
        let calls = Vec::with_capacity(alloc, ops.len() + 1)?;
        Ok(Application {
            made: 0,
            names,
            calls,
            clock: 0,
            has_left: false,
        })
    }

    /// Makes the call of the next op and lists it, unless it has to wait; whether it was made. A wait for an image begins at this
    /// application's clock. A mark that isn't set and a frame that is held back are seen before the call is made up, since a script
    /// may wait for many rounds.
    pub(crate) fn make_op(
        &mut self,
        alloc: Global,
        machine: &mut Machine,
        number: u8,
        ops: &[Op],
    ) -> Result<bool, NoMemory>
        requires calls { machine.old.core.locked < 2 ^ 44 }
        requires present { IsPresent machine.old.core (App number) }
        requires few { length ops.now < 2 ^ 22 }
        requires formed { IsInForm ops.now }
        requires within { self.old.made < length ops.now }
        requires names { length self.old.names ≡ length ops.now }
        ensures { IfOk result (λ went. OpTurn number ops.now self.old self.new machine.old machine.new went) }
    {
        let op = &ops[self.made];
        let place = self.made as u32 + 1;
        let count = self.calls.len();
        let Machine { lender, scratch } = machine;
        if waits(&lender.core, op, &self.names) {
            return Ok(false);
        }
        let mut call = call_of(op, &self.names, scratch);
        call.begin_wait(self.clock);
        if !lender.make(alloc, Actor::App(number), &call, place, &mut self.calls)? {
            return Ok(false);
        }
        self.clock = clock_behind(self.clock, &call, &lender.core);
        self.names.learn(place, op, &self.calls[count].reply);
        self.made += 1;
        Ok(true)
    }

    /// Leaves, once all ops are made.
    pub(crate) fn leave(
        &mut self,
        alloc: Global,
        machine: &mut Machine,
        number: u8,
    ) -> Result<(), NoMemory>
        requires calls { machine.old.core.locked < 2 ^ 44 }
        requires present { IsPresent machine.old.core (App number) }
        ensures { OnOk result (Leaves number self.old self.new machine.old machine.new) }
    {
        let who = Actor::App(number);
        let place = self.made as u32 + 1;
        let lender = &mut machine.lender;
        if !lender.make(alloc, who, &Call::Leave, place, &mut self.calls)? {
            unreachable!()
        }
        self.clock = machine.clock();
        self.has_left = true;
        Ok(())
    }
}
