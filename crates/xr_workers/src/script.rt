// A script on its way: its calls, one after another.
ghost use Rattle.std.specs.Prelude.{◌≡◌, ◌+◌, ◌≤◌, ◌<◌, ◌^◌, false, IfOk, length, option_map};
ghost use Rattle.xr_types.specs.declared.calls.Actor.TheVariants.{App};
ghost use Rattle.xr_model.specs.runs.NameValues.{no_values};
ghost use Rattle.xr_types.specs.CallKinds.{lent_size, with_start};
ghost use Rattle.xr_model.specs.machine.CoreCalls.{MayAsk};
ghost use Rattle.xr_model.specs.scenario.ScriptForm.{IsInRange, IsInForm};
ghost use Rattle.xr_runtime.specs.Passes.{table_of, IsApp, MayCall};
ghost use Rattle.xr_workers.specs.Workers.{IsGated};
ghost use Rattle.xr_workers.specs.inside.Made.{AskedBy};
ghost use Rattle.xr_workers.specs.inside.Script.{MadeOp, MadeSome};

use crate::context::Context;
use crate::gate::Gate;
use std::alloc::Global;
use std::sync::Wait;
use xr_runs::MOST_LENT;
use xr_runtime::AppPass;
use xr_scenario_calls::{Names, Scratch, call_of};
use xr_types::{Actor, Bytes, Call, Made, NoMemory, Op, Reply};

/// A script on its way: what its names stand for, and the room where the lists of a call and the bytes that it is lent stand.
#[derive(Drop)]
pub(crate) struct Script {
    pub(crate) names: Names,
    scratch: Scratch,
    buffer: [u8; MOST_LENT],
}

/// A reply, and the bytes that the call put into what it was lent, or nothing where memory was short.
#[derive(Drop)]
pub(crate) struct Asked {
    pub(crate) reply: Reply,
    pub(crate) text: Option<Bytes>,
}

impl Script {
    /// A script of so many ops before its first call.
    pub(crate) fn start(alloc: Global, ops: usize) -> Result<Script, NoMemory>
        ensures { IfOk result (λ script. script.names ≡ no_values ops) }
    {
        let names = Names::start(alloc, ops)?;
        let scratch = Scratch::start(alloc)?;
        Ok(Script {
            names,
            scratch,
            buffer: [0; MOST_LENT],
        })
    }

    /// Makes the call of the op at this place, from 1, and tells what is listed of it, or nothing where memory is short.
    fn make_op<R: Wait, G: Gate>(
        &mut self,
        context: &Context<'_, R, G>,
        app: u8,
        place: u32,
        op: &Op,
        pass: &mut AppPass,
    ) -> Option<Made>
        requires may { MayCall (table_of context.now.runtime.now) pass.old }
        requires own { pass.old.app ≡ app }
        requires ranged { IsInRange op.now }
        requires first { 1 ≤ place }
        requires within { place ≤ length self.old.names }
        ensures made { MadeOp (table_of context.now.runtime.now) place op.now pass.old pass.new self.old.names self.new.names result }
        ensures gated { IsGated (G.came context.now.gate.now) (G.went context.now.gate.now) (App app) pass.old.calls (pass.old.calls + 1) }
    {
        let Script {
            names,
            scratch,
            buffer,
        } = self;
        let mut call = call_of(op, names, scratch);
        call.begin_wait(pass.clock());
        let answered = ask(context, app, &call, buffer, pass);
        let reply = answered.reply;
        names.learn(place, op, &reply);
        let text = answered.text?;
        Some(call.listed(place, reply, text))
    }
}

/// Makes a call, which is lent the front of a buffer, and copies what it wrote.
fn ask<R: Wait, G: Gate>(
    context: &Context<'_, R, G>,
    app: u8,
    call: &Call<'_>,
    buffer: &mut [u8],
    pass: &mut AppPass,
) -> Asked
    requires may { MayCall (table_of context.now.runtime.now) pass.old }
    requires own { pass.old.app ≡ app }
    requires asks { MayAsk (App pass.old.app) call.now (lent_size call.now) }
    requires size { lent_size call.now ≤ length buffer.old }
    ensures made { AskedBy (table_of context.now.runtime.now) pass.old (with_start pass.old.clock call.now) result pass.new }
    ensures gated { IsGated (G.came context.now.gate.now) (G.went context.now.gate.now) (App app) pass.old.calls (pass.old.calls + 1) }
{
    let number = pass.calls() + 1;
    let lent = &mut buffer[..call.lent_size() as usize];
    context.gate.before(Actor::App(app), number, pass.seat());
    let reply = context.runtime.call(context.rt, pass, call, lent);
    context.gate.after(Actor::App(app), number, pass.seat());
    let written = reply.gives.written_size(lent.len() as u64) as usize;
    let text = match Bytes::from_slice(context.alloc, &lent[..written]) {
        Ok(text) => Some(text),
        Err(_) => None,
    };
    Asked { reply, text }
}

/// Makes the calls of all ops in their order, and lists them, or stops where memory is short.
pub(crate) fn make_ops<R: Wait, G: Gate>(
    context: &Context<'_, R, G>,
    app: u8,
    ops: &[Op],
    pass: &mut AppPass,
) -> Option<Vec<Made>>
    requires is { IsApp (table_of context.now.runtime.now) pass.old }
    requires first { (pass.old.left ≡ false) × (pass.old.calls ≡ 0) }
    requires own { pass.old.app ≡ app }
    requires few { length ops.now < 2 ^ 22 }
    requires formed { IsInForm ops.now }
    ensures made { MadeSome (table_of context.now.runtime.now) ops.now pass.old pass.new (option_map (λ list. list.items) result) }
    ensures gated { IsGated (G.came context.now.gate.now) (G.went context.now.gate.now) (App app) pass.old.calls pass.new.calls }
{
    let Ok(mut script) = Script::start(context.alloc, ops.len()) else {
        return None;
    };
    let Ok(mut list) = Vec::with_capacity(context.alloc, ops.len() + 1) else {
        return None;
    };
    let mut count = 0;
    while count < ops.len() {
        let place = count as u32 + 1;
        let made = script.make_op(context, app, place, &ops[count], pass)?;
        let Ok(()) = list.push(made) else {
            return None;
        };
        count += 1;
    }
    Some(list)
}
