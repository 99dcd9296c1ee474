// An application's worker.
ghost use Rattle.std.specs.Prelude.{◌≡◌, ◌<◌, ◌+◌, ◌^◌, [], false, length};
ghost use Rattle.xr_types.specs.declared.calls.Actor.TheVariants.{App};
ghost use Rattle.xr_types.specs.declared.calls.Call.TheVariants as ask;
ghost use Rattle.xr_model.specs.scenario.ScriptForm.{IsInForm};
ghost use Rattle.xr_runtime.specs.Passes.{table_of, IsApp, MayCall};
ghost use Rattle.xr_workers.specs.Workers.{IsGated, RanScript};
ghost use Rattle.xr_workers.specs.inside.Made.{CallMade};

use crate::context::Context;
use crate::gate::Gate;
use crate::script::make_ops;
use std::sync::Wait;
use xr_runtime::AppPass;
use xr_types::{Actor, Bytes, Call, MadeList, NoMemory, Op, Reply};

/// An application: its number, from 1, and its script.
#[derive(Clone, Copy)]
pub struct AppScript<'a> {
    pub app: u8,
    pub ops: &'a [Op],
}

// Says that the application makes no further call.
fn leave<R: Wait, G: Gate>(context: &Context<'_, R, G>, app: u8, pass: &mut AppPass) -> Reply
    requires may { MayCall (table_of context.now.runtime.now) pass.old }
    requires own { pass.old.app ≡ app }
    ensures made { CallMade (table_of context.now.runtime.now) pass.old ask.Leave [] result pass.new }
    ensures gated { IsGated (G.came context.now.gate.now) (G.went context.now.gate.now) (App app) pass.old.calls (pass.old.calls + 1) }
{
    let number = pass.calls() + 1;
    context.gate.before(Actor::App(app), number, pass.seat());
    let reply = context.runtime.leave(context.rt, pass);
    context.gate.after(Actor::App(app), number, pass.seat());
    reply
}

/// Makes the calls of a script in their order and then `leave`, each by the pass, and lists them. The pass has made no call yet. The
/// script has fewer than 2^22 ops, each in range and with names that earlier ops gave. Where memory is short it makes no further call of
/// the script, but leaves all the same, and answers `NoMemory`.
pub fn run_script<R: Wait, G: Gate>(
    context: &Context<'_, R, G>,
    script: AppScript<'_>,
    pass: &mut AppPass,
) -> Result<MadeList, NoMemory>
    requires is { IsApp (table_of context.now.runtime.now) pass.old }
    requires first { (pass.old.left ≡ false) × (pass.old.calls ≡ 0) }
    requires own { pass.old.app ≡ script.app }
    requires few { length script.ops.now < 2 ^ 22 }
    requires formed { IsInForm script.ops.now }
    ensures ran { RanScript (table_of context.now.runtime.now) script.entry.ops.now pass.old pass.new result }
    ensures gated { IsGated (G.came context.now.gate.now) (G.went context.now.gate.now) (App script.entry.app) pass.old.calls pass.new.calls }
{
    let made = make_ops(context, script.app, script.ops, pass);
    let reply = leave(context, script.app, pass);
    let Some(mut list) = made else {
        return Err(NoMemory);
    };
    let place = script.ops.len() as u32 + 1;
    let text = Bytes::new(Vec::new(context.alloc));
    let Ok(()) = list.push(Call::Leave.listed(place, reply, text)) else {
        return Err(NoMemory);
    };
    Ok(MadeList::new(list))
}
