//! The states of a sync (OpenXR 1.0 chapter 11, xrSyncActions): which bindings are live, what each column of an action finds
//! among them, and what it shows then. It knows sets, bindings, inputs and columns, and no call, session, controller or path.
#![tactic(auto)]

ghost use Rattle.std.specs.Prelude.{◌≡◌, All};
ghost use Rattle.xr_model.specs.machine.Sync.{columns_after};
ghost use Rattle.xr_sync.specs.Ranks.{IsPlaced};

mod after;
mod columns;
mod found;
mod given;
mod live;
mod settle;

pub use columns::Columns;
use settle::sync_all;
use xr_types::{Heard, Inputs, Ranked, States};

/// The states after a sync, from those before, which stay. The bindings are as `Columns::sync` has them. Nothing is refused, and no
/// memory is taken.
pub fn sync(
    active: &[Heard],
    bindings: &[Ranked],
    inputs: &Inputs,
    clock: i64,
    previous: &States,
    out: &mut States,
)
    requires { All IsPlaced bindings.now }
    ensures { out.new.columns ≡ columns_after active.now bindings.now inputs.now clock previous.now.columns }
{
    out.columns = previous.columns;
    sync_all(active, bindings, inputs, &clock, &mut out.columns);
}
