// An application's calls under the lock.
ghost use Rattle.xr_runtime.specs.Passes.{table_of, IsApp, IsFirst};

use super::calls::{Made, STEPS, Steps, call_of, handle_or, is_own};
use std::sync::Wait;
use xr_runtime::{AppPass, Runtime};

/// Makes an application's calls in a run, and keeps their replies. The pass has made no call yet.
pub(crate) fn make_calls<R: Wait>(
    rt: &R,
    runtime: &Runtime,
    pass: &mut AppPass,
    app: u8,
    run: u64,
) -> Steps
    requires first { IsFirst (table_of runtime.now) app pass.old }
    ensures is { IsApp (table_of runtime.now) pass.new }
{
    let mut steps = [None; STEPS];
    let mut instance = 1;
    for step in 0..STEPS {
        let kind = run.wrapping_mul(5) ^ (app as u64 * 11 + step as u64 * 3);
        let call = call_of(kind, instance);
        if is_own(app, &call) {
            let reply = runtime.call(rt, pass, &call, &mut []);
            steps[step] = Some(Made {
                kind,
                instance,
                reply,
            });
            instance = handle_or(&reply, instance);
        }
    }
    steps
}
