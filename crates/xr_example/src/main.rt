//! `xr_example` is an application in a few lines: it asks the runtime for a session, begins it before the device is ready for one, and
//! prints what each call answers. The runtime's calls are proved to be those of one legal history; this file prints them.
#![tactic(auto)]

use std::process::ExitCode;
use xr_runtime::Runtime;
use xr_types::{Form, Gives, Reply, ViewConfig};

/// The handle or the number that a call gave; 0, which is no handle, where it gave none.
fn given(reply: &Reply) -> u64 {
    match reply.gives {
        Gives::Handle(number) | Gives::Number(number) => number,
        _ => 0,
    }
}

fn main(rt: HostRuntime) -> ExitCode {
    let Ok((runtime, mut passes)) = Runtime::start(rt.alloc(), 1) else {
        return ExitCode::FAILURE;
    };
    let Some(mut app) = passes.apps.pop() else {
        return ExitCode::FAILURE;
    };
    let instance = runtime.create_instance(&rt, &mut app, 1, 0);
    let system = runtime.get_system(&rt, &mut app, given(&instance), Form::Head);
    let session = runtime.create_session(&rt, &mut app, given(&instance), given(&system));
    let begun = runtime.begin_session(&rt, &mut app, given(&session), ViewConfig::Stereo);
    for reply in [instance, system, session, begun] {
        let Ok(()) = println!(rt; "{}", reply.code) else {
            return ExitCode::FAILURE;
        };
    }
    ExitCode::SUCCESS
}
