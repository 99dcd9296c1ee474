//! `xrsim` runs a scenario of OpenXR calls on the written machine, beside a device if one is named, and prints its report, by the
//! top calls of `xr_drive` and `xr_drive_threads` with real files and output. `help` has what the program says of itself.
#![tactic(auto)]

mod help;

use help::text_for;
use std::alloc::Global;
use std::env;
use std::io::ErrorKind;
use std::process::ExitCode;
use std::rt::Env;
use xr_drive::{end_with, print, run_program};
use xr_drive_threads::run_threads_program;
use xr_io::{FileOpener, StdSink};
use xr_types::Status;

/// The words behind the program's name, or the status with which it ends.
fn words<R: Env + Alloc<A = Global>>(rt: &R) -> Result<Vec<String>, Status> {
    let given = match env::args(rt) {
        Ok(given) => given,
        Err(e) if e.kind() == ErrorKind::OutOfMemory => return Err(Status::NoMemory),
        Err(_) => return Err(Status::Usage),
    };
    match given.skip(1).collect::<Vec<String>>(rt.alloc()) {
        Ok(words) => Ok(words),
        Err(_) => Err(Status::NoMemory),
    }
}

fn main(rt: HostRuntime) -> ExitCode {
    let stderr = rt.stderr();
    let mut errors = StdSink::new(&stderr);
    let mut sink = StdSink::new(&rt);
    let words = match words(&rt) {
        Ok(words) => words,
        Err(status) => return end_with(&mut errors, status),
    };
    if let Some(text) = text_for(words.as_slice()) {
        let status = print(&mut sink, text);
        return end_with(&mut errors, status);
    }
    let mut opener = FileOpener::new(&rt);
    if words.first().is_some_and(|word| word.as_str() == "threads") {
        return run_threads_program(
            &rt,
            rt.alloc(),
            words.as_slice(),
            &mut opener,
            &mut sink,
            &mut errors,
        );
    }
    run_program(
        rt.alloc(),
        words.as_slice(),
        &mut opener,
        &mut sink,
        &mut errors,
    )
}
