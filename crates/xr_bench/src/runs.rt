// Runs of scenarios on one thread, without reading their texts and without their reports.
ghost use Rattle.std.specs.Prelude.{◌≤◌, ◌<◌, ◌^◌, length};
ghost use Rattle.xr_types.specs.declared.limits.TheConstants.{MOST_SCRIPTS};
ghost use Rattle.std.specs.List.{sum_by};
ghost use Rattle.xr_model.specs.scenario.ScriptForm.{AllInForm};

use std::alloc::{AllocError, Global};
use std::io;
use std::time::{Clock, Instant};
use xr_device::ListDevice;
use xr_scenario::read;
use xr_serial::run;
use xr_types::{DeviceEvent, Lists, NoMemory, Scenario, Wish};

/// How often each of eight scripts waits for the one before it.
const PASSES: usize = 1_600;

/// How many marks the one script sets for which seven others wait.
const MARKS: usize = 16_000;

/// How often a scenario is run.
const TIMES: u64 = 20;

/// How many turns there are while the seven wait: in each round one of each script, of the device and of the compositor.
pub(crate) const TURNS: u64 = TIMES * 10 * (MARKS as u64 + 1);

/// The ops of a script that waits for another script's mark and then sets its own, again and again; the first sets its own
/// first.
fn add_passes(text: &mut Vec<u8>, other: u8, own: u8) -> Result<(), AllocError> {
    let waits = own != 1;
    for place in 0..PASSES {
        if place > 0 {
            text.push(b',')?;
        }
        if waits {
            text.extend_from_slice(b"{\"op\":\"await\",\"mark\":")?;
            text.push(b'0'.wrapping_add(other))?;
            text.extend_from_slice(b"},")?;
        }
        text.extend_from_slice(b"{\"op\":\"mark\",\"value\":0,\"mark\":")?;
        text.push(b'0'.wrapping_add(own))?;
        text.push(b'}')?;
    }
    Ok(())
}

/// Eight scripts that pass marks round.
pub(crate) fn text_of_passes(alloc: Global) -> Result<Vec<u8>, AllocError> {
    let mut text = Vec::new(alloc);
    text.extend_from_slice(b"{\"version\":1,\"scripts\":[[")?;
    for own in 1..9u8 {
        if own > 1 {
            text.extend_from_slice(b"],[")?;
        }
        add_passes(&mut text, own.wrapping_sub(1), own)?;
    }
    text.extend_from_slice(b"]]}")?;
    Ok(text)
}

/// A script that sets marks, and the last only at its end, beside seven that wait for this one.
pub(crate) fn text_of_waits(alloc: Global) -> Result<Vec<u8>, AllocError> {
    let mut text = Vec::new(alloc);
    text.extend_from_slice(b"{\"version\":1,\"scripts\":[[")?;
    for _ in 0..MARKS {
        text.extend_from_slice(b"{\"op\":\"mark\",\"mark\":1,\"value\":0},")?;
    }
    text.extend_from_slice(b"{\"op\":\"mark\",\"mark\":64,\"value\":0}]")?;
    for _ in 0..7 {
        text.extend_from_slice(b",[{\"op\":\"await\",\"mark\":64}]")?;
    }
    text.extend_from_slice(b"]}")?;
    Ok(text)
}

/// How a session is begun, and a frame of it waited for.
const BEGUN: [&str; 6] = [
    r#"{"op":"create_instance","major":1,"minor":0,"as":"i"},"#,
    r#"{"op":"get_system","instance":"i","form":"head","as":"y"},"#,
    r#"{"op":"create_session","instance":"i","system":"y","as":"s"},"#,
    r#"{"op":"begin_session","session":"s","view":"stereo"},"#,
    r#"{"op":"wait_frame","session":"s"},"#,
    r#"{"op":"mark","mark":1,"value":"s"},"#,
];

/// A script that waits for a frame and then sets marks, beside seven that wait for the next frame of its session, which never
/// comes: in the end the session goes, and they are refused.
pub(crate) fn text_of_frame_waits(alloc: Global) -> Result<Vec<u8>, AllocError> {
    let mut text = Vec::new(alloc);
    text.extend_from_slice(b"{\"version\":1,\"scripts\":[[")?;
    for op in BEGUN {
        text.extend_from_slice(op.as_bytes())?;
    }
    for _ in 0..MARKS {
        text.extend_from_slice(b"{\"op\":\"mark\",\"mark\":64,\"value\":0},")?;
    }
    text.extend_from_slice(b"{\"op\":\"destroy_session\",\"session\":\"s\"}]")?;
    for _ in 0..7 {
        text.extend_from_slice(b",[{\"op\":\"await\",\"mark\":1,\"as\":\"s\"},")?;
        text.extend_from_slice(b"{\"op\":\"wait_frame\",\"session\":\"s\"}]")?;
    }
    text.extend_from_slice(b"]}")?;
    Ok(text)
}

/// How many calls the scripts made.
fn calls_in(lists: &Lists) -> u64 {
    let mut calls: u64 = 0;
    for made in lists.apps.as_slice() {
        calls = calls.saturating_add(made.as_slice().len() as u64);
    }
    calls
}

/// Runs a scenario beside a device that wishes sessions ready, again and again, and says how many calls its scripts made.
fn run_again(alloc: Global, scenario: &Scenario) -> Result<u64, NoMemory>
    requires some { 1 ≤ length scenario.now.scripts }
    requires most { length scenario.now.scripts ≤ MOST_SCRIPTS }
    requires few { sum_by length scenario.now.scripts < 2 ^ 22 }
    requires formed { AllInForm scenario.now.scripts }
{
    let mut calls: u64 = 0;
    for _ in 0..TIMES {
        let mut events = Vec::new(alloc);
        events.push(DeviceEvent::Wish(Wish::Ready))?;
        let mut device = ListDevice::new(events);
        let lists = run(alloc, scenario, &mut device)?;
        calls = calls.saturating_add(calls_in(&lists));
    }
    Ok(calls)
}

/// How many calls the scripts of a text made in so many microseconds.
#[derive(Clone, Copy)]
pub(crate) struct Timing {
    pub(crate) calls: u64,
    pub(crate) micros: u128,
}

/// Runs the scenario of a text, or says by nothing that it is none or that memory was short.
pub(crate) fn time_runs<R: Clock>(
    rt: &R,
    alloc: Global,
    text: &[u8],
) -> io::Result<Option<Timing>> {
    let Ok(scenario) = read(alloc, text) else {
        return Ok(None);
    };
    let start = Instant::now(rt)?;
    let Ok(calls) = run_again(alloc, &scenario) else {
        return Ok(None);
    };
    let micros = start.elapsed(rt)?.as_micros();
    Ok(Some(Timing { calls, micros }))
}
