// Runs of both top calls over files in memory, whose calls fail where that is asked for.
use std::alloc::{AllocError, Global};
use std::sync::Wait;
use std::thread::Threads;
use xr_drive::run_serial;
use xr_drive_threads::run_threads;
use xr_io::{Failing, MemoryFile, MemoryOpener, Sink};
use xr_types::Status;
use xr_workers::OpenGate;

/// The first words of both.
pub(super) const FORMS: [&str; 2] = ["serial", "threads"];

/// What never fails.
pub(super) const NOTHING: Failing<'static> = Failing {
    open: false,
    reads: &[],
};

/// A scenario of paths, and its report.
pub(super) const TEXT: &str =
    r#"{"version":1,"scripts":[[{"op":"create_instance","major":1,"minor":0,"as":"i"},{"op":"string_to_path","instance":"i","text":"/user/hand/left","as":"p"},{"op":"string_to_path","instance":"i","text":"/user/hand/left"},{"op":"path_to_string","instance":"i","path":"p","capacity":16}]]}"#;

pub(super) const REPORT: &str = "\
xrsim report 1
thread 1
1 create_instance XR_SUCCESS
2 string_to_path XR_SUCCESS 1
3 string_to_path XR_SUCCESS 1
4 path_to_string XR_SUCCESS 16 /user/hand/left
5 leave XR_SUCCESS
compositor
ended
device
status 0
";

/// The scenario's bytes and the device's, and how the calls on both fail.
#[derive(Clone, Copy)]
pub(super) struct Files<'a> {
    pub(super) scenario: &'a [u8],
    pub(super) scenario_fails: Failing<'a>,
    pub(super) device: &'a [u8],
    pub(super) device_fails: Failing<'a>,
}

/// This scenario beside an empty device. Nothing fails.
pub(super) fn sound(scenario: &[u8]) -> Files<'_> {
    Files {
        scenario,
        scenario_fails: NOTHING,
        device: b"",
        device_fails: NOTHING,
    }
}

/// How a run ends, by the top call that the first word asks for.
pub(super) fn ended<R: Threads + Wait + Sync, K: Sink>(
    rt: &R,
    alloc: Global,
    form: &str,
    of: &Files<'_>,
    sink: &mut K,
) -> Result<Status, AllocError> {
    let files = [
        MemoryFile {
            name: "scenario.json",
            bytes: of.scenario,
        },
        MemoryFile {
            name: "device.txt",
            bytes: of.device,
        },
    ];
    let words = vec![in alloc;
        form.to_string(alloc)?,
        "scenario.json".to_string(alloc)?,
        "--device".to_string(alloc)?,
        "device.txt".to_string(alloc)?,
    ]?;
    let mut opener = MemoryOpener::new(&files, of.scenario_fails, of.device_fails);
    if form == "threads" {
        let ran = run_threads(rt, alloc, words.as_slice(), &mut opener, sink, &OpenGate);
        return Ok(ran.status);
    }
    Ok(run_serial(alloc, words.as_slice(), &mut opener, sink))
}
