// Loads: that the scenario that is made from a number is the one that its text gives. What a summary says is shown by cases.
ghost use Rattle.std.specs.Prelude.{◌≤◌};
ghost use Rattle.xr_types.specs.declared.limits.TheConstants.{MOST_LOAD};

use std::alloc::{AllocError, Global};
use std::test::Fail;
use xr_device::ListDevice;
use xr_drive::run_serial;
use xr_io::{Failing, MemoryFile, MemoryOpener, MemorySink};
use xr_report::report;
use xr_scenario::generate;
use xr_serial::run;
use xr_types::{DeviceEvent, Lists, MOST_LOAD, NoMemory, Wish};

/// A scenario's text up to its frames.
const OPENING: &str = r#"{"version":1,"scripts":[[
{"op":"await","mark":1},
{"op":"create_instance","major":1,"minor":0,"as":"i"},
{"op":"get_system","instance":"i","form":"head","as":"y"},
{"op":"create_session","instance":"i","system":"y","as":"s"},
{"op":"create_reference_space","session":"s","kind":"local","offset":1,"as":"r"},
{"op":"create_swapchain","session":"s","format":1,"width":64,"height":64,"static":false,"as":"c"},
{"op":"begin_session","session":"s","view":"stereo"}"#;

const ROUND: &str = r#",
{"op":"wait_frame","session":"s","as":"t"},
{"op":"begin_frame","session":"s"}"#;

/// An image up to its stamp, and behind it.
const IMAGE: [&str; 2] = [
    r#",
{"op":"acquire_image","chain":"c"},
{"op":"wait_image","chain":"c","timeout":"inf"},
{"op":"paint","chain":"c","stamp":"#,
    r#"},
{"op":"release_image","chain":"c"}"#,
];

const WRONG_END: &str = r#",
{"op":"end_frame","session":"s","time":0,"blend":"opaque","layers":[]}"#;

const END: &str = r#",
{"op":"end_frame","session":"s","time":"t","blend":"opaque","layers":[{"quad":"r","image":["c",0,0,64,64],"pose":1}]}"#;

/// The text of a frame more.
fn add_frame(alloc: Global, text: &mut Vec<u8>, number: u32) -> Result<(), AllocError> {
    text.extend_from_slice(ROUND.as_bytes())?;
    if number % 10 == 0 {
        text.extend_from_slice(ROUND.as_bytes())?;
    }
    text.extend_from_slice(IMAGE[0].as_bytes())?;
    text.extend_from_slice(format!(in alloc; "{number}")?.as_bytes())?;
    text.extend_from_slice(IMAGE[1].as_bytes())?;
    if number % 7 == 0 {
        text.extend_from_slice(WRONG_END.as_bytes())?;
    }
    text.extend_from_slice(END.as_bytes())
}

/// The text of a load of so many frames.
fn text_of(alloc: Global, n: u32) -> Result<Vec<u8>, AllocError> {
    let mut text = OPENING.as_bytes().to_vec(alloc)?;
    for before in 0..n {
        add_frame(alloc, &mut text, before.saturating_add(1))?;
    }
    text.extend_from_slice(b"]]}")?;
    Ok(text)
}

/// Writes the report, with places, of what stands in files.
fn run_text(alloc: Global, text: &[u8], sink: &mut MemorySink<'_>) -> Result<(), AllocError> {
    let files = [
        MemoryFile {
            name: "scenario.json",
            bytes: text,
        },
        MemoryFile {
            name: "device.txt",
            bytes: b"wish focused\nmark 1\n",
        },
    ];
    let words = vec![in alloc;
        "serial".to_string(alloc)?,
        "scenario.json".to_string(alloc)?,
        "--device".to_string(alloc)?,
        "device.txt".to_string(alloc)?,
        "--places".to_string(alloc)?,
    ]?;
    let whole = Failing {
        open: false,
        reads: &[],
    };
    let mut opener = MemoryOpener::new(&files, whole, whole);
    run_serial(alloc, words.as_slice(), &mut opener, sink);
    Ok(())
}

/// What the run of a load of so many frames has made.
fn run_load(alloc: Global, n: u32) -> Result<Lists, NoMemory>
    requires { n ≤ MOST_LOAD }
{
    let scenario = generate(alloc, n)?;
    let Ok(events) = vec![in alloc; DeviceEvent::Wish(Wish::Focused), DeviceEvent::Mark(1)] else {
        return Err(NoMemory);
    };
    let mut device = ListDevice::new(events);
    let lists = run(alloc, &scenario, &mut device)?;
    Ok(lists)
}

/// Whether the run of a load of so many frames has the report that its text has.
fn runs_as_its_text(alloc: Global, n: u32) -> Result<bool, AllocError> {
    let text = text_of(alloc, n)?;
    let mut sink = MemorySink::new(alloc, 100_000, &[], &[])?;
    run_text(alloc, text.as_slice(), &mut sink)?;
    let Ok(lists) = run_load(alloc, n.min(MOST_LOAD)) else {
        return Err(AllocError);
    };
    let Ok(bytes) = report(alloc, &lists, true) else {
        return Err(AllocError);
    };
    Ok(bytes.as_slice() == sink.bytes())
}

#[test]
fn a_load_is_what_its_text_gives(rt: HostRuntime) -> Result<(), Fail> {
    for n in [1, 7, 10, 70] {
        assert!(rt; runs_as_its_text(rt.alloc(), n)?, "{n} frames");
    }
    Ok(())
}
