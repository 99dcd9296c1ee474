// Runs of both top calls over files in memory whose opening, reading or writing fails.
use crate::files::{FORMS, Files, NOTHING, REPORT, TEXT, ended, sound};
use crate::slow::SlowSink;
use std::alloc::{AllocError, Global};
use std::sync::Wait;
use std::test::Fail;
use std::thread::Threads;
use xr_drive::{exit_of, explain};
use xr_io::{Failing, MemorySink};
use xr_types::{FieldName, Refusal, Status, What};

const OPENING: Failing<'static> = Failing {
    open: true,
    reads: &[],
};

const FIRST_READ: Failing<'static> = Failing {
    open: false,
    reads: &[0],
};

const SECOND_READ: Failing<'static> = Failing {
    open: false,
    reads: &[1],
};

/// A script with no op.
const NO_OP: &str = r#"{"version":1,"scripts":[[]]}"#;

/// What of the scenario and of the device fails, the device's text, the number of the status, and what stands in the
/// report behind `LEFT`, where there is one.
type Run = (
    Failing<'static>,
    Failing<'static>,
    &'static str,
    u8,
    &'static str,
);

/// The report of a script with no op, up to the events of its device.
const LEFT: &str = "xrsim report 1\nthread 1\n1 leave XR_SUCCESS\ncompositor\nended\ndevice\n";

/// 255 bytes, which may be a line.
const SHORT_LINE: &str =
    "###############################################################################################################################################################################################################################################################";

/// 256 bytes, which may not.
const LONG_LINE: &str =
    "################################################################################################################################################################################################################################################################";

/// Runs whose files fail. Whole lines of a device come before its fault, a part of a line is none, and a wrong line is
/// told though the next read would fail.
const RUNS: &[Run] = &[
    (OPENING, NOTHING, "", 2, ""),
    (FIRST_READ, NOTHING, "", 3, ""),
    (SECOND_READ, NOTHING, "", 3, ""),
    (NOTHING, OPENING, "", 2, ""),
    (SECOND_READ, FIRST_READ, "", 3, ""),
    (NOTHING, FIRST_READ, "loss\n", 5, "fault\nstatus 5\n"),
    (
        NOTHING,
        SECOND_READ,
        "loss\n",
        5,
        "1 loss\nfault\nstatus 5\n",
    ),
    (
        NOTHING,
        SECOND_READ,
        "clock 1\nmark 2\n\nlost\nmark 4\nmark 5",
        5,
        "1 clock 1\n2 mark 2\n3 lost\n4 mark 4\nfault\nstatus 5\n",
    ),
    (
        NOTHING,
        SECOND_READ,
        "loss\nloss 1\nlost\n",
        6,
        "1 loss\ngarbled 2\nstatus 6\n",
    ),
    (NOTHING, SECOND_READ, SHORT_LINE, 5, "fault\nstatus 5\n"),
    (NOTHING, SECOND_READ, LONG_LINE, 6, "garbled 1\nstatus 6\n"),
];

/// What is written behind `LEFT`, or all where that doesn't stand first.
fn behind_left(written: &[u8]) -> &[u8] {
    written.strip_prefix(LEFT.as_bytes()).unwrap_or(written)
}

/// Whether a run ends with its number and its report, by the top call of this first word.
fn ends_so<R: Threads + Wait + Sync>(
    rt: &R,
    alloc: Global,
    form: &str,
    run: &Run,
) -> Result<bool, AllocError> {
    let (scenario_fails, device_fails, text, number, lines) = *run;
    let files = Files {
        scenario: NO_OP.as_bytes(),
        scenario_fails,
        device: text.as_bytes(),
        device_fails,
    };
    let mut sink = MemorySink::new(alloc, 1000, &[], &[])?;
    let status = ended(rt, alloc, form, &files, &mut sink)?;
    Ok(exit_of(status) == number && behind_left(sink.bytes()) == lines.as_bytes())
}

#[test]
fn a_fault_of_a_file_is_told_by_its_status_and_the_report(rt: HostRuntime) -> Result<(), Fail> {
    for form in FORMS {
        for run in RUNS {
            assert!(rt;
                ends_so(&rt, rt.alloc(), form, run)?,
                "{form}: {} of {:?}",
                run.3,
                run.2
            );
        }
    }
    Ok(())
}

/// How many reads a scenario takes that has 9,000 blanks more, up to the one that meets its end.
const READS: u64 = 4;

/// The number that the run of this text ends with, the read of whose scenario of this number fails, and how much is written.
fn read_but_one<R: Threads + Wait + Sync>(
    rt: &R,
    alloc: Global,
    form: &str,
    text: &[u8],
    number: u64,
) -> Result<(u8, usize), AllocError> {
    let failing = [number];
    let files = Files {
        scenario_fails: Failing {
            open: false,
            reads: &failing,
        },
        ..sound(text)
    };
    let mut sink = MemorySink::new(alloc, 1000, &[], &[])?;
    let status = ended(rt, alloc, form, &files, &mut sink)?;
    Ok((exit_of(status), sink.bytes().len()))
}

#[test]
fn each_read_of_a_scenario_may_fail(rt: HostRuntime) -> Result<(), Fail> {
    let mut text = vec![in rt.alloc(); b' '; 9000]?;
    text.extend_from_slice(TEXT.as_bytes())?;
    for form in FORMS {
        for number in 0..READS {
            let ended = read_but_one(&rt, rt.alloc(), form, text.as_slice(), number)?;
            assert_eq!(rt; ended, (3, 0), "{form}: read {number}");
        }
        let ended = read_but_one(&rt, rt.alloc(), form, text.as_slice(), READS)?;
        assert_eq!(rt; ended, (0, REPORT.len()), "{form}");
    }
    Ok(())
}

/// Whether a run over this output ends with a fault of writing, and these bytes are written.
fn writes<R: Threads + Wait + Sync>(
    rt: &R,
    alloc: Global,
    form: &str,
    sink: MemorySink<'_>,
    written: &[u8],
) -> Result<bool, AllocError> {
    let mut sink = sink;
    let status = ended(rt, alloc, form, &sound(NO_OP.as_bytes()), &mut sink)?;
    Ok(exit_of(status) == 8 && sink.bytes() == written)
}

#[test]
fn a_fault_of_the_output_leaves_a_first_part(rt: HostRuntime) -> Result<(), Fail> {
    let alloc = rt.alloc();
    for form in FORMS {
        let failing = MemorySink::new(alloc, 1000, &[0], &[])?;
        let idle = MemorySink::new(alloc, 1000, &[], &[0])?;
        let short = MemorySink::new(alloc, 15, &[], &[])?;
        let fails = writes(&rt, alloc, form, failing, b"")?;
        let takes_nothing = writes(&rt, alloc, form, idle, b"")?;
        let is_short = writes(&rt, alloc, form, short, b"xrsim report 1\n")?;
        assert!(rt; fails && takes_nothing && is_short);
    }
    Ok(())
}

/// Whether a run over an output that takes a byte at a time, whose write of this number fails, ends with its fault behind so many bytes;
/// or whole, where there is no such write.
fn stops_behind<R: Threads + Wait + Sync>(
    rt: &R,
    alloc: Global,
    form: &str,
    number: usize,
) -> Result<bool, AllocError> {
    let failing = [number as u64];
    let mut sink = SlowSink::new(alloc, 1000, &failing)?;
    let status = ended(rt, alloc, form, &sound(TEXT.as_bytes()), &mut sink)?;
    let whole = REPORT.as_bytes();
    let number_due = if number < whole.len() { 8 } else { 0 };
    let most = number.min(whole.len());
    Ok(exit_of(status) == number_due && sink.bytes() == &whole[..most])
}

#[test]
fn each_write_of_a_byte_may_fail(rt: HostRuntime) -> Result<(), Fail> {
    for form in FORMS {
        for number in 0..REPORT.len().saturating_add(1) {
            assert!(rt;
                stops_behind(&rt, rt.alloc(), form, number)?,
                "{form}: write {number}"
            );
        }
    }
    Ok(())
}

/// Whether this is said of a status on an output with room for so many bytes.
fn says(alloc: Global, status: Status, room: usize, line: &[u8]) -> Result<bool, AllocError> {
    let mut errors = MemorySink::new(alloc, room, &[], &[])?;
    explain(&mut errors, status);
    Ok(errors.bytes() == line)
}

#[test]
fn a_fault_of_the_output_for_errors_leaves_a_first_part_of_the_line(
    rt: HostRuntime,
) -> Result<(), Fail> {
    let alloc = rt.alloc();
    assert!(rt; says(alloc, Status::Stuck, 6, b"xrsim:")?);
    assert!(rt; says(alloc, Status::Stuck, 0, b"")?);
    assert!(rt; says(alloc, Status::Done, 100, b"")?);
    Ok(())
}

#[test]
fn the_longest_lines_are_said_whole(rt: HostRuntime) -> Result<(), Fail> {
    let alloc = rt.alloc();
    let garbled = Status::DeviceGarbled(u64::MAX);
    assert!(rt;
        says(
            alloc,
            garbled,
            100,
            b"xrsim: device line 18446744073709551615 garbled\n"
        )?
    );
    let refused = Status::ScenarioRefused(Refusal::BadShape {
        script: u32::MAX,
        op: u32::MAX,
        what: What::Field(FieldName::Subactions),
    });
    assert!(rt;
        says(
            alloc,
            refused,
            100,
            b"xrsim: scenario refused: script 4294967295 op 4294967295 subactions\n",
        )?
    );
    Ok(())
}
