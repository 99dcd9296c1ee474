// Texts that are too short, too long or no JSON, which both top calls refuse. Those of another form stand in `rows`.
use crate::ends::says;
use crate::files::{FORMS, TEXT, ended, sound};
use std::alloc::{AllocError, Global};
use std::sync::Wait;
use std::test::Fail;
use std::thread::Threads;
use xr_drive::exit_of;
use xr_io::MemorySink;

const NO_JSON: &str = "xrsim: scenario refused: json\n";

const TOO_LONG: &str = "xrsim: scenario refused: too long\n";

/// Whether both top calls refuse a text with this line and write nothing.
fn is_refused<R: Threads + Wait + Sync>(
    rt: &R,
    alloc: Global,
    text: &[u8],
    line: &str,
) -> Result<bool, AllocError> {
    for form in FORMS {
        let mut sink = MemorySink::new(alloc, 100, &[], &[])?;
        let status = ended(rt, alloc, form, &sound(text), &mut sink)?;
        let said = says(alloc, status, line)?;
        if !said || exit_of(status) != 4 || !sink.bytes().is_empty() {
            return Ok(false);
        }
    }
    Ok(true)
}

/// How many bytes the first front of a text has that isn't refused, or how many the text has.
fn first_taken<R: Threads + Wait + Sync>(
    rt: &R,
    alloc: Global,
    text: &[u8],
) -> Result<usize, AllocError> {
    for size in 0..text.len() {
        if !is_refused(rt, alloc, &text[..size], NO_JSON)? {
            return Ok(size);
        }
    }
    Ok(text.len())
}

#[test]
fn no_front_of_a_scenario_is_one(rt: HostRuntime) -> Result<(), Fail> {
    assert_eq!(rt; first_taken(&rt, rt.alloc(), TEXT.as_bytes())?, TEXT.len());
    Ok(())
}

/// How many blanks a text has, and what is said of it.
const BLANKS: [(usize, &str); 2] = [(1_048_576, NO_JSON), (1_048_577, TOO_LONG)];

#[test]
fn blanks_are_no_scenario_however_many(rt: HostRuntime) -> Result<(), Fail> {
    for (many, line) in BLANKS {
        let text = vec![in rt.alloc(); b' '; many]?;
        assert!(rt;
            is_refused(&rt, rt.alloc(), text.as_slice(), line)?,
            "{many} blanks"
        );
    }
    Ok(())
}
