// Worked runs of both top calls over files in memory: what each says on standard error, writes and ends with. Their texts come from
// outside, and so does what is expected.
mod bindings;
mod devices;
mod events;
mod images;
mod paths;
mod priorities;
mod refusals;
mod scenarios;
mod sessions;
mod spaces;
mod threads;
mod values;
mod words;

use super::ends::{Row, passes_alone, passes_on_threads};
use super::meeting::{Meeting, PATIENCE};
use std::alloc::{AllocError, Global};
use std::sync::Wait;
use std::test::Fail;
use std::thread::Threads;
use xr_workers::OpenGate;

/// Whether a run ends as its row says, by the top call that its row names.
fn passes<R: Threads + Wait + Sync>(rt: &R, alloc: Global, row: &Row) -> Result<bool, AllocError> {
    if row.on_threads {
        passes_on_threads(rt, alloc, row, &OpenGate)
    } else {
        passes_alone(alloc, row)
    }
}

/// The first run that doesn't end as its row says, where there is one.
fn first_wrong<R: Threads + Wait + Sync>(
    rt: &R,
    alloc: Global,
    rows: &'static [Row],
) -> Result<&'static str, AllocError> {
    for row in rows {
        if !passes(rt, alloc, row)? {
            return Ok(row.name);
        }
    }
    Ok("")
}

#[test]
fn worked_runs_end_as_they_should(rt: HostRuntime) -> Result<(), Fail> {
    let tables = [
        paths::rows(),
        sessions::rows(),
        events::rows(),
        refusals::rows(),
        images::rows(),
        priorities::rows(),
        values::rows(),
        bindings::rows(),
        spaces::rows(),
        scenarios::rows(),
        devices::rows(),
        words::rows(),
        threads::rows(),
    ];
    for rows in tables {
        assert_eq!(rt; first_wrong(&rt, rt.alloc(), rows)?, "");
    }
    Ok(())
}

/// A run of one thread as one on threads. Its texts are there.
fn on_threads(row: &Row) -> Row {
    Row {
        words: if row.words.len() > 2 {
            &["threads", "scenario.json", "--device", "device.txt"]
        } else {
            &["threads", "scenario.json"]
        },
        on_threads: true,
        ..*row
    }
}

#[test]
fn wrong_texts_end_alike_on_threads(rt: HostRuntime) -> Result<(), Fail> {
    for rows in [scenarios::rows(), devices::rows()] {
        for row in rows {
            let is_there = row.status != 2;
            assert!(rt;
                !is_there || passes(&rt, rt.alloc(), &on_threads(row))?,
                "{}",
                row.name
            );
        }
    }
    Ok(())
}

/// Two applications that go on only once both have come: no run on one thread ends so, in whatever order it makes the calls.
#[test]
fn two_applications_meet(rt: HostRuntime) -> Result<(), Fail> {
    let meeting = Meeting::new(PATIENCE);
    let passes = passes_on_threads(&rt, rt.alloc(), threads::meet(), &meeting)?;
    assert!(rt; passes && meeting.was_held_up_by_none());
    Ok(())
}
