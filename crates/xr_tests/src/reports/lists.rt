// Lists of a run, written by hand, and the report that is wanted of them.
use std::alloc::{AllocError, Global};
use xr_report::report;
use xr_types::{
    Bytes, CallName, Code, DeviceEvent, Gives, Lists, Made, MadeList, Reply, Several, Waiting,
};

/// A reply. Its place is 1234.
fn reply(code: Code, gives: Gives) -> Reply {
    Reply {
        code,
        gives,
        place: 1234,
    }
}

/// What a run without frames has made: its scripts, its device's calls, its device's events and its next calls.
pub(crate) fn lists_of(
    alloc: Global,
    apps: Several<MadeList>,
    device: MadeList,
    events: Vec<DeviceEvent>,
    next: Vec<Waiting>,
) -> Lists {
    Lists {
        apps,
        device,
        compositor: Several::new(Vec::new(alloc)),
        ended: None,
        shown: Several::new(Vec::new(alloc)),
        done: Several::new(Vec::new(alloc)),
        events: Several::new(events),
        next: Several::new(next),
    }
}

/// A call: its name, the mark of an `await`, its code and value, and the text that it has written.
pub(crate) type Row = (CallName, u8, Code, Gives, &'static [u8]);

/// Calls that were made, at places from 1.
fn made(alloc: Global, rows: &[Row]) -> Result<MadeList, AllocError> {
    let mut calls = Vec::new(alloc);
    let mut op = 0_u32;
    for (name, mark, code, gives, text) in rows {
        op = op.saturating_add(1);
        calls.push(Made {
            op,
            name: *name,
            mark: *mark,
            start: 0,
            reply: reply(*code, *gives),
            text: Bytes::from_slice(alloc, text)?,
        })?;
    }
    Ok(Several::new(calls))
}

/// One script with these calls.
pub(crate) fn script(alloc: Global, rows: &[Row]) -> Result<Several<MadeList>, AllocError> {
    Ok(Several::new(vec![in alloc; made(alloc, rows)?]?))
}

/// As many calls of a device.
pub(crate) fn device(alloc: Global, count: usize) -> Result<MadeList, AllocError> {
    let mut calls = Vec::new(alloc);
    for _ in 0..count {
        calls.push(Made {
            op: 0,
            name: CallName::Device,
            mark: 0,
            start: 0,
            reply: reply(Code::Success, Gives::Nothing),
            text: Bytes::from_slice(alloc, b"")?,
        })?;
    }
    Ok(Several::new(calls))
}

/// Whether the report of these lists, with places or without, is this text.
pub(crate) fn is_report(
    alloc: Global,
    lists: Lists,
    places: bool,
    text: &str,
) -> Result<bool, AllocError> {
    match report(alloc, &lists, places) {
        Ok(bytes) => Ok(bytes.as_slice() == text.as_bytes()),
        Err(_) => Err(AllocError),
    }
}
