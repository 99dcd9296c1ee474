// How long scenarios take to be read, beside how long the reading of JSON alone takes.
use serde_json::Value;
use std::alloc::{AllocError, Global};
use std::io;
use std::time::{Clock, Instant};
use xr_scenario::read;

/// How many ops a text has.
const OPS: u32 = 16_000;

/// How often a text is read.
const TIMES: u32 = 10;

/// A script of the same op, again and again.
fn text_of(alloc: Global, op: &[u8]) -> Result<Vec<u8>, AllocError> {
    let mut text = Vec::new(alloc);
    text.extend_from_slice(b"{\"version\":1,\"scripts\":[[")?;
    for _ in 0..OPS {
        text.extend_from_slice(op)?;
        text.push(b',')?;
    }
    text.extend_from_slice(b"{\"op\":\"mark\",\"mark\":1}]]}")?;
    Ok(text)
}

/// A script of polls, each of which has one field.
pub(crate) fn text_of_polls(alloc: Global) -> Result<Vec<u8>, AllocError> {
    text_of(alloc, b"{\"op\":\"poll_event\",\"instance\":0}")
}

/// A script of marks.
pub(crate) fn text_of_marks(alloc: Global) -> Result<Vec<u8>, AllocError> {
    text_of(alloc, b"{\"op\":\"mark\",\"mark\":1,\"value\":0}")
}

/// A script whose ops give names that differ at their ends alone, and use them.
pub(crate) fn text_of_names(alloc: Global) -> Result<Vec<u8>, AllocError> {
    let mut text = Vec::new(alloc);
    text.extend_from_slice(b"{\"version\":1,\"scripts\":[[")?;
    for number in 0..OPS {
        let name = format!(in alloc; "a_name_that_differs_late_{number}")?;
        text.extend_from_slice(b"{\"op\":\"await\",\"mark\":1,\"as\":\"")?;
        text.extend_from_slice(name.as_bytes())?;
        text.extend_from_slice(b"\"},")?;
    }
    text.extend_from_slice(b"{\"op\":\"mark\",\"mark\":1}]]}")?;
    Ok(text)
}

/// How many microseconds the readings of a text took, of its JSON alone and of the scenario.
#[derive(Clone, Copy)]
pub(crate) struct Readings {
    pub(crate) json: u128,
    pub(crate) scenario: u128,
}

/// Reads the JSON of a text, again and again; whether each reading gave a value.
fn read_json(alloc: Global, text: &[u8]) -> bool {
    for _ in 0..TIMES {
        if Value::from_slice(alloc, text).is_err() {
            return false;
        }
    }
    true
}

/// Reads the scenario of a text, again and again; whether each reading gave one.
fn read_scenario(alloc: Global, text: &[u8]) -> bool {
    for _ in 0..TIMES {
        if read(alloc, text).is_err() {
            return false;
        }
    }
    true
}

/// Reads a text both ways, or says by nothing that it is no scenario or that memory was short.
pub(crate) fn time_readings<R: Clock>(
    rt: &R,
    alloc: Global,
    text: &[u8],
) -> io::Result<Option<Readings>> {
    // once for the memory, which the first reading gets from the system
    if !read_scenario(alloc, text) {
        return Ok(None);
    }
    let start = Instant::now(rt)?;
    if !read_json(alloc, text) {
        return Ok(None);
    }
    let json = start.elapsed(rt)?.as_micros();
    let middle = Instant::now(rt)?;
    if !read_scenario(alloc, text) {
        return Ok(None);
    }
    let scenario = middle.elapsed(rt)?.as_micros();
    Ok(Some(Readings { json, scenario }))
}
