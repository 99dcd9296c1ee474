//! `xr_bench` measures calls on a core, the reading of scenarios and of a device's text, runs, turns of threads under the lock, and
//! getters of threads beside it.
//! It is a measure and no test. It touches the clock, threads and standard output.
#![tactic(auto)]

ghost use Rattle.std.specs.Prelude.{◌≤◌, IfSome};

mod calls;
mod getters;
mod lines;
mod reading;
mod runs;
mod texts;
mod turns;

use calls::measure_each;
use getters::{Reading, measure_getters};
use lines::{read_lines, text_of_lines};
use reading::{CALLS, read_rounds};
use runs::{TURNS, text_of_frame_waits, text_of_passes, text_of_waits, time_runs};
use std::alloc::Global;
use std::io::Print;
use std::process::ExitCode;
use std::time::{Clock, Instant};
use std::{env, io};
use texts::{text_of_marks, text_of_names, text_of_polls, time_readings};
use turns::{Work, measure_turns};

const HELP: &str = "\
xr_bench ROUNDS
Makes ROUNDS rounds of calls, 1 to 100000000, on a core of one application, and prints how many calls a
second it answers. It locates a head in a room as often as there are rounds. It sends as many frames round,
each waited for, begun, ended and taken, beside asking for the system five times. It paints as many images,
each acquired, waited for, painted and released, beside asking for the system six times; shows as many
frames of two images, and as many that are painted anew; and waits as often in vain for an image, and for a
mark. It suggests as many bindings, 512 at once. It syncs one action with one binding as often, and 64 actions
with 512 bindings a 64th as often. It does the same by calls on a core, each followed by a getter, and reads
an action alone as often as there are rounds. Of each it prints how many a second there are.
It reads the calls of a round as a scenario with serde_json, a tenth as often as there are ROUNDS, at most
100000 times, and prints how many ops a second are read; and then a device text of 16777208 bytes, and prints
how many lines a second are read. It runs eight scripts that pass marks round, 20 times, and prints how many
calls a second these make; and seven scripts that wait for an eighth, once for a mark and once for a frame,
and prints how many turns a second there are. It reads three scenarios of 16001 ops, 10 times each, and
prints how long that took, beside how long their JSON alone took to be read: of polls, of marks, and of
names that differ at their ends alone.
xr_bench turns THREADS TURNS ROUNDS
Has 1 to 8 threads take TURNS turns together at a counter under the lock, each with ROUNDS rounds of work inside,
and prints how long they took.
xr_bench getters THREADS CALLS
xr_bench getters-beside THREADS CALLS
xr_bench locked THREADS CALLS
xr_bench locked-beside THREADS CALLS
Has 1 to 7 threads ask CALLS times each for an action's state, or for the system under the lock; beside one more thread
that syncs without pause, where the word says so. Prints how many calls succeeded, how long they took, and how many
syncs there were.
";

/// So many things in so many microseconds, a second.
fn rate(count: u64, micros: u128) -> u128 {
    let spent = if micros == 0 { 1 } else { micros };
    (count as u128 * 1_000_000) / spent
}

/// Measures the reader.
fn measure_reading<R: Clock + Print>(rt: &R, alloc: Global, rounds: u64) -> io::Result<bool> {
    let start = Instant::now(rt)?;
    if !read_rounds(alloc, rounds) {
        return Ok(false);
    }
    let spent = start.elapsed(rt)?.as_micros();
    let ops = CALLS.saturating_mul(rounds);
    println!(rt;
        "serde_json: {ops} ops in {spent} microseconds, {} a second",
        rate(ops, spent)
    )?;
    Ok(true)
}

/// Measures the device's reader.
fn measure_lines<R: Clock + Print>(rt: &R, alloc: Global) -> io::Result<bool> {
    let Ok(text) = text_of_lines(alloc) else {
        return Ok(false);
    };
    let start = Instant::now(rt)?;
    let Ok(lines) = read_lines(alloc, text.as_slice()) else {
        return Ok(false);
    };
    let spent = start.elapsed(rt)?.as_micros();
    println!(rt;
        "device: {lines} lines in {spent} microseconds, {} a second",
        rate(lines, spent)
    )?;
    Ok(true)
}

/// Measures runs of eight scripts.
fn measure_runs<R: Clock + Print>(rt: &R, alloc: Global) -> io::Result<bool> {
    let (Ok(passes), Ok(waits)) = (text_of_passes(alloc), text_of_waits(alloc)) else {
        return Ok(false);
    };
    let Some(passing) = time_runs(rt, alloc, passes.as_slice())? else {
        return Ok(false);
    };
    println!(rt;
        "passing marks: {} calls in {} microseconds, {} a second",
        passing.calls,
        passing.micros,
        rate(passing.calls, passing.micros)
    )?;
    let Some(waiting) = time_runs(rt, alloc, waits.as_slice())? else {
        return Ok(false);
    };
    println!(rt;
        "seven wait: {TURNS} turns in {} microseconds, {} a second",
        waiting.micros,
        rate(TURNS, waiting.micros)
    )?;
    Ok(true)
}

/// Measures a run in which seven scripts wait for a frame.
fn measure_frame_waits<R: Clock + Print>(rt: &R, alloc: Global) -> io::Result<bool> {
    let Ok(text) = text_of_frame_waits(alloc) else {
        return Ok(false);
    };
    let Some(waiting) = time_runs(rt, alloc, text.as_slice())? else {
        return Ok(false);
    };
    println!(rt;
        "seven wait for a frame: {TURNS} turns in {} microseconds, {} a second",
        waiting.micros,
        rate(TURNS, waiting.micros)
    )?;
    Ok(true)
}

/// Measures how a text is read.
fn measure_text<R: Clock + Print>(
    rt: &R,
    alloc: Global,
    what: &str,
    text: &[u8],
) -> io::Result<bool> {
    let Some(took) = time_readings(rt, alloc, text)? else {
        return Ok(false);
    };
    let json = took.json.max(1);
    println!(rt;
        "reading {what}: {} microseconds, {} of them the JSON, {} percent of that",
        took.scenario,
        took.json,
        took.scenario.saturating_mul(100) / json
    )?;
    Ok(true)
}

/// Measures how three kinds of texts are read.
fn measure_texts<R: Clock + Print>(rt: &R, alloc: Global) -> io::Result<bool> {
    let (Ok(polls), Ok(marks), Ok(names)) = (
        text_of_polls(alloc),
        text_of_marks(alloc),
        text_of_names(alloc),
    ) else {
        return Ok(false);
    };
    let polls = measure_text(rt, alloc, "polls", polls.as_slice())?;
    let marks = measure_text(rt, alloc, "marks", marks.as_slice())?;
    let names = measure_text(rt, alloc, "names", names.as_slice())?;
    Ok(polls && marks && names)
}

/// Measures all of these; whether memory was found.
fn measure<R: Clock + Print>(rt: &R, alloc: Global, rounds: u64) -> io::Result<bool> {
    let calls = measure_each(rt, alloc, rounds)?;
    let readings = (rounds / 10).min(100_000);
    let reading = measure_reading(rt, alloc, readings)?;
    let lines = measure_lines(rt, alloc)?;
    let runs = measure_runs(rt, alloc)?;
    let waits = measure_frame_waits(rt, alloc)?;
    let texts = measure_texts(rt, alloc)?;
    Ok(calls && reading && lines && runs && waits && texts)
}

/// The rounds that the words ask for.
fn rounds_of(words: &[String]) -> Option<u64> {
    if words.len() != 1 {
        return None;
    }
    match words[0].as_str().parse::<u64>() {
        Ok(rounds) if 1 <= rounds && rounds <= 100_000_000 => Some(rounds),
        _ => None,
    }
}

/// The number that a word is, and else 0.
fn number(word: &String) -> u64 {
    word.as_str().parse::<u64>().unwrap_or(0)
}

/// The calls on threads that the words ask for.
fn reading_of(words: &[String]) -> Option<Reading>
    ensures { IfSome result (λ reading. reading.threads ≤ 7) }
{
    if words.len() != 3 {
        return None;
    }
    let (locked, beside) = match words[0].as_str() {
        "getters" => (false, false),
        "getters-beside" => (false, true),
        "locked" => (true, false),
        "locked-beside" => (true, true),
        _ => return None,
    };
    let threads = number(&words[1]);
    if threads < 1 || threads > 7 {
        return None;
    }
    Some(Reading {
        threads: threads as u8,
        calls: number(&words[2]),
        locked,
        beside,
    })
}

/// The turns that the words ask for.
fn turns_of(words: &[String]) -> Option<Work>
    ensures { IfSome result (λ work. (1 ≤ work.threads) × (work.threads ≤ 8)) }
{
    if words.len() != 4 || words[0].as_str() != "turns" {
        return None;
    }
    let threads = number(&words[1]);
    if threads < 1 || threads > 8 {
        return None;
    }
    Some(Work {
        threads: threads as u8,
        turns: number(&words[2]),
        inside: number(&words[3]),
    })
}

fn main(rt: HostRuntime) -> ExitCode {
    let alloc = rt.alloc();
    let words = match env::args(&rt) {
        Ok(given) => given.skip(1).collect::<Vec<String>>(alloc),
        Err(_) => return ExitCode::from(1),
    };
    let Ok(words) = words else {
        return ExitCode::from(9);
    };
    let done = if let Some(work) = turns_of(words.as_slice()) {
        measure_turns(&rt, alloc, work)
    } else if let Some(reading) = reading_of(words.as_slice()) {
        measure_getters(&rt, alloc, reading)
    } else if let Some(rounds) = rounds_of(words.as_slice()) {
        measure(&rt, alloc, rounds)
    } else {
        print!(&rt; "{HELP}").map(|()| true)
    };
    match done {
        Ok(true) => ExitCode::from(0),
        Ok(false) => ExitCode::from(9),
        Err(_) => ExitCode::from(8),
    }
}
