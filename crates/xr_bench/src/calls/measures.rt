// What is measured, each on a new core, and how it is told.
use super::asking::ask_often;
use super::frames::{frame_often, set_running};
use super::images::{
    await_often, paint_and_show_often, paint_often, set_in_use, set_painting, show_often,
    wait_image_often,
};
use super::locates::{locate_often, set_out};
use super::reads::{read_often, set_reading, sync_and_read_often};
use super::round::round_often;
use super::suggests::{set_up, suggest_often};
use super::syncs::sync_often;
use std::alloc::Global;
use std::io;
use std::io::Print;
use std::time::{Clock, Instant};
use xr_core::PlainCore;
use xr_types::MOST_SUGGESTED;

/// So many things in so many microseconds, a second.
fn rate(count: u64, micros: u128) -> u128 {
    let spent = if micros == 0 { 1 } else { micros };
    (count as u128 * 1_000_000) / spent
}

/// Tells how many things there were since the start, and how many that is a second.
fn tell<R: Clock + Print>(
    rt: &R,
    start: Instant,
    what: &str,
    count: u64,
    things: &str,
) -> io::Result<()> {
    let spent = start.elapsed(rt)?.as_micros();
    println!(rt;
        "{what}: {count} {things} in {spent} microseconds, {} a second",
        rate(count, spent)
    )
}

/// Measures rounds of calls.
fn tell_calls<R: Clock + Print>(rt: &R, core: &mut PlainCore, rounds: u64) -> io::Result<()> {
    let start = Instant::now(rt)?;
    round_often(core, rounds);
    tell(rt, start, "core", core.calls(), "calls")
}

/// Measures locating.
fn tell_locating<R: Clock + Print>(rt: &R, core: &mut PlainCore, rounds: u64) -> io::Result<()> {
    let place = set_out(core);
    let start = Instant::now(rt)?;
    let found = locate_often(core, &place, rounds);
    tell(rt, start, "locating", found, "spaces")
}

/// Measures asking for the system, so often each time.
fn tell_asking<R: Clock + Print>(
    rt: &R,
    core: &mut PlainCore,
    instance: u64,
    each: u64,
    rounds: u64,
) -> io::Result<()> {
    let start = Instant::now(rt)?;
    let asked = ask_often(core, instance, each, rounds);
    let times = if each == 5 {
        "times five calls"
    } else {
        "times six calls"
    };
    tell(rt, start, "get_system", asked, times)
}

/// Measures frames, beside as many times five calls that ask for the system.
fn tell_frames<R: Clock + Print>(rt: &R, core: &mut PlainCore, rounds: u64) -> io::Result<()> {
    let running = set_running(core);
    let start = Instant::now(rt)?;
    let frames = frame_often(core, running, rounds);
    tell(rt, start, "frames", frames, "of four calls")?;
    tell_asking(rt, core, running.instance, 5, rounds)
}

/// Measures painting, beside as many times six calls that ask for the system.
fn tell_painting<R: Clock + Print>(rt: &R, core: &mut PlainCore, rounds: u64) -> io::Result<()> {
    let running = set_running(core);
    let painting = set_painting(core, running);
    let start = Instant::now(rt)?;
    let painted = paint_often(core, painting, rounds);
    tell(rt, start, "images", painted, "of four calls")?;
    tell_asking(rt, core, running.instance, 6, rounds)
}

/// Measures frames of two images, first of the same and then of newly painted ones.
fn tell_images<R: Clock + Print>(rt: &R, core: &mut PlainCore, rounds: u64) -> io::Result<()> {
    let running = set_running(core);
    let painting = set_painting(core, running);
    let _ = paint_and_show_often(core, painting, 1);
    let start = Instant::now(rt)?;
    let frames = show_often(core, painting, rounds);
    tell(rt, start, "frames of two images", frames, "of six calls")?;
    let start = Instant::now(rt)?;
    let frames = paint_and_show_often(core, painting, rounds);
    tell(rt, start, "frames painted", frames, "of fourteen calls")
}

/// Measures waits in vain for an image, beside those for a mark.
fn tell_waits<R: Clock + Print>(rt: &R, core: &mut PlainCore, rounds: u64) -> io::Result<()> {
    let running = set_running(core);
    let painting = set_painting(core, running);
    set_in_use(core, painting);
    let start = Instant::now(rt)?;
    let waits = wait_image_often(core, painting, rounds);
    tell(rt, start, "waiting for an image", waits, "times")?;
    let start = Instant::now(rt)?;
    let waits = await_often(core, rounds);
    tell(rt, start, "waiting for a mark", waits, "times")
}

/// Measures suggesting: as many bindings as there are rounds, and at least as many as a profile has.
fn tell_suggesting<R: Clock + Print>(rt: &R, core: &mut PlainCore, rounds: u64) -> io::Result<()> {
    let suggestions = set_up(core);
    let times = (rounds / MOST_SUGGESTED as u64).max(1);
    let start = Instant::now(rt)?;
    let taken = suggest_often(core, &suggestions, times);
    tell(rt, start, "suggesting", taken, "bindings")
}

/// Measures syncs: of one action with one binding, and, a 64th as often, of 64 actions with 512. Nothing is told of those for which
/// there is no memory.
fn tell_syncs<R: Clock + Print>(rt: &R, alloc: Global, rounds: u64) -> io::Result<()> {
    let start = Instant::now(rt)?;
    if sync_often(alloc, false, rounds).is_ok() {
        tell(rt, start, "syncing one action", rounds, "times")?;
    }
    let times = (rounds / 64).max(1);
    let start = Instant::now(rt)?;
    if sync_often(alloc, true, times).is_ok() {
        tell(rt, start, "syncing all actions", times, "times")?;
    }
    Ok(())
}

/// Measures syncs by calls, each with a getter behind it, and getters alone: of one action with one binding.
fn tell_reading<R: Clock + Print>(rt: &R, core: &mut PlainCore, rounds: u64) -> io::Result<()> {
    let reading = set_reading(core, false);
    let start = Instant::now(rt)?;
    let done = sync_and_read_often(core, reading, rounds);
    tell(rt, start, "a sync and a getter", done, "times")?;
    let start = Instant::now(rt)?;
    let done = read_often(core, reading, rounds);
    tell(rt, start, "a getter", done, "times")
}

/// The same of 64 actions with 512 bindings, where syncs are made a 64th as often.
fn tell_reading_all<R: Clock + Print>(rt: &R, core: &mut PlainCore, rounds: u64) -> io::Result<()> {
    let reading = set_reading(core, true);
    let start = Instant::now(rt)?;
    let done = sync_and_read_often(core, reading, (rounds / 64).max(1));
    tell(
        rt,
        start,
        "a sync of all actions and a getter",
        done,
        "times",
    )?;
    let start = Instant::now(rt)?;
    let done = read_often(core, reading, rounds);
    tell(rt, start, "a getter among all actions", done, "times")
}

/// What is measured on a core of its own; syncs need none.
#[derive(Clone, Copy)]
enum Measure {
    Calls,
    Locating,
    Frames,
    Painting,
    Images,
    Waits,
    Suggesting,
    Syncs,
    Reading,
    ReadingAll,
}

/// Takes this measure on a core that is new.
fn take<R: Clock + Print>(
    rt: &R,
    alloc: Global,
    core: &mut PlainCore,
    what: Measure,
    rounds: u64,
) -> io::Result<()> {
    match what {
        Measure::Calls => tell_calls(rt, core, rounds),
        Measure::Locating => tell_locating(rt, core, rounds),
        Measure::Frames => tell_frames(rt, core, rounds),
        Measure::Painting => tell_painting(rt, core, rounds),
        Measure::Images => tell_images(rt, core, rounds),
        Measure::Waits => tell_waits(rt, core, rounds),
        Measure::Suggesting => tell_suggesting(rt, core, rounds),
        Measure::Syncs => tell_syncs(rt, alloc, rounds),
        Measure::Reading => tell_reading(rt, core, rounds),
        Measure::ReadingAll => tell_reading_all(rt, core, rounds),
    }
}

/// Measures all of these; whether memory was found.
pub(crate) fn measure_each<R: Clock + Print>(
    rt: &R,
    alloc: Global,
    rounds: u64,
) -> io::Result<bool> {
    for what in [
        Measure::Calls,
        Measure::Locating,
        Measure::Frames,
        Measure::Painting,
        Measure::Images,
        Measure::Waits,
        Measure::Suggesting,
        Measure::Syncs,
        Measure::Reading,
        Measure::ReadingAll,
    ] {
        let Ok(mut core) = PlainCore::start(alloc, 1) else {
            return Ok(false);
        };
        take(rt, alloc, &mut core, what, rounds)?;
    }
    Ok(true)
}
