// The blocks of a report.
ghost use Rattle.std.specs.Prelude.{◌≡◌, ◌++◌, OnOk, IfOk};
ghost use Rattle.xr_model.specs.report.Report.{lines_of, threads_from, frames_from, compositor_block, events_from, device_block, waiting_lines, stuck_block, status_line, report_of};

use crate::ending::{ending_of, exit_of};
use crate::lines::{push_call, push_ended, push_event_line, push_frame_line, push_waiting};
use crate::push::{push_number, push_text};
use std::alloc::{AllocError, Global};
use xr_types::{DeviceEvent, Lists, Made, MadeList, NoMemory, Reply, Shown, Waiting};

/// The lines of one script's calls.
fn push_calls(out: &mut Vec<u8>, places: bool, calls: &[Made]) -> Result<(), AllocError>
    ensures { OnOk result (out.new.items ≡ out.old.items ++ lines_of places calls.now) }
{
    for made in calls {
        push_call(out, places, made)?;
    }
    Ok(())
}

/// The blocks of all scripts, numbered from 1.
fn push_threads(out: &mut Vec<u8>, places: bool, apps: &[MadeList]) -> Result<(), AllocError>
    ensures { OnOk result (out.new.items ≡ out.old.items ++ threads_from places 1 apps.now) }
{
    let mut number = 0;
    for calls in apps {
        number += 1;
        push_text(out, "thread ")?;
        push_number(out, number)?;
        push_text(out, "\n")?;
        push_calls(out, places, calls.as_slice())?;
    }
    Ok(())
}

/// The frames that the compositor has taken, with their replies.
fn push_frames(
    out: &mut Vec<u8>,
    places: bool,
    frames: &[Shown],
    replies: &[Reply],
) -> Result<(), AllocError>
    ensures { OnOk result (out.new.items ≡ out.old.items ++ frames_from places replies.now 0 frames.now) }
{
    for (index, frame) in frames.iter().enumerate() {
        push_frame_line(out, places, frame, replies, index)?;
    }
    Ok(())
}

/// The compositor's block.
fn push_compositor(
    out: &mut Vec<u8>,
    places: bool,
    frames: &[Shown],
    replies: &[Reply],
    ended: &Option<Reply>,
) -> Result<(), AllocError>
    ensures { OnOk result (out.new.items
        ≡ out.old.items ++ compositor_block places frames.now replies.now ended.now) }
{
    push_text(out, "compositor\n")?;
    push_frames(out, places, frames, replies)?;
    push_ended(out, places, ended)
}

/// The device's events with their calls, numbered from 1.
fn push_events(
    out: &mut Vec<u8>,
    places: bool,
    events: &[DeviceEvent],
    calls: &[Made],
) -> Result<(), AllocError>
    ensures { OnOk result (out.new.items ≡ out.old.items ++ events_from places 1 events.now calls.now) }
{
    let mut number = 0;
    for (event, made) in events.iter().zip(calls) {
        number += 1;
        push_event_line(out, places, number, *event, made)?;
    }
    Ok(())
}

/// The device's block.
fn push_device(
    out: &mut Vec<u8>,
    places: bool,
    events: &[DeviceEvent],
    calls: &[Made],
) -> Result<(), AllocError>
    ensures { OnOk result (out.new.items ≡ out.old.items ++ device_block places events.now calls.now) }
{
    push_text(out, "device\n")?;
    push_events(out, places, events, calls)
}

/// The next calls of a run that can't go on.
fn push_stuck(out: &mut Vec<u8>, next: &[Waiting]) -> Result<(), AllocError>
    ensures { OnOk result (out.new.items ≡ out.old.items ++ stuck_block next.now) }
{
    if next.is_empty() {
        return Ok(());
    }
    push_text(out, "stuck\n")?;
    push_all_waiting(out, next)
}

fn push_all_waiting(out: &mut Vec<u8>, next: &[Waiting]) -> Result<(), AllocError>
    ensures { OnOk result (out.new.items ≡ out.old.items ++ waiting_lines next.now) }
{
    for waiting in next {
        push_waiting(out, waiting)?;
    }
    Ok(())
}

pub(crate) fn push_status(out: &mut Vec<u8>, lists: &Lists) -> Result<(), AllocError>
    ensures { OnOk result (out.new.items ≡ out.old.items ++ status_line lists.now) }
{
    push_text(out, "status ")?;
    push_number(out, u64::from(exit_of(ending_of(lists))))?;
    push_text(out, "\n")
}

/// All that a report has, in its order.
fn push_report(out: &mut Vec<u8>, places: bool, lists: &Lists) -> Result<(), AllocError>
    ensures { OnOk result (out.new.items ≡ out.old.items ++ report_of lists.now places) }
{
    push_text(out, "xrsim report 1\n")?;
    push_threads(out, places, lists.apps.as_slice())?;
    push_compositor(
        out,
        places,
        lists.compositor.as_slice(),
        lists.shown.as_slice(),
        &lists.ended,
    )?;
    push_device(
        out,
        places,
        lists.events.as_slice(),
        lists.device.as_slice(),
    )?;
    push_stuck(out, lists.next.as_slice())?;
    push_status(out, lists)?;
    Ok(())
}

/// The report of what a run has made: the calls of each script with their replies, the frames that the
/// compositor has taken, the device's events, and where the run is stuck the calls that wait. With
/// `places` the line of each call ends in its reply's place. Refused only by want of memory.
pub fn report(alloc: Global, lists: &Lists, places: bool) -> Result<Vec<u8>, NoMemory>
    ensures { IfOk result (λ text. text.items ≡ report_of lists.now places) }
{
    let mut out = Vec::new(alloc);
    push_report(&mut out, places, lists)?;
    Ok(out)
}
