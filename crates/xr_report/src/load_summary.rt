// The summary of a load.
ghost use Rattle.std.specs.Prelude.{◌≡◌, ◌<◌, ◌+◌, ◌%◌, ◌^◌, ◌++◌, ℕ, OnOk, IfOk, slice_index};
ghost use Rattle.xr_types.specs.Code.{every_code};
ghost use Rattle.xr_model.specs.report.Summary.{number_line, first_calls, code_count, code_line, code_lines, layer_stamps, layers_stamps, stamps_of, last_time, frame_lines, summary_of};
ghost use Rattle.xr_report.specs.inside.Counts.{lines_by};

use crate::blocks::push_status;
use crate::push::{push_number, push_signed, push_text};
use std::alloc::{AllocError, Global};
use xr_types::{Code, Lists, Made, MadeList, NoMemory, Shown, ShownLayer};

/// How often each result came, by its number.
type Counts = [u64; 40];

fn push_number_line(out: &mut Vec<u8>, name: &str, number: u64) -> Result<(), AllocError>
    ensures { OnOk result (out.new.items ≡ out.old.items ++ number_line name.now number) }
{
    push_text(out, name)?;
    push_text(out, " ")?;
    push_number(out, number)?;
    push_text(out, "\n")
}

fn first_calls(apps: &[MadeList]) -> &[Made]
    ensures { result.now ≡ first_calls apps.now }
{
    match apps.first() {
        Some(calls) => calls.as_slice(),
        None => &[],
    }
}

fn counts_of(calls: &[Made]) -> Counts
    ensures { (n : ℕ) → n < 40 → slice_index result n ≡ code_count n calls.now }
{
    let mut counts = [0; 40];
    for made in calls {
        counts[made.reply.code.number()] += 1;
    }
    counts
}

fn push_code(out: &mut Vec<u8>, count: u64, code: Code) -> Result<(), AllocError>
    ensures { OnOk result (out.new.items ≡ out.old.items ++ code_line count code) }
{
    if count == 0 {
        return Ok(());
    }
    push_number_line(out, code.name(), count)
}

/// A line for each of these results that came, by all counts.
fn push_counts(out: &mut Vec<u8>, counts: &Counts, codes: &[Code]) -> Result<(), AllocError>
    ensures { OnOk result (out.new.items ≡ out.old.items ++ lines_by counts.now codes.now) }
{
    for code in codes {
        push_code(out, counts[code.number()], *code)?;
    }
    Ok(())
}

fn push_codes(out: &mut Vec<u8>, calls: &[Made]) -> Result<(), AllocError>
    ensures { OnOk result (out.new.items ≡ out.old.items ++ code_lines calls.now every_code) }
{
    let counts = counts_of(calls);
    push_counts(out, &counts, &Code::ALL)
}

/// The stamps of a layer more.
fn with_layer(sum: u64, layer: ShownLayer) -> u64
    ensures { result ≡ (sum + layer_stamps layer) % 2 ^ 64 }
{
    match layer {
        ShownLayer::Projection(left, right) => sum.wrapping_add(left).wrapping_add(right),
        ShownLayer::Quad(stamp) => sum.wrapping_add(stamp),
    }
}

/// The stamps of these layers more.
fn with_layers(sum: u64, layers: &[ShownLayer]) -> u64
    ensures { result ≡ (sum + layers_stamps layers.now) % 2 ^ 64 }
{
    let mut sum = sum;
    for layer in layers {
        sum = with_layer(sum, *layer);
    }
    sum
}

fn stamps_of(frames: &[Shown]) -> u64
    ensures { result ≡ stamps_of frames.now % 2 ^ 64 }
{
    let mut sum = 0;
    for frame in frames {
        sum = with_layers(sum, frame.layers.as_slice());
    }
    sum
}

fn last_time(frames: &[Shown]) -> i64
    ensures { result ≡ last_time frames.now }
{
    match frames.last() {
        Some(frame) => frame.time,
        None => 0,
    }
}

fn push_frame_lines(out: &mut Vec<u8>, frames: &[Shown]) -> Result<(), AllocError>
    ensures { OnOk result (out.new.items ≡ out.old.items ++ frame_lines frames.now) }
{
    push_number_line(out, "frames", frames.len() as u64)?;
    push_number_line(out, "stamps", stamps_of(frames))?;
    push_text(out, "last time ")?;
    push_signed(out, last_time(frames))?;
    push_text(out, "\n")
}

/// All that a summary has, in its order.
fn push_summary(out: &mut Vec<u8>, n: u32, lists: &Lists) -> Result<(), AllocError>
    ensures { OnOk result (out.new.items ≡ out.old.items ++ summary_of n lists.now) }
{
    let calls = first_calls(lists.apps.as_slice());
    push_number_line(out, "xrsim load", u64::from(n))?;
    push_number_line(out, "calls", calls.len() as u64)?;
    push_codes(out, calls)?;
    push_frame_lines(out, lists.compositor.as_slice())?;
    push_status(out, lists)?;
    Ok(())
}

/// The summary of what a load of so many frames has made: the count of its calls, of the frames that the compositor has
/// taken and of each result that came, the sum of the frames' stamps modulo 2^64, the last one's time, and the status.
/// Refused only by want of memory.
pub fn summary(alloc: Global, n: u32, lists: &Lists) -> Result<Vec<u8>, NoMemory>
    ensures { IfOk result (λ text. text.items ≡ summary_of n lists.now) }
{
    let mut out = Vec::new(alloc);
    push_summary(&mut out, n, lists)?;
    Ok(out)
}
