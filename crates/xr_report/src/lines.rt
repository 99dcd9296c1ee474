// The lines of a report.
ghost use Rattle.std.specs.Prelude.{◌≡◌, ◌++◌, slice_get, OnOk};
ghost use Rattle.xr_model.specs.report.ReportLines.{call_line, layer_text, layers_text, frame_place, frame_line, ended_line, event_text, event_line, waiting_line};

use crate::device::push_device_line;
use crate::push::{push_number, push_place, push_signed, push_text};
use crate::values::push_values;
use std::alloc::AllocError;
use xr_types::{Actor, DeviceEvent, Made, Reply, Shown, ShownLayer, Waiting};

/// A call of a script.
pub(crate) fn push_call(out: &mut Vec<u8>, places: bool, made: &Made) -> Result<(), AllocError>
    ensures { OnOk result (out.new.items ≡ out.old.items ++ call_line places made.now) }
{
    push_number(out, u64::from(made.op))?;
    push_text(out, " ")?;
    push_text(out, made.name.name())?;
    push_text(out, " ")?;
    push_text(out, made.reply.code.name())?;
    push_values(out, made)?;
    push_place(out, places, &made.reply)?;
    push_text(out, "\n")
}

fn push_projection(out: &mut Vec<u8>, left: u64, right: u64) -> Result<(), AllocError>
    ensures { OnOk result (out.new.items ≡ out.old.items ++ layer_text (ShownLayer.Projection left right)) }
{
    push_text(out, " projection:")?;
    push_number(out, left)?;
    push_text(out, ",")?;
    push_number(out, right)
}

fn push_layer(out: &mut Vec<u8>, layer: ShownLayer) -> Result<(), AllocError>
    ensures { OnOk result (out.new.items ≡ out.old.items ++ layer_text layer) }
{
    match layer {
        ShownLayer::Projection(left, right) => push_projection(out, left, right),
        ShownLayer::Quad(stamp) => {
            push_text(out, " quad:")?;
            push_number(out, stamp)
        }
    }
}

fn push_layers(out: &mut Vec<u8>, layers: &[ShownLayer]) -> Result<(), AllocError>
    ensures { OnOk result (out.new.items ≡ out.old.items ++ layers_text layers.now) }
{
    for layer in layers {
        push_layer(out, *layer)?;
    }
    Ok(())
}

/// The place of the reply at an index, where there is one.
fn push_place_at(
    out: &mut Vec<u8>,
    places: bool,
    replies: &[Reply],
    index: usize,
) -> Result<(), AllocError>
    ensures { OnOk result (out.new.items ≡ out.old.items ++ frame_place places (slice_get replies.now index)) }
{
    match replies.get(index) {
        Some(reply) => push_place(out, places, reply),
        None => Ok(()),
    }
}

/// A frame that the compositor has taken, with the reply at an index.
pub(crate) fn push_frame_line(
    out: &mut Vec<u8>,
    places: bool,
    frame: &Shown,
    replies: &[Reply],
    index: usize,
) -> Result<(), AllocError>
    ensures { OnOk result (out.new.items
        ≡ out.old.items ++ frame_line places frame.now (slice_get replies.now index)) }
{
    push_text(out, "frame ")?;
    push_number(out, frame.number)?;
    push_text(out, " time ")?;
    push_signed(out, frame.time)?;
    push_text(out, " layers ")?;
    push_number(out, frame.layers.as_slice().len() as u64)?;
    push_layers(out, frame.layers.as_slice())?;
    push_place_at(out, places, replies, index)?;
    push_text(out, "\n")
}

/// How the compositor ended, where it did.
pub(crate) fn push_ended(
    out: &mut Vec<u8>,
    places: bool,
    ended: &Option<Reply>,
) -> Result<(), AllocError>
    ensures { OnOk result (out.new.items ≡ out.old.items ++ ended_line places ended.now) }
{
    match ended {
        Some(reply) => {
            push_text(out, "ended")?;
            push_place(out, places, reply)?;
            push_text(out, "\n")
        }
        None => Ok(()),
    }
}

/// An event behind its place among the events. One that ends the device early has no place.
fn push_event_text(out: &mut Vec<u8>, number: u64, event: DeviceEvent) -> Result<(), AllocError>
    ensures { OnOk result (out.new.items ≡ out.old.items ++ event_text number event) }
{
    match event {
        DeviceEvent::Fault => push_text(out, "fault"),
        DeviceEvent::Garbled(line) => {
            push_text(out, "garbled ")?;
            push_number(out, line)
        }
        _ => {
            push_number(out, number)?;
            push_text(out, " ")?;
            push_device_line(out, event)
        }
    }
}

/// An event of the device with its call.
pub(crate) fn push_event_line(
    out: &mut Vec<u8>,
    places: bool,
    number: u64,
    event: DeviceEvent,
    made: &Made,
) -> Result<(), AllocError>
    ensures { OnOk result (out.new.items ≡ out.old.items ++ event_line places number event made.now) }
{
    push_event_text(out, number, event)?;
    push_place(out, places, &made.reply)?;
    push_text(out, "\n")
}

/// The next call of an actor that can't go on.
pub(crate) fn push_waiting(out: &mut Vec<u8>, waiting: &Waiting) -> Result<(), AllocError>
    ensures { OnOk result (out.new.items ≡ out.old.items ++ waiting_line waiting.now.actor waiting.now) }
{
    match waiting.actor {
        Actor::App(number) => {
            push_text(out, "thread ")?;
            push_number(out, u64::from(number))?;
            push_text(out, " ")?;
            push_number(out, u64::from(waiting.op))?;
            push_text(out, " ")?;
            push_text(out, waiting.name.name())?;
            push_text(out, "\n")
        }
        Actor::Device => {
            push_text(out, "device await ")?;
            push_number(out, u64::from(waiting.op))?;
            push_text(out, "\n")
        }
        Actor::Compositor => push_text(out, "compositor next_frame\n"),
    }
}
