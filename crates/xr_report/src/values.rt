// The values behind a call's code, by the name of the call.
ghost use Rattle.std.specs.Prelude.{◌≡◌, ◌++◌, OnOk};
ghost use Rattle.xr_model.specs.report.ReportValues.{number_values, mark_values, size_values, text_behind, text_values, event_values, frame_values, change_values, boolean_values, float_values, vector_values, active_values, location_values, success_values, too_small_values, values_of};

use crate::push::{push_flag, push_number, push_signed, push_text};
use std::alloc::AllocError;
use xr_types::{CallName, Code, Event, Gives, Location, MOST_HANDLE_MARK, Made};

fn push_number_given(out: &mut Vec<u8>, gives: Gives) -> Result<(), AllocError>
    ensures { OnOk result (out.new.items ≡ out.old.items ++ number_values gives) }
{
    match gives {
        Gives::Number(number) => {
            push_text(out, " ")?;
            push_number(out, number)
        }
        _ => Ok(()),
    }
}

/// The value of a mark, unless it is a handle.
fn push_mark(out: &mut Vec<u8>, mark: u8, gives: Gives) -> Result<(), AllocError>
    ensures { OnOk result (out.new.items ≡ out.old.items ++ mark_values mark gives) }
{
    if mark <= MOST_HANDLE_MARK {
        Ok(())
    } else {
        push_number_given(out, gives)
    }
}

fn push_size(out: &mut Vec<u8>, gives: Gives) -> Result<(), AllocError>
    ensures { OnOk result (out.new.items ≡ out.old.items ++ size_values gives) }
{
    match gives {
        Gives::Size(size) => {
            push_text(out, " ")?;
            push_number(out, size)
        }
        _ => Ok(()),
    }
}

/// A text that was written, without its terminating zero.
fn push_written(out: &mut Vec<u8>, text: &[u8]) -> Result<(), AllocError>
    ensures { OnOk result (out.new.items ≡ out.old.items ++ text_behind text.now) }
{
    if text.is_empty() {
        return Ok(());
    }
    push_text(out, " ")?;
    out.extend_from_slice(&text[..text.len() - 1])
}

/// A text with its size.
fn push_text_given(out: &mut Vec<u8>, gives: Gives, text: &[u8]) -> Result<(), AllocError>
    ensures { OnOk result (out.new.items ≡ out.old.items ++ text_values gives text.now) }
{
    match gives {
        Gives::Size(size) => {
            push_text(out, " ")?;
            push_number(out, size)?;
            push_written(out, text)
        }
        _ => Ok(()),
    }
}

fn push_event(out: &mut Vec<u8>, gives: Gives) -> Result<(), AllocError>
    ensures { OnOk result (out.new.items ≡ out.old.items ++ event_values gives) }
{
    match gives {
        Gives::Event(Event::Lost(count)) => {
            push_text(out, " events_lost ")?;
            push_number(out, count)
        }
        Gives::Event(Event::State { ordinal, state, .. }) => {
            push_text(out, " state ")?;
            push_number(out, ordinal)?;
            push_text(out, " ")?;
            push_text(out, state.name())
        }
        _ => Ok(()),
    }
}

fn push_frame(out: &mut Vec<u8>, gives: Gives) -> Result<(), AllocError>
    ensures { OnOk result (out.new.items ≡ out.old.items ++ frame_values gives) }
{
    let Gives::Frame(frame) = gives else {
        return Ok(());
    };
    push_text(out, " time ")?;
    push_signed(out, frame.time)?;
    push_text(out, " period ")?;
    push_signed(out, frame.period)?;
    push_text(out, " render ")?;
    push_flag(out, frame.render)
}

/// What the states of all actions have behind their value.
fn push_change(out: &mut Vec<u8>, changed: bool, time: i64, active: bool) -> Result<(), AllocError>
    ensures { OnOk result (out.new.items ≡ out.old.items ++ change_values changed time active) }
{
    push_text(out, " changed ")?;
    push_flag(out, changed)?;
    push_text(out, " time ")?;
    push_signed(out, time)?;
    push_text(out, " active ")?;
    push_flag(out, active)
}

fn push_boolean(out: &mut Vec<u8>, gives: Gives) -> Result<(), AllocError>
    ensures { OnOk result (out.new.items ≡ out.old.items ++ boolean_values gives) }
{
    let Gives::Boolean(state) = gives else {
        return Ok(());
    };
    push_text(out, " value ")?;
    push_flag(out, state.value)?;
    push_change(out, state.changed, state.time, state.active)
}

fn push_float(out: &mut Vec<u8>, gives: Gives) -> Result<(), AllocError>
    ensures { OnOk result (out.new.items ≡ out.old.items ++ float_values gives) }
{
    let Gives::Float(state) = gives else {
        return Ok(());
    };
    push_text(out, " value ")?;
    push_signed(out, i64::from(state.value))?;
    push_change(out, state.changed, state.time, state.active)
}

fn push_vector(out: &mut Vec<u8>, gives: Gives) -> Result<(), AllocError>
    ensures { OnOk result (out.new.items ≡ out.old.items ++ vector_values gives) }
{
    let Gives::Vector(state) = gives else {
        return Ok(());
    };
    push_text(out, " value ")?;
    push_signed(out, i64::from(state.x))?;
    push_text(out, " ")?;
    push_signed(out, i64::from(state.y))?;
    push_change(out, state.changed, state.time, state.active)
}

fn push_active(out: &mut Vec<u8>, gives: Gives) -> Result<(), AllocError>
    ensures { OnOk result (out.new.items ≡ out.old.items ++ active_values gives) }
{
    let Gives::Active(active) = gives else {
        return Ok(());
    };
    push_text(out, " active ")?;
    push_flag(out, active)
}

/// The factors of a location, with `-` before those that stand for inverses.
fn push_location(out: &mut Vec<u8>, gives: Gives) -> Result<(), AllocError>
    ensures { OnOk result (out.new.items ≡ out.old.items ++ location_values gives) }
{
    match gives {
        Gives::Location(Location::Missing) => push_text(out, " missing"),
        Gives::Location(
            Location::Factors {
                base_offset,
                base_sample,
                sample,
                offset,
            },
        ) => {
            push_text(out, " -")?;
            push_number(out, base_offset)?;
            push_text(out, " -")?;
            push_number(out, base_sample)?;
            push_text(out, " +")?;
            push_number(out, sample)?;
            push_text(out, " +")?;
            push_number(out, offset)
        }
        _ => Ok(()),
    }
}

/// The values of a call that succeeded.
fn push_success(out: &mut Vec<u8>, made: &Made) -> Result<(), AllocError>
    ensures { OnOk result (out.new.items ≡ out.old.items ++ success_values made.now.name made.now) }
{
    let gives = made.reply.gives;
    match made.name {
        // rows: the values
        CallName::GetSystem | CallName::StringToPath | CallName::AcquireImage => {
            push_number_given(out, gives)
        }
        CallName::PathToString => push_text_given(out, gives, made.text.as_slice()),
        CallName::PollEvent => push_event(out, gives),
        CallName::LocateSpace => push_location(out, gives),
        CallName::GetBoolean => push_boolean(out, gives),
        CallName::GetFloat => push_float(out, gives),
        CallName::GetVector => push_vector(out, gives),
        CallName::GetPoseActive => push_active(out, gives),
        CallName::WaitFrame => push_frame(out, gives),
        CallName::Await => push_mark(out, made.mark, gives),
        // rows: end
        _ => Ok(()),
    }
}

/// The values of a call whose buffer was too small.
fn push_too_small(out: &mut Vec<u8>, made: &Made) -> Result<(), AllocError>
    ensures { OnOk result (out.new.items ≡ out.old.items ++ too_small_values made.now.name made.now.reply.gives) }
{
    match made.name {
        CallName::PathToString => push_size(out, made.reply.gives),
        _ => Ok(()),
    }
}

/// The values behind a call's code: those of a success, and a text's size where its buffer was too small.
pub(crate) fn push_values(out: &mut Vec<u8>, made: &Made) -> Result<(), AllocError>
    ensures { OnOk result (out.new.items ≡ out.old.items ++ values_of made.now) }
{
    match made.reply.code {
        Code::Success | Code::SessionLossPending => push_success(out, made),
        Code::SizeInsufficient => push_too_small(out, made),
        _ => Ok(()),
    }
}
