// The lines of a device text.
ghost use Rattle.std.specs.Prelude.{◌≡◌, ◌++◌, OnOk};
ghost use Rattle.xr_model.specs.device_text.DeviceLines.{connected, device_line};

use crate::push::{push_number, push_signed, push_text};
use std::alloc::AllocError;
use xr_types::{DeviceEvent, Origin, Profile, User, Word, input_name};

fn connected(profile: Option<Profile>) -> &'static str
    ensures { result.now ≡ connected profile }
{
    match profile {
        Some(profile) => profile.word(),
        None => "none",
    }
}

fn push_grid(out: &mut Vec<u8>, base: i64, period: i64) -> Result<(), AllocError>
    ensures { OnOk result (out.new.items ≡ out.old.items ++ device_line (DeviceEvent.Grid base period)) }
{
    push_text(out, "grid ")?;
    push_signed(out, base)?;
    push_text(out, " ")?;
    push_signed(out, period)
}

fn push_profile(out: &mut Vec<u8>, user: User, profile: Option<Profile>) -> Result<(), AllocError>
    ensures { OnOk result (out.new.items ≡ out.old.items ++ device_line (DeviceEvent.Profile user profile)) }
{
    push_text(out, "profile ")?;
    push_text(out, user.word())?;
    push_text(out, " ")?;
    push_text(out, connected(profile))
}

fn push_input(out: &mut Vec<u8>, user: User, row: u8, value: i32) -> Result<(), AllocError>
    ensures { OnOk result (out.new.items ≡ out.old.items ++ device_line (DeviceEvent.Input user row value)) }
{
    push_text(out, "input ")?;
    push_text(out, user.word())?;
    push_text(out, "/input/")?;
    push_text(out, input_name(row))?;
    push_text(out, " ")?;
    push_signed(out, i64::from(value))
}

fn push_pose(out: &mut Vec<u8>, origin: Origin, time: i64, pose: u64) -> Result<(), AllocError>
    ensures { OnOk result (out.new.items ≡ out.old.items ++ device_line (DeviceEvent.Pose origin time pose)) }
{
    push_text(out, "pose ")?;
    push_text(out, origin.word())?;
    push_text(out, " ")?;
    push_signed(out, time)?;
    push_text(out, " ")?;
    push_number(out, pose)
}

/// The line that gives an event. Nothing for the two ways in which a device ends early.
pub(crate) fn push_device_line(out: &mut Vec<u8>, event: DeviceEvent) -> Result<(), AllocError>
    ensures { OnOk result (out.new.items ≡ out.old.items ++ device_line event) }
{
    match event {
        DeviceEvent::Clock(time) => {
            push_text(out, "clock ")?;
            push_signed(out, time)
        }
        DeviceEvent::Grid { base, period } => push_grid(out, base, period),
        DeviceEvent::Wish(wish) => {
            push_text(out, "wish ")?;
            push_text(out, wish.word())
        }
        DeviceEvent::Loss => push_text(out, "loss"),
        DeviceEvent::Lost => push_text(out, "lost"),
        DeviceEvent::Stage(on) => push_text(out, if on { "stage on" } else { "stage off" }),
        DeviceEvent::Profile { user, profile } => push_profile(out, user, profile),
        DeviceEvent::Input { user, row, value } => push_input(out, user, row, value),
        DeviceEvent::Pose { origin, time, pose } => push_pose(out, origin, time, pose),
        DeviceEvent::Mark(mark) => {
            push_text(out, "mark ")?;
            push_number(out, u64::from(mark))
        }
        DeviceEvent::Await(mark) => {
            push_text(out, "await ")?;
            push_number(out, u64::from(mark))
        }
        DeviceEvent::Fault | DeviceEvent::Garbled(_) => Ok(()),
    }
}
