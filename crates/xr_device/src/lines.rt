// The line that held bytes begin with.
ghost use Rattle.std.specs.Prelude.{◌≤◌, length};
ghost use Rattle.xr_device.specs.Texts.{Begins};

use crate::bytes::place_of;
use xr_types::{MOST_DEVICE, MOST_LINE};

/// What held bytes begin with.
#[derive(Clone, Copy)]
pub(crate) enum Front {
    /// A line of so many bytes, which takes so many with its line feed.
    Line { bytes: usize, size: usize },
    /// What is no line: it is too long, or it goes past the limit of the text.
    Malformed,
    /// Nothing: the text has ended.
    End,
    /// What may go on in bytes that aren't held.
    Open,
}

/// What held bytes begin with, behind so many of the text. Where more of the text may follow them, a line is given
/// only once its line feed is held, and what is too long or past the limit as soon as the bytes tell it.
pub(crate) fn front_of(held: &[u8], used: usize, ended: bool) -> Front
    requires used { used ≤ MOST_DEVICE }
    requires few { length held.now ≤ 4096 }
    ensures { Begins used held.now ended result }
{
    let seen = &held[..held.len().min(MOST_LINE + 1)];
    if let Some(bytes) = place_of(b'\n', seen) {
        let size = bytes + 1;
        if used + size > MOST_DEVICE {
            return Front::Malformed;
        }
        return Front::Line { bytes, size };
    }
    if seen.len() > MOST_LINE {
        return Front::Malformed;
    }
    if used + seen.len() > MOST_DEVICE {
        return Front::Malformed;
    }
    if !ended {
        return Front::Open;
    }
    if seen.is_empty() {
        return Front::End;
    }
    Front::Line {
        bytes: seen.len(),
        size: seen.len(),
    }
}
