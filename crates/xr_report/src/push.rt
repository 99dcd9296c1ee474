// Texts, numbers and places, appended.
ghost use Rattle.std.specs.Prelude.{◌≡◌, ◌++◌, decimal, OnOk};
ghost use Rattle.std.specs.Fmt.{signed_decimal};
ghost use Rattle.xr_model.specs.report.ReportValues.{flag};
ghost use Rattle.xr_model.specs.report.ReportLines.{place_behind};

use itoa::Buffer;
use std::alloc::AllocError;
use xr_types::Reply;

pub(crate) fn push_text(out: &mut Vec<u8>, text: &str) -> Result<(), AllocError>
    ensures { OnOk result (out.new.items ≡ out.old.items ++ text.now) }
{
    out.extend_from_slice(text.as_bytes())
}

pub(crate) fn push_number(out: &mut Vec<u8>, number: u64) -> Result<(), AllocError>
    ensures { OnOk result (out.new.items ≡ out.old.items ++ decimal number) }
{
    let mut digits = Buffer::new();
    out.extend_from_slice(digits.format(number).as_bytes())
}

pub(crate) fn push_signed(out: &mut Vec<u8>, number: i64) -> Result<(), AllocError>
    ensures { OnOk result (out.new.items ≡ out.old.items ++ signed_decimal number) }
{
    let mut digits = Buffer::new();
    out.extend_from_slice(digits.format(number).as_bytes())
}

/// A truth value.
pub(crate) fn push_flag(out: &mut Vec<u8>, truth: bool) -> Result<(), AllocError>
    ensures { OnOk result (out.new.items ≡ out.old.items ++ flag truth) }
{
    push_text(out, if truth { "1" } else { "0" })
}

/// The place of a reply, where places are asked for.
pub(crate) fn push_place(out: &mut Vec<u8>, places: bool, reply: &Reply) -> Result<(), AllocError>
    ensures { OnOk result (out.new.items ≡ out.old.items ++ place_behind places reply.now) }
{
    if places {
        push_text(out, " @")?;
        push_number(out, reply.place)?;
    }
    Ok(())
}
