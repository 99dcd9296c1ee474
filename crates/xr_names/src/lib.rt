//! The names of action sets and actions, and what a bad one is answered with (OpenXR 1.0 chapter 11,
//! "Action Sets" and "Actions"). It knows texts alone: whether a name is taken is no question here.
#![tactic(auto)]

ghost use Rattle.std.specs.Prelude.{◌≡◌};
ghost use Rattle.std.specs.List.{list_all};
ghost use Rattle.std.specs.Str.{is_utf8};
ghost use Rattle.xr_types.specs.Name.{is_name_byte, is_periods, name_code, localized_code};

use xr_types::{Code, MOST_LOCALIZED, MOST_NAME};

#[tactic(auto, unfolding(xr_types::specs::Name::is_name_byte))]
fn is_name_byte(b: u8) -> bool
    ensures { result ≡ is_name_byte b }
{
    matches!(b, b'a'..=b'z' | b'0'..=b'9' | b'-' | b'_' | b'.')
}

fn has_name_bytes(text: &[u8]) -> bool
    ensures { result ≡ list_all is_name_byte text.now }
{
    text.iter().all(|&b| is_name_byte(b))
}

fn is_periods(text: &[u8]) -> bool
    ensures { result ≡ is_periods text.now }
{
    text.iter().all(|&b| b == b'.')
}

/// `Success` for a name of 1 to 63 bytes of `a` to `z`, `0` to `9`, `-`, `_` and `.` that isn't made
/// of periods alone. Refused are, in this order, a text that is empty, too long or made of periods
/// alone (`NameInvalid`), and one with another byte (`PathFormatInvalid`). OpenXR 1.0 chapter 11,
/// xrCreateActionSet and xrCreateAction.
pub fn check_name(text: &[u8]) -> Code
    ensures { result ≡ name_code text.now }
{
    if text.is_empty() || text.len() > MOST_NAME || is_periods(text) {
        return Code::NameInvalid;
    }
    if has_name_bytes(text) {
        Code::Success
    } else {
        Code::PathFormatInvalid
    }
}

#[tactic(auto, using(crate::proofs::Utf8::tests))]
fn is_utf8(text: &[u8]) -> bool
    ensures { result ≡ is_utf8 text.now }
{
    match std::str::from_utf8(text) {
        Ok(_) => true,
        Err(_) => false,
    }
}

/// `Success` for a localized name, UTF-8 of 1 to 127 bytes, and else `LocalizedNameInvalid`. OpenXR
/// 1.0 chapter 11, xrCreateActionSet and xrCreateAction.
pub fn check_localized(text: &[u8]) -> Code
    ensures { result ≡ localized_code text.now }
{
    if text.is_empty() || text.len() > MOST_LOCALIZED || !is_utf8(text) {
        return Code::LocalizedNameInvalid;
    }
    Code::Success
}
