// Names and localized names: how they are kept, and what refuses them.
ghost use Rattle.std.specs.Prelude.{◌≡◌, ◌≤◌, length};
ghost use Rattle.xr_model.specs.machine.PartAnswers.{code_by};
ghost use Rattle.xr_model.specs.machine.Refusals.{first_of};
ghost use Rattle.xr_model.specs.machine.Sets.{name_checks, label_checks};

use arrayvec::ArrayVec;
use xr_names::{check_localized, check_name};
use xr_types::Code;

/// A copy of a text that fits.
pub(crate) fn copied<const N: usize>(text: &[u8]) -> ArrayVec<u8, N>
    requires { length text.now ≤ N }
    ensures { result.items ≡ text.now }
{
    let Ok(copy) = ArrayVec::<u8, N>::try_from(text) else {
        unreachable!();
    };
    copy
}

/// Checks a name, told whether it is taken.
pub(crate) fn check_new_name(name: &[u8], taken: bool) -> Code
    ensures { result ≡ code_by (first_of (name_checks name.now taken)) }
{
    match check_name(name) {
        Code::Success if taken => Code::NameDuplicated,
        code => code,
    }
}

/// Checks a localized name, told whether it is taken.
pub(crate) fn check_new_label(localized: &[u8], taken: bool) -> Code
    ensures { result ≡ code_by (first_of (label_checks localized.now taken)) }
{
    match check_localized(localized) {
        Code::Success if taken => Code::LocalizedNameDuplicated,
        code => code,
    }
}
