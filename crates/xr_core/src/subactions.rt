// The user paths that an action declares, by their atoms (OpenXR 1.0 chapter 11, XrActionCreateInfo).
ghost use Rattle.std.specs.Prelude.{◌≡◌};
ghost use Rattle.xr_model.specs.machine.Refusals.{first_of};
ghost use Rattle.xr_model.specs.machine.Sets.{no_users};
ghost use Rattle.xr_model.specs.machine.Rules.Sets.{sub_checks, declared_by};
ghost use Rattle.xr_model.specs.machine.PartAnswers.{or_refused};

use xr_paths::Paths;
use xr_profiles::user_of;
use xr_types::{Code, USERS, user_place};

/// For each user path, whether it is among those of these atoms. Refused is the first that is no atom (`PathInvalid`), or
/// is no user path or stood there before (`PathUnsupported`).
pub(crate) fn declared_by(paths: &Paths, subs: &[u64]) -> Result<[bool; USERS], Code>
    ensures { result ≡ or_refused (first_of (sub_checks paths.now no_users subs.now)) (declared_by paths.now no_users subs.now) }
{
    let mut declared = [false; USERS];
    for sub in subs {
        let Some(text) = paths.text_at(*sub) else {
            return Err(Code::PathInvalid);
        };
        let Some(user) = user_of(text) else {
            return Err(Code::PathUnsupported);
        };
        let place = user_place(user);
        if declared[place] {
            return Err(Code::PathUnsupported);
        }
        declared[place] = true;
    }
    Ok(declared)
}
