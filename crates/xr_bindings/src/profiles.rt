// The interaction profiles and their places.
ghost use Rattle.std.specs.Prelude.{◌≡◌, ◌<◌};
ghost use Rattle.xr_model.specs.machine.Bindings.{profile_place};

use xr_types::Profile;

/// How many interaction profiles there are (OpenXR 1.0 section 6.4).
pub(crate) const PROFILES: usize = 4;

/// The place of a profile among the four, from 0 (OpenXR 1.0 section 6.4).
pub(crate) fn profile_place(profile: Profile) -> usize
    ensures place { result ≡ profile_place profile }
    ensures within { result < 4 }
{
    match profile {
        Profile::Simple => 0,
        Profile::Touch => 1,
        Profile::Vive => 2,
        Profile::Xbox => 3,
    }
}
