//! The laws of what is known of the device: what its events told last.
ghost use Rattle.xr_model.specs.laws.DeviceStateLaws.{DeviceIsAsTold, ProfilesAreAsTold, InputsAreAsTold, PressesLast, LossTakesEach};

/// After every history the device's clock shows the latest time that was told, and its grid, its wish and its stage are those told last.
pub fn device_is_as_told()
    ensures { DeviceIsAsTold }
{}

/// After every history whose events have their numbers in range, the profile connected at a user path is the one told last of it.
#[tactic(auto, using(crate::proofs::DeviceTold::profiles_are_as_told))]
pub fn profiles_are_as_told()
    ensures { ProfilesAreAsTold }
{}

/// After every history whose events have their numbers in range, an input shows the value told last of its row since the profile of its
/// user path was told; so a profile clears what its own user path had, and nothing of another.
#[tactic(auto, using(crate::proofs::DeviceTold::inputs_are_as_told))]
pub fn inputs_are_as_told()
    ensures { InputsAreAsTold }
{}

/// After every history whose events have their numbers in range, an analogue input counts as pressed exactly where the last of its values
/// that wasn't between the thresholds, since the profile of its user path was told, was at least the upper one.
#[tactic(auto, using(crate::proofs::DeviceTold::presses_last))]
pub fn presses_last()
    ensures { PressesLast }
{}

/// A loss takes each listed session to the state of a pending loss, but for an exiting one, and leaves all else of it.
#[tactic(auto, using(crate::proofs::DeviceTold::loss_takes_each))]
pub fn loss_takes_each()
    ensures { LossTakesEach }
{}
