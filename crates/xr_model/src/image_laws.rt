//! The laws of images of a swapchain by their turns, of timeouts, of places that are kept, and of stamps.
ghost use Rattle.xr_model.specs.laws.ImageUseLaws.{TimeoutsAreTold, KeptPlacesAreUsed, StampsAreSet, ReturnsAreFew};
ghost use Rattle.xr_model.specs.laws.TurnLaws.{AcquiresAreInTurn, ReleasesAreInTurn, FramesShowTheLastReleased};

/// After a legal history an acquire that succeeds gives the number of acquires of its swapchain before it, modulo the swapchain's images.
#[tactic(auto, using(crate::proofs::ImageTurns::acquires_are_in_turn))]
pub fn acquires_are_in_turn()
    ensures { AcquiresAreInTurn }
{}

/// After a legal history a release that succeeds gives up the image whose turn it is by the releases before: images are released in the
/// order in which they were acquired.
#[tactic(auto, using(crate::proofs::ImageTurns::releases_are_in_turn))]
pub fn releases_are_in_turn()
    ensures { ReleasesAreInTurn }
{}

/// After a legal history an end of a frame that succeeds makes a frame pending behind the others, of its time, whose layers show the
/// images released last of the swapchains that they name: a projection that of its first view and that of its second.
pub fn frames_show_the_last_released()
    ensures { FramesShowTheLastReleased }
{}

/// A wait for an image is told a timeout exactly where nothing refuses it, a frame uses the image, and the clock is at least at the start
/// and the timeout of the wait; never where that timeout is the infinite one.
pub fn timeouts_are_told()
    ensures { TimeoutsAreTold }
{}

/// After every history a place that isn't free has a live swapchain, or a pending frame or the one taken last has an image of it; so it
/// is free again once neither is so.
#[tactic(auto, using(crate::proofs::KeptPlaces::kept_places_are_used))]
pub fn kept_places_are_used()
    ensures { KeptPlacesAreUsed }
{}

/// In a legal history the stamps of a new swapchain's images are 0, painting sets that of the image that the swapchain has waited for,
/// and no other stamp changes.
#[tactic(auto, using(crate::proofs::StampsSet::stamps_are_set))]
pub fn stamps_are_set()
    ensures { StampsAreSet }
{}

/// After a legal history at most sixteen images were given back for each frame that was taken, as many as there are places of swapchains.
#[tactic(auto, using(crate::proofs::FewReturns::returns_are_few))]
pub fn returns_are_few()
    ensures { ReturnsAreFew }
{}
