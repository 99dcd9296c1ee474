//! The laws of what refuses calls, condition by condition, in other words than the rules' checks have.
ghost use Rattle.xr_model.specs.laws.ConditionLaws.{SwapchainsAreOfTheseForms, SessionsBeginWhereReady, ReferenceSpacesWantAStage, FramesAreOfTheseForms, PartsHaveTheirPixels, PartsWithPixelsAreTaken, SuggestionsAreSoMany};

/// A swapchain is refused for a format other than 1 to 3, and for a width or a height other than 1 to 8192 pixels.
#[tactic(auto, using(crate::proofs::Conditions::swapchains_are_of_these_forms))]
pub fn swapchains_are_of_these_forms()
    ensures { SwapchainsAreOfTheseForms }
{}

/// A session is begun where it isn't running and is ready, with two views, and ended where it is running and stopping.
#[tactic(auto, using(crate::proofs::Conditions::sessions_begin_where_ready))]
pub fn sessions_begin_where_ready()
    ensures { SessionsBeginWhereReady }
{}

/// A reference space is refused where it is that of the stage and the device has none, and where its offset is 0.
#[tactic(auto, using(crate::proofs::Conditions::reference_spaces_want_a_stage))]
pub fn reference_spaces_want_a_stage()
    ensures { ReferenceSpacesWantAStage }
{}

/// A frame is refused for a time that isn't above 0, for a blend mode other than the opaque one, and for more than 16 layers.
#[tactic(auto, using(crate::proofs::Conditions::frames_are_of_these_forms))]
pub fn frames_are_of_these_forms()
    ensures { FramesAreOfTheseForms }
{}

/// A part of an image that is taken has a pixel, and each of its pixels, across and down, is one of the image.
#[tactic(auto, using(crate::proofs::Conditions::parts_have_their_pixels))]
pub fn parts_have_their_pixels()
    ensures { PartsHaveTheirPixels }
{}

/// Each part that has a pixel, and all of whose pixels are those of the image, is taken.
#[tactic(auto, using(crate::proofs::Conditions::parts_with_pixels_are_taken))]
pub fn parts_with_pixels_are_taken()
    ensures { PartsWithPixelsAreTaken }
{}

/// Suggestions are refused where nothing is listed, and where more than 512 are.
#[tactic(auto, using(crate::proofs::Conditions::suggestions_are_so_many))]
pub fn suggestions_are_so_many()
    ensures { SuggestionsAreSoMany }
{}
