//! The laws of frames in whole runs, beside those of the crate's own file.
ghost use Rattle.xr_model.specs.laws.FrameCallLaws.{RendersWhereShown, WaitsGiveTheNextTime, WaitsAreHeldBack, DiscardsAreTold, EndsAreTold};
ghost use Rattle.xr_model.specs.laws.FrameLaws.{AllAreShownAtTheEnd};

/// Once the compositor was told the end in a legal history of calls by those who may make them, all frames that were submitted are
/// shown, in order, each with the stamps that its images had.
#[tactic(auto, using(crate::proofs::EndOfFrames::all_are_shown_at_the_end))]
pub fn all_are_shown_at_the_end()
    ensures { AllAreShownAtTheEnd }
{}

/// A wait for a frame that succeeds tells to render exactly where its session is visible or focused.
#[tactic(auto, using(crate::proofs::FrameCalls::renders_where_shown))]
pub fn renders_where_shown()
    ensures { RendersWhereShown }
{}

/// After a legal history a wait for a frame that succeeds gives the time that is predicted from the device's clock and grid behind the
/// last time that was given to its session, and the grid's period; so the times of a session rise, up to the largest.
pub fn waits_give_the_next_time()
    ensures { WaitsGiveTheNextTime }
{}

/// After a legal history a wait for a frame that nothing refuses is held back exactly where more frames were waited for than begun in
/// the running period, or three are pending, of all sessions, or begun, of its own.
#[tactic(auto, using(crate::proofs::FrameCalls::waits_are_held_back))]
pub fn waits_are_held_back()
    ensures { WaitsAreHeldBack }
{}

/// After a legal history a begin tells of a discarded frame exactly where nothing refuses it and a frame was begun and not ended in the
/// running period.
#[tactic(auto, using(crate::proofs::FrameCalls::discards_are_told))]
pub fn discards_are_told()
    ensures { DiscardsAreTold }
{}

/// After a legal history the compositor that asks for a frame, and isn't refused, waits while none is pending and an application is
/// there; it is told the end exactly where none is pending and all have left.
#[tactic(auto, using(crate::proofs::FrameCalls::ends_are_told))]
pub fn ends_are_told()
    ensures { EndsAreTold }
{}
