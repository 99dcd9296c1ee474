//! The laws of what getters answer by their session's loss.
ghost use Rattle.xr_model.specs.laws.SessionLaws.{LostGetters, PendingGetters};

/// After a legal history a getter of a live action answers `XR_ERROR_SESSION_LOST` exactly where its session is live and the device
/// was lost after its creation.
pub fn lost_getters()
    ensures { LostGetters }
{}

/// A getter answers `XR_SESSION_LOSS_PENDING` exactly where nothing refuses it and its session is in that state.
pub fn pending_getters()
    ensures { PendingGetters }
{}
