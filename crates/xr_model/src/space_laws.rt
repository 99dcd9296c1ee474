//! The laws of spaces: what a new space is, what a location tells, and of which session spaces and swapchains are that calls name.
ghost use Rattle.xr_model.specs.laws.OwnLaws.{LayersAreOfTheirSession, BasesAreOfTheSameSession};
ghost use Rattle.xr_model.specs.laws.LocationLaws.{ReferenceSpacesAreAsAsked, ActionSpacesFollowTheirColumns, ReferenceSpacesHaveTheirOrigins, PosesFollowColumns, LocationsAreFactors};

/// In a legal history a reference space that is created is listed with the kind and the offset that were asked for.
#[tactic(auto, using(crate::proofs::Locations::reference_spaces_are_as_asked))]
pub fn reference_spaces_are_as_asked()
    ensures { ReferenceSpacesAreAsAsked }
{}

/// In a legal history the space of an action that is created moves with the column of the action's place for the user path that was
/// named, or with that of all for the number 0, and has the offset that was asked for.
#[tactic(auto, using(crate::proofs::Locations::action_spaces_follow_their_columns))]
pub fn action_spaces_follow_their_columns()
    ensures { ActionSpacesFollowTheirColumns }
{}

/// A reference space has the pose of the origin that has the name of its kind: the view's, the local one's, or the stage's.
#[tactic(auto, using(crate::proofs::Locations::reference_spaces_have_their_origins))]
pub fn reference_spaces_have_their_origins()
    ensures { ReferenceSpacesHaveTheirOrigins }
{}

/// A space that moves with a column has the pose of the origin which the column has, where that is active, and else none.
#[tactic(auto, using(crate::proofs::Locations::poses_follow_columns))]
pub fn poses_follow_columns()
    ensures { PosesFollowColumns }
{}

/// A location is the base's offset, the base's pose, the space's pose and the space's offset, of the two spaces as they are named, by
/// what actions show in the session of the space, and is missing where one of them has no pose.
pub fn locations_are_factors()
    ensures { LocationsAreFactors }
{}

/// Where a session ends a frame, the spaces of its layers and the swapchains that they show are live ones of that session.
#[tactic(auto, using(crate::proofs::OwnItems::layers_are_of_their_session))]
pub fn layers_are_of_their_session()
    ensures { LayersAreOfTheirSession }
{}

/// Where a space is located in a base, both are live, and the base is of the session that the space is of.
#[tactic(auto, using(crate::proofs::OwnItems::bases_are_of_the_same_session))]
pub fn bases_are_of_the_same_session()
    ensures { BasesAreOfTheSameSession }
{}
