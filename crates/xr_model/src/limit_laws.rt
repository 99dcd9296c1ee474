//! The laws of what refuses calls by limits, names, versions and times, in the standard's words.
ghost use Rattle.xr_model.specs.laws.AskedLaws.{InstancesAreOfOneVersion, SessionsAreOfTheOneSystem, LocationsAreAtTimes, TextsFitTheirBuffers, NamesOfSetsAreTaken, NamesOfActionsAreTaken, UserPathsAreNamedOnce, NamesAreOfForms, SetsAreAttachedOnce, SyncedSetsAreAttached, ActionSpacesAreOfPoses, BindingsAreOfNewSets, GettersAreOfTheirTypes, GettersAreOfAttachedSets};
ghost use Rattle.xr_model.specs.laws.LimitLaws.{LimitsAreOfTheLive};

/// After every history the last condition that refuses a creation is that as many handles of its kind are live as may be.
pub fn limits_are_of_the_live()
    ensures { LimitsAreOfTheLive }
{}

/// An instance is refused first for a version other than 1.0.
pub fn instances_are_of_one_version()
    ensures { InstancesAreOfOneVersion }
{}

/// A system is given for the head alone, and a session is refused first for any system but the one that is given.
pub fn sessions_are_of_the_one_system()
    ensures { SessionsAreOfTheOneSystem }
{}

/// Behind its handles and its session's loss, locating a space is refused exactly for a time that isn't above 0.
pub fn locations_are_at_times()
    ensures { LocationsAreAtTimes }
{}

/// The text of an atom is refused for a number that isn't one of 1 to that of the known texts, and for a buffer that has some bytes, but
/// none for the zero behind the text.
pub fn texts_fit_their_buffers()
    ensures { TextsFitTheirBuffers }
{}

/// The name of an action set is taken exactly where a live set has it, and its localized name exactly where one has that.
pub fn names_of_sets_are_taken()
    ensures { NamesOfSetsAreTaken }
{}

/// The name of an action is taken exactly where a live action of its set has it, and its localized name exactly where one of its set has that.
pub fn names_of_actions_are_taken()
    ensures { NamesOfActionsAreTaken }
{}

/// An action is refused for each of its user paths that is no atom, that is the atom of no user path, or that was given before.
pub fn user_paths_are_named_once()
    ensures { UserPathsAreNamedOnce }
{}

/// The name of an action set is refused where it has nothing or periods alone, more than 63 bytes, or a byte that isn't one of 39; its
/// localized name where it is empty, has more than 127 bytes, or is no UTF-8.
pub fn names_are_of_forms()
    ensures { NamesAreOfForms }
{}

/// A session attaches sets while it has attached none, and at least one at once.
pub fn sets_are_attached_once()
    ensures { SetsAreAttachedOnce }
{}

/// An item of a sync is taken, behind its handle, where its set is among those that the session has attached, and where it has no user
/// path, or one that some action of the set declares.
pub fn synced_sets_are_attached()
    ensures { SyncedSetsAreAttached }
{}

/// The space of an action is taken, behind its handles, where the action is one of poses, where it has no user path or one that the
/// action declares, and where its offset isn't 0.
pub fn action_spaces_are_of_poses()
    ensures { ActionSpacesAreOfPoses }
{}

/// Of each binding that is suggested it is asked whether some session ever attached its action's set, and whether its path is no atom.
pub fn bindings_are_of_new_sets()
    ensures { BindingsAreOfNewSets }
{}

/// A getter takes, behind its handles and its action's set, an action of its own type.
pub fn getters_are_of_their_types()
    ensures { GettersAreOfTheirTypes }
{}

/// A getter whose session is a live one takes, behind its handles, an action whose set that session has attached.
pub fn getters_are_of_attached_sets()
    ensures { GettersAreOfAttachedSets }
{}
