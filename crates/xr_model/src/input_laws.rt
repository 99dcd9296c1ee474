//! The laws of what a sync hears, what inputs give, and what columns show.
ghost use Rattle.xr_model.specs.laws.ColumnLaws.{GettersReadTheNamedColumn, GettersTellTheirColumns, ColumnsStay, ColumnsGoWithTheSession, NewSessionsShowNothing, ColumnsGoWithTheAction, OthersKeepWhatTheyShow};
ghost use Rattle.xr_model.specs.laws.InputLaws.{BindingsAreOfTheConnected, HeardAreListed, LiveHaveTheLargestPriority, InputsGiveFromTheirEvents, VectorsAreTheirAxes, ChangesAreTold, UnfocusedSyncsAreInactive, ActionsDeclareTheirAtoms};
ghost use Rattle.xr_model.specs.laws.SyncLaws.{PicksAreNamed, PicksHaveTheirSources};
ghost use Rattle.xr_model.specs.laws.SyncedLaws.{BindingsAreTheSuggestions, BindingsAreRanked, SyncsHearTheirItems, ColumnsHaveTheirBindings, SyncsShowWhatIsFound};

/// What a suggested path picks is what it names, in whole or without its component: an input of its user path, both axes of one, the grip
/// or the aim of a hand, or an output.
pub fn picks_are_named()
    ensures { PicksAreNamed }
{}

/// The identifier of what a suggested path picks is the one that stands in the path behind `/input/` or `/output/`, up to the next slash
/// or the end.
pub fn picks_have_their_sources()
    ensures { PicksHaveTheirSources }
{}

/// Each binding of a sync was suggested for the profile that is connected at its own user path, and is told its action's set, type and
/// user paths.
#[tactic(auto, using(crate::proofs::HeardBindings::bindings_are_of_the_connected))]
pub fn bindings_are_of_the_connected()
    ensures { BindingsAreOfTheConnected }
{}

/// The bindings of a sync at a user path are what is suggested there for the profile that is connected, of actions that are listed, in the
/// order of the suggestions; those of the left hand come first, then those of the right one, the head, the gamepad and the treadmill.
#[tactic(auto, using(crate::proofs::SyncBindings::bindings_are_the_suggestions))]
pub fn bindings_are_the_suggestions()
    ensures { BindingsAreTheSuggestions }
{}

/// After a legal history each binding of a sync has the place in which its action's handle stands, and the priority of its set.
#[tactic(auto, using(crate::proofs::SyncBindings::bindings_are_ranked))]
pub fn bindings_are_ranked()
    ensures { BindingsAreRanked }
{}

/// A binding is heard exactly where the call lists its set, for all user paths or for the binding's own.
#[tactic(auto, using(crate::proofs::HeardBindings::heard_are_listed))]
pub fn heard_are_listed()
    ensures { HeardAreListed }
{}

/// A binding is live exactly where it is heard, and each heard binding of the same user path and identifier has at most its priority.
#[tactic(auto, using(crate::proofs::HeardBindings::live_have_the_largest_priority))]
pub fn live_have_the_largest_priority()
    ensures { LiveHaveTheLargestPriority }
{}

/// A sync that succeeds hears just the bindings whose sets its items name, with 0 or with the atom of the binding's user path.
#[tactic(auto, using(crate::proofs::SyncedColumns::syncs_hear_their_items))]
pub fn syncs_hear_their_items()
    ensures { SyncsHearTheirItems }
{}

/// A column has just the live bindings of its action, in their order: the first one all of them, and that of a user path which the action
/// declares those at that user path.
#[tactic(auto, using(crate::proofs::SyncedColumns::columns_have_their_bindings))]
pub fn columns_have_their_bindings()
    ensures { ColumnsHaveTheirBindings }
{}

/// Behind a sync that succeeds of a focused session, each column with a live binding is active, shows the numbers and the pose that these
/// come to, and tells the change from what it showed, at the time of the device's clock; and each other shows nothing.
#[tactic(auto, using(crate::proofs::SyncedColumns::syncs_show_what_is_found))]
pub fn syncs_show_what_is_found()
    ensures { SyncsShowWhatIsFound }
{}

/// From its event on, a click or a touch is down from the value 1 up and is the whole of a float, a value isn't below 0, an axis is as it
/// was told, and an analogue input is down from the upper threshold up and not below the lower one.
pub fn inputs_give_from_their_events()
    ensures { InputsGiveFromTheirEvents }
{}

/// After every history whose events have their numbers in range, a vector has both its axes as they were told last, the first in front.
#[tactic(auto, using(crate::proofs::InputsGive::vectors_are_their_axes))]
pub fn vectors_are_their_axes()
    ensures { VectorsAreTheirAxes }
{}

/// An active column has changed exactly where it shows another number than before, an inactive one counting as zero; the time is that of
/// the sync's clock where it has changed, else the time before, and 0 where the column was inactive.
#[tactic(auto, using(crate::proofs::InputsGive::changes_are_told))]
pub fn changes_are_told()
    ensures { ChangesAreTold }
{}

/// A sync that succeeds says that its session isn't focused exactly where it isn't, and leaves all its columns inactive then.
#[tactic(auto, using(crate::proofs::InputsGive::unfocused_syncs_are_inactive))]
pub fn unfocused_syncs_are_inactive()
    ensures { UnfocusedSyncsAreInactive }
{}

/// An action declares exactly the user paths whose atoms its creation lists.
#[tactic(auto, using(crate::proofs::InputsGive::actions_declare_their_atoms))]
pub fn actions_declare_their_atoms()
    ensures { ActionsDeclareTheirAtoms }
{}

/// Where a getter finds a column, it is that of all user paths, for 0, or that of a user path that the action declares, for its atom.
#[tactic(auto, using(crate::proofs::ColumnsGone::getters_read_the_named_column))]
pub fn getters_read_the_named_column()
    ensures { GettersReadTheNamedColumn }
{}

/// After a legal history whose events have their numbers in range, a getter that succeeds tells the column of the user path that it names,
/// or of all by 0, in the place of its action and in its own session: its numbers, whether it has changed and since when, and whether it is
/// active.
#[tactic(auto, using(crate::proofs::GetterColumns::getters_tell_their_columns))]
pub fn getters_tell_their_columns()
    ensures { GettersTellTheirColumns }
{}

/// What actions show in a session changes only by a sync of that session, and by the end of a session, of an action, or of what is above
/// these.
#[tactic(auto, using(crate::proofs::ColumnsKept::columns_stay))]
pub fn columns_stay()
    ensures { ColumnsStay }
{}

/// Behind a `destroy_session` that succeeds its session is listed no more, and what actions showed in it is gone.
#[tactic(auto, using(crate::proofs::ColumnsGone::columns_go_with_the_session))]
pub fn columns_go_with_the_session()
    ensures { ColumnsGoWithTheSession }
{}

/// A session that is created in a legal history has no active column.
#[tactic(auto, using(crate::proofs::ColumnsKept::new_sessions_show_nothing))]
pub fn new_sessions_show_nothing()
    ensures { NewSessionsShowNothing }
{}

/// Where an action or a set is destroyed, no column is active of a place in which no action stands any more, and no space moves with it.
#[tactic(auto, using(crate::proofs::ColumnsGone::columns_go_with_the_action))]
pub fn columns_go_with_the_action()
    ensures { ColumnsGoWithTheAction }
{}

/// Where an action, a set or a session is destroyed, the actions that are left show what they showed in each session that is left, and a
/// space that is left is as it was, but where it moved with an action that went.
#[tactic(auto, using(crate::proofs::ColumnsKept::others_keep_what_they_show))]
pub fn others_keep_what_they_show()
    ensures { OthersKeepWhatTheyShow }
{}
