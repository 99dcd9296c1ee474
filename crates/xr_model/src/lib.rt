//! What must be believed: the machine of one thread, its histories, scenarios and reports, as
//! definitions in `specs/`. The code here is one empty function for each law that holds of them, the
//! trait of the cells that a core stands beside, and that of what stands for a state.
#![tactic(auto)]

ghost use Rattle.xr_model.specs.laws.AnswerLaws.{AnswersAreAHistory};
ghost use Rattle.xr_model.specs.laws.DeviceLaws.{LinesReadBack};
ghost use Rattle.xr_model.specs.laws.HandleLaws.{NoOrphans, DestroyedForGood, HandlesStandOnce, DestroyingTakes, CreatingAdds};
ghost use Rattle.xr_model.specs.laws.Laws.{RefusalsChangeNothing, AfterIsInTurn, EntriesAreCounted, PlacesCount, FrontsAreLegal, ExchangesStand};
ghost use Rattle.xr_model.specs.laws.SessionLaws.{SessionsAreListed, LostSessions, PendingLosses};
ghost use Rattle.xr_model.specs.laws.ListLaws.{ListedWhereLive, DestroyingFilters, AtomsStay, AtomsGo, SealedStays, AttachingSeals, NewSessionsAreBare, AttachesOnce, CreatingLeavesPlaces, DestroyingLeavesPlaces, SamplesAreFew};
ghost use Rattle.xr_model.specs.laws.OrderLaws.{CallOrder, WaitsAndBegins};
ghost use Rattle.xr_model.specs.laws.ImageLaws.{NoTwoOwners, WaitedImageIsNobodys, OwnersAreInTheState, ImagesStep, CountsAreFew, StampsStay, ChainsArePlaced, PlacesAreOwn, FreePlacesAreUnused, GivingBackLeavesTheCore, HeldImagesAreAside, GivingBackKeepsReady};
ghost use Rattle.xr_model.specs.laws.FrameLaws.{PendingAreFew, FramesAsSubmitted, FramesAreNumbered, TakenAreHalf, TimesArePredicted};
ghost use Rattle.xr_model.specs.laws.RunLaws.{UnfinishedHaveTurns, EachHasItsTurn, OneTurnBetween, TurnsMakeReadyCalls, StuckWhereNobodyIsReady, CallsFollowScripts, CallsAreReady, NamesStandForValues, StuckNamesTheUnfinished, DoneExactlyWhereAllIsDone};
ghost use Rattle.xr_model.specs.laws.MarkLaws.{AwaitGivesTheLastValue, DeviceAwaitsMarks};
ghost use Rattle.xr_model.specs.laws.AnswerTableLaws.{RefusalsAreTheTable, AnswersAreTheTable};
ghost use Rattle.xr_model.specs.laws.SuggestionLaws.{SuggestionsAreTheLastTaken};
ghost use Rattle.xr_model.specs.laws.EventLaws.{EventsAddUp, StatesAreTold, EventsGo, HistoriesAddUp};
ghost use Rattle.xr_model.specs.laws.SessionLifeLaws.{ClockNeverFalls, SessionsHaveSettled, SessionsAreInOrder, AtMostOneIsFocused, FocusedIsTheTarget, TheLastIsFocused, LostStaysLost, OnlyItsCallAsksForTheEnd, RunningIsBegunAndNotEnded};
ghost use Rattle.xr_model.specs.laws.SpaceLaws.{SampleTimesFall, PoseIsTheNewestNotLater, SamplesAreTheirOrigins, OriginsHaveTheirPlaces, LaterPosesAreTaken};
ghost use Rattle.xr_model.specs.laws.StateLaws.{NoRowFits, OneRoundIsEnough};
ghost use Rattle.xr_model.specs.laws.PublicationLaws.{GettersChangeNothing, GettersAreReady, GettersRead, PublishedIsCurrent, GettersMove};
ghost use Rattle.xr_model.specs.laws.SyncLaws.{BooleansAreDownOnce, FloatsAreLargest, VectorsAreLongest, PosesAreTheFirst, NothingIsInactive, ChangedIsActive, FirstColumnIsOfAll, UndeclaredIsInactive, PicksAreInRange};
ghost use Rattle.xr_model.specs.laws.MomentLaws.{LegalGrows, CallsGrow, NoneLiesBetween, NumbersAreApart, EntriesAreByActors, ActorsStay, ClocksStay, HeldImagesStay};
ghost use Rattle.xr_model.specs.laws.FewCalls.{FewMore, LockedAreFew};
ghost use Rattle.xr_model.specs.laws.WordLaws.{WordsGiveBack, WordsAreRead, PublicationsFit};
ghost use Rattle.xr_model.specs.laws.NameLaws.{NamesAreDistinct, OpsAreFound, WordsAreFound};
ghost use Rattle.xr_model.specs.laws.ReadingLaws.{FirstWrongPlaceIsTold, OpsAreWhatTheyAreCalled, KeysAreTheRows};
ghost use Rattle.xr_model.specs.laws.RobinLaws.{TurnsGoRound, NobodyHasTwoTurns, NobodyReadyIsPassedOver, RunsEndWhereNobodyIsReady, ImagesAreGivenBackFirst};
ghost use Rattle.xr_model.specs.laws.ReportLaws.{ReportsTellTheCalls, ValuesTellWhatWasGiven, FrameLinesTellTheFrame, EventLinesTellTheEvent};

mod cells;
pub mod condition_laws;
pub mod device_laws;
pub mod frame_laws;
pub mod getter_laws;
pub mod image_laws;
pub mod image_words;
pub mod input_laws;
pub mod limit_laws;
mod machine;
pub mod path_laws;
pub mod report_laws;
pub mod script_laws;
pub mod space_laws;
pub mod state_laws;

pub use cells::Cells;
pub use machine::Machine;

/// A refusal, a timeout and the want of an event change nothing but the count of locked calls.
#[tactic(auto, using(crate::proofs::Histories::refusals_change_nothing))]
pub fn refusals_change_nothing()
    ensures { RefusalsChangeNothing }
{}

/// The state after two histories, one after the other, is that of the second from the state after the first.
#[tactic(auto, using(crate::proofs::Histories::after_is_in_turn))]
pub fn after_is_in_turn()
    ensures { AfterIsInTurn }
{}

/// Each locked call of a history raises the count of them by one, and no other entry does.
#[tactic(auto, using(crate::proofs::Histories::entries_are_counted))]
pub fn entries_are_counted()
    ensures { EntriesAreCounted }
{}

/// The place in the reply to a locked call is the number of locked calls up to it.
#[tactic(auto, using(crate::proofs::Histories::places_count))]
pub fn places_count()
    ensures { PlacesCount }
{}

/// The front of a legal history is legal.
#[tactic(auto, using(crate::proofs::Histories::fronts_are_legal))]
pub fn fronts_are_legal()
    ensures { FrontsAreLegal }
{}

/// Each exchange of an actor is the call and the outcome at the position of that entry.
#[tactic(auto, using(crate::proofs::Exchanges::exchanges_stand))]
pub fn exchanges_stand()
    ensures { ExchangesStand }
{}

/// Calls that `apply` answers one after another are a legal history with the machine's replies, bytes and frames.
#[tactic(auto, using(crate::proofs::AnsweredCalls::answers_are_a_history))]
pub fn answers_are_a_history()
    ensures { AnswersAreAHistory }
{}

/// After every history no live handle, of a swapchain too, is without its parent.
pub fn no_orphans()
    ensures { NoOrphans }
{}

/// A handle that was destroyed in a legal history is never live again.
#[tactic(auto, using(crate::proofs::DestroyedForGood::destroyed_for_good))]
pub fn destroyed_for_good()
    ensures { DestroyedForGood }
{}

/// After every legal history, a handle stands in one place of one row at most.
#[tactic(auto, using(crate::proofs::StandOnce::handles_stand_once))]
pub fn handles_stand_once()
    ensures { HandlesStandOnce }
{}

/// In a legal history destroying takes exactly the handle and what is below it by parents, and leaves all else that lives.
#[tactic(auto, using(crate::proofs::DestroyingTakes::destroying_takes))]
pub fn destroying_takes()
    ensures { DestroyingTakes }
{}

/// A call that gives a handle leaves all else that lives, and adds nothing else.
#[tactic(auto, using(crate::proofs::StandOnce::creating_adds))]
pub fn creating_adds()
    ensures { CreatingAdds }
{}

/// Where a session has settled, no row of the table of states fits.
#[tactic(auto, using(crate::proofs::Settling::no_row_fits))]
pub fn no_row_fits()
    ensures { NoRowFits }
{}

/// One round is all that the sessions need to settle.
#[tactic(auto, using(crate::proofs::Targets::once_is_enough))]
pub fn one_round_is_enough()
    ensures { OneRoundIsEnough }
{}

/// After every legal history, the live handles of sessions are those of the listed sessions.
#[tactic(auto, using(crate::proofs::LostSessions::sessions_are_listed))]
pub fn sessions_are_listed()
    ensures { SessionsAreListed }
{}

/// After a legal history a call on a session, or on a live space or swapchain of it, answers `XR_ERROR_SESSION_LOST` exactly where
/// the session is live and the device was lost after its creation.
pub fn lost_sessions()
    ensures { LostSessions }
{}

/// A call on a session, or on a live space or swapchain of it, answers `XR_SESSION_LOSS_PENDING` exactly where it would else
/// succeed plainly and the session is in that state.
#[tactic(auto, using(crate::proofs::SessionAnswers::pending_losses))]
pub fn pending_losses()
    ensures { PendingLosses }
{}

/// The line that a report prints for an event of a device's text, with its numbers in range, reads back as that event.
#[tactic(auto, using(crate::proofs::LinesBack::lines_read_back))]
pub fn lines_read_back()
    ensures { LinesReadBack }
{}

/// After every legal history, spaces, action sets and actions are listed exactly where they are live, each action's set is its
/// parent, what is suggested is for live actions, and what sessions have attached are live sets.
#[tactic(auto, using(crate::proofs::AttachedSets::listed_where_live))]
pub fn listed_where_live()
    ensures { ListedWhereLive }
{}

/// An atom keeps its text until the instance goes.
#[tactic(auto, using(crate::proofs::AtomsAndSeals::atoms_stay))]
pub fn atoms_stay()
    ensures { AtomsStay }
{}

/// A set that is sealed stays so as long as it is listed, and no action joins it.
#[tactic(auto, using(crate::proofs::AtomsAndSeals::sealed_stays))]
pub fn sealed_stays()
    ensures { SealedStays }
{}

/// In a legal history a call that destroys a handle takes exactly what is within it out of the lists, and keeps their order. Of
/// a session that is left the state alone may change, since the target may go.
pub fn destroying_filters()
    ensures { DestroyingFilters }
{}

/// In a legal history a session attaches action sets at most once.
#[tactic(auto, using(crate::proofs::Attaching::attaches_once))]
pub fn attaches_once()
    ensures { AttachesOnce }
{}

/// A call that gives a handle leaves the parent and the place of every other.
pub fn creating_leaves_places()
    ensures { CreatingLeavesPlaces }
{}

/// In a legal history a call that destroys a handle leaves the parent and the place of all that is not within it.
pub fn destroying_leaves_places()
    ensures { DestroyingLeavesPlaces }
{}

/// A set that is attached is sealed.
#[tactic(auto, using(crate::proofs::Attaching::attaching_seals))]
pub fn attaching_seals()
    ensures { AttachingSeals }
{}

/// In a legal history a new session has attached nothing.
#[tactic(auto, using(crate::proofs::Attaching::new_sessions_are_bare))]
pub fn new_sessions_are_bare()
    ensures { NewSessionsAreBare }
{}

/// No atom is left behind the end of the instance.
#[tactic(auto, using(crate::proofs::AtomsAndSeals::atoms_go))]
pub fn atoms_go()
    ensures { AtomsGo }
{}

/// Of each origin at most 16 samples are kept.
#[tactic(auto, using(crate::proofs::Samples::samples_are_few))]
pub fn samples_are_few()
    ensures { SamplesAreFew }
{}

/// After every history, no row of the table of states fits a listed session under its own part of the device's wish.
#[tactic(auto, using(crate::proofs::Settled::sessions_have_settled))]
pub fn sessions_have_settled()
    ensures { SessionsHaveSettled }
{}

/// After every history, the sessions are listed in the order of their ordinals, which begin at 1.
#[tactic(auto, using(crate::proofs::Settled::sessions_are_in_order))]
pub fn sessions_are_in_order()
    ensures { SessionsAreInOrder }
{}

/// After every history, at most one session is focused.
#[tactic(auto, using(crate::proofs::Settled::at_most_one_is_focused))]
pub fn at_most_one_is_focused()
    ensures { AtMostOneIsFocused }
{}

/// After every history, a session that is focused is the target.
#[tactic(auto, using(crate::proofs::Settled::focused_is_the_target))]
pub fn focused_is_the_target()
    ensures { FocusedIsTheTarget }
{}

/// After every history, a listed session is focused exactly where the device wishes the focus, a frame of its running period was ended, its
/// end wasn't asked for, and no session of which that is true was created later.
#[tactic(auto, using(crate::proofs::Focus::the_last_is_focused))]
pub fn the_last_is_focused()
    ensures { TheLastIsFocused }
{}

/// A session that is lost stays so as long as it is listed.
#[tactic(auto, using(crate::proofs::LostAndAsked::lost_stays_lost))]
pub fn lost_stays_lost()
    ensures { LostStaysLost }
{}

/// The device's clock never goes back.
#[tactic(auto, using(crate::proofs::Clock::clock_never_falls))]
pub fn clock_never_falls()
    ensures { ClockNeverFalls }
{}

/// The end of a listed session was asked for exactly where it was before an entry, or the entry asks for it and succeeds.
pub fn only_its_call_asks_for_the_end()
    ensures { OnlyItsCallAsksForTheEnd }
{}

/// After every legal history, a listed session is running exactly where it was begun and not ended since its creation.
#[tactic(auto, using(crate::proofs::Running::running_is_begun_and_not_ended))]
pub fn running_is_begun_and_not_ended()
    ensures { RunningIsBegunAndNotEnded }
{}

/// After every history, the times of each origin's samples fall, the newest first.
#[tactic(auto, using(crate::proofs::SampleOrder::sample_times_fall))]
pub fn sample_times_fall()
    ensures { SampleTimesFall }
{}

/// The pose at a time is that of the newest kept sample which isn't later, and there is none exactly where each is later.
#[tactic(auto, using(crate::proofs::SampleOrder::pose_is_the_newest_not_later))]
pub fn pose_is_the_newest_not_later()
    ensures { PoseIsTheNewestNotLater }
{}

/// A new pose changes the samples of its own origin alone, and no other entry changes any.
#[tactic(auto, using(crate::proofs::OriginSamples::samples_are_their_origins))]
pub fn samples_are_their_origins()
    ensures { SamplesAreTheirOrigins }
{}

/// No two origins that have samples share a place.
#[tactic(auto, using(crate::proofs::OriginSamples::origins_have_their_places))]
pub fn origins_have_their_places()
    ensures { OriginsHaveTheirPlaces }
{}

/// After every history, a new pose of an origin that has samples is taken exactly where it is later than all of them.
pub fn later_poses_are_taken()
    ensures { LaterPosesAreTaken }
{}

/// Just the unfinished actors of a run have further turns.
#[tactic(auto, using(crate::proofs::Unfinished::unfinished_have_turns))]
pub fn unfinished_have_turns()
    ensures { UnfinishedHaveTurns }
{}

/// Of two unfinished actors, the one that comes first in a round has had as many turns as the other, or one more.
pub fn each_has_its_turn()
    ensures { EachHasItsTurn }
{}

/// Between two turns of one unfinished actor each other unfinished one has exactly one turn.
#[tactic(auto, using(crate::proofs::TurnsBetween::one_turn_between))]
pub fn one_turn_between()
    ensures { OneTurnBetween }
{}

/// A call is made by the first actor in turn whose next call is ready, and only those before it are passed over.
pub fn turns_make_ready_calls()
    ensures { TurnsMakeReadyCalls }
{}

/// A run can't go on exactly where nobody's next call is ready.
pub fn stuck_where_nobody_is_ready()
    ensures { StuckWhereNobodyIsReady }
{}

/// In a run an application's calls follow its script as far as they go, and the device does its events in their order.
pub fn calls_follow_scripts()
    ensures { CallsFollowScripts }
{}

/// Each call of a run is ready, and a wait for an image begins at the clock after its application's last locked call.
#[tactic(auto, using(crate::proofs::ReadyCalls::calls_are_ready))]
pub fn calls_are_ready()
    ensures { CallsAreReady }
{}

/// A name of a script stands for what the reply to its op gave, and no other op's reply changes that.
pub fn names_stand_for_values()
    ensures { NamesStandForValues }
{}

/// The next calls that a stuck run tells are those of its unfinished actors, each once, in the order of a round.
#[tactic(auto, using(crate::proofs::StuckRuns::stuck_names_the_unfinished))]
pub fn stuck_names_the_unfinished()
    ensures { StuckNamesTheUnfinished }
{}

/// A run is done exactly where nobody waits and the device didn't end early, and only such a run ends with 0.
pub fn done_exactly_where_all_is_done()
    ensures { DoneExactlyWhereAllIsDone }
{}

/// An await of a mark waits as long as the mark isn't set, and gives the value that it was set to last.
pub fn await_gives_the_last_value()
    ensures { AwaitGivesTheLastValue }
{}

/// The device waits for a mark as long as it isn't set.
#[tactic(auto, using(crate::proofs::MarkValues::device_awaits_marks))]
pub fn device_awaits_marks()
    ensures { DeviceAwaitsMarks }
{}

/// What refuses a call, in its order, is what the table of answers says, a frame's layers layer by layer.
pub fn refusals_are_the_table()
    ensures { RefusalsAreTheTable }
{}

/// What is answered to a call is one of the codes that the table has for it.
#[tactic(auto, using(crate::proofs::AnswerCodes::answers_are_the_table))]
pub fn answers_are_the_table()
    ensures { AnswersAreTheTable }
{}

/// What is suggested for a profile is the last list that was taken for it, without the actions that went.
#[tactic(auto, using(crate::proofs::Suggested::suggestions_are_the_last_taken))]
pub fn suggestions_are_the_last_taken()
    ensures { SuggestionsAreTheLastTaken }
{}

/// What polls told, what was lost and what waits adds up to what was pushed, in its order, as long as no more is pushed than the
/// count of lost events can hold.
pub fn events_add_up()
    ensures { EventsAddUp }
{}

/// In a legal history each call but a poll and the instance's end tells the states of the listed sessions, and the last one told is
/// where each is.
pub fn states_are_told()
    ensures { StatesAreTold }
{}

/// No event is left behind the end of the instance.
#[tactic(auto, using(crate::proofs::HistoryEvents::events_go))]
pub fn events_go()
    ensures { EventsGo }
{}

/// So it is with the states of sessions that come in a legal history, from where nothing waits and nothing was lost, as long as the
/// instance isn't ended and no more come than the count of lost events can hold.
pub fn histories_add_up()
    ensures { HistoriesAddUp }
{}

/// In every legal history the frames begun in the running period of a live session are at most those waited for, and these at most
/// one more.
#[tactic(auto, using(crate::proofs::FrameOrder::waits_and_begins))]
pub fn waits_and_begins()
    ensures { WaitsAndBegins }
{}

/// After a legal history, a call is answered as out of order exactly where nothing ahead of the call order refuses it, and counting
/// over the history finds the disorder.
#[tactic(auto, using(crate::proofs::CallOrders::call_order))]
pub fn call_order()
    ensures { CallOrder }
{}

/// After a legal history the frames that were shown, and then those that are pending with the stamps of now, are those that were
/// submitted, in order, with the stamps of then.
#[tactic(auto, using(crate::proofs::ShownFrames::frames_as_submitted))]
pub fn frames_as_submitted()
    ensures { FramesAsSubmitted }
{}

/// The frames that a history submits are numbered from 1 in their order.
#[tactic(auto, using(crate::proofs::FrameLists::frames_are_numbered))]
pub fn frames_are_numbered()
    ensures { FramesAreNumbered }
{}

/// After every legal history, at most two frames for each session that may be live, and one more, are pending.
#[tactic(auto, using(crate::proofs::FrameLists::pending_are_few))]
pub fn pending_are_few()
    ensures { PendingAreFew }
{}

/// After every history, the frames that were taken are at most half of the calls to begin or to end a frame, whoever made them and
/// however they were answered.
#[tactic(auto, using(crate::proofs::TakenFrames::taken_are_half))]
pub fn taken_are_half()
    ensures { TakenAreHalf }
{}

/// With a period of at least 1, the predicted time is the least one of the grid that is later than the last one and the clock, or
/// the largest time where that is larger.
#[tactic(auto, using(crate::proofs::PredictedTimes::times_are_predicted))]
pub fn times_are_predicted()
    ensures { TimesArePredicted }
{}

/// After every legal history a swapchain has a place exactly where it is live.
#[tactic(auto, using(crate::proofs::ImageOwners::chains_are_placed))]
pub fn chains_are_placed()
    ensures { ChainsArePlaced }
{}

/// After every legal history, no two live swapchains have the same place.
#[tactic(auto, using(crate::proofs::ImageOwners::places_are_own))]
pub fn places_are_own()
    ensures { PlacesAreOwn }
{}

/// After every legal history, no pending frame has an image of a free place, and neither has the frame taken last.
#[tactic(auto, using(crate::proofs::ImageOwners::free_places_are_unused))]
pub fn free_places_are_unused()
    ensures { FreePlacesAreUnused }
{}

/// After every legal history an application owns an image exactly where the swapchain in its place has it as the one that was
/// waited for, and its count is how much more often frames came to use it than it was given back.
pub fn owners_are_in_the_state()
    ensures { OwnersAreInTheState }
{}

/// After every legal history, no image is owned by an application and by the compositor at once.
#[tactic(auto, using(crate::proofs::ImageOwners::no_two_owners))]
pub fn no_two_owners()
    ensures { NoTwoOwners }
{}

/// In a legal history a wait that succeeds gets an image that nobody owned.
#[tactic(auto, using(crate::proofs::ImageOwners::waited_image_is_nobodys))]
pub fn waited_image_is_nobodys()
    ensures { WaitedImageIsNobodys }
{}

/// In a legal history an entry, whatever its call, changes an image's count and its owner just by what it says it did.
pub fn images_step()
    ensures { ImagesStep }
{}

/// After every legal history, an image is used at most by each frame that may be pending, and by the one that the compositor took.
#[tactic(auto, using(crate::proofs::ImageOwners::counts_are_few))]
pub fn counts_are_few()
    ensures { CountsAreFew }
{}

/// In a legal history the stamp of an image stays while the compositor owns it.
#[tactic(auto, using(crate::proofs::ImageStamps::stamps_stay))]
pub fn stamps_stay()
    ensures { StampsStay }
{}

/// An image that is given back changes nothing that a core keeps.
#[tactic(auto, using(crate::proofs::GivingBack::giving_back_leaves_the_core))]
pub fn giving_back_leaves_the_core()
    ensures { GivingBackLeavesTheCore }
{}

/// What a call answers, and what is kept after it, doesn't depend on which images are held, but for the compositor's calls.
#[tactic(auto, using(crate::proofs::GivingBack::held_images_are_aside))]
pub fn held_images_are_aside()
    ensures { HeldImagesAreAside }
{}

/// A call that is ready stays ready when an image is given back, but for the one that is refused until all are.
#[tactic(auto, using(crate::proofs::GivingBack::giving_back_keeps_ready))]
pub fn giving_back_keeps_ready()
    ensures { GivingBackKeepsReady }
{}

/// Where all live bindings of a column are of booleans, it is 1 exactly where one of them is down, and else 0.
#[tactic(auto, using(crate::proofs::SyncFinds::booleans_are_down_once))]
pub fn booleans_are_down_once()
    ensures { BooleansAreDownOnce }
{}

/// Where all live bindings of a column are of floats, and there are some, it has the value of the first of those that are furthest
/// from zero.
#[tactic(auto, using(crate::proofs::SyncFinds::floats_are_largest))]
pub fn floats_are_largest()
    ensures { FloatsAreLargest }
{}

/// Where all live bindings of a column are of vectors, and there are some, it has the value of the first of those that are longest.
#[tactic(auto, using(crate::proofs::SyncFinds::vectors_are_longest))]
pub fn vectors_are_longest()
    ensures { VectorsAreLongest }
{}

/// Where all live bindings of a column are of poses, and each picks one, the column has that of the first.
#[tactic(auto, using(crate::proofs::SyncFinds::poses_are_the_first))]
pub fn poses_are_the_first()
    ensures { PosesAreTheFirst }
{}

/// A column without a live binding is inactive: zero, unchanged, at time 0, without a pose.
#[tactic(auto, using(crate::proofs::SyncColumns::nothing_is_inactive))]
pub fn nothing_is_inactive()
    ensures { NothingIsInactive }
{}

/// A column that has changed is active.
#[tactic(auto, using(crate::proofs::SyncColumns::changed_is_active))]
pub fn changed_is_active()
    ensures { ChangedIsActive }
{}

/// The column of all user paths is active exactly where some binding of the action is live.
#[tactic(auto, using(crate::proofs::SyncColumns::first_column_is_of_all))]
pub fn first_column_is_of_all()
    ensures { FirstColumnIsOfAll }
{}

/// A column is inactive whose user path no binding of its action declares.
#[tactic(auto, using(crate::proofs::SyncColumns::undeclared_is_inactive))]
pub fn undeclared_is_inactive()
    ensures { UndeclaredIsInactive }
{}

/// What a path picks of a controller has an identifier below 30, and rows of inputs, or for a pose of poses.
#[tactic(auto, using(crate::proofs::PickRanges::picks_are_in_range))]
pub fn picks_are_in_range()
    ensures { PicksAreInRange }
{}

/// A getter leaves the whole state as it was, the count of calls too.
#[tactic(auto, using(crate::proofs::GetterSteps::getters_change_nothing))]
pub fn getters_change_nothing()
    ensures { GettersChangeNothing }
{}

/// A getter never waits.
#[tactic(auto, using(crate::proofs::GetterSteps::getters_are_ready))]
pub fn getters_are_ready()
    ensures { GettersAreReady }
{}

/// What a getter is answered, its place too, is read of what was published last, and of nothing else.
#[tactic(auto, using(crate::proofs::GetterSteps::getters_read))]
pub fn getters_read()
    ensures { GettersRead }
{}

/// What was published last in a legal history is what the state behind it gives, so a getter is never behind its place.
#[tactic(auto, using(crate::proofs::PublishedLast::published_is_current))]
pub fn published_is_current()
    ensures { PublishedIsCurrent }
{}

/// A getter may stand at each place from a publication to the next, among other actors' calls: the history stays legal, and every
/// actor's calls come to what they came to.
#[tactic(auto, using(crate::proofs::MovedGetters::getters_move))]
pub fn getters_move()
    ensures { GettersMove }
{}

/// A publication is read back from its words, where its numbers have room in them.
#[tactic(auto, using(crate::proofs::WordsBack::words_give_back))]
pub fn words_give_back()
    ensures { WordsGiveBack }
{}

/// What a legal history publishes has room in words, with no more sessions and actions than may be live, where the device tells numbers in
/// range.
#[tactic(auto, using(crate::proofs::FittingPublications::publications_fit))]
pub fn publications_fit()
    ensures { PublicationsFit }
{}

/// Where its numbers have room, a getter reads of the words of a publication what it reads of the publication.
#[tactic(auto, using(crate::proofs::WordsBack::words_are_read))]
pub fn words_are_read()
    ensures { WordsAreRead }
{}

/// Names tell apart what they name: two calls with one name are the same, and so are two keys, results, states, inputs, and values
/// that have words.
#[tactic(auto, using(crate::proofs::DistinctNames::names_are_distinct))]
pub fn names_are_distinct()
    ensures { NamesAreDistinct }
{}

/// An op's name, as scenarios and reports write it, is read as that op.
#[tactic(auto, using(crate::proofs::DistinctNames::ops_are_found))]
pub fn ops_are_found()
    ensures { OpsAreFound }
{}

/// A word of a scenario is read as the value whose word it is.
#[tactic(auto, using(crate::proofs::DistinctNames::words_are_found))]
pub fn words_are_found()
    ensures { WordsAreFound }
{}

/// What is told of an op that isn't read is the first that is wrong: that it is no op, a key of its row in the row's order, or where
/// none is wrong, that it has other keys.
#[tactic(auto, using(crate::proofs::FirstWrong::first_wrong_place_is_told))]
pub fn first_wrong_place_is_told()
    ensures { FirstWrongPlaceIsTold }
{}

/// What is read of an op is the op that its object names.
#[tactic(auto, using(crate::proofs::RowKeys::ops_are_what_they_are_called))]
pub fn ops_are_what_they_are_called()
    ensures { OpsAreWhatTheyAreCalled }
{}

/// An object whose fields are right for an op is read exactly where all its keys are those of the op's row, and is told to have another
/// key exactly where it has one.
pub fn keys_are_the_rows()
    ensures { KeysAreTheRows }
{}

/// At each place of a run the turns to come go round: the scripts in order, the device and the compositor, each once.
#[tactic(auto, using(crate::proofs::Rounds::turns_go_round))]
pub fn turns_go_round()
    ensures { TurnsGoRound }
{}

/// Between two turns of an actor no other has two, also where one of them has finished since, and each unfinished one has one.
pub fn nobody_has_two_turns()
    ensures { NobodyHasTwoTurns }
{}

/// Where an actor's next call is ready, the call that is made next is its own, or that of one whose turn comes before its.
#[tactic(auto, using(crate::proofs::PassedOver::nobody_ready_is_passed_over))]
pub fn nobody_ready_is_passed_over()
    ensures { NobodyReadyIsPassedOver }
{}

/// A run ends only where nobody's next call is ready.
#[tactic(auto, using(crate::proofs::PassedOver::runs_end_where_nobody_is_ready))]
pub fn runs_end_where_nobody_is_ready()
    ensures { RunsEndWhereNobodyIsReady }
{}

/// In a run the compositor gives back each image that it holds before it asks for the next frame.
#[tactic(auto, using(crate::proofs::PassedOver::images_are_given_back_first))]
pub fn images_are_given_back_first()
    ensures { ImagesAreGivenBackFirst }
{}

/// A report with places tells each script's calls, their codes, printed values and places, where numbers have 64 bits and no text
/// has an `@`, as no path has.
#[tactic(auto, using(crate::proofs::ReportsTell::reports_tell_the_calls))]
pub fn reports_tell_the_calls()
    ensures { ReportsTellTheCalls }
{}

/// The printed values of a call that succeeded tell what it gave, but for handles.
#[tactic(auto, using(crate::proofs::ValuesTell::values_tell_what_was_given))]
pub fn values_tell_what_was_given()
    ensures { ValuesTellWhatWasGiven }
{}

/// The line of a frame with its place tells the whole frame, and the place of the reply that gave it.
#[tactic(auto, using(crate::proofs::FramesTell::frame_lines_tell_the_frame))]
pub fn frame_lines_tell_the_frame()
    ensures { FrameLinesTellTheFrame }
{}

/// The line of an event with its place tells where it stands among the events, the whole event, and the place of its call.
#[tactic(auto, using(crate::proofs::EventsTell::event_lines_tell_the_event))]
pub fn event_lines_tell_the_event()
    ensures { EventLinesTellTheEvent }
{}

/// A legal history with one more entry that is allowed and ready, and that begins a wait at its actor's clock, is legal.
#[tactic(auto, using(crate::proofs::GrowingHistories::legal_grows))]
pub fn legal_grows()
    ensures { LegalGrows }
{}

/// One more entry is one more call of its own actor, and none of another's.
#[tactic(auto, using(crate::proofs::GrowingHistories::calls_grow))]
pub fn calls_grow()
    ensures { CallsGrow }
{}

/// Where a history has no more calls of an actor than its front has, no entry between is that actor's.
#[tactic(auto, using(crate::proofs::GrowingHistories::none_lies_between))]
pub fn none_lies_between()
    ensures { NoneLiesBetween }
{}

/// No two numbers name one actor.
#[tactic(auto, using(crate::proofs::GrowingHistories::numbers_are_apart))]
pub fn numbers_are_apart()
    ensures { NumbersAreApart }
{}

/// Each entry of a legal history is by an actor that there is, so no other number has calls.
#[tactic(auto, using(crate::proofs::GrowingHistories::entries_are_by_actors))]
pub fn entries_are_by_actors()
    ensures { EntriesAreByActors }
{}

/// In a legal history an application that is there stays there over the entries of others, and over its own but `leave`.
#[tactic(auto, using(crate::proofs::OthersEntries::actors_stay))]
pub fn actors_stay()
    ensures { ActorsStay }
{}

/// In a legal history the clock at which the next wait of an actor begins stays over the entries of others.
#[tactic(auto, using(crate::proofs::OthersEntries::clocks_stay))]
pub fn clocks_stay()
    ensures { ClocksStay }
{}

/// The compositor's two calls alone change which images are held.
#[tactic(auto, using(crate::proofs::OthersEntries::held_images_stay))]
pub fn held_images_stay()
    ensures { HeldImagesStay }
{}

/// Where a number may add a call that it may ask for, its calls are few afterwards: at most 2^40 of the device and of each application,
/// and of the compositor those that show a frame and one that tells the end.
#[tactic(auto, using(crate::proofs::FewCalls::few_more))]
pub fn few_more()
    ensures { FewMore }
{}

/// Where the calls of each number are few, of eight applications at most, fewer than 2^44 calls of a legal history are counted.
#[tactic(auto, using(crate::proofs::FewCalls::locked_are_few))]
pub fn locked_are_few()
    ensures { LockedAreFew }
{}
