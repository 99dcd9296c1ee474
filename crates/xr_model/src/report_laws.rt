//! The laws of what a report tells beside its scripts, of what is told at the end, and of the lines of a device's text.
ghost use Rattle.xr_model.specs.laws.BlockLaws.{ReportsTellTheFrames, ReportsTellTheEvents, ReportsTellWhoIsStuck};
ghost use Rattle.xr_model.specs.laws.EndLaws.{StatusesHaveTheirNumbers, CountsAddUp, ReturnsStandBehindCalls};
ghost use Rattle.xr_model.specs.laws.LineLaws.{LinesAreTheText, FirstMalformedIsTold};

/// A report with places tells the frames that were shown, the place at which each was got, and the one at which the compositor was told
/// the end, where numbers have 64 bits.
pub fn reports_tell_the_frames()
    ensures { ReportsTellTheFrames }
{}

/// A report with places tells the events of the device and the place of each one's call, also of the one that ended it early, and of a
/// malformed line its number.
pub fn reports_tell_the_events()
    ensures { ReportsTellTheEvents }
{}

/// A report with places tells who waits for ever, and for what: of an application the place and the name of its op, of the device its mark.
pub fn reports_tell_who_is_stuck()
    ensures { ReportsTellWhoIsStuck }
{}

/// The numbers of how runs end are those from 0 to 9, each of one way to end, whatever it tells of a wrong place or a malformed line.
#[tactic(auto, using(crate::proofs::EndNumbers::statuses_have_their_numbers))]
pub fn statuses_have_their_numbers()
    ensures { StatusesHaveTheirNumbers }
{}

/// What a summary counts of all results is together as much as the calls.
#[tactic(auto, using(crate::proofs::EndNumbers::counts_add_up))]
pub fn counts_add_up()
    ensures { CountsAddUp }
{}

/// The lists of a history have a number for each image that was given back, in their order: how many locked calls came before it.
pub fn returns_stand_behind_calls()
    ensures { ReturnsStandBehindCalls }
{}

/// The lines of a device's text are the text, one behind the other. None has a line feed inside; all but the last end in one, and none
/// without is empty.
pub fn lines_are_the_text()
    ensures { LinesAreTheText }
{}

/// A text of a device whose lines are all well formed tells their events; of any other the first malformed line is told by its number
/// from 1, and the events of the lines ahead of it.
#[tactic(auto, using(crate::proofs::FirstMalformed::first_malformed_is_told))]
pub fn first_malformed_is_told()
    ensures { FirstMalformedIsTold }
{}
