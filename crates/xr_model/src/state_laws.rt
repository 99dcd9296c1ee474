//! The laws of the states of sessions: where the table leads, and where each entry of a history brings a session.
ghost use Rattle.xr_model.specs.laws.StateLaws.{NextStates, StatesFollowTheTable};

/// For each state of a session, each wish of the device, and whether the session's end was asked for, the table of states leads where the
/// law says.
#[tactic(auto, using(crate::proofs::StateTable::next_states))]
pub fn next_states()
    ensures { NextStates }
{}

/// In every history a listed session rests, behind each entry, where the table leads from the state to which the entry brings it: the
/// first ended frame of a period synchronizes a ready one, an end makes it idle, and a loss takes all but an exiting one.
#[tactic(auto, using(crate::proofs::StateTable::states_follow_the_table))]
pub fn states_follow_the_table()
    ensures { StatesFollowTheTable }
{}
