//! The laws of what a script's names stand for, and of the script of a load.
ghost use Rattle.xr_model.specs.laws.LoadLaws.{LoadsHaveSoManyOps, LoadsEndTheirWaits};
ghost use Rattle.xr_model.specs.laws.ScriptLaws.{NamesStandForWhatWasGiven};

/// Where the call of an op succeeds, the op's name stands for the handle of what is created, the atom that has the text, the one system,
/// the predicted time of the frame, or the value of the mark.
pub fn names_stand_for_what_was_given()
    ensures { NamesStandForWhatWasGiven }
{}

/// The script of a load of N frames has 7 + 7N ops and two more for each tenth frame and one for each seventh: N waits and one for each
/// tenth, N ends at a named time, and one at a number for each seventh.
pub fn loads_have_so_many_ops()
    ensures { LoadsHaveSoManyOps }
{}

/// In the script of a load each frame is ended at the time that the last wait ahead gave.
pub fn loads_end_their_waits()
    ensures { LoadsEndTheirWaits }
{}
