// What follows from the clause of the top calls: an empty function a law.
ghost use Rattle.xr_drive.specs.TopLaws.{GoodInputIsRun, LoadsAreRun};

/// Good words, a good text, a device that ends at the end of its text and no fault leave `Done`, `Stuck` or `NoMemory`.
#[tactic(auto, using(crate::proofs::Runs::good_input_is_run))]
pub fn good_input_is_run()
    ensures { GoodInputIsRun }
{}

/// A load and no fault leave `Done`, `Stuck` or `NoMemory`.
#[tactic(auto, using(crate::proofs::Runs::loads_are_run))]
pub fn loads_are_run()
    ensures { LoadsAreRun }
{}
