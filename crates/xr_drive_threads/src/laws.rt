// What follows from the answers of the top call on threads.
ghost use Rattle.xr_drive_threads.specs.TopLaws.{GoodInputIsRunOnThreads, ThreadsEnd};

/// Good words, a good text, a device that ends at the end of its text and no fault leave `Done` or `NoMemory`.
#[tactic(auto, using(crate::proofs::Following::good_input_is_run_on_threads))]
pub fn good_input_is_run_on_threads()
    ensures { GoodInputIsRunOnThreads }
{}

/// `Stuck` never comes.
#[tactic(auto, using(crate::proofs::Following::threads_end))]
pub fn threads_end()
    ensures { ThreadsEnd }
{}
