//! The top call on threads, over any files, any output and any gate: the parts of `xr_drive`'s, with the scenario run by `xr_threads`
//! between them. `threads` has the call, `files` the run of files, and `program` what a program does with the status.
#![tactic(auto)]

mod files;
mod laws;
mod program;
mod threads;

pub use laws::{good_input_is_run_on_threads, threads_end};
pub use program::run_threads_program;
pub use threads::{Ran, run_threads};
