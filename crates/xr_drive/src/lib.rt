//! The top call, over any files and any output: from the words and the files' bytes to the bytes of the report, with the status of each
//! way to end, its number, and the line that tells it. `serial` has the call, `files` its parts before a run and behind it, which know no
//! way to run, and `program` what a program does with a status.
#![tactic(auto)]

mod explanation;
mod faults;
mod files;
mod input;
mod laws;
mod output;
mod program;
mod serial;
mod written;

pub use explanation::explain;
pub use faults::RunFault;
pub use files::{Beside, answer_files, close_device, open_alone, open_beside};
pub use laws::{good_input_is_run, loads_are_run};
pub use output::write_all;
pub use program::{end_with, print, run_program};
pub use serial::run_serial;
pub use xr_report::exit_of;
