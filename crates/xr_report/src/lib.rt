//! The bytes of a report and of a summary, from the lists that a run has made. It knows no state of the machine.
#![tactic(auto)]

mod blocks;
mod device;
mod ending;
mod lines;
mod load_summary;
mod push;
mod values;

pub use blocks::report;
pub use ending::{ending_of, exit_of};
pub use load_summary::summary;
