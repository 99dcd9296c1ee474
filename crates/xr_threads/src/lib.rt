//! A scenario on threads: an actor a thread, all over one runtime, and the one history that its lists are of. It knows the workers by
//! their public clauses, and neither files nor reports.
#![tactic(auto)]

mod actors;
mod app;
mod threads;

pub use threads::{Ended, run};
