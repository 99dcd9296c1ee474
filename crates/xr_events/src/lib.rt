//! The queue of events: the newest 32, the oldest first, and how many were lost. It knows what an event is
//! and nothing of why it comes.
#![tactic(auto)]

mod queue;

pub use queue::Events;
