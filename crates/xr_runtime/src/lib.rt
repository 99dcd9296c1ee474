//! The calls of the threads of a run, each by its pass: every call is one entry of one legal history.
//! It knows passes and the lock, and neither threads nor scripts; what a call does is the core's.
#![tactic(auto)]

mod app_calls;
mod bells;
mod calling;
mod close;
mod frames;
mod input;
mod instance;
mod lending;
mod others;
mod passes;
mod session;
mod spaces;
mod start;

pub use calling::Runtime;
pub use close::Closed;
pub use passes::{AppPass, CompositorPass, DevicePass, Passes};
