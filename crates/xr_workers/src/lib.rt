//! The workers of a run on threads: an actor's calls by its pass, listed in the order in which they are made, and the gate
//! that is called round each call. A worker knows its actor's script or device and the runtime, and neither threads nor other workers.
#![tactic(auto)]

mod app;
mod compositor;
mod context;
mod device;
mod gate;
mod script;

pub use app::{AppScript, run_script};
pub use compositor::{Composed, run_compositor};
pub use context::Context;
pub use device::{DeviceMade, run_device};
pub use gate::{Gate, OpenGate};
