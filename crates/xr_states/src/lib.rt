//! The states of one session: what a call, the device's wish and a loss do to them. It knows of a session
//! what its states depend on, and nothing of events, handles or frames.
#![tactic(auto)]

mod changes;
mod life;
mod table;

pub use changes::Changes;
pub use life::Life;
