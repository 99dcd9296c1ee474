//! The action sets and the actions: their names, what they are, and which sets any session ever attached (OpenXR 1.0
//! chapter 11, "Action Sets" and "Actions"). It knows nothing of the calls that ask, or of what an action is bound to.
#![tactic(auto)]

mod action;
mod set;
mod sets;
mod texts;

pub use action::Action;
pub use sets::{NewAction, Sets};
