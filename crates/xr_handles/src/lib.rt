//! The handles that are live, each with its kind and its parent, in a row of places for each kind. It knows
//! which handles are below which, and nothing of what they name.
#![tactic(auto)]

mod handles;
mod row;

pub use handles::Handles;
