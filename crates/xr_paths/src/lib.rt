//! The atoms of an instance: the distinct path texts, in the order in which they came (OpenXR 1.0
//! section 6.2). It knows texts alone, and nothing of instances or calls.
#![tactic(auto)]

mod atoms;
mod copy;
mod text;

pub use atoms::{ATOMS, Paths};
