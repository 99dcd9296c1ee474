//! The spaces, and the newest samples of what has a pose of its own. It knows where a space is in another at a
//! time, and nothing of the calls that ask or the device that tells. Poses and offsets are opaque numbers to it.
#![tactic(auto)]

mod roots;
mod samples;
mod spaces;

pub use spaces::{Spaces, check_reference};
