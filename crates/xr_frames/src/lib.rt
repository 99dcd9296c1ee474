//! The frame loops of the sessions by their slots, and the frames that were ended and wait for the compositor (OpenXR 1.0
//! chapter 10). It knows places of images, and no handles, sessions or calls.
#![tactic(auto)]

mod frames;
mod times;

pub use frames::Frames;
