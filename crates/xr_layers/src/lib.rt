//! What refuses the layers of a frame, and the images that a frame shows (OpenXR 1.0 chapter 10, "Compositing"). It is told
//! what is live, and knows no handles, sessions or calls. It takes no memory.
#![tactic(auto)]

mod images;
mod layers;
mod look;
mod parts;

pub use layers::check;
pub use look::Look;
