//! The swapchains of a core in their places, and cells in plain memory (OpenXR 1.0 chapter 10, "Swapchain Image
//! Management"). It knows places, images and cells, and no sessions, frames or calls.
#![tactic(auto)]

mod chain;
mod chains;
mod places;
mod plain;
mod standing;

pub use chains::Chains;
pub use plain::PlainCells;
pub use standing::Standing;
