//! What is published, as words beside the lock: the holder writes a buffer that no seat is in, and makes it the front. A getter enters the front,
//! reads the words that it asks for, and leaves, without the lock.
#![tactic(auto)]

mod answering;
mod decoding;
mod finding;
mod looking;
mod places;
mod publishing;
mod reading;

pub use answering::read;
pub use publishing::publish;
