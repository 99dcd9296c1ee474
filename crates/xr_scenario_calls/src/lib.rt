//! The call that an op asks for, with its names replaced by what earlier calls gave. It knows ops, replies and calls, and neither texts nor
//! the machine's state. It takes memory once for each script.
#![tactic(auto)]

mod call;
mod lists;
mod names;
mod room;
mod scratch;

pub use call::call_of;
pub use names::Names;
pub use scratch::Scratch;
