//! The whole state of the runtime, and one call at a time: the core, and the core with plain cells as one value. It
//! knows calls and parts, and no bytes of scenarios, devices or reports.
#![tactic(auto)]

mod bound;
mod calls;
mod counted;
mod decide;
mod device_values;
mod halt;
mod parts;
mod plain_core;
mod ranking;
mod sessions;
mod showing;
mod sight;
mod slots;
mod standing;
mod subactions;
mod uncounted;
mod users;
mod view;

pub use counted::Core;
pub use plain_core::PlainCore;
pub use xr_chains::PlainCells;
