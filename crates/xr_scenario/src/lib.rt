//! Reading scenario texts: JSON by `serde_json`, and the scenario format over its values; and the
//! scenario of a load. It knows bytes and ops, and no state of the machine.
#![tactic(auto)]

mod fault;
mod keys;
mod laws;
mod load;
mod read_op;
mod reader;
mod row_keys;

pub use fault::ScenarioFault;
pub use laws::{few_ops, holds_less, loads_can_be_run, loads_have_so_many_ops};
pub use load::generate;
pub use reader::read;
