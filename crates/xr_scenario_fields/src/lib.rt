//! Readers of the fields, keys, names and lists of a scenario's ops, over JSON values of `serde_json`.
//! Each tells what the definitions of the scenario format say of a value, or the first wrong place, and
//! promises that what it reads is in form.
#![tactic(auto)]

mod fault;
mod keys;
mod list_items;
mod lists;
mod named_ops;
mod names;
mod numbers;
mod reading;
mod uses;
mod words;

pub use fault::Fault;
pub use keys::{last_value, only_keys};
pub use lists::{ListItem, list};
pub use named_ops::NamedOps;
pub use names::name;
pub use numbers::{MOST, mark_number, number, small, timeout, truth};
pub use reading::ReadOp;
pub use uses::{atom, handle, mark_value, system, time};
pub use words::{text, word};
