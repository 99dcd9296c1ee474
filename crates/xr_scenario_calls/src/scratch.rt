// Where the lists of a call stand while it is made.
use crate::room::Room;
use std::alloc::Global;
use xr_types::{
    ActiveSet, Binding, Layer, MOST_ACTIVE, MOST_ATTACHED, MOST_BINDINGS, MOST_LISTED, NoMemory,
};

/// Room for the longest lists that a scenario's op may have, which is taken once. A call that `call_of` makes borrows it.
#[derive(Drop)]
pub struct Scratch {
    pub(crate) numbers: Room<u64, MOST_ATTACHED>,
    pub(crate) bindings: Room<Binding, MOST_BINDINGS>,
    pub(crate) active: Room<ActiveSet, MOST_ACTIVE>,
    pub(crate) layers: Room<Layer, MOST_LISTED>,
}

impl Scratch {
    /// Empty room, with all the memory that it ever takes. `NoMemory` comes where there isn't as much.
    pub fn start(alloc: Global) -> Result<Scratch, NoMemory> {
        Ok(Scratch {
            numbers: Room::start(alloc)?,
            bindings: Room::start(alloc)?,
            active: Room::start(alloc)?,
            layers: Room::start(alloc)?,
        })
    }
}
