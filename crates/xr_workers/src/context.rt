// What the workers of a run share.
use std::alloc::Global;
use xr_runtime::Runtime;

/// What the workers of a run share: the host, by which a call waits, its memory, the runtime whose calls they make, and the gate that
/// is called round each call.
#[derive(Drop)]
pub struct Context<'a, R, G> {
    pub rt: &'a R,
    pub alloc: Global,
    pub runtime: &'a Runtime,
    pub gate: &'a G,
}
