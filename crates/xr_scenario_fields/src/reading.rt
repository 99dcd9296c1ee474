// An op that is read.
use xr_types::Op;

/// An op, and the name that it gives.
#[derive(Drop)]
pub struct ReadOp<'v> {
    pub op: Op,
    pub name: Option<&'v str>,
}
