//! The end of a runtime.
ghost use Rattle.xr_runtime.specs.Closing.{AreAll, IsClosed};

use crate::calling::Runtime;
use crate::passes::{AppPass, CompositorPass, DevicePass, Passes};
use xr_core::Core;
use xr_rule::XrSeat;

/// What is left of a runtime. It stands for the one history of all calls.
#[derive(Drop)]
pub struct Closed {
    /// How many calls were counted.
    pub places: u64,
    pub(crate) core: Core,
    pub(crate) seat: XrSeat<Core>,
}

impl Runtime {
    /// Ends the run with all its passes. There is one legal history: it begins with what each pass has seen, and holds each pass's
    /// calls as they were answered, and no others.
    pub fn close(self, passes: Passes) -> Closed
        requires all { AreAll self passes }
        ensures closed { IsClosed self passes result }
    {
        let Passes {
            mut apps,
            compositor,
            device,
        } = passes;
        let CompositorPass { mut seat, .. } = compositor;
        let mut closer = self.table.keep(&mut seat);
        self.table.join(&mut closer, seat);
        let DevicePass { seat, .. } = device;
        self.table.join(&mut closer, seat);
        while let Some(pass) = apps.pop() {
            let AppPass { seat, .. } = pass;
            self.table.join(&mut closer, seat);
        }
        let Runtime { table } = self;
        let finished = table.finish(closer);
        Closed {
            places: finished.value.calls(),
            core: finished.value,
            seat: finished.seat,
        }
    }
}
