//! The start of a runtime.
ghost use Rattle.std.specs.Prelude.{◌≡◌, ◌+◌, ◌≤◌, ℕ, [], Some, IfOk, length, slice_get, vec_capacity};
ghost use Rattle.xr_types.specs.declared.limits.TheConstants.{MOST_SCRIPTS};
ghost use Rattle.xr_runtime.specs.Passes.{table_of, AreSeats, AreFirst, IsStarted};

use crate::calling::Runtime;
use crate::passes::{AppPass, CompositorPass, DevicePass, Passes};
use arrayvec::ArrayVec;
use std::alloc::Global;
use xr_core::Core;
use xr_rule::{XrSeat, XrTable};
use xr_types::NoMemory;

impl Runtime {
    /// A runtime of 1 to 8 applications before any call, and a pass for each actor. It takes all memory but that of new path texts and
    /// of suggestions.
    pub fn start(alloc: Global, apps: u8) -> Result<(Runtime, Passes), NoMemory>
        requires some { 1 ≤ apps }
        requires few { apps ≤ MOST_SCRIPTS }
        ensures started { IfOk result (λ r. IsStarted r.0 apps r.1) }
    {
        let core = Core::start(alloc, apps)?;
        let mut passes = Vec::with_capacity(alloc, apps as usize)?;
        let (table, mut seats) = XrTable::start(alloc, core, apps)?;
        let Some(device) = seats.pop() else {
            unreachable!()
        };
        let Some(compositor) = seats.pop() else {
            unreachable!()
        };
        let runtime = Runtime { table };
        runtime.seat_apps(seats, apps, &mut passes);
        let passes = Passes {
            apps: passes,
            compositor: CompositorPass {
                seat: compositor,
                calls: 0,
                held: ArrayVec::new(),
                ended: false,
            },
            device: DevicePass {
                seat: device,
                calls: 0,
            },
        };
        Ok((runtime, passes))
    }

    // gives each application's seat to a pass, in their order
    fn seat_apps(&self, mut seats: Vec<XrSeat<Core>>, apps: u8, passes: &mut Vec<AppPass>)
        requires seats { AreSeats (table_of self.now) apps 2 seats.items }
        requires count { length seats.items ≡ apps }
        requires room { (passes.old.items ≡ []) × (apps ≤ vec_capacity passes.old) }
        ensures passes { AreFirst (table_of self.now) passes.new.items }
        ensures count { length passes.new.items ≡ apps }
    {
        let mut app = 0;
        while app < apps {
            let seat = seats.remove(0);
            app += 1;
            passes.push_reserved(AppPass {
                seat,
                app,
                calls: 0,
                left: false,
                clock: 0,
            });
        }
    }
}
