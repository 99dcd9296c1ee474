// What happens at the device, which is this project's own.
ghost use Rattle.std.specs.Prelude.{◌≡◌, true};
ghost use Rattle.xr_types.specs.Device.{checks};
ghost use Rattle.xr_types.specs.declared.calls.Call.TheVariants as ask;
ghost use Rattle.xr_model.specs.machine.Rules.Device.{is_awaiting, behind_event};
ghost use Rattle.xr_core.specs.inside.Deciding.{Decides};

use crate::halt::{Halt, done};
use crate::parts::Parts;
use crate::sessions::Change;
use xr_types::{Code, DeviceEvent, Reply};

impl Parts {
    /// The event happens. A mark for which the device waits is set by then.
    fn happen(&mut self, event: DeviceEvent)
        requires { checks event ≡ true }
        ensures { self.new ≡ behind_event self.old event }
    {
        match event {
            DeviceEvent::Clock(time) => self.device.advance(time),
            DeviceEvent::Grid { base, period } => self.device.set_grid(base, period),
            DeviceEvent::Wish(wish) => {
                self.device.set_wish(wish);
                self.settle();
            }
            DeviceEvent::Loss => {
                self.change_all(Change::Loss);
                self.settle();
            }
            DeviceEvent::Lost | DeviceEvent::Fault | DeviceEvent::Garbled(_) => self.change_all(
                Change::Lost,
            ),
            DeviceEvent::Stage(stage) => self.device.set_stage(stage),
            DeviceEvent::Profile { user, profile } => self.device.connect(user, profile),
            DeviceEvent::Input { user, row, value } => self.device.set_input(user, row, value),
            DeviceEvent::Pose { origin, time, pose } => self.room.sample(origin, time, pose),
            DeviceEvent::Mark(mark) => self.set_mark(mark, 0),
            DeviceEvent::Await(_) => {}
        }
    }

    /// Whether the device waits for a mark that isn't set.
    fn is_waiting(&self, event: DeviceEvent) -> bool
        ensures { result ≡ is_awaiting self.now event }
    {
        match event {
            DeviceEvent::Await(mark) => self.mark_value(mark).is_none(),
            _ => false,
        }
    }

    #[inline(never)]
    pub(crate) fn device_event(&mut self, event: DeviceEvent) -> Result<Reply, Halt>
        requires checks { checks event ≡ true }
        ensures { Decides self.old (ask.Device event) self.new result }
    {
        if self.is_waiting(event) {
            return Err(Halt::NotReady);
        }
        self.happen(event);
        done(Code::Success)
    }
}
