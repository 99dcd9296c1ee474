// The calls on instances, their systems and their events (OpenXR 1.0 chapters 2, 4 and 5).
ghost use Rattle.std.specs.Prelude.{◌≡◌, ◌≢◌, [], ◌<◌, ◌^◌, length, true, false};
ghost use Rattle.xr_types.specs.declared.handles.Kind.TheVariants as kind;
ghost use Rattle.xr_model.specs.machine.Events.{no_events};
ghost use Rattle.xr_model.specs.machine.Handles.{has_room, was_given, with_handle};
ghost use Rattle.xr_types.specs.declared.calls.Call.TheVariants as ask;
ghost use Rattle.xr_model.specs.machine.Rules.Instance.{create_instance_rule};
ghost use Rattle.xr_core.specs.inside.Deciding.{Decides, DecidesCells, MayTouch};
ghost use Rattle.xr_core.specs.inside.Groups.{IsInstanceCall};
ghost use Rattle.xr_core.specs.inside.Refusing.{unless_refused};

use crate::halt::{Halt, done, giving, refused};
use crate::parts::{Parts, give};
use xr_model::Cells;
use xr_types::{Call, Code, Form, Gives, Kind, Reply, USERS};

/// The one system.
pub(crate) const SYSTEM: u64 = 1;

impl Parts {
    pub(crate) fn instance_call(&mut self, call: &Call<'_>) -> Result<Reply, Halt>
        requires given { length self.old.handles.given < 2 ^ 44 }
        requires group { IsInstanceCall call.now }
        ensures { Decides self.old call.now self.new result }
    {
        match call {
            Call::CreateInstance { major, minor } => self.create_instance(*major, *minor),
            Call::GetSystem { instance, form } => self.get_system(*instance, *form),
            Call::PollEvent { instance } => self.poll_event(*instance),
            _ => unreachable!(),
        }
    }

    /// What refuses an instance: any version but 1.0, and one too many.
    fn may_create_instance(&self, major: u32, minor: u32) -> Result<(), Code>
        ensures { result ≡ unless_refused (create_instance_rule self.now 0 major minor) tt }
    {
        if major != 1 || minor != 0 {
            return Err(Code::ApiVersionUnsupported);
        }
        self.room(Kind::Instance)
    }

    fn create_instance(&mut self, major: u32, minor: u32) -> Result<Reply, Halt>
        requires { length self.old.handles.given < 2 ^ 44 }
        ensures { Decides self.old (ask.CreateInstance major minor) self.new result }
    {
        self.may_create_instance(major, minor)?;
        let handle = self.new_instance();
        giving(Code::Success, Gives::Handle(handle))
    }

    /// Gives the handle of a new instance, where there is room for one.
    fn new_instance(&mut self) -> u64
        requires given { length self.old.handles.given < 2 ^ 44 }
        requires room { has_room self.old.handles kind.Instance ≡ true }
        ensures state { self.new ≡ record self.old { handles = with_handle self.old.handles kind.Instance 0 result } }
        ensures fresh { (result ≢ 0) × (was_given self.old.handles result ≡ false) }
    {
        give(&mut self.handles, Kind::Instance, 0)
    }

    #[inline(never)]
    pub(crate) fn destroy_instance<C: Cells>(
        &mut self,
        cells: &mut C,
        instance: u64,
    ) -> Result<Reply, Halt>
        requires may { MayTouch C.may C.does self.old cells.old (ask.DestroyInstance instance) }
        ensures { DecidesCells C.does self.old (ask.DestroyInstance instance) self.new result cells.old cells.new }
    {
        self.live(Kind::Instance, instance)?;
        self.destroy_over(cells, instance);
        self.forget_all();
        done(Code::Success)
    }

    /// No path is an atom any more, and no event waits.
    fn forget_all(&mut self)
        ensures { self.new ≡ record self.old { atoms = []; events = no_events } }
    {
        self.paths.clear();
        self.users = [0; USERS];
        self.events.clear();
    }

    fn get_system(&mut self, instance: u64, form: Form) -> Result<Reply, Halt>
        ensures { Decides self.old (ask.GetSystem instance form) self.new result }
    {
        self.live(Kind::Instance, instance)?;
        match form {
            Form::Head => giving(Code::Success, Gives::Number(SYSTEM)),
            Form::Hand => refused(Code::FormFactorUnsupported),
        }
    }

    fn poll_event(&mut self, instance: u64) -> Result<Reply, Halt>
        ensures { Decides self.old (ask.PollEvent instance) self.new result }
    {
        self.live(Kind::Instance, instance)?;
        match self.events.poll() {
            Some(event) => giving(Code::Success, Gives::Event(event)),
            None => refused(Code::EventUnavailable),
        }
    }
}
