// The calls that are this project's own.
ghost use Rattle.std.specs.Prelude.{◌≡◌, true};
ghost use Rattle.std.specs.List.{list_all};
ghost use Rattle.xr_types.specs.Device.{is_mark};
ghost use Rattle.xr_model.specs.machine.Marks.{mark_at, with_mark};
ghost use Rattle.xr_types.specs.declared.calls.Call.TheVariants as ask;
ghost use Rattle.xr_model.specs.machine.Rule.{is_by};
ghost use Rattle.xr_model.specs.machine.Machine.{IsPresent};
ghost use Rattle.xr_model.specs.machine.CoreCalls.{asked};
ghost use Rattle.xr_core.specs.inside.Deciding.{Decides, DecidesBy};
ghost use Rattle.xr_core.specs.inside.Groups.{IsOwnCall};

use crate::halt::{Halt, done, giving};
use crate::parts::Parts;
use xr_types::{Actor, Call, Code, Gives, Reply};

impl Parts {
    #[inline(never)]
    pub(crate) fn own_call(&mut self, who: Actor, call: &Call<'_>) -> Result<Reply, Halt>
        requires group { IsOwnCall call.now }
        requires present { IsPresent self.old who }
        requires caller { is_by (asked who call.now).caller who ≡ true }
        requires numbers { (asked who call.now).in_range ≡ true }
        ensures { DecidesBy who self.old call.now self.new result }
    {
        match call {
            Call::Mark { mark, value } => self.mark(*mark, *value),
            Call::AwaitMark { mark } => self.await_mark(*mark),
            Call::Leave => match who {
                Actor::App(app) => self.leave(app),
                Actor::Compositor | Actor::Device => unreachable!(),
            },
            _ => unreachable!(),
        }
    }

    #[tactic(auto, using(crate::proofs::Start::left_set))]
    fn leave(&mut self, app: u8) -> Result<Reply, Halt>
        requires { IsPresent self.old (Actor.App app) }
        ensures { DecidesBy (Actor.App app) self.old ask.Leave self.new result }
    {
        let place = app as usize - 1;
        self.left[place] = true;
        done(Code::Success)
    }

    /// Whether every application has left.
    pub(crate) fn all_left(&self) -> bool
        ensures { result ≡ list_all (λ has_left. has_left) self.now.left }
    {
        let apps = self.apps as usize;
        self.left[..apps].iter().all(|has_left| *has_left)
    }

    /// Sets a mark, from 1, with a value.
    pub(crate) fn set_mark(&mut self, mark: u8, value: u64)
        requires { is_mark mark ≡ true }
        ensures { self.new ≡ record self.old { marks = with_mark self.old.marks mark value } }
    {
        self.marks[mark as usize - 1] = Some(value);
    }

    /// The value of a mark that is set.
    pub(crate) fn mark_value(&self, mark: u8) -> Option<u64>
        ensures { result ≡ mark_at self.now.marks mark }
    {
        if mark == 0 {
            return None;
        }
        match self.marks.get(mark as usize - 1) {
            Some(value) => *value,
            None => None,
        }
    }

    fn mark(&mut self, mark: u8, value: u64) -> Result<Reply, Halt>
        requires { is_mark mark ≡ true }
        ensures { Decides self.old (ask.Mark mark value) self.new result }
    {
        self.set_mark(mark, value);
        done(Code::Success)
    }

    /// Gives the value of a mark, or waits until it is set.
    fn await_mark(&mut self, mark: u8) -> Result<Reply, Halt>
        ensures { Decides self.old (ask.AwaitMark mark) self.new result }
    {
        match self.mark_value(mark) {
            Some(value) => giving(Code::Success, Gives::Number(value)),
            None => Err(Halt::NotReady),
        }
    }
}
