// What the names of a running script stand for.
ghost use Rattle.std.specs.Prelude.{◌≡◌, ◌≤◌, IfOk, length};
ghost use Rattle.xr_model.specs.runs.NameValues.{number_given, value_given, no_values, with_name_value, value_at, value_of, time_of};

use std::alloc::Global;
use std::marker::Model;
use xr_types::{Gives, NoMemory, Op, Reply, Use};

/// What each op of a script gave to its name, by the op's place: a handle, an atom, a system, a mark's
/// value or a predicted time in ns of device time. 0 where the op has no name, gave nothing or wasn't
/// made yet.
#[derive(Drop)]
pub struct Names {
    values: Vec<u64>,
}

impl Model for Names {
    ghost use Rattle.std.specs.Prelude.{List, ℕ};

    ghost Value = { List ℕ };

    ghost view = { λ names. names.values.items };
}

/// The number that a reply gives. A predicted time is never below 0.
fn number_given(gives: Gives) -> u64
    ensures { result ≡ number_given gives }
{
    match gives {
        Gives::Handle(number) | Gives::Number(number) => number,
        Gives::Frame(frame) => u64::try_from(frame.time).unwrap_or(0),
        _ => 0,
    }
}

/// The value that a reply gives to its op's name.
fn value_given(op: &Op, gives: Gives) -> u64
    ensures { result ≡ value_given op.now gives }
{
    match op.sort() {
        Some(_) => number_given(gives),
        None => 0,
    }
}

impl Names {
    /// The names of a script of so many ops, of which none is made yet. Refused only by want of memory.
    pub fn start(alloc: Global, ops: usize) -> Result<Names, NoMemory>
        ensures { IfOk result (λ names. names ≡ no_values ops) }
    {
        let values = vec![in alloc; 0u64; ops]?;
        Ok(Names { values })
    }

    /// Keeps what the op at this place, from 1, was answered. Takes no memory.
    pub fn learn(&mut self, place: u32, op: &Op, reply: &Reply)
        requires first { 1 ≤ place }
        requires within { place ≤ length self.old }
        ensures { self.new ≡ with_name_value self.old place op.now reply.now }
    {
        self.values[place as usize - 1] = value_given(op, reply.gives);
    }

    fn value_at(&self, place: u32) -> u64
        ensures { result ≡ value_at self.now place }
    {
        let index = place.saturating_sub(1) as usize;
        self.values.get(index).copied().unwrap_or(0)
    }

    /// The value of a field.
    pub fn value_of(&self, used: Use) -> u64
        ensures { result ≡ value_of self.now used }
    {
        match used {
            Use::Number(number) => u64::try_from(number).unwrap_or(0),
            Use::Of(place) => self.value_at(place),
        }
    }

    /// The value of a time's field, in ns of device time.
    pub(crate) fn time_of(&self, used: Use) -> i64
        ensures { result ≡ time_of self.now used }
    {
        match used {
            Use::Number(number) => number,
            Use::Of(place) => i64::try_from(self.value_at(place)).unwrap_or(i64::MAX),
        }
    }
}
