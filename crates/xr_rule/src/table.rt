//! The table made, its seats joined, and finished.
ghost use Rattle.std.specs.Prelude.{◌≡◌, ℕ, ◌+◌, ◌<◌, ◌≤◌, length, slice_index, vec_len, vec_capacity, IfOk, []};
ghost use Rattle.xr_model.specs.machine.History.{after};
ghost use Rattle.xr_model.specs.machine.State.{Cells, with_apps, opening, opening_core};
ghost use Rattle.xr_rule.specs.Rule.{HasAll, word_count};
ghost use Rattle.xr_rule.specs.Seats.{AreFresh, IsBetween, IsIdle};
ghost use Rattle.xr_rule.specs.View.{joined_view, keepsake, newcomer};

use crate::beside::Beside;
use crate::held::Held;
use crate::plays::{Cut, Join, Keep};
use crate::rule::{NO_COUNT, WORDS, XrSeat, XrTable};
use atomic_table::{Refused, Table};
use std::alloc::Global;
use xr_model::Machine;
use xr_types::{NoMemory, View};

/// What is left of a table: its value, which stands for the state after the whole history, and a seat that keeps this history.
#[derive(Drop)]
pub struct Finished<M: Machine> {
    /// The machine's value.
    pub value: M,
    /// A seat without a number, which has seen the whole history.
    pub seat: XrSeat<M>,
}

// every word before any call is 0
fn fill_zeros(words: &mut Vec<u64>)
    requires none { words.old.items ≡ [] }
    requires room { word_count ≤ vec_capacity words.old }
    ensures count { length words.new.items ≡ word_count }
    ensures zeros { (i : ℕ) → slice_index words.new.items i ≡ 0 }
{
    while words.len() < WORDS {
        words.push_reserved(0);
    }
}

impl<M: Machine + Drop> XrTable<M> {
    /// Makes a table around a value that stands for the opening state, and the seats: those of the applications in their order,
    /// the compositor's and the device's.
    pub fn start(
        alloc: Global,
        value: M,
        apps: u8,
    ) -> Result<(XrTable<M>, Vec<XrSeat<M>>), NoMemory>
        requires apps { (1 ≤ apps) × (apps ≤ 8) }
        requires value { (cells : Cells) → M.stands value (record { core = opening_core (with_apps apps); cells = cells }) }
        ensures key { IfOk result (λ r. r.0.table.shared.key ≡ apps) }
        ensures seats { IfOk result (λ r. AreFresh r.0.table.shared.table_id apps r.1.items) }
    {
        let mut slots = Vec::with_capacity(alloc, 1)?;
        let value = Box::new(alloc, value)?;
        let room = Box::new(alloc, View::start())?;
        let counts = [NO_COUNT, 0, 0, 0, 0, 0, 0, 0, 0, 0];
        slots.push_reserved(Some(Held {
            value,
            counts,
            room,
        }));
        let count = apps as usize;
        let mut seats = Vec::with_capacity(alloc, count + 2)?;
        let mut words = Vec::with_capacity(alloc, WORDS)?;
        fill_zeros(&mut words);
        let apps = apps as u64;
        let beside = Beside::start(alloc)?;
        let (table, root) = match Table::new(alloc, &words, slots, &apps) {
            Ok(made) => made,
            Err(Refused { slots: _ }) => return Err(NoMemory),
        };
        let made = XrTable { table, beside };
        made.deal(root, apps, &mut seats);
        Ok((made, seats))
    }

    // the root gives the other numbers away, and is the device's seat
    fn deal(&self, mut root: XrSeat<M>, apps: u64, seats: &mut Vec<XrSeat<M>>)
        requires some { 1 ≤ apps }
        requires first { (root.table_id ≡ self.now.table.shared.table_id) × (root.me ≡ (newcomer apps, [])) }
        requires room { (seats.old.items ≡ []) × (apps + 2 ≤ vec_capacity seats.old) }
        ensures seats { AreFresh self.now.table.shared.table_id apps seats.new.items }
    {
        let mut left = apps;
        while left > 0 {
            let seat = self.table.shared.split_seat::<Cut>(&mut root);
            seats.push_reserved(seat);
            left -= 1;
        }
        let compositor = self.table.shared.split_seat::<Cut>(&mut root);
        seats.push_reserved(compositor);
        seats.push_reserved(root);
    }

    /// A new seat without a number, which keeps what this one has seen.
    pub fn keep(&self, seat: &mut XrSeat<M>) -> XrSeat<M>
        requires own { seat.old.table_id ≡ self.now.table.shared.table_id }
        ensures same { (seat.new.table_id ≡ seat.old.table_id) × (seat.new.me ≡ seat.old.me) }
        ensures new { (result.table_id ≡ seat.old.table_id) × (result.me ≡ (keepsake seat.old.me.0, [])) }
    {
        self.table.shared.split_seat::<Keep>(seat)
    }

    /// Takes in another seat with its numbers, their calls, and what it has seen.
    pub fn join(&self, seat: &mut XrSeat<M>, other: XrSeat<M>)
        requires own { (seat.old.table_id ≡ self.now.table.shared.table_id) × (other.table_id ≡ self.now.table.shared.table_id) }
        requires idle { IsIdle seat.old.me }
        requires between { IsBetween other.me }
        ensures own { seat.new.table_id ≡ seat.old.table_id }
        ensures joined { seat.new.me ≡ (joined_view seat.old.me.0 other.me.0, []) }
    {
        self.table.shared.join_seat::<Join>(seat, other);
    }

    /// Ends the table by a seat that has taken in all others.
    pub fn finish(self, mut seat: XrSeat<M>) -> Finished<M>
        requires own { seat.table_id ≡ self.table.shared.table_id }
        requires between { IsBetween seat.me }
        requires all { length seat.me.0.know.own ≡ self.table.shared.key + 2 }
        ensures all { HasAll self.table.shared.key seat.me.0.know }
        ensures seen { (result.seat.me.0.know.seen ≡ seat.me.0.know.seen) × (result.seat.me.0.know.apps ≡ self.table.shared.key) }
        ensures value { M.stands result.value (after (opening (with_apps self.table.shared.key)) seat.me.0.know.seen) }
    {
        let kept = self.table.shared.split_seat::<Keep>(&mut seat);
        let XrTable { table, beside: _ } = self;
        let mut closed = table.close_with(seat);
        let slot = closed.take(0);
        closed.free();
        let Held { value, .. } = slot.unwrap();
        let value = Box::into_inner(value);
        Finished { value, seat: kept }
    }
}
