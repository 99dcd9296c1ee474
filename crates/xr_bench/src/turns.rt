// Threads that take turns at a counter under the lock, and how long that takes.
ghost use Rattle.std.specs.Prelude.{◌≡◌, ◌≤◌, ◌<◌, All, length, slice_index_or};
ghost use Rattle.xr_bench.specs.Resting.{Rests};

mod counter;

use counter::Counter;
use std::alloc::Global;
use std::io;
use std::io::Print;
use std::sync::Wait;
use std::thread::{Threads, for_each_mut};
use std::time::{Clock, Instant};
use xr_lock::Lock;
use xr_rule::{XrSeat, XrTable};
use xr_types::NoMemory;

/// How many threads make how many turns together, and how many rounds of work are inside each.
#[derive(Clone, Copy)]
pub(crate) struct Work {
    pub(crate) threads: u8,
    pub(crate) turns: u64,
    pub(crate) inside: u64,
}

/// Takes the lock, has a turn and gives the counter back; whether there were enough turns.
fn turn<R: Wait>(rt: &R, table: &XrTable<Counter>, seat: &mut XrSeat<Counter>, work: Work) -> bool
    requires rests { Rests table.now.table.shared.table_id seat.old }
    ensures rests { Rests table.now.table.shared.table_id seat.new }
{
    let lock = Lock { table };
    let mut held = lock.take(rt, seat);
    let enough = held.value.turn(work.turns, work.inside);
    lock.give(seat, held);
    enough
}

/// Has turns until there were enough, where this place is a thread's.
fn take_turns<R: Wait>(
    rt: &R,
    table: &XrTable<Counter>,
    place: usize,
    seat: &mut XrSeat<Counter>,
    work: Work,
)
    requires rests { Rests table.now.table.shared.table_id seat.old }
    ensures rests { Rests table.now.table.shared.table_id seat.new }
{
    if place >= work.threads as usize {
        return;
    }
    for _ in 0..=work.turns {
        if turn(rt, table, seat, work) {
            return;
        }
    }
}

/// Each seat has its turns on a thread of its own.
fn work_on<R: Threads + Wait + Sync>(
    rt: &R,
    table: &XrTable<Counter>,
    seats: &mut [XrSeat<Counter>],
    work: Work,
)
    requires rest { All (Rests table.now.table.shared.table_id) seats.old }
    ensures rest { (i : _) (d : _) → i < length seats.old → Rests table.now.table.shared.table_id (slice_index_or seats.new i d) }
{
    for_each_mut(
        rt,
        seats,
        10,
        &|place, seat: &mut XrSeat<Counter>| take_turns(rt, table, place, seat, work),
    );
}

/// Has turns on threads; whether memory was found.
fn have_turns<R: Threads + Wait + Sync>(rt: &R, alloc: Global, work: Work) -> Result<(), NoMemory>
    requires some { 1 ≤ work.threads }
    requires few { work.threads ≤ 8 }
{
    let counter = Counter { turns: 0, mixed: 0 };
    let (table, mut seats) = XrTable::start(alloc, counter, work.threads)?;
    work_on(rt, &table, seats.as_mut_slice(), work);
    Ok(())
}

/// Has turns on threads, and prints how long they took; whether memory was found.
pub(crate) fn measure_turns<R: Threads + Wait + Sync + Clock + Print>(
    rt: &R,
    alloc: Global,
    work: Work,
) -> io::Result<bool>
    requires some { 1 ≤ work.threads }
    requires few { work.threads ≤ 8 }
{
    let start = Instant::now(rt)?;
    if have_turns(rt, alloc, work).is_err() {
        return Ok(false);
    }
    let spent = start.elapsed(rt)?.as_nanos();
    println!(rt; "{} turns in {spent} ns", work.turns)?;
    Ok(true)
}
