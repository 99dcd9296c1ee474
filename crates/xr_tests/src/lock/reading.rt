// A getter that reads while another seat has the lock, by steps on one thread.
ghost use Rattle.std.specs.Prelude.{◌≡◌, true};
ghost use Rattle.xr_types.specs.CallKinds.{is_getter};
ghost use Rattle.xr_rule.specs.Seats.{IsFresh};

use std::alloc::Global;
use std::sync::Wait;
use std::test::Fail;
use xr_lock::Lock;
use xr_model::Machine;
use xr_rule::{XrSeat, XrTable};
use xr_snap::read;
use xr_types::{Call, Code, Reply};

/// A value that stands for every state.
#[derive(Drop)]
struct Anything;

impl Machine for Anything {
    ghost stands = { λ a s. Unit {0} };
}

/// What a getter of the second application is answered while the first has the lock. Neither has made a call yet.
fn read_beside<R: Wait>(
    rt: &R,
    table: &XrTable<Anything>,
    first: &mut XrSeat<Anything>,
    second: &mut XrSeat<Anything>,
    call: &Call<'_>,
) -> Reply
    requires first { IsFresh table.now.table.shared.table_id 2 2 first.old }
    requires second { IsFresh table.now.table.shared.table_id 2 3 second.old }
    requires getter { is_getter call.now ≡ true }
{
    let lock = Lock { table };
    let held = lock.take(rt, first);
    let reply = read(table, second, call);
    lock.give(first, held);
    reply
}

/// The same of a new table; nothing where memory is short.
fn told<R: Wait>(rt: &R, alloc: Global) -> Option<Reply> {
    let Ok((table, mut seats)) = XrTable::start(alloc, Anything, 2) else {
        return None;
    };
    let (first, others) = seats.as_mut_slice().split_first_mut()?;
    let (second, _) = others.split_first_mut()?;
    let getter = Call::GetBoolean {
        session: 0,
        action: 1,
        sub: 0,
    };
    Some(read_beside(rt, &table, first, second, &getter))
}

#[test]
fn a_getter_is_answered_while_another_has_the_lock(rt: HostRuntime) -> Result<(), Fail> {
    let reply = told(&rt, rt.alloc()).ok_or("memory")?;
    assert_eq!(rt; reply.code, Code::HandleInvalid);
    assert_eq!(rt; reply.place, 0);
    Ok(())
}
