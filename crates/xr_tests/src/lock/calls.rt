// The calls that the applications make, and what each was answered.
ghost use Rattle.std.specs.Prelude.{◌≡◌, IsTrue, ℤ, false};
ghost use Rattle.xr_types.specs.declared.calls.Actor.TheVariants.{App};
ghost use Rattle.xr_model.specs.machine.CoreCalls.{MayAsk};
ghost use Rattle.xr_types.specs.CallKinds.{is_leave, with_start};

use xr_types::{Call, Code, Form, Gives, Reply};

/// How many applications there are, each on a thread.
pub(crate) const APPS: u8 = 8;

/// How many calls each tries to make.
pub(crate) const STEPS: usize = 6;

/// A call that was made: its kind, the instance that it named, and its reply.
#[derive(Clone, Copy)]
pub(crate) struct Made {
    pub(crate) kind: u64,
    pub(crate) instance: u64,
    pub(crate) reply: Reply,
}

/// The calls that one application made.
pub(crate) type Steps = [Option<Made>; STEPS];

/// A call of a kind, on an instance.
pub(crate) fn call_of(kind: u64, instance: u64) -> Call<'static> {
    match kind % 8 {
        0 | 1 => Call::CreateInstance { major: 1, minor: 0 },
        2 => Call::DestroyInstance { instance },
        3 => Call::GetSystem {
            instance,
            form: Form::Head,
        },
        4 => Call::PollEvent { instance },
        5 => Call::CreateSession {
            instance,
            system: 1,
        },
        6 => Call::Mark {
            mark: 1,
            value: instance,
        },
        _ => Call::Mark { mark: 2, value: 1 },
    }
}

/// Whether an application may make this call, lent no bytes; it doesn't leave by it.
pub(crate) fn is_own(app: u8, call: &Call<'_>) -> bool
    ensures asks { IsTrue result → MayAsk (App app) call.now 0 }
    ensures stays { IsTrue result → (clock : ℤ) → is_leave (with_start clock call.now) ≡ false }
{
    let _app = app;
    matches!(
        call,
        Call::CreateInstance { .. }
            | Call::DestroyInstance { .. }
            | Call::GetSystem { .. }
            | Call::PollEvent { .. }
            | Call::CreateSession { .. }
            | Call::Mark { mark: 1 | 2, .. }
    )
}

/// What a reply gives as two numbers.
fn numbers(gives: Gives) -> (u64, u64) {
    match gives {
        Gives::Nothing => (0, 0),
        Gives::Handle(handle) => (1, handle),
        Gives::Number(number) => (2, number),
        _ => (3, 0),
    }
}

/// Whether two replies are the same.
pub(crate) fn is_same(one: &Reply, other: &Reply) -> bool {
    one.place == other.place && one.code == other.code && numbers(one.gives) == numbers(other.gives)
}

/// The handle that a call gave, or else this one.
pub(crate) fn handle_or(reply: &Reply, other: u64) -> u64 {
    match reply.gives {
        Gives::Handle(handle) if reply.code == Code::Success => handle,
        _ => other,
    }
}
