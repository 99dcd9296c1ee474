// What is called round each call of a worker.
use xr_core::Core;
use xr_rule::XrSeat;
use xr_types::Actor;

/// Is called round each call of a worker, which may be held there. It is lent the actor's seat, which knows the calls that the actor has
/// made so far: that both calls lie round the actor's shows in them.
pub trait Gate {
    ghost use Rattle.std.specs.Prelude.{ℕ, length};
    ghost use Rattle.xr_types.specs.declared.calls.Actor.{Actor};
    ghost use Rattle.xr_rule.specs.View.{calls_in};

    /// The actor came to this call of its own, from 1, and had made so many.
    ghost came: { Self → Actor → ℕ → ℕ → Type 0 };

    /// The actor went on from this call, and had made so many.
    ghost went: { Self → Actor → ℕ → ℕ → Type 0 };

    /// Before the call of this number, from 1, of the actor: of an application or the device among its calls, of the compositor
    /// among its turns.
    fn before(&self, actor: Actor, call: u64, seat: &XrSeat<Core>)
        ensures { came self.now actor call (length (calls_in seat.now.me.0.know.own)) };

    /// Behind that call, or that turn.
    fn after(&self, actor: Actor, call: u64, seat: &XrSeat<Core>)
        requires { (made : ℕ) × came self.now actor call made }
        ensures { went self.now actor call (length (calls_in seat.now.me.0.know.own)) };
}

/// A gate that holds nobody.
#[derive(Clone, Copy)]
pub struct OpenGate;

impl Gate for OpenGate {
    ghost came = { λ gate actor call made. Unit {0} };

    ghost went = { λ gate actor call made. Unit {0} };

    fn before(&self, _actor: Actor, _call: u64, _seat: &XrSeat<Core>) {}

    fn after(&self, _actor: Actor, _call: u64, _seat: &XrSeat<Core>) {}
}
