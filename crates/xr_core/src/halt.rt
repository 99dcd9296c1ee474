// How the parts decide a call: the reply to it, which has place 0 until it is counted, or why it isn't made.
ghost use Rattle.std.specs.Prelude.{◌≡◌, Ok, Err};

use xr_types::{Code, Gives, Reply};

/// A call ends early: it is refused, or it has to wait and isn't made. Either leaves all as it was.
#[derive(Clone, Copy)]
pub(crate) enum Halt {
    Refused(Code),
    NotReady,
}

impl From<Code> for Halt {
    ghost use Rattle.std.specs.Prelude.{◌≡◌};
    ghost use Rattle.xr_core.specs.declared.halt.Halt.TheVariants.{Refused};

    ghost from_gives = { λ code halt. halt ≡ Refused code };

    fn from(code: Code) -> Halt {
        Halt::Refused(code)
    }
}

/// A success that gives nothing.
pub(crate) fn done(code: Code) -> Result<Reply, Halt>
    ensures { result ≡ Ok (record { code = code; gives = Gives.Nothing; place = 0 }) }
{
    Ok(Reply {
        code,
        gives: Gives::Nothing,
        place: 0,
    })
}

/// A success that gives a value.
pub(crate) fn giving(code: Code, gives: Gives) -> Result<Reply, Halt>
    ensures { result ≡ Ok (record { code = code; gives = gives; place = 0 }) }
{
    Ok(Reply {
        code,
        gives,
        place: 0,
    })
}

/// A refusal.
pub(crate) fn refused(code: Code) -> Result<Reply, Halt>
    ensures { result ≡ Err (Halt.Refused code) }
{
    Err(Halt::Refused(code))
}

/// The reply to a call that is refused.
pub(crate) fn refusal(code: Code) -> Reply
    ensures { result ≡ record { code = code; gives = Gives.Nothing; place = 0 } }
{
    Reply {
        code,
        gives: Gives::Nothing,
        place: 0,
    }
}
