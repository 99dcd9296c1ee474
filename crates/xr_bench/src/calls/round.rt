// One round of calls.
use super::asking::{ask, handle};
use xr_core::PlainCore;
use xr_types::{Call, Form, Items};

/// Makes a round: an instance with a session comes and goes, and what is between.
fn round(core: &mut PlainCore) {
    let instance = handle(ask(core, &Call::CreateInstance { major: 1, minor: 0 }));
    let form = Form::Head;
    let text = b"/user/hand/left";
    let _ = ask(core, &Call::GetSystem { instance, form });
    let session = handle(ask(
        core,
        &Call::CreateSession {
            instance,
            system: 1,
        },
    ));
    let path = 1;
    let capacity = 0;
    for call in [
        Call::PollEvent { instance },
        Call::PollEvent { instance },
        Call::StringToPath {
            instance,
            text: Items::new(text),
        },
        Call::StringToPath {
            instance,
            text: Items::new(text),
        },
        Call::PathToString {
            instance,
            path,
            capacity,
        },
        Call::CreateSession {
            instance,
            system: 1,
        },
        Call::DestroySession { session },
        Call::DestroyInstance { instance },
    ] {
        let _ = ask(core, &call);
    }
}

/// Makes so many rounds.
pub(crate) fn round_often(core: &mut PlainCore, rounds: u64) {
    for _ in 0..rounds {
        round(core);
    }
}
