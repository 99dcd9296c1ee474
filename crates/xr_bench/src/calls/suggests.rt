// A core with an action, and how bindings are suggested for it.
use super::asking::{answer, ask, handle};
use xr_core::PlainCore;
use xr_types::{ActionType, Binding, Call, Code, Gives, Items, MOST_SUGGESTED};

/// What is suggested: as many bindings as a profile has.
#[derive(Drop)]
pub(crate) struct Suggestions {
    instance: u64,
    pub(crate) profile: u64,
    pub(crate) list: [Binding; MOST_SUGGESTED],
}

/// The atom of a text, or 0.
pub(crate) fn atom(core: &mut PlainCore, instance: u64, text: &[u8]) -> u64 {
    let text = Items::new(text);
    match ask(core, &Call::StringToPath { instance, text }) {
        Gives::Number(atom) => atom,
        _ => 0,
    }
}

/// Bindings of these actions in turn, to four parts of a controller.
pub(crate) fn suggestions_of(core: &mut PlainCore, instance: u64, actions: &[u64]) -> Suggestions {
    let profile = atom(
        core,
        instance,
        b"/interaction_profiles/oculus/touch_controller",
    );
    let paths = [
        atom(core, instance, b"/user/hand/left/input/x/click"),
        atom(core, instance, b"/user/hand/left/input/trigger"),
        atom(core, instance, b"/user/hand/right/input/thumbstick/touch"),
        atom(core, instance, b"/user/hand/right/input/squeeze/value"),
    ];
    let mut list = [Binding::default(); MOST_SUGGESTED];
    for (place, binding) in list.iter_mut().enumerate() {
        let number = if actions.is_empty() {
            0
        } else {
            place % actions.len()
        };
        *binding = Binding {
            action: *actions.get(number).unwrap_or(&0),
            path: paths[place % 4],
        };
    }
    Suggestions {
        instance,
        profile,
        list,
    }
}

/// Gives the core a boolean action, and paths of a controller of which it has the parts.
pub(crate) fn set_up(core: &mut PlainCore) -> Suggestions {
    let instance = handle(ask(core, &Call::CreateInstance { major: 1, minor: 0 }));
    let set = handle(ask(
        core,
        &Call::CreateActionSet {
            instance,
            name: Items::new(b"play"),
            localized: Items::new(b"Play"),
            priority: 0,
        },
    ));
    let action = handle(ask(
        core,
        &Call::CreateAction {
            set,
            name: Items::new(b"fire"),
            kind: ActionType::Boolean,
            subs: Items::new(&[]),
            localized: Items::new(b"Fire"),
        },
    ));
    suggestions_of(core, instance, &[action])
}

/// Suggests them all so often; how many bindings were taken.
pub(crate) fn suggest_often(core: &mut PlainCore, suggestions: &Suggestions, times: u64) -> u64 {
    let mut taken: u64 = 0;
    for _ in 0..times {
        let call = Call::SuggestBindings {
            instance: suggestions.instance,
            profile: suggestions.profile,
            list: Items::new(&suggestions.list),
        };
        if let Some(Code::Success) = answer(core, &call).map(|reply| reply.code) {
            taken = taken.saturating_add(MOST_SUGGESTED as u64);
        }
    }
    taken
}
