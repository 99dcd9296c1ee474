// A core with actions that are synced, and how one of them is read.
use super::asking::{answer, ask, handle, tell};
use super::frames::{Running, set_running, submit, take};
use super::suggests::suggestions_of;
use xr_core::PlainCore;
use xr_types::{
    ActionType, ActiveSet, Call, Code, DeviceEvent, Items, MOST_SUGGESTED, Profile, Shown, User,
    Wish,
};

/// A session that is focused, the set that it has attached, and an action of it.
#[derive(Clone, Copy)]
pub(crate) struct Reading {
    session: u64,
    set: u64,
    action: u64,
}

/// A boolean action of the set by its number, from 0 to 63.
fn action(core: &mut PlainCore, set: u64, number: usize) -> u64 {
    let name = [
        b'a',
        b'0' + (number / 10 % 10) as u8,
        b'0' + (number % 10) as u8,
    ];
    handle(ask(
        core,
        &Call::CreateAction {
            set,
            name: Items::new(&name),
            kind: ActionType::Boolean,
            subs: Items::new(&[]),
            localized: Items::new(&name),
        },
    ))
}

/// Suggests bindings of these actions in turn, so many of them, for a controller that is connected at both hands.
fn suggest(core: &mut PlainCore, instance: u64, actions: &[u64], count: usize) {
    let all = suggestions_of(core, instance, actions);
    let profile = all.profile;
    let list = all.list.get(..count).unwrap_or(&[]);
    let _ = ask(
        core,
        &Call::SuggestBindings {
            instance,
            profile,
            list: Items::new(list),
        },
    );
    for user in [User::Left, User::Right] {
        tell(
            core,
            DeviceEvent::Profile {
                user,
                profile: Some(Profile::Touch),
            },
        );
    }
}

/// Has the session attach the set, and focuses it by a frame.
fn focus(core: &mut PlainCore, running: Running, set: u64) {
    let session = running.session;
    let _ = ask(
        core,
        &Call::AttachSets {
            session,
            sets: Items::new(&[set]),
        },
    );
    tell(core, DeviceEvent::Wish(Wish::Focused));
    let _ = submit(core, session, &[]);
    let _ = take(core, &mut Shown::default());
}

/// Gives the core a session that is focused: with one action and one binding, or with 64 actions and 512.
pub(crate) fn set_reading(core: &mut PlainCore, all: bool) -> Reading {
    let running = set_running(core);
    let set = handle(ask(
        core,
        &Call::CreateActionSet {
            instance: running.instance,
            name: Items::new(b"play"),
            localized: Items::new(b"Play"),
            priority: 0,
        },
    ));
    let mut actions = [0; 64];
    let (count, bindings) = if all { (64, MOST_SUGGESTED) } else { (1, 1) };
    for number in 0..count {
        actions[number] = action(core, set, number);
    }
    suggest(core, running.instance, &actions[..count], bindings);
    focus(core, running, set);
    Reading {
        session: running.session,
        set,
        action: actions[0],
    }
}

/// Reads the action; whether it could be read.
fn read(core: &mut PlainCore, reading: Reading) -> bool {
    let call = Call::GetBoolean {
        session: reading.session,
        action: reading.action,
        sub: 0,
    };
    matches!(
        answer(core, &call).map(|reply| reply.code),
        Some(Code::Success)
    )
}

/// Reads the action so often; how often it could be read.
pub(crate) fn read_often(core: &mut PlainCore, reading: Reading, times: u64) -> u64 {
    let mut done: u64 = 0;
    for _ in 0..times {
        if read(core, reading) {
            done = done.saturating_add(1);
        }
    }
    done
}

/// Syncs the set and reads the action so often; how often it could be read.
pub(crate) fn sync_and_read_often(core: &mut PlainCore, reading: Reading, times: u64) -> u64 {
    let active = [ActiveSet {
        set: reading.set,
        sub: 0,
    }];
    let call = Call::SyncActions {
        session: reading.session,
        active: Items::new(&active),
    };
    let mut done: u64 = 0;
    for _ in 0..times {
        let _ = ask(core, &call);
        if read(core, reading) {
            done = done.saturating_add(1);
        }
    }
    done
}
