// What one line says: its words and its event.
ghost use Rattle.std.specs.Prelude.{◌≡◌, ◌≤◌, pos, negsuc, true, [], ◌∷◌, Some, MatchOption, IfSome, option_map};
ghost use Rattle.xr_model.specs.device_text.DeviceText.{words_of, number_of, integer_of, grid_by, switch_of, connected_of, profile_by, input_at, input_among, input_by, pose_by, event_by, if_checked, event_of, meaning_of};
ghost use Rattle.xr_types.specs.Printed.{origin_name, all_origins, user_path, all_users};
ghost use Rattle.xr_types.specs.Words.{named};
ghost use Rattle.xr_model.specs.laws.DeviceLaws.{is_of_line};
ghost use Rattle.xr_device.specs.inside.Said.{ranged, whole, meaning, IsSaidTold};
ghost use Rattle.xr_types.specs.declared.device.DeviceEvent.TheVariants as event;

use crate::bytes::place_of;
use crate::numbers::{GREATEST, integer_in, number_in};
use xr_types::{DeviceEvent, MOST_MARK, Origin, Profile, User, Word, behind, named, row_of};

/// What a line says.
#[derive(Clone, Copy)]
pub(crate) enum Said {
    /// Nothing: it is empty or a comment.
    Nothing,
    Event(DeviceEvent),
    /// It is no line of a device text.
    Malformed,
}

/// The latest time, in ns.
const LAST_TIME: i64 = (1 << 62) - 1;

const MOST_PERIOD: i64 = 1_000_000_000;

const LEAST_VALUE: i64 = -32_768;

const MOST_VALUE: i64 = 32_768;

/// The mark that a word is.
fn mark(word: &[u8]) -> Option<u8>
    ensures { result ≡ ranged 1 MOST_MARK (number_of word.now) }
{
    match number_in(word, 1, u64::from(MOST_MARK)) {
        Some(n) => Some(n as u8),
        None => None,
    }
}

/// The event of a line of one word.
fn event_of_one(word: &[u8]) -> Option<DeviceEvent>
    ensures value { result ≡ if_checked (event_by (word.now ∷ [])) }
    ensures line { IfSome result (λ e. is_of_line e ≡ true) }
{
    if word == b"loss".as_slice() {
        return Some(DeviceEvent::Loss);
    }
    if word == b"lost".as_slice() {
        return Some(DeviceEvent::Lost);
    }
    None
}

fn clock(time: &[u8]) -> Option<DeviceEvent>
    ensures value { result ≡ if_checked (option_map (λ n. event.Clock n) (integer_of time.now)) }
    ensures line { IfSome result (λ e. is_of_line e ≡ true) }
{
    match integer_in(time, 0, LAST_TIME) {
        Some(time) => Some(DeviceEvent::Clock(time)),
        None => None,
    }
}

fn grid(base: &[u8], period: &[u8]) -> Option<DeviceEvent>
    ensures value { result ≡ if_checked (grid_by (integer_of base.now) (integer_of period.now)) }
    ensures line { IfSome result (λ e. is_of_line e ≡ true) }
{
    let Some(base) = integer_in(base, 0, LAST_TIME) else {
        return None;
    };
    let Some(period) = integer_in(period, 1, MOST_PERIOD) else {
        return None;
    };
    Some(DeviceEvent::Grid { base, period })
}

/// Whether the device has a stage.
fn switch(word: &[u8]) -> Option<bool>
    ensures { result ≡ switch_of word.now }
{
    if word == b"on".as_slice() {
        return Some(true);
    }
    if word == b"off".as_slice() {
        return Some(false);
    }
    None
}

/// The pose of an origin, where it is one that has samples.
fn checked_pose(origin: Origin, time: i64, pose: u64) -> Option<DeviceEvent>
    requires { pose ≤ GREATEST }
    ensures value { result ≡ if_checked (Some (event.Pose origin time pose)) }
    ensures line { IfSome result (λ e. is_of_line e ≡ true) }
{
    let event = DeviceEvent::Pose { origin, time, pose };
    if event.check() { Some(event) } else { None }
}

/// The pose of an origin that was read.
#[tactic(auto, using(crate::proofs::Poses::poses))]
fn pose_of(origin: Option<Origin>, time: &[u8], pose: &[u8]) -> Option<DeviceEvent>
    ensures value { result ≡ if_checked (pose_by origin (integer_of time.now) (number_of pose.now)) }
    ensures line { IfSome result (λ e. is_of_line e ≡ true) }
{
    let origin = origin?;
    let time = integer_in(time, 0, LAST_TIME)?;
    let pose = number_in(pose, 1, GREATEST)?;
    checked_pose(origin, time, pose)
}

fn pose(origin: &[u8], time: &[u8], pose: &[u8]) -> Option<DeviceEvent>
    ensures value { result ≡ if_checked (pose_by (named origin_name all_origins origin.now) (integer_of time.now) (number_of pose.now)) }
    ensures line { IfSome result (λ e. is_of_line e ≡ true) }
{
    pose_of(named(origin), time, pose)
}

/// The profile that is connected, or none.
fn connected(word: &[u8]) -> Option<Option<Profile>>
    ensures { result ≡ connected_of word.now }
{
    if word == b"none".as_slice() {
        return Some(None);
    }
    match named(word) {
        Some(profile) => Some(Some(profile)),
        None => None,
    }
}

fn profile(user: &[u8], name: &[u8]) -> Option<DeviceEvent>
    ensures value { result ≡ if_checked (profile_by (named user_path all_users user.now) (connected_of name.now)) }
    ensures line { IfSome result (λ e. is_of_line e ≡ true) }
{
    let Some(user) = named(user) else {
        return None;
    };
    let Some(profile) = connected(name) else {
        return None;
    };
    Some(DeviceEvent::Profile { user, profile })
}

/// The input that a word names at a user path, by its row.
fn input_at(word: &[u8], user: User) -> Option<(User, u8)>
    ensures { result ≡ input_at word.now user }
{
    let below = behind(user.word().as_bytes(), word)?;
    let name = behind(b"/input/", below)?;
    let row = row_of(name)?;
    Some((user, row))
}

/// The user path of an input that a word names, and its row.
fn source_of(word: &[u8]) -> Option<(User, u8)>
    ensures { result ≡ input_among word.now all_users }
{
    for user in User::all() {
        if let Some(source) = input_at(word, *user) {
            return Some(source);
        }
    }
    None
}

/// An input's value, where that is in its range and the row is one.
fn checked_input(user: User, row: u8, value: i32) -> Option<DeviceEvent>
    ensures value { result ≡ if_checked (Some (event.Input user row value)) }
    ensures line { IfSome result (λ e. is_of_line e ≡ true) }
{
    let event = DeviceEvent::Input { user, row, value };
    if event.check() { Some(event) } else { None }
}

/// The value that a word is.
fn input_value(word: &[u8]) -> Option<i32>
    ensures { result ≡ whole (negsuc 32767) (pos 32768) (integer_of word.now) }
{
    match integer_in(word, LEAST_VALUE, MOST_VALUE) {
        Some(value) => Some(value as i32),
        None => None,
    }
}

/// The value of an input that was read.
#[tactic(auto, using(crate::proofs::Inputs::inputs))]
fn value_of(source: Option<(User, u8)>, value: &[u8]) -> Option<DeviceEvent>
    ensures value { result ≡ if_checked (input_by source (integer_of value.now)) }
    ensures line { IfSome result (λ e. is_of_line e ≡ true) }
{
    let (user, row) = source?;
    let value = input_value(value)?;
    checked_input(user, row, value)
}

fn input(source: &[u8], value: &[u8]) -> Option<DeviceEvent>
    ensures value { result ≡ if_checked (input_by (input_among source.now all_users) (integer_of value.now)) }
    ensures line { IfSome result (λ e. is_of_line e ≡ true) }
{
    value_of(source_of(source), value)
}

/// The event of a line of two words.
fn event_of_two(word: &[u8], a: &[u8]) -> Option<DeviceEvent>
    ensures value { result ≡ if_checked (event_by (word.now ∷ a.now ∷ [])) }
    ensures line { IfSome result (λ e. is_of_line e ≡ true) }
{
    if word == b"clock".as_slice() {
        return clock(a);
    }
    if word == b"wish".as_slice() {
        return match named(a) {
            Some(wish) => Some(DeviceEvent::Wish(wish)),
            None => None,
        };
    }
    if word == b"stage".as_slice() {
        return match switch(a) {
            Some(on) => Some(DeviceEvent::Stage(on)),
            None => None,
        };
    }
    if word == b"mark".as_slice() {
        return match mark(a) {
            Some(mark) => Some(DeviceEvent::Mark(mark)),
            None => None,
        };
    }
    if word == b"await".as_slice() {
        return match mark(a) {
            Some(mark) => Some(DeviceEvent::Await(mark)),
            None => None,
        };
    }
    None
}

/// The event of a line of three words.
fn event_of_three(word: &[u8], a: &[u8], b: &[u8]) -> Option<DeviceEvent>
    ensures value { result ≡ if_checked (event_by (word.now ∷ a.now ∷ b.now ∷ [])) }
    ensures line { IfSome result (λ e. is_of_line e ≡ true) }
{
    if word == b"grid".as_slice() {
        return grid(a, b);
    }
    if word == b"profile".as_slice() {
        return profile(a, b);
    }
    if word == b"input".as_slice() {
        return input(a, b);
    }
    None
}

/// The event of a line of four words.
fn event_of_four(word: &[u8], a: &[u8], b: &[u8], c: &[u8]) -> Option<DeviceEvent>
    ensures value { result ≡ if_checked (event_by (word.now ∷ a.now ∷ b.now ∷ c.now ∷ [])) }
    ensures line { IfSome result (λ e. is_of_line e ≡ true) }
{
    if word == b"pose".as_slice() {
        return pose(a, b, c);
    }
    None
}

/// A line's first word and the rest behind the space, where there is one.
fn cut(line: &[u8]) -> Option<(&[u8], &[u8])>
    ensures { MatchOption result (words_of line.now ≡ line.now ∷ []) (λ parts. words_of line.now ≡ parts.0.now ∷ words_of parts.1.now) }
{
    match place_of(b' ', line) {
        Some(place) => Some((&line[..place], &line[place + 1..])),
        None => None,
    }
}

/// The event of a line.
fn event_of(line: &[u8]) -> Option<DeviceEvent>
    ensures value { result ≡ event_of line.now }
    ensures line { IfSome result (λ e. is_of_line e ≡ true) }
{
    let Some((word, rest)) = cut(line) else {
        return event_of_one(line);
    };
    let Some((a, rest)) = cut(rest) else {
        return event_of_two(word, rest);
    };
    let Some((b, rest)) = cut(rest) else {
        return event_of_three(word, a, rest);
    };
    match cut(rest) {
        None => event_of_four(word, a, b, rest),
        Some(_) => None,
    }
}

/// What a line says, without its line feed.
pub(crate) fn said_by(line: &[u8]) -> Said
    ensures meaning { meaning result ≡ meaning_of line.now }
    ensures sound { IsSaidTold result }
{
    if line.is_empty() || line[0] == b'#' {
        return Said::Nothing;
    }
    match event_of(line) {
        Some(event) => Said::Event(event),
        None => Said::Malformed,
    }
}
