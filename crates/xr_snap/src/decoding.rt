// What the words of a publication tell of an action and of a column, and which column a user path has.
ghost use Rattle.std.specs.Prelude.{◌≡◌, ◌==◌, ◌/◌, ◌%◌, ◌^◌, ◌<◌, Some, if◌then◌else◌};
ghost use Rattle.xr_model.specs.machine.Publication.{column_from, is_same_type, shown_by};
ghost use Rattle.xr_model.specs.machine.PublicationWords.{bits_in, column_in, low_bit, type_in};
ghost use Rattle.xr_snap.specs.Reading.{shown_cells};

use xr_types::{ActionType, BoolState, FloatState, Gives, USERS, VectorState};

/// What stands beside an action's handle: its type, and which user paths it declares.
#[derive(Drop)]
pub(crate) struct Asked {
    pub(crate) kind: ActionType,
    pub(crate) declared: [bool; USERS],
}

/// The lowest bit of a word.
pub(crate) fn low_bit(word: u64) -> bool
    ensures { result ≡ low_bit word }
{
    word % 2 == 1
}

/// The bit of a word at a place, counted from the lowest.
pub(crate) fn bit_at(word: u64, place: usize) -> bool
    requires { place < 64 }
    ensures { result ≡ low_bit (word / 2 ^ place) }
{
    low_bit(word >> place)
}

/// The type of this number.
fn type_in(number: u64) -> ActionType
    ensures { result ≡ type_in number }
{
    match number {
        0 => ActionType::Boolean,
        1 => ActionType::Float,
        2 => ActionType::Vector,
        3 => ActionType::Pose,
        _ => ActionType::Vibration,
    }
}

/// The lowest bits of a word, the lowest first.
fn bits_in(word: u64) -> [bool; USERS]
    ensures { result ≡ bits_in 5 word }
{
    let second = word / 2;
    let third = second / 2;
    let fourth = third / 2;
    let fifth = fourth / 2;
    [
        low_bit(word),
        low_bit(second),
        low_bit(third),
        low_bit(fourth),
        low_bit(fifth),
    ]
}

/// What the word behind an action's handle tells.
pub(crate) fn asked_in(word: u64) -> Asked
    ensures { result ≡ record { kind = type_in (word % 8); declared = bits_in 5 (word / 8) } }
{
    Asked {
        kind: type_in(word % 8),
        declared: bits_in(word / 8),
    }
}

/// Whether two types of actions are the same one.
pub(crate) fn is_same_type(a: ActionType, b: ActionType) -> bool
    ensures { result ≡ is_same_type a b }
{
    matches!(
        (a, b),
        (ActionType::Boolean, ActionType::Boolean)
            | (ActionType::Float, ActionType::Float)
            | (ActionType::Vector, ActionType::Vector)
            | (ActionType::Pose, ActionType::Pose)
            | (ActionType::Vibration, ActionType::Vibration)
    )
}

/// The column of a user path by its atom, where the action declares it; column 0 is that of all, by 0.
pub(crate) fn column_by(users: &[u64; USERS], declared: &[bool; USERS], sub: u64) -> Option<usize>
    ensures { result ≡ (if sub == 0 then Some 0 else column_from 1 users.now declared.now sub) }
{
    if sub == 0 {
        return Some(0);
    }
    for place in 0..USERS {
        if declared[place] && users[place] == sub {
            return Some(place + 1);
        }
    }
    None
}

/// What the two words of a column tell.
#[derive(Drop)]
pub(crate) struct Cells {
    x: i32,
    y: i32,
    changed: bool,
    time: i64,
    active: bool,
}

/// A column of these two words.
pub(crate) fn column_in(values: u64, when: u64) -> Cells
    ensures { shown_cells result ≡ column_in values when }
{
    Cells {
        x: ((values % (1 << 32)) as u32).cast_signed(),
        y: ((values / (1 << 32)) as u32).cast_signed(),
        changed: low_bit(when),
        time: (when / 2 / 2) as i64,
        active: low_bit(when / 2),
    }
}

/// What a column shows to a getter of this type.
pub(crate) fn shown(wanted: ActionType, it: &Cells) -> Gives
    ensures { result ≡ shown_by wanted (shown_cells it.now) }
{
    let Cells {
        x,
        y,
        changed,
        time,
        active,
    } = *it;
    match wanted {
        ActionType::Boolean => Gives::Boolean(BoolState {
            value: x != 0,
            changed,
            time,
            active,
        }),
        ActionType::Float => Gives::Float(FloatState {
            value: x,
            changed,
            time,
            active,
        }),
        ActionType::Vector => Gives::Vector(VectorState {
            x,
            y,
            changed,
            time,
            active,
        }),
        ActionType::Pose => Gives::Active(active),
        ActionType::Vibration => Gives::Nothing,
    }
}
