// What an input gives a binding, by the part of the controller that it picks.
ghost use Rattle.std.specs.Prelude.{◌≡◌};
ghost use Rattle.xr_model.specs.machine.Inputs.{value_at, is_pressed_at};
ghost use Rattle.xr_model.specs.machine.Sync.{is_down, amount, axes, pose_of};
ghost use Rattle.xr_sync.specs.Given.{given_by};

use xr_types::{ActionType, Inputs, Origin, Part, Ranked, User, user_place};

/// What a binding gives to the columns of its action, by the action's type.
#[derive(Clone, Copy)]
pub(crate) enum Given {
    Boolean(bool),
    Float(i32),
    Vector(i32, i32),
    Pose(Option<Origin>),
    Vibration,
}

/// The float of a click or a touch that is down.
const WHOLE: i32 = 32768;

/// The row of grips.
const GRIP: u8 = 41;

/// The value of an input. Rows count from 1, and one that isn't there has 0.
fn value_at(inputs: &Inputs, user: User, row: u8) -> i32
    ensures { result ≡ value_at inputs.now user row }
{
    let values = &inputs.values[user_place(user)];
    match values.get(usize::from(row).saturating_sub(1)) {
        Some(value) => *value,
        None => 0,
    }
}

/// Whether an analogue input counts as pressed.
fn is_pressed_at(inputs: &Inputs, user: User, row: u8) -> bool
    ensures { result ≡ is_pressed_at inputs.now user row }
{
    let pressed = &inputs.pressed[user_place(user)];
    match pressed.get(usize::from(row).saturating_sub(1)) {
        Some(pressed) => *pressed,
        None => false,
    }
}

/// What a boolean takes of an input.
fn is_down(inputs: &Inputs, user: User, part: Part) -> bool
    ensures { result ≡ is_down inputs.now user part }
{
    match part {
        Part::Digital(row) => value_at(inputs, user, row) != 0,
        Part::Analogue(row) => is_pressed_at(inputs, user, row),
        _ => false,
    }
}

/// What a float takes of an input.
fn amount(inputs: &Inputs, user: User, part: Part) -> i32
    ensures { result ≡ amount inputs.now user part }
{
    match part {
        Part::Digital(row) => if value_at(inputs, user, row) == 0 {
            0
        } else {
            WHOLE
        },
        Part::Analogue(row) => value_at(inputs, user, row),
        _ => 0,
    }
}

/// What a vector takes of an input.
fn axes(inputs: &Inputs, user: User, part: Part) -> (i32, i32)
    ensures { result ≡ axes inputs.now user part }
{
    match part {
        Part::Both(x, y) => (value_at(inputs, user, x), value_at(inputs, user, y)),
        _ => (0, 0),
    }
}

/// The origin of a pose.
fn pose_of(user: User, part: Part) -> Option<Origin>
    ensures { result ≡ pose_of user part }
{
    match part {
        Part::Pose(GRIP) => Some(Origin::Grip(user)),
        Part::Pose(_) => Some(Origin::Aim(user)),
        _ => None,
    }
}

/// What a binding gives.
pub(crate) fn given_by(inputs: &Inputs, b: &Ranked) -> Given
    ensures { result ≡ given_by b.now.kind inputs.now b.now.bound.pick }
{
    let user = b.bound.pick.user;
    let part = b.bound.pick.part;
    match b.kind {
        ActionType::Boolean => Given::Boolean(is_down(inputs, user, part)),
        ActionType::Float => Given::Float(amount(inputs, user, part)),
        ActionType::Vector => {
            let (x, y) = axes(inputs, user, part);
            Given::Vector(x, y)
        }
        ActionType::Pose => Given::Pose(pose_of(user, part)),
        ActionType::Vibration => Given::Vibration,
    }
}
