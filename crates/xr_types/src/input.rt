// Input: actions, their states, and what they are bound to (OpenXR 1.0 chapter 11, "Input and Haptics").
ghost use Rattle.std.specs.Prelude.{◌≡◌, Some, refl};
ghost use Rattle.xr_types.specs.Printed.{action_type_name, all_action_types, user_path, all_users, profile_name, all_profiles};

use crate::{Origin, USERS, Word};
use std::fmt;

/// What an action gives (OpenXR 1.0 chapter 11, XrActionType).
#[derive(Clone, Copy)]
pub enum ActionType {
    Boolean,
    Float,
    Vector,
    Pose,
    Vibration,
}

impl Word for ActionType {
    ghost printed = { action_type_name };

    ghost listed = { all_action_types };

    ghost own = { refl };

    fn word(self) -> &'static str {
        match self {
            ActionType::Boolean => "boolean",
            ActionType::Float => "float",
            ActionType::Vector => "vector",
            ActionType::Pose => "pose",
            ActionType::Vibration => "vibration",
        }
    }

    fn all() -> &'static [ActionType] {
        &[
            ActionType::Boolean,
            ActionType::Float,
            ActionType::Vector,
            ActionType::Pose,
            ActionType::Vibration,
        ]
    }
}

/// A top-level user path (section 6.3.1).
#[derive(Clone, Copy, Default)]
pub enum User {
    #[default]
    Left,
    Right,
    Head,
    Gamepad,
    Treadmill,
}

impl Word for User {
    ghost printed = { user_path };

    ghost listed = { all_users };

    ghost own = { refl };

    fn word(self) -> &'static str {
        match self {
            User::Left => "/user/hand/left",
            User::Right => "/user/hand/right",
            User::Head => "/user/head",
            User::Gamepad => "/user/gamepad",
            User::Treadmill => "/user/treadmill",
        }
    }

    fn all() -> &'static [User] {
        &[
            User::Left,
            User::Right,
            User::Head,
            User::Gamepad,
            User::Treadmill,
        ]
    }
}

impl fmt::Display for User {
    ghost output = { λ user. Some (user_path user) };

    fn fmt<W: fmt::Write>(&self, f: &mut fmt::Formatter<W>) -> fmt::Result {
        f.write_str(self.word())
    }
}

/// An interaction profile (section 6.4): the simple controller of Khronos, and the controllers of
/// Oculus Touch, HTC Vive and Microsoft Xbox.
#[derive(Clone, Copy)]
pub enum Profile {
    Simple,
    Touch,
    Vive,
    Xbox,
}

impl Word for Profile {
    ghost printed = { profile_name };

    ghost listed = { all_profiles };

    ghost own = { refl };

    fn word(self) -> &'static str {
        match self {
            Profile::Simple => "khr/simple_controller",
            Profile::Touch => "oculus/touch_controller",
            Profile::Vive => "htc/vive_controller",
            Profile::Xbox => "microsoft/xbox_controller",
        }
    }

    fn all() -> &'static [Profile] {
        &[
            Profile::Simple,
            Profile::Touch,
            Profile::Vive,
            Profile::Xbox,
        ]
    }
}

impl fmt::Display for Profile {
    ghost output = { λ profile. Some (profile_name profile) };

    fn fmt<W: fmt::Write>(&self, f: &mut fmt::Formatter<W>) -> fmt::Result {
        f.write_str(self.word())
    }
}

/// The state of a boolean action (chapter 11, XrActionStateBoolean). `time` is that of the last change, in
/// ns of device time.
#[derive(Clone, Copy)]
pub struct BoolState {
    pub value: bool,
    pub changed: bool,
    pub time: i64,
    pub active: bool,
}

/// The state of a float action (chapter 11, XrActionStateFloat), with a whole number from -32768 to 32768
/// for -1 to 1.
#[derive(Clone, Copy)]
pub struct FloatState {
    pub value: i32,
    pub changed: bool,
    pub time: i64,
    pub active: bool,
}

/// The state of a vector action (chapter 11, XrActionStateVector2f), its components as those of a float.
#[derive(Clone, Copy)]
pub struct VectorState {
    pub x: i32,
    pub y: i32,
    pub changed: bool,
    pub time: i64,
    pub active: bool,
}

/// A suggestion of a call (chapter 11, XrActionSuggestedBinding): an action and the atom of a path.
#[derive(Clone, Copy, Default)]
pub struct Binding {
    pub action: u64,
    pub path: u64,
}

/// An action set that a sync lists (chapter 11, XrActiveActionSet): the set, and the atom of a user
/// path or 0 for all.
#[derive(Clone, Copy, Default)]
pub struct ActiveSet {
    pub set: u64,
    pub sub: u64,
}

/// Which rows of a controller's inputs a suggestion picks: a digital input, an analogue one, the two
/// axes of a vector, a pose, or an output. Rows count from 1.
#[derive(Clone, Copy, Default)]
pub enum Part {
    Digital(u8),
    Analogue(u8),
    Both(u8, u8),
    Pose(u8),
    #[default]
    Output,
}

/// What a suggested path picks: its user path, the place of its identifier among all identifiers and
/// outputs, and the part of the controller.
#[derive(Clone, Copy, Default)]
pub struct Pick {
    pub user: User,
    pub identifier: u8,
    pub part: Part,
}

/// A suggestion that was accepted: an action, and what its path picks.
#[derive(Clone, Copy, Default)]
pub struct Bound {
    pub action: u64,
    pub pick: Pick,
}

/// How many inputs there are: rows 1 to 40.
pub const ROWS: usize = 40;

/// What the inputs of a device show: for each user path, at its `user_place`, and for each row, one before its number, the value,
/// and whether an analogue input counts as pressed.
#[derive(Clone, Copy)]
pub struct Inputs {
    pub values: [[i32; ROWS]; USERS],
    pub pressed: [[bool; ROWS]; USERS],
}

/// An action set that a sync hears (chapter 11, XrActiveActionSet), for all user paths or for one.
#[derive(Clone, Copy, Default)]
pub struct Heard {
    pub set: u64,
    pub user: Option<User>,
}

/// A suggestion for a controller that is connected, with what is known of its action: its place among the 64, its set, the
/// priority of that, its type, and for each user path, at its `user_place`, whether the action declares it.
#[derive(Clone, Copy)]
pub struct Ranked {
    pub bound: Bound,
    pub place: u8,
    pub set: u64,
    pub priority: u32,
    pub kind: ActionType,
    pub declared: [bool; USERS],
}

/// What the live bindings of a column find: a value in `x`, and in `y` for a vector, whether there is one at all, and the origin
/// of a pose.
#[derive(Clone, Copy)]
pub struct Found {
    pub x: i32,
    pub y: i32,
    pub active: bool,
    pub origin: Option<Origin>,
}

/// What a sync found for an action at a user path: its value in `x`, and in `y` for a vector; when it
/// changed, in ns of device time; and the origin of a pose.
#[derive(Clone, Copy)]
pub struct Column {
    pub x: i32,
    pub y: i32,
    pub changed: bool,
    pub time: i64,
    pub active: bool,
    pub origin: Option<Origin>,
}

/// The states of a sync: a row for each of 64 places of actions. Its column 0 is that of all user paths,
/// the others are those of the five user paths in their order.
#[derive(Clone, Copy)]
pub struct States {
    pub columns: [[Column; 6]; 64],
}
