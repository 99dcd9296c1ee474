// Handles: their kinds, how many of each kind are live at most, and the places in which they stand
// (OpenXR 1.0 chapter 2, "Handles"). The limits are this project's own.

/// What a handle names. An instance is the parent of sessions and action sets, a session of spaces and
/// swapchains, an action set of actions.
#[derive(Clone, Copy, PartialEq, Eq)]
pub enum Kind {
    Instance,
    Session,
    ActionSet,
    Action,
    Space,
    Swapchain,
}

/// How many instances are live at most.
pub const INSTANCES: usize = 1;

/// How many sessions are live at most.
pub const SESSIONS: usize = 4;

/// How many action sets are live at most.
pub const ACTION_SETS: usize = 16;

/// How many actions are live at most.
pub const ACTIONS: usize = 64;

/// How many spaces are live at most.
pub const SPACES: usize = 64;

/// How many swapchains are live at most.
pub const SWAPCHAINS: usize = 16;

/// How many handles a list of all that go by one call has room for.
pub const MOST_HANDLES: usize = 165;

/// A place for a handle of one kind: the handle that stands there, with its parent's, 0 for an instance. A
/// free place has the handle 0.
#[derive(Clone, Copy)]
pub struct Slot {
    pub handle: u64,
    pub parent: u64,
}
