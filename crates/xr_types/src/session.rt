// Sessions: their states, events and frames' times (OpenXR 1.0 chapter 9, "Session").
ghost use Rattle.std.specs.Prelude.{◌≡◌, Some, refl};
ghost use Rattle.xr_types.specs.Printed.{state_name, form_name, all_forms, view_name, all_views};

use crate::Word;
use std::fmt;

/// The state of a session (OpenXR 1.0 chapter 9, XrSessionState).
#[derive(Clone, Copy, Default, PartialEq, Eq)]
pub enum SessionState {
    #[default]
    Idle,
    Ready,
    Synchronized,
    Visible,
    Focused,
    Stopping,
    LossPending,
    Exiting,
}

impl SessionState {
    /// The state's name without the prefix of XrSessionState, as a report prints it.
    pub fn name(self) -> &'static str
        ensures { result.now ≡ state_name self }
    {
        match self {
            SessionState::Idle => "IDLE",
            SessionState::Ready => "READY",
            SessionState::Synchronized => "SYNCHRONIZED",
            SessionState::Visible => "VISIBLE",
            SessionState::Focused => "FOCUSED",
            SessionState::Stopping => "STOPPING",
            SessionState::LossPending => "LOSS_PENDING",
            SessionState::Exiting => "EXITING",
        }
    }
}

impl fmt::Display for SessionState {
    ghost output = { λ state. Some (state_name state) };

    fn fmt<W: fmt::Write>(&self, f: &mut fmt::Formatter<W>) -> fmt::Result {
        f.write_str(self.name())
    }
}

/// An event of an instance (chapter 2, xrPollEvent).
#[derive(Clone, Copy)]
pub enum Event {
    /// So many events were dropped since the queue was full (XrEventDataEventsLost).
    Lost(u64),
    /// A session is in this state from here on (XrEventDataSessionStateChanged). Its ordinal counts the
    /// sessions that were created in the run, itself included.
    State {
        ordinal: u64,
        session: u64,
        state: SessionState,
    },
}

/// What `wait_frame` gives (chapter 10, XrFrameState): the predicted display time and the period of
/// frames, both in ns of device time, and whether the frame is worth rendering.
#[derive(Clone, Copy)]
pub struct FrameState {
    pub time: i64,
    pub period: i64,
    pub render: bool,
}

/// The kind of device that a system stands for (chapter 5, XrFormFactor).
#[derive(Clone, Copy)]
pub enum Form {
    Head,
    Hand,
}

impl Word for Form {
    ghost printed = { form_name };

    ghost listed = { all_forms };

    ghost own = { refl };

    fn word(self) -> &'static str {
        match self {
            Form::Head => "head",
            Form::Hand => "hand",
        }
    }

    fn all() -> &'static [Form] {
        &[Form::Head, Form::Hand]
    }
}

/// How many views a session is begun with (chapter 8, XrViewConfigurationType).
#[derive(Clone, Copy)]
pub enum ViewConfig {
    Mono,
    Stereo,
}

impl Word for ViewConfig {
    ghost printed = { view_name };

    ghost listed = { all_views };

    ghost own = { refl };

    fn word(self) -> &'static str {
        match self {
            ViewConfig::Mono => "mono",
            ViewConfig::Stereo => "stereo",
        }
    }

    fn all() -> &'static [ViewConfig] {
        &[ViewConfig::Mono, ViewConfig::Stereo]
    }
}
