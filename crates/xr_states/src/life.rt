// A session's life, and what changes it.
ghost use Rattle.std.specs.Prelude.{◌≡◌, [], is_none};
ghost use Rattle.xr_model.specs.machine.PartAnswers.{code_by};
ghost use Rattle.xr_model.specs.machine.SessionLife as model;
ghost use Rattle.xr_model.specs.machine.SessionLife.{started_session, begin_refusals, begun_session, end_refusals, ended_session, exit_refusals, exiting_session, settled_session, losing_session, next_state};
ghost use Rattle.xr_model.specs.machine.Refusals.{first_of, unless};

use crate::Changes;
use crate::table::{enter, next_state, settle};
use std::marker::Model;
use xr_types::{Code, SessionState, ViewConfig, Wish};

/// A session, seen by contracts as its life: its state, whether it was begun and not ended, whether the
/// application has asked for its end, and whether the device is lost. What changes a session tells each
/// state that it goes through, and leaves it where no row of the table of states fits.
#[derive(Default, Drop)]
pub struct Life {
    state: SessionState,
    running: bool,
    exit: bool,
    lost: bool,
}

impl Model for Life {
    ghost use Rattle.xr_model.specs.machine.SessionLife.{Life};

    ghost Value = { Life };

    ghost view = { λ s. record {
      state = s.state;
      running = s.running;
      exit = s.exit;
      lost = s.lost;
    } };
}

impl Life {
    /// A new session: it is idle, which is told, and settles by the device's wish. OpenXR 1.0 chapter 9,
    /// "Session Lifecycle".
    pub fn start(wish: Wish, out: &mut Changes) -> Life
        requires { out.old ≡ [] }
        ensures session { result ≡ (started_session wish).life }
        ensures through { out.new ≡ (started_session wish).through }
    {
        let mut session = Life {
            state: SessionState::Idle,
            running: false,
            exit: false,
            lost: false,
        };
        enter(&mut session.state, SessionState::Idle, wish, false, out);
        session
    }

    /// Begins a session, which stays ready until its first frame. Refused are, in this order, a session whose
    /// device is lost (`SessionLost`), one that is running (`SessionRunning`), one that isn't ready
    /// (`SessionNotReady`), and any views but two (`ViewConfigurationTypeUnsupported`); each leaves all as it
    /// was. OpenXR 1.0 chapter 9, xrBeginSession.
    pub fn begin(&mut self, view: ViewConfig) -> Code
        ensures state { self.new ≡ unless (first_of (begin_refusals self.old view)) self.old (begun_session self.old) }
        ensures code { result ≡ code_by (first_of (begin_refusals self.old view)) }
    {
        if self.lost {
            Code::SessionLost
        } else if self.running {
            Code::SessionRunning
        } else if !matches!(self.state, SessionState::Ready) {
            Code::SessionNotReady
        } else if matches!(view, ViewConfig::Mono) {
            Code::ViewConfigurationTypeUnsupported
        } else {
            self.running = true;
            Code::Success
        }
    }

    /// Ends a session, which is idle again and settles. Refused are, in this order, a session whose device is
    /// lost (`SessionLost`), one that isn't running (`SessionNotRunning`), and one that isn't stopping
    /// (`SessionNotStopping`); each leaves all as it was and tells nothing. OpenXR 1.0 chapter 9, xrEndSession.
    pub fn end(&mut self, wish: Wish, out: &mut Changes) -> Code
        requires { out.old ≡ [] }
        ensures state { self.new ≡ unless (first_of (end_refusals self.old)) self.old (ended_session wish self.old).life }
        ensures through { out.new ≡ unless (first_of (end_refusals self.old)) [] (ended_session wish self.old).through }
        ensures code { result ≡ code_by (first_of (end_refusals self.old)) }
    {
        if self.lost {
            return Code::SessionLost;
        }
        if !self.running {
            return Code::SessionNotRunning;
        }
        if !matches!(self.state, SessionState::Stopping) {
            return Code::SessionNotStopping;
        }
        self.running = false;
        enter(&mut self.state, SessionState::Idle, wish, self.exit, out);
        Code::Success
    }

    /// Asks for a session's end, towards which it settles, whatever the wish. Refused are, in this order, a
    /// session whose device is lost (`SessionLost`), and one that isn't running (`SessionNotRunning`); each leaves
    /// all as it was and tells nothing. OpenXR 1.0 chapter 9, xrRequestExitSession.
    pub fn request_exit(&mut self, wish: Wish, out: &mut Changes) -> Code
        requires { out.old ≡ [] }
        ensures state { self.new ≡ unless (first_of (exit_refusals self.old)) self.old (exiting_session wish self.old).life }
        ensures through { out.new ≡ unless (first_of (exit_refusals self.old)) [] (exiting_session wish self.old).through }
        ensures code { result ≡ code_by (first_of (exit_refusals self.old)) }
    {
        if self.lost {
            return Code::SessionLost;
        }
        if !self.running {
            return Code::SessionNotRunning;
        }
        self.exit = true;
        self.wish(wish, out);
        Code::Success
    }

    /// Settles by this wish of the device. A session whose device is lost follows it too.
    pub fn wish(&mut self, wish: Wish, out: &mut Changes)
        requires { out.old ≡ [] }
        ensures session { self.new ≡ (settled_session wish self.old).life }
        ensures through { out.new ≡ (settled_session wish self.old).through }
    {
        settle(&mut self.state, wish, self.exit, out);
    }

    /// Whether it has settled by this wish of the device: no row of the table of states fits.
    pub fn has_settled(&self, wish: Wish) -> bool
        ensures { result ≡ is_none (next_state wish self.now.exit self.now.state) }
    {
        next_state(self.state, wish, self.exit).is_none()
    }

    /// A frame of the session was ended. A ready session enters `Synchronized` by its first, and settles; any
    /// other stays as it was.
    pub fn synced(&mut self, wish: Wish, out: &mut Changes)
        requires { out.old ≡ [] }
        ensures session { self.new ≡ (model.synced_session wish self.old).life }
        ensures through { out.new ≡ (model.synced_session wish self.old).through }
    {
        if matches!(self.state, SessionState::Ready) {
            enter(
                &mut self.state,
                SessionState::Synchronized,
                wish,
                self.exit,
                out,
            );
        }
    }

    /// The session will be lost: it is `LossPending` from any state but that and `Exiting`, in which it stays.
    pub fn loss(&mut self, out: &mut Changes)
        requires { out.old ≡ [] }
        ensures session { self.new ≡ (losing_session self.old).life }
        ensures through { out.new ≡ (losing_session self.old).through }
    {
        if matches!(
            self.state,
            SessionState::Exiting | SessionState::LossPending
        ) {
            return;
        }
        self.state = SessionState::LossPending;
        out.push(SessionState::LossPending);
    }

    /// The session's device is lost, which changes no state and tells nothing.
    pub fn lose(&mut self)
        ensures { self.new ≡ model.lost_session self.old }
    {
        self.lost = true;
    }

    /// The session's state.
    pub fn state(&self) -> SessionState
        ensures { result ≡ self.now.state }
    {
        self.state
    }

    /// Whether the session was begun and not ended.
    pub fn running(&self) -> bool
        ensures { result ≡ self.now.running }
    {
        self.running
    }

    /// Whether the application has asked for the session's end.
    pub fn exit(&self) -> bool
        ensures { result ≡ self.now.exit }
    {
        self.exit
    }

    /// Whether the session's device is lost.
    pub fn lost(&self) -> bool
        ensures { result ≡ self.now.lost }
    {
        self.lost
    }
}
