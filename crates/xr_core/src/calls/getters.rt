// The getters of input (OpenXR 1.0 chapter 11, xrGetActionStateBoolean, xrGetActionStateFloat, xrGetActionStateVector2f and
// xrGetActionStatePose). They change nothing.
ghost use Rattle.std.specs.Prelude.{◌≡◌, true, option_map};
ghost use Rattle.std.specs.Option.{option_copied};
ghost use Rattle.xr_types.specs.declared.handles.Kind.TheVariants as kind;
ghost use Rattle.xr_model.specs.machine.Handles.{is_live};
ghost use Rattle.xr_model.specs.machine.Publication.{is_same_type, shown_by, shown_of};
ghost use Rattle.xr_core.specs.inside.Deciding.{Decides};
ghost use Rattle.xr_core.specs.inside.Getters.{look, named_look, shown_at, getter_reads, DecidesGetter};
ghost use Rattle.xr_core.specs.inside.Groups.{IsGetter};

use crate::halt::{Halt, giving};
use crate::parts::Parts;
use crate::sessions::{Session, session_at};
use crate::users::column_by;
use xr_types::{
    ActionType, BoolState, Call, Code, Column, FloatState, Gives, Kind, Reply, VectorState,
};

/// Whether two types of actions are the same one.
fn is_same_type(a: ActionType, b: ActionType) -> bool
    ensures { result ≡ is_same_type a b }
{
    matches!(
        (a, b),
        (ActionType::Boolean, ActionType::Boolean)
            | (ActionType::Float, ActionType::Float)
            | (ActionType::Vector, ActionType::Vector)
            | (ActionType::Pose, ActionType::Pose)
            | (ActionType::Vibration, ActionType::Vibration)
    )
}

/// What a column shows to a getter of this type.
fn shown_by(wanted: ActionType, it: &Column) -> Gives
    ensures { result ≡ shown_by wanted (shown_of it.now) }
{
    let Column {
        x,
        y,
        changed,
        time,
        active,
        origin: _,
    } = *it;
    match wanted {
        ActionType::Boolean => Gives::Boolean(BoolState {
            value: x != 0,
            changed,
            time,
            active,
        }),
        ActionType::Float => Gives::Float(FloatState {
            value: x,
            changed,
            time,
            active,
        }),
        ActionType::Vector => Gives::Vector(VectorState {
            x,
            y,
            changed,
            time,
            active,
        }),
        ActionType::Pose => Gives::Active(active),
        ActionType::Vibration => Gives::Nothing,
    }
}

impl Parts {
    #[inline(never)]
    pub(crate) fn getter_call(&self, call: &Call<'_>) -> Result<Reply, Halt>
        requires group { IsGetter call.now }
        ensures { Decides self.now call.now self.now result }
    {
        match call {
            Call::GetBoolean {
                session,
                action,
                sub,
            } => self.answer(ActionType::Boolean, *session, *action, *sub),
            Call::GetFloat {
                session,
                action,
                sub,
            } => self.answer(ActionType::Float, *session, *action, *sub),
            Call::GetVector {
                session,
                action,
                sub,
            } => self.answer(ActionType::Vector, *session, *action, *sub),
            Call::GetPoseActive {
                session,
                action,
                sub,
            } => self.answer(ActionType::Pose, *session, *action, *sub),
            _ => unreachable!(),
        }
    }

    /// Answers a getter of this type.
    fn answer(&self, wanted: ActionType, session: u64, action: u64, sub: u64) -> Result<Reply, Halt>
        ensures { DecidesGetter self.now wanted session action sub result }
    {
        let (success, gives) = self.read(wanted, session, action, sub)?;
        giving(success, gives)
    }

    /// The live session with this handle. 0 is nobody's.
    #[tactic(auto, using(crate::proofs::Seated::look_seated))]
    fn named_session(&self, session: u64) -> Option<&Session>
        ensures { option_map look (option_copied result) ≡ named_look self.now.sessions session }
    {
        if session == 0 {
            return None;
        }
        session_at(self.sessions.as_slice(), session)
    }

    /// What a column of an action shows in a live session to a getter of this type, and nothing where the action has no such column.
    fn shown(&self, session: u64, wanted: ActionType, action: u64, column: usize) -> Gives
        requires live { is_live self.now.handles kind.Session session ≡ true }
        ensures { result ≡ shown_at self.now session wanted action column }
    {
        let Some(place) = self.handles.place_among(Kind::Action, action) else {
            return Gives::Nothing;
        };
        match self.own_columns(session).column(place, column) {
            Some(it) => shown_by(wanted, it),
            None => Gives::Nothing,
        }
    }

    /// What a getter is answered as and what it gives. Refused are, in this order, what is no live session and what is no
    /// live action (`HandleInvalid`), a lost session (`SessionLost`), an action of a set that the session hasn't attached
    /// (`ActionsetNotAttached`), an action of another type (`ActionTypeMismatch`), and a number that is neither 0 nor the
    /// atom of a user path which the action declares (`PathUnsupported`).
    fn read(
        &self,
        wanted: ActionType,
        session: u64,
        action: u64,
        sub: u64,
    ) -> Result<(Code, Gives), Code>
        ensures { result ≡ getter_reads self.now wanted session action sub }
    {
        let Some(live) = self.named_session(session) else {
            return Err(Code::HandleInvalid);
        };
        let Some(entry) = self.inputs.action_at(action) else {
            return Err(Code::HandleInvalid);
        };
        let success = live.success()?;
        if !live.has_set(entry.set()) {
            return Err(Code::ActionsetNotAttached);
        }
        if !is_same_type(entry.kind(), wanted) {
            return Err(Code::ActionTypeMismatch);
        }
        let Some(column) = column_by(&self.users, &entry.declared(), sub) else {
            return Err(Code::PathUnsupported);
        };
        Ok((success, self.shown(session, wanted, action, column)))
    }
}
