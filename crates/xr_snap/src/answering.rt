// A getter is answered by the words of what was published last, without the lock (OpenXR 1.0 chapter 11, xrGetActionStateBoolean,
// xrGetActionStateFloat, xrGetActionStateVector2f and xrGetActionStatePose).
ghost use Rattle.std.specs.Prelude.{◌≡◌, false, MatchOption, if◌then◌else◌};
ghost use Rattle.xr_types.specs.CallKinds.{is_getter};
ghost use Rattle.xr_types.specs.declared.code.Code.TheVariants.{Success, SessionLossPending};
ghost use Rattle.xr_snap.specs.Answering.{IsAsked, reply_at};
ghost use Rattle.xr_snap.specs.Reading.{IsIn, HasFit, MayEnter, HasRead, getter_answer, heading_of, publication_seen};

use crate::decoding::{column_by, is_same_type, shown};
use crate::finding::{find_action, find_session};
use crate::looking::{Heading, asked_at, atoms, column_at, heading_in, standing_at};
use crate::reading::{enter, leave};
use xr_model::Machine;
use xr_rule::{XrSeat, XrTable};
use xr_types::{ActionType, Call, Code, Gives, Reply};

/// What a getter asks for: an action of this type, on a session, for all user paths or that of an atom.
#[derive(Clone, Copy)]
pub(crate) struct Wanted {
    pub(crate) kind: ActionType,
    pub(crate) session: u64,
    pub(crate) action: u64,
    pub(crate) sub: u64,
}

/// A plain success, which says where the session's loss is pending.
fn success(pending: bool) -> Code
    ensures { result ≡ (if pending then SessionLossPending else Success) }
{
    if pending {
        Code::SessionLossPending
    } else {
        Code::Success
    }
}

/// What a getter is answered as and what it gives, by the buffer that the seat is in. Refused are, in this order, what is no live
/// session and what is no live action (`HandleInvalid`), a lost session (`SessionLost`), an action of a set that the session
/// hasn't attached (`ActionsetNotAttached`), an action of another type (`ActionTypeMismatch`), and a number that is neither 0 nor
/// the atom of a user path which the action declares (`PathUnsupported`).
fn look<M: Machine + Drop>(
    table: &XrTable<M>,
    seat: &mut XrSeat<M>,
    buffer: usize,
    heading: &Heading,
    wanted: &Wanted,
) -> Result<(Code, Gives), Code>
    requires own { seat.old.table_id ≡ table.now.table.shared.table_id }
    requires inside { IsIn seat.old.me.0.eyes buffer }
    requires fits { HasFit seat.old.me.0.eyes }
    requires heading { heading.now ≡ heading_of (publication_seen seat.old.me.0.eyes) }
    ensures same { (seat.new.table_id ≡ seat.old.table_id) × (seat.new.me ≡ seat.old.me) }
    ensures answer { result ≡ getter_answer (publication_seen seat.old.me.0.eyes) wanted.now.kind wanted.now.session wanted.now.action wanted.now.sub }
{
    let Wanted {
        kind,
        session,
        action,
        sub,
    } = *wanted;
    let Some(here) = find_session(table, seat, buffer, heading, session) else {
        return Err(Code::HandleInvalid);
    };
    let Some(place) = find_action(table, seat, buffer, heading, action) else {
        return Err(Code::HandleInvalid);
    };
    let standing = standing_at(table, seat, buffer, heading, here, place);
    if standing.lost {
        return Err(Code::SessionLost);
    }
    if !standing.attached {
        return Err(Code::ActionsetNotAttached);
    }
    let asked = asked_at(table, seat, buffer, place);
    if !is_same_type(asked.kind, kind) {
        return Err(Code::ActionTypeMismatch);
    }
    let users = atoms(table, seat, buffer);
    let Some(column) = column_by(&users, &asked.declared, sub) else {
        return Err(Code::PathUnsupported);
    };
    let cells = column_at(table, seat, buffer, heading, here, place, column);
    Ok((success(standing.pending), shown(kind, &cells)))
}

/// What a call wants where it is a getter.
fn wanted_by(call: &Call<'_>) -> Option<Wanted>
    ensures { MatchOption result (is_getter call.now ≡ false) (λ w. IsAsked call.now w) }
{
    match call {
        Call::GetBoolean {
            session,
            action,
            sub,
        } => Some(Wanted {
            kind: ActionType::Boolean,
            session: *session,
            action: *action,
            sub: *sub,
        }),
        Call::GetFloat {
            session,
            action,
            sub,
        } => Some(Wanted {
            kind: ActionType::Float,
            session: *session,
            action: *action,
            sub: *sub,
        }),
        Call::GetVector {
            session,
            action,
            sub,
        } => Some(Wanted {
            kind: ActionType::Vector,
            session: *session,
            action: *action,
            sub: *sub,
        }),
        Call::GetPoseActive {
            session,
            action,
            sub,
        } => Some(Wanted {
            kind: ActionType::Pose,
            session: *session,
            action: *action,
            sub: *sub,
        }),
        _ => None,
    }
}

/// What stands for an answer at the place of the call that published.
fn reply_at(place: u64, answer: Result<(Code, Gives), Code>) -> Reply
    ensures { result ≡ reply_at place answer }
{
    let (code, gives) = match answer {
        Ok(told) => told,
        Err(code) => (code, Gives::Nothing),
    };
    Reply { code, gives, place }
}

/// Answers a getter by what was published last, without the lock. It enters the front, which decides it, looks at the words that it
/// wants, and leaves. The reply is the machine's at the getter's place in the one legal history.
pub fn read<M: Machine + Drop>(table: &XrTable<M>, seat: &mut XrSeat<M>, call: &Call<'_>) -> Reply
    requires own { seat.old.table_id ≡ table.now.table.shared.table_id }
    requires may { MayEnter seat.old.me call.now }
    ensures own { seat.new.table_id ≡ seat.old.table_id }
    ensures read { HasRead seat.old.me call.now result seat.new.me }
{
    let Some(wanted) = wanted_by(call) else {
        unreachable!()
    };
    let buffer = enter(table, seat, call);
    let heading = heading_in(table, seat, buffer);
    let answer = look(table, seat, buffer, &heading, &wanted);
    leave(table, seat, buffer);
    reply_at(heading.number, answer)
}
