// The call that syncs actions (OpenXR 1.0 chapter 11, xrSyncActions).
ghost use Rattle.std.specs.Prelude.{◌≡◌, ◌≤◌, [], true, map, length, flat_map};
ghost use Rattle.std.specs.Result.{result_map_both};
ghost use Rattle.xr_types.specs.declared.limits.TheConstants.{MOST_SYNCED};
ghost use Rattle.xr_model.specs.machine.Handles.{is_live};
ghost use Rattle.xr_model.specs.machine.LiveSessions.{session_at, attached_in};
ghost use Rattle.xr_model.specs.machine.PartAnswers.{or_refused};
ghost use Rattle.xr_model.specs.machine.Publication.{is_attached};
ghost use Rattle.xr_model.specs.machine.Refusals.{first_of};
ghost use Rattle.xr_types.specs.declared.calls.Call.TheVariants as ask;
ghost use Rattle.xr_model.specs.machine.Rules.Session.{life_of, columns_of};
ghost use Rattle.xr_model.specs.machine.Rules.Sync.{item_checks, heard_by, bindings_of, sync_actions_rule};
ghost use Rattle.xr_model.specs.machine.SessionLife.{is_state};
ghost use Rattle.xr_model.specs.machine.Sync.{no_columns, columns_after};
ghost use Rattle.xr_core.specs.inside.Changes.{with_shown};
ghost use Rattle.xr_core.specs.inside.Deciding.{Decides};
ghost use Rattle.xr_core.specs.inside.Refusing.{unless_refused};

use crate::halt::{Halt, done};
use crate::parts::{Parts, slot_of};
use crate::ranking::rank_all;
use crate::sessions::session_at;
use crate::slots::{clear_at, sync_slot};
use arrayvec::ArrayVec;
use xr_profiles::user_of;
use xr_types::{ActiveSet, Code, Heard, Kind, MOST_SYNCED, Reply, SessionState};

impl Parts {
    /// Whether the session has attached this action set.
    #[tactic(auto, using(crate::proofs::Seated::attached_seated))]
    fn has_attached(&self, session: u64, set: u64) -> bool
        ensures { result ≡ is_attached (attached_in (session_at self.now.sessions session)) set }
    {
        session_at(self.sessions.as_slice(), session).is_some_and(|session| session.has_set(set))
    }

    /// Whether the session is focused.
    #[tactic(auto, using(crate::proofs::Seated::life_seated))]
    fn is_focused(&self, session: u64) -> bool
        ensures { result ≡ is_state (life_of self.now session).state SessionState.Focused }
    {
        session_at(self.sessions.as_slice(), session).is_some_and(|session| session.is_focused())
    }

    /// How an item of a sync is heard. Refused are, in this order, what is no live action set (`HandleInvalid`), a set that
    /// the session hasn't attached (`ActionsetNotAttached`), what is no atom (`PathInvalid`), and an atom that isn't a user
    /// path which some action of the set declares (`PathUnsupported`).
    fn hear(&self, session: u64, item: ActiveSet) -> Result<Heard, Code>
        ensures { result ≡ or_refused (first_of (item_checks self.now session item)) (heard_by self.now item) }
    {
        self.live(Kind::ActionSet, item.set)?;
        if !self.has_attached(session, item.set) {
            return Err(Code::ActionsetNotAttached);
        }
        if item.sub == 0 {
            return Ok(Heard {
                set: item.set,
                user: None,
            });
        }
        let Some(text) = self.paths.text_at(item.sub) else {
            return Err(Code::PathInvalid);
        };
        let Some(user) = user_of(text) else {
            return Err(Code::PathUnsupported);
        };
        if !self.inputs.set_declares(item.set, user) {
            return Err(Code::PathUnsupported);
        }
        Ok(Heard {
            set: item.set,
            user: Some(user),
        })
    }

    /// How the items of a sync are heard, in their order, or the refusal of the first that is refused. There are 96 of them
    /// at most. They are filled in where they stay, since a list of so many is kilobytes to move.
    fn hear_all(
        &self,
        session: u64,
        active: &[ActiveSet],
        heard: &mut ArrayVec<Heard, MOST_SYNCED>,
    ) -> Result<(), Code>
        requires few { length active.now ≤ MOST_SYNCED }
        requires none { heard.old.items ≡ [] }
        ensures { result_map_both (λ done. heard.new.items) (λ code. code) result ≡ or_refused (first_of (flat_map (item_checks self.now session) active.now)) (map (heard_by self.now) active.now) }
    {
        for item in active {
            match self.hear(session, *item) {
                Ok(one) => heard.push(one),
                Err(code) => return Err(code),
            }
        }
        Ok(())
    }

    /// What refuses a sync, or how its items are heard.
    fn may_sync_actions(
        &self,
        session: u64,
        active: &[ActiveSet],
        heard: &mut ArrayVec<Heard, MOST_SYNCED>,
    ) -> Result<(), Code>
        requires none { heard.old.items ≡ [] }
        ensures { result_map_both (λ done. heard.new.items) (λ code. code) result ≡ unless_refused (sync_actions_rule self.now session active.now) (map (heard_by self.now) active.now) }
    {
        self.live(Kind::Session, session)?;
        self.on_session(session)?;
        if active.len() > MOST_SYNCED {
            return Err(Code::LimitReached);
        }
        self.hear_all(session, active, heard)
    }

    /// Actions show nothing in a live session from now on.
    fn clear_columns(&mut self, session: u64)
        requires live { is_live self.old.handles Kind.Session session ≡ true }
        ensures { self.new ≡ with_shown self.old session no_columns }
    {
        let slot = slot_of(&self.handles, session);
        clear_at(&mut self.columns, slot);
    }

    /// What actions show in a live session is what they show after a sync of it that hears these sets.
    fn sync_columns(&mut self, session: u64, heard: &[Heard])
        requires live { is_live self.old.handles Kind.Session session ≡ true }
        ensures { self.new ≡ with_shown self.old session (columns_after heard.now (bindings_of self.old) self.old.device.inputs self.old.device.clock (columns_of self.old session)) }
    {
        let slot = slot_of(&self.handles, session);
        rank_all(
            &mut self.ranking,
            &self.inputs,
            &self.handles,
            &self.bindings,
            self.device.profiles(),
        );
        sync_slot(
            &mut self.columns,
            slot,
            heard,
            self.ranking.as_slice(),
            self.device.inputs(),
            self.device.clock(),
        );
    }

    /// Stays a function of its own: the sets that are heard take kilobytes on the stack, which no other call should pay for.
    #[inline(never)]
    pub(crate) fn sync_actions(&mut self, session: u64, active: &[ActiveSet]) -> Result<Reply, Halt>
        ensures { Decides self.old (ask.SyncActions session active.now) self.new result }
    {
        let mut heard = ArrayVec::new();
        self.may_sync_actions(session, active, &mut heard)?;
        if !self.is_focused(session) {
            self.clear_columns(session);
            return done(Code::SessionNotFocused);
        }
        self.sync_columns(session, heard.as_slice());
        done(Code::Success)
    }
}
