// The live sessions, what changes them, and what is told of that.
ghost use Rattle.std.specs.Option.{option_copied};
ghost use Rattle.std.specs.Prelude.{◌≡◌, ◌<◌, ◌||◌, [], ◌∷◌, length, map, not, is_some, Some, None};
ghost use Rattle.std.specs.List.{filter, list_all};
ghost use Rattle.xr_types.specs.declared.code.Code.TheVariants.{Success};
ghost use Rattle.xr_types.specs.declared.device.Wish.TheVariants as wish;
ghost use Rattle.xr_model.specs.machine.Frames.{new_loop};
ghost use Rattle.xr_model.specs.machine.SessionLife.{started_session, synced_session, is_lost, is_state};
ghost use Rattle.xr_model.specs.machine.Handles.{is_among};
ghost use Rattle.xr_model.specs.machine.Publication.{is_attached};
ghost use Rattle.xr_model.specs.machine.Refusals.{first_of};
ghost use Rattle.xr_model.specs.machine.LiveSessions.{session_at, life_in, with_life, with_life_at, with_session_at, with_attached, without_sets, each_changed, told_states, told_changes};
ghost use Rattle.xr_model.specs.machine.SessionRule.{loss_of, code_on};
ghost use Rattle.xr_model.specs.machine.Sync.{no_columns};
ghost use Rattle.xr_model.specs.machine.Target.{is_candidate, target_of, without_focus, other_settled, target_settled};
ghost use Rattle.xr_core.specs.inside.Changes.{change_by, has_settled, place_at, ordinal_in, life_after, told_after, answer_to};
ghost use Rattle.xr_model.specs.machine.PartAnswers.{or_refused};

use arrayvec::ArrayVec;
use std::marker::Model;
use xr_events::Events;
use xr_states::{Changes, Life};
use xr_types::{ACTION_SETS, Code, Event, SESSIONS, SessionState, ViewConfig, Wish};

/// A live session: its handle; its ordinal, which is the count of sessions that were created in the run, itself included; its
/// life; and the action sets that it has attached, each once, where it has attached any. Its frame loop and what actions show in
/// it stand in its slot, beside the sessions: contracts see those of a new session here, and the core's see its own.
#[derive(Default, Drop)]
pub(crate) struct Session {
    handle: u64,
    ordinal: u64,
    life: Life,
    attached: Option<ArrayVec<u64, ACTION_SETS>>,
}

impl Model for Session {
    ghost use Rattle.std.specs.Prelude.{option_map};
    ghost use Rattle.xr_model.specs.machine.Frames.{new_loop};
    ghost use Rattle.xr_model.specs.machine.LiveSessions as sessions;
    ghost use Rattle.xr_model.specs.machine.Sync.{no_columns};

    ghost Value = { sessions.Session };

    ghost view = { λ x. record { handle = x.handle; ordinal = x.ordinal; life = x.life; frame_loop = new_loop; attached = option_map (λ sets. sets.items) x.attached; columns = no_columns } };
}

/// A call that changes the life of one session.
#[derive(Clone, Copy)]
pub(crate) enum LifeCall {
    Begin(ViewConfig),
    End,
    RequestExit,
}

/// What happens to all sessions.
#[derive(Clone, Copy)]
pub(crate) enum Change {
    /// All but the target, which is told by its ordinal, settle without the focus.
    Others { wish: Wish, target: u64 },
    /// The target settles.
    Target { wish: Wish, target: u64 },
    Loss,
    Lost,
}

/// What is left of the device's wish for a session that isn't the target.
fn without_focus(wish: Wish) -> Wish
    ensures { result ≡ without_focus wish }
{
    match wish {
        Wish::Focused => Wish::Visible,
        other => other,
    }
}

/// Takes these handles out of a list.
fn forget_among(sets: &mut ArrayVec<u64, ACTION_SETS>, gone: &[u64])
    ensures { sets.new.items ≡ filter (λ set. not (is_among gone.now set)) sets.old.items }
{
    sets.retain(|set| !gone.contains(&*set));
}

/// Tells the states that a session went through.
fn tell(events: &mut Events, ordinal: u64, session: u64, changes: &Changes)
    ensures { events.new ≡ told_states events.old ordinal session changes.now }
{
    for state in changes.as_slice() {
        events.push(Event::State {
            ordinal,
            session,
            state: *state,
        });
    }
}

/// Begins a session.
#[tactic(auto, unfolding(crate::specs::inside::Changes::life_after, crate::specs::inside::Changes::told_after, crate::specs::inside::Changes::answer_to))]
fn begin(life: &mut Life, view: ViewConfig, wish: Wish) -> Code
    ensures life { life.new ≡ life_after wish (LifeCall.Begin view) life.old }
    ensures through { [] ≡ told_after wish (LifeCall.Begin view) life.old }
    ensures code { result ≡ answer_to (LifeCall.Begin view) life.old }
{
    life.begin(view)
}

/// Ends a session.
#[tactic(auto, unfolding(crate::specs::inside::Changes::life_after, crate::specs::inside::Changes::told_after, crate::specs::inside::Changes::answer_to))]
fn end(life: &mut Life, wish: Wish, changes: &mut Changes) -> Code
    requires { changes.old ≡ [] }
    ensures life { life.new ≡ life_after wish LifeCall.End life.old }
    ensures through { changes.new ≡ told_after wish LifeCall.End life.old }
    ensures code { result ≡ answer_to LifeCall.End life.old }
{
    life.end(wish, changes)
}

/// Asks for a session's end.
#[tactic(auto, unfolding(crate::specs::inside::Changes::life_after, crate::specs::inside::Changes::told_after, crate::specs::inside::Changes::answer_to))]
fn request_exit(life: &mut Life, wish: Wish, changes: &mut Changes) -> Code
    requires { changes.old ≡ [] }
    ensures life { life.new ≡ life_after wish LifeCall.RequestExit life.old }
    ensures through { changes.new ≡ told_after wish LifeCall.RequestExit life.old }
    ensures code { result ≡ answer_to LifeCall.RequestExit life.old }
{
    life.request_exit(wish, changes)
}

/// Makes a call that changes a session's life, of which nothing is told yet.
fn live(life: &mut Life, call: LifeCall, wish: Wish, changes: &mut Changes) -> Code
    requires { changes.old ≡ [] }
    ensures life { life.new ≡ life_after wish call life.old }
    ensures through { changes.new ≡ told_after wish call life.old }
    ensures code { result ≡ answer_to call life.old }
{
    match call {
        LifeCall::Begin(view) => begin(life, view, wish),
        LifeCall::End => end(life, wish, changes),
        LifeCall::RequestExit => request_exit(life, wish, changes),
    }
}

impl Session {
    /// A new session, which tells its first states.
    pub(crate) fn create(handle: u64, ordinal: u64, wish: Wish, events: &mut Events) -> Session
        ensures session { result ≡ record { handle = handle; ordinal = ordinal; life = (started_session wish).life; frame_loop = new_loop; attached = None; columns = no_columns } }
        ensures events { events.new ≡ told_states events.old ordinal handle (started_session wish).through }
    {
        let mut changes = Changes::new();
        let life = Life::start(wish, &mut changes);
        tell(events, ordinal, handle, &changes);
        Session {
            handle,
            ordinal,
            life,
            attached: None,
        }
    }

    pub(crate) fn handle(&self) -> u64
        ensures { result ≡ self.now.handle }
    {
        self.handle
    }

    /// What a plain success on the session is answered as, whether or not it is lost.
    fn success_code(&self) -> Code
        ensures { result ≡ code_on (loss_of self.now.life) Success }
    {
        match self.life.state() {
            SessionState::LossPending => Code::SessionLossPending,
            _ => Code::Success,
        }
    }

    /// What a plain success on the session is answered as, where it isn't lost.
    pub(crate) fn success(&self) -> Result<Code, Code>
        ensures { result ≡ or_refused (first_of (is_lost self.now.life ∷ [])) (code_on (loss_of self.now.life) Success) }
    {
        if self.life.lost() {
            Err(Code::SessionLost)
        } else {
            Ok(self.success_code())
        }
    }

    /// Whether a period of it is running.
    pub(crate) fn is_running(&self) -> bool
        ensures { result ≡ self.now.life.running }
    {
        self.life.running()
    }

    /// Whether it is visible or focused.
    pub(crate) fn is_seen(&self) -> bool
        ensures { result ≡ is_state self.now.life.state SessionState.Visible || is_state self.now.life.state SessionState.Focused }
    {
        matches!(
            self.life.state(),
            SessionState::Visible | SessionState::Focused
        )
    }

    /// Whether it can be the target: a frame of its running period was ended, and nobody has asked for its end.
    fn is_candidate(&self) -> bool
        ensures { result ≡ is_candidate self.now.life }
    {
        let may = matches!(
            self.life.state(),
            SessionState::Synchronized | SessionState::Visible | SessionState::Focused
        );
        may && !self.life.exit()
    }

    /// Whether it is focused.
    pub(crate) fn is_focused(&self) -> bool
        ensures { result ≡ is_state self.now.life.state SessionState.Focused }
    {
        matches!(self.life.state(), SessionState::Focused)
    }

    /// Whether the device was lost since it was created.
    pub(crate) fn is_lost(&self) -> bool
        ensures { result ≡ (loss_of self.now.life).lost }
    {
        self.life.lost()
    }

    /// Whether its loss is pending.
    pub(crate) fn is_loss_pending(&self) -> bool
        ensures { result ≡ (loss_of self.now.life).pending }
    {
        matches!(self.life.state(), SessionState::LossPending)
    }

    /// Whether it has attached this action set.
    pub(crate) fn has_set(&self, set: u64) -> bool
        ensures { result ≡ is_attached self.now.attached set }
    {
        match &self.attached {
            Some(sets) => sets.contains(&set),
            None => false,
        }
    }

    /// Whether it has attached action sets.
    pub(crate) fn has_attached(&self) -> bool
        ensures { result ≡ is_some self.now.attached }
    {
        self.attached.is_some()
    }

    /// It has attached these action sets.
    fn attach(&mut self, sets: ArrayVec<u64, ACTION_SETS>)
        ensures { self.new ≡ with_attached sets.items self.old }
    {
        self.attached = Some(sets);
    }

    /// These handles went: the action sets among them are attached no more.
    fn forget_sets(&mut self, gone: &[u64])
        ensures { self.new ≡ without_sets gone.now self.old }
    {
        if let Some(sets) = &mut self.attached {
            forget_among(sets, gone);
        }
    }

    /// Makes a call that changes the session's life, and tells what it went through.
    fn make(&mut self, call: LifeCall, wish: Wish, events: &mut Events) -> Code
        ensures life { self.new ≡ with_life (life_after wish call self.old.life) self.old }
        ensures events { events.new ≡ told_states events.old self.old.ordinal self.old.handle (told_after wish call self.old.life) }
        ensures code { result ≡ answer_to call self.old.life }
    {
        let mut changes = Changes::new();
        let code = live(&mut self.life, call, wish, &mut changes);
        tell(events, self.ordinal, self.handle, &changes);
        code
    }

    /// A frame of it was ended: a ready session enters `Synchronized`, as far as it goes before all settle. Tells what it went through.
    fn sync(&mut self, events: &mut Events)
        ensures life { self.new ≡ with_life (synced_session wish.Ready self.old.life).life self.old }
        ensures events { events.new ≡ told_states events.old self.old.ordinal self.old.handle (synced_session wish.Ready self.old.life).through }
    {
        let mut changes = Changes::new();
        self.life.synced(Wish::Ready, &mut changes);
        tell(events, self.ordinal, self.handle, &changes);
    }

    /// Whether it has settled by its own part of the device's wish: no row of the table of states fits.
    fn has_settled(&self, wish: Wish, target: u64) -> bool
        ensures { result ≡ has_settled wish target self.now }
    {
        let own = if self.ordinal == target {
            wish
        } else {
            without_focus(wish)
        };
        self.life.has_settled(own)
    }

    /// Settles without the focus, unless it is the target.
    fn settle_beside(&mut self, wish: Wish, target: u64, changes: &mut Changes)
        requires { changes.old ≡ [] }
        ensures life { self.new ≡ with_life (other_settled wish target self.old).life self.old }
        ensures through { changes.new ≡ (other_settled wish target self.old).through }
    {
        if self.ordinal != target {
            self.life.wish(without_focus(wish), changes);
        }
    }

    /// Settles, if it is the target.
    fn settle_as(&mut self, wish: Wish, target: u64, changes: &mut Changes)
        requires { changes.old ≡ [] }
        ensures life { self.new ≡ with_life (target_settled wish target self.old).life self.old }
        ensures through { changes.new ≡ (target_settled wish target self.old).through }
    {
        if self.ordinal == target {
            self.life.wish(wish, changes);
        }
    }

    /// Changes with all others, and tells what it went through.
    fn change(&mut self, change: Change, events: &mut Events)
        ensures life { self.new ≡ with_life (change_by change self.old).life self.old }
        ensures events { events.new ≡ told_states events.old self.old.ordinal self.old.handle (change_by change self.old).through }
    {
        let mut changes = Changes::new();
        match change {
            Change::Others { wish, target } => self.settle_beside(wish, target, &mut changes),
            Change::Target { wish, target } => self.settle_as(wish, target, &mut changes),
            Change::Loss => self.life.loss(&mut changes),
            Change::Lost => self.life.lose(),
        }
        tell(events, self.ordinal, self.handle, &changes);
    }
}

/// Changes all sessions, in the order of their creation.
pub(crate) fn change_each(sessions: &mut [Session], change: Change, events: &mut Events)
    ensures sessions { sessions.new ≡ each_changed (change_by change) sessions.old }
    ensures events { events.new ≡ told_changes events.old (change_by change) sessions.old }
{
    for session in sessions.iter_mut() {
        session.change(change, events);
    }
}

/// Whether all sessions have settled.
pub(crate) fn have_settled(sessions: &[Session], wish: Wish, target: u64) -> bool
    ensures { result ≡ list_all (has_settled wish target) sessions.now }
{
    sessions
        .iter()
        .all(|session| session.has_settled(wish, target))
}

/// The session that the device's wish is for, by its ordinal, 0 where there is none: of those that can be, the one that was created last.
pub(crate) fn target_of(sessions: &[Session]) -> u64
    ensures { result ≡ target_of sessions.now }
{
    let mut target = 0;
    for session in sessions {
        if session.is_candidate() {
            target = session.ordinal.max(target);
        }
    }
    target
}

/// These handles went: none of these sessions has any of them attached.
fn forget_each(sessions: &mut [Session], gone: &[u64])
    ensures { sessions.new ≡ map (without_sets gone.now) sessions.old }
{
    for session in sessions.iter_mut() {
        session.forget_sets(gone);
    }
}

/// These handles went: no session has any of them attached.
pub(crate) fn forget_attached(sessions: &mut ArrayVec<Session, SESSIONS>, gone: &[u64])
    ensures { sessions.new.items ≡ map (without_sets gone.now) sessions.old.items }
{
    forget_each(sessions.as_mut_slice(), gone);
}

/// A listed session by its handle.
pub(crate) fn session_at(sessions: &[Session], handle: u64) -> Option<&Session>
    ensures { option_copied result ≡ session_at sessions.now handle }
{
    sessions.iter().find(|session| session.handle() == handle)
}

/// Where a session stands.
pub(crate) fn place_of(sessions: &[Session], handle: u64) -> Option<usize>
    ensures { result ≡ place_at sessions.now handle }
{
    sessions
        .iter()
        .position(|session| session.handle() == handle)
}

/// What a plain success on the session in a place is answered as.
pub(crate) fn success_of(sessions: &[Session], handle: u64, place: usize) -> Code
    requires found { place_at sessions.now handle ≡ Some place }
    requires within { place < length sessions.now }
    ensures { result ≡ code_on (loss_of (life_in (session_at sessions.now handle))) Success }
{
    sessions[place].success_code()
}

/// Makes a call that changes the life of the session in a place, and tells what it went through.
pub(crate) fn change_life(
    sessions: &mut ArrayVec<Session, SESSIONS>,
    handle: u64,
    place: usize,
    call: LifeCall,
    wish: Wish,
    events: &mut Events,
) -> Code
    requires found { place_at sessions.old.items handle ≡ Some place }
    requires within { place < length sessions.old.items }
    ensures sessions { sessions.new.items ≡ with_life_at handle (life_after wish call (life_in (session_at sessions.old.items handle))) sessions.old.items }
    ensures events { events.new ≡ told_states events.old (ordinal_in (session_at sessions.old.items handle)) handle (told_after wish call (life_in (session_at sessions.old.items handle))) }
    ensures code { result ≡ answer_to call (life_in (session_at sessions.old.items handle)) }
{
    sessions[place].make(call, wish, events)
}

/// A frame of the session in a place was ended, which tells what it went through.
pub(crate) fn sync_at(
    sessions: &mut ArrayVec<Session, SESSIONS>,
    handle: u64,
    place: usize,
    events: &mut Events,
)
    requires found { place_at sessions.old.items handle ≡ Some place }
    requires within { place < length sessions.old.items }
    ensures sessions { sessions.new.items ≡ with_life_at handle (synced_session wish.Ready (life_in (session_at sessions.old.items handle))).life sessions.old.items }
    ensures events { events.new ≡ told_states events.old (ordinal_in (session_at sessions.old.items handle)) handle (synced_session wish.Ready (life_in (session_at sessions.old.items handle))).through }
{
    sessions[place].sync(events);
}

/// The session in a place has attached these action sets.
pub(crate) fn attach_at(
    sessions: &mut ArrayVec<Session, SESSIONS>,
    handle: u64,
    place: usize,
    sets: ArrayVec<u64, ACTION_SETS>,
)
    requires found { place_at sessions.old.items handle ≡ Some place }
    requires within { place < length sessions.old.items }
    ensures { sessions.new.items ≡ with_session_at handle (with_attached sets.items) sessions.old.items }
{
    sessions[place].attach(sets);
}
