// What a core keeps, and what all calls do to it. It counts no call, and touches no part's inside.
ghost use Rattle.std.specs.Prelude.{◌≡◌, ◌≤ℤ◌, pos, ◌≢◌, ◌≤◌, ◌<◌, ◌^◌, ◌↔◌, [], ◌∷◌, IfOk, IsTrue, Some, true, false, length, map, not};
ghost use Rattle.xr_types.specs.declared.code.Code.TheVariants.{HandleInvalid};
ghost use Rattle.xr_model.specs.machine.Bindings.{without_suggestions};
ghost use Rattle.xr_model.specs.machine.CellCalls.{MayCall, Leads, free_calls};
ghost use Rattle.xr_model.specs.machine.Chains.{is_place_used, left_in_places, freed_in_places};
ghost use Rattle.xr_model.specs.machine.Destroyed.{without_handle, freed_by};
ghost use Rattle.xr_model.specs.machine.Handles.{is_live, row_of, has_room, no_handle, no_room, was_given, with_handle};
ghost use Rattle.xr_model.specs.machine.HandlePlaces.{limit_of, place_in, is_below};
ghost use Rattle.xr_model.specs.machine.LiveSessions.{still_live};
ghost use Rattle.xr_model.specs.machine.Refusals.{first_of, when};
ghost use Rattle.xr_model.specs.machine.Sets.{without_inputs};
ghost use Rattle.xr_model.specs.machine.SessionLife.{is_lost};
ghost use Rattle.xr_model.specs.machine.Spaces.{without_spaces};
ghost use Rattle.xr_model.specs.machine.Rules.Device.{with_changes};
ghost use Rattle.xr_model.specs.machine.Rules.Session.{life_of, columns_of};
ghost use Rattle.xr_model.specs.machine.Rules.Spaces.{session_above};
ghost use Rattle.xr_model.specs.machine.State.{with_apps, opening_core};
ghost use Rattle.xr_model.specs.machine.Machine.{IsPresent};
ghost use Rattle.xr_model.specs.machine.Target.{settled};
ghost use Rattle.xr_core.specs.inside.Changes.{change_by, taken_out, with_places_left};
ghost use Rattle.xr_model.specs.machine.PartAnswers.{or_refused};
ghost use Rattle.xr_core.specs.inside.Refusing.{success_on};

use crate::device_values::DeviceValues;
use crate::ranking::Ranking;
use crate::sessions::{
    Change, Session, change_each, forget_attached, have_settled, session_at, target_of,
};
use crate::slots::{leave_all, start_columns};
use crate::standing::Kept;
use arrayvec::ArrayVec;
use std::alloc::Global;
use std::marker::Model;
use xr_bindings::Bindings;
use xr_chains::Chains;
use xr_events::Events;
use xr_frames::Frames;
use xr_handles::Handles;
use xr_model::Cells;
use xr_paths::Paths;
use xr_sets::Sets;
use xr_spaces::Spaces;
use xr_sync::Columns;
use xr_types::{
    Actor, Code, Image, Kind, MOST_HANDLES, MOST_LAYERS, MOST_MARK, MOST_SCRIPTS, NoMemory,
    SESSIONS, USERS,
};

/// How many marks there are.
pub(crate) const MARKS: usize = MOST_MARK as usize;

/// All parts of a core, and what decides its calls: the inside of a core. Contracts see what the core keeps, with no call
/// counted.
#[derive(Drop)]
pub(crate) struct Parts {
    pub(crate) handles: Handles,
    pub(crate) paths: Paths,
    /// The atom of each user path, at its `user_place`, 0 where it has none.
    pub(crate) users: [u64; USERS],
    pub(crate) events: Events,
    /// The live sessions, in the order of their creation.
    pub(crate) sessions: ArrayVec<Session, SESSIONS>,
    /// How many sessions were created.
    pub(crate) created: u64,
    /// The live action sets and actions, in the order of their creation.
    pub(crate) inputs: Sets,
    /// What is suggested for each profile.
    pub(crate) bindings: Bindings,
    /// The live spaces, in the order of their creation, and the samples of their origins.
    pub(crate) room: Spaces,
    /// The frame loops of the sessions by their slots, and the frames that are pending.
    pub(crate) frames: Frames,
    /// How many frames were ended.
    pub(crate) ended: u64,
    /// The swapchains in their places.
    pub(crate) chains: Chains,
    /// The images of the frame that was taken last.
    pub(crate) shown: ArrayVec<Image, MOST_LAYERS>,
    /// What each action shows in each session since its last sync, by the session's slot. What it showed in one that went stays
    /// until another takes the slot.
    pub(crate) columns: Vec<Columns>,
    /// The bindings of a sync, which are ranked anew for each. Contracts see nothing of it.
    pub(crate) ranking: Ranking,
    /// What the device has told of itself.
    pub(crate) device: DeviceValues,
    /// The value of each mark that is set, from mark 1 on.
    pub(crate) marks: [Option<u64>; MARKS],
    pub(crate) apps: u8,
    pub(crate) left: [bool; MOST_SCRIPTS],
}

impl Model for Parts {
    ghost use Rattle.std.specs.Prelude.{◌≡◌, ◌≤◌, take, length};
    ghost use Rattle.xr_types.specs.declared.handles.TheConstants.{SWAPCHAINS};
    ghost use Rattle.xr_types.specs.declared.limits.TheConstants.{MOST_SCRIPTS};
    ghost use Rattle.xr_frames.specs.Slots.{frames_of};
    ghost use Rattle.xr_core.specs.inside.Housed.{KeepsLive};
    ghost use Rattle.xr_core.specs.inside.Seats.{seated, AreSeated};
    ghost use Rattle.xr_core.specs.inside.Users.{KnowsUsers};
    ghost use Rattle.xr_model.specs.machine.State.{CoreState};

    ghost Value = { CoreState };

    ghost view = { λ c. record {
      handles = c.handles;
      atoms = c.paths;
      events = c.events;
      sessions = seated c.frames.loops c.columns.items c.handles.sessions c.sessions.items;
      created = c.created;
      inputs = c.inputs;
      suggestions = c.bindings;
      room = c.room;
      frames = frames_of c.frames;
      ended = c.ended;
      chains = c.chains;
      shown_images = c.shown.items;
      device = c.device;
      marks = c.marks;
      apps = c.apps;
      left = take c.apps c.left;
      locked = 0;
      published = 0;
    } };

    ghost invariant = { λ c. AreSeated c.frames.loops c.columns.items c.handles c.sessions.items × (c.apps ≤ MOST_SCRIPTS) × KeepsLive c.room c.inputs c.handles × (length c.chains ≡ SWAPCHAINS) × KnowsUsers c.users c.paths };
}

/// Only the sessions whose handles are live are kept.
fn keep_live(handles: &Handles, sessions: &mut ArrayVec<Session, SESSIONS>)
    ensures { sessions.new.items ≡ still_live handles.now sessions.old.items }
{
    sessions.retain(|session| handles.is_live(Kind::Session, session.handle()));
}

/// The spaces of these handles go.
fn forget_spaces(spaces: &mut Spaces, handles: &[u64])
    ensures { spaces.new ≡ without_spaces spaces.old handles.now }
{
    for handle in handles {
        spaces.remove(*handle);
    }
}

/// The action sets and the actions of these handles go.
fn forget_sets(sets: &mut Sets, handles: &[u64])
    ensures { sets.new ≡ without_inputs sets.old handles.now }
{
    for handle in handles {
        sets.remove(*handle);
    }
}

/// The suggestions of the actions among these handles go.
fn forget_suggestions(bindings: &mut Bindings, handles: &[u64])
    ensures { bindings.new ≡ without_suggestions bindings.old handles.now }
{
    for handle in handles {
        bindings.forget(*handle);
    }
}

/// Gives a new handle under a parent, 0 for an instance, where a place is free.
pub(crate) fn give(handles: &mut Handles, kind: Kind, parent: u64) -> u64
    requires few { length handles.old.given < 2 ^ 44 }
    requires room { has_room handles.old kind ≡ true }
    ensures state { handles.new ≡ with_handle handles.old kind parent result }
    ensures fresh { (result ≢ 0) × (was_given handles.old result ≡ false) }
    ensures row { length (row_of handles.old kind) ≡ limit_of kind }
{
    handles.give(kind, parent).number
}

/// The slot of a live session, by which its frame loop and what actions show in it are kept: the place of its handle.
pub(crate) fn slot_of(handles: &Handles, session: u64) -> usize
    requires live { is_live handles.now Kind.Session session ≡ true }
    ensures slot { place_in handles.now.sessions session ≡ Some result }
    ensures within { result < SESSIONS }
{
    let Some(slot) = handles.place_among(Kind::Session, session) else {
        unreachable!()
    };
    slot
}

impl Parts {
    /// The parts of a core of 1 to 8 applications before any call, where they stay: they are some 7 KB, which nobody moves.
    /// Takes all memory but that of new path texts and of suggestions.
    #[tactic(auto, using(crate::proofs::Start::none_left, crate::proofs::KeptSeats::none_seated))]
    pub(crate) fn start(alloc: Global, apps: u8) -> Result<Box<Parts>, NoMemory>
        requires some { 1 ≤ apps }
        requires few { apps ≤ MOST_SCRIPTS }
        ensures { IfOk result (λ parts. parts.value ≡ opening_core (with_apps apps)) }
    {
        let paths = Paths::start(alloc)?;
        let events = Events::start(alloc)?;
        let sets = Sets::start(alloc)?;
        let spaces = Spaces::start(alloc)?;
        let columns = start_columns(alloc)?;
        let ranking = Ranking::start(alloc)?;
        let parts = Parts {
            handles: Handles::start(),
            paths,
            users: [0; USERS],
            events,
            sessions: ArrayVec::new(),
            created: 0,
            inputs: sets,
            bindings: Bindings::start(),
            room: spaces,
            frames: Frames::start(),
            ended: 0,
            chains: Chains::start(),
            shown: ArrayVec::new(),
            columns,
            ranking,
            device: DeviceValues::start(),
            marks: [None; MARKS],
            apps,
            left: [false; MOST_SCRIPTS],
        };
        Ok(Box::new(alloc, parts)?)
    }

    /// Whether there is such an application, from 1, and it hasn't left: whether it may make calls.
    pub(crate) fn is_present(&self, app: u8) -> bool
        ensures { IsTrue result ↔ IsPresent self.now (Actor.App app) }
    {
        if app == 0 || app > self.apps {
            return false;
        }
        let apps = self.apps as usize;
        matches!(self.left[..apps].get(app as usize - 1), Some(false))
    }

    /// The device's clock, in ns of device time, never negative.
    pub(crate) fn clock(&self) -> i64
        ensures clock { result ≡ self.now.device.clock }
        ensures begun { pos 0 ≤ℤ result }
    {
        self.device.clock()
    }

    /// A call's own handle has to be live and of its kind.
    pub(crate) fn live(&self, kind: Kind, handle: u64) -> Result<(), Code>
        ensures { result ≡ or_refused (first_of (no_handle self.now.handles kind handle ∷ [])) tt }
    {
        if self.handles.is_live(kind, handle) {
            Ok(())
        } else {
            Err(Code::HandleInvalid)
        }
    }

    /// A handle that a call on a session names beside it has to be live, of its kind, and below that session.
    pub(crate) fn below(&self, kind: Kind, session: u64, handle: u64) -> Result<(), Code>
        ensures { result ≡ or_refused (first_of (when (not (is_below self.now.handles kind session handle)) HandleInvalid ∷ [])) tt }
    {
        if self.handles.is_below(kind, session, handle) {
            Ok(())
        } else {
            Err(Code::HandleInvalid)
        }
    }

    /// The session of a space or a swapchain, which has to be live and of its kind.
    pub(crate) fn session_of(&self, kind: Kind, handle: u64) -> Result<u64, Code>
        ensures { result ≡ or_refused (first_of (no_handle self.now.handles kind handle ∷ [])) (session_above self.now.handles handle) }
    {
        self.handles
            .parent_among(kind, handle)
            .ok_or(Code::HandleInvalid)
    }

    /// A creation needs a free place of its kind.
    pub(crate) fn room(&self, kind: Kind) -> Result<(), Code>
        ensures { result ≡ or_refused (first_of (no_room self.now.handles kind ∷ [])) tt }
    {
        if self.handles.free_place(kind).is_some() {
            Ok(())
        } else {
            Err(Code::LimitReached)
        }
    }

    /// What a plain success on a session is answered as, where the session isn't lost. One that isn't listed isn't.
    #[tactic(auto, using(crate::proofs::Seated::life_seated))]
    pub(crate) fn on_session(&self, session: u64) -> Result<Code, Code>
        ensures { result ≡ or_refused (first_of (is_lost (life_of self.now session) ∷ [])) (success_on self.now session) }
    {
        match session_at(self.sessions.as_slice(), session) {
            Some(session) => session.success(),
            None => Ok(Code::Success),
        }
    }

    /// What actions show in a live session.
    pub(crate) fn own_columns(&self, session: u64) -> &Columns
        requires live { is_live self.now.handles Kind.Session session ≡ true }
        ensures { result.now ≡ columns_of self.now session }
    {
        let slot = slot_of(&self.handles, session);
        &self.columns[slot]
    }

    /// Takes a handle and all below it out of all parts but the swapchains. The sessions that are left haven't settled.
    fn take_out(&mut self, handle: u64)
        ensures { self.new ≡ taken_out self.old handle }
    {
        let mut destroyed: ArrayVec<u64, MOST_HANDLES> = ArrayVec::new();
        self.handles.destroy(handle, &mut destroyed);
        keep_live(&self.handles, &mut self.sessions);
        forget_attached(&mut self.sessions, destroyed.as_slice());
        forget_spaces(&mut self.room, destroyed.as_slice());
        forget_sets(&mut self.inputs, destroyed.as_slice());
        forget_suggestions(&mut self.bindings, destroyed.as_slice());
        self.leave_places();
    }

    /// Takes a handle and all below it out of all parts but the swapchains. All sessions settle.
    fn remove(&mut self, handle: u64)
        ensures { self.new ≡ record (without_handle self.old handle) { chains = self.old.chains } }
    {
        self.take_out(handle);
        self.settle();
    }

    /// What actions show in any session, and what spaces move with, is gone where no action stands.
    fn leave_places(&mut self)
        ensures { self.new ≡ with_places_left self.old }
    {
        let there = self.handles.actions();
        self.room.leave(&there);
        leave_all(&mut self.columns, &there);
    }

    /// Frees the places of swapchains that aren't live and that no frame uses.
    #[tactic(auto, using(crate::proofs::Swept::left_same, crate::proofs::Swept::length_swept))]
    pub(crate) fn sweep(&mut self)
        ensures { self.new ≡ record self.old { chains = left_in_places self.old.handles (is_place_used self.old.frames.pending self.old.shown_images) 0 self.old.chains } }
    {
        let kept = Kept {
            handles: &self.handles,
            frames: &self.frames,
            shown: self.shown.as_slice(),
        };
        self.chains.sweep(&kept);
    }

    /// Takes a handle and all below it out of all parts, where no swapchain is below it.
    pub(crate) fn destroy(&mut self, handle: u64)
        ensures { self.new ≡ without_handle self.old handle }
    {
        self.remove(handle);
        self.sweep();
    }

    /// Takes the swapchains that aren't live out of their places. The images that were waited for are an application's no
    /// longer.
    #[tactic(auto, using(crate::proofs::Swept::left_same, crate::proofs::Swept::freed_same, crate::proofs::Swept::length_swept))]
    pub(crate) fn remove_chains<C: Cells>(&mut self, cells: &mut C)
        requires may { MayCall C.may C.does cells.old (free_calls (freed_in_places self.old.handles 0 self.old.chains)) }
        ensures chains { self.new ≡ record self.old { chains = left_in_places self.old.handles (is_place_used self.old.frames.pending self.old.shown_images) 0 self.old.chains } }
        ensures cells { Leads C.does cells.old (free_calls (freed_in_places self.old.handles 0 self.old.chains)) cells.new }
    {
        let kept = Kept {
            handles: &self.handles,
            frames: &self.frames,
            shown: self.shown.as_slice(),
        };
        self.chains.remove(cells, &kept);
    }

    /// Takes a handle and all below it out of all parts. The images that were waited for, of the swapchains that go with it,
    /// are an application's no longer.
    pub(crate) fn destroy_over<C: Cells>(&mut self, cells: &mut C, handle: u64)
        requires may { MayCall C.may C.does cells.old (free_calls (freed_by self.old handle)) }
        ensures state { self.new ≡ without_handle self.old handle }
        ensures cells { Leads C.does cells.old (free_calls (freed_by self.old handle)) cells.new }
    {
        self.remove(handle);
        self.remove_chains(cells);
    }

    /// Changes all live sessions, in the order of their creation.
    pub(crate) fn change_all(&mut self, change: Change)
        ensures { self.new ≡ with_changes self.old (change_by change) }
    {
        change_each(self.sessions.as_mut_slice(), change, &mut self.events);
    }

    /// All live sessions settle under the device's wish: in the order of their creation those that aren't its target, and then the
    /// target. Where all have settled, as behind most frames, there is nothing to do. OpenXR 1.0 chapter 9, "Session Lifecycle"; which
    /// session is the target is this project's own.
    pub(crate) fn settle(&mut self)
        ensures { self.new ≡ settled self.old }
    {
        let wish = self.device.wish();
        let target = target_of(self.sessions.as_slice());
        if have_settled(self.sessions.as_slice(), wish, target) {
            return;
        }
        self.change_all(Change::Others { wish, target });
        self.change_all(Change::Target { wish, target });
    }
}
