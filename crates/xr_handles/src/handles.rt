// The rows of all kinds, and the calls on them.
ghost use Rattle.std.specs.Prelude.{◌≡◌, ◌≢◌, ◌<◌, ◌^◌, ℕ, [], ◌∷◌, false, length, slice_index_or, is_some, None, IfSome, if◌then◌else◌};
ghost use Rattle.xr_model.specs.machine.Destroyed.{has_action};
ghost use Rattle.xr_model.specs.machine.Handles as model;
ghost use Rattle.xr_model.specs.machine.Handles.{no_handles, row_of, is_live, first_free, no_room, was_given, with_handle, without, without_alone};
ghost use Rattle.xr_model.specs.machine.HandlePlaces.{limit_of};
ghost use Rattle.xr_model.specs.machine.HandlePlaces.{kind_of, parent_of, is_below, place_of, place_among, handle_at};
ghost use Rattle.xr_model.specs.machine.Refusals.{first_of, unless};
ghost use Rattle.xr_model.specs.machine.PartAnswers.{answer_by};
ghost use Rattle.xr_model.specs.laws.HandleLaws.{StandOnce};
ghost use Rattle.xr_handles.specs.Numbers.{next_number};

use crate::row;
use arrayvec::ArrayVec;
use std::marker::Model;
use xr_types::{
    ACTION_SETS, ACTIONS, Answer, Code, INSTANCES, Kind, MOST_HANDLES, SESSIONS, SPACES,
    SWAPCHAINS, Slot,
};

/// The live handles, seen by contracts as the rows of the machine and the list of all that were given. Numbers
/// are counted up from 1, so none is given twice.
#[derive(Drop)]
pub struct Handles {
    instances: [Slot; INSTANCES],
    sessions: [Slot; SESSIONS],
    sets: [Slot; ACTION_SETS],
    actions: [Slot; ACTIONS],
    spaces: [Slot; SPACES],
    chains: [Slot; SWAPCHAINS],
    given: u64,
}

impl Model for Handles {
    ghost use Rattle.xr_model.specs.machine.Handles as model;
    ghost use Rattle.xr_handles.specs.HandleRows.{rows_of, IsKept};

    ghost Value = { model.Handles };

    ghost view = { λ h. rows_of h.given h.instances h.sessions h.sets h.actions h.spaces h.chains };

    ghost invariant = { λ h. IsKept (rows_of h.given h.instances h.sessions h.sets h.actions h.spaces h.chains) };
}

impl Handles {
    /// No handle is live, and none was given. The rows stand in the value itself, so that nothing later takes
    /// memory, and neither does this.
    pub fn start() -> Handles
        ensures { result ≡ no_handles }
    {
        Handles {
            instances: [row::FREE; INSTANCES],
            sessions: [row::FREE; SESSIONS],
            sets: [row::FREE; ACTION_SETS],
            actions: [row::FREE; ACTIONS],
            spaces: [row::FREE; SPACES],
            chains: [row::FREE; SWAPCHAINS],
            given: 0,
        }
    }

    /// How many handles were given.
    #[tactic(auto, using(crate::proofs::Numbers::count_of))]
    pub fn count(&self) -> u64
        ensures { result ≡ length self.now.given }
    {
        self.given
    }

    /// The row of a kind.
    fn row(&self, kind: Kind) -> &[Slot]
        ensures row { result.now ≡ row_of self.now kind }
        ensures limit { length result.now ≡ limit_of kind }
        ensures once { StandOnce self.now }
    {
        match kind {
            Kind::Instance => &self.instances,
            Kind::Session => &self.sessions,
            Kind::ActionSet => &self.sets,
            Kind::Action => &self.actions,
            Kind::Space => &self.spaces,
            Kind::Swapchain => &self.chains,
        }
    }

    /// Whether a handle is live and of this kind.
    pub fn is_live(&self, kind: Kind, handle: u64) -> bool
        ensures { result ≡ is_live self.now kind handle }
    {
        handle != 0 && row::has(self.row(kind), handle)
    }

    /// The kind of a live handle.
    pub fn kind_of(&self, handle: u64) -> Option<Kind>
        ensures { result ≡ kind_of self.now handle }
    {
        if self.is_live(Kind::Instance, handle) {
            return Some(Kind::Instance);
        }
        if self.is_live(Kind::Session, handle) {
            return Some(Kind::Session);
        }
        if self.is_live(Kind::ActionSet, handle) {
            return Some(Kind::ActionSet);
        }
        if self.is_live(Kind::Action, handle) {
            return Some(Kind::Action);
        }
        if self.is_live(Kind::Space, handle) {
            return Some(Kind::Space);
        }
        if self.is_live(Kind::Swapchain, handle) {
            return Some(Kind::Swapchain);
        }
        None
    }

    /// The parent of a live handle, 0 for an instance.
    pub fn parent_of(&self, handle: u64) -> Option<u64>
        ensures { result ≡ parent_of self.now handle }
    {
        match self.kind_of(handle) {
            Some(kind) => row::parent_in(self.row(kind), handle),
            None => None,
        }
    }

    /// The parent of a handle of this kind, 0 for an instance, where it is live.
    pub fn parent_among(&self, kind: Kind, handle: u64) -> Option<u64>
        ensures parent { result ≡ (if is_live self.now kind handle then parent_of self.now handle else None) }
        ensures live { is_some result ≡ is_live self.now kind handle }
    {
        let row = self.row(kind);
        if handle == 0 {
            return None;
        }
        row::parent_in(row, handle)
    }

    /// Whether a handle is live, of this kind, and below this parent.
    pub fn is_below(&self, kind: Kind, parent: u64, handle: u64) -> bool
        ensures { result ≡ is_below self.now kind parent handle }
    {
        match self.parent_among(kind, handle) {
            Some(above) => above == parent,
            None => false,
        }
    }

    /// The place of a live handle in the row of its kind, from 0.
    pub fn place_of(&self, handle: u64) -> Option<usize>
        ensures place { result ≡ place_of self.now handle }
        ensures within { IfSome result (λ place. IfSome (kind_of self.now handle) (λ kind. place < limit_of kind)) }
    {
        match self.kind_of(handle) {
            Some(kind) => row::place_in(self.row(kind), handle),
            None => None,
        }
    }

    /// The place of a handle of this kind in its row, from 0, where it is live.
    #[tactic(auto, using(crate::proofs::Places::place_is_there))]
    pub fn place_among(&self, kind: Kind, handle: u64) -> Option<usize>
        ensures place { result ≡ place_among self.now kind handle }
        ensures live { is_some result ≡ is_live self.now kind handle }
        ensures within { IfSome result (λ place. place < limit_of kind) }
    {
        if !self.is_live(kind, handle) {
            return None;
        }
        row::place_in(self.row(kind), handle)
    }

    /// The first free place of a kind, from 0, which the next handle of that kind takes.
    pub fn free_place(&self, kind: Kind) -> Option<usize>
        ensures place { result ≡ first_free (row_of self.now kind) }
        ensures within { IfSome result (λ place. place < limit_of kind) }
        ensures row { length (row_of self.now kind) ≡ limit_of kind }
    {
        row::free_place(self.row(kind))
    }

    /// The handle that stands in a place of a kind, 0 where none does.
    pub fn handle_at(&self, kind: Kind, place: usize) -> u64
        requires { place < limit_of kind }
        ensures { result ≡ handle_at (row_of self.now kind) place }
    {
        self.row(kind)[place].handle
    }

    /// In which places an action stands.
    pub fn actions(&self) -> [bool; ACTIONS]
        ensures { (place : ℕ) → slice_index_or result place false ≡ has_action self.now.actions place }
    {
        row::told_by_places(&self.actions)
    }

    /// Gives a new handle under a parent (0 for an instance), in the first free place of its kind. `LimitReached`
    /// comes exactly where no place is free, and then all is as it was.
    #[tactic(auto, using(crate::proofs::Numbers::new_number, crate::proofs::Numbers::count_of))]
    pub fn give(&mut self, kind: Kind, parent: u64) -> Answer
        requires { length self.old.given < 2 ^ 44 }
        ensures state { self.new ≡ unless (first_of (no_room self.old kind ∷ [])) self.old (with_handle self.old kind parent result.number) }
        ensures answer { result ≡ answer_by (first_of (no_room self.old kind ∷ [])) (next_number self.old) }
        ensures fresh { was_given self.old (next_number self.old) ≡ false }
        ensures row { length (row_of self.old kind) ≡ limit_of kind }
    {
        let handle = self.given + 1;
        let put = match kind {
            Kind::Instance => row::put(&mut self.instances, handle, parent),
            Kind::Session => row::put(&mut self.sessions, handle, parent),
            Kind::ActionSet => row::put(&mut self.sets, handle, parent),
            Kind::Action => row::put(&mut self.actions, handle, parent),
            Kind::Space => row::put(&mut self.spaces, handle, parent),
            Kind::Swapchain => row::put(&mut self.chains, handle, parent),
        };
        if !put {
            return Answer::plain(Code::LimitReached);
        }
        self.given = handle;
        Answer::numbered(handle)
    }

    /// Destroys a handle and all below it, and lists them: a level behind the one above it. Below an action nothing stands.
    pub fn destroy(&mut self, handle: u64, destroyed: &mut ArrayVec<u64, MOST_HANDLES>)
        requires { destroyed.old.items ≡ [] }
        ensures state { self.new ≡ without self.old handle }
        ensures destroyed { destroyed.new.items ≡ model.destroyed_by self.old handle }
    {
        if self.is_live(Kind::Action, handle) {
            row::clear(&mut self.actions, handle);
            destroyed.push(handle);
            return;
        }
        row::sweep(&mut self.instances, handle, &[], destroyed);
        let above = row::copied(destroyed);
        row::sweep(&mut self.sessions, handle, above.as_slice(), destroyed);
        row::sweep(&mut self.sets, handle, above.as_slice(), destroyed);
        let parents = row::copied(destroyed);
        row::sweep(&mut self.actions, handle, parents.as_slice(), destroyed);
        row::sweep(&mut self.spaces, handle, parents.as_slice(), destroyed);
        row::sweep(&mut self.chains, handle, parents.as_slice(), destroyed);
    }

    /// A handle was destroyed of a kind below which nothing stands: its place is free. Where it isn't live, all stays as it
    /// was. OpenXR 1.0 chapter 7, xrDestroySpace, and chapter 10, xrDestroySwapchain.
    pub fn remove(&mut self, kind: Kind, handle: u64)
        ensures { self.new ≡ without_alone self.old kind handle }
    {
        match kind {
            Kind::Instance => row::clear(&mut self.instances, handle),
            Kind::Session => row::clear(&mut self.sessions, handle),
            Kind::ActionSet => row::clear(&mut self.sets, handle),
            Kind::Action => row::clear(&mut self.actions, handle),
            Kind::Space => row::clear(&mut self.spaces, handle),
            Kind::Swapchain => row::clear(&mut self.chains, handle),
        }
    }
}
