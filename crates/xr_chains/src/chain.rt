// One place, and the swapchain that stands in it.
ghost use Rattle.std.specs.Prelude.{◌≡◌, ◌<◌, ◌==◌, ◌&&◌, not, [], ◌∷◌, false, Some, None, if◌then◌else◌};
ghost use Rattle.xr_types.specs.declared.limits.TheConstants.{IMAGES};
ghost use Rattle.xr_model.specs.machine.Chains.{free_place, kept_place, new_chain, is_chain, is_acquire_wrong, is_wait_wrong, is_paint_wrong, oldest_of, index_behind, unless_acquired, acquiring, waiting, releasing, info_of};
ghost use Rattle.xr_model.specs.machine.PartAnswers.{answer_by};
ghost use Rattle.xr_model.specs.machine.Refusals.{when, first_of, unless};
ghost use Rattle.xr_chains.specs.ChainsLeft.{left_one};

use crate::standing::Standing;
use arrayvec::ArrayVec;
use std::marker::Model;
use xr_types::{Answer, ChainInfo, Code, IMAGES, Image};

/// What a call is answered that comes out of order.
pub(crate) const OUT_OF_ORDER: Answer = Answer {
    code: Code::CallOrderInvalid,
    number: 0,
};

/// A place: the handle of its swapchain, 0 where the place is free; whether that was destroyed and keeps the place for frames
/// that show it; its width and height in pixels; whether it is a static one; the indices acquired, the oldest first; whether
/// the oldest was waited for; the index released last, where one was and isn't acquired again; and the index that is acquired
/// next, below 3. A place that is clear is free as it began, so that a sweep passes it by. Contracts see the machine's chain.
#[derive(Drop)]
pub(crate) struct Chain {
    handle: u64,
    is_destroyed: bool,
    width: u32,
    height: u32,
    is_static: bool,
    acquired: ArrayVec<u8, IMAGES>,
    has_waited: bool,
    last: Option<u8>,
    next: u8,
    is_clear: bool,
}

impl Model for Chain {
    ghost use Rattle.std.specs.Prelude.{◌≡◌, ◌≤◌, ◌<◌, true, length, if◌then◌else◌};
    ghost use Rattle.xr_types.specs.declared.limits.TheConstants.{IMAGES};
    ghost use Rattle.xr_model.specs.machine.Chains as machine;
    ghost use Rattle.xr_chains.specs.ChainsLeft.{IsFree};

    ghost Value = { machine.Chain };

    ghost view = { λ c. record {
      handle = c.handle;
      is_destroyed = c.is_destroyed;
      width = c.width;
      height = c.height;
      is_static = c.is_static;
      acquired = c.acquired.items;
      has_waited = c.has_waited;
      last = c.last;
      next = c.next;
    } };

    ghost invariant = { λ c. (c.next < IMAGES) × (length c.acquired.items ≤ (if c.is_static then c.next else IMAGES)) × (c.is_clear ≡ true → IsFree (record { handle = c.handle; is_destroyed = c.is_destroyed; width = c.width; height = c.height; is_static = c.is_static; acquired = c.acquired.items; has_waited = c.has_waited; last = c.last; next = c.next })) };
}

/// The index behind this one: they come in turn. That of a static swapchain comes once.
fn index_behind(is_static: bool, index: u8) -> u8
    requires { index < IMAGES }
    ensures { result ≡ index_behind is_static index }
{
    if is_static {
        1
    } else {
        (index + 1) % IMAGES as u8
    }
}

/// The last-released index once this one is acquired.
fn unless_acquired(index: u8, last: Option<u8>) -> Option<u8>
    ensures { result ≡ unless_acquired index last }
{
    match last {
        Some(released) if released != index => Some(released),
        _ => None,
    }
}

impl Chain {
    /// A free place.
    pub(crate) fn free() -> Chain
        ensures { result ≡ free_place }
    {
        let mut place = Chain::new(0, 0, 0, false);
        place.is_clear = true;
        place
    }

    /// A new swapchain: no image of it is acquired or was released.
    pub(crate) fn new(handle: u64, width: u32, height: u32, fixed: bool) -> Chain
        ensures { result ≡ new_chain handle width height fixed }
    {
        Chain {
            handle,
            is_destroyed: false,
            width,
            height,
            is_static: fixed,
            acquired: ArrayVec::new(),
            has_waited: false,
            last: None,
            next: 0,
            is_clear: false,
        }
    }

    /// A place that a destroyed swapchain keeps.
    fn kept(handle: u64) -> Chain
        ensures { result ≡ kept_place handle }
    {
        let mut place = Chain::new(handle, 0, 0, false);
        place.is_clear = false;
        place.is_destroyed = true;
        place
    }

    /// Whether the place is free.
    pub(crate) fn is_free(&self) -> bool
        ensures { result ≡ (self.now.handle == 0) }
    {
        self.handle == 0
    }

    /// Whether it is the swapchain with this handle. None is where the place is free, or was kept for a destroyed one.
    #[tactic(auto, unfolding(xr_model::specs::machine::Chains::is_chain))]
    pub(crate) fn is_chain(&self, handle: u64) -> bool
        ensures { result ≡ is_chain handle self.now }
    {
        self.handle == handle && !(self.is_free() || self.is_destroyed)
    }

    /// Whether every image is acquired; the one of a static swapchain may be acquired once.
    #[tactic(auto, unfolding(xr_model::specs::machine::Chains::is_acquire_wrong))]
    fn is_acquire_wrong(&self) -> bool
        ensures { result ≡ is_acquire_wrong (Some self.now) }
    {
        if self.is_static {
            self.next != 0
        } else {
            self.acquired.len() == IMAGES
        }
    }

    /// Whether nothing is acquired, or the oldest was waited for.
    #[tactic(auto, unfolding(xr_model::specs::machine::Chains::is_wait_wrong))]
    fn is_wait_wrong(&self) -> bool
        ensures { result ≡ is_wait_wrong (Some self.now) }
    {
        self.acquired.is_empty() || self.has_waited
    }

    /// Whether no image is waited for.
    #[tactic(auto, unfolding(xr_model::specs::machine::Chains::is_paint_wrong))]
    fn is_paint_wrong(&self) -> bool
        ensures { result ≡ is_paint_wrong (Some self.now) }
    {
        !self.has_waited
    }

    /// The index that was acquired first, or 0.
    fn oldest(&self) -> u8
        ensures { result ≡ oldest_of self.now.acquired }
    {
        match self.acquired.as_slice().first() {
            Some(index) => *index,
            None => 0,
        }
    }

    /// The image of that index, where the swapchain stands in this place.
    fn oldest_image(&self, place: u8) -> Image
        ensures { result ≡ record { place = place; index = oldest_of self.now.acquired } }
    {
        Image {
            place,
            index: self.oldest(),
        }
    }

    /// The image in this place that may be waited for, which is the one acquired first; none where nothing is acquired, or
    /// that one was waited for.
    pub(crate) fn front(&self, place: u8) -> Option<Image>
        ensures { result ≡ (if is_wait_wrong (Some self.now) then None else Some (record { place = place; index = oldest_of self.now.acquired })) }
    {
        if self.is_wait_wrong() {
            None
        } else {
            Some(self.oldest_image(place))
        }
    }

    /// The image in this place that was waited for.
    pub(crate) fn held(&self, place: u8) -> Option<Image>
        ensures { result ≡ (if is_paint_wrong (Some self.now) then None else Some (record { place = place; index = oldest_of self.now.acquired })) }
    {
        if self.is_paint_wrong() {
            None
        } else {
            Some(self.oldest_image(place))
        }
    }

    /// Acquires the next image, and gives its index. Refused is a call where none may be acquired (`CallOrderInvalid`).
    #[tactic(auto, unfolding(xr_model::specs::machine::Chains::is_acquire_wrong))]
    pub(crate) fn acquire(&mut self) -> Answer
        ensures answer { result ≡ answer_by (first_of (when (is_acquire_wrong (Some self.old)) Code.CallOrderInvalid ∷ [])) self.old.next }
        ensures chain { self.new ≡ unless (first_of (when (is_acquire_wrong (Some self.old)) Code.CallOrderInvalid ∷ [])) self.old (acquiring self.old) }
    {
        if self.is_acquire_wrong() {
            return OUT_OF_ORDER;
        }
        let index = self.next;
        self.is_clear = false;
        self.acquired.push(index);
        self.next = index_behind(self.is_static, index);
        self.last = unless_acquired(index, self.last);
        Answer {
            code: Code::Success,
            number: u64::from(index),
        }
    }

    /// The image that was acquired first was waited for.
    pub(crate) fn wait(&mut self)
        ensures { self.new ≡ waiting self.old }
    {
        self.is_clear = false;
        self.has_waited = true;
    }

    /// The image that was acquired first is released.
    pub(crate) fn release(&mut self)
        ensures { self.new ≡ releasing self.old }
    {
        self.is_clear = false;
        self.last = Some(self.oldest());
        self.acquired.pop_at(0);
        self.has_waited = false;
    }

    /// What a frame is told of it in this place.
    pub(crate) fn info(&self, place: u8) -> ChainInfo
        ensures { result ≡ info_of place self.now }
    {
        let last = match self.last {
            Some(index) => Some(Image { place, index }),
            None => None,
        };
        ChainInfo {
            width: self.width,
            height: self.height,
            last,
        }
    }

    /// The image in this place that the application waited for, where the swapchain isn't live.
    pub(crate) fn freed<S: Standing>(&self, place: u8, standing: &S) -> Option<Image>
        ensures { result ≡ (if not (S.is_live standing.now self.now.handle) && self.now.has_waited then Some (record { place = place; index = oldest_of self.now.acquired }) else None) }
    {
        if !standing.is_live(self.handle) && self.has_waited {
            Some(self.oldest_image(place))
        } else {
            None
        }
    }

    /// A swapchain that isn't live goes: this place is kept where frames use it, and is free where they don't. A clear place stays.
    pub(crate) fn sweep<S: Standing>(&mut self, place: u8, standing: &S)
        ensures { self.new ≡ left_one (S.is_live standing.now) (S.is_used standing.now place) self.old }
    {
        if self.is_clear || standing.is_live(self.handle) {
            return;
        }
        *self = if self.handle != 0 && standing.is_used(place) {
            Chain::kept(self.handle)
        } else {
            Chain::free()
        };
    }
}
