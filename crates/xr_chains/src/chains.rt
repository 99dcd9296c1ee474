// The swapchains in their places, and the calls on them. What a call does to images it does by calls on cells.
ghost use Rattle.std.specs.Prelude.{◌≡◌, [], ◌∷◌, true, None, Some, if◌then◌else◌};
ghost use Rattle.xr_model.specs.machine.CellCalls.{MayCall, Leads, stamp_calls, free_calls};
ghost use Rattle.xr_model.specs.machine.Chains.{no_chains, new_chain, chain_at, chain_checks, is_format, is_size, has_free_place, no_place, first_place, with_chain, with_chain_at, is_acquire_wrong, is_wait_wrong, is_paint_wrong, next_index, acquiring, waiting, releasing, oldest_image, info_at};
ghost use Rattle.xr_model.specs.machine.Images.{unstamped};
ghost use Rattle.xr_model.specs.machine.PartAnswers.{code_by, answer_by};
ghost use Rattle.xr_model.specs.machine.Refusals.{when, first_of, unless};
ghost use Rattle.xr_chains.specs.ChainsLeft.{left_where, freed_where};
ghost use Rattle.xr_chains.specs.Waited.{waited_images};

use crate::chain::{Chain, OUT_OF_ORDER};
use crate::places::{
    free_each, free_place, front_at, held_at, info_at, place_of, put, release_at, sweep_each,
    wait_at,
};
use crate::standing::Standing;
use std::marker::Model;
use xr_model::Cells;
use xr_types::{Answer, ChainInfo, Code, Image, SWAPCHAINS};

/// The swapchains in their places, of which there are 16: a swapchain keeps its place as long as it lives, and while frames
/// use images of that place. All of it stands in the value itself. Contracts see the machine's list of places.
#[derive(Drop)]
pub struct Chains {
    places: [Chain; SWAPCHAINS],
}

impl Model for Chains {
    ghost use Rattle.std.specs.Prelude.{List};
    ghost use Rattle.xr_model.specs.machine.Chains as machine;

    ghost Value = { List machine.Chain };

    ghost view = { λ c. c.places };
}

/// Whether images may have this format.
fn is_format(format: u64) -> bool
    ensures { result ≡ is_format format }
{
    matches!(format, 1 | 2 | 3)
}

/// Whether images may be as wide or as high, in pixels.
fn is_size(pixels: u32) -> bool
    ensures { result ≡ is_size pixels }
{
    (1..=8192).contains(&pixels)
}

/// The images of a place get the stamp 0.
fn unstamp<C: Cells>(cells: &mut C, place: u8)
    requires { MayCall C.may C.does cells.old (stamp_calls (unstamped place)) }
    ensures { Leads C.does cells.old (stamp_calls (unstamped place)) cells.new }
{
    cells.stamp(Image { place, index: 0 }, 0);
    cells.stamp(Image { place, index: 1 }, 0);
    cells.stamp(Image { place, index: 2 }, 0);
}

impl Chains {
    /// Every place is free. Takes no memory.
    pub fn start() -> Chains
        ensures { result ≡ no_chains }
    {
        Chains {
            places: std::array::from_fn(|_| Chain::free()),
        }
    }

    /// Checks a swapchain that is asked for, by its format and by its width and height in pixels. Refused are, in this order,
    /// a format that isn't 1, 2 or 3 (`SwapchainFormatUnsupported`), and a width or height outside 1 to 8192
    /// (`ValidationFailure`); else it is a `Success`. OpenXR 1.0 chapter 10, xrCreateSwapchain.
    pub fn check(format: u64, width: u32, height: u32) -> Code
        ensures { result ≡ code_by (first_of (chain_checks format width height)) }
    {
        if !is_format(format) {
            Code::SwapchainFormatUnsupported
        } else if !(is_size(width) && is_size(height)) {
            Code::ValidationFailure
        } else {
            Code::Success
        }
    }

    /// Whether a place is free.
    pub fn has_room(&self) -> bool
        ensures { result ≡ has_free_place self.now }
    {
        self.places.iter().any(|chain| chain.is_free())
    }

    /// A swapchain was created, with a new handle that isn't 0: it stands in the first free place, and the images of that
    /// place get the stamp 0. Refused is a call where no place is free (`LimitReached`), which leaves all as it was. OpenXR 1.0
    /// chapter 10, xrCreateSwapchain.
    #[tactic(auto, using(crate::proofs::ChainPlaces::a_place_is_free, crate::proofs::ChainPlaces::no_place_is_free))]
    pub fn add<C: Cells>(
        &mut self,
        cells: &mut C,
        handle: u64,
        width: u32,
        height: u32,
        fixed: bool,
    ) -> Code
        requires may { has_free_place self.old ≡ true → MayCall C.may C.does cells.old (stamp_calls (unstamped (first_place self.old))) }
        ensures code { result ≡ code_by (first_of (no_place self.old ∷ [])) }
        ensures chains { self.new ≡ unless (first_of (no_place self.old ∷ [])) self.old (with_chain self.old (new_chain handle width height fixed)) }
        ensures cells { Leads C.does cells.old (stamp_calls (unless (first_of (no_place self.old ∷ [])) [] (unstamped (first_place self.old)))) cells.new }
    {
        let Some(place) = free_place(&self.places) else {
            return Code::LimitReached;
        };
        unstamp(cells, place as u8);
        put(
            &mut self.places,
            place,
            Chain::new(handle, width, height, fixed),
        );
        Code::Success
    }

    /// Acquires the next image of a swapchain, and gives its index, from 0 to 2: the indices come in turn. Refused is a call
    /// where all three images are acquired, where the one image of a static swapchain was acquired before, or where no
    /// swapchain has the handle (`CallOrderInvalid`); it leaves all as it was. OpenXR 1.0 chapter 10,
    /// xrAcquireSwapchainImage.
    #[tactic(auto, using(crate::proofs::ChainPlaces::no_chain, crate::proofs::ChainPlaces::found_at), unfolding(xr_model::specs::machine::Chains::is_acquire_wrong))]
    pub fn acquire(&mut self, handle: u64) -> Answer
        ensures answer { result ≡ answer_by (first_of (when (is_acquire_wrong (chain_at self.old handle)) Code.CallOrderInvalid ∷ [])) (next_index (chain_at self.old handle)) }
        ensures chains { self.new ≡ unless (first_of (when (is_acquire_wrong (chain_at self.old handle)) Code.CallOrderInvalid ∷ [])) self.old (with_chain_at handle acquiring self.old) }
    {
        match place_of(&self.places, handle) {
            Some(place) => self.places[place].acquire(),
            None => OUT_OF_ORDER,
        }
    }

    /// The image of a swapchain that may be waited for: the one that was acquired first and not released. There is none where
    /// nothing is acquired, where that image was waited for, and where no swapchain has the handle. OpenXR 1.0 chapter 10,
    /// xrWaitSwapchainImage.
    #[tactic(auto, using(crate::proofs::ChainPlaces::no_chain), unfolding(xr_model::specs::machine::Chains::is_wait_wrong))]
    pub fn front(&self, handle: u64) -> Option<Image>
        ensures { result ≡ (if is_wait_wrong (chain_at self.now handle) then None else Some (oldest_image self.now handle)) }
    {
        let place = place_of(&self.places, handle)?;
        front_at(&self.places, handle, place)
    }

    /// The image that `front` gives was waited for. OpenXR 1.0 chapter 10, xrWaitSwapchainImage.
    #[tactic(auto, using(crate::proofs::ChainPlaces::nothing_changes))]
    pub fn waited(&mut self, handle: u64)
        ensures { self.new ≡ with_chain_at handle waiting self.old }
    {
        if let Some(place) = place_of(&self.places, handle) {
            wait_at(&mut self.places, handle, place);
        }
    }

    /// The image of a swapchain that was waited for and not released, where there is one. OpenXR 1.0 chapter 10,
    /// xrWaitSwapchainImage.
    #[tactic(auto, using(crate::proofs::ChainPlaces::no_chain), unfolding(xr_model::specs::machine::Chains::is_paint_wrong))]
    pub fn held(&self, handle: u64) -> Option<Image>
        ensures { result ≡ (if is_paint_wrong (chain_at self.now handle) then None else Some (oldest_image self.now handle)) }
    {
        let place = place_of(&self.places, handle)?;
        held_at(&self.places, handle, place)
    }

    /// Releases the image of a swapchain that was waited for: it is the one released last from now on, and the application
    /// has it no longer. Refused is a call where no image was waited for, or no swapchain has the handle
    /// (`CallOrderInvalid`); it leaves all as it was. OpenXR 1.0 chapter 10, xrReleaseSwapchainImage.
    #[tactic(auto, using(crate::proofs::ChainPlaces::no_chain), unfolding(xr_model::specs::machine::Chains::is_paint_wrong))]
    pub fn release<C: Cells>(&mut self, cells: &mut C, handle: u64) -> Code
        requires may { MayCall C.may C.does cells.old (free_calls (waited_images self.old handle)) }
        ensures code { result ≡ code_by (first_of (when (is_paint_wrong (chain_at self.old handle)) Code.CallOrderInvalid ∷ [])) }
        ensures chains { self.new ≡ unless (first_of (when (is_paint_wrong (chain_at self.old handle)) Code.CallOrderInvalid ∷ [])) self.old (with_chain_at handle releasing self.old) }
        ensures cells { Leads C.does cells.old (free_calls (waited_images self.old handle)) cells.new }
    {
        let Some(place) = place_of(&self.places, handle) else {
            return Code::CallOrderInvalid;
        };
        let Some(image) = held_at(&self.places, handle, place) else {
            return Code::CallOrderInvalid;
        };
        release_at(&mut self.places, handle, place);
        cells.free(image);
        Code::Success
    }

    /// What a frame is told of a swapchain: its size, and the image that was released last, where one was and isn't acquired
    /// again. Nothing where no swapchain has the handle. OpenXR 1.0 chapter 10, xrEndFrame.
    #[tactic(auto, using(crate::proofs::ChainPlaces::no_chain))]
    pub fn info(&self, handle: u64) -> Option<ChainInfo>
        ensures { result ≡ info_at self.now handle }
    {
        let place = place_of(&self.places, handle)?;
        Some(info_at(&self.places, handle, place))
    }

    /// Swapchains were destroyed: those that aren't live any more go. Of these the application has the images that it waited
    /// for no longer, in the order of places. A place whose swapchain isn't live is kept where frames use it, and is free
    /// where they don't. OpenXR 1.0 chapter 10, xrDestroySwapchain.
    pub fn remove<C: Cells, S: Standing>(&mut self, cells: &mut C, standing: &S)
        requires may { MayCall C.may C.does cells.old (free_calls (freed_where (S.is_live standing.now) 0 self.old)) }
        ensures chains { self.new ≡ left_where (S.is_live standing.now) (S.is_used standing.now) 0 self.old }
        ensures cells { Leads C.does cells.old (free_calls (freed_where (S.is_live standing.now) 0 self.old)) cells.new }
    {
        free_each(&self.places, cells, standing);
        sweep_each(&mut self.places, standing);
    }

    /// A place whose swapchain isn't live is kept where frames use it, and is free where they don't. So what a compositor
    /// frees when it takes a frame are the places that destroyed swapchains kept for frames before it, which is this
    /// project's own. OpenXR 1.0 chapter 10, xrDestroySwapchain.
    pub fn sweep<S: Standing>(&mut self, standing: &S)
        ensures { self.new ≡ left_where (S.is_live standing.now) (S.is_used standing.now) 0 self.old }
    {
        sweep_each(&mut self.places, standing);
    }
}
