// What places of swapchains are kept by: live handles, and the images of frames. It changes nothing.
ghost use Rattle.std.specs.Prelude.{◌≡◌};
ghost use Rattle.std.specs.List.{list_any};
ghost use Rattle.xr_model.specs.machine.Chains.{has_place};

use xr_chains::Standing;
use xr_frames::Frames;
use xr_handles::Handles;
use xr_types::{Image, Kind};

/// The handles, the frames that are pending, and the images of the one that was taken last.
#[derive(Drop)]
pub(crate) struct Kept<'a> {
    pub(crate) handles: &'a Handles,
    pub(crate) frames: &'a Frames,
    pub(crate) shown: &'a [Image],
}

/// Whether an image of this place is among these.
fn has_place(images: &[Image], place: u8) -> bool
    ensures { result ≡ has_place place images.now }
{
    images.iter().any(|image| image.place == place)
}

impl Standing for Kept<'_> {
    ghost use Rattle.xr_model.specs.machine.Chains.{is_place_used};
    ghost use Rattle.xr_model.specs.machine.Handles.{is_live};
    ghost use Rattle.xr_types.specs.declared.handles.Kind.TheVariants.{Swapchain};

    ghost is_live = { λ x. is_live x.handles.now Swapchain };

    ghost is_used = { λ x. is_place_used x.frames.now.pending x.shown.now };

    fn is_live(&self, handle: u64) -> bool {
        self.handles.is_live(Kind::Swapchain, handle)
    }

    fn is_used(&self, place: u8) -> bool {
        self.frames.uses(place) || has_place(self.shown, place)
    }
}
