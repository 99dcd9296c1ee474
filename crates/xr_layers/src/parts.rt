// A part of a swapchain's image: what refuses it, and the image that it shows.
ghost use Rattle.std.specs.Prelude.{◌≡◌, ◌+ℤ◌, int_le, pos};
ghost use Rattle.xr_model.specs.machine.Layers.{is_within, part_checks, part_image};
ghost use Rattle.xr_model.specs.machine.Refusals.{first_of};
ghost use Rattle.xr_model.specs.machine.PartAnswers.{or_refused};

use crate::look::Look;
use xr_types::{ChainInfo, Code, Image, SubImage};

/// Whether so many pixels from this one on end within a size. In pixels.
fn ends_within(from: i32, count: i32, size: u32) -> bool
    ensures { result ≡ int_le (from +ℤ count) (pos size) }
{
    from as i64 + count as i64 <= size as i64
}

/// Whether a part has at least one pixel, and all of it is in an image of the swapchain.
fn is_within(info: ChainInfo, part: SubImage) -> bool
    ensures { result ≡ is_within info part }
{
    if part.x < 0 || part.y < 0 || part.w < 1 || part.h < 1 {
        return false;
    }
    ends_within(part.x, part.w, info.width) && ends_within(part.y, part.h, info.height)
}

/// The image that a part shows, which is the one that its swapchain released last; or what refuses the part.
pub(crate) fn image_of<L: Look>(part: &SubImage, look: &L) -> Result<Image, Code>
    ensures { result ≡ or_refused (first_of (part_checks (L.look look.now) part.now)) (part_image (L.look look.now) part.now) }
{
    let Some(info) = look.chain(part.chain) else {
        return Err(Code::HandleInvalid);
    };
    if !is_within(info, *part) {
        return Err(Code::SwapchainRectInvalid);
    }
    match info.last {
        Some(image) => Ok(image),
        None => Err(Code::LayerInvalid),
    }
}
