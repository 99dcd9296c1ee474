// The layers of a frame: what refuses them, and what they show.
ghost use Rattle.std.specs.Prelude.{◌≡◌, ◌≤◌, ◌==◌, [], ◌∷◌, length, flat_map, not, IfOk, OnOk};
ghost use Rattle.xr_model.specs.machine.Images.{with_images_of};
ghost use Rattle.xr_model.specs.machine.Layers.{frame_checks, form_checks, layer_checks, layer_of, layers_of};
ghost use Rattle.xr_model.specs.machine.PartAnswers.{code_by};
ghost use Rattle.xr_model.specs.machine.Refusals.{first_of, unless, when};
ghost use Rattle.xr_model.specs.machine.PartAnswers.{or_refused};
ghost use Rattle.xr_layers.specs.Filled.{filled};

use crate::images::images_of;
use crate::look::Look;
use crate::parts::image_of;
use arrayvec::ArrayVec;
use xr_types::{Blend, Code, Frame, FrameLayer, Layer, MOST_LAYERS, SubImage};

/// What refuses the space of a layer.
fn check_space<L: Look>(space: u64, look: &L) -> Result<(), Code>
    ensures { result ≡ or_refused (first_of (when (not ((L.look look.now).space space)) Code.HandleInvalid ∷ [])) tt }
{
    if look.space(space) {
        Ok(())
    } else {
        Err(Code::HandleInvalid)
    }
}

/// What refuses the space of a projection, or else the number of its views.
fn check_views<L: Look>(space: u64, count: u8, look: &L) -> Result<(), Code>
    ensures { result ≡ or_refused (first_of (when (not ((L.look look.now).space space)) Code.HandleInvalid ∷ when (not (count == 2)) Code.ValidationFailure ∷ [])) tt }
{
    check_space(space, look)?;
    if count == 2 {
        Ok(())
    } else {
        Err(Code::ValidationFailure)
    }
}

/// A projection by its images, or what refuses it.
fn show_projection<L: Look>(
    space: u64,
    count: u8,
    views: &[SubImage; 4],
    look: &L,
) -> Result<FrameLayer, Code>
    ensures { result ≡ or_refused (first_of (layer_checks (L.look look.now) (Layer.Projection space count views.now))) (layer_of (L.look look.now) (Layer.Projection space count views.now)) }
{
    check_views(space, count, look)?;
    let left = image_of(&views[0], look)?;
    let right = image_of(&views[1], look)?;
    Ok(FrameLayer::Projection(left, right))
}

/// A quad by its image, or what refuses it.
fn show_quad<L: Look>(space: u64, part: &SubImage, pose: u64, look: &L) -> Result<FrameLayer, Code>
    ensures { result ≡ or_refused (first_of (layer_checks (L.look look.now) (Layer.Quad space part.now pose))) (layer_of (L.look look.now) (Layer.Quad space part.now pose)) }
{
    check_space(space, look)?;
    let image = image_of(part, look)?;
    if pose == 0 {
        return Err(Code::PoseInvalid);
    }
    Ok(FrameLayer::Quad(image))
}

/// A layer by its images, or what refuses it.
fn show_layer<L: Look>(layer: &Layer, look: &L) -> Result<FrameLayer, Code>
    ensures { result ≡ or_refused (first_of (layer_checks (L.look look.now) layer.now)) (layer_of (L.look look.now) layer.now) }
{
    match layer {
        Layer::Projection {
            space,
            count,
            views,
        } => show_projection(*space, *count, views, look),
        Layer::Quad { space, image, pose } => show_quad(*space, image, *pose, look),
    }
}

/// The layers of a frame by their images, or what refuses the first of them that is refused.
fn show_layers<L: Look>(
    layers: &[Layer],
    look: &L,
) -> Result<ArrayVec<FrameLayer, MOST_LAYERS>, Code>
    requires { length layers.now ≤ MOST_LAYERS }
    ensures shown { result ≡ or_refused (first_of (flat_map (layer_checks (L.look look.now)) layers.now)) (record { items = layers_of (L.look look.now) layers.now }) }
    ensures few { IfOk result (λ shown. length (with_images_of [] shown.items) ≤ MOST_LAYERS) }
{
    let mut shown = ArrayVec::new();
    for layer in layers {
        shown.push(show_layer(layer, look)?);
    }
    Ok(shown)
}

/// What refuses the time of a frame, in ns of device time, its blend mode, and how many layers it has.
fn check_form(time: i64, blend: Blend, layers: &[Layer]) -> Result<(), Code>
    ensures form { result ≡ or_refused (first_of (form_checks time blend layers.now)) tt }
    ensures few { OnOk result (length layers.now ≤ MOST_LAYERS) }
{
    if time <= 0 {
        return Err(Code::TimeInvalid);
    }
    match blend {
        Blend::Opaque => {}
        Blend::Additive | Blend::Alpha => return Err(Code::EnvironmentBlendModeUnsupported),
    }
    if layers.len() > MOST_LAYERS {
        return Err(Code::LayerLimitExceeded);
    }
    Ok(())
}

/// The layers of a frame with this time, in ns of device time, by their images, or what refuses the frame.
fn show<L: Look>(
    time: i64,
    blend: Blend,
    layers: &[Layer],
    look: &L,
) -> Result<ArrayVec<FrameLayer, MOST_LAYERS>, Code>
    ensures shown { result ≡ or_refused (first_of (frame_checks (L.look look.now) time blend layers.now)) (record { items = layers_of (L.look look.now) layers.now }) }
    ensures few { IfOk result (λ shown. length (with_images_of [] shown.items) ≤ MOST_LAYERS) }
{
    check_form(time, blend, layers)?;
    show_layers(layers, look)
}

/// Checks a frame, whose time is in ns of device time, and fills it where nothing refuses it: its time, its layers by their
/// images, and these images, each once. Its number stays. Refused are, in this order: a time below 1 (`TimeInvalid`), a blend
/// mode other than opaque (`EnvironmentBlendModeUnsupported`), and more than 16 layers (`LayerLimitExceeded`); and then, layer
/// by layer: a space that isn't live (`HandleInvalid`), and a projection of other than 2 views (`ValidationFailure`); for each
/// image a swapchain that isn't live (`HandleInvalid`), a part that is empty or not within the image (`SwapchainRectInvalid`),
/// and a swapchain that released no image last (`LayerInvalid`); and a quad without a pose (`PoseInvalid`). A refused frame
/// stays as it was. OpenXR 1.0 chapter 10, xrEndFrame.
pub fn check<L: Look>(time: i64, blend: Blend, layers: &[Layer], look: &L, out: &mut Frame) -> Code
    ensures code { result ≡ code_by (first_of (frame_checks (L.look look.now) time blend layers.now)) }
    ensures frame { out.new ≡ unless (first_of (frame_checks (L.look look.now) time blend layers.now)) out.old (filled out.old time (L.look look.now) layers.now) }
{
    match show(time, blend, layers, look) {
        Ok(shown) => {
            out.time = time;
            out.images = images_of(shown.as_slice());
            out.layers = shown;
            Code::Success
        }
        Err(code) => code,
    }
}
