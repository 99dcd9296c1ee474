// A pending frame as it is shown: its layers by the stamps of their images. It knows no cells.
ghost use Rattle.std.specs.Prelude.{◌≡◌, ◌≤◌, length};
ghost use Rattle.xr_model.specs.machine.Images.{is_image, stamp_among, shown_layer, shown_of};

use xr_types::{Frame, FrameLayer, Image, Shown, ShownLayer};

/// Whether two images are the same one.
fn is_image(i: Image, j: Image) -> bool
    ensures { result ≡ is_image i j }
{
    j.place == i.place && j.index == i.index
}

/// The stamp of an image, where these images have these stamps.
fn stamp_among(images: &[Image], stamps: &[u64], image: Image) -> u64
    ensures { result ≡ stamp_among images.now stamps.now image }
{
    let count = images.len();
    for place in 0..count {
        if is_image(image, images[place]) {
            return *stamps.get(place).unwrap_or(&0);
        }
    }
    0
}

/// A layer as it is shown, where these images have these stamps.
fn shown_layer(layer: FrameLayer, images: &[Image], stamps: &[u64]) -> ShownLayer
    ensures { result ≡ shown_layer (stamp_among images.now stamps.now) layer }
{
    match layer {
        FrameLayer::Projection(left, right) => ShownLayer::Projection(
            stamp_among(images, stamps, left),
            stamp_among(images, stamps, right),
        ),
        FrameLayer::Quad(image) => ShownLayer::Quad(stamp_among(images, stamps, image)),
    }
}

/// Shows a frame, told the stamps of its images in their order.
pub(crate) fn show(frame: &Frame, stamps: &[u64], shown: &mut Shown)
    ensures { shown.new ≡ shown_of frame.now stamps.now }
{
    shown.number = frame.number;
    shown.time = frame.time;
    shown.layers.clear();
    for layer in frame.layers.as_slice() {
        shown
            .layers
            .push(shown_layer(*layer, frame.images.as_slice(), stamps));
    }
}
