// The images that layers show, each once, in the order of their first use.
ghost use Rattle.std.specs.Prelude.{◌≡◌, ◌≤◌, [], length};
ghost use Rattle.std.specs.List.{list_any};
ghost use Rattle.xr_model.specs.machine.Images.{is_image, with_image, with_images, with_images_of, images_of_layer};

use arrayvec::ArrayVec;
use xr_types::{FrameLayer, Image, MOST_LAYERS};

/// Whether two images are the same one.
fn is_image(i: Image, j: Image) -> bool
    ensures { result ≡ is_image i j }
{
    j.place == i.place && j.index == i.index
}

/// Whether an image is among these.
fn has(images: &[Image], image: Image) -> bool
    ensures { result ≡ list_any (is_image image) images.now }
{
    images.iter().any(|other| is_image(image, *other))
}

/// One more image, unless it is among them.
fn add_image(images: &mut ArrayVec<Image, MOST_LAYERS>, image: Image)
    requires { length (with_image images.old.items image) ≤ MOST_LAYERS }
    ensures { images.new.items ≡ with_image images.old.items image }
{
    if !has(images.as_slice(), image) {
        images.push(image);
    }
}

/// The images of one more layer, unless they are among them.
fn add_layer(images: &mut ArrayVec<Image, MOST_LAYERS>, layer: FrameLayer)
    requires { length (with_images images.old.items (images_of_layer layer)) ≤ MOST_LAYERS }
    ensures { images.new.items ≡ with_images images.old.items (images_of_layer layer) }
{
    match layer {
        FrameLayer::Projection(left, right) => {
            add_image(images, left);
            add_image(images, right);
        }
        FrameLayer::Quad(image) => add_image(images, image),
    }
}

/// The images of these layers, each once.
pub(crate) fn images_of(layers: &[FrameLayer]) -> ArrayVec<Image, MOST_LAYERS>
    requires { length (with_images_of [] layers.now) ≤ MOST_LAYERS }
    ensures { result.items ≡ with_images_of [] layers.now }
{
    let mut images = ArrayVec::new();
    for layer in layers {
        add_layer(&mut images, *layer);
    }
    images
}
