// Frames, layers and images (OpenXR 1.0 chapter 10, "Rendering"). An image's content is one number, its stamp.
ghost use Rattle.std.specs.Prelude.{◌≡◌, ◌<◌, ◌++◌, [], ◌∷◌, length, refl};
ghost use Rattle.xr_types.specs.declared.frames.TheConstants.{MOST_LAYERS};
ghost use Rattle.xr_types.specs.Printed.{blend_name, all_blends};

use crate::Word;
use arrayvec::ArrayVec;
use std::marker::Model;

/// How many layers a frame has at most (OpenXR 1.0 chapter 10).
pub const MOST_LAYERS: usize = 16;

/// How a frame is blended with what is around (chapter 10, XrEnvironmentBlendMode).
#[derive(Clone, Copy)]
pub enum Blend {
    Opaque,
    Additive,
    Alpha,
}

impl Word for Blend {
    ghost printed = { blend_name };

    ghost listed = { all_blends };

    ghost own = { refl };

    fn word(self) -> &'static str {
        match self {
            Blend::Opaque => "opaque",
            Blend::Additive => "additive",
            Blend::Alpha => "alpha",
        }
    }

    fn all() -> &'static [Blend] {
        &[Blend::Opaque, Blend::Additive, Blend::Alpha]
    }
}

/// A part of a swapchain's image, in pixels (chapter 10, XrSwapchainSubImage).
#[derive(Clone, Copy, Default)]
pub struct SubImage {
    pub chain: u64,
    pub x: i32,
    pub y: i32,
    pub w: i32,
    pub h: i32,
}

/// A layer of a frame (chapter 10): a projection into a space, of which the first `count` views
/// count, or a quad with a pose in a space.
#[derive(Clone, Copy)]
pub enum Layer {
    Projection {
        space: u64,
        count: u8,
        views: [SubImage; 4],
    },
    Quad {
        space: u64,
        image: SubImage,
        pose: u64,
    },
}

impl Default for Layer {
    fn default() -> Layer {
        Layer::Quad {
            space: 0,
            image: SubImage::default(),
            pose: 0,
        }
    }
}

/// A layer that the compositor shows, by the stamps of its images.
#[derive(Clone, Copy)]
pub enum ShownLayer {
    Projection(u64, u64),
    Quad(u64),
}

impl Default for ShownLayer {
    fn default() -> ShownLayer {
        ShownLayer::Quad(0)
    }
}

/// The layers of a frame that is shown, at most 16, which stand in the value itself. Contracts see the list of them.
#[derive(Drop)]
pub struct ShownLayers {
    kept: ArrayVec<ShownLayer, MOST_LAYERS>,
}

impl Model for ShownLayers {
    ghost use Rattle.std.specs.Prelude.{List};
    ghost use Rattle.xr_types.specs.declared.frames.ShownLayer.{ShownLayer};

    ghost Value = { List ShownLayer };

    ghost view = { λ l. l.kept.items };
}

impl ShownLayers {
    /// No layer.
    pub fn new() -> ShownLayers
        ensures { result ≡ [] }
    {
        ShownLayers {
            kept: ArrayVec::new(),
        }
    }

    pub fn as_slice(&self) -> &[ShownLayer]
        ensures { result.now ≡ self.now }
    {
        self.kept.as_slice()
    }

    /// No layer from now on.
    pub fn clear(&mut self)
        ensures { self.new ≡ [] }
    {
        self.kept.clear();
    }

    /// One more layer behind them.
    pub fn push(&mut self, layer: ShownLayer)
        requires { length self.old < MOST_LAYERS }
        ensures { self.new ≡ self.old ++ layer ∷ [] }
    {
        self.kept.push(layer);
    }
}

impl Default for ShownLayers {
    fn default() -> ShownLayers {
        ShownLayers::new()
    }
}

/// A frame that the compositor shows: its number from 1, its predicted time in ns of device time, and its layers.
#[derive(Default, Drop)]
pub struct Shown {
    pub number: u64,
    pub time: i64,
    pub layers: ShownLayers,
}

/// An image, by its chain's place from 0 and its index in the chain.
#[derive(Clone, Copy, Default)]
pub struct Image {
    pub place: u8,
    pub index: u8,
}

/// What a frame is told of a swapchain that it shows: its width and height in pixels, 1 to 8192, and the image that was
/// released last, where one was and isn't acquired again.
#[derive(Clone, Copy)]
pub struct ChainInfo {
    pub width: u32,
    pub height: u32,
    pub last: Option<Image>,
}

/// A layer of a pending frame, by its images.
#[derive(Clone, Copy)]
pub enum FrameLayer {
    Projection(Image, Image),
    Quad(Image),
}

impl Default for FrameLayer {
    fn default() -> FrameLayer {
        FrameLayer::Quad(Image::default())
    }
}

/// A frame that was ended: its number from 1, its time in ns of device time, its layers, and the
/// distinct images that they use in the order of first use. Contracts see layers and images as lists.
#[derive(Drop)]
pub struct Frame {
    pub number: u64,
    pub time: i64,
    pub layers: ArrayVec<FrameLayer, MOST_LAYERS>,
    pub images: ArrayVec<Image, MOST_LAYERS>,
}

impl Model for Frame {
    ghost use Rattle.xr_types.specs.Frames.{PendingFrame};

    ghost Value = { PendingFrame };

    ghost view = { λ f. record { number = f.number; time = f.time; layers = f.layers.items; images = f.images.items } };
}

impl Default for Frame {
    fn default() -> Frame {
        Frame {
            number: 0,
            time: 0,
            layers: ArrayVec::new(),
            images: ArrayVec::new(),
        }
    }
}
