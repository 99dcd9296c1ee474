//! What each actor's thread carries.
ghost use Rattle.std.specs.Prelude.{◌≡◌, length};

use arrayvec::ArrayVec;
use xr_core::Core;
use xr_rule::XrSeat;
use xr_types::{Image, MOST_LAYERS};

/// What an application's thread carries: it makes the calls of one application.
#[derive(Drop)]
pub struct AppPass {
    pub(crate) seat: XrSeat<Core>,
    pub(crate) app: u8,
    pub(crate) calls: u64,
    pub(crate) left: bool,
    pub(crate) clock: i64,
}

impl AppPass {
    /// Its seat, which knows the calls that it has made.
    pub fn seat(&self) -> &XrSeat<Core>
        ensures { result.now ≡ self.now.seat }
    {
        &self.seat
    }

    /// How many calls it has made.
    pub fn calls(&self) -> u64
        ensures { result ≡ self.now.calls }
    {
        self.calls
    }

    /// Whether it has left, so that it makes no further call.
    pub fn left(&self) -> bool
        ensures { result ≡ self.now.left }
    {
        self.left
    }

    /// The device's clock behind its last counted call, at which a wait for an image begins.
    pub fn clock(&self) -> i64
        ensures { result ≡ self.now.clock }
    {
        self.clock
    }
}

/// What the compositor's thread carries.
#[derive(Drop)]
pub struct CompositorPass {
    pub(crate) seat: XrSeat<Core>,
    pub(crate) calls: u64,
    pub(crate) held: ArrayVec<Image, MOST_LAYERS>,
    pub(crate) ended: bool,
}

impl CompositorPass {
    /// Its seat, which knows the calls that it has made.
    pub fn seat(&self) -> &XrSeat<Core>
        ensures { result.now ≡ self.now.seat }
    {
        &self.seat
    }

    /// How many calls it has made.
    pub fn calls(&self) -> u64
        ensures { result ≡ self.now.calls }
    {
        self.calls
    }

    /// How many images of the frame taken last aren't given back.
    pub fn held(&self) -> usize
        ensures { result ≡ length self.now.held.items }
    {
        self.held.len()
    }

    /// Whether it was told the end.
    pub fn ended(&self) -> bool
        ensures { result ≡ self.now.ended }
    {
        self.ended
    }
}

/// What the device's thread carries.
#[derive(Drop)]
pub struct DevicePass {
    pub(crate) seat: XrSeat<Core>,
    pub(crate) calls: u64,
}

impl DevicePass {
    /// Its seat, which knows the calls that it has made.
    pub fn seat(&self) -> &XrSeat<Core>
        ensures { result.now ≡ self.now.seat }
    {
        &self.seat
    }

    /// How many calls it has made.
    pub fn calls(&self) -> u64
        ensures { result ≡ self.now.calls }
    {
        self.calls
    }
}

/// All passes of a runtime: those of the applications in their order, the compositor's and the device's.
#[derive(Drop)]
pub struct Passes {
    pub apps: Vec<AppPass>,
    pub compositor: CompositorPass,
    pub device: DevicePass,
}
