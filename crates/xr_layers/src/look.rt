// What is told of the live spaces and swapchains. It knows no layers.
ghost use Rattle.std.specs.Prelude.{◌≡◌};
ghost use Rattle.xr_model.specs.machine.Layers as machine;
ghost use Rattle.xr_layers.specs.Sound.{AreSound};

use xr_types::ChainInfo;

/// What a frame is checked against: the live spaces and swapchains. By the law `sound` an image that was released last has a
/// place below `SWAPCHAINS`, and two of one place are the same. OpenXR 1.0 chapter 10, xrEndFrame.
pub trait Look {
    ghost look: { Self → machine.Look };

    /// Whether a handle is a live space.
    fn space(&self, handle: u64) -> bool
        ensures { result ≡ (look self.now).space handle };

    /// What a frame is told of a swapchain, where the handle is a live one.
    fn chain(&self, handle: u64) -> Option<ChainInfo>
        ensures { result ≡ (look self.now).chain handle };

    ghost sound: { (x : Self) → AreSound (look x).chain };
}
