// What places are kept by. It knows no sessions and no frames.
ghost use Rattle.std.specs.Prelude.{◌≡◌, ℕ, Bool};

/// What places are kept by: which swapchains are live, and which places frames use. OpenXR 1.0 chapter 10,
/// xrDestroySwapchain.
pub trait Standing {
    ghost is_live: { Self → ℕ → Bool };

    ghost is_used: { Self → ℕ → Bool };

    /// Whether a handle is a live swapchain.
    fn is_live(&self, handle: u64) -> bool
        ensures { result ≡ is_live self.now handle };

    /// Whether a frame that is pending, or the one taken last, has an image of this place.
    fn is_used(&self, place: u8) -> bool
        ensures { result ≡ is_used self.now place };
}
