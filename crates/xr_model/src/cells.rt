// Cells: what a core keeps of images in words of their own.
ghost use Rattle.std.specs.Prelude.{ℕ, Bool};
ghost use Rattle.xr_model.specs.machine.CellCalls.{CellCall, pin, claim, free, stamp, peek, give_back};

use xr_types::Image;

/// For each image how many frames use it, whether an application has it, and its stamp (OpenXR 1.0 chapter 10, "Swapchain Image
/// Management"). Other threads may see and change the same cells between two calls, so all that is known of a call is its
/// condition, and the relation between the cells before and after it. A kind of cells over a borrowed value says in that
/// relation that the value is the same one afterwards.
pub trait Cells {
    /// Whether a call may be made. It says the same whatever the call will answer.
    ghost may: { Self → CellCall → Type 0 };

    /// What a call with its answer makes of the cells.
    ghost does: { Self → CellCall → Self → Type 0 };

    /// One more frame uses the image.
    fn pin(&mut self, image: Image)
        requires { may self.old (pin image) }
        ensures { does self.old (pin image) self.new };

    /// An application claims the image; whether it got it, which is where no frame uses it.
    fn claim(&mut self, image: Image) -> bool
        requires { (answer : Bool) → may self.old (claim image answer) }
        ensures { does self.old (claim image result) self.new };

    /// The application has the image no longer.
    fn free(&mut self, image: Image)
        requires { may self.old (free image) }
        ensures { does self.old (free image) self.new };

    /// The image gets this stamp.
    fn stamp(&mut self, image: Image, value: u64)
        requires { may self.old (stamp image value) }
        ensures { does self.old (stamp image value) self.new };

    /// The image's stamp.
    fn peek(&mut self, image: Image) -> u64
        requires { (answer : ℕ) → may self.old (peek image answer) }
        ensures { does self.old (peek image result) self.new };

    /// The compositor gives the image back: one frame less uses it.
    fn give_back(&mut self, image: Image)
        requires { may self.old (give_back image) }
        ensures { does self.old (give_back image) self.new };
}
