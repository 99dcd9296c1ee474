// Cells over borrowed ones, as a seat of a shared table will be: what is called on them comes to the cells that they borrow,
// which are back with their owner afterwards.
ghost use Rattle.std.specs.Prelude.{◌≡◌};

use xr_chains::PlainCells;
use xr_model::Cells;
use xr_types::Image;

/// Plain cells that are lent.
#[derive(Drop)]
pub(super) struct Lent<'a> {
    lent: &'a mut PlainCells,
}

impl<'a> Lent<'a> {
    /// A loan.
    pub(super) fn of(cells: &'a mut PlainCells) -> Lent<'a>
        ensures { result.lent ≡ cells.entry }
    {
        Lent { lent: cells }
    }
}

impl<'a> Cells for Lent<'a> {
    ghost use Rattle.xr_model.specs.machine.PlainImages.{PlainMay, PlainDoes};

    ghost may = { λ c x. PlainMay c.lent.now x };

    ghost does = { λ c x d. (d.lent.ghost_name ≡ c.lent.ghost_name) × PlainDoes c.lent.now x d.lent.now };

    fn pin(&mut self, image: Image) {
        self.lent.pin(image);
    }

    fn claim(&mut self, image: Image) -> bool {
        self.lent.claim(image)
    }

    fn free(&mut self, image: Image) {
        self.lent.free(image);
    }

    fn stamp(&mut self, image: Image, value: u64) {
        self.lent.stamp(image, value);
    }

    fn peek(&mut self, image: Image) -> u64 {
        self.lent.peek(image)
    }

    fn give_back(&mut self, image: Image) {
        self.lent.give_back(image);
    }
}
