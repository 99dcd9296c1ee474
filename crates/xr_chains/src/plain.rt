// Cells in plain memory.
ghost use Rattle.std.specs.Prelude.{◌≡◌, replicate};
ghost use Rattle.xr_model.specs.machine.Images.{slot_of};
ghost use Rattle.xr_model.specs.machine.PlainImages.{no_images, count_at, with_holder};

use std::marker::Model;
use xr_model::Cells;
use xr_types::{IMAGES, Image, SWAPCHAINS};

/// How many images there are: three for each place of a swapchain.
const SLOTS: usize = IMAGES * SWAPCHAINS;

/// Cells of one thread, in the value itself: for each image how many frames use it, whether an application has it, and its
/// stamp. Contracts see the machine's plain images.
#[derive(Drop)]
pub struct PlainCells {
    counts: [u64; SLOTS],
    holders: [bool; SLOTS],
    stamps: [u64; SLOTS],
}

impl Model for PlainCells {
    ghost use Rattle.xr_model.specs.machine.PlainImages.{PlainImages};

    ghost Value = { PlainImages };

    ghost view = { λ c. record { counts = c.counts; holders = c.holders; stamps = c.stamps } };
}

/// Where an image stands.
fn slot_of(image: Image) -> usize
    ensures { result ≡ slot_of image }
{
    IMAGES * image.place as usize + image.index as usize
}

impl PlainCells {
    /// No image is used, no application has one, and every stamp is 0. Takes no memory.
    pub fn new() -> PlainCells
        ensures { result ≡ no_images }
    {
        PlainCells {
            counts: [0; SLOTS],
            holders: [false; SLOTS],
            stamps: [0; SLOTS],
        }
    }

    /// How many frames use the image that stands there.
    fn count_at(&self, slot: usize) -> u64
        ensures { result ≡ count_at self.now slot }
    {
        if slot < SLOTS { self.counts[slot] } else { 0 }
    }

    /// An application has the image that stands there, or none has it.
    fn hold(&mut self, slot: usize, is_held: bool)
        ensures { self.new ≡ with_holder self.old slot is_held }
    {
        if slot < SLOTS {
            self.holders[slot] = is_held;
        }
    }
}

impl Cells for PlainCells {
    ghost use Rattle.xr_model.specs.machine.PlainImages.{PlainMay, PlainDoes};

    ghost may = { PlainMay };

    ghost does = { PlainDoes };

    fn pin(&mut self, image: Image) {
        let slot = slot_of(image);
        if slot < SLOTS {
            self.counts[slot] = self.counts[slot].saturating_add(1);
        }
    }

    fn claim(&mut self, image: Image) -> bool {
        let slot = slot_of(image);
        if self.count_at(slot) != 0 {
            return false;
        }
        self.hold(slot, true);
        true
    }

    fn free(&mut self, image: Image) {
        self.hold(slot_of(image), false);
    }

    fn stamp(&mut self, image: Image, value: u64) {
        let slot = slot_of(image);
        if slot < SLOTS {
            self.stamps[slot] = value;
        }
    }

    fn peek(&mut self, image: Image) -> u64 {
        let slot = slot_of(image);
        if slot < SLOTS { self.stamps[slot] } else { 0 }
    }

    fn give_back(&mut self, image: Image) {
        let slot = slot_of(image);
        if slot < SLOTS {
            self.counts[slot] = self.counts[slot].saturating_sub(1);
        }
    }
}
