// The words of images as cells.
ghost use Rattle.std.specs.Prelude.{false};
ghost use Rattle.xr_words.specs.Lending.{MayMakeOf, MakesOf};

use crate::steps::{claim_by, free_by, peek_by, pin_by, stamp_by};
use std::marker::Brand;
use xr_model::{Cells, Machine};
use xr_rule::{XrSeat, XrTable};
use xr_types::{Call, Image};

/// Cells that lie in a table's words, for one call of the seat that holds its lock. A claim decides the call's entry where it gets the
/// image, and where the call's time is up.
pub struct TableCells<'a, M: Machine> {
    /// The table.
    pub table: &'a XrTable<M>,
    /// The seat that holds its lock.
    pub seat: &'a mut XrSeat<M>,
    /// The call.
    pub call: &'a Call<'a>,
    /// Whether the call is a wait whose time is up.
    pub late: bool,
    /// Whether its entry is decided.
    pub decided: bool,
}

impl<'a, M: Machine> Cells for TableCells<'a, M> {
    ghost may = { MayMakeOf };

    ghost does = { MakesOf };

    fn pin(&mut self, image: Image) {
        pin_by::<M, Brand>(self.table, self.seat, image);
    }

    fn claim(&mut self, image: Image) -> bool {
        let found = claim_by::<M, Brand>(self.table, self.seat, self.call, self.late, image);
        let got = found == 0;
        if got || self.late {
            self.decided = true;
        }
        got
    }

    fn free(&mut self, image: Image) {
        free_by::<M, Brand>(self.table, self.seat, image);
    }

    fn stamp(&mut self, image: Image, value: u64) {
        stamp_by::<M, Brand>(self.table, self.seat, image, value);
    }

    fn peek(&mut self, image: Image) -> u64 {
        peek_by::<M, Brand>(self.table, self.seat, image)
    }

    /// It does nothing: an image is given back without the lock, by `give_back`.
    fn give_back(&mut self, _image: Image) {}
}
