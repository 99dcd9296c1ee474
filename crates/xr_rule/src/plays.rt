//! What each step tells, and how views are cut and joined.
ghost use Rattle.xr_model.specs.machine.Calls.{Entry};
ghost use Rattle.std.specs.Prelude.{Bool, false};
ghost use Rattle.xr_types.specs.declared.frames.Image.{Image};
ghost use Rattle.xr_model.specs.machine.CellCalls.{CellCall, pin};
ghost use Rattle.xr_rule.specs.Plays.{no_entry, Draws, Looks, Notes, Serves, Makes, Peeks, Claims, GivesBack, Searches, Finds, Changes, Swaps, EntersFor, Reads, Leaves};
ghost use Rattle.xr_rule.specs.Seats.{stands_in};
ghost use Rattle.xr_rule.specs.View.{staying_view, cut_view, keepsake, joined_view, spent_view};

use crate::held::Held;
use crate::view::View;
use atomic_table::{Play, Split};
use std::marker::{Brand, PhantomData};
use xr_model::Machine;

/// A seat draws a ticket: it adds one to word 0.
pub struct Draw;

impl<M: Machine> Play<Option<Held<M>>, View> for Draw {
    ghost then = { Draws };
}

/// A seat with a ticket looks at word 1, and takes the slot where its ticket is served.
pub struct Look;

impl<M: Machine> Play<Option<Held<M>>, View> for Look {
    ghost then = { Looks (stands_in M.stands) };
}

/// The entry that a second look notes, which each call of it picks.
pub trait Noting {
    ghost entry: { Entry };
}

impl Noting for Brand {
    ghost entry = { no_entry };
}

/// The holder looks at word 1 once more, which notes its undecided entry.
pub struct Note<J> {
    of: PhantomData<J>,
}

impl<M: Machine, J: Noting> Play<Option<Held<M>>, View> for Note<J> {
    ghost then = { Notes J.entry };
}

/// The holder gives the slot back and serves the next ticket, by one more in word 1. This decides its entry.
pub struct Serve;

impl<M: Machine> Play<Option<Held<M>>, View> for Serve {
    ghost then = { Serves };
}

/// The call on cells that a step makes, or the image that it is made on, and the entry that a claim decides, which each step picks.
pub trait Making {
    ghost call: { CellCall };
}

impl Making for Brand {
    ghost call = { pin (record { place = 0; index = 0 }) };
}

/// The holder pins an image, or frees it, by its word, or sets its stamp.
pub struct Make<J> {
    of: PhantomData<J>,
}

impl<M: Machine, J: Making> Play<Option<Held<M>>, View> for Make<J> {
    ghost then = { Makes J.call };
}

/// The image whose stamp is looked at.
pub trait Peeking {
    ghost image: { Image };
}

impl Peeking for Brand {
    ghost image = { record { place = 0; index = 0 } };
}

/// The holder looks at a stamp.
pub struct Peek<J> {
    of: PhantomData<J>,
}

impl<M: Machine, J: Peeking> Play<Option<Held<M>>, View> for Peek<J> {
    ghost then = { Peeks J.image };
}

/// The wait that a claim decides, and whether its time is up.
pub trait Claiming {
    ghost entry: { Entry };

    ghost late: { Bool };
}

impl Claiming for Brand {
    ghost entry = { no_entry };

    ghost late = { false };
}

/// The holder claims an image, by its word. This decides the wait where the image is unused, or the time is up.
pub struct Claim<J> {
    of: PhantomData<J>,
}

impl<M: Machine, J: Claiming> Play<Option<Held<M>>, View> for Claim<J> {
    ghost then = { Claims J.entry J.late };
}

/// The compositor gives an image back, by its word and without the lock. This decides its entry.
pub struct GiveBack;

impl<M: Machine> Play<Option<Held<M>>, View> for GiveBack {
    ghost then = { GivesBack };
}

/// The holder looks at a buffer's exits, whether a seat is in it.
pub struct Search;

impl<M: Machine> Play<Option<Held<M>>, View> for Search {
    ghost then = { Searches };
}

/// The holder looks at the next word of the buffer that it writes, and leaves it.
pub struct Find;

impl<M: Machine> Play<Option<Held<M>>, View> for Find {
    ghost then = { Finds };
}

/// The holder writes another word in its place.
pub struct Change;

impl<M: Machine> Play<Option<Held<M>>, View> for Change {
    ghost then = { Changes };
}

/// The holder makes what it wrote the front. This decides its entry.
pub struct Swap;

impl<M: Machine> Play<Option<Held<M>>, View> for Swap {
    ghost then = { Swaps };
}

/// An application's seat enters the front, which decides its getter.
pub struct Enter<J> {
    of: PhantomData<J>,
}

impl<M: Machine, J: Noting> Play<Option<Held<M>>, View> for Enter<J> {
    ghost then = { EntersFor J.entry };
}

/// A seat looks at a word of the buffer that it is in.
pub struct Read;

impl<M: Machine> Play<Option<Held<M>>, View> for Read {
    ghost then = { Reads };
}

/// A seat leaves the buffer that it is in: it adds one to the buffer's exits.
pub struct Leave;

impl<M: Machine> Play<Option<Held<M>>, View> for Leave {
    ghost then = { Leaves };
}

/// A seat gives its second number away to a new one.
pub struct Cut;

impl Split<View> for Cut {
    ghost left = { staying_view };

    ghost right = { cut_view };
}

/// A new seat without a number keeps what a seat has seen.
pub struct Keep;

impl Split<View> for Keep {
    ghost left = { λ v. v };

    ghost right = { keepsake };
}

/// A seat takes in another with its numbers and what it saw.
pub struct Join;

impl atomic_table::Join<View> for Join {
    ghost both = { joined_view };

    ghost spent = { spent_view };
}
