// The table with its rule.
ghost use Rattle.std.specs.Prelude.{◌≡◌, ◌<◌};
ghost use Rattle.xr_model.specs.laws.ImageLaws.{IsPlaced};
ghost use Rattle.xr_rule.specs.Rule.{front_word, image_word, stamp_word, word_count};
ghost use Rattle.xr_rule.specs.Shows.{buffers, buffer_words, exit_word, state_word};

use crate::beside::Beside;
use crate::held::Held;
use crate::view::View;
use atomic_table::{Table, TableRule};
use std::alloc::Global;
use std::marker::PhantomData;
use xr_model::Machine;
use xr_types::{IMAGES, Image, MOST_WORDS, SWAPCHAINS};

/// How many words are left unused, so that no line of a processor's cache has words of both sides.
const APART: usize = 8;

/// Where the images' words begin, behind the next ticket and the one that is served.
const FIRST_IMAGE: usize = 2 + APART;

/// Where their stamps begin.
const FIRST_STAMP: usize = FIRST_IMAGE + IMAGES * SWAPCHAINS;

/// How many buffers there are for what is published: one more than the front and eight readers can be in.
pub const BUFFERS: usize = 10;

/// How many words a buffer has.
const BUFFER_WORDS: usize = MOST_WORDS;

/// What stands for the front's number of entries among a holder's counts.
pub const NO_COUNT: u64 = u64::MAX;

/// Where the front is.
const FRONT: usize = FIRST_STAMP + IMAGES * SWAPCHAINS + APART;

/// How many words there are.
pub(crate) const WORDS: usize = FRONT + 1 + BUFFERS + BUFFERS * BUFFER_WORDS;

/// Where what stands among the words: 0 is the next ticket, 1 the ticket that is served. Then come the words of the images of each place,
/// their stamps, and what is published: the front, the exits of the buffers, and the buffers. Eight words are unused behind the tickets, and
/// eight behind the stamps.
pub struct Layout;

impl Layout {
    /// How many words there are.
    pub fn words() -> usize
        ensures { result ≡ word_count }
    {
        WORDS
    }

    /// Where the word of an image stands.
    pub fn image(image: Image) -> usize
        requires { IsPlaced image }
        ensures { result ≡ image_word image }
    {
        FIRST_IMAGE + IMAGES * image.place as usize + image.index as usize
    }

    /// Where the stamp of an image stands.
    pub fn stamp(image: Image) -> usize
        requires { IsPlaced image }
        ensures { result ≡ stamp_word image }
    {
        FIRST_STAMP + IMAGES * image.place as usize + image.index as usize
    }

    /// Where the front is: the number of its buffer, with 16 for each seat that entered it.
    pub fn front() -> usize
        ensures { result ≡ front_word }
    {
        FRONT
    }

    /// Where a buffer's exits are counted.
    pub fn exit(buffer: usize) -> usize
        requires { buffer < buffers }
        ensures { result ≡ exit_word front_word buffer }
    {
        FRONT + 1 + buffer
    }

    /// Where a word of a buffer is.
    pub fn state(buffer: usize, word: usize) -> usize
        requires near { buffer < buffers }
        requires within { word < buffer_words }
        ensures { result ≡ state_word front_word buffer word }
    {
        FRONT + 1 + BUFFERS + BUFFER_WORDS * buffer + word
    }
}

/// The rule of the table. Its key is the number of applications.
pub struct XrRule<M> {
    of: PhantomData<M>,
}

impl<M: Machine> TableRule<Option<Held<M>>, View, u64> for XrRule<M> {
    ghost use Rattle.xr_rule.specs.Rule.{FollowsRule};
    ghost use Rattle.xr_rule.specs.Seats.{stands_in};
    ghost use Rattle.xr_rule.specs.View.{newcomer};

    ghost holds = { λ apps. FollowsRule (stands_in M.stands) apps };

    ghost first = { λ apps. newcomer apps };
}

/// A table of words and one slot, which follows the rule, and the plain words beside it.
#[derive(Drop)]
pub struct XrTable<M: Machine> {
    pub table: Table<Option<Held<M>>, View, u64, XrRule<M>, Global>,
    pub beside: Beside,
    pub ghost sized: { (table.shared.table_id.words ≡ word_count) × (table.shared.table_id.slots ≡ 1) },
}

/// Who steps on the table: it has an actor's number and what that actor knows.
pub type XrSeat<M> = atomic_table::Seat<Option<Held<M>>, View>;
