// A core whose calls aren't counted: what its parts keep and the images that are held, and how each call is decided.
ghost use Rattle.std.specs.Prelude.{◌≡◌, ◌≤◌, [], take, drop, length, slice_get, IfOk, ℕ, List};
ghost use Rattle.xr_types.specs.declared.calls.Actor.{Actor};
ghost use Rattle.xr_types.specs.declared.frames.Shown.{Shown};
ghost use Rattle.xr_types.specs.declared.limits.TheConstants.{MOST_SCRIPTS};
ghost use Rattle.xr_model.specs.machine.CellCalls.{MayCall, Leads, peek_calls, return_calls};
ghost use Rattle.xr_model.specs.machine.CoreCalls.{MayMake};
ghost use Rattle.std.specs.List.{list_all};
ghost use Rattle.xr_model.specs.machine.Frames.{is_empty};
ghost use Rattle.xr_model.specs.machine.Images.{first_images};
ghost use Rattle.xr_model.specs.machine.Rules.Frames.{with_frame_taken};
ghost use Rattle.xr_model.specs.machine.OverCells.{MayApply, world};
ghost use Rattle.xr_types.specs.declared.calls.Call.TheVariants as ask;
ghost use Rattle.xr_model.specs.machine.State.{with_apps, opening_core};
ghost use Rattle.xr_core.specs.inside.Deciding.{CountsFit, DecidesAlong};

use crate::bound::Draft;
use crate::halt::{Halt, done, giving, refused};
use crate::parts::Parts;
use crate::showing::show;
use arrayvec::ArrayVec;
use std::alloc::Global;
use std::marker::Model;
use xr_model::Cells;
use xr_types::{Actor, Call, Code, Frame, Gives, Image, MOST_LAYERS, NoMemory, Reply, Shown};

/// The inside of a core: its parts, and the images of the frame taken last that aren't given back, in order. Contracts see
/// what a core has, with no call counted.
#[derive(Drop)]
pub(crate) struct Uncounted {
    pub(crate) parts: Box<Parts>,
    /// What the bindings of a call come to. Contracts see nothing of it.
    draft: Draft,
    pub(crate) held: ArrayVec<Image, MOST_LAYERS>,
}

impl Model for Uncounted {
    ghost use Rattle.xr_model.specs.machine.State.{WholeCore};

    ghost Value = { WholeCore };

    ghost view = { λ c. record { kept = c.parts.value; held = c.held.items } };
}

/// The stamps of these images, in order.
fn peek_all<C: Cells>(cells: &mut C, images: &[Image]) -> ArrayVec<u64, MOST_LAYERS>
    requires few { length images.now ≤ MOST_LAYERS }
    requires may { (stamps : List ℕ) → MayCall C.may C.does cells.old (peek_calls images.now stamps) }
    ensures each { length result.items ≡ length images.now }
    ensures cells { Leads C.does cells.old (peek_calls images.now result.items) cells.new }
{
    let mut stamps = ArrayVec::new();
    for image in images {
        stamps.push(cells.peek(*image));
    }
    stamps
}

impl Uncounted {
    /// A core of 1 to 8 applications before any call. Takes all memory but that of new path texts and of suggestions.
    pub(crate) fn start(alloc: Global, apps: u8) -> Result<Uncounted, NoMemory>
        requires some { 1 ≤ apps }
        requires few { apps ≤ MOST_SCRIPTS }
        ensures { IfOk result (λ core. core ≡ record { kept = opening_core (with_apps apps); held = [] }) }
    {
        let parts = Parts::start(alloc, apps)?;
        let draft = Draft::start(alloc)?;
        Ok(Uncounted {
            parts,
            draft,
            held: ArrayVec::new(),
        })
    }

    /// Whether no image is held.
    fn holds_none(&self) -> bool
        ensures { result ≡ is_empty self.now.held }
    {
        self.held.is_empty()
    }

    /// Whether every application has left.
    fn all_left(&self) -> bool
        ensures { result ≡ list_all (λ has_left. has_left) self.now.kept.left }
    {
        self.parts.all_left()
    }

    /// Takes the frame that is pending longest, where one is.
    fn take(&mut self) -> Option<Frame>
        ensures frame { result ≡ slice_get self.old.kept.frames.pending 0 }
        ensures core { self.new ≡ record self.old { kept = with_frame_taken self.old.kept } }
    {
        self.parts.take()
    }

    /// These images are held from now on.
    fn hold(&mut self, images: ArrayVec<Image, MOST_LAYERS>)
        ensures { self.new ≡ record self.old { held = images.items } }
    {
        self.held = images;
    }

    /// Shows the frame that is pending longest, and takes it. Where none is the end is told, or the call waits until every
    /// application has left. It is refused while an image is held.
    #[inline(never)]
    fn next_frame<C: Cells>(&mut self, cells: &mut C, shown: &mut Shown) -> Result<Reply, Halt>
        requires may { self.old.held ≡ [] → (stamps : List ℕ) → MayCall C.may C.does cells.old (peek_calls (first_images self.old.kept.frames.pending) stamps) }
        ensures { (who : Actor) (text : List ℕ) → DecidesAlong C.does (world self.old cells.old text shown.old) (world self.new cells.new text shown.new) who ask.NextFrame result }
    {
        if !self.holds_none() {
            return refused(Code::CallOrderInvalid);
        }
        match self.take() {
            Some(frame) => {
                let stamps = peek_all(cells, frame.images.as_slice());
                show(&frame, stamps.as_slice(), shown);
                self.hold(frame.images);
                giving(Code::Success, Gives::Shown)
            }
            None => {
                if !self.all_left() {
                    return Err(Halt::NotReady);
                }
                giving(Code::Success, Gives::Ended)
            }
        }
    }

    /// The images that are held.
    pub(crate) fn copy_held(&self) -> ArrayVec<Image, MOST_LAYERS>
        ensures { result.items ≡ self.now.held }
    {
        let mut copied = ArrayVec::new();
        let Ok(()) = copied.try_extend_from_slice(self.held.as_slice()) else {
            unreachable!()
        };
        copied
    }

    /// No image is held from now on.
    pub(crate) fn settle(&mut self)
        ensures { self.new ≡ record self.old { held = [] } }
    {
        self.held.clear();
    }

    /// Takes the first image that is held, where one is.
    fn pop_held(&mut self) -> Option<Image>
        ensures image { result ≡ slice_get self.old.held 0 }
        ensures rest { self.new ≡ record self.old { held = drop 1 self.old.held } }
    {
        self.held.pop_at(0)
    }

    /// Gives the first image back that is held.
    #[inline(never)]
    fn image_done<C: Cells>(&mut self, cells: &mut C) -> Result<Reply, Halt>
        requires may { MayCall C.may C.does cells.old (return_calls (take 1 self.old.held)) }
        ensures { (who : Actor) (text : List ℕ) (frame : Shown) → DecidesAlong C.does (world self.old cells.old text frame) (world self.new cells.new text frame) who ask.ImageDone result }
    {
        let Some(image) = self.pop_held() else {
            return refused(Code::CallOrderInvalid);
        };
        cells.give_back(image);
        done(Code::Success)
    }

    /// Decides a call: what it comes to, that it is refused, or that it has to wait. `text` is the buffer that
    /// `path_to_string` is lent, and `shown` the place of the frame that `next_frame` shows; other calls leave them. Memory is
    /// taken for a new path text and for suggestions.
    pub(crate) fn decide<C: Cells>(
        &mut self,
        alloc: Global,
        cells: &mut C,
        who: Actor,
        call: &Call<'_>,
        text: &mut [u8],
        shown: &mut Shown,
    ) -> Result<Reply, Halt>
        requires counts { CountsFit self.old.kept }
        requires may { MayMake self.old.kept who call.now (length text.old) }
        requires cells { MayApply C.may C.does self.old cells.old who call.now }
        ensures { DecidesAlong C.does (world self.old cells.old text.old shown.old) (world self.new cells.new text.new shown.new) who call.now result }
    {
        match call {
            Call::NextFrame => self.next_frame(cells, shown),
            Call::ImageDone => self.image_done(cells),
            _ => self
                .parts
                .decide(alloc, &mut self.draft, cells, who, call, text),
        }
    }
}
