// The spaces with the samples of all origins, and the calls on them.
ghost use Rattle.std.specs.Prelude.{◌≡◌, ◌<◌, false, length, map, slice_index_or, IfOk};
ghost use Rattle.std.specs.Option.{option_copied};
ghost use Rattle.xr_model.specs.machine.PartAnswers.{code_by};
ghost use Rattle.xr_model.specs.machine.Refusals.{first_of};
ghost use Rattle.xr_model.specs.machine.Spaces.{no_spaces, reference_checks, with_space, without_space, with_left, left_spaces, sampled, space_at, pose_of, location, located};

use crate::roots::origin_by;
use crate::samples::{Samples, note, pose_in};
use std::alloc::Global;
use std::marker::Model;
use xr_types::{ACTIONS, Code, Location, NoMemory, ORIGINS, Origin, RefKind, Root, SPACES, States};

/// A space by its handle: what it moves with, which is nothing once its action was destroyed, and its offset
/// there. Contracts see the machine's space.
#[derive(Clone, Copy, Default)]
struct Space {
    handle: u64,
    root: Option<Root>,
    offset: u64,
}

impl Model for Space {
    ghost use Rattle.xr_model.specs.machine.Spaces as model;

    ghost Value = { model.Space };

    ghost view = { λ s. record { handle = s.handle; root = s.root; offset = s.offset } };

    ghost inverse = { λ s. record { handle = s.handle; root = s.root; offset = s.offset } };
}

/// The spaces in the order of their creation, in room for as many as there may be, which is taken once, and the newest 16
/// samples of each origin. Contracts see the machine's spaces.
#[derive(Drop)]
pub struct Spaces {
    spaces: Vec<Space>,
    samples: [Samples; ORIGINS],
}

impl Model for Spaces {
    ghost use Rattle.std.specs.Prelude.{◌≡◌, vec_capacity};
    ghost use Rattle.xr_types.specs.declared.handles.TheConstants.{SPACES};
    ghost use Rattle.xr_model.specs.machine.Spaces as model;

    ghost Value = { model.Spaces };

    ghost view = { λ s. record { spaces = s.spaces.items; samples = s.samples } };

    ghost invariant = { λ s. vec_capacity s.spaces ≡ SPACES };
}

/// Checks a reference space that is asked for, told whether the device has a stage. Refused are, in this order, a
/// stage where the device has none (`ReferenceSpaceUnsupported`), and an offset of 0, which is no pose
/// (`PoseInvalid`); else it is a `Success`. OpenXR 1.0 chapter 7, xrCreateReferenceSpace.
pub fn check_reference(kind: RefKind, offset: u64, stage: bool) -> Code
    ensures { result ≡ code_by (first_of (reference_checks kind offset stage)) }
{
    if matches!(kind, RefKind::Stage) && !stage {
        Code::ReferenceSpaceUnsupported
    } else if offset == 0 {
        Code::PoseInvalid
    } else {
        Code::Success
    }
}

/// The space of a handle, where it is one's.
fn space_at(spaces: &[Space], handle: u64) -> Option<&Space>
    ensures { option_copied result ≡ space_at spaces.now handle }
{
    spaces.iter().find(|space| space.handle == handle)
}

/// A space without what it moves with, where that is an action whose place isn't one of these.
fn with_left(there: &[bool; ACTIONS], space: Space) -> Space
    ensures { result ≡ with_left (λ place. slice_index_or there.now place false) space }
{
    match space.root {
        Some(Root::Action { place, .. })
            if !there.get(usize::from(place)).copied().unwrap_or(false) => Space {
            root: None,
            ..space
        },
        _ => space,
    }
}

/// Takes what isn't left from all spaces that move with it.
fn leave(spaces: &mut [Space], there: &[bool; ACTIONS])
    ensures { spaces.new ≡ map (with_left (λ place. slice_index_or there.now place false)) spaces.old }
{
    for space in spaces.iter_mut() {
        *space = with_left(there, *space);
    }
}

impl Spaces {
    /// No space and no sample yet. Takes the room of 64 spaces, and of 16 samples for each of the 7 origins, and nothing
    /// later takes memory. `NoMemory` comes where there isn't as much.
    pub fn start(alloc: Global) -> Result<Spaces, NoMemory>
        ensures { IfOk result (λ spaces. spaces ≡ no_spaces) }
    {
        let samples = [
            Samples::start(alloc)?,
            Samples::start(alloc)?,
            Samples::start(alloc)?,
            Samples::start(alloc)?,
            Samples::start(alloc)?,
            Samples::start(alloc)?,
            Samples::start(alloc)?,
        ];
        let spaces = Vec::with_capacity(alloc, SPACES)?;
        Ok(Spaces { spaces, samples })
    }

    /// A space was created: it stands behind the others with its handle, what it moves with, and its offset there, an
    /// opaque factor. Before, there are fewer than 64 spaces. OpenXR 1.0 chapter 7, xrCreateReferenceSpace and
    /// xrCreateActionSpace.
    pub fn add(&mut self, handle: u64, root: Root, offset: u64)
        requires { length self.old.spaces < 64 }
        ensures { self.new ≡ with_space self.old handle root offset }
    {
        self.spaces.push_reserved(Space {
            handle,
            root: Some(root),
            offset,
        });
    }

    /// The space of a handle was destroyed; where there is none, all stays as it was. OpenXR 1.0 chapter 7,
    /// xrDestroySpace.
    pub fn remove(&mut self, handle: u64)
        ensures { self.new ≡ without_space self.old handle }
    {
        self.spaces.retain(|space| space.handle != handle);
    }

    /// Only the actions in these places are left: spaces that moved with another stay, and move with nothing from now on.
    /// OpenXR 1.0 chapter 7, xrCreateActionSpace.
    pub fn leave(&mut self, there: &[bool; ACTIONS])
        ensures { self.new ≡ left_spaces (λ place. slice_index_or there.now place false) self.old }
    {
        leave(self.spaces.as_mut_slice(), there);
    }

    /// An origin has a pose, an opaque factor, from a time on, in ns of device time. A sample that isn't later than the
    /// origin's newest is ignored, and so is one of the grip or aim of no hand. The newest 16 of an origin are kept, by
    /// which `locate` finds its pose. OpenXR 1.0 chapter 7, xrLocateSpace.
    pub fn sample(&mut self, origin: Origin, time: i64, pose: u64)
        ensures { self.new ≡ sampled self.old origin time pose }
    {
        note(&mut self.samples, origin, time, pose);
    }

    /// Where a space is in a base, both by their handles, at a time in ns of device time, by the states of the last
    /// sync. `None` comes for a time of 0 or less, which is none. It comes for a handle of no space too, so this asks
    /// for no condition; where both are spaces, it comes for such a time alone. The location is `Missing` where the
    /// space or the base moves with nothing, or with an action that is inactive or has no origin in its column, or
    /// where its origin has no sample that isn't later. OpenXR 1.0 chapter 7, xrLocateSpace.
    pub fn locate(&self, space: u64, base: u64, time: i64, states: &States) -> Option<Location>
        ensures { result ≡ located self.now states.now space base time }
    {
        if time <= 0 {
            return None;
        }
        let space = space_at(&self.spaces, space)?;
        let base = space_at(&self.spaces, base)?;
        Some(self.location(states, time, space, base))
    }

    /// Where a space is in a base: the factors in order, with nothing simplified.
    fn location(&self, states: &States, time: i64, space: &Space, base: &Space) -> Location
        ensures { result ≡ location self.now states.now time space.now base.now }
    {
        let Some(sample) = self.pose_of(states, time, space) else {
            return Location::Missing;
        };
        let Some(base_sample) = self.pose_of(states, time, base) else {
            return Location::Missing;
        };
        Location::Factors {
            base_offset: base.offset,
            base_sample,
            sample,
            offset: space.offset,
        }
    }

    /// The pose at a time of what a space moves with.
    fn pose_of(&self, states: &States, time: i64, space: &Space) -> Option<u64>
        ensures { result ≡ pose_of self.now states.now time space.now }
    {
        let origin = origin_by(states, space.root?)?;
        pose_in(&self.samples, origin, time)
    }
}
