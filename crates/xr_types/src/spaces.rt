// Spaces, and where they are (OpenXR 1.0 chapter 7, "Spaces"). Poses and offsets are opaque numbers.

ghost use Rattle.std.specs.Prelude.{◌≡◌, refl};
ghost use Rattle.xr_types.specs.Printed.{kind_name, all_kinds, origin_name, all_origins};

use crate::{User, Word};

/// A reference space (OpenXR 1.0 chapter 7, XrReferenceSpaceType).
#[derive(Clone, Copy)]
pub enum RefKind {
    View,
    Local,
    Stage,
}

impl Word for RefKind {
    ghost printed = { kind_name };

    ghost listed = { all_kinds };

    ghost own = { refl };

    fn word(self) -> &'static str {
        match self {
            RefKind::View => "view",
            RefKind::Local => "local",
            RefKind::Stage => "stage",
        }
    }

    fn all() -> &'static [RefKind] {
        &[RefKind::View, RefKind::Local, RefKind::Stage]
    }
}

/// What has a pose of its own: a reference space's origin, or the grip or aim of a hand (section 6.3.2).
#[derive(Clone, Copy)]
pub enum Origin {
    View,
    Local,
    Stage,
    Grip(User),
    Aim(User),
}

impl Word for Origin {
    ghost printed = { origin_name };

    ghost listed = { all_origins };

    ghost own = { refl };

    fn word(self) -> &'static str {
        match self {
            Origin::View => "view",
            Origin::Local => "local",
            Origin::Stage => "stage",
            Origin::Grip(User::Left) => "/user/hand/left/input/grip/pose",
            Origin::Grip(User::Right) => "/user/hand/right/input/grip/pose",
            Origin::Grip(User::Head) => "/user/head/input/grip/pose",
            Origin::Grip(User::Gamepad) => "/user/gamepad/input/grip/pose",
            Origin::Grip(User::Treadmill) => "/user/treadmill/input/grip/pose",
            Origin::Aim(User::Left) => "/user/hand/left/input/aim/pose",
            Origin::Aim(User::Right) => "/user/hand/right/input/aim/pose",
            Origin::Aim(User::Head) => "/user/head/input/aim/pose",
            Origin::Aim(User::Gamepad) => "/user/gamepad/input/aim/pose",
            Origin::Aim(User::Treadmill) => "/user/treadmill/input/aim/pose",
        }
    }

    fn all() -> &'static [Origin] {
        &[
            Origin::View,
            Origin::Local,
            Origin::Stage,
            Origin::Grip(User::Left),
            Origin::Grip(User::Right),
            Origin::Aim(User::Left),
            Origin::Aim(User::Right),
        ]
    }
}

/// How many origins there are that may have samples: view, local and stage, and the grip and the aim of each hand.
pub const ORIGINS: usize = 7;

/// How many samples of an origin are kept: its newest.
pub const SAMPLES: usize = 16;

/// What a space moves with: the origin of a reference space, or the origin that the last sync chose for the pose action at a
/// place from 0 to 63, in a column of its states from 0 to 5.
#[derive(Clone, Copy)]
pub enum Root {
    Fixed(RefKind),
    Action { place: u8, column: u8 },
}

/// Where a space is in a base (chapter 7, xrLocateSpace): unknown, or a product of four factors, of
/// which the first two stand for inverses.
#[derive(Clone, Copy)]
pub enum Location {
    Missing,
    Factors {
        base_offset: u64,
        base_sample: u64,
        sample: u64,
        offset: u64,
    },
}
