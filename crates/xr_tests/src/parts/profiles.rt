// Interaction profiles: what paths pick of a controller, and the profiles and user paths of texts. Which paths are accepted
// is shown by cases.
use std::alloc::{AllocError, Global};
use std::test::Fail;
use xr_profiles::{component, profile_of, user_of};
use xr_types::{ActionType, Part, Pick, Profile, User, Word, input_name};

/// What is picked of a controller: a sort of part, and the names of its rows.
type Named = (&'static str, &'static str, &'static str);

/// A part by names.
fn named(part: Part) -> Named {
    match part {
        Part::Digital(row) => ("digital", input_name(row), ""),
        Part::Analogue(row) => ("analogue", input_name(row), ""),
        Part::Both(x, y) => ("both", input_name(x), input_name(y)),
        Part::Pose(41) => ("pose", "grip", ""),
        Part::Pose(42) => ("pose", "aim", ""),
        Part::Pose(_) => ("pose", "other", ""),
        Part::Output => ("output", "", ""),
    }
}

/// Whether a part has these names.
fn is_named(part: Part, names: Named) -> bool {
    let (sort, first, second) = named(part);
    sort == names.0 && first == names.1 && second == names.2
}

/// Whether a path picks this at a user path.
fn picks(pick: Option<Pick>, user: &str, names: Named) -> bool {
    match pick {
        Some(pick) => pick.user.word() == user && is_named(pick.part, names),
        None => false,
    }
}

/// The path below a user path.
fn path_of(alloc: Global, user: &str, rest: &str) -> Result<Vec<u8>, AllocError> {
    let mut path = Vec::new(alloc);
    path.extend_from_slice(user.as_bytes())?;
    path.extend_from_slice(rest.as_bytes())?;
    Ok(path)
}

/// A profile, a type of action, a user path and what follows it, and what is picked.
type Row = (
    Profile,
    ActionType,
    &'static str,
    &'static str,
    &'static str,
    &'static str,
    &'static str,
);

const LEFT: &str = "/user/hand/left";

const RIGHT: &str = "/user/hand/right";

const PAD: &str = "/user/gamepad";

const PICKED: [Row; 22] = [
    (
        Profile::Vive,
        ActionType::Boolean,
        LEFT,
        "/input/trigger",
        "digital",
        "trigger/click",
        "",
    ),
    (
        Profile::Vive,
        ActionType::Float,
        LEFT,
        "/input/trigger",
        "analogue",
        "trigger/value",
        "",
    ),
    (
        Profile::Vive,
        ActionType::Boolean,
        RIGHT,
        "/input/trigger/value",
        "analogue",
        "trigger/value",
        "",
    ),
    (
        Profile::Vive,
        ActionType::Float,
        RIGHT,
        "/input/trigger/click",
        "digital",
        "trigger/click",
        "",
    ),
    (
        Profile::Vive,
        ActionType::Float,
        RIGHT,
        "/input/squeeze",
        "digital",
        "squeeze/click",
        "",
    ),
    (
        Profile::Vive,
        ActionType::Vector,
        RIGHT,
        "/input/trackpad",
        "both",
        "trackpad/x",
        "trackpad/y",
    ),
    (
        Profile::Touch,
        ActionType::Boolean,
        RIGHT,
        "/input/squeeze",
        "analogue",
        "squeeze/value",
        "",
    ),
    (
        Profile::Touch,
        ActionType::Boolean,
        RIGHT,
        "/input/trigger",
        "analogue",
        "trigger/value",
        "",
    ),
    (
        Profile::Touch,
        ActionType::Float,
        LEFT,
        "/input/trigger/touch",
        "digital",
        "trigger/touch",
        "",
    ),
    (
        Profile::Touch,
        ActionType::Float,
        LEFT,
        "/input/x",
        "digital",
        "x/click",
        "",
    ),
    (
        Profile::Touch,
        ActionType::Boolean,
        LEFT,
        "/input/thumbstick/x",
        "analogue",
        "thumbstick/x",
        "",
    ),
    (
        Profile::Touch,
        ActionType::Boolean,
        LEFT,
        "/input/thumbstick",
        "digital",
        "thumbstick/click",
        "",
    ),
    (
        Profile::Touch,
        ActionType::Vector,
        LEFT,
        "/input/thumbstick",
        "both",
        "thumbstick/x",
        "thumbstick/y",
    ),
    (
        Profile::Simple,
        ActionType::Pose,
        LEFT,
        "/input/grip",
        "pose",
        "grip",
        "",
    ),
    (
        Profile::Simple,
        ActionType::Pose,
        RIGHT,
        "/input/grip/pose",
        "pose",
        "grip",
        "",
    ),
    (
        Profile::Simple,
        ActionType::Pose,
        RIGHT,
        "/input/aim",
        "pose",
        "aim",
        "",
    ),
    (
        Profile::Simple,
        ActionType::Pose,
        LEFT,
        "/input/aim/pose",
        "pose",
        "aim",
        "",
    ),
    (
        Profile::Simple,
        ActionType::Vibration,
        RIGHT,
        "/output/haptic",
        "output",
        "",
        "",
    ),
    (
        Profile::Xbox,
        ActionType::Boolean,
        PAD,
        "/input/trigger_left",
        "analogue",
        "trigger_left/value",
        "",
    ),
    (
        Profile::Xbox,
        ActionType::Float,
        PAD,
        "/input/dpad_up",
        "digital",
        "dpad_up/click",
        "",
    ),
    (
        Profile::Xbox,
        ActionType::Vector,
        PAD,
        "/input/thumbstick_right",
        "both",
        "thumbstick_right/x",
        "thumbstick_right/y",
    ),
    (
        Profile::Xbox,
        ActionType::Vibration,
        PAD,
        "/output/haptic_left_trigger",
        "output",
        "",
        "",
    ),
];

fn rows() -> &'static [Row] {
    &PICKED
}

/// Whether a row holds.
fn holds(alloc: Global, row: &Row) -> Result<bool, AllocError> {
    let (profile, kind, user, rest, sort, first, second) = *row;
    let path = path_of(alloc, user, rest)?;
    let pick = component(profile, kind, path.as_slice());
    Ok(picks(pick, user, (sort, first, second)))
}

#[test]
fn paths_pick_inputs_axes_poses_and_outputs(rt: HostRuntime) -> Result<(), Fail> {
    for row in rows() {
        assert!(rt; holds(rt.alloc(), row)?, "{}{}", row.2, row.3);
    }
    Ok(())
}

/// The place of an identifier that a path of the Touch controllers picks for a boolean.
fn place(path: &[u8]) -> Option<u8> {
    Some(component(Profile::Touch, ActionType::Boolean, path)?.identifier)
}

#[test]
fn an_identifier_has_one_place(rt: HostRuntime) -> Result<(), Fail> {
    let alone = place(b"/user/hand/left/input/x");
    let same = alone.is_some()
        && place(b"/user/hand/left/input/x/click") == alone
        && place(b"/user/hand/left/input/x/touch") == alone;
    let others = place(b"/user/hand/left/input/y") != alone
        && place(b"/user/hand/left/input/thumbstick/x") != alone;
    assert!(rt; same && others);
    Ok(())
}

#[test]
fn profiles_and_user_paths_have_paths(rt: HostRuntime) -> Result<(), Fail> {
    let profiles = matches!(
        profile_of(b"/interaction_profiles/khr/simple_controller"),
        Some(Profile::Simple)
    ) && matches!(
        profile_of(b"/interaction_profiles/oculus/touch_controller"),
        Some(Profile::Touch)
    ) && matches!(
        profile_of(b"/interaction_profiles/htc/vive_controller"),
        Some(Profile::Vive)
    ) && matches!(
        profile_of(b"/interaction_profiles/microsoft/xbox_controller"),
        Some(Profile::Xbox)
    );
    let users = matches!(user_of(b"/user/hand/left"), Some(User::Left))
        && matches!(user_of(b"/user/hand/right"), Some(User::Right))
        && matches!(user_of(b"/user/head"), Some(User::Head))
        && matches!(user_of(b"/user/gamepad"), Some(User::Gamepad))
        && matches!(user_of(b"/user/treadmill"), Some(User::Treadmill));
    assert!(rt; profiles && users);
    Ok(())
}
