// A scenario: scripts of ops, as a text gives them.
ghost use Rattle.std.specs.Prelude.{◌≡◌};
ghost use Rattle.xr_types.specs.Op.{call_name, sort_of};

use crate::{
    ActionType, Blend, Bytes, CallName, Form, MOST_HANDLE_MARK, RefKind, Several, ViewConfig,
};

/// A value of an op: a number, or what the op at this place of the script (from 1) gave to its name.
#[derive(Clone, Copy)]
pub enum Use {
    Number(i64),
    Of(u32),
}

/// What a name of a script stands for. A system and a predicted time are numbers.
#[derive(Clone, Copy)]
pub enum Sort {
    Handle,
    Atom,
    Number,
}

/// A handle in a list of an op.
#[derive(Clone, Copy)]
pub struct HandleUse {
    pub handle: Use,
}

/// An atom in a list of an op.
#[derive(Clone, Copy)]
pub struct AtomUse {
    pub atom: Use,
}

/// A suggestion of an op: an action and a path.
#[derive(Clone, Copy)]
pub struct BindingUse {
    pub action: Use,
    pub path: Use,
}

/// An action set that an op syncs, with a user path or 0.
#[derive(Clone, Copy)]
pub struct ActiveSetUse {
    pub set: Use,
    pub sub: Use,
}

/// A part of a chain's image, in pixels.
#[derive(Clone, Copy)]
pub struct SubImageUse {
    pub chain: Use,
    pub x: i32,
    pub y: i32,
    pub w: i32,
    pub h: i32,
}

/// A layer of an op: a projection of up to four views, or a quad.
#[derive(Drop)]
pub enum LayerUse {
    Projection {
        space: Use,
        views: Several<SubImageUse>,
    },
    Quad {
        space: Use,
        image: SubImageUse,
        pose: u64,
    },
}

/// One op of a script, with the fields of its row in the scenario format: `kind` is the field `type`,
/// and `fixed` the field `static`. A name that the op gives is no field: the ops that use it hold this
/// op's place.
#[derive(Drop)]
pub enum Op {
    // rows: the ops
    CreateInstance {
        major: u32,
        minor: u32,
    },
    DestroyInstance {
        instance: Use,
    },
    PollEvent {
        instance: Use,
    },
    GetSystem {
        instance: Use,
        form: Form,
    },
    StringToPath {
        instance: Use,
        text: Bytes,
    },
    PathToString {
        instance: Use,
        path: Use,
        capacity: u64,
    },
    CreateSession {
        instance: Use,
        system: Use,
    },
    DestroySession {
        session: Use,
    },
    EndSession {
        session: Use,
    },
    RequestExitSession {
        session: Use,
    },
    BeginFrame {
        session: Use,
    },
    BeginSession {
        session: Use,
        view: ViewConfig,
    },
    CreateReferenceSpace {
        session: Use,
        kind: RefKind,
        offset: u64,
    },
    CreateActionSpace {
        session: Use,
        action: Use,
        sub: Use,
        offset: u64,
    },
    DestroySpace {
        space: Use,
    },
    LocateSpace {
        space: Use,
        base: Use,
        time: Use,
    },
    CreateActionSet {
        instance: Use,
        name: Bytes,
        localized: Bytes,
        priority: u32,
    },
    DestroyActionSet {
        set: Use,
    },
    CreateAction {
        set: Use,
        name: Bytes,
        kind: ActionType,
        subactions: Several<AtomUse>,
        localized: Bytes,
    },
    DestroyAction {
        action: Use,
    },
    SuggestBindings {
        instance: Use,
        profile: Use,
        bindings: Several<BindingUse>,
    },
    AttachSets {
        session: Use,
        sets: Several<HandleUse>,
    },
    SyncActions {
        session: Use,
        active: Several<ActiveSetUse>,
    },
    GetBoolean {
        session: Use,
        action: Use,
        sub: Use,
    },
    GetFloat {
        session: Use,
        action: Use,
        sub: Use,
    },
    GetVector {
        session: Use,
        action: Use,
        sub: Use,
    },
    GetPoseActive {
        session: Use,
        action: Use,
        sub: Use,
    },
    CreateSwapchain {
        session: Use,
        format: u64,
        width: u32,
        height: u32,
        fixed: bool,
    },
    DestroySwapchain {
        chain: Use,
    },
    AcquireImage {
        chain: Use,
    },
    ReleaseImage {
        chain: Use,
    },
    WaitImage {
        chain: Use,
        timeout: i64,
    },
    Paint {
        chain: Use,
        stamp: u64,
    },
    WaitFrame {
        session: Use,
    },
    EndFrame {
        session: Use,
        time: Use,
        blend: Blend,
        layers: Several<LayerUse>,
    },
    Mark {
        mark: u8,
        value: Use,
    },
    Await {
        mark: u8,
    },
    // rows: end
}

impl Op {
    /// The name of the op's call.
    pub fn name(&self) -> CallName
        ensures { result ≡ call_name self.now }
    {
        match self {
            // rows: names by op
            Op::CreateInstance { .. } => CallName::CreateInstance,
            Op::DestroyInstance { .. } => CallName::DestroyInstance,
            Op::PollEvent { .. } => CallName::PollEvent,
            Op::GetSystem { .. } => CallName::GetSystem,
            Op::StringToPath { .. } => CallName::StringToPath,
            Op::PathToString { .. } => CallName::PathToString,
            Op::CreateSession { .. } => CallName::CreateSession,
            Op::DestroySession { .. } => CallName::DestroySession,
            Op::EndSession { .. } => CallName::EndSession,
            Op::RequestExitSession { .. } => CallName::RequestExitSession,
            Op::BeginFrame { .. } => CallName::BeginFrame,
            Op::BeginSession { .. } => CallName::BeginSession,
            Op::CreateReferenceSpace { .. } => CallName::CreateReferenceSpace,
            Op::CreateActionSpace { .. } => CallName::CreateActionSpace,
            Op::DestroySpace { .. } => CallName::DestroySpace,
            Op::LocateSpace { .. } => CallName::LocateSpace,
            Op::CreateActionSet { .. } => CallName::CreateActionSet,
            Op::DestroyActionSet { .. } => CallName::DestroyActionSet,
            Op::CreateAction { .. } => CallName::CreateAction,
            Op::DestroyAction { .. } => CallName::DestroyAction,
            Op::SuggestBindings { .. } => CallName::SuggestBindings,
            Op::AttachSets { .. } => CallName::AttachSets,
            Op::SyncActions { .. } => CallName::SyncActions,
            Op::GetBoolean { .. } => CallName::GetBoolean,
            Op::GetFloat { .. } => CallName::GetFloat,
            Op::GetVector { .. } => CallName::GetVector,
            Op::GetPoseActive { .. } => CallName::GetPoseActive,
            Op::CreateSwapchain { .. } => CallName::CreateSwapchain,
            Op::DestroySwapchain { .. } => CallName::DestroySwapchain,
            Op::AcquireImage { .. } => CallName::AcquireImage,
            Op::ReleaseImage { .. } => CallName::ReleaseImage,
            Op::WaitImage { .. } => CallName::WaitImage,
            Op::Paint { .. } => CallName::Paint,
            Op::WaitFrame { .. } => CallName::WaitFrame,
            Op::EndFrame { .. } => CallName::EndFrame,
            Op::Mark { .. } => CallName::Mark,
            Op::Await { .. } => CallName::Await,
            // rows: end
        }
    }

    /// What the name that the op gives stands for, where its row has a name.
    pub fn sort(&self) -> Option<Sort>
        ensures { result ≡ sort_of self.now }
    {
        match self {
            // rows: sorts given
            Op::CreateInstance { .. }
            | Op::CreateSession { .. }
            | Op::CreateReferenceSpace { .. }
            | Op::CreateActionSpace { .. }
            | Op::CreateActionSet { .. }
            | Op::CreateAction { .. }
            | Op::CreateSwapchain { .. } => Some(Sort::Handle),
            Op::StringToPath { .. } => Some(Sort::Atom),
            Op::GetSystem { .. } | Op::WaitFrame { .. } => Some(Sort::Number),
            // rows: end
            Op::Await { mark } => {
                if *mark <= MOST_HANDLE_MARK {
                    Some(Sort::Handle)
                } else {
                    Some(Sort::Atom)
                }
            }
            _ => None,
        }
    }
}

/// The ops of one application thread, in order.
pub type Script = Several<Op>;

/// What a scenario text says: its format's version and a script for each application thread.
#[derive(Drop)]
pub struct Scenario {
    pub version: u8,
    pub scripts: Several<Script>,
}
