// Calls, who makes them, and what they answer.
ghost use Rattle.std.specs.Prelude.{◌≡◌};

use crate::{
    ActionType, ActiveSet, Binding, Blend, BoolState, Code, DeviceEvent, Event, FloatState, Form,
    FrameState, Items, Layer, Location, RefKind, VectorState, ViewConfig,
};
use std::alloc::{AllocError, AllocFailed};

/// Who makes a call: an application thread by its number from 1, the compositor, or the device.
#[derive(Clone, Copy)]
pub enum Actor {
    App(u8),
    Compositor,
    Device,
}

/// A call of the runtime, with its texts and lists borrowed. A handle or an atom is any number; 0 names
/// nothing. Times and timeouts are ns of device time.
#[derive(Drop)]
pub enum Call<'a> {
    /// Asks for an instance of this version of the API (OpenXR 1.0 section 4.2, xrCreateInstance).
    CreateInstance {
        major: u32,
        minor: u32,
    },
    /// Ends an instance with all below it (section 4.2, xrDestroyInstance).
    DestroyInstance {
        instance: u64,
    },
    /// Asks for the system of a form (chapter 5, xrGetSystem).
    GetSystem {
        instance: u64,
        form: Form,
    },
    /// Asks for the atom of a path text (section 6.2, xrStringToPath).
    StringToPath {
        instance: u64,
        text: Items<'a, u8>,
    },
    /// Asks for the text of an atom, into a buffer of `capacity` bytes (section 6.2, xrPathToString).
    PathToString {
        instance: u64,
        path: u64,
        capacity: u64,
    },
    /// Asks for the next event (chapter 2, xrPollEvent).
    PollEvent {
        instance: u64,
    },
    /// Asks for a session of a system (chapter 9, xrCreateSession).
    CreateSession {
        instance: u64,
        system: u64,
    },
    /// Ends a session with all below it (chapter 9, xrDestroySession).
    DestroySession {
        session: u64,
    },
    /// Starts a session that is ready (chapter 9, xrBeginSession).
    BeginSession {
        session: u64,
        view: ViewConfig,
    },
    /// Ends a session that is stopping (chapter 9, xrEndSession).
    EndSession {
        session: u64,
    },
    /// Asks for a session's end (chapter 9, xrRequestExitSession).
    RequestExitSession {
        session: u64,
    },
    /// Asks for a reference space at an offset (chapter 7, xrCreateReferenceSpace).
    CreateReferenceSpace {
        session: u64,
        kind: RefKind,
        offset: u64,
    },
    /// Asks for the space of a pose action at a user path, or at any where `sub` is 0 (chapter 7,
    /// xrCreateActionSpace).
    CreateActionSpace {
        session: u64,
        action: u64,
        sub: u64,
        offset: u64,
    },
    /// Ends a space (chapter 7, xrDestroySpace).
    DestroySpace {
        space: u64,
    },
    /// Asks where a space is in a base at a time (chapter 7, xrLocateSpace).
    LocateSpace {
        space: u64,
        base: u64,
        time: i64,
    },
    /// Asks for an action set (chapter 11, xrCreateActionSet).
    CreateActionSet {
        instance: u64,
        name: Items<'a, u8>,
        localized: Items<'a, u8>,
        priority: u32,
    },
    /// Ends an action set with its actions (chapter 11, xrDestroyActionSet).
    DestroyActionSet {
        set: u64,
    },
    /// Asks for an action that tells the listed user paths apart (chapter 11, xrCreateAction).
    CreateAction {
        set: u64,
        name: Items<'a, u8>,
        kind: ActionType,
        subs: Items<'a, u64>,
        localized: Items<'a, u8>,
    },
    /// Ends an action (chapter 11, xrDestroyAction).
    DestroyAction {
        action: u64,
    },
    /// Suggests all bindings for a profile (chapter 11, xrSuggestInteractionProfileBindings).
    SuggestBindings {
        instance: u64,
        profile: u64,
        list: Items<'a, Binding>,
    },
    /// Attaches action sets to a session, once (chapter 11, xrAttachSessionActionSets).
    AttachSets {
        session: u64,
        sets: Items<'a, u64>,
    },
    /// Takes the inputs' values for the listed sets (chapter 11, xrSyncActions).
    SyncActions {
        session: u64,
        active: Items<'a, ActiveSet>,
    },
    /// Asks for a boolean action's state (chapter 11, xrGetActionStateBoolean).
    GetBoolean {
        session: u64,
        action: u64,
        sub: u64,
    },
    /// Asks for a float action's state (chapter 11, xrGetActionStateFloat).
    GetFloat {
        session: u64,
        action: u64,
        sub: u64,
    },
    /// Asks for a vector action's state (chapter 11, xrGetActionStateVector2f).
    GetVector {
        session: u64,
        action: u64,
        sub: u64,
    },
    /// Asks whether a pose action is active (chapter 11, xrGetActionStatePose).
    GetPoseActive {
        session: u64,
        action: u64,
        sub: u64,
    },
    /// Asks for a swapchain; `fixed` asks for one of a single image (chapter 10, xrCreateSwapchain).
    CreateSwapchain {
        session: u64,
        format: u64,
        width: u32,
        height: u32,
        fixed: bool,
    },
    /// Ends a swapchain (chapter 10, xrDestroySwapchain).
    DestroySwapchain {
        chain: u64,
    },
    /// Takes the next image (chapter 10, xrAcquireSwapchainImage).
    AcquireImage {
        chain: u64,
    },
    /// Waits until the oldest acquired image can be written, or the timeout has passed on the device's
    /// clock since `start` (chapter 10, xrWaitSwapchainImage). A timeout of 2^63 - 1 never passes.
    WaitImage {
        chain: u64,
        timeout: i64,
        start: i64,
    },
    /// Writes the content of the waited image. This project's own.
    Paint {
        chain: u64,
        stamp: u64,
    },
    /// Gives the waited image back (chapter 10, xrReleaseSwapchainImage).
    ReleaseImage {
        chain: u64,
    },
    /// Waits for the next frame's time (chapter 10, xrWaitFrame).
    WaitFrame {
        session: u64,
    },
    /// Begins the waited frame (chapter 10, xrBeginFrame).
    BeginFrame {
        session: u64,
    },
    /// Ends the begun frame with its layers (chapter 10, xrEndFrame).
    EndFrame {
        session: u64,
        time: i64,
        blend: Blend,
        layers: Items<'a, Layer>,
    },
    /// Sets a mark, from 1 to 64, with a value. This project's own.
    Mark {
        mark: u8,
        value: u64,
    },
    /// Waits for a mark and asks for its value. This project's own.
    AwaitMark {
        mark: u8,
    },
    /// Says that the application makes no further call. This project's own.
    Leave,
    /// Something happens at the device. This project's own.
    Device(DeviceEvent),
    /// The compositor asks for the next frame, or for the end. This project's own.
    NextFrame,
    /// The compositor gives back an image of the frame that it has taken. This project's own.
    ImageDone,
}

/// The values that a call gives beside its code.
#[derive(Clone, Copy)]
pub enum Gives {
    Nothing,
    /// A new handle. It is nonzero and was never given before.
    Handle(u64),
    /// An atom, a system, an image's index or a mark's value.
    Number(u64),
    /// How many bytes a text takes with its terminating zero.
    Size(u64),
    Event(Event),
    Frame(FrameState),
    Boolean(BoolState),
    Float(FloatState),
    Vector(VectorState),
    /// Whether a pose action is active.
    Active(bool),
    Location(Location),
    /// The compositor has taken a frame.
    Shown,
    /// Every application has left and no frame is pending.
    Ended,
}

/// What a call answers. `place` is the count of locked calls decided so far, this one included; for a
/// getter it is the number of the publication that it read, and for `image_done` 0.
#[derive(Clone, Copy)]
pub struct Reply {
    pub code: Code,
    pub gives: Gives,
    pub place: u64,
}

/// A code and a number, as a part of the core answers. The number is 0 where the code has none.
#[derive(Clone, Copy)]
pub struct Answer {
    pub code: Code,
    pub number: u64,
}

impl Answer {
    /// A code without a number.
    pub fn plain(code: Code) -> Answer
        ensures { result ≡ record { code = code; number = 0 } }
    {
        Answer { code, number: 0 }
    }

    /// A success with its number.
    pub fn numbered(number: u64) -> Answer
        ensures { result ≡ record { code = Code.Success; number = number } }
    {
        Answer {
            code: Code::Success,
            number,
        }
    }
}

/// What the core answers to a call: its reply, or that the call has to wait.
#[derive(Clone, Copy)]
pub enum Step {
    Done(Reply),
    NotReady,
}

/// Memory was asked for and not given.
#[derive(Clone, Copy, Debug, PartialEq, Eq)]
pub struct NoMemory;

impl From<AllocError> for NoMemory {
    fn from(_: AllocError) -> NoMemory {
        NoMemory
    }
}

impl<T: Drop> From<AllocFailed<T>> for NoMemory {
    fn from(_: AllocFailed<T>) -> NoMemory {
        NoMemory
    }
}
