// What kind of call it is: whether it is counted, what it publishes, the buffer that it is lent, and how it is listed.
ghost use Rattle.std.specs.Prelude.{◌≡◌, ◌≤◌};
ghost use Rattle.xr_types.specs.CallKinds.{is_getter, is_locked, is_leave, publishes, is_published, lent_size, written_size, listed_name, mark_of, start_of, with_start, listed_as};

use crate::{Bytes, Call, CallName, Code, DeviceEvent, Gives, Made, Reply};

/// Whether a call that publishes does so where it is answered by this code.
fn is_published(code: Code) -> bool
    ensures { result ≡ is_published code }
{
    matches!(
        code,
        Code::Success | Code::SessionLossPending | Code::SessionNotFocused
    )
}

impl<'a> Call<'a> {
    /// Whether it is a getter of input, which answers from what was published last (OpenXR 1.0 chapter 11,
    /// xrGetActionStateBoolean and its like).
    pub fn is_getter(&self) -> bool
        ensures { result ≡ is_getter self.now }
    {
        // rows: the getters
        matches!(
            self,
            Call::GetBoolean { .. }
                | Call::GetFloat { .. }
                | Call::GetVector { .. }
                | Call::GetPoseActive { .. }
        )
        // rows: end
    }

    /// Whether it is a locked one, which are those that are counted: all but the getters and `ImageDone`.
    pub fn is_locked(&self) -> bool
        ensures { result ≡ is_locked self.now }
    {
        // rows: the counted
        !matches!(
            self,
            Call::GetBoolean { .. }
                | Call::GetFloat { .. }
                | Call::GetVector { .. }
                | Call::GetPoseActive { .. }
                | Call::ImageDone
        )
        // rows: end
    }

    /// Whether an application leaves by it, which is its last call.
    pub fn is_leave(&self) -> bool
        ensures { result ≡ is_leave self.now }
    {
        matches!(self, Call::Leave)
    }

    /// Whether it publishes what getters answer from, where it is answered by this code. That there are publications is this
    /// project's own.
    pub fn publishes(&self, code: Code) -> bool
        ensures { result ≡ publishes self.now code }
    {
        match self {
            Call::CreateSession { .. }
            | Call::DestroySession { .. }
            | Call::CreateAction { .. }
            | Call::DestroyAction { .. }
            | Call::DestroyActionSet { .. }
            | Call::DestroyInstance { .. }
            | Call::AttachSets { .. }
            | Call::SyncActions { .. } => is_published(code),
            Call::Device(event) => matches!(
                event,
                DeviceEvent::Loss | DeviceEvent::Lost | DeviceEvent::Fault | DeviceEvent::Garbled(_)
            ),
            _ => false,
        }
    }

    /// How many bytes it is lent: the capacity of `PathToString`, and none for any other call.
    pub fn lent_size(&self) -> u64
        ensures { result ≡ lent_size self.now }
    {
        match self {
            // rows: the lent
            Call::PathToString { capacity, .. } => *capacity,
            // rows: end
            _ => 0,
        }
    }

    /// The name by which it is listed.
    pub fn name(&self) -> CallName
        ensures { result ≡ listed_name self.now }
    {
        match self {
            // rows: the names
            Call::CreateInstance { .. } => CallName::CreateInstance,
            Call::DestroyInstance { .. } => CallName::DestroyInstance,
            Call::GetSystem { .. } => CallName::GetSystem,
            Call::StringToPath { .. } => CallName::StringToPath,
            Call::PathToString { .. } => CallName::PathToString,
            Call::PollEvent { .. } => CallName::PollEvent,
            Call::CreateSession { .. } => CallName::CreateSession,
            Call::DestroySession { .. } => CallName::DestroySession,
            Call::BeginSession { .. } => CallName::BeginSession,
            Call::EndSession { .. } => CallName::EndSession,
            Call::RequestExitSession { .. } => CallName::RequestExitSession,
            Call::CreateReferenceSpace { .. } => CallName::CreateReferenceSpace,
            Call::CreateActionSpace { .. } => CallName::CreateActionSpace,
            Call::DestroySpace { .. } => CallName::DestroySpace,
            Call::LocateSpace { .. } => CallName::LocateSpace,
            Call::CreateActionSet { .. } => CallName::CreateActionSet,
            Call::DestroyActionSet { .. } => CallName::DestroyActionSet,
            Call::CreateAction { .. } => CallName::CreateAction,
            Call::DestroyAction { .. } => CallName::DestroyAction,
            Call::SuggestBindings { .. } => CallName::SuggestBindings,
            Call::AttachSets { .. } => CallName::AttachSets,
            Call::SyncActions { .. } => CallName::SyncActions,
            Call::GetBoolean { .. } => CallName::GetBoolean,
            Call::GetFloat { .. } => CallName::GetFloat,
            Call::GetVector { .. } => CallName::GetVector,
            Call::GetPoseActive { .. } => CallName::GetPoseActive,
            Call::CreateSwapchain { .. } => CallName::CreateSwapchain,
            Call::DestroySwapchain { .. } => CallName::DestroySwapchain,
            Call::AcquireImage { .. } => CallName::AcquireImage,
            Call::WaitImage { .. } => CallName::WaitImage,
            Call::Paint { .. } => CallName::Paint,
            Call::ReleaseImage { .. } => CallName::ReleaseImage,
            Call::WaitFrame { .. } => CallName::WaitFrame,
            Call::BeginFrame { .. } => CallName::BeginFrame,
            Call::EndFrame { .. } => CallName::EndFrame,
            Call::Mark { .. } => CallName::Mark,
            Call::AwaitMark { .. } => CallName::Await,
            Call::Leave => CallName::Leave,
            Call::Device { .. } => CallName::Device,
            Call::NextFrame => CallName::NextFrame,
            Call::ImageDone => CallName::ImageDone,
            // rows: end
        }
    }

    /// The mark that it awaits, from 1 to 64; 0 where it awaits none.
    pub fn mark(&self) -> u8
        ensures { result ≡ mark_of self.now }
    {
        match self {
            Call::AwaitMark { mark } => *mark,
            _ => 0,
        }
    }

    /// When its wait for an image began, in ns of device time; 0 where it waits for none.
    pub fn start(&self) -> i64
        ensures { result ≡ start_of self.now }
    {
        match self {
            Call::WaitImage { start, .. } => *start,
            _ => 0,
        }
    }

    /// Has a wait for an image begin at this clock, in ns of device time. Other calls stay.
    pub fn begin_wait(&mut self, clock: i64)
        ensures { self.new ≡ with_start clock self.old }
    {
        if let Call::WaitImage { start, .. } = self {
            *start = clock;
        }
    }

    /// It in its actor's list, as the call of the op at this place from 1, with its reply and the bytes that it put into its buffer.
    pub fn listed(&self, op: u32, reply: Reply, text: Bytes) -> Made
        ensures { result ≡ listed_as self.now op reply text }
    {
        Made {
            op,
            name: self.name(),
            mark: self.mark(),
            start: self.start(),
            reply,
            text,
        }
    }
}

impl Gives {
    /// How many bytes of a lent buffer of this size were written, by what a reply gives.
    pub fn written_size(&self, size: u64) -> u64
        ensures written { result ≡ written_size self.now size }
        ensures within { result ≤ size }
    {
        match self {
            Gives::Size(written) if *written <= size => *written,
            _ => 0,
        }
    }
}
