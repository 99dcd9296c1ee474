// The calls by their names in scenarios and reports.
ghost use Rattle.std.specs.Prelude.{◌≡◌, Some};
ghost use Rattle.xr_types.specs.Op.{name_of_call, all_ops};

use std::fmt;

/// A call by its name. Each script ends with `leave`; `device` is what the device does; `next_frame` and
/// `image_done` are the compositor's.
#[derive(Clone, Copy, Debug, PartialEq, Eq)]
pub enum CallName {
    // rows: the names
    CreateInstance,
    DestroyInstance,
    PollEvent,
    GetSystem,
    StringToPath,
    PathToString,
    CreateSession,
    DestroySession,
    EndSession,
    RequestExitSession,
    BeginFrame,
    BeginSession,
    CreateReferenceSpace,
    CreateActionSpace,
    DestroySpace,
    LocateSpace,
    CreateActionSet,
    DestroyActionSet,
    CreateAction,
    DestroyAction,
    SuggestBindings,
    AttachSets,
    SyncActions,
    GetBoolean,
    GetFloat,
    GetVector,
    GetPoseActive,
    CreateSwapchain,
    DestroySwapchain,
    AcquireImage,
    ReleaseImage,
    WaitImage,
    Paint,
    WaitFrame,
    EndFrame,
    Mark,
    Await,
    Leave,
    Device,
    NextFrame,
    ImageDone,
    // rows: end
}

impl CallName {
    /// The ops in the order of the format.
    pub fn ops() -> &'static [CallName]
        ensures { result.now ≡ all_ops }
    {
        // rows: the ops
        &[
            CallName::CreateInstance,
            CallName::DestroyInstance,
            CallName::PollEvent,
            CallName::GetSystem,
            CallName::StringToPath,
            CallName::PathToString,
            CallName::CreateSession,
            CallName::DestroySession,
            CallName::EndSession,
            CallName::RequestExitSession,
            CallName::BeginFrame,
            CallName::BeginSession,
            CallName::CreateReferenceSpace,
            CallName::CreateActionSpace,
            CallName::DestroySpace,
            CallName::LocateSpace,
            CallName::CreateActionSet,
            CallName::DestroyActionSet,
            CallName::CreateAction,
            CallName::DestroyAction,
            CallName::SuggestBindings,
            CallName::AttachSets,
            CallName::SyncActions,
            CallName::GetBoolean,
            CallName::GetFloat,
            CallName::GetVector,
            CallName::GetPoseActive,
            CallName::CreateSwapchain,
            CallName::DestroySwapchain,
            CallName::AcquireImage,
            CallName::ReleaseImage,
            CallName::WaitImage,
            CallName::Paint,
            CallName::WaitFrame,
            CallName::EndFrame,
            CallName::Mark,
            CallName::Await,
        ]
        // rows: end
    }

    /// The name as scenarios and reports write it.
    pub fn name(self) -> &'static str
        ensures { result.now ≡ name_of_call self }
    {
        match self {
            // rows: names written
            CallName::CreateInstance => "create_instance",
            CallName::DestroyInstance => "destroy_instance",
            CallName::PollEvent => "poll_event",
            CallName::GetSystem => "get_system",
            CallName::StringToPath => "string_to_path",
            CallName::PathToString => "path_to_string",
            CallName::CreateSession => "create_session",
            CallName::DestroySession => "destroy_session",
            CallName::EndSession => "end_session",
            CallName::RequestExitSession => "request_exit_session",
            CallName::BeginFrame => "begin_frame",
            CallName::BeginSession => "begin_session",
            CallName::CreateReferenceSpace => "create_reference_space",
            CallName::CreateActionSpace => "create_action_space",
            CallName::DestroySpace => "destroy_space",
            CallName::LocateSpace => "locate_space",
            CallName::CreateActionSet => "create_action_set",
            CallName::DestroyActionSet => "destroy_action_set",
            CallName::CreateAction => "create_action",
            CallName::DestroyAction => "destroy_action",
            CallName::SuggestBindings => "suggest_bindings",
            CallName::AttachSets => "attach_sets",
            CallName::SyncActions => "sync_actions",
            CallName::GetBoolean => "get_boolean",
            CallName::GetFloat => "get_float",
            CallName::GetVector => "get_vector",
            CallName::GetPoseActive => "get_pose_active",
            CallName::CreateSwapchain => "create_swapchain",
            CallName::DestroySwapchain => "destroy_swapchain",
            CallName::AcquireImage => "acquire_image",
            CallName::ReleaseImage => "release_image",
            CallName::WaitImage => "wait_image",
            CallName::Paint => "paint",
            CallName::WaitFrame => "wait_frame",
            CallName::EndFrame => "end_frame",
            CallName::Mark => "mark",
            CallName::Await => "await",
            CallName::Leave => "leave",
            CallName::Device => "device",
            CallName::NextFrame => "next_frame",
            CallName::ImageDone => "image_done",
            // rows: end
        }
    }
}

impl fmt::Display for CallName {
    ghost output = { λ call. Some (name_of_call call) };

    fn fmt<W: fmt::Write>(&self, f: &mut fmt::Formatter<W>) -> fmt::Result {
        f.write_str(self.name())
    }
}
