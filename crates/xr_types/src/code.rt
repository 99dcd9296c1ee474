// What a call answers, and the names of OpenXR.
ghost use Rattle.std.specs.Prelude.{◌≡◌, ◌<◌, Some};
ghost use Rattle.xr_types.specs.Code.{name_of_code, number_of_code, NumbersArePlaces, is_success};

use std::fmt;

/// What a call answers. Each variant is one result of OpenXR 1.0 and is named for it; the standard's
/// numbers are neither printed nor kept. The first six are no errors.
#[derive(Clone, Copy, Debug, PartialEq, Eq)]
pub enum Code {
    Success,
    TimeoutExpired,
    SessionLossPending,
    EventUnavailable,
    SessionNotFocused,
    FrameDiscarded,
    ValidationFailure,
    OutOfMemory,
    ApiVersionUnsupported,
    LimitReached,
    SizeInsufficient,
    HandleInvalid,
    SessionRunning,
    SessionNotRunning,
    SessionLost,
    SystemInvalid,
    PathInvalid,
    PathCountExceeded,
    PathFormatInvalid,
    PathUnsupported,
    LayerInvalid,
    LayerLimitExceeded,
    SwapchainRectInvalid,
    SwapchainFormatUnsupported,
    ActionTypeMismatch,
    SessionNotReady,
    SessionNotStopping,
    TimeInvalid,
    ReferenceSpaceUnsupported,
    FormFactorUnsupported,
    CallOrderInvalid,
    PoseInvalid,
    ViewConfigurationTypeUnsupported,
    EnvironmentBlendModeUnsupported,
    NameDuplicated,
    NameInvalid,
    ActionsetNotAttached,
    ActionsetsAlreadyAttached,
    LocalizedNameDuplicated,
    LocalizedNameInvalid,
}

impl Code {
    /// All results: first those that are no errors, then the errors. A result's number is its place here, from 0.
    pub const ALL: [Code; 40] = [
        Code::Success,
        Code::TimeoutExpired,
        Code::SessionLossPending,
        Code::EventUnavailable,
        Code::SessionNotFocused,
        Code::FrameDiscarded,
        Code::ValidationFailure,
        Code::OutOfMemory,
        Code::ApiVersionUnsupported,
        Code::LimitReached,
        Code::SizeInsufficient,
        Code::HandleInvalid,
        Code::SessionRunning,
        Code::SessionNotRunning,
        Code::SessionLost,
        Code::SystemInvalid,
        Code::PathInvalid,
        Code::PathCountExceeded,
        Code::PathFormatInvalid,
        Code::PathUnsupported,
        Code::LayerInvalid,
        Code::LayerLimitExceeded,
        Code::SwapchainRectInvalid,
        Code::SwapchainFormatUnsupported,
        Code::ActionTypeMismatch,
        Code::SessionNotReady,
        Code::SessionNotStopping,
        Code::TimeInvalid,
        Code::ReferenceSpaceUnsupported,
        Code::FormFactorUnsupported,
        Code::CallOrderInvalid,
        Code::PoseInvalid,
        Code::ViewConfigurationTypeUnsupported,
        Code::EnvironmentBlendModeUnsupported,
        Code::NameDuplicated,
        Code::NameInvalid,
        Code::ActionsetNotAttached,
        Code::ActionsetsAlreadyAttached,
        Code::LocalizedNameDuplicated,
        Code::LocalizedNameInvalid,
    ];

    /// The name of the OpenXR result, as a report prints it.
    pub fn name(self) -> &'static str
        ensures { result.now ≡ name_of_code self }
    {
        match self {
            Code::Success => "XR_SUCCESS",
            Code::TimeoutExpired => "XR_TIMEOUT_EXPIRED",
            Code::SessionLossPending => "XR_SESSION_LOSS_PENDING",
            Code::EventUnavailable => "XR_EVENT_UNAVAILABLE",
            Code::SessionNotFocused => "XR_SESSION_NOT_FOCUSED",
            Code::FrameDiscarded => "XR_FRAME_DISCARDED",
            Code::ValidationFailure => "XR_ERROR_VALIDATION_FAILURE",
            Code::OutOfMemory => "XR_ERROR_OUT_OF_MEMORY",
            Code::ApiVersionUnsupported => "XR_ERROR_API_VERSION_UNSUPPORTED",
            Code::LimitReached => "XR_ERROR_LIMIT_REACHED",
            Code::SizeInsufficient => "XR_ERROR_SIZE_INSUFFICIENT",
            Code::HandleInvalid => "XR_ERROR_HANDLE_INVALID",
            Code::SessionRunning => "XR_ERROR_SESSION_RUNNING",
            Code::SessionNotRunning => "XR_ERROR_SESSION_NOT_RUNNING",
            Code::SessionLost => "XR_ERROR_SESSION_LOST",
            Code::SystemInvalid => "XR_ERROR_SYSTEM_INVALID",
            Code::PathInvalid => "XR_ERROR_PATH_INVALID",
            Code::PathCountExceeded => "XR_ERROR_PATH_COUNT_EXCEEDED",
            Code::PathFormatInvalid => "XR_ERROR_PATH_FORMAT_INVALID",
            Code::PathUnsupported => "XR_ERROR_PATH_UNSUPPORTED",
            Code::LayerInvalid => "XR_ERROR_LAYER_INVALID",
            Code::LayerLimitExceeded => "XR_ERROR_LAYER_LIMIT_EXCEEDED",
            Code::SwapchainRectInvalid => "XR_ERROR_SWAPCHAIN_RECT_INVALID",
            Code::SwapchainFormatUnsupported => "XR_ERROR_SWAPCHAIN_FORMAT_UNSUPPORTED",
            Code::ActionTypeMismatch => "XR_ERROR_ACTION_TYPE_MISMATCH",
            Code::SessionNotReady => "XR_ERROR_SESSION_NOT_READY",
            Code::SessionNotStopping => "XR_ERROR_SESSION_NOT_STOPPING",
            Code::TimeInvalid => "XR_ERROR_TIME_INVALID",
            Code::ReferenceSpaceUnsupported => "XR_ERROR_REFERENCE_SPACE_UNSUPPORTED",
            Code::FormFactorUnsupported => "XR_ERROR_FORM_FACTOR_UNSUPPORTED",
            Code::CallOrderInvalid => "XR_ERROR_CALL_ORDER_INVALID",
            Code::PoseInvalid => "XR_ERROR_POSE_INVALID",
            Code::ViewConfigurationTypeUnsupported =>
                "XR_ERROR_VIEW_CONFIGURATION_TYPE_UNSUPPORTED",
            Code::EnvironmentBlendModeUnsupported => "XR_ERROR_ENVIRONMENT_BLEND_MODE_UNSUPPORTED",
            Code::NameDuplicated => "XR_ERROR_NAME_DUPLICATED",
            Code::NameInvalid => "XR_ERROR_NAME_INVALID",
            Code::ActionsetNotAttached => "XR_ERROR_ACTIONSET_NOT_ATTACHED",
            Code::ActionsetsAlreadyAttached => "XR_ERROR_ACTIONSETS_ALREADY_ATTACHED",
            Code::LocalizedNameDuplicated => "XR_ERROR_LOCALIZED_NAME_DUPLICATED",
            Code::LocalizedNameInvalid => "XR_ERROR_LOCALIZED_NAME_INVALID",
        }
    }

    /// The number of the result: its place in `ALL`, below 40. It is this project's own, and never printed.
    pub fn number(self) -> usize
        ensures value { result ≡ number_of_code self }
        ensures few { result < 40 }
    {
        self as usize
    }

    /// Whether the call had its effect: success, loss pending, a session that isn't focused, or a discarded frame.
    pub fn is_success(self) -> bool
        ensures { result ≡ is_success self }
    {
        matches!(
            self,
            Code::Success
                | Code::SessionLossPending
                | Code::SessionNotFocused
                | Code::FrameDiscarded
        )
    }
}

impl fmt::Display for Code {
    ghost output = { λ code. Some (name_of_code code) };

    fn fmt<W: fmt::Write>(&self, f: &mut fmt::Formatter<W>) -> fmt::Result {
        f.write_str(self.name())
    }
}

/// The number of each result is its place in `Code::ALL`.
#[tactic(auto, using(crate::proofs::CodeNumbers::numbers_are_places))]
pub fn numbers_are_places()
    ensures { NumbersArePlaces }
{}
