// The lines of a script's calls without values: the names of all calls, and all codes.
use super::lists::{Row, is_report, lists_of, script};
use std::alloc::{AllocError, Global};
use std::test::Fail;
use xr_types::{CallName, Code, Gives, Several};

/// A call of a name with a code.
fn row(name: CallName, code: Code) -> Row {
    (name, 0, code, Gives::Nothing, b"")
}

/// A call of each name that a script's list has, and one with each code.
fn rows(alloc: Global) -> Result<Vec<Row>, AllocError> {
    let mut rows = Vec::new(alloc);
    for name in CallName::ops() {
        rows.push(row(*name, Code::Success))?;
    }
    rows.push(row(CallName::Leave, Code::Success))?;
    for code in Code::ALL {
        rows.push(row(CallName::Paint, code))?;
    }
    Ok(rows)
}

/// Their report.
const REPORT: &str = "\
xrsim report 1
thread 1
1 create_instance XR_SUCCESS
2 destroy_instance XR_SUCCESS
3 poll_event XR_SUCCESS
4 get_system XR_SUCCESS
5 string_to_path XR_SUCCESS
6 path_to_string XR_SUCCESS
7 create_session XR_SUCCESS
8 destroy_session XR_SUCCESS
9 end_session XR_SUCCESS
10 request_exit_session XR_SUCCESS
11 begin_frame XR_SUCCESS
12 begin_session XR_SUCCESS
13 create_reference_space XR_SUCCESS
14 create_action_space XR_SUCCESS
15 destroy_space XR_SUCCESS
16 locate_space XR_SUCCESS
17 create_action_set XR_SUCCESS
18 destroy_action_set XR_SUCCESS
19 create_action XR_SUCCESS
20 destroy_action XR_SUCCESS
21 suggest_bindings XR_SUCCESS
22 attach_sets XR_SUCCESS
23 sync_actions XR_SUCCESS
24 get_boolean XR_SUCCESS
25 get_float XR_SUCCESS
26 get_vector XR_SUCCESS
27 get_pose_active XR_SUCCESS
28 create_swapchain XR_SUCCESS
29 destroy_swapchain XR_SUCCESS
30 acquire_image XR_SUCCESS
31 release_image XR_SUCCESS
32 wait_image XR_SUCCESS
33 paint XR_SUCCESS
34 wait_frame XR_SUCCESS
35 end_frame XR_SUCCESS
36 mark XR_SUCCESS
37 await XR_SUCCESS
38 leave XR_SUCCESS
39 paint XR_SUCCESS
40 paint XR_TIMEOUT_EXPIRED
41 paint XR_SESSION_LOSS_PENDING
42 paint XR_EVENT_UNAVAILABLE
43 paint XR_SESSION_NOT_FOCUSED
44 paint XR_FRAME_DISCARDED
45 paint XR_ERROR_VALIDATION_FAILURE
46 paint XR_ERROR_OUT_OF_MEMORY
47 paint XR_ERROR_API_VERSION_UNSUPPORTED
48 paint XR_ERROR_LIMIT_REACHED
49 paint XR_ERROR_SIZE_INSUFFICIENT
50 paint XR_ERROR_HANDLE_INVALID
51 paint XR_ERROR_SESSION_RUNNING
52 paint XR_ERROR_SESSION_NOT_RUNNING
53 paint XR_ERROR_SESSION_LOST
54 paint XR_ERROR_SYSTEM_INVALID
55 paint XR_ERROR_PATH_INVALID
56 paint XR_ERROR_PATH_COUNT_EXCEEDED
57 paint XR_ERROR_PATH_FORMAT_INVALID
58 paint XR_ERROR_PATH_UNSUPPORTED
59 paint XR_ERROR_LAYER_INVALID
60 paint XR_ERROR_LAYER_LIMIT_EXCEEDED
61 paint XR_ERROR_SWAPCHAIN_RECT_INVALID
62 paint XR_ERROR_SWAPCHAIN_FORMAT_UNSUPPORTED
63 paint XR_ERROR_ACTION_TYPE_MISMATCH
64 paint XR_ERROR_SESSION_NOT_READY
65 paint XR_ERROR_SESSION_NOT_STOPPING
66 paint XR_ERROR_TIME_INVALID
67 paint XR_ERROR_REFERENCE_SPACE_UNSUPPORTED
68 paint XR_ERROR_FORM_FACTOR_UNSUPPORTED
69 paint XR_ERROR_CALL_ORDER_INVALID
70 paint XR_ERROR_POSE_INVALID
71 paint XR_ERROR_VIEW_CONFIGURATION_TYPE_UNSUPPORTED
72 paint XR_ERROR_ENVIRONMENT_BLEND_MODE_UNSUPPORTED
73 paint XR_ERROR_NAME_DUPLICATED
74 paint XR_ERROR_NAME_INVALID
75 paint XR_ERROR_ACTIONSET_NOT_ATTACHED
76 paint XR_ERROR_ACTIONSETS_ALREADY_ATTACHED
77 paint XR_ERROR_LOCALIZED_NAME_DUPLICATED
78 paint XR_ERROR_LOCALIZED_NAME_INVALID
compositor
device
status 0
";

#[test]
fn each_name_and_each_code_is_printed(rt: HostRuntime) -> Result<(), Fail> {
    let alloc = rt.alloc();
    let rows = rows(alloc)?;
    let lists = lists_of(
        alloc,
        script(alloc, rows.as_slice())?,
        Several::new(Vec::new(alloc)),
        Vec::new(alloc),
        Vec::new(alloc),
    );
    assert!(rt; is_report(alloc, lists, false, REPORT)?);
    Ok(())
}
