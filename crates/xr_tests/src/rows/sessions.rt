// Instances and sessions, and what a device does to them.
use crate::ends::Row;

const ROWS: &[Row] = &[
    Row {
        name: "handles go with their instance",
        words: &["serial", "scenario.json"],
        scenario: r#"{"version":1,"scripts":[[
{"op":"create_instance","major":1,"minor":0,"as":"i"},
{"op":"get_system","instance":"i","form":"head","as":"y"},
{"op":"create_session","instance":"i","system":"y","as":"s"},
{"op":"create_action_set","instance":"i","name":"play","localized":"Play","priority":0,"as":"a"},
{"op":"create_action","set":"a","name":"fire","type":"boolean","subactions":[],"localized":"Fire","as":"f"},
{"op":"create_reference_space","session":"s","kind":"local","offset":1,"as":"r"},
{"op":"create_swapchain","session":"s","format":1,"width":64,"height":64,"static":false,"as":"c"},
{"op":"destroy_instance","instance":"i"},
{"op":"begin_session","session":"s","view":"stereo"},
{"op":"create_action","set":"a","name":"jump","type":"boolean","subactions":[],"localized":"Jump"},
{"op":"get_boolean","session":"s","action":"f","sub":0},
{"op":"locate_space","space":"r","base":"r","time":1},
{"op":"acquire_image","chain":"c"},
{"op":"create_instance","major":1,"minor":0,"as":"j"},
{"op":"poll_event","instance":"i"},
{"op":"poll_event","instance":"j"}]]}"#,
        report: "\
xrsim report 1
thread 1
1 create_instance XR_SUCCESS
2 get_system XR_SUCCESS 1
3 create_session XR_SUCCESS
4 create_action_set XR_SUCCESS
5 create_action XR_SUCCESS
6 create_reference_space XR_SUCCESS
7 create_swapchain XR_SUCCESS
8 destroy_instance XR_SUCCESS
9 begin_session XR_ERROR_HANDLE_INVALID
10 create_action XR_ERROR_HANDLE_INVALID
11 get_boolean XR_ERROR_HANDLE_INVALID
12 locate_space XR_ERROR_HANDLE_INVALID
13 acquire_image XR_ERROR_HANDLE_INVALID
14 create_instance XR_SUCCESS
15 poll_event XR_ERROR_HANDLE_INVALID
16 poll_event XR_EVENT_UNAVAILABLE
17 leave XR_SUCCESS
compositor
ended
device
status 0
",
        ..Row::EMPTY
    },
    Row {
        name: "a session begins once its device is ready",
        words: &["serial", "scenario.json", "--device", "device.txt"],
        scenario: r#"{"version":1,"scripts":[[
{"op":"create_instance","major":1,"minor":0,"as":"i"},
{"op":"get_system","instance":"i","form":"head","as":"y"},
{"op":"create_session","instance":"i","system":"y","as":"s"},
{"op":"begin_session","session":"s","view":"stereo"},
{"op":"mark","mark":1},
{"op":"await","mark":2},
{"op":"begin_session","session":"s","view":"mono"},
{"op":"begin_session","session":"s","view":"stereo"},
{"op":"begin_session","session":"s","view":"stereo"},
{"op":"end_session","session":"s"}]]}"#,
        device: "\
await 1
wish ready
mark 2
",
        report: "\
xrsim report 1
thread 1
1 create_instance XR_SUCCESS
2 get_system XR_SUCCESS 1
3 create_session XR_SUCCESS
4 begin_session XR_ERROR_SESSION_NOT_READY
5 mark XR_SUCCESS
6 await XR_SUCCESS
7 begin_session XR_ERROR_VIEW_CONFIGURATION_TYPE_UNSUPPORTED
8 begin_session XR_SUCCESS
9 begin_session XR_ERROR_SESSION_RUNNING
10 end_session XR_ERROR_SESSION_NOT_STOPPING
11 leave XR_SUCCESS
compositor
ended
device
1 await 1
2 wish ready
3 mark 2
status 0
",
        ..Row::EMPTY
    },
    Row {
        name: "a loss is pending",
        words: &["serial", "scenario.json", "--device", "device.txt"],
        scenario: r#"{"version":1,"scripts":[[
{"op":"create_instance","major":1,"minor":0,"as":"i"},
{"op":"get_system","instance":"i","form":"head","as":"y"},
{"op":"create_session","instance":"i","system":"y","as":"s"},
{"op":"begin_session","session":"s","view":"stereo"},
{"op":"mark","mark":1},
{"op":"await","mark":2},
{"op":"wait_frame","session":"s","as":"t"},
{"op":"begin_frame","session":"s"},
{"op":"end_frame","session":"s","time":"t","blend":"opaque","layers":[]},
{"op":"sync_actions","session":"s","active":[]},
{"op":"end_session","session":"s"},
{"op":"poll_event","instance":"i"},
{"op":"poll_event","instance":"i"},
{"op":"poll_event","instance":"i"},
{"op":"destroy_session","session":"s"}]]}"#,
        device: "\
wish ready
await 1
loss
mark 2
",
        report: "\
xrsim report 1
thread 1
1 create_instance XR_SUCCESS
2 get_system XR_SUCCESS 1
3 create_session XR_SUCCESS
4 begin_session XR_SUCCESS
5 mark XR_SUCCESS
6 await XR_SUCCESS
7 wait_frame XR_SESSION_LOSS_PENDING time 11111111 period 11111111 render 0
8 begin_frame XR_SESSION_LOSS_PENDING
9 end_frame XR_SESSION_LOSS_PENDING
10 sync_actions XR_SESSION_NOT_FOCUSED
11 end_session XR_ERROR_SESSION_NOT_STOPPING
12 poll_event XR_SUCCESS state 1 IDLE
13 poll_event XR_SUCCESS state 1 READY
14 poll_event XR_SUCCESS state 1 LOSS_PENDING
15 destroy_session XR_SUCCESS
16 leave XR_SUCCESS
compositor
frame 1 time 11111111 layers 0
ended
device
1 wish ready
2 await 1
3 loss
4 mark 2
status 0
",
        ..Row::EMPTY
    },
    Row {
        name: "a session and its instance",
        words: &["serial", "scenario.json"],
        scenario: r#"{"version":1,"scripts":[[
{"op":"create_instance","major":1,"minor":0,"as":"i"},
{"op":"get_system","instance":"i","form":"head","as":"y"},
{"op":"create_session","instance":"i","system":"y","as":"s"},
{"op":"poll_event","instance":"i"},
{"op":"poll_event","instance":"i"},
{"op":"create_session","instance":"i","system":"y"},
{"op":"string_to_path","instance":"i","text":"/a"},
{"op":"destroy_instance","instance":"i"},
{"op":"path_to_string","instance":"i","path":1,"capacity":0},
{"op":"create_instance","major":1,"minor":0,"as":"j"},
{"op":"string_to_path","instance":"j","text":"/b"},
{"op":"destroy_session","session":"s"},
{"op":"poll_event","instance":"j"}]]}"#,
        report: "\
xrsim report 1
thread 1
1 create_instance XR_SUCCESS
2 get_system XR_SUCCESS 1
3 create_session XR_SUCCESS
4 poll_event XR_SUCCESS state 1 IDLE
5 poll_event XR_EVENT_UNAVAILABLE
6 create_session XR_SUCCESS
7 string_to_path XR_SUCCESS 1
8 destroy_instance XR_SUCCESS
9 path_to_string XR_ERROR_HANDLE_INVALID
10 create_instance XR_SUCCESS
11 string_to_path XR_SUCCESS 1
12 destroy_session XR_ERROR_HANDLE_INVALID
13 poll_event XR_EVENT_UNAVAILABLE
14 leave XR_SUCCESS
compositor
ended
device
status 0
",
        ..Row::EMPTY
    },
    Row {
        name: "a session is lost",
        words: &["serial", "scenario.json", "--device", "device.txt"],
        scenario: r#"{"version":1,"scripts":[[
{"op":"create_instance","major":1,"minor":0,"as":"i"},
{"op":"get_system","instance":"i","form":"head","as":"y"},
{"op":"create_session","instance":"i","system":"y","as":"s"},
{"op":"mark","mark":1},
{"op":"await","mark":2},
{"op":"begin_session","session":"s","view":"stereo"},
{"op":"request_exit_session","session":"s"},
{"op":"create_session","instance":"i","system":"y"},
{"op":"poll_event","instance":"i"},
{"op":"poll_event","instance":"i"},
{"op":"poll_event","instance":"i"}]]}"#,
        device: "\
await 1
loss
mark 2
",
        report: "\
xrsim report 1
thread 1
1 create_instance XR_SUCCESS
2 get_system XR_SUCCESS 1
3 create_session XR_SUCCESS
4 mark XR_SUCCESS
5 await XR_SUCCESS
6 begin_session XR_ERROR_SESSION_NOT_READY
7 request_exit_session XR_ERROR_SESSION_NOT_RUNNING
8 create_session XR_SUCCESS
9 poll_event XR_SUCCESS state 1 IDLE
10 poll_event XR_SUCCESS state 1 LOSS_PENDING
11 poll_event XR_SUCCESS state 2 IDLE
12 leave XR_SUCCESS
compositor
ended
device
1 await 1
2 loss
3 mark 2
status 0
",
        ..Row::EMPTY
    },
];

/// The rows.
pub(super) fn rows() -> &'static [Row] {
    ROWS
}
