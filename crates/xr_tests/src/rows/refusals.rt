// Refused creations, runs that are stuck, and a device that says no more.
use crate::ends::Row;

const A_MALFORMED_LINE: Row = Row {
    name: "a line of the device is malformed",
    words: &["serial", "scenario.json", "--device", "device.txt"],
    scenario: r#"{"version":1,"scripts":[[
{"op":"create_instance","major":1,"minor":0,"as":"i"},
{"op":"get_system","instance":"i","form":"head","as":"y"},
{"op":"create_session","instance":"i","system":"y","as":"s"},
{"op":"poll_event","instance":"i"},
{"op":"poll_event","instance":"i"},
{"op":"poll_event","instance":"i"},
{"op":"poll_event","instance":"i"},
{"op":"begin_session","session":"s","view":"stereo"}]]}"#,
    device: "\
clock 1
clock 2
clock 3
clock 4
clock 5
clock 6
wish maybe
",
    status: 6,
    line: "xrsim: device line 7 garbled\n",
    report: "\
xrsim report 1
thread 1
1 create_instance XR_SUCCESS
2 get_system XR_SUCCESS 1
3 create_session XR_SUCCESS
4 poll_event XR_SUCCESS state 1 IDLE
5 poll_event XR_EVENT_UNAVAILABLE
6 poll_event XR_EVENT_UNAVAILABLE
7 poll_event XR_EVENT_UNAVAILABLE
8 begin_session XR_ERROR_SESSION_LOST
9 leave XR_SUCCESS
compositor
ended
device
1 clock 1
2 clock 2
3 clock 3
4 clock 4
5 clock 5
6 clock 6
garbled 7
status 6
",
    ..Row::EMPTY
};

const ROWS: &[Row] = &[
    Row {
        name: "two scripts wait for each other",
        words: &["serial", "scenario.json"],
        scenario: r#"{"version":1,"scripts":[[{"op":"await","mark":1},{"op":"mark","mark":2}],[{"op":"await","mark":2},{"op":"mark","mark":1}]]}"#,
        status: 7,
        line: "xrsim: stuck\n",
        report: "\
xrsim report 1
thread 1
thread 2
compositor
device
stuck
thread 1 1 await
thread 2 1 await
compositor next_frame
status 7
",
        ..Row::EMPTY
    },
    A_MALFORMED_LINE,
    Row {
        name: "the device can't be read on",
        device: "\
clock 1
clock 2
clock 3
clock 4
clock 5
clock 6
",
        failing_reads: &[1],
        status: 5,
        line: "xrsim: device failed\n",
        report: "\
xrsim report 1
thread 1
1 create_instance XR_SUCCESS
2 get_system XR_SUCCESS 1
3 create_session XR_SUCCESS
4 poll_event XR_SUCCESS state 1 IDLE
5 poll_event XR_EVENT_UNAVAILABLE
6 poll_event XR_EVENT_UNAVAILABLE
7 poll_event XR_EVENT_UNAVAILABLE
8 begin_session XR_ERROR_SESSION_LOST
9 leave XR_SUCCESS
compositor
ended
device
1 clock 1
2 clock 2
3 clock 3
4 clock 4
5 clock 5
6 clock 6
fault
status 5
",
        ..A_MALFORMED_LINE
    },
    Row {
        name: "a script waits for a device that can't be read",
        words: &["serial", "scenario.json", "--device", "device.txt"],
        scenario: r#"{"version":1,"scripts":[[{"op":"await","mark":1}]]}"#,
        device: "mark 1\n",
        failing_reads: &[0],
        status: 5,
        line: "xrsim: device failed\n",
        report: "\
xrsim report 1
thread 1
compositor
device
fault
stuck
thread 1 1 await
compositor next_frame
status 5
",
        ..Row::EMPTY
    },
    Row {
        name: "refusals of creations",
        words: &["serial", "scenario.json"],
        scenario: r#"{"version":1,"scripts":[[
{"op":"create_instance","major":2,"minor":0},
{"op":"create_instance","major":1,"minor":0,"as":"i"},
{"op":"create_instance","major":1,"minor":0},
{"op":"get_system","instance":"i","form":"hand"},
{"op":"create_session","instance":"i","system":9},
{"op":"create_session","instance":"i","system":1,"as":"s"},
{"op":"begin_session","session":"s","view":"mono"},
{"op":"create_swapchain","session":"s","format":4,"width":64,"height":64,"static":false},
{"op":"create_swapchain","session":"s","format":1,"width":0,"height":64,"static":false},
{"op":"create_reference_space","session":"s","kind":"stage","offset":1},
{"op":"create_reference_space","session":"s","kind":"local","offset":0},
{"op":"create_action_set","instance":"i","name":"","localized":"Play","priority":0},
{"op":"create_action_set","instance":"i","name":"a b","localized":"Play","priority":0},
{"op":"create_action_set","instance":"i","name":"play","localized":"","priority":0},
{"op":"create_action_set","instance":"i","name":"play","localized":"Play","priority":0},
{"op":"create_action_set","instance":"i","name":"play","localized":"Other","priority":0},
{"op":"create_action_set","instance":"i","name":"other","localized":"Play","priority":0},
{"op":"create_swapchain","session":"s","format":1,"width":64,"height":64,"static":false,"as":"c0"},
{"op":"create_swapchain","session":"s","format":1,"width":64,"height":64,"static":false,"as":"c1"},
{"op":"create_swapchain","session":"s","format":1,"width":64,"height":64,"static":false,"as":"c2"},
{"op":"create_swapchain","session":"s","format":1,"width":64,"height":64,"static":false,"as":"c3"},
{"op":"create_swapchain","session":"s","format":1,"width":64,"height":64,"static":false,"as":"c4"},
{"op":"create_swapchain","session":"s","format":1,"width":64,"height":64,"static":false,"as":"c5"},
{"op":"create_swapchain","session":"s","format":1,"width":64,"height":64,"static":false,"as":"c6"},
{"op":"create_swapchain","session":"s","format":1,"width":64,"height":64,"static":false,"as":"c7"},
{"op":"create_swapchain","session":"s","format":1,"width":64,"height":64,"static":false,"as":"c8"},
{"op":"create_swapchain","session":"s","format":1,"width":64,"height":64,"static":false,"as":"c9"},
{"op":"create_swapchain","session":"s","format":1,"width":64,"height":64,"static":false,"as":"c10"},
{"op":"create_swapchain","session":"s","format":1,"width":64,"height":64,"static":false,"as":"c11"},
{"op":"create_swapchain","session":"s","format":1,"width":64,"height":64,"static":false,"as":"c12"},
{"op":"create_swapchain","session":"s","format":1,"width":64,"height":64,"static":false,"as":"c13"},
{"op":"create_swapchain","session":"s","format":1,"width":64,"height":64,"static":false,"as":"c14"},
{"op":"create_swapchain","session":"s","format":1,"width":64,"height":64,"static":false,"as":"c15"},
{"op":"create_swapchain","session":"s","format":1,"width":64,"height":64,"static":false},
{"op":"destroy_swapchain","chain":"c0"},
{"op":"create_swapchain","session":"s","format":1,"width":64,"height":64,"static":false}]]}"#,
        report: "\
xrsim report 1
thread 1
1 create_instance XR_ERROR_API_VERSION_UNSUPPORTED
2 create_instance XR_SUCCESS
3 create_instance XR_ERROR_LIMIT_REACHED
4 get_system XR_ERROR_FORM_FACTOR_UNSUPPORTED
5 create_session XR_ERROR_SYSTEM_INVALID
6 create_session XR_SUCCESS
7 begin_session XR_ERROR_SESSION_NOT_READY
8 create_swapchain XR_ERROR_SWAPCHAIN_FORMAT_UNSUPPORTED
9 create_swapchain XR_ERROR_VALIDATION_FAILURE
10 create_reference_space XR_ERROR_REFERENCE_SPACE_UNSUPPORTED
11 create_reference_space XR_ERROR_POSE_INVALID
12 create_action_set XR_ERROR_NAME_INVALID
13 create_action_set XR_ERROR_PATH_FORMAT_INVALID
14 create_action_set XR_ERROR_LOCALIZED_NAME_INVALID
15 create_action_set XR_SUCCESS
16 create_action_set XR_ERROR_NAME_DUPLICATED
17 create_action_set XR_ERROR_LOCALIZED_NAME_DUPLICATED
18 create_swapchain XR_SUCCESS
19 create_swapchain XR_SUCCESS
20 create_swapchain XR_SUCCESS
21 create_swapchain XR_SUCCESS
22 create_swapchain XR_SUCCESS
23 create_swapchain XR_SUCCESS
24 create_swapchain XR_SUCCESS
25 create_swapchain XR_SUCCESS
26 create_swapchain XR_SUCCESS
27 create_swapchain XR_SUCCESS
28 create_swapchain XR_SUCCESS
29 create_swapchain XR_SUCCESS
30 create_swapchain XR_SUCCESS
31 create_swapchain XR_SUCCESS
32 create_swapchain XR_SUCCESS
33 create_swapchain XR_SUCCESS
34 create_swapchain XR_ERROR_LIMIT_REACHED
35 destroy_swapchain XR_SUCCESS
36 create_swapchain XR_SUCCESS
37 leave XR_SUCCESS
compositor
ended
device
status 0
",
        ..Row::EMPTY
    },
    Row {
        name: "a frame time on the grid",
        words: &["serial", "scenario.json", "--device", "device.txt"],
        scenario: r#"{"version":1,"scripts":[[
{"op":"await","mark":1},
{"op":"create_instance","major":1,"minor":0,"as":"i"},
{"op":"get_system","instance":"i","form":"head","as":"y"},
{"op":"create_session","instance":"i","system":"y","as":"s"},
{"op":"begin_session","session":"s","view":"stereo"},
{"op":"wait_frame","session":"s","as":"t"}]]}"#,
        device: "\
clock 5
grid 3 10
wish ready
mark 1
",
        report: "\
xrsim report 1
thread 1
1 await XR_SUCCESS
2 create_instance XR_SUCCESS
3 get_system XR_SUCCESS 1
4 create_session XR_SUCCESS
5 begin_session XR_SUCCESS
6 wait_frame XR_SUCCESS time 13 period 10 render 0
7 leave XR_SUCCESS
compositor
ended
device
1 clock 5
2 grid 3 10
3 wish ready
4 mark 1
status 0
",
        ..Row::EMPTY
    },
];

/// The rows.
pub(super) fn rows() -> &'static [Row] {
    ROWS
}
