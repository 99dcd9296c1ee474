// Values of inputs, and a session that is not focused.
use crate::ends::Row;

const A_VALUE_IS_PRESSED_BETWEEN_ITS_THRESHOLDS: Row = Row {
    name: "a value is pressed between its thresholds",
    words: &["serial", "scenario.json", "--device", "device.txt"],
    scenario: r#"{"version":1,"scripts":[[
{"op":"await","mark":1},
{"op":"create_instance","major":1,"minor":0,"as":"i"},
{"op":"get_system","instance":"i","form":"head","as":"y"},
{"op":"create_session","instance":"i","system":"y","as":"s"},
{"op":"string_to_path","instance":"i","text":"/interaction_profiles/oculus/touch_controller","as":"p"},
{"op":"string_to_path","instance":"i","text":"/user/hand/right/input/trigger/value","as":"q"},
{"op":"create_action_set","instance":"i","name":"a","localized":"A","priority":0,"as":"a"},
{"op":"create_action","set":"a","name":"f","type":"boolean","subactions":[],"localized":"F","as":"f"},
{"op":"suggest_bindings","instance":"i","profile":"p","bindings":[["f","q"]]},
{"op":"attach_sets","session":"s","sets":["a"]},
{"op":"begin_session","session":"s","view":"stereo"},
{"op":"wait_frame","session":"s","as":"t"},
{"op":"begin_frame","session":"s"},
{"op":"end_frame","session":"s","time":"t","blend":"opaque","layers":[]},
{"op":"mark","mark":2},
{"op":"await","mark":3},
{"op":"sync_actions","session":"s","active":[["a",0]]},
{"op":"get_boolean","session":"s","action":"f","sub":0},
{"op":"mark","mark":4},
{"op":"await","mark":5},
{"op":"sync_actions","session":"s","active":[["a",0]]},
{"op":"get_boolean","session":"s","action":"f","sub":0},
{"op":"mark","mark":6},
{"op":"await","mark":7},
{"op":"sync_actions","session":"s","active":[["a",0]]},
{"op":"get_boolean","session":"s","action":"f","sub":0},
{"op":"mark","mark":8},
{"op":"await","mark":9},
{"op":"sync_actions","session":"s","active":[["a",0]]},
{"op":"get_boolean","session":"s","action":"f","sub":0}]]}"#,
    device: "\
wish focused
profile /user/hand/right oculus/touch_controller
mark 1
await 2
clock 100
input /user/hand/right/input/trigger/value 20479
mark 3
await 4
clock 200
input /user/hand/right/input/trigger/value 20480
mark 5
await 6
clock 300
input /user/hand/right/input/trigger/value 12288
mark 7
await 8
clock 400
input /user/hand/right/input/trigger/value 12287
mark 9
",
    report: "\
xrsim report 1
thread 1
1 await XR_SUCCESS
2 create_instance XR_SUCCESS
3 get_system XR_SUCCESS 1
4 create_session XR_SUCCESS
5 string_to_path XR_SUCCESS 1
6 string_to_path XR_SUCCESS 2
7 create_action_set XR_SUCCESS
8 create_action XR_SUCCESS
9 suggest_bindings XR_SUCCESS
10 attach_sets XR_SUCCESS
11 begin_session XR_SUCCESS
12 wait_frame XR_SUCCESS time 11111111 period 11111111 render 0
13 begin_frame XR_SUCCESS
14 end_frame XR_SUCCESS
15 mark XR_SUCCESS
16 await XR_SUCCESS
17 sync_actions XR_SUCCESS
18 get_boolean XR_SUCCESS value 0 changed 0 time 0 active 1
19 mark XR_SUCCESS
20 await XR_SUCCESS
21 sync_actions XR_SUCCESS
22 get_boolean XR_SUCCESS value 1 changed 1 time 200 active 1
23 mark XR_SUCCESS
24 await XR_SUCCESS
25 sync_actions XR_SUCCESS
26 get_boolean XR_SUCCESS value 1 changed 0 time 200 active 1
27 mark XR_SUCCESS
28 await XR_SUCCESS
29 sync_actions XR_SUCCESS
30 get_boolean XR_SUCCESS value 0 changed 1 time 400 active 1
31 leave XR_SUCCESS
compositor
frame 1 time 11111111 layers 0
ended
device
1 wish focused
2 profile /user/hand/right oculus/touch_controller
3 mark 1
4 await 2
5 clock 100
6 input /user/hand/right/input/trigger/value 20479
7 mark 3
8 await 4
9 clock 200
10 input /user/hand/right/input/trigger/value 20480
11 mark 5
12 await 6
13 clock 300
14 input /user/hand/right/input/trigger/value 12288
15 mark 7
16 await 8
17 clock 400
18 input /user/hand/right/input/trigger/value 12287
19 mark 9
status 0
",
    ..Row::EMPTY
};

const A_SESSION_THAT_IS_NOT_FOCUSED: Row = Row {
    name: "a session that is not focused",
    words: &["serial", "scenario.json", "--device", "device.txt"],
    scenario: r#"{"version":1,"scripts":[[
{"op":"await","mark":1},
{"op":"create_instance","major":1,"minor":0,"as":"i"},
{"op":"get_system","instance":"i","form":"head","as":"y"},
{"op":"create_session","instance":"i","system":"y","as":"s"},
{"op":"string_to_path","instance":"i","text":"/user/hand/left","as":"l"},
{"op":"string_to_path","instance":"i","text":"/user/hand/right","as":"h"},
{"op":"create_action_set","instance":"i","name":"a","localized":"A","priority":0,"as":"a"},
{"op":"create_action","set":"a","name":"f","type":"boolean","subactions":["l"],"localized":"F","as":"f"},
{"op":"create_action_set","instance":"i","name":"b","localized":"B","priority":0,"as":"b"},
{"op":"create_action","set":"b","name":"g","type":"vector","subactions":[],"localized":"G","as":"g"},
{"op":"attach_sets","session":"s","sets":["a"]},
{"op":"begin_session","session":"s","view":"stereo"},
{"op":"wait_frame","session":"s","as":"t"},
{"op":"begin_frame","session":"s"},
{"op":"end_frame","session":"s","time":"t","blend":"opaque","layers":[]},
{"op":"sync_actions","session":"s","active":[["a",0]]},
{"op":"get_boolean","session":"s","action":"f","sub":0},
{"op":"get_float","session":"s","action":"f","sub":0},
{"op":"get_boolean","session":"s","action":"f","sub":"h"},
{"op":"get_boolean","session":"s","action":"f","sub":999},
{"op":"get_vector","session":"s","action":"g","sub":0},
{"op":"sync_actions","session":"s","active":[["a","h"]]},
{"op":"sync_actions","session":"s","active":[["b",0]]},
{"op":"create_action","set":"a","name":"more","type":"boolean","subactions":[],"localized":"More"}]]}"#,
    device: "\
clock 50
wish visible
profile /user/hand/left khr/simple_controller
input /user/hand/left/input/select/click 1
mark 1
",
    report: "\
xrsim report 1
thread 1
1 await XR_SUCCESS
2 create_instance XR_SUCCESS
3 get_system XR_SUCCESS 1
4 create_session XR_SUCCESS
5 string_to_path XR_SUCCESS 1
6 string_to_path XR_SUCCESS 2
7 create_action_set XR_SUCCESS
8 create_action XR_SUCCESS
9 create_action_set XR_SUCCESS
10 create_action XR_SUCCESS
11 attach_sets XR_SUCCESS
12 begin_session XR_SUCCESS
13 wait_frame XR_SUCCESS time 11111111 period 11111111 render 0
14 begin_frame XR_SUCCESS
15 end_frame XR_SUCCESS
16 sync_actions XR_SESSION_NOT_FOCUSED
17 get_boolean XR_SUCCESS value 0 changed 0 time 0 active 0
18 get_float XR_ERROR_ACTION_TYPE_MISMATCH
19 get_boolean XR_ERROR_PATH_UNSUPPORTED
20 get_boolean XR_ERROR_PATH_UNSUPPORTED
21 get_vector XR_ERROR_ACTIONSET_NOT_ATTACHED
22 sync_actions XR_ERROR_PATH_UNSUPPORTED
23 sync_actions XR_ERROR_ACTIONSET_NOT_ATTACHED
24 create_action XR_ERROR_ACTIONSETS_ALREADY_ATTACHED
25 leave XR_SUCCESS
compositor
frame 1 time 11111111 layers 0
ended
device
1 clock 50
2 wish visible
3 profile /user/hand/left khr/simple_controller
4 input /user/hand/left/input/select/click 1
5 mark 1
status 0
",
    ..Row::EMPTY
};

const ROWS: &[Row] = &[
    A_VALUE_IS_PRESSED_BETWEEN_ITS_THRESHOLDS,
    Row {
        name: "a value is pressed between its thresholds, on threads",
        words: &["threads", "scenario.json", "--device", "device.txt"],
        on_threads: true,
        ..A_VALUE_IS_PRESSED_BETWEEN_ITS_THRESHOLDS
    },
    A_SESSION_THAT_IS_NOT_FOCUSED,
    Row {
        name: "a session that is not focused, on threads",
        words: &["threads", "scenario.json", "--device", "device.txt"],
        on_threads: true,
        ..A_SESSION_THAT_IS_NOT_FOCUSED
    },
];

/// The rows.
pub(super) fn rows() -> &'static [Row] {
    ROWS
}
