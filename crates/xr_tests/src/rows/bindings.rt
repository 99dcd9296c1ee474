// Suggested bindings.
use crate::ends::Row;

const ROWS: &[Row] = &[
    Row {
        name: "suggestions are refused in their order",
        words: &["serial", "scenario.json"],
        scenario: r#"{"version":1,"scripts":[[
{"op":"create_instance","major":1,"minor":0,"as":"i"},
{"op":"get_system","instance":"i","form":"head","as":"y"},
{"op":"create_session","instance":"i","system":"y","as":"s"},
{"op":"string_to_path","instance":"i","text":"/interaction_profiles/khr/simple_controller"},
{"op":"string_to_path","instance":"i","text":"/user/hand/left/input/select"},
{"op":"string_to_path","instance":"i","text":"/user/hand/left/input/trigger"},
{"op":"string_to_path","instance":"i","text":"/a"},
{"op":"create_action_set","instance":"i","name":"play","localized":"Play","priority":0,"as":"a"},
{"op":"create_action","set":"a","name":"fire","type":"boolean","subactions":[],"localized":"Fire","as":"f"},
{"op":"suggest_bindings","instance":"i","profile":1,"bindings":[]},
{"op":"suggest_bindings","instance":"i","profile":4,"bindings":[["f",2]]},
{"op":"suggest_bindings","instance":"i","profile":9,"bindings":[["f",2]]},
{"op":"suggest_bindings","instance":"i","profile":1,"bindings":[["f",3]]},
{"op":"suggest_bindings","instance":"i","profile":1,"bindings":[["f",2]]},
{"op":"attach_sets","session":"s","sets":[]},
{"op":"attach_sets","session":"s","sets":["a","a"]},
{"op":"suggest_bindings","instance":"i","profile":1,"bindings":[["f",2]]},
{"op":"attach_sets","session":"s","sets":["a"]},
{"op":"create_action","set":"a","name":"jump","type":"boolean","subactions":[],"localized":"Jump"}]]}"#,
        report: "\
xrsim report 1
thread 1
1 create_instance XR_SUCCESS
2 get_system XR_SUCCESS 1
3 create_session XR_SUCCESS
4 string_to_path XR_SUCCESS 1
5 string_to_path XR_SUCCESS 2
6 string_to_path XR_SUCCESS 3
7 string_to_path XR_SUCCESS 4
8 create_action_set XR_SUCCESS
9 create_action XR_SUCCESS
10 suggest_bindings XR_ERROR_VALIDATION_FAILURE
11 suggest_bindings XR_ERROR_PATH_UNSUPPORTED
12 suggest_bindings XR_ERROR_PATH_INVALID
13 suggest_bindings XR_ERROR_PATH_UNSUPPORTED
14 suggest_bindings XR_SUCCESS
15 attach_sets XR_ERROR_VALIDATION_FAILURE
16 attach_sets XR_SUCCESS
17 suggest_bindings XR_ERROR_ACTIONSETS_ALREADY_ATTACHED
18 attach_sets XR_ERROR_ACTIONSETS_ALREADY_ATTACHED
19 create_action XR_ERROR_ACTIONSETS_ALREADY_ATTACHED
20 leave XR_SUCCESS
compositor
ended
device
status 0
",
        ..Row::EMPTY
    },
    Row {
        name: "which bindings count",
        words: &["serial", "scenario.json", "--device", "device.txt"],
        scenario: r#"{"version":1,"scripts":[[
{"op":"await","mark":1},
{"op":"create_instance","major":1,"minor":0,"as":"i"},
{"op":"get_system","instance":"i","form":"head","as":"y"},
{"op":"create_session","instance":"i","system":"y","as":"s"},
{"op":"string_to_path","instance":"i","text":"/interaction_profiles/khr/simple_controller"},
{"op":"string_to_path","instance":"i","text":"/user/hand/left/input/grip/pose"},
{"op":"create_action_set","instance":"i","name":"a","localized":"A","priority":0,"as":"a"},
{"op":"create_action","set":"a","name":"g","type":"pose","subactions":[],"localized":"G","as":"g"},
{"op":"create_action","set":"a","name":"f","type":"boolean","subactions":[],"localized":"F","as":"f"},
{"op":"suggest_bindings","instance":"i","profile":1,"bindings":[["g",2]]},
{"op":"attach_sets","session":"s","sets":["a"]},
{"op":"begin_session","session":"s","view":"stereo"},
{"op":"create_reference_space","session":"s","kind":"local","offset":1,"as":"l"},
{"op":"create_action_space","session":"s","action":"f","sub":0,"offset":3},
{"op":"create_action_space","session":"s","action":"g","sub":2,"offset":3},
{"op":"create_action_space","session":"s","action":"g","sub":0,"offset":0},
{"op":"create_action_space","session":"s","action":"g","sub":0,"offset":3,"as":"x"},
{"op":"locate_space","space":"x","base":"l","time":30},
{"op":"wait_frame","session":"s","as":"t"},
{"op":"begin_frame","session":"s"},
{"op":"end_frame","session":"s","time":"t","blend":"opaque","layers":[]},
{"op":"sync_actions","session":"s","active":[["a",0]]},
{"op":"get_pose_active","session":"s","action":"g","sub":0},
{"op":"locate_space","space":"x","base":"l","time":30},
{"op":"locate_space","space":"x","base":"l","time":19}]]}"#,
        device: "\
wish focused
profile /user/hand/left khr/simple_controller
pose local 10 5
pose /user/hand/left/input/grip/pose 20 8
mark 1
",
        report: "\
xrsim report 1
thread 1
1 await XR_SUCCESS
2 create_instance XR_SUCCESS
3 get_system XR_SUCCESS 1
4 create_session XR_SUCCESS
5 string_to_path XR_SUCCESS 1
6 string_to_path XR_SUCCESS 2
7 create_action_set XR_SUCCESS
8 create_action XR_SUCCESS
9 create_action XR_SUCCESS
10 suggest_bindings XR_SUCCESS
11 attach_sets XR_SUCCESS
12 begin_session XR_SUCCESS
13 create_reference_space XR_SUCCESS
14 create_action_space XR_ERROR_ACTION_TYPE_MISMATCH
15 create_action_space XR_ERROR_PATH_UNSUPPORTED
16 create_action_space XR_ERROR_POSE_INVALID
17 create_action_space XR_SUCCESS
18 locate_space XR_SUCCESS missing
19 wait_frame XR_SUCCESS time 11111111 period 11111111 render 0
20 begin_frame XR_SUCCESS
21 end_frame XR_SUCCESS
22 sync_actions XR_SUCCESS
23 get_pose_active XR_SUCCESS active 1
24 locate_space XR_SUCCESS -1 -5 +8 +3
25 locate_space XR_SUCCESS missing
26 leave XR_SUCCESS
compositor
frame 1 time 11111111 layers 0
ended
device
1 wish focused
2 profile /user/hand/left khr/simple_controller
3 pose local 10 5
4 pose /user/hand/left/input/grip/pose 20 8
5 mark 1
status 0
",
        ..Row::EMPTY
    },
];

/// The rows.
pub(super) fn rows() -> &'static [Row] {
    ROWS
}
