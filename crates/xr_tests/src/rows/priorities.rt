// Priorities of action sets.
use crate::ends::Row;

const PRIORITIES_OF_SETS: Row = Row {
    name: "priorities of sets",
    words: &["serial", "scenario.json", "--device", "device.txt"],
    scenario: r#"{"version":1,"scripts":[[
{"op":"await","mark":1},
{"op":"create_instance","major":1,"minor":0,"as":"i"},
{"op":"get_system","instance":"i","form":"head","as":"y"},
{"op":"create_session","instance":"i","system":"y","as":"s"},
{"op":"string_to_path","instance":"i","text":"/interaction_profiles/oculus/touch_controller","as":"p"},
{"op":"string_to_path","instance":"i","text":"/user/hand/right/input/trigger/value","as":"q"},
{"op":"create_action_set","instance":"i","name":"a","localized":"A","priority":5,"as":"a"},
{"op":"create_action_set","instance":"i","name":"b","localized":"B","priority":2,"as":"b"},
{"op":"create_action_set","instance":"i","name":"c","localized":"C","priority":5,"as":"c"},
{"op":"create_action","set":"a","name":"fa","type":"float","subactions":[],"localized":"Fa","as":"fa"},
{"op":"create_action","set":"b","name":"fb","type":"float","subactions":[],"localized":"Fb","as":"fb"},
{"op":"create_action","set":"c","name":"fc","type":"float","subactions":[],"localized":"Fc","as":"fc"},
{"op":"suggest_bindings","instance":"i","profile":"p","bindings":[["fa","q"],["fb","q"],["fc","q"]]},
{"op":"attach_sets","session":"s","sets":["a","b","c"]},
{"op":"begin_session","session":"s","view":"stereo"},
{"op":"wait_frame","session":"s","as":"t"},
{"op":"begin_frame","session":"s"},
{"op":"end_frame","session":"s","time":"t","blend":"opaque","layers":[]},
{"op":"sync_actions","session":"s","active":[["a",0],["b",0]]},
{"op":"get_float","session":"s","action":"fa","sub":0},
{"op":"get_float","session":"s","action":"fb","sub":0},
{"op":"sync_actions","session":"s","active":[["a",0],["c",0]]},
{"op":"get_float","session":"s","action":"fa","sub":0},
{"op":"get_float","session":"s","action":"fc","sub":0},
{"op":"suggest_bindings","instance":"i","profile":"p","bindings":[["fa","q"],["fb","q"],["fc","q"]]},
{"op":"attach_sets","session":"s","sets":["a"]}]]}"#,
    device: "\
clock 500
wish focused
profile /user/hand/right oculus/touch_controller
input /user/hand/right/input/trigger/value 30000
mark 1
",
    report: "\
xrsim report 1
thread 1
1 await XR_SUCCESS
2 create_instance XR_SUCCESS
3 get_system XR_SUCCESS 1
4 create_session XR_SUCCESS
5 string_to_path XR_SUCCESS 1
6 string_to_path XR_SUCCESS 2
7 create_action_set XR_SUCCESS
8 create_action_set XR_SUCCESS
9 create_action_set XR_SUCCESS
10 create_action XR_SUCCESS
11 create_action XR_SUCCESS
12 create_action XR_SUCCESS
13 suggest_bindings XR_SUCCESS
14 attach_sets XR_SUCCESS
15 begin_session XR_SUCCESS
16 wait_frame XR_SUCCESS time 11111111 period 11111111 render 0
17 begin_frame XR_SUCCESS
18 end_frame XR_SUCCESS
19 sync_actions XR_SUCCESS
20 get_float XR_SUCCESS value 30000 changed 1 time 500 active 1
21 get_float XR_SUCCESS value 0 changed 0 time 0 active 0
22 sync_actions XR_SUCCESS
23 get_float XR_SUCCESS value 30000 changed 0 time 500 active 1
24 get_float XR_SUCCESS value 30000 changed 1 time 500 active 1
25 suggest_bindings XR_ERROR_ACTIONSETS_ALREADY_ATTACHED
26 attach_sets XR_ERROR_ACTIONSETS_ALREADY_ATTACHED
27 leave XR_SUCCESS
compositor
frame 1 time 11111111 layers 0
ended
device
1 clock 500
2 wish focused
3 profile /user/hand/right oculus/touch_controller
4 input /user/hand/right/input/trigger/value 30000
5 mark 1
status 0
",
    ..Row::EMPTY
};

const ROWS: &[Row] = &[
    PRIORITIES_OF_SETS,
    Row {
        name: "priorities of sets, on threads",
        words: &["threads", "scenario.json", "--device", "device.txt"],
        on_threads: true,
        ..PRIORITIES_OF_SETS
    },
];

/// The rows.
pub(super) fn rows() -> &'static [Row] {
    ROWS
}
