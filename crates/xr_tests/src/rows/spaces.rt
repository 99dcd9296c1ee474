// Poses of spaces at times.
use crate::ends::Row;

const ROWS: &[Row] = &[Row {
    name: "poses at the times of their samples",
    words: &["serial", "scenario.json", "--device", "device.txt"],
    scenario: r#"{"version":1,"scripts":[[
{"op":"create_instance","major":1,"minor":0,"as":"i"},
{"op":"get_system","instance":"i","form":"head","as":"y"},
{"op":"create_session","instance":"i","system":"y","as":"s"},
{"op":"create_reference_space","session":"s","kind":"local","offset":7,"as":"l"},
{"op":"create_reference_space","session":"s","kind":"view","offset":9,"as":"v"},
{"op":"await","mark":1},
{"op":"locate_space","space":"v","base":"l","time":0},
{"op":"locate_space","space":"v","base":"l","time":60},
{"op":"locate_space","space":"v","base":"l","time":100},
{"op":"locate_space","space":"v","base":"v","time":60},
{"op":"mark","mark":2},
{"op":"await","mark":3},
{"op":"locate_space","space":"v","base":"l","time":100},
{"op":"locate_space","space":"v","base":"l","time":105},
{"op":"locate_space","space":"v","base":"l","time":1000}]]}"#,
    device: "\
pose view 50 20
pose local 100 11
mark 1
await 2
pose view 101 1101
pose view 102 1102
pose view 103 1103
pose view 104 1104
pose view 105 1105
pose view 106 1106
pose view 107 1107
pose view 108 1108
pose view 109 1109
pose view 110 1110
pose view 111 1111
pose view 112 1112
pose view 113 1113
pose view 114 1114
pose view 115 1115
pose view 116 1116
mark 3
",
    report: "\
xrsim report 1
thread 1
1 create_instance XR_SUCCESS
2 get_system XR_SUCCESS 1
3 create_session XR_SUCCESS
4 create_reference_space XR_SUCCESS
5 create_reference_space XR_SUCCESS
6 await XR_SUCCESS
7 locate_space XR_ERROR_TIME_INVALID
8 locate_space XR_SUCCESS missing
9 locate_space XR_SUCCESS -7 -11 +20 +9
10 locate_space XR_SUCCESS -9 -20 +20 +9
11 mark XR_SUCCESS
12 await XR_SUCCESS
13 locate_space XR_SUCCESS missing
14 locate_space XR_SUCCESS -7 -11 +1105 +9
15 locate_space XR_SUCCESS -7 -11 +1116 +9
16 leave XR_SUCCESS
compositor
ended
device
1 pose view 50 20
2 pose local 100 11
3 mark 1
4 await 2
5 pose view 101 1101
6 pose view 102 1102
7 pose view 103 1103
8 pose view 104 1104
9 pose view 105 1105
10 pose view 106 1106
11 pose view 107 1107
12 pose view 108 1108
13 pose view 109 1109
14 pose view 110 1110
15 pose view 111 1111
16 pose view 112 1112
17 pose view 113 1113
18 pose view 114 1114
19 pose view 115 1115
20 pose view 116 1116
21 mark 3
status 0
",
    ..Row::EMPTY
}];

/// The rows.
pub(super) fn rows() -> &'static [Row] {
    ROWS
}
