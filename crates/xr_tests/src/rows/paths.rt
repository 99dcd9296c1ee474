// Paths and their texts.
use crate::ends::Row;

const A_PATH_AND_ITS_TEXT: Row = Row {
    name: "a path and its text",
    words: &["serial", "scenario.json"],
    scenario: r#"{"version":1,"scripts":[[
{"op":"create_instance","major":1,"minor":0,"as":"i"},
{"op":"string_to_path","instance":"i","text":"/user/hand/left","as":"p"},
{"op":"string_to_path","instance":"i","text":"/user/hand/left"},
{"op":"path_to_string","instance":"i","path":"p","capacity":16}]]}"#,
    report: "\
xrsim report 1
thread 1
1 create_instance XR_SUCCESS
2 string_to_path XR_SUCCESS 1
3 string_to_path XR_SUCCESS 1
4 path_to_string XR_SUCCESS 16 /user/hand/left
5 leave XR_SUCCESS
compositor
ended
device
status 0
",
    ..Row::EMPTY
};

const ROWS: &[Row] = &[
    A_PATH_AND_ITS_TEXT,
    Row {
        name: "a path and its text, with places",
        words: &["serial", "scenario.json", "--places"],
        report: "\
xrsim report 1
thread 1
1 create_instance XR_SUCCESS @1
2 string_to_path XR_SUCCESS 1 @2
3 string_to_path XR_SUCCESS 1 @3
4 path_to_string XR_SUCCESS 16 /user/hand/left @4
5 leave XR_SUCCESS @5
compositor
ended @6
device
status 0
",
        ..A_PATH_AND_ITS_TEXT
    },
    Row {
        name: "a path and its text, on threads",
        words: &["threads", "scenario.json"],
        on_threads: true,
        ..A_PATH_AND_ITS_TEXT
    },
    Row {
        name: "a path and its text, on threads and with places",
        words: &["threads", "scenario.json", "--places"],
        on_threads: true,
        report: "\
xrsim report 1
thread 1
1 create_instance XR_SUCCESS @1
2 string_to_path XR_SUCCESS 1 @2
3 string_to_path XR_SUCCESS 1 @3
4 path_to_string XR_SUCCESS 16 /user/hand/left @4
5 leave XR_SUCCESS @5
compositor
ended @6
device
status 0
",
        ..A_PATH_AND_ITS_TEXT
    },
    Row {
        name: "texts that are paths, and texts that are none",
        words: &["serial", "scenario.json"],
        scenario: r#"{"version":1,"scripts":[[
{"op":"create_instance","major":1,"minor":0,"as":"i"},
{"op":"string_to_path","instance":"i","text":"/a/../b"},
{"op":"string_to_path","instance":"i","text":"/a/"},
{"op":"string_to_path","instance":"i","text":"//a"},
{"op":"string_to_path","instance":"i","text":"/A"},
{"op":"string_to_path","instance":"i","text":""},
{"op":"string_to_path","instance":"i","text":"/"},
{"op":"string_to_path","instance":"i","text":"/.."},
{"op":"string_to_path","instance":"i","text":"/aaaaaaaaaaaaaaaaaaaaaaaaaaaaaaaaaaaaaaaaaaaaaaaaaaaaaaaaaaaaaaaaaaaaaaaaaaaaaaaaaaaaaaaaaaaaaaaaaaaaaaaaaaaaaaaaaaaaaaaaaaaaaaaaaaaaaaaaaaaaaaaaaaaaaaaaaaaaaaaaaaaaaaaaaaaaaaaaaaaaaaaaaaaaaaaaaaaaaaaaaaaaaaaaaaaaaaaaaaaaaaaaaaaaaaaaaaaaaaaaaaaaaaaaaaaaaa"},
{"op":"string_to_path","instance":"i","text":"/aaaaaaaaaaaaaaaaaaaaaaaaaaaaaaaaaaaaaaaaaaaaaaaaaaaaaaaaaaaaaaaaaaaaaaaaaaaaaaaaaaaaaaaaaaaaaaaaaaaaaaaaaaaaaaaaaaaaaaaaaaaaaaaaaaaaaaaaaaaaaaaaaaaaaaaaaaaaaaaaaaaaaaaaaaaaaaaaaaaaaaaaaaaaaaaaaaaaaaaaaaaaaaaaaaaaaaaaaaaaaaaaaaaaaaaaaaaaaaaaaaaaaaaaaaaaaaa"},
{"op":"string_to_path","instance":"i","text":"/a.b"}]]}"#,
        report: "\
xrsim report 1
thread 1
1 create_instance XR_SUCCESS
2 string_to_path XR_ERROR_PATH_FORMAT_INVALID
3 string_to_path XR_ERROR_PATH_FORMAT_INVALID
4 string_to_path XR_ERROR_PATH_FORMAT_INVALID
5 string_to_path XR_ERROR_PATH_FORMAT_INVALID
6 string_to_path XR_ERROR_PATH_FORMAT_INVALID
7 string_to_path XR_ERROR_PATH_FORMAT_INVALID
8 string_to_path XR_ERROR_PATH_FORMAT_INVALID
9 string_to_path XR_SUCCESS 1
10 string_to_path XR_ERROR_PATH_FORMAT_INVALID
11 string_to_path XR_SUCCESS 2
12 leave XR_SUCCESS
compositor
ended
device
status 0
",
        ..Row::EMPTY
    },
    Row {
        name: "sizes of a text and of a buffer",
        words: &["serial", "scenario.json"],
        scenario: r#"{"version":1,"scripts":[[
{"op":"create_instance","major":1,"minor":0,"as":"i"},
{"op":"string_to_path","instance":"i","text":"/user/head","as":"h"},
{"op":"path_to_string","instance":"i","path":"h","capacity":0},
{"op":"path_to_string","instance":"i","path":"h","capacity":10},
{"op":"path_to_string","instance":"i","path":"h","capacity":11},
{"op":"path_to_string","instance":"i","path":7,"capacity":11}]]}"#,
        report: "\
xrsim report 1
thread 1
1 create_instance XR_SUCCESS
2 string_to_path XR_SUCCESS 1
3 path_to_string XR_SUCCESS 11
4 path_to_string XR_ERROR_SIZE_INSUFFICIENT 11
5 path_to_string XR_SUCCESS 11 /user/head
6 path_to_string XR_ERROR_PATH_INVALID
7 leave XR_SUCCESS
compositor
ended
device
status 0
",
        ..Row::EMPTY
    },
];

/// The rows.
pub(super) fn rows() -> &'static [Row] {
    ROWS
}
