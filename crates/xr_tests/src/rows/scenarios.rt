// Texts that are no scenario.
use crate::ends::Row;

const ROWS: &[Row] = &[
    Row {
        name: "an op lacks its instance",
        words: &["serial", "scenario.json"],
        scenario: r#"{"version":1,"scripts":[[{"op":"poll_event"}]]}"#,
        status: 4,
        line: "xrsim: scenario refused: script 1 op 1 instance\n",
        ..Row::EMPTY
    },
    Row {
        name: "a text that is no JSON",
        words: &["serial", "scenario.json"],
        scenario: "[1,",
        status: 4,
        line: "xrsim: scenario refused: json\n",
        ..Row::EMPTY
    },
    Row {
        name: "nested as deep as a text may be",
        words: &["serial", "scenario.json"],
        scenario: "[[[[[[[[[[[[[[[[[[[[[[[[[[[[[[[[[[[[[[[[[[[[[[[[[[[[[[[[[[[[[[[[[[[[[[[[[[[[[[[[[[[[[[[[[[[[[[[[[[[[[[[[[[[[[[[[[[[[[[[[[[[[[[[]]]]]]]]]]]]]]]]]]]]]]]]]]]]]]]]]]]]]]]]]]]]]]]]]]]]]]]]]]]]]]]]]]]]]]]]]]]]]]]]]]]]]]]]]]]]]]]]]]]]]]]]]]]]]]]]]]]]]]]]]]]]]]]",
        status: 4,
        line: "xrsim: scenario refused: script 0 op 0 top\n",
        ..Row::EMPTY
    },
    Row {
        name: "nested too deep",
        words: &["serial", "scenario.json"],
        scenario: "[[[[[[[[[[[[[[[[[[[[[[[[[[[[[[[[[[[[[[[[[[[[[[[[[[[[[[[[[[[[[[[[[[[[[[[[[[[[[[[[[[[[[[[[[[[[[[[[[[[[[[[[[[[[[[[[[[[[[[[[[[[[[[[[]]]]]]]]]]]]]]]]]]]]]]]]]]]]]]]]]]]]]]]]]]]]]]]]]]]]]]]]]]]]]]]]]]]]]]]]]]]]]]]]]]]]]]]]]]]]]]]]]]]]]]]]]]]]]]]]]]]]]]]]]]]]]]]]",
        status: 4,
        line: "xrsim: scenario refused: json\n",
        ..Row::EMPTY
    },
    Row {
        name: "another version",
        words: &["serial", "scenario.json"],
        scenario: r#"{"version":3,"scripts":[[]]}"#,
        status: 4,
        line: "xrsim: scenario refused: script 0 op 0 version\n",
        ..Row::EMPTY
    },
    Row {
        name: "no script",
        words: &["serial", "scenario.json"],
        scenario: r#"{"version":1,"scripts":[]}"#,
        status: 4,
        line: "xrsim: scenario refused: script 0 op 0 scripts\n",
        ..Row::EMPTY
    },
    Row {
        name: "nine scripts",
        words: &["serial", "scenario.json"],
        scenario: r#"{"version":1,"scripts":[[],[],[],[],[],[],[],[],[]]}"#,
        status: 4,
        line: "xrsim: scenario refused: script 0 op 0 scripts\n",
        ..Row::EMPTY
    },
    Row {
        name: "a script is a number",
        words: &["serial", "scenario.json"],
        scenario: r#"{"version":1,"scripts":[7]}"#,
        status: 4,
        line: "xrsim: scenario refused: script 1 op 0 script\n",
        ..Row::EMPTY
    },
    Row {
        name: "an op of no script",
        words: &["serial", "scenario.json"],
        scenario: r#"{"version":1,"scripts":[[{"op":"leave"}]]}"#,
        status: 4,
        line: "xrsim: scenario refused: script 1 op 1 op\n",
        ..Row::EMPTY
    },
    Row {
        name: "a mark beyond the last",
        words: &["serial", "scenario.json"],
        scenario: r#"{"version":1,"scripts":[[{"op":"mark","mark":65}]]}"#,
        status: 4,
        line: "xrsim: scenario refused: script 1 op 1 mark\n",
        ..Row::EMPTY
    },
    Row {
        name: "another key",
        words: &["serial", "scenario.json"],
        scenario: r#"{"version":1,"scripts":[[{"op":"mark","mark":1,"x":0}]]}"#,
        status: 4,
        line: "xrsim: scenario refused: script 1 op 1 extra key\n",
        ..Row::EMPTY
    },
];

/// The rows.
pub(super) fn rows() -> &'static [Row] {
    ROWS
}
