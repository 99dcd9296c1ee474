// Lines of a device, and files that are not there.
use crate::ends::Row;

const A_NUMBER_BEGINS_WITH_0: Row = Row {
    name: "a number begins with 0",
    words: &["serial", "scenario.json", "--device", "device.txt"],
    scenario: r#"{"version":1,"scripts":[[]]}"#,
    device: "clock 01\n",
    status: 6,
    line: "xrsim: device line 1 garbled\n",
    report: "\
xrsim report 1
thread 1
1 leave XR_SUCCESS
compositor
ended
device
garbled 1
status 6
",
    ..Row::EMPTY
};

const A_LINE_WITHOUT_ITS_LINE_FEED: Row = Row {
    name: "a line without its line feed",
    words: &["serial", "scenario.json", "--device", "device.txt"],
    scenario: r#"{"version":1,"scripts":[[]]}"#,
    device: "clock 1",
    report: "\
xrsim report 1
thread 1
1 leave XR_SUCCESS
compositor
ended
device
1 clock 1
status 0
",
    ..Row::EMPTY
};

const ROWS: &[Row] = &[
    A_NUMBER_BEGINS_WITH_0,
    Row {
        name: "two blanks",
        device: "clock  1\n",
        ..A_NUMBER_BEGINS_WITH_0
    },
    Row {
        name: "a number with a sign",
        device: "clock -1\n",
        ..A_NUMBER_BEGINS_WITH_0
    },
    Row {
        name: "a carriage return",
        device: "clock 1\r\n",
        ..A_NUMBER_BEGINS_WITH_0
    },
    Row {
        name: "a grid with no period",
        device: "grid 0 0\n",
        ..A_NUMBER_BEGINS_WITH_0
    },
    Row {
        name: "an await of mark 0",
        device: "await 0\n",
        ..A_NUMBER_BEGINS_WITH_0
    },
    Row {
        name: "a line of 256 bytes",
        device: "\
################################################################################################################################################################################################################################################################
",
        ..A_NUMBER_BEGINS_WITH_0
    },
    A_LINE_WITHOUT_ITS_LINE_FEED,
    Row {
        name: "an empty text",
        device: "",
        report: "\
xrsim report 1
thread 1
1 leave XR_SUCCESS
compositor
ended
device
status 0
",
        ..A_LINE_WITHOUT_ITS_LINE_FEED
    },
    Row {
        name: "no such scenario",
        words: &["serial", "missing.json"],
        status: 2,
        line: "xrsim: cannot open\n",
        ..Row::EMPTY
    },
    Row {
        name: "no such device",
        words: &["serial", "scenario.json", "--device", "missing.txt"],
        scenario: r#"{"version":1,"scripts":[[]]}"#,
        status: 2,
        line: "xrsim: cannot open\n",
        ..Row::EMPTY
    },
];

/// The rows.
pub(super) fn rows() -> &'static [Row] {
    ROWS
}
