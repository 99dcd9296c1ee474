// The ends of runs on threads, and two applications that meet.
use crate::ends::Row;

/// Two scripts of which each sets a mark.
const MEET: Row = Row {
    name: "two meet",
    on_threads: true,
    words: &["threads", "scenario.json"],
    scenario: "{\"version\":1,\"scripts\":[[{\"op\":\"mark\",\"mark\":1}],[{\"op\":\"mark\",\"mark\":2}]]}",
    report: "\
xrsim report 1
thread 1
1 mark XR_SUCCESS
2 leave XR_SUCCESS
thread 2
1 mark XR_SUCCESS
2 leave XR_SUCCESS
compositor
ended
device
status 0
",
    ..Row::EMPTY
};

const ONE: &str = "{\"version\":1,\"scripts\":[[{\"op\":\"mark\",\"mark\":1}]]}";

/// A run of one script that is done.
const DONE: Row = Row {
    name: "done",
    on_threads: true,
    words: &["threads", "scenario.json"],
    scenario: ONE,
    report: "\
xrsim report 1
thread 1
1 mark XR_SUCCESS
2 leave XR_SUCCESS
compositor
ended
device
status 0
",
    ..Row::EMPTY
};

const ROWS: &[Row] = &[
    DONE,
    Row {
        name: "one beside a device",
        words: &["threads", "scenario.json", "--device", "device.txt"],
        scenario: "{\"version\":1,\"scripts\":[[{\"op\":\"await\",\"mark\":3}]]}",
        device: "mark 3\n",
        report: "\
xrsim report 1
thread 1
1 await XR_SUCCESS
2 leave XR_SUCCESS
compositor
ended
device
1 mark 3
status 0
",
        ..DONE
    },
    Row {
        name: "eight scripts of which seven are empty",
        scenario: "{\"version\":1,\"scripts\":[[],[],[],[],[],[],[],[{\"op\":\"mark\",\"mark\":1}]]}",
        report: "\
xrsim report 1
thread 1
1 leave XR_SUCCESS
thread 2
1 leave XR_SUCCESS
thread 3
1 leave XR_SUCCESS
thread 4
1 leave XR_SUCCESS
thread 5
1 leave XR_SUCCESS
thread 6
1 leave XR_SUCCESS
thread 7
1 leave XR_SUCCESS
thread 8
1 mark XR_SUCCESS
2 leave XR_SUCCESS
compositor
ended
device
status 0
",
        ..DONE
    },
    Row {
        name: "the words of one thread",
        words: &["serial", "scenario.json"],
        status: 1,
        line: "xrsim: usage: xrsim serial FILE, xrsim threads FILE, with --device FILE and --places; xrsim load N\n",
        report: "",
        ..DONE
    },
    Row {
        name: "no words",
        words: &[],
        status: 1,
        line: "xrsim: usage: xrsim serial FILE, xrsim threads FILE, with --device FILE and --places; xrsim load N\n",
        report: "",
        ..DONE
    },
    Row {
        name: "no such scenario",
        words: &["threads", "missing.json"],
        status: 2,
        line: "xrsim: cannot open\n",
        report: "",
        ..DONE
    },
    Row {
        name: "no such device",
        words: &["threads", "scenario.json", "--device", "missing.txt"],
        status: 2,
        line: "xrsim: cannot open\n",
        report: "",
        ..DONE
    },
    Row {
        name: "no scenario",
        scenario: "[1,",
        status: 4,
        line: "xrsim: scenario refused: json\n",
        report: "",
        ..DONE
    },
    Row {
        name: "the device can't be read on",
        words: &["threads", "scenario.json", "--device", "device.txt"],
        device: "mark 3\n",
        failing_reads: &[0],
        status: 5,
        line: "xrsim: device failed\n",
        report: "\
xrsim report 1
thread 1
1 mark XR_SUCCESS
2 leave XR_SUCCESS
compositor
ended
device
fault
status 5
",
        ..DONE
    },
    Row {
        name: "a line of the device is malformed",
        words: &["threads", "scenario.json", "--device", "device.txt"],
        device: "mark 3\nmark\n",
        status: 6,
        line: "xrsim: device line 2 garbled\n",
        report: "\
xrsim report 1
thread 1
1 mark XR_SUCCESS
2 leave XR_SUCCESS
compositor
ended
device
1 mark 3
garbled 2
status 6
",
        ..DONE
    },
    Row {
        name: "the report can't be written",
        failing_writes: &[0],
        status: 8,
        line: "xrsim: cannot write\n",
        report: "",
        ..DONE
    },
    Row {
        name: "no script",
        scenario: "{\"version\":1,\"scripts\":[]}",
        status: 4,
        line: "xrsim: scenario refused: script 0 op 0 scripts\n",
        report: "",
        ..DONE
    },
];

/// The rows.
pub(super) fn rows() -> &'static [Row] {
    ROWS
}

/// The run in which two meet.
pub(super) fn meet() -> &'static Row {
    &MEET
}
