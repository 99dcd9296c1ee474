// Events of a session, and the frames behind them.
use crate::ends::Row;

const ROWS: &[Row] = &[
    Row {
        name: "a session becomes focused",
        words: &["serial", "scenario.json", "--device", "device.txt"],
        scenario: r#"{"version":1,"scripts":[[
{"op":"create_instance","major":1,"minor":0,"as":"i"},
{"op":"get_system","instance":"i","form":"head","as":"y"},
{"op":"create_session","instance":"i","system":"y","as":"s"},
{"op":"begin_session","session":"s","view":"stereo"},
{"op":"wait_frame","session":"s","as":"t"},
{"op":"begin_frame","session":"s"},
{"op":"end_frame","session":"s","time":"t","blend":"opaque","layers":[]},
{"op":"poll_event","instance":"i"},
{"op":"poll_event","instance":"i"},
{"op":"poll_event","instance":"i"},
{"op":"poll_event","instance":"i"},
{"op":"poll_event","instance":"i"},
{"op":"poll_event","instance":"i"}]]}"#,
        device: "wish focused\n",
        report: "\
xrsim report 1
thread 1
1 create_instance XR_SUCCESS
2 get_system XR_SUCCESS 1
3 create_session XR_SUCCESS
4 begin_session XR_SUCCESS
5 wait_frame XR_SUCCESS time 11111111 period 11111111 render 0
6 begin_frame XR_SUCCESS
7 end_frame XR_SUCCESS
8 poll_event XR_SUCCESS state 1 IDLE
9 poll_event XR_SUCCESS state 1 READY
10 poll_event XR_SUCCESS state 1 SYNCHRONIZED
11 poll_event XR_SUCCESS state 1 VISIBLE
12 poll_event XR_SUCCESS state 1 FOCUSED
13 poll_event XR_EVENT_UNAVAILABLE
14 leave XR_SUCCESS
compositor
frame 1 time 11111111 layers 0
ended
device
1 wish focused
status 0
",
        ..Row::EMPTY
    },
    Row {
        name: "three events are lost",
        words: &["serial", "scenario.json", "--device", "device.txt"],
        scenario: r#"{"version":1,"scripts":[[
{"op":"create_instance","major":1,"minor":0,"as":"i"},
{"op":"get_system","instance":"i","form":"head","as":"y"},
{"op":"create_session","instance":"i","system":"y","as":"s"},
{"op":"begin_session","session":"s","view":"stereo"},
{"op":"wait_frame","session":"s","as":"t"},
{"op":"begin_frame","session":"s"},
{"op":"end_frame","session":"s","time":"t","blend":"opaque","layers":[]},
{"op":"mark","mark":1},
{"op":"await","mark":2},
{"op":"poll_event","instance":"i"},
{"op":"poll_event","instance":"i"},
{"op":"poll_event","instance":"i"},
{"op":"poll_event","instance":"i"},
{"op":"poll_event","instance":"i"},
{"op":"poll_event","instance":"i"},
{"op":"poll_event","instance":"i"},
{"op":"poll_event","instance":"i"},
{"op":"poll_event","instance":"i"},
{"op":"poll_event","instance":"i"},
{"op":"poll_event","instance":"i"},
{"op":"poll_event","instance":"i"},
{"op":"poll_event","instance":"i"},
{"op":"poll_event","instance":"i"},
{"op":"poll_event","instance":"i"},
{"op":"poll_event","instance":"i"},
{"op":"poll_event","instance":"i"},
{"op":"poll_event","instance":"i"},
{"op":"poll_event","instance":"i"},
{"op":"poll_event","instance":"i"},
{"op":"poll_event","instance":"i"},
{"op":"poll_event","instance":"i"},
{"op":"poll_event","instance":"i"},
{"op":"poll_event","instance":"i"},
{"op":"poll_event","instance":"i"},
{"op":"poll_event","instance":"i"},
{"op":"poll_event","instance":"i"},
{"op":"poll_event","instance":"i"},
{"op":"poll_event","instance":"i"},
{"op":"poll_event","instance":"i"},
{"op":"poll_event","instance":"i"},
{"op":"poll_event","instance":"i"},
{"op":"poll_event","instance":"i"},
{"op":"poll_event","instance":"i"}]]}"#,
        device: "\
wish focused
await 1
wish visible
wish focused
wish visible
wish focused
wish visible
wish focused
wish visible
wish focused
wish visible
wish focused
wish visible
wish focused
wish visible
wish focused
wish visible
wish focused
wish visible
wish focused
wish visible
wish focused
wish visible
wish focused
wish visible
wish focused
wish visible
wish focused
wish visible
wish focused
wish visible
wish focused
mark 2
",
        report: "\
xrsim report 1
thread 1
1 create_instance XR_SUCCESS
2 get_system XR_SUCCESS 1
3 create_session XR_SUCCESS
4 begin_session XR_SUCCESS
5 wait_frame XR_SUCCESS time 11111111 period 11111111 render 0
6 begin_frame XR_SUCCESS
7 end_frame XR_SUCCESS
8 mark XR_SUCCESS
9 await XR_SUCCESS
10 poll_event XR_SUCCESS events_lost 3
11 poll_event XR_SUCCESS state 1 VISIBLE
12 poll_event XR_SUCCESS state 1 FOCUSED
13 poll_event XR_SUCCESS state 1 VISIBLE
14 poll_event XR_SUCCESS state 1 FOCUSED
15 poll_event XR_SUCCESS state 1 VISIBLE
16 poll_event XR_SUCCESS state 1 FOCUSED
17 poll_event XR_SUCCESS state 1 VISIBLE
18 poll_event XR_SUCCESS state 1 FOCUSED
19 poll_event XR_SUCCESS state 1 VISIBLE
20 poll_event XR_SUCCESS state 1 FOCUSED
21 poll_event XR_SUCCESS state 1 VISIBLE
22 poll_event XR_SUCCESS state 1 FOCUSED
23 poll_event XR_SUCCESS state 1 VISIBLE
24 poll_event XR_SUCCESS state 1 FOCUSED
25 poll_event XR_SUCCESS state 1 VISIBLE
26 poll_event XR_SUCCESS state 1 FOCUSED
27 poll_event XR_SUCCESS state 1 VISIBLE
28 poll_event XR_SUCCESS state 1 FOCUSED
29 poll_event XR_SUCCESS state 1 VISIBLE
30 poll_event XR_SUCCESS state 1 FOCUSED
31 poll_event XR_SUCCESS state 1 VISIBLE
32 poll_event XR_SUCCESS state 1 FOCUSED
33 poll_event XR_SUCCESS state 1 VISIBLE
34 poll_event XR_SUCCESS state 1 FOCUSED
35 poll_event XR_SUCCESS state 1 VISIBLE
36 poll_event XR_SUCCESS state 1 FOCUSED
37 poll_event XR_SUCCESS state 1 VISIBLE
38 poll_event XR_SUCCESS state 1 FOCUSED
39 poll_event XR_SUCCESS state 1 VISIBLE
40 poll_event XR_SUCCESS state 1 FOCUSED
41 poll_event XR_SUCCESS state 1 VISIBLE
42 poll_event XR_SUCCESS state 1 FOCUSED
43 poll_event XR_EVENT_UNAVAILABLE
44 leave XR_SUCCESS
compositor
frame 1 time 11111111 layers 0
ended
device
1 wish focused
2 await 1
3 wish visible
4 wish focused
5 wish visible
6 wish focused
7 wish visible
8 wish focused
9 wish visible
10 wish focused
11 wish visible
12 wish focused
13 wish visible
14 wish focused
15 wish visible
16 wish focused
17 wish visible
18 wish focused
19 wish visible
20 wish focused
21 wish visible
22 wish focused
23 wish visible
24 wish focused
25 wish visible
26 wish focused
27 wish visible
28 wish focused
29 wish visible
30 wish focused
31 wish visible
32 wish focused
33 mark 2
status 0
",
        ..Row::EMPTY
    },
    Row {
        name: "a session exits",
        words: &["serial", "scenario.json", "--device", "device.txt"],
        scenario: r#"{"version":1,"scripts":[[
{"op":"create_instance","major":1,"minor":0,"as":"i"},
{"op":"get_system","instance":"i","form":"head","as":"y"},
{"op":"create_session","instance":"i","system":"y","as":"s"},
{"op":"begin_session","session":"s","view":"stereo"},
{"op":"wait_frame","session":"s","as":"t"},
{"op":"begin_frame","session":"s"},
{"op":"end_frame","session":"s","time":"t","blend":"opaque","layers":[]},
{"op":"request_exit_session","session":"s"},
{"op":"end_session","session":"s"},
{"op":"begin_session","session":"s","view":"stereo"},
{"op":"poll_event","instance":"i"},
{"op":"poll_event","instance":"i"},
{"op":"poll_event","instance":"i"},
{"op":"poll_event","instance":"i"},
{"op":"poll_event","instance":"i"},
{"op":"poll_event","instance":"i"},
{"op":"poll_event","instance":"i"},
{"op":"poll_event","instance":"i"},
{"op":"poll_event","instance":"i"},
{"op":"poll_event","instance":"i"},
{"op":"poll_event","instance":"i"}]]}"#,
        device: "wish focused\n",
        report: "\
xrsim report 1
thread 1
1 create_instance XR_SUCCESS
2 get_system XR_SUCCESS 1
3 create_session XR_SUCCESS
4 begin_session XR_SUCCESS
5 wait_frame XR_SUCCESS time 11111111 period 11111111 render 0
6 begin_frame XR_SUCCESS
7 end_frame XR_SUCCESS
8 request_exit_session XR_SUCCESS
9 end_session XR_SUCCESS
10 begin_session XR_ERROR_SESSION_NOT_READY
11 poll_event XR_SUCCESS state 1 IDLE
12 poll_event XR_SUCCESS state 1 READY
13 poll_event XR_SUCCESS state 1 SYNCHRONIZED
14 poll_event XR_SUCCESS state 1 VISIBLE
15 poll_event XR_SUCCESS state 1 FOCUSED
16 poll_event XR_SUCCESS state 1 VISIBLE
17 poll_event XR_SUCCESS state 1 SYNCHRONIZED
18 poll_event XR_SUCCESS state 1 STOPPING
19 poll_event XR_SUCCESS state 1 IDLE
20 poll_event XR_SUCCESS state 1 EXITING
21 poll_event XR_EVENT_UNAVAILABLE
22 leave XR_SUCCESS
compositor
frame 1 time 11111111 layers 0
ended
device
1 wish focused
status 0
",
        ..Row::EMPTY
    },
    Row {
        name: "a frame is discarded",
        words: &["serial", "scenario.json", "--device", "device.txt"],
        scenario: r#"{"version":1,"scripts":[[
{"op":"create_instance","major":1,"minor":0,"as":"i"},
{"op":"get_system","instance":"i","form":"head","as":"y"},
{"op":"create_session","instance":"i","system":"y","as":"s"},
{"op":"begin_session","session":"s","view":"stereo"},
{"op":"begin_frame","session":"s"},
{"op":"wait_frame","session":"s","as":"t"},
{"op":"begin_frame","session":"s"},
{"op":"wait_frame","session":"s","as":"t"},
{"op":"begin_frame","session":"s"},
{"op":"end_frame","session":"s","time":"t","blend":"opaque","layers":[]},
{"op":"end_frame","session":"s","time":"t","blend":"opaque","layers":[]}]]}"#,
        device: "wish ready\n",
        report: "\
xrsim report 1
thread 1
1 create_instance XR_SUCCESS
2 get_system XR_SUCCESS 1
3 create_session XR_SUCCESS
4 begin_session XR_SUCCESS
5 begin_frame XR_ERROR_CALL_ORDER_INVALID
6 wait_frame XR_SUCCESS time 11111111 period 11111111 render 0
7 begin_frame XR_SUCCESS
8 wait_frame XR_SUCCESS time 22222222 period 11111111 render 0
9 begin_frame XR_FRAME_DISCARDED
10 end_frame XR_SUCCESS
11 end_frame XR_ERROR_CALL_ORDER_INVALID
12 leave XR_SUCCESS
compositor
frame 1 time 22222222 layers 0
ended
device
1 wish ready
status 0
",
        ..Row::EMPTY
    },
];

/// The rows.
pub(super) fn rows() -> &'static [Row] {
    ROWS
}
