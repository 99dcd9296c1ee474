// Images of swapchains, and layers.
use crate::ends::Row;

const ROWS: &[Row] = &[
    Row {
        name: "images of a swapchain come in turn",
        words: &["serial", "scenario.json"],
        scenario: r#"{"version":1,"scripts":[[
{"op":"create_instance","major":1,"minor":0,"as":"i"},
{"op":"get_system","instance":"i","form":"head","as":"y"},
{"op":"create_session","instance":"i","system":"y","as":"s"},
{"op":"create_swapchain","session":"s","format":1,"width":64,"height":64,"static":false,"as":"c"},
{"op":"acquire_image","chain":"c"},
{"op":"acquire_image","chain":"c"},
{"op":"acquire_image","chain":"c"},
{"op":"acquire_image","chain":"c"},
{"op":"release_image","chain":"c"},
{"op":"wait_image","chain":"c","timeout":0},
{"op":"wait_image","chain":"c","timeout":0},
{"op":"release_image","chain":"c"},
{"op":"release_image","chain":"c"},
{"op":"create_swapchain","session":"s","format":1,"width":64,"height":64,"static":true,"as":"d"},
{"op":"acquire_image","chain":"d"},
{"op":"acquire_image","chain":"d"},
{"op":"wait_image","chain":"d","timeout":0},
{"op":"release_image","chain":"d"},
{"op":"acquire_image","chain":"d"}]]}"#,
        report: "\
xrsim report 1
thread 1
1 create_instance XR_SUCCESS
2 get_system XR_SUCCESS 1
3 create_session XR_SUCCESS
4 create_swapchain XR_SUCCESS
5 acquire_image XR_SUCCESS 0
6 acquire_image XR_SUCCESS 1
7 acquire_image XR_SUCCESS 2
8 acquire_image XR_ERROR_CALL_ORDER_INVALID
9 release_image XR_ERROR_CALL_ORDER_INVALID
10 wait_image XR_SUCCESS
11 wait_image XR_ERROR_CALL_ORDER_INVALID
12 release_image XR_SUCCESS
13 release_image XR_ERROR_CALL_ORDER_INVALID
14 create_swapchain XR_SUCCESS
15 acquire_image XR_SUCCESS 0
16 acquire_image XR_ERROR_CALL_ORDER_INVALID
17 wait_image XR_SUCCESS
18 release_image XR_SUCCESS
19 acquire_image XR_ERROR_CALL_ORDER_INVALID
20 leave XR_SUCCESS
compositor
ended
device
status 0
",
        ..Row::EMPTY
    },
    Row {
        name: "layers of a frame are refused, and then shown",
        words: &["serial", "scenario.json", "--device", "device.txt"],
        scenario: r#"{"version":1,"scripts":[[
{"op":"create_instance","major":1,"minor":0,"as":"i"},
{"op":"get_system","instance":"i","form":"head","as":"y"},
{"op":"create_session","instance":"i","system":"y","as":"s"},
{"op":"begin_session","session":"s","view":"stereo"},
{"op":"create_reference_space","session":"s","kind":"local","offset":1,"as":"r"},
{"op":"create_swapchain","session":"s","format":1,"width":64,"height":32,"static":false,"as":"c"},
{"op":"wait_frame","session":"s","as":"t"},
{"op":"begin_frame","session":"s"},
{"op":"end_frame","session":"s","time":"t","blend":"alpha","layers":[]},
{"op":"end_frame","session":"s","time":"t","blend":"opaque","layers":[{"quad":"r","image":["c",0,0,64,32],"pose":1},{"quad":"r","image":["c",0,0,64,32],"pose":1},{"quad":"r","image":["c",0,0,64,32],"pose":1},{"quad":"r","image":["c",0,0,64,32],"pose":1},{"quad":"r","image":["c",0,0,64,32],"pose":1},{"quad":"r","image":["c",0,0,64,32],"pose":1},{"quad":"r","image":["c",0,0,64,32],"pose":1},{"quad":"r","image":["c",0,0,64,32],"pose":1},{"quad":"r","image":["c",0,0,64,32],"pose":1},{"quad":"r","image":["c",0,0,64,32],"pose":1},{"quad":"r","image":["c",0,0,64,32],"pose":1},{"quad":"r","image":["c",0,0,64,32],"pose":1},{"quad":"r","image":["c",0,0,64,32],"pose":1},{"quad":"r","image":["c",0,0,64,32],"pose":1},{"quad":"r","image":["c",0,0,64,32],"pose":1},{"quad":"r","image":["c",0,0,64,32],"pose":1},{"quad":"r","image":["c",0,0,64,32],"pose":1}]},
{"op":"end_frame","session":"s","time":"t","blend":"opaque","layers":[{"quad":"r","image":["c",1,0,64,32],"pose":1}]},
{"op":"end_frame","session":"s","time":"t","blend":"opaque","layers":[{"quad":"r","image":["c",0,0,64,32],"pose":1}]},
{"op":"acquire_image","chain":"c"},
{"op":"wait_image","chain":"c","timeout":0},
{"op":"paint","chain":"c","stamp":77},
{"op":"release_image","chain":"c"},
{"op":"end_frame","session":"s","time":"t","blend":"opaque","layers":[{"quad":"r","image":["c",0,0,64,32],"pose":1}]}]]}"#,
        device: "wish ready\n",
        report: "\
xrsim report 1
thread 1
1 create_instance XR_SUCCESS
2 get_system XR_SUCCESS 1
3 create_session XR_SUCCESS
4 begin_session XR_SUCCESS
5 create_reference_space XR_SUCCESS
6 create_swapchain XR_SUCCESS
7 wait_frame XR_SUCCESS time 11111111 period 11111111 render 0
8 begin_frame XR_SUCCESS
9 end_frame XR_ERROR_ENVIRONMENT_BLEND_MODE_UNSUPPORTED
10 end_frame XR_ERROR_LAYER_LIMIT_EXCEEDED
11 end_frame XR_ERROR_SWAPCHAIN_RECT_INVALID
12 end_frame XR_ERROR_LAYER_INVALID
13 acquire_image XR_SUCCESS 0
14 wait_image XR_SUCCESS
15 paint XR_SUCCESS
16 release_image XR_SUCCESS
17 end_frame XR_SUCCESS
18 leave XR_SUCCESS
compositor
frame 1 time 11111111 layers 1 quad:77
ended
device
1 wish ready
status 0
",
        ..Row::EMPTY
    },
];

/// The rows.
pub(super) fn rows() -> &'static [Row] {
    ROWS
}
