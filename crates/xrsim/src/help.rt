// What the program says of itself.

/// How the program is called, printed by `--help`.
pub(crate) const HELP: &str = "\
xrsim runs a scenario of OpenXR calls on a runtime core without graphics and
prints a report, or the summary of a load.

usage:
  xrsim serial FILE [--device FILE] [--places]
                    run the scenario under FILE on one thread, print its report
  xrsim threads FILE [--device FILE] [--places]
                    run each script on a thread of its own, print its report
  xrsim load N      run a scenario of N frames, 1 to 200000, print a summary
  xrsim --help      print this
  xrsim --version   print the version

A FILE has 1 to 4095 bytes; one that begins with '-' is given as ./-x, and a
device's as --device=-x too. The scenario's holds a JSON object of at most
1,048,576 bytes: a version, 1, and one to eight scripts of ops, which
docs/scenario.schema.json describes. Each script is an application.
These ops are run: create_instance, destroy_instance, get_system,
string_to_path, path_to_string, poll_event, create_session, destroy_session,
begin_session, end_session, request_exit_session, create_reference_space,
create_action_space, destroy_space, locate_space, create_action_set,
destroy_action_set, create_action, destroy_action, suggest_bindings,
attach_sets, sync_actions, get_boolean, get_float, get_vector,
get_pose_active, create_swapchain, destroy_swapchain, acquire_image,
wait_image, paint, release_image, wait_frame, begin_frame, end_frame, mark and
await.
Under serial the scripts, the device and the compositor take turns. Under
threads their calls may come in another order each time, and where they wait
for each other the run hangs; serial tells where it is stuck in its own order.
With --device the events of the device are read from a text, one on a line;
without it there are none.
With --places each line of a call ends in '@' and its reply's place: the count
of calls up to it, and of a getter, which isn't counted, the place of the call
that published last.

A load opens no file: its scenario is made from the number of frames, as
docs/FORMATS.md tells, and so are the events of its device. The summary counts
its calls by their results, and its frames.

example:
  {\"version\":1,\"scripts\":[[
    {\"op\":\"create_instance\",\"major\":1,\"minor\":0,\"as\":\"i\"},
    {\"op\":\"string_to_path\",\"instance\":\"i\",\"text\":\"/user/hand/left\"}]]}

exit status, with one line on standard error for each but 0:
  0  all was read and the whole report or summary was written
  1  the words aren't of a form above
  2  a file couldn't be opened
  3  the scenario couldn't be read
  4  the text is no scenario that is run; the line tells the script, the op and
     the field
  5  the device couldn't be read on; the report is whole
  6  a line of the device's text is malformed; the report is whole
  7  the run can't go on, under serial and load alone; a report tells the next
     calls
  8  the report or summary couldn't be written whole
  9  memory was short; nothing was written
";

/// Printed by `--version`.
pub(crate) const VERSION: &str = "xrsim 0.1.0\n";

/// The text that these words ask for, if they ask for one: `--help` or `-h` anywhere before `--`, and `--version` or `-V`
/// alone.
pub(crate) fn text_for(words: &[String]) -> Option<&'static str> {
    for word in words {
        match word.as_str() {
            "--" => break,
            "--help" | "-h" => return Some(HELP),
            _ => {}
        }
    }
    if words.len() != 1 {
        return None;
    }
    match words[0].as_str() {
        "--version" | "-V" => Some(VERSION),
        _ => None,
    }
}
