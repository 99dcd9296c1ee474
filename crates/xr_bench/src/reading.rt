// The calls of a round as a scenario, and how its JSON is read.
use serde_json::Value;
use std::alloc::Global;

/// How many calls a round makes.
pub(crate) const CALLS: u64 = 11;

/// The calls of a round as a scenario.
const TEXT: &str =
    r#"{"version":1,"scripts":[[{"op":"create_instance","major":1,"minor":0,"as":"i"},{"op":"get_system","instance":"i","form":"head","as":"y"},{"op":"create_session","instance":"i","system":"y","as":"s"},{"op":"poll_event","instance":"i"},{"op":"poll_event","instance":"i"},{"op":"string_to_path","instance":"i","text":"/user/hand/left","as":"p"},{"op":"string_to_path","instance":"i","text":"/user/hand/left"},{"op":"path_to_string","instance":"i","path":"p","capacity":0},{"op":"create_session","instance":"i","system":"y"},{"op":"destroy_session","session":"s"},{"op":"destroy_instance","instance":"i"}]]}"#;

/// Reads the scenario so often; whether each reading gave a value.
pub(crate) fn read_rounds(alloc: Global, rounds: u64) -> bool {
    for _ in 0..rounds {
        if Value::from_slice(alloc, TEXT.as_bytes()).is_err() {
            return false;
        }
    }
    true
}
