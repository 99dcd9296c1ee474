// Why a text isn't read.
use xr_types::Refusal;

/// Why a text is not read: it is refused, or memory was short.
#[derive(Clone, Copy, Debug)]
pub enum ScenarioFault {
    Refused(Refusal),
    NoMemory,
}
