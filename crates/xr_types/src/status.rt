// How a run ends, and why a scenario is refused.
use crate::FieldName;

/// A read, a write or an opening that failed. It comes only where the named count of faults rose.
#[derive(Clone, Copy, Debug, PartialEq, Eq)]
pub struct Failed;

/// How a top call ends. The process ends with the number behind it.
#[derive(Clone, Copy, Debug, PartialEq, Eq)]
pub enum Status {
    /// 0: all was read and the whole report was written.
    Done,
    /// 1: the words aren't of a form that the call takes.
    Usage,
    /// 2: a file couldn't be opened.
    OpenFault,
    /// 3: the scenario couldn't be read.
    ReadFault,
    /// 4: the text is no scenario that is run.
    ScenarioRefused(Refusal),
    /// 5: the device couldn't be read.
    DeviceFailed,
    /// 6: this line of the device isn't in its grammar.
    DeviceGarbled(u64),
    /// 7: no unfinished actor's next call is ready.
    Stuck,
    /// 8: the report couldn't be written whole.
    WriteFault,
    /// 9: memory was short, and nothing was written.
    NoMemory,
}

/// Why a text is refused. A wrong place counts scripts and ops from 1; op 0 is a script itself, and
/// script 0 the top.
#[derive(Clone, Copy, Debug, PartialEq, Eq)]
pub enum Refusal {
    TooLong,
    Json,
    BadShape { script: u32, op: u32, what: What },
}

/// The part of a scenario that is wrong.
#[derive(Clone, Copy, Debug, PartialEq, Eq)]
pub enum What {
    Top,
    Version,
    Scripts,
    Script,
    Op,
    Field(FieldName),
    Extra,
}
