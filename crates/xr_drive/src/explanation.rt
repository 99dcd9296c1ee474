// How a run ended that isn't done, in one line of words on an output.
ghost use Rattle.std.specs.Prelude.{◌≡◌, ◌≤◌, ◌+◌, ◌++◌, length, decimal};
ghost use Rattle.xr_drive.specs.Lines.{name_of_part, reason_of};
ghost use Rattle.xr_drive.specs.Program.{said_of, Says};

use crate::output::write_all;
use arrayvec::ArrayVec;
use itoa::Buffer;
use xr_io::Sink;
use xr_types::{Refusal, Status, What};

const USAGE: &str =
    "xrsim: usage: xrsim serial FILE, xrsim threads FILE, with --device FILE and --places; xrsim load N\n";

/// The most bytes that a line has.
const MOST_LINE: usize = 128;

/// A line that is put together, so that it is written in one piece.
type Line = ArrayVec<u8, MOST_LINE>;

/// A text more, for which there is room.
fn put(line: &mut Line, text: &str)
    requires room { length line.old.items + length text.now ≤ 128 }
    ensures { line.new.items ≡ line.old.items ++ text.now }
{
    let _ = line.try_extend_from_slice(text.as_bytes());
}

/// A number more, for whose digits there is room.
#[tactic(auto, using(crate::proofs::Digits::few_digits))]
fn put_number(line: &mut Line, number: u64)
    requires room { length line.old.items + 20 ≤ 128 }
    ensures text { line.new.items ≡ line.old.items ++ decimal number }
    ensures few { length line.new.items ≤ length line.old.items + 20 }
{
    let mut digits = Buffer::new();
    put(line, digits.format(number));
}

/// What of a scenario's place is wrong: a field by its name.
#[tactic(auto, using(crate::proofs::Digits::short_part))]
fn name_of_part(what: What) -> &'static str
    ensures name { result.now ≡ name_of_part what }
    ensures short { length result.now ≤ 10 }
{
    match what {
        What::Top => "top",
        What::Version => "version",
        What::Scripts => "scripts",
        What::Script => "script",
        What::Op => "op",
        What::Field(key) => key.name(),
        What::Extra => "extra key",
    }
}

/// Why a scenario is refused: `json`, `too long`, or the script and the op from 1 with the part of them that is wrong.
fn put_reason(line: &mut Line, why: Refusal)
    requires room { length line.old.items + 64 ≤ 128 }
    ensures text { line.new.items ≡ line.old.items ++ reason_of why }
    ensures few { length line.new.items ≤ length line.old.items + 64 }
{
    match why {
        Refusal::TooLong => put(line, "too long"),
        Refusal::Json => put(line, "json"),
        Refusal::BadShape { script, op, what } => {
            put(line, "script ");
            put_number(line, u64::from(script));
            put(line, " op ");
            put_number(line, u64::from(op));
            put(line, " ");
            put(line, name_of_part(what));
        }
    }
}

/// The line that tells this status, with its line feed. `Done` alone has none.
fn status_line(status: Status) -> Line
    ensures { result.items ≡ said_of status }
{
    let mut line = ArrayVec::new();
    match status {
        Status::Done => {}
        Status::Usage => put(&mut line, USAGE),
        Status::OpenFault => put(&mut line, "xrsim: cannot open\n"),
        Status::ReadFault => put(&mut line, "xrsim: cannot read the scenario\n"),
        Status::ScenarioRefused(why) => {
            put(&mut line, "xrsim: scenario refused: ");
            put_reason(&mut line, why);
            put(&mut line, "\n");
        }
        Status::DeviceFailed => put(&mut line, "xrsim: device failed\n"),
        Status::DeviceGarbled(number) => {
            put(&mut line, "xrsim: device line ");
            put_number(&mut line, number);
            put(&mut line, " garbled\n");
        }
        Status::Stuck => put(&mut line, "xrsim: stuck\n"),
        Status::WriteFault => put(&mut line, "xrsim: cannot write\n"),
        Status::NoMemory => put(&mut line, "xrsim: no memory\n"),
    }
    line
}

/// Says how a run ended that isn't done, in one line on this output; of a run that is done nothing. After a fault of the
/// output a first part of the line is written.
pub fn explain<K: Sink>(sink: &mut K, status: Status)
    ensures { Says (K.output sink.old) (K.output sink.new) (said_of status) }
{
    let line = status_line(status);
    let _ = write_all(sink, line.as_slice());
}
