// Reading all of a source.
ghost use Rattle.std.specs.Prelude.{◌≡◌, ◌≤◌, ◌<◌, ◌+◌, ◌++◌, ℕ, List, length, take, IfOk, IfSome, vec_len};
ghost use Rattle.std.specs.Io.KnownBytes.{Consumes, IsAtEnd};
ghost use Rattle.xr_io.specs.Outside.{left_of};
ghost use Rattle.xr_drive.specs.inside.Input.{HasReadCause, IsSameFile, TakesMore};

use std::alloc::Global;
use xr_io::Source;
use xr_types::MOST_SCENARIO;

/// How many bytes are read at most: one more than a scenario may have.
const LIMIT: usize = MOST_SCENARIO + 1;

const CHUNK: usize = 4_096;

/// Why a reading stops before the end.
pub(crate) enum Stop {
    Failed,
    NoMemory,
}

/// Reads at most so many bytes and appends them. 0 is the end. The piece has left the stack before what was read is used.
#[inline(never)]
fn read_piece<S: Source>(source: &mut S, text: &mut Vec<u8>, room: usize) -> Result<usize, Stop>
    requires { 0 < room }
    ensures len { IfOk result (λ n. (vec_len text.new ≡ vec_len text.old + n) × (n ≤ room)) }
    ensures bytes { IfOk result (λ n. (read : List ℕ) × (text.new.items ≡ text.old.items ++ read) × Consumes (left_of (S.state source.old)) (left_of (S.state source.new)) read) }
    ensures end { IfOk result (λ n. n ≡ 0 → IsAtEnd (left_of (S.state source.new))) }
    ensures same { IsSameFile (S.state source.old) (S.state source.new) }
    ensures cause { HasReadCause (S.state source.old).faults (S.state source.new).faults result }
    ensures taken { TakesMore room (S.state source.old) (S.state source.new) result }
    ensures count { IfOk result (λ n. (S.state source.new).taken.count ≡ (S.state source.old).taken.count + n) }
    ensures over { IfOk result (λ n. 0 < n → (S.state source.new).is_over ≡ (S.state source.old).is_over) }
{
    let mut chunk = [0u8; CHUNK];
    let most = room.min(CHUNK);
    let piece = &mut chunk[..most];
    let Ok(count) = source.read(piece) else {
        return Err(Stop::Failed);
    };
    let Ok(()) = text.extend_from_slice(&piece[..count]) else {
        return Err(Stop::NoMemory);
    };
    Ok(count)
}

/// Reads a source to its end, or to its limit. It takes just the bytes that it gives, and ends after 1,048,577 of them
/// whatever the source does. Nothing is read behind its end or a failed read.
pub(crate) fn read_all<S: Source>(alloc: Global, source: &mut S) -> Result<Vec<u8>, Stop>
    ensures bytes { IfOk result (λ text. IfSome (left_of (S.state source.old)) (λ bytes. text.items ≡ take LIMIT bytes)) }
    ensures consumed { IfOk result (λ text. Consumes (left_of (S.state source.old)) (left_of (S.state source.new)) text.items) }
    ensures most { IfOk result (λ text. length text.items ≤ LIMIT) }
    ensures same { (S.state source.new).bytes ≡ (S.state source.old).bytes }
    ensures which { (S.state source.new).which ≡ (S.state source.old).which }
    ensures cause { HasReadCause (S.state source.old).faults (S.state source.new).faults result }
    ensures taken { TakesMore LIMIT (S.state source.old) (S.state source.new) result }
{
    let mut text = Vec::new(alloc);
    for _ in 0..LIMIT {
        let room = LIMIT - text.len();
        let count = read_piece(source, &mut text, room)?;
        if count == 0 {
            return Ok(text);
        }
        if text.len() == LIMIT {
            return Ok(text);
        }
    }
    Ok(text)
}
