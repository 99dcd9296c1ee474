// A text and its terminating zero, at the front of a lent buffer.
ghost use Rattle.std.specs.Prelude.{◌≡◌, length, Some};
ghost use Rattle.xr_model.specs.machine.Paths.{copy_refusals, copied, size_of};
ghost use Rattle.xr_model.specs.machine.Refusals.{first_of};
ghost use Rattle.xr_model.specs.machine.PartAnswers.{answer_by};
ghost use Rattle.xr_model.specs.machine.CoreCalls.{written_over};

use xr_types::{Answer, Code};

/// Copies a text and a zero to the front of a buffer. An empty buffer asks for the size alone, and one
/// that is too small stays as it was.
pub(crate) fn copy_text(text: &[u8], out: &mut [u8]) -> Answer
    ensures answer { result ≡ answer_by (first_of (copy_refusals (Some text.now) (length out.old))) (size_of text.now) }
    ensures written { out.new ≡ written_over (copied (Some text.now) (length out.old)) out.old }
{
    let size = text.len() + 1;
    let number = size as u64;
    if out.is_empty() {
        return Answer::numbered(number);
    }
    if out.len() < size {
        return Answer {
            code: Code::SizeInsufficient,
            number,
        };
    }
    out[..size - 1].copy_from_slice(text);
    out[size - 1] = 0;
    Answer::numbered(number)
}
