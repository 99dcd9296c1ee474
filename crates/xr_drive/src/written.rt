// The text of what a run has made.
ghost use Rattle.std.specs.Prelude.{◌≡◌, IfOk};
ghost use Rattle.xr_command.specs.Reads.{shown_form};
ghost use Rattle.xr_drive.specs.Top.{text_of};
ghost use Rattle.xr_drive.specs.inside.CallParts.{MeansWritten, RoseIfUnwritten, KeptUnlessUnwritten};

use crate::faults::Unwritten;
use crate::output::write_all;
use std::alloc::Global;
use xr_command::WordsForm;
use xr_io::Sink;
use xr_report::{report, summary};
use xr_types::{Lists, NoMemory};

/// What is written of what a form's run has made: the report, with the places of replies or without, or the summary.
fn text_of(alloc: Global, form: &WordsForm<'_>, lists: &Lists) -> Result<Vec<u8>, NoMemory>
    ensures { IfOk result (λ text. text.items ≡ text_of (shown_form form.now) lists.now) }
{
    match form {
        WordsForm::Run(options) => report(alloc, lists, options.places),
        WordsForm::Load(frames) => summary(alloc, *frames, lists),
    }
}

/// Writes that.
pub(crate) fn write_text<K: Sink>(
    alloc: Global,
    sink: &mut K,
    form: &WordsForm<'_>,
    lists: &Lists,
) -> Result<(), Unwritten>
    ensures means { MeansWritten (text_of (shown_form form.now) lists.now) (K.output sink.old) (K.output sink.new) result }
    ensures cause { RoseIfUnwritten (K.output sink.old) (K.output sink.new) result }
    ensures counts { KeptUnlessUnwritten (K.output sink.old) (K.output sink.new) result }
{
    let Ok(text) = text_of(alloc, form, lists) else {
        return Err(Unwritten::NoMemory);
    };
    match write_all(sink, text.as_slice()) {
        Ok(()) => Ok(()),
        Err(_) => Err(Unwritten::Failed),
    }
}
