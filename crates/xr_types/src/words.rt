// Values that the formats name by a word each, the search for the value that a word names, and what stands behind a beginning.
ghost use Rattle.std.specs.Prelude.{◌≡◌, List, ℕ, map, Some};
ghost use Rattle.std.specs.List.{find};
ghost use Rattle.std.specs.Str.{bytes_eq};
ghost use Rattle.std.specs.Option.{option_copied};
ghost use Rattle.xr_types.specs.Words.{named, behind};

/// Values that the formats name by a word each. `printed` is the word of a value. `listed` are the values that have a word
/// of their own, in the order of the format: by the law `own` the search for the word of each of them finds it.
pub trait Word: Copy + 'static {
    ghost printed: { Self → List ℕ };

    ghost listed: { List Self };

    /// The word, as the formats write it.
    fn word(self) -> &'static str
        ensures { result.now ≡ printed self };

    /// The values that have a word of their own, in the order of the format.
    fn all() -> &'static [Self]
    where
        Self: Sized,
        ensures { result.now ≡ listed };

    ghost own: { map (λ x. named printed listed (printed x)) listed ≡ map Some listed };
}

/// The value that a word names, if it names one.
pub fn named<W: Word>(word: &[u8]) -> Option<W>
    ensures { result ≡ named W.printed W.listed word.now }
{
    for value in W::all() {
        if word == value.word().as_bytes() {
            return Some(*value);
        }
    }
    None
}

/// The text behind this beginning, where it begins so.
pub fn behind<'a>(beginning: &[u8], text: &'a [u8]) -> Option<&'a [u8]>
    ensures { option_copied result ≡ behind beginning.now text.now }
{
    text.strip_prefix(beginning)
}
