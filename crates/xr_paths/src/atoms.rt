// The set of texts, and the calls on it.
ghost use Rattle.std.specs.Prelude.{◌≡◌, ◌<◌, ℕ, List, [], ◌++◌, ◌∷◌, length, IfOk, IfSome, is_some, nat_eq, true, false, IsTrue, Some, ◌↔◌};
ghost use Rattle.std.specs.Option.{option_copied};
ghost use Rattle.std.specs.List.{list_any};
ghost use Rattle.std.specs.Cmp.Lexicographic.{pointwise};
ghost use Rattle.xr_types.specs.Code.{is_out_of_memory};
ghost use Rattle.xr_model.specs.machine.Paths.{index_of, atom_of, with_text, text_at, intern_refusals, may_want_memory, copy_refusals, copied, size_at};
ghost use Rattle.xr_model.specs.machine.Refusals.{first_of, unless};
ghost use Rattle.xr_model.specs.machine.PartAnswers.{answer_by};
ghost use Rattle.xr_model.specs.machine.CoreCalls.{written_over};

use crate::copy::copy_text;
use crate::text::is_path_text;
use indexmap::IndexSet;
use std::alloc::Global;
use std::marker::Model;
use xr_types::{Answer, Code, NoMemory};

/// How many atoms an instance may have.
pub const ATOMS: usize = 1024;

/// The texts that were interned, seen by contracts as their list; the k-th has the atom k.
#[derive(Drop)]
pub struct Paths {
    texts: IndexSet<Vec<u8>>,
}

impl Model for Paths {
    ghost use Rattle.std.specs.Prelude.{◌≤◌, List, ℕ, map, length};

    ghost Value = { List (List ℕ) };

    ghost view = { λ a. map (λ text. text.items) a.texts.keys };

    ghost invariant = { λ a. length a.texts.keys ≤ 1024 };
}

impl Paths {
    /// No text is known. Takes the room of 1024 texts' places; each new text takes its own bytes.
    pub fn start(alloc: Global) -> Result<Paths, NoMemory>
        ensures { IfOk result (λ paths. paths ≡ []) }
    {
        let texts = IndexSet::with_capacity(alloc, ATOMS)?;
        Ok(Paths { texts })
    }

    /// Forgets all texts.
    pub fn clear(&mut self)
        ensures { self.new ≡ [] }
    {
        self.texts.clear();
    }

    /// The index of a text that is known.
    fn index_of(&self, text: &[u8]) -> Option<usize>
        ensures index { result ≡ index_of self.now text.now }
        ensures within { IfSome result (λ k. k < 1024) }
        ensures found { is_some result ≡ list_any (λ known. pointwise nat_eq text.now known) self.now }
    {
        self.texts.get_index_of(text)
    }

    /// The text of an atom, where there is one. OpenXR 1.0 section 6.2.
    pub fn text_at(&self, atom: u64) -> Option<&[u8]>
        ensures { option_copied result ≡ text_at self.now atom }
    {
        if atom == 0 {
            return None;
        }
        match self.texts.get_index((atom - 1) as usize) {
            Some(text) => Some(text.as_slice()),
            None => None,
        }
    }

    /// Adds a text that isn't known, where memory is found.
    fn add(&mut self, alloc: Global, text: &[u8]) -> bool
        requires new { list_any (λ known. pointwise nat_eq text.now known) self.old ≡ false }
        requires room { length self.old < 1024 }
        ensures added { IsTrue result → self.new ≡ self.old ++ text.now ∷ [] }
        ensures short { result ≡ false → self.new ≡ self.old }
    {
        let Ok(name) = text.to_vec(alloc) else {
            return false;
        };
        let Ok(_) = self.texts.insert(name) else {
            return false;
        };
        true
    }

    /// The atom of a text, which is made where the text is new. Refused are, in this order, a text that
    /// is no path (`PathFormatInvalid`), a new one where 1024 are known (`PathCountExceeded`), and a new
    /// one for which there is no memory (`OutOfMemory`); each leaves all as it was. No other call takes
    /// memory. OpenXR 1.0 section 6.2, xrStringToPath.
    pub fn intern(&mut self, alloc: Global, text: &[u8]) -> Answer
        ensures state { self.new ≡ unless (first_of (intern_refusals self.old text.now (is_out_of_memory result.code))) self.old (with_text self.old text.now) }
        ensures answer { result ≡ answer_by (first_of (intern_refusals self.old text.now (is_out_of_memory result.code))) (atom_of self.old text.now) }
        ensures memory { is_out_of_memory result.code ≡ true → may_want_memory self.old text.now ≡ true }
    {
        if !is_path_text(text) {
            return Answer::plain(Code::PathFormatInvalid);
        }
        if let Some(index) = self.index_of(text) {
            return Answer::numbered(index as u64 + 1);
        }
        let count = self.texts.len();
        if count >= ATOMS {
            return Answer::plain(Code::PathCountExceeded);
        }
        if self.add(alloc, text) {
            Answer::numbered(count as u64 + 1)
        } else {
            Answer::plain(Code::OutOfMemory)
        }
    }

    /// The text of an atom and a zero, at the front of a buffer, with the size of both as the number.
    /// An empty buffer asks for the size alone. Refused are, in this order, a number that is no atom
    /// (`PathInvalid`), and a buffer that is too small (`SizeInsufficient`, with the size); each leaves
    /// the buffer as it was. OpenXR 1.0 section 6.2, xrPathToString.
    pub fn text_of(&self, atom: u64, out: &mut [u8]) -> Answer
        ensures answer { result ≡ answer_by (first_of (copy_refusals (text_at self.now atom) (length out.old))) (size_at (text_at self.now atom)) }
        ensures written { out.new ≡ written_over (copied (text_at self.now atom) (length out.old)) out.old }
    {
        match self.text_at(atom) {
            Some(text) => copy_text(text, out),
            None => Answer::plain(Code::PathInvalid),
        }
    }

    /// Whether this atom is known and has this text.
    pub fn holds(&self, atom: u64, text: &[u8]) -> bool
        ensures { IsTrue result ↔ (text_at self.now atom ≡ Some text.now) }
    {
        match self.text_at(atom) {
            Some(known) => known == text,
            None => false,
        }
    }
}
