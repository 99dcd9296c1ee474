//! The laws of texts of paths: that a text is known by its atom, and is given back.
ghost use Rattle.xr_model.specs.laws.PathLaws.{TextsAreKnown, TextsAreGivenBack, PathsAreNames};

/// A text that is taken has the atom that is given for it.
#[tactic(auto, using(crate::proofs::KnownTexts::texts_are_known))]
pub fn texts_are_known()
    ensures { TextsAreKnown }
{}

/// Where an atom's text is asked for with success, its size with a terminating zero is given, and the text and the zero are written, but
/// where no buffer is lent.
#[tactic(auto, using(crate::proofs::KnownTexts::texts_are_given_back))]
pub fn texts_are_given_back()
    ensures { TextsAreGivenBack }
{}

/// A text is a path exactly where it is made of one name or more, each behind a slash, in at most 255 bytes; a name has bytes that a name
/// may have, and isn't made of periods alone or of nothing.
#[tactic(auto, using(crate::proofs::PathTexts::paths_are_names))]
pub fn paths_are_names()
    ensures { PathsAreNames }
{}
