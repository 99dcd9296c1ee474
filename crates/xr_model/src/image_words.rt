//! The laws of images as words: whose an image is by its word, what an entry makes of words, what its calls on cells ask for, and
//! what may come between a look and an entry.
ghost use Rattle.xr_model.specs.laws.ImageWordLaws.{WordsTellOwners, WordsFollowCalls, StampsFollowCalls, WordsFallByReturns, ClaimsAreWords, CallsFit, ClaimsStandAlone, WaitsComeToOneOfThree, FreeEntriesLeave, EntriesAreCarried};

/// After every legal history an image is an application's where its word is 2^32, and the compositor's where its word is 1 to 2 * SESSIONS + 2.
pub fn words_tell_owners()
    ensures { WordsTellOwners }
{}

/// In a legal history an entry that claims no image and gives none back makes of an image's word what its calls on cells make of it.
#[tactic(auto, using(crate::proofs::WordSteps::words_follow_calls))]
pub fn words_follow_calls()
    ensures { WordsFollowCalls }
{}

/// In a legal history every entry makes of an image's stamp what its calls on cells make of it.
#[tactic(auto, using(crate::proofs::WordSteps::stamps_follow_calls))]
pub fn stamps_follow_calls()
    ensures { StampsFollowCalls }
{}

/// In a legal history the word of an image falls by how often it is given back.
#[tactic(auto, using(crate::proofs::WordSteps::words_fall_by_returns))]
pub fn words_fall_by_returns()
    ensures { WordsFallByReturns }
{}

/// In a legal history the word of an image that is claimed becomes an application's, and every other word stays.
#[tactic(auto, using(crate::proofs::WordSteps::claims_are_words))]
pub fn claims_are_words()
    ensures { ClaimsAreWords }
{}

/// After every legal history each call on cells of an entry fits what the core keeps, whatever the cells tell: its image is one of
/// the places, an application has what is freed, and none has what is claimed.
#[tactic(auto, using(crate::proofs::FittingCalls::all_calls_fit))]
pub fn calls_fit()
    ensures { CallsFit }
{}

/// An entry that may claim an image is a wait that nothing but a count stands against, and makes no other call on cells.
pub fn claims_stand_alone()
    ensures { ClaimsStandAlone }
{}

/// Such a wait gets its image where that is unused, expires where it is used and the time is up, and else isn't ready.
#[tactic(auto, using(crate::proofs::ImageWaits::waits_come_to))]
pub fn waits_come_to_one_of_three()
    ensures { WaitsComeToOneOfThree }
{}

/// Images that are given back, and getters, leave what the core keeps, the clocks and the stamps.
pub fn free_entries_leave()
    ensures { FreeEntriesLeave }
{}

/// An entry that is none of the compositor's and claims no image comes to the same behind images that were given back and getters.
pub fn entries_are_carried()
    ensures { EntriesAreCarried }
{}
