//! The suggested bindings: for each interaction profile, what the application last suggested for it (OpenXR 1.0 chapter
//! 11, xrSuggestInteractionProfileBindings). It knows actions and what paths pick by their numbers, and nothing of
//! handles, action sets, the texts of paths or the calls that ask.
#![tactic(auto)]

mod bindings;
mod profiles;
mod suggestions;

pub use bindings::Bindings;
