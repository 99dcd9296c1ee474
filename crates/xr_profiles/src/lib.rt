//! The interaction profiles, and what a suggested path picks of a controller. It knows texts and the rows of
//! controllers, and nothing of the calls that suggest, of actions or of handles. It takes no memory.
#![tactic(auto)]

ghost use Rattle.std.specs.Prelude.{◌≡◌};
ghost use Rattle.xr_model.specs.machine.Profiles.{profile_of, user_of, component};

mod picks;
mod table;
mod texts;

use crate::picks::pick_at;
use xr_types::{ActionType, Pick, Profile, User, Word, behind, named};

/// The interaction profile of a path's text: `/interaction_profiles/` and the profile's name. `None` comes for any other
/// text, of any length. OpenXR 1.0 section 6.4.
pub fn profile_of(text: &[u8]) -> Option<Profile>
    ensures { result ≡ profile_of text.now }
{
    named(behind(b"/interaction_profiles/", text)?)
}

/// The top-level user path of a path's text. `None` comes for any other text, of any length. OpenXR 1.0 section 6.3.1.
pub fn user_of(text: &[u8]) -> Option<User>
    ensures { result ≡ user_of text.now }
{
    named(text)
}

/// What a suggested path picks of a profile's controller for an action of this type: the user path, the place of the
/// identifier or output among all, from 0 to 29, and the part. A boolean and a float pick the input that the path names
/// with its component. By an identifier alone, a boolean picks the click, or the value where there is no click, and a
/// float the value, or the click where there is no value. A vector picks both axes of an identifier alone. A pose picks
/// that of an identifier, with `pose` or alone. A vibration picks an output. Rows are 1 to 40 for inputs, 41 for
/// `grip/pose` and 42 for `aim/pose`. `None` comes where the controller has no such part at that user path, where the
/// part doesn't fit the type, and for any other text, of any length. OpenXR 1.0 section 6.4, and chapter 11,
/// xrSuggestInteractionProfileBindings.
pub fn component(profile: Profile, kind: ActionType, path: &[u8]) -> Option<Pick>
    ensures { result ≡ component profile kind path.now }
{
    for user in User::all() {
        if let Some(pick) = pick_at(profile, kind, path, *user) {
            return Some(pick);
        }
    }
    None
}
