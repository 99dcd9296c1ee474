// The atoms of the five user paths, by which getters know them. It knows no other path.
ghost use Rattle.std.specs.Prelude.{◌≡◌, ◌==◌, Some, if◌then◌else◌};
ghost use Rattle.xr_model.specs.machine.Profiles.{user_of};
ghost use Rattle.xr_model.specs.machine.Publication.{column_from};
ghost use Rattle.xr_core.specs.inside.Users.{users_with};

use xr_profiles::user_of;
use xr_types::{USERS, user_place};

/// A text has this atom: where it is a user path's that has none, that is its atom from now on.
pub(crate) fn note_text(users: &mut [u64; USERS], text: &[u8], atom: u64)
    ensures { users.new ≡ users_with users.old (user_of text.now) atom }
{
    if let Some(user) = user_of(text) {
        let place = user_place(user);
        if users[place] == 0 {
            users[place] = atom;
        }
    }
}

/// The column of a user path by its atom, where the action declares it; column 0 is that of all, by 0.
pub(crate) fn column_by(users: &[u64; USERS], declared: &[bool; USERS], sub: u64) -> Option<usize>
    ensures { result ≡ (if sub == 0 then Some 0 else column_from 1 users.now declared.now sub) }
{
    if sub == 0 {
        return Some(0);
    }
    for place in 0..USERS {
        if declared[place] && users[place] == sub {
            return Some(place + 1);
        }
    }
    None
}
