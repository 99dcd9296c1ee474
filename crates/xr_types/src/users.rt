// The five user paths by their places.
ghost use Rattle.std.specs.Prelude.{◌≡◌, ◌<◌};
ghost use Rattle.xr_types.specs.Users.{user_place};

use crate::User;

/// How many user paths there are (OpenXR 1.0 section 6.3.1).
pub const USERS: usize = 5;

/// The place of a user path among the five, from 0 (OpenXR 1.0 section 6.3.1).
pub fn user_place(user: User) -> usize
    ensures place { result ≡ user_place user }
    ensures within { result < 5 }
{
    match user {
        User::Left => 0,
        User::Right => 1,
        User::Head => 2,
        User::Gamepad => 3,
        User::Treadmill => 4,
    }
}
