// Which bindings are live: the sets that a sync hears, and the largest heard priority of each source.
ghost use Rattle.std.specs.Prelude.{◌≡◌, ◌<◌, ℕ, All, slice_index};
ghost use Rattle.xr_model.specs.machine.Sync.{hears, is_heard, is_live};
ghost use Rattle.xr_sync.specs.Ranks.{source_of, top_of, IsPlaced};

use xr_types::{Heard, Pick, Ranked, USERS, User, user_place};

/// How many identifiers and outputs there are.
const IDENTIFIERS: usize = 30;

/// How many sources there are: an identifier at a user path is one.
pub(crate) const SOURCES: usize = IDENTIFIERS * USERS;

/// Whether a set is listed for this user path.
fn hears(heard: &Heard, user: User) -> bool
    ensures { result ≡ hears heard.now.user user }
{
    match heard.user {
        None => true,
        Some(only) => user_place(only) == user_place(user),
    }
}

/// Whether a binding's set is listed for its user path.
fn is_heard(active: &[Heard], b: &Ranked) -> bool
    ensures { result ≡ is_heard active.now b.now }
{
    active.iter().any(|heard| heard.set == b.set && hears(heard, b.bound.pick.user))
}

/// The source of a pick as a number.
fn source_of(pick: Pick) -> usize
    ensures { result ≡ source_of pick }
{
    user_place(pick.user) * IDENTIFIERS + usize::from(pick.identifier)
}

/// The largest heard priority of each source.
pub(crate) fn rank(active: &[Heard], all: &[Ranked]) -> [u32; SOURCES]
    requires { All IsPlaced all.now }
    ensures { (source : ℕ) → source < 150 → slice_index result source ≡ top_of active.now all.now source }
{
    let mut tops = [0; SOURCES];
    for b in all {
        if is_heard(active, b) {
            let source = source_of(b.bound.pick);
            if tops[source] < b.priority {
                tops[source] = b.priority;
            }
        }
    }
    tops
}

/// Whether a binding is live, by the largest heard priorities.
#[tactic(auto, using(crate::proofs::Tops::live_by_top))]
pub(crate) fn is_live(active: &[Heard], all: &[Ranked], tops: &[u32; SOURCES], b: &Ranked) -> bool
    requires tops { (source : ℕ) → source < 150 → slice_index tops.now source ≡ top_of active.now all.now source }
    requires placed { IsPlaced b.now }
    requires all { All IsPlaced all.now }
    ensures { result ≡ is_live active.now all.now b.now }
{
    is_heard(active, b) && tops[source_of(b.bound.pick)] <= b.priority
}
