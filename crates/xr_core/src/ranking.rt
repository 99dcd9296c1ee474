// The bindings that a sync goes by: the suggestions for the controllers that are connected, each with what is known of its
// action. It changes no part.
ghost use Rattle.std.specs.Prelude.{◌≡◌, ◌≤◌, ◌<◌, ◌+◌, ◌++◌, [], ◌∷◌, true, length, flat_map, option_map, unwrap_or, All, IfOk, IfSome};
ghost use Rattle.std.specs.List.{list_all};
ghost use Rattle.xr_model.specs.machine.Rules.Sync.{ranked, suggested_at};
ghost use Rattle.xr_model.specs.machine.Sync.{is_source};
ghost use Rattle.xr_sync.specs.Ranks.{IsPlaced};
ghost use Rattle.xr_core.specs.inside.Ranked.{ranked_at, ranked_for};
ghost use Rattle.xr_types.specs.Printed.{all_users};

use std::alloc::Global;
use std::marker::Model;
use xr_bindings::Bindings;
use xr_handles::Handles;
use xr_sets::Sets;
use xr_types::{
    Bound, Kind, MOST_SUGGESTED, NoMemory, Profile, Ranked, USERS, User, Word, user_place,
};

/// For how many bindings there is room: as many at each user path as may be suggested for a profile.
pub(crate) const ROOM: usize = USERS * MOST_SUGGESTED;

/// The bindings of a sync in their order. Their room is taken at the start.
#[derive(Drop)]
pub(crate) struct Ranking {
    list: Vec<Ranked>,
}

impl Model for Ranking {
    ghost use Rattle.std.specs.Prelude.{List, ◌≤◌, All, vec_capacity};
    ghost use Rattle.xr_types.specs.declared.input.Ranked.{Ranked};
    ghost use Rattle.xr_sync.specs.Ranks.{IsPlaced};

    ghost Value = { List Ranked };

    ghost view = { λ r. r.list.items };

    ghost invariant = { λ r. (2560 ≤ vec_capacity r.list) × All IsPlaced r.list.items };
}

impl Ranking {
    /// No binding. Takes the room of all that there may be, and nothing later takes any.
    pub(crate) fn start(alloc: Global) -> Result<Ranking, NoMemory>
        ensures { IfOk result (λ ranking. ranking ≡ []) }
    {
        let list = Vec::with_capacity(alloc, ROOM)?;
        Ok(Ranking { list })
    }

    /// No binding from now on.
    pub(crate) fn clear(&mut self)
        ensures { self.new ≡ [] }
    {
        self.list.clear();
    }

    /// One binding more.
    fn push(&mut self, ranked: Ranked)
        requires room { length self.old < 2560 }
        requires placed { IsPlaced ranked }
        ensures { self.new ≡ self.old ++ ranked ∷ [] }
    {
        self.list.push_reserved(ranked);
    }

    /// The bindings in their order.
    pub(crate) fn as_slice(&self) -> &[Ranked]
        ensures list { result.now ≡ self.now }
        ensures placed { All IsPlaced result.now }
    {
        self.list.as_slice()
    }
}

/// A suggestion with what is known of its action, where that is live.
fn ranked(sets: &Sets, handles: &Handles, bound: Bound) -> Option<Ranked>
    requires source { is_source bound ≡ true }
    ensures ranked { unwrap_or (option_map (λ r. r ∷ []) result) [] ≡ ranked sets.now handles.now bound }
    ensures placed { IfSome result IsPlaced }
{
    let action = sets.action_at(bound.action)?;
    let place = handles.place_among(Kind::Action, bound.action).unwrap_or(0);
    Some(Ranked {
        bound,
        place: place as u8,
        set: action.set(),
        priority: sets.priority(action.set()).unwrap_or(0),
        kind: action.kind(),
        declared: action.declared(),
    })
}

/// Ranks a suggestion behind the others, where it is at this user path and its action is live.
fn rank_one(ranking: &mut Ranking, sets: &Sets, handles: &Handles, bound: Bound, user: User)
    requires room { length ranking.old < 2560 }
    requires source { is_source bound ≡ true }
    ensures list { ranking.new ≡ ranking.old ++ ranked_at sets.now handles.now user (bound ∷ []) }
    ensures few { length ranking.new ≤ length ranking.old + 1 }
{
    if user_place(bound.pick.user) != user_place(user) {
        return;
    }
    if let Some(ranked) = ranked(sets, handles, bound) {
        ranking.push(ranked);
    }
}

/// Ranks the suggestions for a profile at a user path, behind the others and in their order.
fn rank_each(ranking: &mut Ranking, sets: &Sets, handles: &Handles, list: &[Bound], user: User)
    requires room { length ranking.old + length list.now ≤ 2560 }
    requires sources { list_all is_source list.now ≡ true }
    ensures list { ranking.new ≡ ranking.old ++ ranked_at sets.now handles.now user list.now }
    ensures few { length ranking.new ≤ length ranking.old + length list.now }
{
    for bound in list {
        rank_one(ranking, sets, handles, *bound, user);
    }
}

/// Ranks the suggestions at a user path for the controller that is connected there, behind the others.
fn rank_at(
    ranking: &mut Ranking,
    sets: &Sets,
    handles: &Handles,
    bindings: &Bindings,
    user: User,
    profile: Option<Profile>,
)
    requires room { length ranking.old + 512 ≤ 2560 }
    ensures list { ranking.new ≡ ranking.old ++ flat_map (ranked sets.now handles.now) (suggested_at bindings.now user profile) }
    ensures few { length ranking.new ≤ length ranking.old + 512 }
{
    if let Some(profile) = profile {
        rank_each(ranking, sets, handles, bindings.of_profile(profile), user);
    }
}

/// Ranks the bindings of a sync, told what is connected at each user path: in the order of the user paths and then of the
/// suggestions.
pub(crate) fn rank_all(
    ranking: &mut Ranking,
    sets: &Sets,
    handles: &Handles,
    bindings: &Bindings,
    profiles: &[Option<Profile>; USERS],
)
    ensures { ranking.new ≡ flat_map (ranked_for sets.now handles.now bindings.now profiles.now) all_users }
{
    ranking.clear();
    for user in User::all() {
        rank_at(
            ranking,
            sets,
            handles,
            bindings,
            *user,
            profiles[user_place(*user)],
        );
    }
}
