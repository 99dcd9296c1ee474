// The row of places: where a swapchain stands in it, and what changes in a place.
ghost use Rattle.std.specs.Prelude.{◌≡◌, ◌≤◌, ◌<◌, ◌==◌, [], ◌∷◌, length, IfSome, None, Some, option_map, if◌then◌else◌};
ghost use Rattle.std.specs.List.{position_from};
ghost use Rattle.xr_model.specs.machine.CellCalls.{MayCall, Leads, free_calls};
ghost use Rattle.xr_model.specs.machine.Chains.{is_chain, chain_at, with_chain, with_chain_at, is_wait_wrong, is_paint_wrong, oldest_index, waiting, releasing, info_of};
ghost use Rattle.xr_chains.specs.ChainsLeft.{left_where, freed_where};

use crate::chain::Chain;
use crate::standing::Standing;
use xr_model::Cells;
use xr_types::{ChainInfo, Image};

/// The first free place.
pub(crate) fn free_place(places: &[Chain]) -> Option<usize>
    ensures place { result ≡ position_from (λ c. c.handle == 0) 0 places.now }
    ensures within { IfSome result (λ k. k < length places.now) }
{
    places.iter().position(|chain| chain.is_free())
}

/// Where the swapchain with a handle stands.
pub(crate) fn place_of(places: &[Chain], handle: u64) -> Option<usize>
    ensures place { result ≡ position_from (is_chain handle) 0 places.now }
    ensures within { IfSome result (λ k. k < length places.now) }
{
    places.iter().position(|chain| chain.is_chain(handle))
}

/// Puts a swapchain into the first free place, which is this one.
#[tactic(auto, using(crate::proofs::ChainPlaces::put_first))]
pub(crate) fn put(places: &mut [Chain], place: usize, chain: Chain)
    requires found { position_from (λ c. c.handle == 0) 0 places.old ≡ Some place }
    requires within { place < length places.old }
    ensures { places.new ≡ with_chain places.old chain }
{
    places[place] = chain;
}

/// The image of the swapchain in a place that may be waited for.
#[tactic(auto, using(crate::proofs::ChainPlaces::found_at))]
pub(crate) fn front_at(places: &[Chain], handle: u64, place: usize) -> Option<Image>
    requires found { position_from (is_chain handle) 0 places.now ≡ Some place }
    requires within { place < length places.now }
    requires few { length places.now ≤ 256 }
    ensures { result ≡ (if is_wait_wrong (chain_at places.now handle) then None else Some (record { place = place; index = oldest_index (chain_at places.now handle) })) }
{
    places[place].front(place as u8)
}

/// The image of the swapchain in a place was waited for.
pub(crate) fn wait_at(places: &mut [Chain], handle: u64, place: usize)
    requires found { position_from (is_chain handle) 0 places.old ≡ Some place }
    requires within { place < length places.old }
    ensures { places.new ≡ with_chain_at handle waiting places.old }
{
    places[place].wait();
}

/// The image of the swapchain in a place that was waited for.
#[tactic(auto, using(crate::proofs::ChainPlaces::found_at))]
pub(crate) fn held_at(places: &[Chain], handle: u64, place: usize) -> Option<Image>
    requires found { position_from (is_chain handle) 0 places.now ≡ Some place }
    requires within { place < length places.now }
    requires few { length places.now ≤ 256 }
    ensures { result ≡ (if is_paint_wrong (chain_at places.now handle) then None else Some (record { place = place; index = oldest_index (chain_at places.now handle) })) }
{
    places[place].held(place as u8)
}

/// The image of the swapchain in a place is released.
pub(crate) fn release_at(places: &mut [Chain], handle: u64, place: usize)
    requires found { position_from (is_chain handle) 0 places.old ≡ Some place }
    requires within { place < length places.old }
    ensures { places.new ≡ with_chain_at handle releasing places.old }
{
    places[place].release();
}

/// What a frame is told of the swapchain in a place.
#[tactic(auto, using(crate::proofs::ChainPlaces::found_at))]
pub(crate) fn info_at(places: &[Chain], handle: u64, place: usize) -> ChainInfo
    requires found { position_from (is_chain handle) 0 places.now ≡ Some place }
    requires within { place < length places.now }
    requires few { length places.now ≤ 256 }
    ensures { Some result ≡ option_map (info_of place) (chain_at places.now handle) }
{
    places[place].info(place as u8)
}

/// The application has the images that it waited for no longer, of the swapchains that aren't live, in the order of places.
pub(crate) fn free_each<C: Cells, S: Standing>(places: &[Chain], cells: &mut C, standing: &S)
    requires few { length places.now ≤ 256 }
    requires may { MayCall C.may C.does cells.old (free_calls (freed_where (S.is_live standing.now) 0 places.now)) }
    ensures { Leads C.does cells.old (free_calls (freed_where (S.is_live standing.now) 0 places.now)) cells.new }
{
    let count = places.len();
    for place in 0..count {
        if let Some(image) = places[place].freed(place as u8, standing) {
            cells.free(image);
        }
    }
}

/// Swapchains that aren't live go: their places are kept where frames use them, and are free where they don't.
pub(crate) fn sweep_each<S: Standing>(places: &mut [Chain], standing: &S)
    requires { length places.old ≤ 256 }
    ensures { places.new ≡ left_where (S.is_live standing.now) (S.is_used standing.now) 0 places.old }
{
    let count = places.len();
    for place in 0..count {
        places[place].sweep(place as u8, standing);
    }
}
