//! Binary search in places that rise.

ghost use Rattle.std.specs.Prelude.{◌≡◌, ◌==◌, ◌≤◌, length, take, filter};
ghost use Rattle.std.specs.List.{last_or, list_any};
ghost use Rattle.fs_index.specs.Places.{is_place_below, last_below, IsRising};
ghost use Rattle.fs_index.specs.Found.{first_from};

use crate::Place;
use zb_ids::Tid;

/// The last of these places, or `None` where there are none. It takes no memory.
#[tactic(auto, using(zb_base::specs::Lists::last_or_get))]
pub fn last_of(places: &[Place]) -> Option<Place>
    ensures { result ≡ last_or None places.now }
{
    places.last().copied()
}

/// How many of these places have a serial below the front. They are the first ones, so that many
/// are left when what stands behind them is sliced off. It takes no memory.
pub fn count_below(places: &[Place], front: Tid) -> usize
    requires { IsRising places.now }
    ensures within { result ≤ length places.now }
    ensures first { take result places.now ≡ filter (is_place_below front) places.now }
{
    places.partition_point(|p| p.serial < front)
}

/// The last place with a serial below the front, or `None` where there is none. It takes no memory.
pub fn last_before(places: &[Place], front: Tid) -> Option<Place>
    requires { IsRising places.now }
    ensures { result ≡ last_below front places.now }
{
    let n = count_below(places, front);
    if n == 0 {
        return None;
    }
    Some(places[n - 1])
}

/// The first place whose serial isn't below the front, or `None` where there is none. It takes no
/// memory.
pub fn first_from(places: &[Place], front: Tid) -> Option<Place>
    requires { IsRising places.now }
    ensures { result ≡ first_from front places.now }
{
    let behind = count_below(places, front);
    places.get(behind).copied()
}

/// Whether one of the places is `at`. It takes no memory.
pub fn any_at(places: &[Place], at: u64) -> bool
    requires { IsRising places.now }
    ensures { result ≡ list_any (λ p. p.at == at) places.now }
{
    let n = places.partition_point(|p| p.at < at);
    n < places.len() && places[n].at == at
}
