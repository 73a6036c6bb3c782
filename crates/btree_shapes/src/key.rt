//! Keys, and whether they are of a node's kind.

ghost use Rattle.std.specs.Prelude.{◌≡◌, ◌≤◌, None, length};
ghost use Rattle.btree_family.specs.Buckets.{keys_of};
ghost use Rattle.btree_family.specs.Keys;
ghost use Rattle.btree_family.specs.Rising.{Rises};
ghost use Rattle.bucket_state.specs.Trees.{separators_of};
ghost use Rattle.btree_shapes.specs.Keys.{is_kind_of};
ghost use Rattle.btree_shapes.specs.Nodes.{place_for};

use btree_family::{Item, Key, is_same_kind, key_order};
use bucket_state::Branch;
use std::cmp::Ordering;

/// Whether the first key is below the second.
pub fn is_below(a: &Key, b: &Key) -> bool
    ensures { result ≡ Keys.is_below a.now b.now }
{
    match key_order(a, b) {
        Ordering::Less => true,
        _ => false,
    }
}

/// Whether a key is of the kind of these items' keys, which are all of one kind.
pub fn suits_items(key: &Key, items: &[Item]) -> bool
    ensures { result ≡ is_kind_of (keys_of items.now) key.now }
{
    match items {
        [] => true,
        [first, ..] => is_same_kind(&first.key, key),
    }
}

/// Whether a key is of the kind of these separators, which are all of one kind.
pub fn suits_branches(key: &Key, branches: &[Branch]) -> bool
    ensures { result ≡ is_kind_of (separators_of branches.now) key.now }
{
    match branches {
        [] => true,
        [first, ..] => is_same_kind(&first.key, key),
    }
}

/// How many branches stand before the first whose separator is above a key.
pub fn place_for(branches: &[Branch], key: &Key) -> usize
    ensures is { result ≡ place_for branches.now key.now }
    ensures within { result ≤ length branches.now }
{
    for (place, branch) in branches.iter().enumerate() {
        if is_below(key, &branch.key) {
            return place;
        }
    }
    branches.len()
}

/// The same by halves, where the separators rise.
#[tactic(auto, using(crate::proofs::Halving::place_within, crate::proofs::Halving::place_before, crate::proofs::Halving::place_behind))]
pub(crate) fn place_by_halves(branches: &[Branch], key: &Key) -> usize
    requires rises { Rises None (separators_of branches.now) }
    ensures is { result ≡ place_for branches.now key.now }
    ensures within { result ≤ length branches.now }
{
    let mut low = 0;
    let mut high = branches.len();
    'halves: while low < high {
        let middle = low + (high - low) / 2;
        if is_below(key, &branches[middle].key) {
            high = middle;
        } else {
            low = middle + 1;
        }
    }
    low
}
