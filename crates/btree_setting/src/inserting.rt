//! Items with one more key, and branches with one more child.

ghost use Rattle.std.specs.Prelude.{◌≡◌, ◌≤◌, None, length, IfOk};
ghost use Rattle.btree_family.specs.Buckets.{keys_of};
ghost use Rattle.btree_family.specs.Rising.{Rises};
ghost use Rattle.btree_putting.specs.Items.{has_key, has_value};
ghost use Rattle.btree_setting.specs.Inserting.{place_in, behind, set_item, insert_branch, standing};

use btree_family::{Item, Key};
use btree_putting::{has_key, has_value, with_branches, with_items};
use btree_shapes::{is_below, place_for};
use bucket_state::Branch;
use std::alloc::{AllocError, Global};
use zb_ids::{ListOf, Text8};

/// How many keys at the front are below this one, where they rise: the place is found by halves.
#[tactic(auto, using(crate::proofs::Halves::place_within))]
fn place_in(items: &[Item], key: &Key) -> usize
    requires rises { Rises None (keys_of items.now) }
    ensures is { result ≡ place_in items.now key.now }
    ensures within { result ≤ length items.now }
{
    let mut low = 0;
    let mut high = items.len();
    'halves: while low < high {
        let middle = low + (high - low) / 2;
        if is_below(&items[middle].key, key) {
            low = middle + 1;
        } else {
            high = middle;
        }
    }
    low
}

/// The item at the place of a key, if there is one.
fn standing<'a>(items: &'a [Item], key: &Key) -> &'a [Item]
    requires rises { Rises None (keys_of items.now) }
    ensures { result.now ≡ standing items.now key.now }
{
    let place = place_in(items, key);
    let (_, rest) = items.split_at(place);
    match rest {
        [] => rest,
        [_, ..] => &rest[..1],
    }
}

/// Whether a key stands in items with this value.
pub(crate) fn item_has(items: &[Item], key: &Key, value: &Option<Text8>) -> bool
    requires rises { Rises None (keys_of items.now) }
    ensures { result ≡ has_value items.now key.now value.now }
{
    has_value(standing(items, key), key, value)
}

/// Whether a key stands in items.
pub(crate) fn item_stands(items: &[Item], key: &Key) -> bool
    requires rises { Rises None (keys_of items.now) }
    ensures { result ≡ has_key items.now key.now }
{
    has_key(standing(items, key), key)
}

/// The items without the first, where that has this key.
fn behind<'a>(items: &'a [Item], key: &Key) -> &'a [Item]
    ensures { result.now ≡ behind items.now key.now }
{
    match items {
        [] => items,
        [first, rest @ ..] => { if first.key == *key { rest } else { items } }
    }
}

/// The items with this value at a key.
pub(crate) fn set_item(
    alloc: Global,
    items: &[Item],
    key: Key,
    value: Option<Text8>,
) -> Result<ListOf<Item>, AllocError>
    requires rises { Rises None (keys_of items.now) }
    ensures { IfOk result (λ all. all ≡ set_item items.now key value) }
{
    let place = place_in(items, &key);
    let (front, rest) = items.split_at(place);
    let rest = behind(rest, &key);
    let mut room = Vec::new(alloc);
    room.reserve(items.len().saturating_add(1))?;
    let mut all = with_items(ListOf::from_vec(room), front)?;
    all.push(Item { key, value })?;
    let whole = with_items(all, rest)?;
    Ok(whole)
}

/// Branches with one more before the first whose separator is above the key.
pub(crate) fn insert_branch(
    alloc: Global,
    branches: &[Branch],
    key: &Key,
    branch: Branch,
) -> Result<ListOf<Branch>, AllocError>
    ensures { IfOk result (λ all. all ≡ insert_branch branch key.now branches.now) }
{
    let place = place_for(branches, key);
    let (front, rest) = branches.split_at(place);
    let mut room = Vec::new(alloc);
    room.reserve(branches.len().saturating_add(1))?;
    let mut all = with_branches(ListOf::from_vec(room), front)?;
    all.push(branch)?;
    let whole = with_branches(all, rest)?;
    Ok(whole)
}
