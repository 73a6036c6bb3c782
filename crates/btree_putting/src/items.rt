//! Items and branches that are compared, and keys that are looked for among items.

ghost use Rattle.std.specs.Prelude.{◌≡◌};
ghost use Rattle.btree_putting.specs.Items.{has_key, has_value};
ghost use Rattle.btree_putting.specs.Items;

use btree_family::{Item, Key};
use bucket_state::Branch;
use zb_ids::Text8;

/// Whether two values are the same.
fn same_value(a: &Option<Text8>, b: &Option<Text8>) -> bool
    ensures { result ≡ Items.same_value a.now b.now }
{
    match a {
        None => b.is_none(),
        Some(one) => match b {
            None => false,
            Some(other) => one == other,
        },
    }
}

/// Whether two items are the same.
fn same_item(a: &Item, b: &Item) -> bool
    ensures { result ≡ Items.same_item a.now b.now }
{
    a.key == b.key && same_value(&a.value, &b.value)
}

/// Whether items are the same.
pub(crate) fn same_items(one: &[Item], other: &[Item]) -> bool
    ensures { result ≡ Items.same_items one.now other.now }
{
    let mut left = one;
    let mut right = other;
    'same: while let [a, left_rest @ ..] = left {
        let [b, right_rest @ ..] = right else {
            return false;
        };
        if !same_item(a, b) {
            return false;
        }
        left = left_rest;
        right = right_rest;
    }
    right.is_empty()
}

/// Whether two branches are the same.
fn same_branch(a: &Branch, b: &Branch) -> bool
    ensures { result ≡ Items.same_branch a.now b.now }
{
    a.key == b.key && a.child == b.child
}

/// Whether branches are the same.
pub(crate) fn same_branches(one: &[Branch], other: &[Branch]) -> bool
    ensures { result ≡ Items.same_branches one.now other.now }
{
    let mut left = one;
    let mut right = other;
    'same: while let [a, left_rest @ ..] = left {
        let [b, right_rest @ ..] = right else {
            return false;
        };
        if !same_branch(a, b) {
            return false;
        }
        left = left_rest;
        right = right_rest;
    }
    right.is_empty()
}

/// Whether a key stands in items with this value.
pub fn has_value(items: &[Item], key: &Key, value: &Option<Text8>) -> bool
    ensures { result ≡ has_value items.now key.now value.now }
{
    for item in items {
        if item.key == *key {
            return same_value(&item.value, value);
        }
    }
    false
}

/// Whether a key stands in items.
pub fn has_key(items: &[Item], key: &Key) -> bool
    ensures { result ≡ has_key items.now key.now }
{
    for item in items {
        if item.key == *key {
            return true;
        }
    }
    false
}
