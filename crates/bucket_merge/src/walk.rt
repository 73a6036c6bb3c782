//! One step of a walk over items in the order of their keys.

ghost use Rattle.std.specs.Prelude.{◌≡◌};
ghost use Rattle.std.specs.Option.{option_copied};
ghost use Rattle.bucket_merge.specs.Maps.{differ, least_key};
ghost use Rattle.bucket_merge.specs.Merge.{both_changed, stands_below};
ghost use Rattle.bucket_merge.specs.Walk.{lesser_key, first_at, behind, value_in, kept_item};
ghost use Rattle.bucket_merge.specs.Merge;
ghost use Rattle.bucket_merge.specs.Walk;

use btree_family::{Item, Key, key_order};
use std::cmp::Ordering;

/// The first key, which is the least one.
pub(crate) fn least(items: &[Item]) -> Option<&Key>
    ensures { option_copied result ≡ least_key items.now }
{
    match items {
        [] => None,
        [first, ..] => Some(&first.key),
    }
}

/// The lesser of two keys.
fn lesser<'a>(one: Option<&'a Key>, other: Option<&'a Key>) -> Option<&'a Key>
    ensures { option_copied result ≡ lesser_key (option_copied one.entry) (option_copied other.entry) }
{
    match (one, other) {
        (None, other) => other,
        (one, None) => one,
        (Some(m), Some(n)) => match key_order(n, m) {
            Ordering::Less => Some(n),
            _ => Some(m),
        },
    }
}

/// The least key of three lists.
pub(crate) fn least_of_all<'a>(
    old: &'a [Item],
    committed: &'a [Item],
    stored: &'a [Item],
) -> Option<&'a Key>
    ensures { option_copied result ≡ Walk.least_of_all old.now committed.now stored.now }
{
    lesser(least(old), lesser(least(committed), least(stored)))
}

/// Whether both keys stand, and the first one is below the second.
pub(crate) fn stands_below(one: Option<&Key>, other: Option<&Key>) -> bool
    ensures { result ≡ Merge.stands_below (option_copied one.entry) (option_copied other.entry) }
{
    match (one, other) {
        (Some(m), Some(n)) => match key_order(m, n) {
            Ordering::Less => true,
            _ => false,
        },
        _ => false,
    }
}

/// The first item, where it has this key, and the items behind it; else all of them.
pub(crate) fn split_at<'a>(items: &'a [Item], key: &Key) -> (Option<&'a Item>, &'a [Item])
    ensures first { option_copied result.0 ≡ first_at items.now key.now }
    ensures rest { result.1.now ≡ behind items.now key.now }
{
    match items {
        [] => (None, items),
        [first, rest @ ..] => match key_order(&first.key, key) {
            Ordering::Equal => (Some(first), rest),
            _ => (None, items),
        },
    }
}

/// Whether what stands at a key is not what stood there.
fn is_changed(old: Option<&Item>, new: Option<&Item>) -> bool
    ensures { result ≡ differ (value_in (option_copied new.entry)) (value_in (option_copied old.entry)) }
{
    match (old, new) {
        (None, None) => false,
        (Some(old), Some(new)) => new.value != old.value,
        _ => true,
    }
}

/// Whether both sides changed what stood at a key.
pub(crate) fn is_changed_by_both(
    old: Option<&Item>,
    committed: Option<&Item>,
    stored: Option<&Item>,
) -> bool
    ensures { result ≡ both_changed
        (value_in (option_copied old.entry)) (value_in (option_copied committed.entry)) (value_in (option_copied stored.entry)) }
{
    is_changed(old, committed) && is_changed(old, stored)
}

/// What is kept at a key: the stored item where the stored side changed it, else the committed one.
pub(crate) fn kept<'a>(
    old: Option<&Item>,
    committed: Option<&'a Item>,
    stored: Option<&'a Item>,
) -> Option<&'a Item>
    ensures { option_copied result
        ≡ kept_item (option_copied old.entry) (option_copied committed.entry) (option_copied stored.entry) }
{
    if is_changed(old, stored) {
        stored
    } else {
        committed
    }
}
