//! The merge.

ghost use Rattle.std.specs.Prelude.{◌≡◌, ◌++◌, Some, IfOk};
ghost use Rattle.std.specs.Option.{option_copied};
ghost use Rattle.btree_family.specs.Rising.{Rises};
ghost use Rattle.btree_family.specs.Buckets.{keys_of};
ghost use Rattle.bucket_merge.specs.Merge.{first_key_left, same_links, merge_of};
ghost use Rattle.bucket_merge.specs.Answers.{AnswersFor};
ghost use Rattle.bucket_merge.specs.Walk.{as_list, walked};

use crate::refusal::MergeRefusal;
use crate::walk::{is_changed_by_both, kept, least, least_of_all, split_at, stands_below};
use btree_family::{Bucket, Item, Key};
use std::alloc::{AllocError, Global};
use zb_ids::{ListOf, Oid};

/// The items, and a copy of one more behind them, if there is one.
fn with_kept(mut items: ListOf<Item>, item: Option<&Item>) -> Result<ListOf<Item>, AllocError>
    ensures { IfOk result (λ all. all ≡ items ++ as_list (option_copied item.entry)) }
{
    match item {
        None => Ok(items),
        Some(item) => {
            items.push(item.clone()?)?;
            Ok(items)
        }
    }
}

/// The merged items, or the least key that both sides changed. Each item is met once.
#[tactic(auto, using(crate::proofs::Walks::walked_start, crate::proofs::Walks::walked_end, crate::proofs::Walks::least_shrinks))]
fn merge_items(
    alloc: Global,
    old: &[Item],
    committed: &[Item],
    stored: &[Item],
) -> Result<ListOf<Item>, MergeRefusal>
    requires old { Rises None (keys_of old.now) }
    requires committed { Rises None (keys_of committed.now) }
    requires stored { Rises None (keys_of stored.now) }
    ensures { AnswersFor result (walked old.now committed.now stored.now) }
{
    let mut a = old;
    let mut b = committed;
    let mut c = stored;
    let mut merged = ListOf::new(alloc);
    'keys: while let Some(key) = least_of_all(a, b, c) {
        let (was, a_rest) = split_at(a, key);
        let (mine, b_rest) = split_at(b, key);
        let (theirs, c_rest) = split_at(c, key);
        if is_changed_by_both(was, mine, theirs) {
            return Err(MergeRefusal::Key(key.clone()?));
        }
        merged = with_kept(merged, kept(was, mine, theirs))?;
        a = a_rest;
        b = b_rest;
        c = c_rest;
    }
    Ok(merged)
}

/// Whether the first key of old is below all keys of one of the sides.
fn is_first_key_left(old: &[Item], committed: &[Item], stored: &[Item]) -> bool
    ensures { result ≡ first_key_left old.now committed.now stored.now }
{
    let first = least(old);
    stands_below(first, least(committed)) || stands_below(first, least(stored))
}

/// Whether the three are followed by the same bucket, or all by none.
fn are_linked_alike(old: &Bucket, committed: &Bucket, stored: &Bucket) -> bool
    ensures { result ≡ same_links old.now committed.now stored.now }
{
    committed.next() == old.next() && stored.next() == old.next()
}

/// The bucket in which the changes of two transactions stand together: `old` is what both began with, `committed`
/// what the first one left, and `stored` what the second one wants to leave. It takes time in proportion to the
/// items of all three.
///
/// Each key has the stored value where that differs from the old one, absence being a value of its own, and the
/// committed one elsewhere; values are the same where their spellings are. The link is the committed one. The first
/// of these refuses: `Link`, where the three are not followed by the same bucket; `EmptySide`, where committed or
/// stored is empty; `Key`, with the least key at which both differ from old, also where they differ alike;
/// `FirstKey`, where old has a key below all of committed or below all of stored. Want of memory answers `Memory`.
pub fn merge(
    alloc: Global,
    old: &Bucket,
    committed: &Bucket,
    stored: &Bucket,
) -> Result<Bucket, MergeRefusal>
    ensures { AnswersFor result (merge_of old.now committed.now stored.now) }
{
    if !are_linked_alike(old, committed, stored) {
        return Err(MergeRefusal::Link);
    }
    let a = old.items().as_slice();
    let b = committed.items().as_slice();
    let c = stored.items().as_slice();
    if b.is_empty() || c.is_empty() {
        return Err(MergeRefusal::EmptySide);
    }
    let items = merge_items(alloc, a, b, c)?;
    if is_first_key_left(a, b, c) {
        return Err(MergeRefusal::FirstKey);
    }
    Ok(Bucket::new(items, committed.next()))
}
