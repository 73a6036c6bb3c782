//! Reading the states of buckets and sets.

ghost use Rattle.std.specs.Prelude.{◌≡◌, Some, None, slice_get, IfOk};
ghost use Rattle.std.specs.Option.{option_copied};
ghost use Rattle.btree_family.specs.Buckets.{IsBucket, keys_of};
ghost use Rattle.btree_family.specs.Classes.{class_seen};
ghost use Rattle.bucket_state.specs.Writable.{AreWritable};
ghost use Rattle.bucket_state.specs.Answers.{AnswersFound};
ghost use Rattle.bucket_state.specs.States.{members_at, with_next, state_items, bucket_in, bucket_at, bucket_of};

use crate::error::StateError;
use crate::items::read_items;
use crate::links::{link, tuple};
use btree_family::{Bucket, ClassRow, Item};
use pickle_graph::Pickle;
use std::alloc::Global;
use zb_ids::{ListOf, Oid};

/// The items that the tuple of a number holds, as a bucket with a link.
fn read_contents(
    alloc: Global,
    pickle: &Pickle,
    row: &ClassRow,
    number: u32,
    next: Option<Oid>,
) -> Result<Bucket, StateError>
    ensures bucket { AnswersFound result (with_next next (state_items (class_seen row.now) pickle.now.nodes number)) }
    ensures writable { IfOk result (λ bucket. AreWritable (keys_of bucket.items)) }
{
    let Some(members) = tuple(pickle.nodes().as_slice(), number) else {
        return Err(StateError::BadState);
    };
    let items = read_items(alloc, pickle, row, members)?;
    Ok(Bucket::new(items, next))
}

/// The bucket that the members of a tuple are.
pub(crate) fn read_members(
    alloc: Global,
    pickle: &Pickle,
    row: &ClassRow,
    members: &[u32],
) -> Result<Bucket, StateError>
    ensures bucket { AnswersFound result (bucket_in (class_seen row.now) pickle.now.nodes members.now) }
    ensures writable { IfOk result (λ bucket. AreWritable (keys_of bucket.items)) }
{
    match members {
        [items] => read_contents(alloc, pickle, row, *items, None),
        [items, next] => {
            let Some(oid) = link(pickle.nodes().as_slice(), *next) else {
                return Err(StateError::BadState);
            };
            read_contents(alloc, pickle, row, *items, Some(oid))
        }
        _ => Err(StateError::BadState),
    }
}

/// The bucket or set whose state a graph is. Its class is that of the row; of a tree's row, it is the leaf
/// of such a tree.
///
/// A state is a tuple: its first item is a tuple of keys, each with its value behind it where the class has
/// values, and its second one, if it stands, a reference with the oid of the bucket that follows. The keys are
/// of the family and of one kind, and rise strictly; a value is of the family and can be written, and is kept
/// as its spelling. `BadState` is answered exactly where the graph is no such state. Want of memory answers
/// `Memory`.
pub fn read_bucket(alloc: Global, state: &Pickle, row: &ClassRow) -> Result<Bucket, StateError>
    ensures bucket { AnswersFound result (bucket_of (class_seen row.now) state.now) }
    ensures writable { IfOk result (λ bucket. AreWritable (keys_of bucket.items)) }
{
    let Some(members) = tuple(state.nodes().as_slice(), state.root()) else {
        return Err(StateError::BadState);
    };
    read_members(alloc, state, row, members)
}
