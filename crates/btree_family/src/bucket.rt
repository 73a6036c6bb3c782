//! What stands in a bucket.

ghost use Rattle.std.specs.Prelude.{◌≡◌};
ghost use Rattle.btree_family.specs.Buckets.{IsBucket};

use crate::key::Key;
use std::alloc::AllocError;
use std::marker::Model;
use zb_ids::{ListOf, Oid, Text8};

/// A key, with its value where it stands in a bucket. A member of a set has none. A value is the spelling
/// of a node, as [`spelling`](pickle_writing::spelling) gives it, so two values are the same where their bytes
/// are.
#[derive(Debug, Drop)]
pub struct Item {
    pub key: Key,
    pub value: Option<Text8>,
}

impl Clone for Item {
    ghost use Rattle.std.specs.Prelude.{◌≡◌};

    ghost is_clone = { λ item copy. copy ≡ item };

    fn clone(&self) -> Result<Item, AllocError> {
        let key = self.key.clone()?;
        let value = match &self.value {
            Some(text) => Some(text.clone()?),
            None => None,
        };
        Ok(Item { key, value })
    }
}

/// Items whose keys rise strictly by [`key_order`](crate::key_order), and the bucket that follows, if one
/// does. Each value that stands is the spelling of a node.
#[derive(Drop)]
pub struct Bucket {
    items: ListOf<Item>,
    next: Option<Oid>,
}

impl Model for Bucket {
    ghost use Rattle.btree_family.specs.Buckets.{BucketContents, IsBucket};

    ghost Value = { BucketContents };

    ghost view = { λ bucket. record { items = bucket.items; next = bucket.next } };

    ghost invariant = { λ bucket. IsBucket bucket.items };
}

impl Bucket {
    /// The bucket of these items, with this link.
    pub fn new(items: ListOf<Item>, next: Option<Oid>) -> Bucket
        requires bucket { IsBucket items }
        ensures items { result.items ≡ items }
        ensures next { result.next ≡ next }
    {
        Bucket { items, next }
    }

    /// The items, in the order of their keys.
    pub fn items(&self) -> &ListOf<Item>
        ensures items { result.now ≡ self.now.items }
        ensures bucket { IsBucket self.now.items }
    {
        &self.items
    }

    /// The object of the bucket that follows.
    pub fn next(&self) -> Option<Oid>
        ensures { result ≡ self.now.next }
    {
        self.next
    }
}
