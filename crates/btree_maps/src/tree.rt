//! Trees.

ghost use Rattle.std.specs.Prelude.{◌≡◌, ◌≤◌, ℕ, suc, ◌++◌, true, List, Ok, IfOk};
ghost use Rattle.btree_family.specs.declared.bucket.Item.{Item};
ghost use Rattle.btree_family.specs.Keys.{rank_of};
ghost use Rattle.btree_maps.specs.declared.span.Span.TheVariants.{Within};
ghost use Rattle.btree_shapes.specs.Spaces.{handed_on};
ghost use Rattle.btree_shapes.specs.Nodes.{class_held, objects_of, items_in, value_in};
ghost use Rattle.btree_shapes.specs.Met.{ReadsFirst, met_for};
ghost use Rattle.btree_shapes.specs.Ways.{Answers, TookReads, family_key, key_way, value_under, reads_of};
ghost use Rattle.btree_maps.specs.Visits.{items_met, items_under, items_within, range_met, range_under};
ghost use Rattle.btree_maps.specs.Drawn.{DrawsNew};
ghost use Rattle.btree_maps.specs.Settings.{SetsIn};
ghost use Rattle.btree_maps.specs.Removals.{RemovesIn};
ghost use Rattle.btree_shapes.specs.Shapes.{Shape, IsSound, IsTree, nodes_in};
ghost use Rattle.btree_setting.specs.Ends.{Sets, SetsWithin};
ghost use Rattle.btree_removing.specs.Ends.{Removes};

use crate::span::Span;
use crate::walk::walk_all;
use btree_family::{Item, Key, key_fits};
use btree_removing::remove;
use btree_setting::{SetEnd, Sizes, set, set_within};
use btree_shapes::{Node, Space, TreeError, find, read_root, value_in};
use std::alloc::{AllocError, Global};
use zb_ids::{ListOf, Oid, Text8};

/// A tree of the BTrees package, by its root: a BTree or a TreeSet, or a bucket or a set that stands alone. A leaf
/// has at most LEAF items, and an object with others below it at most INNER of these, where the tree splits them
/// itself; LEAF is 2 or more, and INNER 3 or more.
///
/// Calls go by these ways on every tree, sound or not: from each object to the last child whose separator isn't
/// above the key, or else to the first child. At each object the first of these refusals decides: `NodeMissing`,
/// where the space has no content for it; `NotATree`, where it has no state of its kind, or stands twice on one way
/// down; `BadKey`, where the key isn't of the family, or not of the kind of the object's keys.
#[derive(Clone, Copy, Debug, PartialEq, Eq)]
pub struct Tree<const LEAF: usize, const INNER: usize> {
    /// The root's number.
    pub root: Oid,
}

/// The value that a node has under a key.
fn value_of(alloc: Global, node: &Node, key: &Key) -> Result<Option<Text8>, AllocError>
    ensures { IfOk result (λ value. value ≡ value_in (items_in node.now) key.now) }
{
    match node {
        Node::Lone(bucket) => value_in(alloc, bucket.items().as_slice(), key),
        Node::Leaf(bucket) => value_in(alloc, bucket.items().as_slice(), key),
        Node::Inner(_) => Ok(None),
    }
}

impl<const LEAF: usize, const INNER: usize> Tree<LEAF, INNER> {
    /// What stands under a key, by its way.
    #[tactic(auto, using(crate::proofs::Values::value_of_way, crate::proofs::Values::refusal_of_way, crate::proofs::Values::reads_found))]
    fn look_up<S: Space>(
        &self,
        alloc: Global,
        space: &mut S,
        key: &Key,
    ) -> Result<Option<Text8>, TreeError>
        ensures answer { Answers result (value_under (S.contents space.old) self.now.root key.now) }
        ensures log { IfOk result (λ value. S.told
            → S.log space.new ≡ S.log space.old ++ reads_of (key_way (S.contents space.old) self.now.root key.now)) }
        ensures met { S.told → ReadsFirst (met_for (S.contents space.old) self.now.root key.now) (S.log space.old)
            (S.log space.new) }
        ensures contents { S.contents space.new ≡ S.contents space.old }
        ensures refusals { S.told → S.refusals space.new ≡ S.refusals space.old ++ handed_on result }
    {
        let found = find(alloc, space, self.root, key)?;
        let value = value_of(alloc, &found.node, key)?;
        Ok(value)
    }

    /// What stands under a key: the spelling of its value, in a set that of True. It is `None` where the key is
    /// absent.
    ///
    /// The objects on the way are each read once, from the root on.
    #[tactic(auto, using(crate::proofs::Looking::gets_in_tree))]
    pub fn get<S: Space>(
        &self,
        alloc: Global,
        space: &mut S,
        key: &Key,
    ) -> Result<Option<Text8>, TreeError>
        ensures answer { Answers result (value_under (S.contents space.old) self.now.root key.now) }
        ensures sound { (kind : ℕ) (mapping : List Item)
            → IsTree (objects_of (S.contents space.old) self.now.root) self.now.root kind mapping
            → rank_of key.now ≡ kind → family_key (class_held (S.contents space.old self.now.root)) key.now ≡ true
            → Answers result (Ok (value_in mapping key.now)) }
        ensures log { IfOk result (λ value. S.told
            → S.log space.new ≡ S.log space.old ++ reads_of (key_way (S.contents space.old) self.now.root key.now)) }
        ensures cost { (kind h : ℕ) (s : Shape h)
            → IsSound (nodes_in (objects_of (S.contents space.old) self.now.root)) self.now.root kind h s
            → rank_of key.now ≡ kind → family_key (class_held (S.contents space.old self.now.root)) key.now ≡ true
            → S.told → IfOk result (λ value. TookReads (suc h) (S.log space.old) (S.log space.new)) }
        ensures met { S.told → ReadsFirst (met_for (S.contents space.old) self.now.root key.now) (S.log space.old)
            (S.log space.new) }
        ensures contents { S.contents space.new ≡ S.contents space.old }
        ensures refusals { S.told → S.refusals space.new ≡ S.refusals space.old ++ handed_on result }
    {
        self.look_up(alloc, space, key)
    }

    /// Sets what stands under a key: the spelling of its value, or `None` in a set. Where the key has that very
    /// spelling already, nothing is drawn or put.
    ///
    /// The objects on the way are each read once, from the root on; then, from the root down, the children besides
    /// the way of which a split needs the first leaves. An object on the way, or such a child, is refused as the
    /// type says; `BadKey` also where the value is not of the family. Then all records that are to be put are tried,
    /// with 0 for each number that is to be drawn: `BadKey` where one can't be written or doesn't read back. Then a
    /// number is drawn for each new object: for leaves first, and then for each level above. Last the objects that
    /// change are put, in rising order of their numbers, of several with one number the new ones first.
    ///
    /// A leaf with more than LEAF items is split: the first half, rounded down, stays, the others go into a new leaf,
    /// which takes over the link to the next one, and the first key of the new leaf goes into the object above as
    /// the separator before it. A leaf that is no object of its own is split into two new leaves. An object with
    /// more than INNER children is split in the same way, and the separator between its halves moves up; a root
    /// keeps two new objects with its halves. A bucket or a set that stands alone is never split.
    ///
    /// Refusals of the space, and want of memory, may come at each of its calls. What was put before is then the
    /// first of the puts.
    ///
    /// In a sound tree no object is missing or none of the tree. Where the numbers that are drawn differ from each other
    /// and are of no object of the tree, it is sound afterwards too, and what stands under the other keys stays.
    pub fn set<S: Space>(
        &self,
        alloc: Global,
        space: &mut S,
        key: Key,
        value: Option<Text8>,
    ) -> Result<(), TreeError>
        ensures ways { Sets S.told (S.contents space.old) (S.contents space.new) (S.log space.old) (S.log space.new)
            self.now.root (record { leaf = LEAF; inner = INNER }) key value result }
        ensures sound { (kind : ℕ) (mapping : List Item) → 2 ≤ LEAF → 3 ≤ INNER
            → IsTree (objects_of (S.contents space.old) self.now.root) self.now.root kind mapping
            → rank_of key ≡ kind → S.told
            → DrawsNew (objects_of (S.contents space.old) self.now.root) self.now.root (S.log space.old) (S.log space.new)
            → SetsIn (S.contents space.old) (S.contents space.new) self.now.root kind mapping key value result }
        ensures refusals { S.told → S.refusals space.new ≡ S.refusals space.old ++ handed_on result }
    {
        let sizes = Sizes {
            leaf: LEAF,
            inner: INNER,
        };
        set(alloc, space, self.root, sizes, key, value)
    }

    /// Sets what stands under a key as [`set`](Self::set) does, where the space can give so many numbers for new objects. Where
    /// more are needed, it says so once all was read and each record tried, and nothing is drawn or put. `numbers` are those that
    /// the space gives next, as far as they are known: they spare a second trial, and change no answer. Where it gives others, the
    /// set ends as for want of memory.
    pub fn set_within<S: Space>(
        &self,
        alloc: Global,
        space: &mut S,
        key: Key,
        value: Option<Text8>,
        supply: usize,
        numbers: &[Oid],
    ) -> Result<SetEnd, TreeError>
        ensures ways { SetsWithin S.told (S.contents space.old) (S.contents space.new) (S.log space.old)
            (S.log space.new) self.now.root (record { leaf = LEAF; inner = INNER }) key value supply result }
        ensures refusals { S.told → S.refusals space.new ≡ S.refusals space.old ++ handed_on result }
    {
        let sizes = Sizes {
            leaf: LEAF,
            inner: INNER,
        };
        set_within(alloc, space, self.root, sizes, key, value, supply, numbers)
    }

    /// Removes a key, and answers whether it was there. Where it is absent, nothing is put.
    ///
    /// The objects on the way are each read once, from the root on. A leaf that still has items is put alone. One that
    /// has none left leaves its tree: then the objects from the nearest child to the left of the way down to the last
    /// leaf below it are read, and after these the second child of the object that loses its first one, where the
    /// children are no leaves. An object on the way, or besides it, is refused as the type says. Then all records
    /// that are to be put are tried: `BadKey` where one can't be written or doesn't read back. Last the objects that
    /// change are put, in rising order of their numbers.
    ///
    /// A leaf that leaves its tree goes with the separator before it, or, where it is the first child, with the one
    /// after it. An object left without children goes in the same way, and the root is left as a tree without items.
    /// The leaf before takes over the link to the next one, and each object that began with the leaf that left names
    /// the leaf that is its first one now. What left is put too, without items or children, so that a client that
    /// changed it meanwhile is told. Nothing else is joined, and all other separators stay. A bucket or a set that
    /// stands alone stays one without items.
    ///
    /// On a damaged tree the same is done, as far as it goes: only objects whose states change are put; a leaf that
    /// is no object of its own has no link that another could take over, and can take over none.
    ///
    /// Refusals of the space, and want of memory, may come at each of its calls. What was put before is then the
    /// first of the puts.
    ///
    /// In a sound tree no object is missing or none of the tree. It is sound afterwards too, nothing stands under the
    /// key, and what stands under the other keys stays.
    pub fn remove<S: Space>(
        &self,
        alloc: Global,
        space: &mut S,
        key: &Key,
    ) -> Result<bool, TreeError>
        ensures ways { Removes S.told (S.contents space.old) (S.contents space.new) (S.log space.old) (S.log space.new)
            self.now.root key.now result }
        ensures sound { (kind : ℕ) (mapping : List Item)
            → IsTree (objects_of (S.contents space.old) self.now.root) self.now.root kind mapping
            → RemovesIn (S.contents space.old) (S.contents space.new) self.now.root kind mapping key.now result }
        ensures refusals { S.told → S.refusals space.new ≡ S.refusals space.old ++ handed_on result }
    {
        remove(alloc, space, self.root, key)
    }

    /// All items, by a walk.
    #[tactic(auto, using(crate::proofs::Calls::items_unread))]
    fn all_items<S: Space>(&self, alloc: Global, space: &mut S) -> Result<ListOf<Item>, TreeError>
        ensures answer { Answers result (items_under (S.contents space.old) self.now.root) }
        ensures contents { S.contents space.new ≡ S.contents space.old }
        ensures met { S.told → ReadsFirst (items_met (S.contents space.old) self.now.root) (S.log space.old)
            (S.log space.new) }
        ensures refusals { S.told → S.refusals space.new ≡ S.refusals space.old ++ handed_on result }
    {
        let (tree, entry) = read_root(alloc, space, self.root)?;
        walk_all(alloc, space, &tree, true, &Span::All, entry)
    }

    /// The items from one key to another, by a walk.
    #[tactic(auto, using(crate::proofs::Calls::range_unread, crate::proofs::Calls::range_walk, btree_shapes::specs::MetLaws::first_start))]
    fn items_between<S: Space>(
        &self,
        alloc: Global,
        space: &mut S,
        from: &Key,
        to: &Key,
    ) -> Result<ListOf<Item>, TreeError>
        ensures answer { Answers result (range_under (S.contents space.old) self.now.root from.now to.now) }
        ensures contents { S.contents space.new ≡ S.contents space.old }
        ensures met { S.told → ReadsFirst (range_met (S.contents space.old) self.now.root from.now to.now)
            (S.log space.old) (S.log space.new) }
        ensures refusals { S.told → S.refusals space.new ≡ S.refusals space.old ++ handed_on result }
    {
        let low = from.clone()?;
        let high = to.clone()?;
        let (tree, entry) = read_root(alloc, space, self.root)?;
        let fits = key_fits(tree.row.key, from) && key_fits(tree.row.key, to);
        walk_all(
            alloc,
            space,
            &tree,
            fits,
            &Span::Within { low, high },
            entry,
        )
    }

    /// All items, in the order of their keys where the tree is sound.
    #[tactic(auto, using(crate::proofs::Visiting::items_of_tree))]
    pub fn items<S: Space>(&self, alloc: Global, space: &mut S) -> Result<ListOf<Item>, TreeError>
        ensures answer { Answers result (items_under (S.contents space.old) self.now.root) }
        ensures sound { (kind : ℕ) (mapping : List Item)
            → IsTree (objects_of (S.contents space.old) self.now.root) self.now.root kind mapping
            → Answers result (Ok mapping) }
        ensures contents { S.contents space.new ≡ S.contents space.old }
        ensures met { S.told → ReadsFirst (items_met (S.contents space.old) self.now.root) (S.log space.old)
            (S.log space.new) }
        ensures refusals { S.told → S.refusals space.new ≡ S.refusals space.old ++ handed_on result }
    {
        self.all_items(alloc, space)
    }

    /// The items from one key to another, both included.
    #[tactic(auto, using(crate::proofs::Visiting::range_of_tree))]
    pub fn range<S: Space>(
        &self,
        alloc: Global,
        space: &mut S,
        from: &Key,
        to: &Key,
    ) -> Result<ListOf<Item>, TreeError>
        ensures answer { Answers result (range_under (S.contents space.old) self.now.root from.now to.now) }
        ensures sound { (kind : ℕ) (mapping : List Item)
            → IsTree (objects_of (S.contents space.old) self.now.root) self.now.root kind mapping
            → rank_of from.now ≡ kind → rank_of to.now ≡ kind
            → family_key (class_held (S.contents space.old self.now.root)) from.now ≡ true
            → family_key (class_held (S.contents space.old self.now.root)) to.now ≡ true
            → Answers result (Ok (items_within (Within from.now to.now) mapping)) }
        ensures contents { S.contents space.new ≡ S.contents space.old }
        ensures met { S.told → ReadsFirst (range_met (S.contents space.old) self.now.root from.now to.now)
            (S.log space.old) (S.log space.new) }
        ensures refusals { S.told → S.refusals space.new ≡ S.refusals space.old ++ handed_on result }
    {
        self.items_between(alloc, space, from, to)
    }
}
