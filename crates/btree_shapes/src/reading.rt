//! Reading the objects of a tree.

ghost use Rattle.std.specs.Prelude.{◌≡◌, ◌++◌, [], IfOk, IfErr, IfSome, Ok, Some, true};
ghost use Rattle.pickle_graph.specs.Graph.{IsGlobal};
ghost use Rattle.btree_family.specs.Classes.{class_seen};
ghost use Rattle.btree_shapes.specs.Spaces.{handed_on, out_of_memory, IsLogged};
ghost use Rattle.btree_shapes.specs.Nodes.{Holds, held_in, held_node, node_of, objects_of};
ghost use Rattle.btree_shapes.specs.Reading.{IsUnread, HoldsRecord, IsEntry, IsRooted, IsRoot};

use crate::class::class_of;
use crate::error::TreeError;
use crate::node::{Node, read_node};
use crate::shared::Shared;
use crate::space::{Recalled, Space, SpaceError};
use btree_family::ClassRow;
use bucket_state::StateError;
use pickle_graph::Pickle;
use std::alloc::{AllocError, Global};
use zb_ids::Oid;
use zb_record::ObjectRecord;

/// An object of a tree: its class and what it holds.
#[derive(Drop)]
pub struct Entry {
    pub class: Shared<Pickle>,
    pub node: Node,
}

impl Entry {
    /// The object, with one owner more of what it holds.
    pub fn again(&self) -> Result<Entry, AllocError>
        ensures { IfOk result (λ entry. entry ≡ self.now) }
    {
        let class = self.class.again()?;
        let node = self.node.again()?;
        Ok(Entry { class, node })
    }
}

/// The root of a tree, and its class of BTrees.
#[derive(Clone, Copy)]
pub struct Rooted {
    pub root: Oid,
    pub row: &'static ClassRow,
}

/// The record of an object.
fn read_object<S: Space>(space: &mut S, oid: Oid) -> Result<ObjectRecord, TreeError>
    ensures ok { IfOk result (λ entry. HoldsRecord (S.contents space.old oid) entry.class entry.state) }
    ensures err { IfErr result (λ e. IsUnread (S.contents space.old oid) oid e) }
    ensures contents { S.contents space.new ≡ S.contents space.old }
    ensures log { S.told → IsLogged oid (out_of_memory result) (S.log space.old) (S.log space.new) }
    ensures refusals { S.told → S.refusals space.new ≡ S.refusals space.old ++ handed_on result }
{
    match space.node(oid) {
        Ok(entry) => Ok(entry),
        Err(SpaceError::NoNode) => Err(TreeError::NodeMissing { oid }),
        Err(SpaceError::NoRecord) => Err(TreeError::NotATree { oid }),
        Err(SpaceError::Refused(refusal)) => Err(TreeError::Refused(refusal)),
        Err(SpaceError::Memory) => Err(TreeError::Memory),
    }
}

/// What a record holds as an object of the tree.
fn entry_of(
    alloc: Global,
    row: &ClassRow,
    oid: Oid,
    object: ObjectRecord,
) -> Result<Entry, TreeError>
    ensures entry { IsEntry (held_node object.class (node_of (class_seen row.now) object.class object.state)) oid
        result }
    ensures own { handed_on result ≡ [] }
{
    match read_node(alloc, row, &object) {
        Ok(node) => {
            let class = Shared::new(alloc, object.class)?;
            Ok(Entry { class, node })
        }
        Err(StateError::BadState) => Err(TreeError::NotATree { oid }),
        Err(StateError::Memory) => Err(TreeError::Memory),
    }
}

/// Whether two rows are of the same class.
fn same_class(a: &ClassRow, b: &ClassRow) -> bool
    ensures { result ≡ true → class_seen a.now ≡ class_seen b.now }
{
    a.kind == b.kind
        && a.key == b.key
        && a.value == b.value
        && a.module.as_bytes() == b.module.as_bytes()
        && a.name.as_bytes() == b.name.as_bytes()
}

/// An object of a tree, where the space remembers it as one.
#[tactic(auto, using(crate::proofs::Entries::held_same))]
fn recall_entry<S: Space>(space: &S, row: &ClassRow, oid: Oid) -> Option<Entry>
    ensures holds { IfSome result (λ entry. held_in (Some (class_seen row.now)) (S.contents space.now oid)
        ≡ Holds entry.class entry.node) }
{
    let Recalled { row: own, entry } = space.recall(oid)?;
    if same_class(own, row) {
        Some(entry)
    } else {
        None
    }
}

/// The root of a tree, where the space remembers it as one.
fn recall_root<S: Space>(space: &S, root: Oid) -> Option<(Rooted, Entry)>
    ensures root { IfSome result (λ found. IsRoot (S.contents space.now) root (Ok found)) }
    ensures global { IfSome result (λ found. IsGlobal found.0.row.now.module.now found.0.row.now.name.now) }
{
    let Recalled { row: own, entry } = space.recall(root)?;
    let row = class_of(&entry.class)?;
    if same_class(own, row) {
        Some((Rooted { root, row }, entry))
    } else {
        None
    }
}

/// An object of a tree.
#[tactic(auto, using(crate::proofs::Entries::logged_more, crate::proofs::Entries::entry_read, crate::proofs::Entries::entry_unread, crate::proofs::Entries::entry_recalled, crate::proofs::Entries::held_entry))]
pub fn read_entry<S: Space>(
    alloc: Global,
    space: &mut S,
    tree: &Rooted,
    oid: Oid,
) -> Result<Entry, TreeError>
    requires rooted { IsRooted (S.contents space.old) tree.now }
    ensures entry { IsEntry (objects_of (S.contents space.old) tree.now.root oid) oid result }
    ensures contents { S.contents space.new ≡ S.contents space.old }
    ensures log { S.told → IsLogged oid (out_of_memory result) (S.log space.old) (S.log space.new) }
    ensures refusals { S.told → S.refusals space.new ≡ S.refusals space.old ++ handed_on result }
{
    if let Some(entry) = recall_entry(space, tree.row, oid) {
        space.reread(oid)?;
        return Ok(entry);
    }
    let object = read_object(space, oid)?;
    let entry = entry_of(alloc, tree.row, oid, object)?;
    space.remember(oid, tree.row, &entry);
    Ok(entry)
}

/// The root of a tree.
#[tactic(auto, using(crate::proofs::Entries::logged_more, crate::proofs::Entries::root_read, crate::proofs::Entries::root_unread, crate::proofs::Entries::root_classless, crate::proofs::Entries::class_read, crate::proofs::Entries::held_entry))]
pub fn read_root<S: Space>(
    alloc: Global,
    space: &mut S,
    root: Oid,
) -> Result<(Rooted, Entry), TreeError>
    ensures root { IsRoot (S.contents space.old) root result }
    ensures global { IfOk result (λ found. IsGlobal found.0.row.now.module.now found.0.row.now.name.now) }
    ensures contents { S.contents space.new ≡ S.contents space.old }
    ensures log { S.told → IsLogged root (out_of_memory result) (S.log space.old) (S.log space.new) }
    ensures refusals { S.told → S.refusals space.new ≡ S.refusals space.old ++ handed_on result }
{
    if let Some(found) = recall_root(space, root) {
        space.reread(root)?;
        return Ok(found);
    }
    let object = read_object(space, root)?;
    let Some(row) = class_of(&object.class) else {
        return Err(TreeError::NotATree { oid: root });
    };
    let entry = entry_of(alloc, row, root, object)?;
    space.remember(root, row, &entry);
    Ok((Rooted { root, row }, entry))
}
