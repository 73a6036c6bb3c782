//! Trying the records of puts.

ghost use Rattle.std.specs.Prelude.{◌≡◌, true, false, Ok, IfOk, IfSome, MatchOption};
ghost use Rattle.pickle_graph.specs.Graph.{IsGraph};
ghost use Rattle.btree_family.specs.Classes.{class_seen};
ghost use Rattle.pickle_graph.specs.Class.{is_class};
ghost use Rattle.zb_record.specs.Records.{record_of, object_text};
ghost use Rattle.btree_shapes.specs.Classes.{class_named};
ghost use Rattle.btree_putting.specs.Puts.{keeps, all_keep, reads_as, text_reads_as, same_node, same_link, is_class_kept};
ghost use Rattle.btree_putting.specs.Kept.{AreTried, HasRecordBack, HasTextBack, IsTried};
ghost use Rattle.btree_putting.specs.Straight.{IsTriedSo};
ghost use Rattle.btree_putting.specs.Storing.{IsRecordFor, IsSoundRecord};
ghost use Rattle.btree_putting.specs.Writing.{node_writable, AreGlobal};

use crate::copying::copy_pickle;
use crate::items::{same_branches, same_items};
use crate::kept::{Kept, KeptPuts};
use crate::puts::{Put, Puts};
use crate::straight::keep_straight;
use crate::straight_inner::keep_inner;
use crate::straight_lone::keep_lone;
use crate::writing::{Family, node_writable, write_node};
use btree_shapes::{Entry, Node, Shared, class_of, is_class_of, read_node};
use bucket_state::StateError;
use pickle_graph::{Pickle, is_class};
use pickle_writing::WriteError;
use std::alloc::{AllocError, Global};
use zb_ids::{Oid, Text8};
use zb_record::{ObjectRecord, RecordError, read_record, write_record};

/// The bytes of a record, and what was read back of them.
#[derive(Drop)]
pub(crate) struct Written {
    pub bytes: Text8,
    pub entry: Entry,
}

/// Whether two links are the same.
pub fn same_link(a: Option<Oid>, b: Option<Oid>) -> bool
    ensures { result ≡ same_link a b }
{
    match a {
        None => b.is_none(),
        Some(one) => match b {
            None => false,
            Some(other) => one == other,
        },
    }
}

/// Whether two nodes hold the same.
fn same_node(a: &Node, b: &Node) -> bool
    ensures { result ≡ same_node a.now b.now }
{
    match a {
        Node::Lone(one) => match b {
            Node::Lone(other) => same_items(one.items().as_slice(), other.items().as_slice()),
            _ => false,
        },
        Node::Leaf(one) => match b {
            Node::Leaf(other) => {
                same_items(one.items().as_slice(), other.items().as_slice())
                    && same_link(one.next(), other.next())
            }
            _ => false,
        },
        Node::Inner(one) => match b {
            Node::Inner(other) => {
                one.head == other.head
                    && same_branches(one.tail.as_slice(), other.tail.as_slice())
                    && one.first == other.first
            }
            _ => false,
        },
    }
}

/// Whether a class is read as the same class of BTrees.
pub(crate) fn is_class_kept(class: &Pickle, copy: &Pickle) -> bool
    ensures { result ≡ is_class_kept class.now (class_named copy.now) }
{
    match class_of(copy) {
        None => false,
        Some(row) => is_class_of(row, class),
    }
}

/// What a record that was read holds, where it is of the same class of BTrees and holds the same
/// node.
#[tactic(auto, using(crate::proofs::Tried::other_class, crate::proofs::Tried::no_copy, crate::proofs::Tried::other_node, crate::proofs::Tried::same_copy))]
fn record_back(
    alloc: Global,
    family: &Family,
    put: &Put,
    copy: ObjectRecord,
) -> Result<Option<Entry>, AllocError>
    ensures { IfOk result (λ found. MatchOption found
        (reads_as (class_seen family.now.row.now) put.now (Ok (copy.class, copy.state)) ≡ false)
        (HasRecordBack (class_seen family.now.row.now) put.now (Ok (copy.class, copy.state)))) }
{
    if !is_class_kept(&put.class, &copy.class) {
        return Ok(None);
    }
    let node = match read_node(alloc, family.row, &copy) {
        Ok(node) => node,
        Err(StateError::BadState) => return Ok(None),
        Err(StateError::Memory) => return Err(AllocError),
    };
    if !same_node(&node, &put.node) {
        return Ok(None);
    }
    let class = Shared::new(alloc, copy.class)?;
    Ok(Some(Entry { class, node }))
}

/// What bytes hold, where they are a record that reads as the same node.
fn bytes_back(
    alloc: Global,
    family: &Family,
    put: &Put,
    bytes: &Text8,
) -> Result<Option<Entry>, AllocError>
    ensures { IfOk result (λ found. MatchOption found
        (reads_as (class_seen family.now.row.now) put.now (record_of bytes.now) ≡ false)
        (HasRecordBack (class_seen family.now.row.now) put.now (record_of bytes.now))) }
{
    match read_record(alloc, bytes.as_slice()) {
        Ok(copy) => record_back(alloc, family, put, copy),
        Err(RecordError::Memory) => Err(AllocError),
        Err(_) => Ok(None),
    }
}

/// The bytes of a record, and what they hold, where it can be written and reads as the same node.
#[tactic(auto, using(crate::proofs::Tried::unwritten_text, crate::proofs::Tried::unread_text, crate::proofs::Tried::text_back))]
fn text_back(
    alloc: Global,
    family: &Family,
    put: &Put,
    object: &ObjectRecord,
) -> Result<Option<Written>, AllocError>
    ensures { IfOk result (λ found. MatchOption found
        (text_reads_as (class_seen family.now.row.now) put.now
        (object_text object.now.class object.now.state) ≡ false)
        (HasTextBack (class_seen family.now.row.now) put.now
        (object_text object.now.class object.now.state))) }
{
    let bytes = match write_record(alloc, object) {
        Ok(bytes) => bytes,
        Err(WriteError::TooDeep) => return Ok(None),
        Err(WriteError::Memory) => return Err(AllocError),
    };
    let Some(entry) = bytes_back(alloc, family, put, &bytes)? else {
        return Ok(None);
    };
    Ok(Some(Written { bytes, entry }))
}

/// The record of a put whose keys can be written.
#[tactic(auto, using(crate::proofs::Keeping::is_record))]
fn make_record(alloc: Global, family: &Family, put: &Put) -> Result<ObjectRecord, AllocError>
    requires global { AreGlobal family.now }
    requires writable { node_writable put.now.node ≡ true }
    requires class { is_class put.now.class ≡ true }
    ensures record { IfOk result (λ object.
        IsRecordFor (class_seen family.now.row.now) (class_seen family.now.leaf.now) put.now
        object) }
    ensures class_graph { IfOk result (λ object. IsGraph put.now.class.nodes put.now.class.root) }
    ensures state_graph { IfOk result (λ object. IsGraph object.state.nodes object.state.root) }
{
    let class = copy_pickle(alloc, &put.class)?;
    let state = write_node(alloc, family, put.leaves, &put.node)?;
    Ok(ObjectRecord { class, state })
}

/// The record of a put, where its state can be written.
#[tactic(auto, using(crate::proofs::Keeping::no_state, crate::proofs::Keeping::no_class, crate::proofs::Keeping::sound_record))]
fn record_for(alloc: Global, family: &Family, put: &Put) -> Result<Option<ObjectRecord>, AllocError>
    requires global { AreGlobal family.now }
    ensures { IfOk result (λ found. MatchOption found
        (keeps (class_seen family.now.row.now) (class_seen family.now.leaf.now) put.now ≡ false)
        (λ object. IsSoundRecord (class_seen family.now.row.now)
        (class_seen family.now.leaf.now) put.now object)) }
{
    if !node_writable(&put.node) {
        return Ok(None);
    }
    if !is_class(&put.class) {
        return Ok(None);
    }
    Ok(Some(make_record(alloc, family, put)?))
}

/// The put with the bytes of its record and what they hold, where the record can be written and
/// reads back, which is tried.
#[tactic(auto, using(crate::proofs::Tried::not_kept, crate::proofs::Tried::is_kept))]
fn keep_tried(alloc: Global, family: &Family, put: Put) -> Result<Option<Kept>, AllocError>
    requires global { AreGlobal family.now }
    ensures { IfOk result (λ found. MatchOption found
        (keeps (class_seen family.now.row.now) (class_seen family.now.leaf.now) put ≡ false)
        (IsTried (class_seen family.now.row.now) (class_seen family.now.leaf.now) put)) }
{
    let Some(object) = record_for(alloc, family, &put)? else {
        return Ok(None);
    };
    let Some(written) = text_back(alloc, family, &put, &object)? else {
        return Ok(None);
    };
    let Written { bytes, entry } = written;
    Ok(Some(Kept { put, bytes, entry }))
}

/// The bytes of the record of a put, and what they hold, where it is known without trying that it
/// is kept.
fn keep_known(alloc: Global, family: &Family, put: &Put) -> Result<Option<Written>, AllocError>
    requires global { AreGlobal family.now }
    ensures { IfOk result (λ found. IfSome found
        (IsTriedSo (class_seen family.now.row.now) (class_seen family.now.leaf.now) put.now)) }
{
    match &put.node {
        Node::Leaf(_) => keep_straight(alloc, family, put),
        Node::Inner(_) => keep_inner(alloc, family, put),
        Node::Lone(_) => keep_lone(alloc, family, put),
    }
}

/// The put with the bytes of its record and what they hold, where the record can be written and
/// reads back. It is tried only where it isn't known that it does.
fn keep(alloc: Global, family: &Family, put: Put) -> Result<Option<Kept>, AllocError>
    requires global { AreGlobal family.now }
    ensures { IfOk result (λ found. MatchOption found
        (keeps (class_seen family.now.row.now) (class_seen family.now.leaf.now) put ≡ false)
        (IsTried (class_seen family.now.row.now) (class_seen family.now.leaf.now) put)) }
{
    let Some(written) = keep_known(alloc, family, &put)? else {
        return keep_tried(alloc, family, put);
    };
    let Written { bytes, entry } = written;
    Ok(Some(Kept { put, bytes, entry }))
}

/// The puts with the bytes of their records and what these hold, where each record can be written
/// and reads back.
#[tactic(auto, using(crate::proofs::Tried::tried_start, crate::proofs::Tried::tried_step, crate::proofs::Tried::tried_stop, crate::proofs::Tried::tried_end))]
pub fn keep_all(alloc: Global, family: &Family, puts: Puts) -> Result<Option<KeptPuts>, AllocError>
    requires global { AreGlobal family.now }
    ensures { IfOk result (λ found. MatchOption found
        (all_keep (class_seen family.now.row.now) (class_seen family.now.leaf.now) puts ≡ false)
        (AreTried (class_seen family.now.row.now) (class_seen family.now.leaf.now) puts)) }
{
    let mut left = puts;
    let mut kept = KeptPuts::new(alloc);
    'puts: while let Some(put) = left.take() {
        let Some(one) = keep(alloc, family, put)? else {
            return Ok(None);
        };
        kept.push(one)?;
    }
    Ok(Some(kept))
}
