//! What the bytes of an object hold.

ghost use Rattle.std.specs.Prelude.{◌≡◌, IfOk, Some};
ghost use Rattle.std.specs.Option.{option_copied, option_map};
ghost use Rattle.btree_family.specs.Classes.{class_seen};
ghost use Rattle.btree_shapes.specs.Nodes.{class_held, held_in, held_node, node_of};
ghost use Rattle.btree_checking.specs.Fed.{class_after, held_of};

use btree_family::ClassRow;
use btree_shapes::{Entry, Shared, class_of, read_node};
use bucket_state::StateError;
use std::alloc::{AllocError, Global};
use zb_ids::Text8;
use zb_record::{ObjectRecord, RecordError, read_record};

/// What stands at an object.
#[derive(Drop)]
pub(crate) enum Content {
    /// There is nothing.
    Missing,
    /// It is no object of the tree.
    Foreign,
    /// It is an object of the tree.
    Holds(Entry),
}

/// The class of BTrees that the object with this content has, if it has one.
fn class_in(alloc: Global, content: &Option<Text8>) -> Result<Option<&'static ClassRow>, AllocError>
    ensures { IfOk result (λ row.
        option_map class_seen (option_copied row) ≡ class_held content.now) }
{
    let Some(bytes) = content else {
        return Ok(None);
    };
    match read_record(alloc, bytes.as_slice()) {
        Ok(object) => Ok(class_of(&object.class)),
        Err(RecordError::Memory) => Err(AllocError),
        Err(RecordError::Pickle(_)) => Ok(None),
        Err(RecordError::Rest { at: _ }) => Ok(None),
        Err(RecordError::BadClass) => Ok(None),
    }
}

/// The class of a tree: this one, or that of its root, which has this content.
pub(crate) fn class_after(
    alloc: Global,
    row: Option<&'static ClassRow>,
    content: &Option<Text8>,
) -> Result<Option<&'static ClassRow>, AllocError>
    ensures { IfOk result (λ found. option_map class_seen (option_copied found)
        ≡ class_after (option_map class_seen (option_copied row.entry)) content.now) }
{
    match row {
        Some(row) => Ok(Some(row)),
        None => class_in(alloc, content),
    }
}

/// What a record holds as an object of a tree of this class.
fn held_node(alloc: Global, row: &ClassRow, object: ObjectRecord) -> Result<Content, AllocError>
    ensures { IfOk result (λ content. held_of content
        ≡ held_node object.class (node_of (class_seen row.now) object.class object.state)) }
{
    match read_node(alloc, row, &object) {
        Ok(node) => {
            let class = Shared::new(alloc, object.class)?;
            Ok(Content::Holds(Entry { class, node }))
        }
        Err(StateError::BadState) => Ok(Content::Foreign),
        Err(StateError::Memory) => Err(AllocError),
    }
}

/// What an object with this content is to a tree of this class.
pub(crate) fn held_in(
    alloc: Global,
    row: &ClassRow,
    content: &Option<Text8>,
) -> Result<Content, AllocError>
    ensures { IfOk result (λ found. held_of found
        ≡ held_in (Some (class_seen row.now)) content.now) }
{
    let Some(bytes) = content else {
        return Ok(Content::Missing);
    };
    match read_record(alloc, bytes.as_slice()) {
        Ok(object) => held_node(alloc, row, object),
        Err(RecordError::Memory) => Err(AllocError),
        Err(RecordError::Pickle(_)) => Ok(Content::Foreign),
        Err(RecordError::Rest { at: _ }) => Ok(Content::Foreign),
        Err(RecordError::BadClass) => Ok(Content::Foreign),
    }
}
