//! The text of the state of a tree of one leaf that is no object of its own, made with no graph.

ghost use Rattle.std.specs.Prelude.{◌≡◌, ◌++◌, ◌∷◌, [], ◌≤◌, length, IfOk, IfSome};
ghost use Rattle.btree_family.specs.Classes.{class_seen};
ghost use Rattle.bucket_state.specs.LoneText.{IsFlatTree};

use crate::flat::{closed, members, opened, with_items};
use crate::items::has_values;
use btree_family::{Bucket, ClassRow, Item};
use std::alloc::{AllocError, Global};
use zb_ids::Text8;

/// The text, and the ends of three tuples of one member behind it.
fn wrapped(mut text: Text8) -> Result<Text8, AllocError>
    ensures { IfOk result (λ all. all ≡ text ++ 0x85 ∷ 0x85 ∷ 0x85 ∷ []) }
{
    text.extend_from_slice(&[0x85, 0x85, 0x85])?;
    Ok(text)
}

/// The text of the state of a tree without items.
fn none_text(alloc: Global) -> Result<Text8, AllocError>
    ensures { IfOk result (λ text. text ≡ 0x4e ∷ []) }
{
    let mut text = Text8::new(alloc);
    text.push(0x4e)?;
    Ok(text)
}

/// The text of the state of a tree of items, of which there are some.
fn some_text(alloc: Global, items: &[Item], row: &ClassRow) -> Result<Option<Text8>, AllocError>
    requires { 1 ≤ length items.now }
    ensures { IfOk result (λ found. IfSome found (IsFlatTree (class_seen row.now) items.now)) }
{
    let count = members(has_values(row.kind), items.len())?;
    let start = opened(alloc, count)?;
    let Some(text) = with_items(alloc, start, row, items)? else {
        return Ok(None);
    };
    let inner = closed(text, count)?;
    let all = wrapped(inner)?;
    Ok(Some(all))
}

/// The text of the state of a tree of these items.
#[tactic(auto, using(crate::proofs::LonePieces::no_items))]
fn tree_text(alloc: Global, items: &[Item], row: &ClassRow) -> Result<Option<Text8>, AllocError>
    ensures { IfOk result (λ found. IfSome found (IsFlatTree (class_seen row.now) items.now)) }
{
    if items.len() < 1 {
        let text = none_text(alloc)?;
        return Ok(Some(text));
    }
    some_text(alloc, items, row)
}

/// The text of the state of a tree of one leaf that is no object of its own, where the leaf's keys
/// and values are of the class of the tree and each value is the text of a leaf of a graph: what
/// [`spelling`](pickle_writing::spelling) gives of the graph that
/// [`write_embedded`](crate::write_embedded) makes.
///
/// It is `None` for every other leaf, and for some whose values are numbers of more than sixteen
/// bytes or classes. Want of memory is the one error.
pub fn lone_state(alloc: Global, leaf: &Bucket, row: &ClassRow) -> Result<Option<Text8>, AllocError>
    ensures { IfOk result
        (λ found. IfSome found (IsFlatTree (class_seen row.now) leaf.now.items)) }
{
    tree_text(alloc, leaf.items().as_slice(), row)
}
