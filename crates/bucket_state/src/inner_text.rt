//! The text of the state of an object with others below it, made with no graph.

ghost use Rattle.std.specs.Prelude.{◌≡◌, ◌++◌, ◌+◌, ◌*◌, IfOk};
ghost use Rattle.btree_family.specs.Classes.{class_seen};
ghost use Rattle.bucket_state.specs.Flat.{texts_of};
ghost use Rattle.bucket_state.specs.InnerText.{child_texts, inner_text};

use crate::flat::{closed, members, opened, with_key, with_link, with_next};
use crate::tree::{Branch, Inner};
use btree_family::ClassRow;
use std::alloc::{AllocError, Global};
use zb_ids::Text8;

/// The text, and behind it separators with links to the children behind them, of a class.
fn with_children(
    alloc: Global,
    text: Text8,
    child: &ClassRow,
    branches: &[Branch],
) -> Result<Text8, AllocError>
    ensures { IfOk result
        (λ all. all ≡ text ++ texts_of (child_texts (class_seen child.now) branches.now)) }
{
    let mut all = text;
    for branch in branches {
        let keyed = with_key(alloc, all, &branch.key)?;
        all = with_link(keyed, child, branch.child)?;
    }
    Ok(all)
}

/// How many members the tuple of so many separators has, with a child before each and one behind
/// them.
fn child_count(separators: usize) -> Result<usize, AllocError>
    ensures { IfOk result (λ count. count ≡ separators * 2 + 1) }
{
    let count = members(true, separators)?;
    match count.checked_add(1) {
        Some(all) => Ok(all),
        None => Err(AllocError),
    }
}

/// The text of the state of a tree's object with others below it, whose children are of the one
/// class, and the first leaf of the other: what [`spelling`](pickle_writing::spelling) gives of the
/// graph that [`write_inner`](crate::write_inner) makes. Want of memory is the one error.
pub fn inner_state(
    alloc: Global,
    inner: &Inner,
    child: &ClassRow,
    leaf: &ClassRow,
) -> Result<Text8, AllocError>
    ensures { IfOk result
        (λ text. text ≡ inner_text (class_seen child.now) (class_seen leaf.now) inner.now) }
{
    let branches = inner.tail.as_slice();
    let count = child_count(branches.len())?;
    let start = opened(alloc, count)?;
    let head = with_link(start, child, inner.head)?;
    let text = with_children(alloc, head, child, branches)?;
    let children = closed(text, count)?;
    let all = with_next(children, leaf, Some(inner.first))?;
    Ok(all)
}
