//! Reading the states of trees.

ghost use Rattle.std.specs.Prelude.{◌≡◌, Some, None, slice_get, IfOk};
ghost use Rattle.std.specs.Option.{option_copied};
ghost use Rattle.btree_family.specs.Classes.{class_seen};
ghost use Rattle.bucket_state.specs.Answers.{AnswersFound};
ghost use Rattle.bucket_state.specs.Writable.{IsWritableTree};
ghost use Rattle.bucket_state.specs.States.{found_all, stand_in_row, members_at};
ghost use Rattle.bucket_state.specs.Trees.{separators_of, child_at, branch_at, branches_in, children_in, inner_in, embedded_in, tree_members, tree_state_of};

use crate::entries::{Entry, pairs};
use crate::error::StateError;
use crate::items::{follows, read_key};
use crate::links::{link, tuple};
use crate::reading::read_members;
use btree_family::{Bucket, ClassRow, Key, KeyKind};
use pickle_graph::{Node, Pickle};
use std::alloc::Global;
use zb_ids::{ListOf, Oid};

/// A child with the separator before it. The child holds the keys from the separator on.
#[derive(Debug, Drop)]
pub struct Branch {
    pub key: Key,
    pub child: Oid,
}

/// An object of a tree with others below it: its first child, the others with the separators before them,
/// and the first leaf of all below it.
#[derive(Debug, Drop)]
pub struct Inner {
    pub head: Oid,
    pub tail: ListOf<Branch>,
    pub first: Oid,
}

/// The state of a tree's object.
#[derive(Drop)]
pub enum TreeState {
    /// A tree without items, whose state is None.
    Empty,
    /// A tree of one leaf that is no object of its own, and so has no next one.
    Leaf(Bucket),
    /// An object with others below it.
    Children(Inner),
}

/// The child that a number names, if there is a number.
fn child(nodes: &[Node], number: Option<u32>) -> Option<Oid>
    ensures { result ≡ child_at nodes.now number }
{
    match number {
        None => None,
        Some(number) => link(nodes, number),
    }
}

/// The branch that an entry is.
fn read_branch(nodes: &[Node], kind: KeyKind, entry: Entry) -> Result<Branch, StateError>
    ensures { AnswersFound result (branch_at kind nodes.now entry) }
{
    let key = read_key(nodes, entry.key, kind)?;
    let Some(child) = child(nodes, entry.value) else {
        return Err(StateError::BadState);
    };
    Ok(Branch { key, child })
}

/// The branches that entries are.
fn read_branches(
    alloc: Global,
    nodes: &[Node],
    kind: KeyKind,
    entries: &[Entry],
) -> Result<ListOf<Branch>, StateError>
    ensures { AnswersFound result (found_all (branch_at kind nodes.now) entries.now) }
{
    let mut branches = Vec::new(alloc);
    for entry in entries {
        branches.push(read_branch(nodes, kind, *entry)?)?;
    }
    Ok(ListOf::from_vec(branches))
}

/// Whether the separators stand in a row.
fn stand(branches: &[Branch]) -> bool
    ensures { result ≡ stand_in_row None (separators_of branches.now) }
{
    let mut before: Option<&Key> = None;
    for branch in branches {
        if !follows(before, &branch.key) {
            return false;
        }
        before = Some(&branch.key);
    }
    true
}

/// The branches that the members of a tuple are.
fn read_tail(
    alloc: Global,
    nodes: &[Node],
    kind: KeyKind,
    members: &[u32],
) -> Result<ListOf<Branch>, StateError>
    ensures { AnswersFound result (branches_in kind nodes.now members.now) }
{
    let entries = pairs(alloc, members)?;
    let branches = read_branches(alloc, nodes, kind, entries.as_slice())?;
    if !stand(branches.as_slice()) {
        return Err(StateError::BadState);
    }
    Ok(branches)
}

/// The children that the tuple of a number names, and the first leaf.
fn read_inner(
    alloc: Global,
    nodes: &[Node],
    kind: KeyKind,
    children: u32,
    first: u32,
) -> Result<TreeState, StateError>
    ensures tree { AnswersFound result (inner_in kind nodes.now children first) }
    ensures writable { IfOk result (λ tree. IsWritableTree tree) }
{
    let Some([head, rest @ ..]) = tuple(nodes, children) else {
        return Err(StateError::BadState);
    };
    let Some(head) = link(nodes, *head) else {
        return Err(StateError::BadState);
    };
    let tail = read_tail(alloc, nodes, kind, rest)?;
    let Some(first) = link(nodes, first) else {
        return Err(StateError::BadState);
    };
    Ok(TreeState::Children(Inner { head, tail, first }))
}

/// The leaf whose state is the one member of a tuple.
fn read_embedded(
    alloc: Global,
    pickle: &Pickle,
    row: &ClassRow,
    members: &[u32],
) -> Result<TreeState, StateError>
    ensures tree { AnswersFound result (embedded_in (class_seen row.now) pickle.now.nodes members.now) }
    ensures writable { IfOk result (λ tree. IsWritableTree tree) }
{
    let [leaf] = members else {
        return Err(StateError::BadState);
    };
    let Some(parts) = tuple(pickle.nodes().as_slice(), *leaf) else {
        return Err(StateError::BadState);
    };
    let bucket = read_members(alloc, pickle, row, parts)?;
    if bucket.next().is_some() {
        return Err(StateError::BadState);
    }
    Ok(TreeState::Leaf(bucket))
}

/// The state whose members these are.
fn read_parts(
    alloc: Global,
    pickle: &Pickle,
    row: &ClassRow,
    members: &[u32],
) -> Result<TreeState, StateError>
    ensures tree { AnswersFound result (tree_members (class_seen row.now) pickle.now.nodes members.now) }
    ensures writable { IfOk result (λ tree. IsWritableTree tree) }
{
    let nodes = pickle.nodes().as_slice();
    match members {
        [embedded] => {
            let Some(parts) = tuple(nodes, *embedded) else {
                return Err(StateError::BadState);
            };
            read_embedded(alloc, pickle, row, parts)
        }
        [children, first] => read_inner(alloc, nodes, row.key, *children, *first),
        _ => Err(StateError::BadState),
    }
}

/// The state of a tree's object that a graph is. The row is that of the tree's class.
///
/// It is None; or a tuple of a tuple of the state of one leaf, which has no next one; or a tuple of two. There
/// the first item is a tuple of references to children with a separator between any two, the separators keys
/// of the family, of one kind, which rise strictly, and the second is a reference to the first leaf. `BadState`
/// is answered exactly where the graph is none of these. Want of memory answers `Memory`.
pub fn read_tree(alloc: Global, state: &Pickle, row: &ClassRow) -> Result<TreeState, StateError>
    ensures tree { AnswersFound result (tree_state_of (class_seen row.now) state.now) }
    ensures writable { IfOk result (λ tree. IsWritableTree tree) }
{
    match state.nodes().get(state.root() as usize) {
        Some(Node::None) => Ok(TreeState::Empty),
        Some(Node::Tuple(members)) => read_parts(alloc, state, row, members.as_slice()),
        _ => Err(StateError::BadState),
    }
}
