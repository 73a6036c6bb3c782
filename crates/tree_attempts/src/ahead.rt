//! Objects that a call over many of them is going to read.

ghost use Rattle.std.specs.Prelude.{◌≡◌, ◌++◌, ◌≤◌, ◌^◌, ℕ, suc, Option, Some, None, All, IfOk, IfSome, OnOk, MatchOption};
ghost use Rattle.btree_family.specs.Classes.{class_seen};
ghost use Rattle.btree_shapes.specs.Nodes.{class_held, held_in};
ghost use Rattle.btree_shapes.specs.Reading.{HoldsRecord};
ghost use Rattle.btree_maps.specs.Visits.{children_in, children_within};
ghost use Rattle.tree_attempts.specs.declared.known.Seen.{Seen};
ghost use Rattle.tree_attempts.specs.Ahead.{AreAhead, IsMet, IsNoRecord, bytes_seen, span_of};
ghost use Rattle.tree_attempts.specs.Calls.{MayRead, contents_of};
ghost use Rattle.tree_attempts.specs.Known.{Agrees, known_at};

use crate::known::{Known, Seen};
use crate::operation::TreeOperation;
use crate::space::read_seen;
use btree_family::ClassRow;
use btree_maps::{Span, children_within};
use btree_shapes::{Node, SpaceError, class_of, read_node};
use bucket_state::{Inner, StateError};
use std::alloc::{AllocError, Global};
use zb_ids::{ListOf, Oid};
use zb_record::ObjectRecord;

/// Where fewer objects are known, a call is left to read one at a time: most ranges end before, and what is above would be read
/// from its bytes anew.
const FEW: usize = 8;

/// The keys that a call over many objects takes, where it is one.
fn span_of(operation: &TreeOperation) -> Result<Option<Span>, AllocError>
    ensures { IfOk result (λ span. span ≡ span_of operation.now) }
{
    match operation {
        TreeOperation::Items => Ok(Some(Span::All)),
        TreeOperation::Range { from, to } => {
            let low = from.clone()?;
            let high = to.clone()?;
            Ok(Some(Span::Within { low, high }))
        }
        _ => Ok(None),
    }
}

/// The record of an object that is known, where it is one.
fn record_seen(alloc: Global, seen: &Option<Seen>) -> Result<Option<ObjectRecord>, AllocError>
    ensures { IfOk result (λ found. MatchOption found (IsNoRecord (bytes_seen seen.now))
        (λ object. HoldsRecord (bytes_seen seen.now) object.class object.state)) }
{
    match read_seen(alloc, seen) {
        Ok(record) => Ok(Some(record)),
        Err(SpaceError::Memory) => Err(AllocError),
        Err(SpaceError::Refused(_)) => Err(AllocError),
        Err(_) => Ok(None),
    }
}

/// The class of the tree whose root is this object, where it is known as one.
#[tactic(auto, using(crate::proofs::Looking::class_of_record))]
fn row_seen(alloc: Global, seen: &Option<Seen>) -> Result<Option<&'static ClassRow>, AllocError>
    ensures { IfOk result (λ row. IfSome row (λ r. class_held (bytes_seen seen.now) ≡ Some (class_seen r.now))) }
{
    let Some(record) = record_seen(alloc, seen)? else {
        return Ok(None);
    };
    let Some(row) = class_of(&record.class) else {
        return Ok(None);
    };
    Ok(Some(row))
}

/// The class of the tree with this root, where the root is known as one.
#[tactic(auto, using(crate::proofs::Looking::class_of_known))]
fn row_known(
    alloc: Global,
    known: &Known,
    root: Oid,
) -> Result<Option<&'static ClassRow>, AllocError>
    ensures { (objects : ℕ → Option Seen) → Agrees known.now objects
        → IfOk result (λ row. IfSome row (λ r. class_held (contents_of objects root) ≡ Some (class_seen r.now))) }
{
    let Some(seen) = known.find(root) else {
        return Ok(None);
    };
    row_seen(alloc, seen)
}

/// Adds the children that a call over these keys goes into.
#[tactic(auto, using(crate::proofs::Looking::children_step, crate::proofs::Looking::children_end))]
fn push_children(
    alloc: Global,
    span: &Span,
    inner: &Inner,
    below: &mut Vec<Oid>,
) -> Result<(), AllocError>
    ensures { OnOk result (below.new.items
        ≡ below.old.items ++ children_within span.now inner.now.head inner.now.tail) }
{
    let mut children = children_within(alloc, inner, span)?;
    'children: while let Some(child) = children.pop() {
        below.push(child)?;
    }
    Ok(())
}

/// Adds the children of an object that is known, where it is one of a tree of this class. Whether it is.
#[tactic(auto, using(crate::proofs::Looking::no_children, crate::proofs::Looking::foreign_children, crate::proofs::Looking::inner_children, crate::proofs::Looking::leaf_children, crate::proofs::Looking::lone_children))]
fn open_object(
    alloc: Global,
    row: &ClassRow,
    seen: &Option<Seen>,
    span: &Span,
    below: &mut Vec<Oid>,
) -> Result<bool, AllocError>
    ensures { OnOk result (below.new.items ≡ below.old.items
        ++ children_in span.now (held_in (Some (class_seen row.now)) (bytes_seen seen.now))) }
{
    let Some(record) = record_seen(alloc, seen)? else {
        return Ok(false);
    };
    match read_node(alloc, row, &record) {
        Ok(Node::Inner(inner)) => {
            push_children(alloc, span, &inner, below)?;
            Ok(true)
        }
        Ok(Node::Leaf(_)) => Ok(true),
        Ok(Node::Lone(_)) => Ok(true),
        Err(StateError::Memory) => Err(AllocError),
        Err(StateError::BadState) => Ok(false),
    }
}

/// Of an object of a tree, adds it where it isn't known, and else its children, where `left` says that one may be looked into.
/// Whether those behind it are to be looked at too: not where it is none of the tree.
#[tactic(auto, using(crate::proofs::Looking::level_wanted, crate::proofs::Looking::level_opened))]
fn open_at(
    alloc: Global,
    row: &ClassRow,
    known: &Known,
    span: &Span,
    oid: Oid,
    left: &mut usize,
    below: &mut Vec<Oid>,
    wanted: &mut ListOf<Oid>,
) -> Result<bool, AllocError>
    requires unknown { All (λ oid. known_at known.now oid ≡ None) wanted.old }
    ensures unknown { OnOk result (All (λ oid. known_at known.now oid ≡ None) wanted.new) }
    ensures met { (objects : ℕ → Option Seen) (root room : ℕ) → Agrees known.now objects
        → class_held (contents_of objects root) ≡ Some (class_seen row.now) → room ≤ 2 ^ 64
        → IsMet (contents_of objects) root span.now room oid
        → AreAhead (contents_of objects) root span.now room below.old.items wanted.old
        → OnOk result (AreAhead (contents_of objects) root span.now room below.new.items wanted.new) }
{
    match known.find(oid) {
        None => {
            wanted.push(oid)?;
            Ok(true)
        }
        Some(seen) => {
            if *left == 0 {
                return Ok(false);
            }
            *left -= 1;
            open_object(alloc, row, seen, span, below)
        }
    }
}

/// Of objects of a tree that lie side by side, adds the ones that aren't known, and the children of the others, up to the
/// first one that is none of the tree. As many are looked into as `left` says.
#[tactic(auto, using(crate::proofs::Looking::met_of_level))]
fn open_level(
    alloc: Global,
    row: &ClassRow,
    known: &Known,
    span: &Span,
    level: &[Oid],
    left: &mut usize,
    below: &mut Vec<Oid>,
    wanted: &mut ListOf<Oid>,
) -> Result<(), AllocError>
    requires unknown { All (λ oid. known_at known.now oid ≡ None) wanted.old }
    ensures unknown { OnOk result (All (λ oid. known_at known.now oid ≡ None) wanted.new) }
    ensures met { (objects : ℕ → Option Seen) (root room : ℕ) → Agrees known.now objects
        → class_held (contents_of objects root) ≡ Some (class_seen row.now) → room ≤ 2 ^ 64
        → All (IsMet (contents_of objects) root span.now room) level.now
        → AreAhead (contents_of objects) root span.now room below.old.items wanted.old
        → OnOk result (AreAhead (contents_of objects) root span.now room below.new.items wanted.new) }
{
    for oid in level {
        if !open_at(alloc, row, known, span, *oid, left, below, wanted)? {
            return Ok(());
        }
    }
    Ok(())
}

/// The objects that a walk over these keys is going to read, as far as what is known tells.
fn ahead_of(
    alloc: Global,
    known: &Known,
    root: Oid,
    row: &ClassRow,
    span: &Span,
) -> Result<ListOf<Oid>, AllocError>
    ensures unknown { IfOk result (All (λ oid. known_at known.now oid ≡ None)) }
    ensures met { (objects : ℕ → Option Seen) → Agrees known.now objects
        → class_held (contents_of objects root) ≡ Some (class_seen row.now)
        → IfOk result (All (IsMet (contents_of objects) root span.now (2 ^ 64))) }
{
    let mut wanted = ListOf::new(alloc);
    // An object that stands below itself must not be looked into again and again.
    let mut left = known.len();
    let mut level: Vec<Oid> = Vec::new(alloc);
    level.push(root)?;
    let levels = known.len().saturating_add(1);
    let mut depth = 0;
    'levels: while depth < levels {
        if level.is_empty() {
            return Ok(wanted);
        }
        let mut below = Vec::new(alloc);
        open_level(
            alloc,
            row,
            known,
            span,
            level.as_slice(),
            &mut left,
            &mut below,
            &mut wanted,
        )?;
        level = below;
        depth += 1;
    }
    Ok(wanted)
}

/// The objects that a call over all items is going to read, or one over those of a range, as far as what is known tells: the
/// children of what is known, level by level, and on each level none behind one that is missing or none of the tree. There are
/// none for other calls, and none while few objects are known. So a caller that reads them before the next attempt needs at
/// most eight attempts more than the tree has levels. Each is one that the call may read; in a damaged tree some may be told
/// that it doesn't come to, since it ends before. The one error is want of memory.
#[tactic(auto, using(crate::proofs::Looking::may_read))]
pub fn objects_ahead(
    alloc: Global,
    known: &Known,
    root: Oid,
    operation: &TreeOperation,
) -> Result<ListOf<Oid>, AllocError>
    ensures unknown { IfOk result (All (λ oid. known_at known.now oid ≡ None)) }
    ensures read { (objects : ℕ → Option Seen) → Agrees known.now objects
        → IfOk result (All (MayRead (contents_of objects) root operation.now)) }
{
    let Some(span) = span_of(operation)? else {
        return Ok(ListOf::new(alloc));
    };
    if known.len() < FEW {
        return Ok(ListOf::new(alloc));
    }
    let Some(row) = row_known(alloc, known, root)? else {
        return Ok(ListOf::new(alloc));
    };
    ahead_of(alloc, known, root, row, &span)
}
