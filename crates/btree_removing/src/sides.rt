//! The children besides the way to a leaf that leaves its tree.

ghost use Rattle.std.specs.Prelude.{◌≡◌, ◌++◌, ◌∷◌, [], None, IfOk};
ghost use Rattle.btree_removing.specs.Sides.{left_child, head_child, start_at, or_start, head_start, side, sides_of};

use crate::rung::Rung;
use btree_family::Key;
use btree_putting::Rungs;
use btree_shapes::is_below;
use bucket_state::{Branch, Inner};
use std::alloc::{AllocError, Global};
use zb_ids::{ListOf, Oid};

/// A child besides a way, and the objects above it, from the root on.
#[derive(Drop)]
pub(crate) struct Start {
    pub above: ListOf<Oid>,
    pub child: Oid,
}

/// The nearest child to the left of a way, and the child that has to be read since it is the first
/// one now.
#[derive(Drop)]
pub(crate) struct Sides {
    pub left: Option<Start>,
    pub head: Option<Start>,
}

/// The child before the last one whose separator isn't above a key.
fn left_child(inner: &Inner, key: &Key) -> Option<Oid>
    ensures { result ≡ left_child None inner.now.head inner.now.tail key.now }
{
    let mut left = None;
    let mut child = inner.head;
    for branch in inner.tail.as_slice() {
        if is_below(key, &branch.key) {
            return left;
        }
        left = Some(child);
        child = branch.child;
    }
    left
}

/// The second child, where the way goes to the first; `leaves` says whether they are leaves, so
/// that it needn't be read.
fn head_child(leaves: bool, tail: &[Branch], key: &Key) -> Option<Oid>
    ensures { result ≡ head_child leaves tail.now key.now }
{
    match tail {
        [] => None,
        [second, ..] => {
            if !leaves && is_below(key, &second.key) {
                return Some(second.child);
            }
            None
        }
    }
}

/// Numbers again.
fn copy_oids(alloc: Global, oids: &[Oid]) -> Result<ListOf<Oid>, AllocError>
    ensures { IfOk result (λ copy. copy ≡ oids.now) }
{
    let mut copy = Vec::new(alloc);
    for oid in oids {
        copy.push(*oid)?;
    }
    Ok(ListOf::from_vec(copy))
}

/// A child below these objects, if there is one.
fn start_at(alloc: Global, above: &[Oid], child: Option<Oid>) -> Result<Option<Start>, AllocError>
    ensures { IfOk result (λ start. start ≡ start_at above.now child) }
{
    match child {
        None => Ok(None),
        Some(child) => {
            let above = copy_oids(alloc, above)?;
            Ok(Some(Start { above, child }))
        }
    }
}

/// The first of two, or else the other.
fn or_start(start: Option<Start>, other: Option<Start>) -> Option<Start>
    ensures { result ≡ or_start start other }
{
    match start {
        Some(start) => Some(start),
        None => other,
    }
}

/// What counts of an object with these separators, and of the objects above it.
fn head_start(tail: &[Branch], start: Option<Start>, above: Option<Start>) -> Option<Start>
    ensures { result ≡ head_start tail.now start above }
{
    match tail {
        [] => above,
        [_, ..] => start,
    }
}

/// What is found one object further down; `above` has it and the objects above it.
fn side(
    alloc: Global,
    above: &[Oid],
    key: &Key,
    found: Sides,
    rung: &Rung,
) -> Result<Sides, AllocError>
    ensures { IfOk result (λ sides. sides ≡ side above.now key.now found rung.now) }
{
    let Sides { left, head } = found;
    let before = start_at(alloc, above, left_child(&rung.inner, key))?;
    let tail = rung.inner.tail.as_slice();
    let second = start_at(alloc, above, head_child(rung.leaves, tail, key))?;
    Ok(Sides {
        left: or_start(before, left),
        head: head_start(tail, second, head),
    })
}

/// What was found down to an object: the objects above what follows, and the children besides
/// these.
#[derive(Drop)]
struct Down {
    above: ListOf<Oid>,
    sides: Sides,
}

/// One object further down.
fn one_down(alloc: Global, key: &Key, down: Down, rung: &Rung) -> Result<Down, AllocError>
    ensures above { IfOk result (λ next. next.above ≡ down.above ++ rung.now.oid ∷ []) }
    ensures sides { IfOk result (λ next. next.sides ≡ side next.above key.now down.sides rung.now) }
{
    let Down { above, sides } = down;
    let mut above = above;
    above.push(rung.oid)?;
    let sides = side(alloc, above.as_slice(), key, sides, rung)?;
    Ok(Down { above, sides })
}

/// The nearest child to the left of a way, and the child that has to be read since it is the first
/// one now.
#[tactic(auto, using(crate::proofs::Siding::sides_start, crate::proofs::Siding::sides_step, crate::proofs::Siding::sides_end))]
pub(crate) fn sides_of(alloc: Global, key: &Key, rungs: &Rungs<Rung>) -> Result<Sides, AllocError>
    ensures { IfOk result (λ sides. sides ≡ sides_of key.now rungs.now) }
{
    let mut down = Down {
        above: ListOf::new(alloc),
        sides: Sides {
            left: None,
            head: None,
        },
    };
    let mut place = 0;
    'down: while place < rungs.len() {
        down = one_down(alloc, key, down, rungs.at(place))?;
        place += 1;
    }
    Ok(down.sides)
}
