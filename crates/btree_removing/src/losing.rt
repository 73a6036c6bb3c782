//! What goes on above a leaf that leaves its tree.

ghost use Rattle.std.specs.Prelude.{◌≡◌, ◌++◌, ◌∷◌, [], ◌<◌, ◌≤◌, length, IfOk};
ghost use Rattle.btree_putting.specs.Puts.{lone_node, inner_node};
ghost use Rattle.btree_removing.specs.Losses.{put_rung, first_or, lose_head, lose_child, move_first, lose, raise, leaves_tree};

use crate::items::cut_branch;
use crate::rung::Rung;
use btree_family::{Bucket, Key};
use btree_putting::{Put, Puts, Rungs, with_branches};
use btree_shapes::{Node, Shared, place_for};
use bucket_state::{Branch, Inner};
use std::alloc::{AllocError, Global};
use zb_ids::{ListOf, Oid};

/// What became of a child.
#[derive(Clone, Copy)]
pub(crate) enum Rest {
    /// Nothing that an object above it has to know.
    Same,
    /// The first leaf below it is another one now.
    First(Oid),
    /// It left.
    Gone,
}

/// What is put at and below an object, and what became of the object.
#[derive(Drop)]
pub(crate) struct Loss {
    pub puts: Puts,
    pub rest: Rest,
}

/// Puts, and an object that holds this now.
fn with_rung(rung: Rung, node: Node, puts: Puts) -> Result<Puts, AllocError>
    ensures { IfOk result (λ all. all ≡ puts ++ put_rung rung node ∷ []) }
{
    let mut puts = puts;
    let Rung {
        oid,
        class,
        leaves,
        ..
    } = rung;
    puts.push(Put {
        oid,
        class,
        leaves,
        node,
    })?;
    Ok(puts)
}

/// The first leaf below a child: the one that is known, or else the child is a leaf itself.
fn first_or(child: Oid, known: &Option<Oid>) -> Oid
    ensures { result ≡ first_or child known.now }
{
    match known {
        None => child,
        Some(first) => *first,
    }
}

/// The first child leaves, and the separator after it. An object without children leaves too.
fn lose_head(alloc: Global, known: &Option<Oid>, rung: Rung, puts: Puts) -> Result<Loss, AllocError>
    ensures { IfOk result (λ loss. loss ≡ lose_head known.now rung rung.inner.tail puts) }
{
    match rung.inner.tail.as_slice() {
        [] => {
            let leaf = Bucket::new(ListOf::new(alloc), None);
            let node = Node::Lone(Shared::new(alloc, leaf)?);
            let puts = with_rung(rung, node, puts)?;
            let rest = Rest::Gone;
            Ok(Loss { puts, rest })
        }
        [second, behind @ ..] => {
            let head = second.child;
            let tail = with_branches(ListOf::new(alloc), behind)?;
            let first = first_or(head, known);
            let inner = Shared::new(alloc, Inner { head, tail, first })?;
            let puts = with_rung(rung, Node::Inner(inner), puts)?;
            Ok(Loss {
                puts,
                rest: Rest::First(first),
            })
        }
    }
}

/// A child that isn't the first leaves, and the separator before it.
#[tactic(auto, using(crate::proofs::Raising::child_behind))]
fn lose_later(
    alloc: Global,
    place: usize,
    known: &Option<Oid>,
    rung: Rung,
    puts: Puts,
) -> Result<Loss, AllocError>
    requires some { 0 < place }
    requires within { place ≤ length rung.inner.tail }
    ensures { IfOk result (λ loss. loss ≡ lose_child place known.now rung puts) }
{
    let Rung {
        oid,
        class,
        inner,
        leaves,
    } = rung;
    let tail = cut_branch(alloc, inner.tail.as_slice(), place - 1)?;
    let cut = Inner {
        head: inner.head,
        tail,
        first: inner.first,
    };
    let node = Node::Inner(Shared::new(alloc, cut)?);
    let mut puts = puts;
    puts.push(Put {
        oid,
        class,
        leaves,
        node,
    })?;
    Ok(Loss {
        puts,
        rest: Rest::Same,
    })
}

/// The child behind so many separators leaves.
fn lose_child(
    alloc: Global,
    place: usize,
    known: &Option<Oid>,
    rung: Rung,
    puts: Puts,
) -> Result<Loss, AllocError>
    requires { place ≤ length rung.inner.tail }
    ensures { IfOk result (λ loss. loss ≡ lose_child place known.now rung puts) }
{
    if place == 0 {
        return lose_head(alloc, known, rung, puts);
    }
    lose_later(alloc, place, known, rung, puts)
}

/// An object with this first leaf below it.
fn with_first(alloc: Global, rung: Rung, first: Oid, puts: Puts) -> Result<Puts, AllocError>
    ensures { IfOk result (λ all. all ≡ puts
        ++ put_rung rung (inner_node rung.inner.head rung.inner.tail first) ∷ []) }
{
    let Rung {
        oid,
        class,
        inner,
        leaves,
    } = rung;
    let tail = with_branches(ListOf::new(alloc), inner.tail.as_slice())?;
    let head = inner.head;
    let node = Node::Inner(Shared::new(alloc, Inner { head, tail, first })?);
    let mut puts = puts;
    puts.push(Put {
        oid,
        class,
        leaves,
        node,
    })?;
    Ok(puts)
}

/// The child behind so many separators has this first leaf now.
#[tactic(auto, using(crate::proofs::Raising::first_behind))]
fn move_first(
    alloc: Global,
    place: usize,
    first: Oid,
    rung: Rung,
    puts: Puts,
) -> Result<Loss, AllocError>
    ensures { IfOk result (λ loss. loss ≡ move_first place first rung puts) }
{
    if place > 0 {
        return Ok(Loss {
            puts,
            rest: Rest::Same,
        });
    }
    let rest = Rest::First(first);
    if rung.inner.first == first {
        return Ok(Loss { puts, rest });
    }
    let puts = with_first(alloc, rung, first, puts)?;
    Ok(Loss { puts, rest })
}

/// What goes on at an object, above what went on below it.
fn lose(
    alloc: Global,
    key: &Key,
    known: &Option<Oid>,
    rung: Rung,
    below: Loss,
) -> Result<Loss, AllocError>
    ensures { IfOk result (λ loss. loss ≡ lose key.now known.now rung below) }
{
    let place = place_for(rung.inner.tail.as_slice(), key);
    let Loss { puts, rest } = below;
    match rest {
        Rest::Gone => lose_child(alloc, place, known, rung, puts),
        Rest::First(first) => move_first(alloc, place, first, rung, puts),
        Rest::Same => Ok(Loss { puts, rest }),
    }
}

/// What an emptied leaf and the objects above it put, from the leaf on.
#[tactic(auto, using(crate::proofs::Raising::raise_start, crate::proofs::Raising::raise_step, crate::proofs::Raising::raise_end))]
pub(crate) fn raise(
    alloc: Global,
    key: &Key,
    known: &Option<Oid>,
    rungs: Rungs<Rung>,
    leaf: Put,
) -> Result<Puts, AllocError>
    ensures { IfOk result (λ puts. puts ≡ (raise key.now known.now rungs (leaves_tree leaf)).puts) }
{
    let mut left = rungs;
    let mut puts = Puts::new(alloc);
    puts.push(leaf)?;
    let mut loss = Loss {
        puts,
        rest: Rest::Gone,
    };
    'up: while let Some(rung) = left.pop() {
        loss = lose(alloc, key, known, rung, loss)?;
    }
    Ok(loss.puts)
}
