//! Which keys a walk takes.

ghost use Rattle.std.specs.Prelude.{◌≡◌, ◌+◌, ◌≤◌, ◌&&◌, ◌∷◌, IfOk, map, length, drop, take};
ghost use Rattle.btree_maps.specs.Visits.{ends_suit, takes, child_of, children_within};

use crate::children::Children;
use btree_family::Key;
use btree_shapes::{Node, is_below, place_for, suits};
use bucket_state::Inner;
use std::alloc::{AllocError, Global};

/// The keys that a walk takes.
#[derive(Drop)]
pub enum Span {
    /// All keys.
    All,
    /// The keys from one to another, both ends included.
    Within {
        /// The lower end.
        low: Key,
        /// The upper end.
        high: Key,
    },
}

impl Span {
    /// Whether the ends are of the kind of a node's keys.
    fn ends_suit(&self, node: &Node) -> bool
        ensures { result ≡ ends_suit self.now node.now }
    {
        match self {
            Span::All => true,
            Span::Within { low, high } => suits(true, low, node) && suits(true, high, node),
        }
    }

    /// Whether the ends are of the family, and of the kind of a node's keys.
    pub(crate) fn suits(&self, fits: bool, node: &Node) -> bool
        ensures { result ≡ (fits && ends_suit self.now node.now) }
    {
        fits && self.ends_suit(node)
    }

    /// Whether a key is taken.
    pub(crate) fn takes(&self, key: &Key) -> bool
        ensures { result ≡ takes self.now key.now }
    {
        match self {
            Span::All => true,
            Span::Within { low, high } => !is_below(key, low) && !is_below(high, key),
        }
    }
}

/// The children from one place to before another, seen the first one first. The child without a separator is at
/// place 0.
#[tactic(auto, using(crate::proofs::Spans::none_left, crate::proofs::Spans::more_left, crate::proofs::Spans::head_left))]
fn children_between(
    alloc: Global,
    inner: &Inner,
    from: usize,
    end: usize,
) -> Result<Children, AllocError>
    requires { end ≤ length inner.now.tail + 1 }
    ensures { IfOk result (λ children. children ≡ drop from (take end (inner.now.head ∷ map child_of inner.now.tail))) }
{
    let branches = inner.tail.as_slice();
    let mut children = Children::new(alloc);
    if end <= from {
        return Ok(children);
    }
    let mut place = end;
    while place > from {
        place -= 1;
        if place == 0 {
            children.push(inner.head)?;
            return Ok(children);
        }
        children.push(branches[place - 1].child)?;
    }
    Ok(children)
}

/// The children that a walk visits, the first one first: all, or those from the one for the lower end to the one
/// for the upper end. The one error is want of memory.
#[tactic(auto, using(crate::proofs::Spans::all_children))]
pub fn children_within(alloc: Global, inner: &Inner, span: &Span) -> Result<Children, AllocError>
    ensures { IfOk result (λ children. children ≡ children_within span.now inner.now.head inner.now.tail) }
{
    let branches = inner.tail.as_slice();
    match span {
        Span::All => {
            let last = branches.len();
            if last == usize::MAX {
                return Err(AllocError);
            }
            children_between(alloc, inner, 0, last + 1)
        }
        Span::Within { low, high } => {
            let from = place_for(branches, low);
            let end = place_for(branches, high);
            if end == usize::MAX {
                return Err(AllocError);
            }
            children_between(alloc, inner, from, end + 1)
        }
    }
}
