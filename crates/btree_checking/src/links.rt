//! Which leaves the objects of a tree name.

ghost use Rattle.std.specs.Prelude.{◌≡◌, Some, if◌then◌else◌};
ghost use Rattle.btree_checking.specs.Rules.{pointer_of};
ghost use Rattle.btree_checking.specs.Verdicts.{is_same, leaf_or, names_first, names_next, wrong_link};

use btree_shapes::Node;
use indexmap::IndexMap;
use zb_ids::Oid;

/// The leaf that an object names.
#[derive(Clone, Copy, Debug, PartialEq, Eq)]
pub(crate) enum Pointer {
    /// The first leaf below an object with others below it.
    First(Oid),
    /// The leaf that follows a leaf, if one does.
    Next(Option<Oid>),
}

/// The leaf that an object names.
pub(crate) fn pointer_of(node: &Node) -> Pointer
    ensures { result ≡ pointer_of node.now }
{
    match node {
        Node::Lone(bucket) => Pointer::Next(bucket.next()),
        Node::Leaf(bucket) => Pointer::Next(bucket.next()),
        Node::Inner(inner) => Pointer::First(inner.first),
    }
}

/// Whether two objects that may stand are the same.
fn is_same(a: Option<Oid>, b: Option<Oid>) -> bool
    ensures { result ≡ is_same a b }
{
    match (a, b) {
        (None, None) => true,
        (Some(a), Some(b)) => a == b,
        _ => false,
    }
}

/// Whether an object with others below it names their first leaf; a leaf has none below it.
fn names_first(pointer: Pointer, leaf: Option<Oid>) -> bool
    ensures { result ≡ names_first pointer leaf }
{
    match pointer {
        Pointer::First(first) => is_same(Some(first), leaf),
        Pointer::Next(_) => true,
    }
}

/// Whether a leaf names the next one.
fn names_next(pointer: Pointer, leaf: Option<Oid>) -> bool
    ensures { result ≡ names_next pointer leaf }
{
    match pointer {
        Pointer::First(_) => true,
        Pointer::Next(next) => is_same(next, leaf),
    }
}

/// The first leaf of an object and those behind it.
fn leaf_or(oid: Oid, pointer: Pointer, leaf: Option<Oid>) -> Option<Oid>
    ensures { result ≡ leaf_or oid pointer leaf }
{
    match pointer {
        Pointer::First(_) => leaf,
        Pointer::Next(_) => Some(oid),
    }
}

/// The first object with others below it that names another first leaf, of an object and those
/// behind it.
fn first_wrong(oid: Oid, pointer: &Pointer, leaf: &Option<Oid>, behind: Option<Oid>) -> Option<Oid>
    ensures { result ≡ (if names_first pointer.now leaf.now then behind else Some oid) }
{
    if names_first(*pointer, *leaf) {
        return behind;
    }
    Some(oid)
}

/// The first leaf that names another next one, of an object and those behind it.
fn next_wrong(oid: Oid, pointer: &Pointer, leaf: &Option<Oid>, behind: Option<Oid>) -> Option<Oid>
    ensures { result ≡ (if names_next pointer.now leaf.now then behind else Some oid) }
{
    if names_next(*pointer, *leaf) {
        return behind;
    }
    Some(oid)
}

/// The first object, in the order of a walk, that names another first leaf than that below it, or else
/// the first leaf that names another next one than the next leaf.
#[tactic(auto, using(crate::proofs::Visited::leaf_before, crate::proofs::Visited::wrong_before))]
pub(crate) fn wrong_link(visits: &IndexMap<Oid, Pointer>) -> Option<Oid>
    ensures { result ≡ wrong_link visits.now.entries }
{
    let mut leaf = None;
    let mut first = None;
    let mut next = None;
    let mut place = visits.len();
    while place > 0 {
        place -= 1;
        if let Some((oid, pointer)) = visits.get_index(place) {
            first = first_wrong(*oid, pointer, &leaf, first);
            next = next_wrong(*oid, pointer, &leaf, next);
            leaf = leaf_or(*oid, *pointer, leaf);
        }
    }
    match first {
        Some(oid) => Some(oid),
        None => next,
    }
}
