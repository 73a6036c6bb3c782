//! What a reader keeps of nodes.

ghost use Rattle.std.specs.Prelude.{◌≡◌, IfOk, MatchOption, Some, None, slice_get};
ghost use Rattle.pickle_reading.specs.Steps.{Keeping, IsAdded};

use crate::state::{Extent, NodeTable, Stack};
use pickle_ops::Token;
use std::alloc::{AllocError, Global};

/// What is kept of a node: the node itself, or what references depend on in it.
pub trait Kept: Drop {
    /// What is kept of values that a token takes from the stack.
    type Values: Drop;
    /// What is kept of an addition to a node.
    type Addition: Drop;

    ghost keeping: { Keeping Self Self.Values Self.Addition };

    /// Of the node that a token with these bytes makes by itself, or `None` where it is one that doesn't.
    fn leaf(alloc: Global, token: Token, bytes: &[u8]) -> Result<Option<Self>, AllocError>
        ensures { IfOk result (λ node. node ≡ keeping.leaf token.op token.number bytes.now) };

    /// Of the values of an extent, which are taken, or `None` where there are too few.
    fn taken(
        alloc: Global,
        stack: &mut Stack,
        extent: Extent,
    ) -> Result<Option<Self::Values>, AllocError>
        ensures { IfOk result (λ taken. MatchOption taken (keeping.taken extent stack.old ≡ None)
            (λ values. keeping.taken extent stack.old ≡ Some (values, stack.new))) };

    /// Of a tuple of these values.
    fn tuple(nodes: &NodeTable<Self>, values: Self::Values) -> Self
        ensures { result ≡ keeping.tuple nodes.now values };

    /// Of these values as items.
    fn values(values: Self::Values) -> Self::Addition
        ensures { result ≡ keeping.values values };

    /// Of these values as keys and values, or `None` where one is left over.
    fn pairs(alloc: Global, values: Self::Values) -> Result<Option<Self::Addition>, AllocError>
        ensures { IfOk result (λ pairs. pairs ≡ keeping.pairs values) };

    /// Of a state.
    fn state(number: u32) -> Self::Addition
        ensures { result ≡ keeping.state number };

    /// Adds to the node of a number, or answers `false` where there is none or it takes no addition
    /// of that kind.
    fn add(
        nodes: &mut NodeTable<Self>,
        number: u32,
        addition: Self::Addition,
    ) -> Result<bool, AllocError>
        ensures { IfOk result (λ is. IsAdded is nodes.old number
            (keeping.added addition (slice_get nodes.old number)) nodes.new) };

    /// Whether the node of a number is a tuple.
    fn is_tuple(nodes: &NodeTable<Self>, number: u32) -> bool
        ensures { result ≡ keeping.is_tuple (slice_get nodes.now number) };

    /// Of an object to which nothing was done.
    fn object(alloc: Global, callee: u32, arguments: u32, by_new: bool) -> Self
        ensures { result ≡ keeping.object callee arguments by_new };

    /// Of a reference.
    fn reference(id: u32) -> Self
        ensures { result ≡ keeping.reference id };
}
