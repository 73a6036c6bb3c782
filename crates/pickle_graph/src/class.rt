//! What may be the class of a record.

ghost use Rattle.std.specs.Prelude.{◌≡◌, slice_get};
ghost use Rattle.pickle_graph.specs.Class.{is_global, begins_with_global, is_class};

use crate::node::Node;
use crate::pickle::Pickle;

/// Whether the node of a number is a global.
fn is_global(nodes: &[Node], number: u32) -> bool
    ensures { result ≡ is_global (slice_get nodes.now number) }
{
    match nodes.get(number as usize) {
        Some(Node::Global { .. }) => true,
        _ => false,
    }
}

/// Whether the first of these items is a global.
fn begins_with_global(nodes: &[Node], items: &[u32]) -> bool
    ensures { result ≡ begins_with_global nodes.now items.now }
{
    match items {
        [] => false,
        [first, ..] => is_global(nodes, *first),
    }
}

/// Whether a graph may be the class of a record: a global, or a tuple that begins with one.
pub fn is_class(pickle: &Pickle) -> bool
    ensures { result ≡ is_class pickle.now }
{
    let nodes = pickle.nodes().as_slice();
    match nodes.get(pickle.root() as usize) {
        Some(Node::Tuple(items)) => begins_with_global(nodes, items.as_slice()),
        _ => is_global(nodes, pickle.root()),
    }
}
