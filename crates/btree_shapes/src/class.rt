//! The classes of records.

ghost use Rattle.std.specs.Prelude.{◌≡◌, IfSome};
ghost use Rattle.std.specs.Option.{option_copied, option_map};
ghost use Rattle.pickle_graph.specs.Graph.{IsGlobal};
ghost use Rattle.btree_family.specs.Classes.{class_seen};
ghost use Rattle.btree_shapes.specs.Classes.{first_node, class_node, class_named};
ghost use Rattle.btree_shapes.specs.Classes;

use btree_family::{ClassRow, row_of};
use pickle_graph::{Node, Pickle};

/// The first item of a tuple, where it has one.
fn first_of<'a>(nodes: &'a [Node], items: &[u32]) -> Option<&'a Node>
    ensures { option_copied result ≡ first_node nodes.now items.now }
{
    match items {
        [] => None,
        [first, ..] => nodes.get(*first as usize),
    }
}

/// The node that names the class: the root, or the first item where the root is a tuple.
fn naming_node(class: &Pickle) -> Option<&Node>
    ensures { option_copied result ≡ class_node class.now }
{
    let nodes = class.nodes().as_slice();
    match nodes.get(class.root() as usize) {
        Some(Node::Tuple(items)) => first_of(nodes, items.as_slice()),
        node => node,
    }
}

/// The class of BTrees that a record's class is, if it is one.
pub fn class_of(class: &Pickle) -> Option<&'static ClassRow>
    ensures row { option_map class_seen (option_copied result) ≡ class_named class.now }
    ensures global { IfSome result (λ row. IsGlobal row.now.module.now row.now.name.now) }
{
    match naming_node(class) {
        Some(Node::Global { module, name }) => row_of(module.as_slice(), name.as_slice()),
        _ => None,
    }
}

/// Whether a record's class is this one.
pub fn is_class_of(row: &ClassRow, class: &Pickle) -> bool
    ensures { result ≡ Classes.is_class_of (class_seen row.now) class.now }
{
    match naming_node(class) {
        Some(Node::Global { module, name }) => {
            row.module.as_bytes() == module.as_slice() && row.name.as_bytes() == name.as_slice()
        }
        _ => false,
    }
}
