//! The classes that have a rule of merging.

ghost use Rattle.std.specs.Prelude.{◌≡◌, slice_get, IfSome};
ghost use Rattle.std.specs.Option.{option_copied, option_map};
ghost use Rattle.zb_resolve.specs.Classes.{rule_seen, rule_named, first_node, class_node, rule_of, is_class_of, IsGlobalRule};
ghost use Rattle.zb_resolve.specs.Classes;

use btree_family::{ClassRow, row_of};
use pickle_graph::{Node, Pickle};

/// What the objects of a class are merged by.
#[derive(Clone, Copy, Debug)]
pub(crate) enum Rule {
    /// As those of a class of BTrees.
    Family(&'static ClassRow),
    /// As counters.
    Counter,
}

/// Whether this is the class of counters.
fn is_counter(module_name: &[u8], class_name: &[u8]) -> bool
    ensures { result ≡ Classes.is_counter module_name.now class_name.now }
{
    b"BTrees.Length".as_slice() == module_name && b"Length".as_slice() == class_name
}

/// The rule of the class that is known by a module and a name, if it has one.
fn rule_named(module_name: &[u8], class_name: &[u8]) -> Option<Rule>
    ensures rule { option_map rule_seen result ≡ rule_named module_name.now class_name.now }
    ensures global { IfSome result (λ rule. IsGlobalRule rule) }
{
    if is_counter(module_name, class_name) {
        return Some(Rule::Counter);
    }
    match row_of(module_name, class_name) {
        Some(row) => Some(Rule::Family(row)),
        None => None,
    }
}

/// Whether the class of a rule is known by this module and this name.
fn is_named(rule: Rule, module_name: &[u8], class_name: &[u8]) -> bool
    ensures { result ≡ Classes.is_named (rule_seen rule) module_name.now class_name.now }
{
    match rule {
        Rule::Family(row) => {
            row.module.as_bytes() == module_name && row.name.as_bytes() == class_name
        }
        Rule::Counter => is_counter(module_name, class_name),
    }
}

/// The first item of a tuple, where it has one.
fn first_of<'a>(nodes: &'a [Node], items: &[u32]) -> Option<&'a Node>
    ensures { option_copied result ≡ first_node nodes.now items.now }
{
    match items {
        [] => None,
        [first, ..] => nodes.get(*first as usize),
    }
}

/// The node that names the class: the root, or the first item where the root is a tuple.
fn naming_node(class: &Pickle) -> Option<&Node>
    ensures { option_copied result ≡ class_node class.now }
{
    let nodes = class.nodes().as_slice();
    match nodes.get(class.root() as usize) {
        Some(Node::Tuple(items)) => first_of(nodes, items.as_slice()),
        node => node,
    }
}

/// The rule of a record's class, if it has one.
pub(crate) fn rule_of(class: &Pickle) -> Option<Rule>
    ensures rule { option_map rule_seen result ≡ rule_of class.now }
    ensures global { IfSome result (λ rule. IsGlobalRule rule) }
{
    match naming_node(class) {
        Some(Node::Global { module, name }) => rule_named(module.as_slice(), name.as_slice()),
        _ => None,
    }
}

/// Whether a record's class is that of a rule.
pub(crate) fn is_class_of(rule: Rule, class: &Pickle) -> bool
    ensures { result ≡ is_class_of (rule_seen rule) class.now }
{
    match naming_node(class) {
        Some(Node::Global { module, name }) => is_named(rule, module.as_slice(), name.as_slice()),
        _ => false,
    }
}
