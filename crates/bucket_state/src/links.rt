//! Tuples, and references to other objects.

ghost use Rattle.std.specs.Prelude.{◌≡◌, slice_get, Some, []};
ghost use Rattle.std.specs.Option.{option_copied};
ghost use Rattle.pickle_references.specs.References.{oid_in, oid_of, named_first, named_by};
ghost use Rattle.pickle_references.specs.Named.{with_name};
ghost use Rattle.bucket_state.specs.States.{one_oid, link_at, members_at};

use byteorder::{BigEndian, ByteOrder};
use pickle_graph::Node;
use zb_ids::Oid;

/// The items of the tuple that the node of a number is. It is `None` for other nodes.
pub(crate) fn tuple(nodes: &[Node], number: u32) -> Option<&[u32]>
    ensures { option_copied result ≡ members_at nodes.now number }
{
    match nodes.get(number as usize) {
        Some(Node::Tuple(items)) => Some(items.as_slice()),
        _ => None,
    }
}

/// The oid that eight bytes are.
fn oid_of_bytes(bytes: &[u8]) -> Option<Oid>
    ensures { result ≡ one_oid (with_name (oid_in bytes.now) (Some [])) }
{
    if bytes.len() == 8 {
        return Some(Oid(BigEndian::read_u64(bytes)));
    }
    None
}

/// The oid that the node of a number is.
fn oid_at(nodes: &[Node], number: u32) -> Option<Oid>
    ensures { result ≡ one_oid (with_name (oid_of (slice_get nodes.now number)) (Some [])) }
{
    match nodes.get(number as usize) {
        Some(Node::Bytes(bytes)) => oid_of_bytes(bytes.as_slice()),
        Some(Node::OldText(bytes)) => oid_of_bytes(bytes.as_slice()),
        _ => None,
    }
}

/// The oid that the first of these items is.
fn first_oid(nodes: &[Node], items: &[u32]) -> Option<Oid>
    ensures { result ≡ one_oid (with_name (named_first nodes.now items.now) (Some [])) }
{
    match items {
        [] => None,
        [first, ..] => oid_at(nodes, *first),
    }
}

/// The oid that the node of a number names as a persistent id, where it is followed.
fn named_oid(nodes: &[Node], number: u32) -> Option<Oid>
    ensures { result ≡ one_oid (with_name (named_by nodes.now (slice_get nodes.now number)) (Some [])) }
{
    match nodes.get(number as usize) {
        Some(Node::Tuple(items)) => first_oid(nodes, items.as_slice()),
        Some(Node::List(_)) => None,
        _ => oid_at(nodes, number),
    }
}

/// The oid of the reference that the node of a number is. It is `None` for other nodes, and for weak and
/// foreign references.
pub(crate) fn link(nodes: &[Node], number: u32) -> Option<Oid>
    ensures { result ≡ link_at nodes.now number }
{
    match nodes.get(number as usize) {
        Some(Node::Reference(id)) => named_oid(nodes, *id),
        _ => None,
    }
}
