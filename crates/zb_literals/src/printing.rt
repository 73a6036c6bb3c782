//! Literals of graphs.

ghost use Rattle.std.specs.Prelude.{◌≡◌, ◌<◌, ◌+◌, [], ◌∷◌, ◌++◌, length, slice_get, codes, decimal, is_some, IfOk, OnOk, None};
ghost use Rattle.std.specs.Fmt.{signed_decimal};
ghost use Rattle.zb_ids.specs.Hex.{hex_text};
ghost use Rattle.pickle_writing.specs.Numbers.{number_of};
ghost use Rattle.pickle_writing.specs.Spelling.{put_number, Writes};
ghost use Rattle.pickle_writing.specs.declared.depth.TheConstants.{WALK_LIMIT};
ghost use Rattle.zb_literals.specs.Printing.{behind_print, behind_text, first_print, id_short, leaf_print, literal_of, literal_parts, marked_print, parts_print, print_of, printed, reference_parts, text_behind};

use crate::hexadecimal::push_digits;
use crate::node_map::NodeMap;
use crate::parts::{Part, dict, list, object, push_short, reference, tuple};
use crate::texts::{push_bytes, push_global, push_text};
use itoa::Buffer;
use pickle_graph::{Node, Pickle};
use pickle_writing::{PutNumbers, WALK_LIMIT, WriteError, put_numbers};
use std::alloc::{AllocError, Global};
use zb_ids::{ListOf, Text8};

/// What is printed so far, and the put nodes that stand already, each with its number.
#[derive(Drop)]
pub(crate) struct Printing {
    pub text: Text8,
    pub stood: NodeMap,
}

/// Puts a number in decimal digits at the end.
fn push_number(out: &mut Vec<u8>, number: i128) -> Result<(), AllocError>
    ensures { OnOk result (out.new.items ≡ out.old.items ++ signed_decimal number) }
{
    let mut buffer = Buffer::new();
    out.extend_from_slice(buffer.format(number).as_bytes())
}

/// Puts a count in decimal digits at the end.
fn push_count(text: &mut Text8, count: u64) -> Result<(), AllocError>
    ensures { OnOk result (text.new ≡ text.old ++ decimal count) }
{
    let mut buffer = Buffer::new();
    text.extend_from_slice(buffer.format(count).as_bytes())
}

/// Puts two letters and the digits of bytes at the end.
fn push_kind(out: &mut Vec<u8>, kind: &[u8], bytes: &[u8]) -> Result<(), AllocError>
    ensures { OnOk result (out.new.items ≡ out.old.items ++ (kind.now ++ hex_text bytes.now)) }
{
    out.extend_from_slice(kind)?;
    push_digits(out, bytes)
}

/// Puts the literal of a node without items at the end and answers `true`, or puts nothing and
/// answers `false` for a node that may have some.
fn push_leaf(out: &mut Vec<u8>, node: &Node) -> Result<bool, AllocError>
    ensures leaf { IfOk result (λ leaf. leaf ≡ is_some (leaf_print node.now)) }
    ensures text { OnOk result (out.new.items ≡ text_behind out.old.items (leaf_print node.now)) }
{
    match node {
        Node::None => out.extend_from_slice(b"None")?,
        Node::Bool(true) => out.extend_from_slice(b"True")?,
        Node::Bool(false) => out.extend_from_slice(b"False")?,
        Node::Number(number) => push_number(out, *number)?,
        Node::Wide(bytes) => push_kind(out, b"n:", bytes.as_slice())?,
        Node::Float(bytes) => push_kind(out, b"f:", bytes.as_slice())?,
        Node::Bytes(bytes) => push_bytes(out, bytes.as_slice())?,
        Node::OldText(bytes) => push_kind(out, b"s:", bytes.as_slice())?,
        Node::Text(text) => push_text(out, text.as_slice())?,
        Node::Global { module, name } => {
            push_global(out, module.as_slice(), name.as_slice())?;
        }
        _ => return Ok(false),
    }
    Ok(true)
}

/// Prints parts, one behind the other.
#[cycle(printing)]
fn print_parts(
    alloc: Global,
    mut printing: Printing,
    nodes: &ListOf<Node>,
    puts: &PutNumbers,
    parts: &[Part],
    levels: u32,
) -> Result<Printing, AllocError>
    ensures { IfOk result (λ all. all ≡ behind_print printing (parts_print (print_of levels nodes.now puts.now) parts.now printing.stood)) }
{
    for part in parts {
        match part {
            Part::Byte(byte) => printing.text.push(*byte)?,
            Part::Item(item) => {
                printing = print_node(alloc, printing, nodes, puts, *item, levels)?;
            }
        }
    }
    Ok(printing)
}

/// Prints a reference: the short form of its id, if it has one, else its parts.
#[cycle(printing)]
fn print_reference(
    alloc: Global,
    printing: Printing,
    nodes: &ListOf<Node>,
    puts: &PutNumbers,
    id: u32,
    levels: u32,
) -> Result<Printing, AllocError>
    ensures { IfOk result (λ all. all ≡ behind_print printing (parts_print (print_of levels nodes.now puts.now) (reference_parts (id_short nodes.now (put_number id puts.now) (slice_get nodes.now id)) id) printing.stood)) }
{
    let Printing { text, stood } = printing;
    let mut out = text.into_vec();
    let short = push_short(&mut out, nodes, puts.number(id), id)?;
    let text = Text8::from_vec(out);
    let behind = Printing { text, stood };
    if short {
        return Ok(behind);
    }
    let parts = reference(alloc, id)?;
    print_parts(alloc, behind, nodes, puts, parts.as_slice(), levels)
}

/// Prints a node with items, whether it is put or not.
#[cycle(printing)]
fn print_whole(
    alloc: Global,
    printing: Printing,
    nodes: &ListOf<Node>,
    puts: &PutNumbers,
    found: &Node,
    levels: u32,
) -> Result<Printing, AllocError>
    ensures { IfOk result (λ all. all ≡ behind_print printing (parts_print (print_of levels nodes.now puts.now) (literal_parts nodes.now puts.now found.now) printing.stood)) }
{
    match found {
        Node::Tuple(items) => {
            let parts = tuple(alloc, items.as_slice())?;
            print_parts(alloc, printing, nodes, puts, parts.as_slice(), levels)
        }
        Node::List(items) => {
            let parts = list(alloc, items.as_slice())?;
            print_parts(alloc, printing, nodes, puts, parts.as_slice(), levels)
        }
        Node::Dict(pairs) => {
            let parts = dict(alloc, pairs.as_slice())?;
            print_parts(alloc, printing, nodes, puts, parts.as_slice(), levels)
        }
        Node::Reference(id) => print_reference(alloc, printing, nodes, puts, *id, levels),
        Node::Object {
            callee,
            arguments,
            by_new,
            acts,
        } => {
            let parts = object(alloc, *callee, *arguments, *by_new, acts.as_slice())?;
            print_parts(alloc, printing, nodes, puts, parts.as_slice(), levels)
        }
        _ => Ok(printing),
    }
}

/// Prints the parts of a node, with a mark before them if it is put.
#[cycle(printing)]
fn print_first(
    alloc: Global,
    printing: Printing,
    nodes: &ListOf<Node>,
    puts: &PutNumbers,
    node: u32,
    found: &Node,
    levels: u32,
) -> Result<Printing, AllocError>
    ensures { IfOk result (λ all. all ≡ behind_print printing (first_print (put_number node puts.now) node printing.stood (parts_print (print_of levels nodes.now puts.now) (literal_parts nodes.now puts.now found.now)))) }
{
    match puts.number(node) {
        None => print_whole(alloc, printing, nodes, puts, found, levels),
        Some(number) => {
            let Printing { mut text, stood } = printing;
            text.push(b'&')?;
            push_count(&mut text, number)?;
            text.push(b'=')?;
            let stood = stood.with(node, number)?;
            let marked = Printing { text, stood };
            print_whole(alloc, marked, nodes, puts, found, levels)
        }
    }
}

/// Prints a node that may have items: its number where it stands already, else its parts.
#[cycle(printing)]
fn print_marked(
    alloc: Global,
    printing: Printing,
    nodes: &ListOf<Node>,
    puts: &PutNumbers,
    node: u32,
    found: &Node,
    levels: u32,
) -> Result<Printing, AllocError>
    ensures { IfOk result (λ all. all ≡ behind_print printing (marked_print (number_of node printing.stood) (put_number node puts.now) node printing.stood (parts_print (print_of levels nodes.now puts.now) (literal_parts nodes.now puts.now found.now)))) }
{
    match printing.stood.get(node) {
        Some(number) => {
            let Printing { mut text, stood } = printing;
            text.push(b'*')?;
            push_count(&mut text, number)?;
            Ok(Printing { text, stood })
        }
        None => print_first(alloc, printing, nodes, puts, node, found, levels),
    }
}

/// Prints a node from which each walk has fewer edges than there are levels.
#[cycle(printing)]
#[tactic(auto, unfolding(crate::specs::Printing::print_of))]
fn print_node(
    alloc: Global,
    printing: Printing,
    nodes: &ListOf<Node>,
    puts: &PutNumbers,
    node: u32,
    levels: u32,
) -> Result<Printing, AllocError>
    ensures { IfOk result (λ all. all ≡ behind_print printing (print_of levels nodes.now puts.now node printing.stood)) }
{
    if levels == 0 {
        return Ok(printing);
    }
    match nodes.get(node as usize) {
        None => Ok(printing),
        Some(found) => {
            let Printing { text, stood } = printing;
            let mut out = text.into_vec();
            let leaf = push_leaf(&mut out, found)?;
            let text = Text8::from_vec(out);
            let behind = Printing { text, stood };
            if leaf {
                return Ok(behind);
            }
            print_marked(alloc, behind, nodes, puts, node, found, levels - 1)
        }
    }
}

/// The literal of a node as root.
///
/// A node that [`spelling`](pickle_writing::spelling) of the same node puts in the memo has `&k=` before it at
/// its first place and stands as `*k` later, where k is the number of its put. An object stands within
/// `[[` and `]]`. `TooDeep` is answered exactly where the spelling is.
pub fn node_literal(alloc: Global, pickle: &Pickle, node: u32) -> Result<Text8, WriteError>
    requires { node < length pickle.now.nodes }
    ensures text { Writes result (literal_of pickle.now.nodes node) }
{
    let puts = put_numbers(alloc, pickle, node)?;
    let empty = Printing {
        text: Text8::new(alloc),
        stood: NodeMap::new(alloc),
    };
    let printing = print_node(alloc, empty, pickle.nodes(), &puts, node, WALK_LIMIT + 1)?;
    Ok(printing.text)
}

/// The literal of a graph: that of its root.
pub fn write_literal(alloc: Global, pickle: &Pickle) -> Result<Text8, WriteError>
    ensures text { Writes result (literal_of pickle.now.nodes pickle.now.root) }
{
    node_literal(alloc, pickle, pickle.root())
}

/// A text with the literal of a graph behind it, of which the put nodes are known.
pub(crate) fn print_behind(
    alloc: Global,
    text: Text8,
    pickle: &Pickle,
    puts: &PutNumbers,
) -> Result<Text8, AllocError>
    ensures { IfOk result (λ all. all ≡ text ++ (print_of (WALK_LIMIT + 1) pickle.now.nodes puts.now pickle.now.root []).text) }
{
    let before = Printing {
        text,
        stood: NodeMap::new(alloc),
    };
    let root = pickle.root();
    let printing = print_node(alloc, before, pickle.nodes(), puts, root, WALK_LIMIT + 1)?;
    Ok(printing.text)
}

/// A text with the literal of a graph behind it: that of its root.
pub(crate) fn literal_behind(
    alloc: Global,
    text: Text8,
    pickle: &Pickle,
) -> Result<Text8, WriteError>
    ensures { Writes result (behind_text text (literal_of pickle.now.nodes pickle.now.root)) }
{
    let puts = put_numbers(alloc, pickle, pickle.root())?;
    Ok(print_behind(alloc, text, pickle, &puts)?)
}
