//! Writing graphs.

ghost use Rattle.std.specs.Prelude.{◌≡◌, ◌<◌, ◌+◌, ◌++◌, [], ◌∷◌, Some, length, slice_get, false, true, OnOk, IfOk, IfErr};
ghost use Rattle.pickle_writing.specs.declared.error.WriteError.TheVariants.{TooDeep};
ghost use Rattle.pickle_writing.specs.Numbers.{is_many};
ghost use Rattle.pickle_graph.specs.Parts.{object_parts_of, parts_of};
ghost use Rattle.pickle_writing.specs.Spelling.{get_text, leaf_text, put_number, parts_piece, piece_of, spelling_of, pickle_text, Writes};
ghost use Rattle.pickle_writing.specs.Writing.{with_piece, after_put, held_at, IsRootWritten};
ghost use Rattle.pickle_graph.specs.Walks.{has_walk};

mod putting;

use crate::depth::{WALK_LIMIT, measure_from};
use crate::error::WriteError;
use crate::leaf_text::{write_leaf, write_numbered};
use crate::node_map::NodeMap;
use crate::shared::is_many;
use pickle_graph::{Node, Part, Pickle, is_held, listed_parts, part_count, part_of};
pub use putting::{PutNumbers, put_numbers};
use std::alloc::{AllocError, Global};
use std::marker::Model;
use zb_ids::{ListOf, Text8};

/// The nodes that were put, each with its number. Contracts see the nodes, the newest first.
#[derive(Drop)]
pub(crate) struct Puts {
    numbers: NodeMap,
}

impl Model for Puts {
    ghost use Rattle.std.specs.Prelude.{List, ℕ, ◌≡◌};
    ghost use Rattle.pickle_writing.specs.Numbers.{numbered, nodes_of};

    ghost Value = { List ℕ };

    ghost view = { λ puts. nodes_of puts.numbers };

    ghost invariant = { λ puts. puts.numbers ≡ numbered (nodes_of puts.numbers) };
}

impl Puts {
    /// No puts, in a graph of so many nodes.
    fn new(alloc: Global, nodes: usize) -> Puts
        ensures { result ≡ [] }
    {
        Puts {
            numbers: NodeMap::new(alloc, nodes),
        }
    }

    /// How many nodes were put.
    #[tactic(auto, using(crate::proofs::Pieces::nodes_length))]
    fn len(&self) -> u64
        ensures { result ≡ length self.now }
    {
        self.numbers.len() as u64
    }

    /// The number under which a node was put.
    #[tactic(auto, using(crate::proofs::Pieces::numbered_place))]
    fn number(&self, node: u32) -> Option<u64>
        ensures { result ≡ put_number node self.now }
    {
        self.numbers.get(node)
    }

    /// Puts one more node. Where there is no memory, none is left.
    #[tactic(auto, using(crate::proofs::Pieces::nodes_length))]
    fn push(&mut self, node: u32) -> Result<(), AllocError>
        ensures { OnOk result (self.new ≡ node ∷ self.old) }
    {
        let number = self.numbers.len() as u64;
        self.numbers.push(node, number)
    }
}

/// What is written so far, and which nodes were put.
#[derive(Drop)]
pub(crate) struct Writing {
    pub text: Text8,
    pub puts: Puts,
}

/// Writes a get of a node that was put under a number.
fn write_get(writing: &mut Writing, number: u64) -> Result<(), AllocError>
    ensures { OnOk result (writing.new ≡ record writing.old { text = writing.old.text ++ get_text number }) }
{
    write_numbered(&mut writing.text, 0x68, 0x6a, number)
}

/// Writes a put of a node, if it is shared.
#[inline(always)]
fn write_put(writing: &mut Writing, node: u32, shared: bool) -> Result<(), AllocError>
    ensures { OnOk result (writing.new ≡ after_put shared node writing.old) }
{
    if !shared {
        return Ok(());
    }
    let number = writing.puts.len();
    write_numbered(&mut writing.text, 0x71, 0x72, number)?;
    writing.puts.push(node)
}

/// Writes the parts of a node, one behind the other.
#[cycle(writing)]
fn write_parts(
    alloc: Global,
    writing: &mut Writing,
    nodes: &ListOf<Node>,
    counts: &NodeMap,
    node: &Node,
    listed: &[Part],
    levels: u32,
) -> Result<(), AllocError>
    requires { listed.now ≡ object_parts_of node.now }
    ensures { OnOk result (writing.new ≡ with_piece writing.old (parts_piece (piece_of levels nodes.now (is_many counts.now)) (parts_of node.now) writing.old.puts)) }
{
    for index in 0..part_count(node, listed) {
        match part_of(node, listed, index) {
            Part::Byte(byte) => writing.text.push(byte)?,
            Part::Item(item) => write_node(alloc, writing, nodes, counts, item, levels)?,
        }
    }
    Ok(())
}

/// Writes a node with items: a get where it was put, else its text, and a put where it is shared.
#[cycle(writing)]
fn write_held(
    alloc: Global,
    writing: &mut Writing,
    nodes: &ListOf<Node>,
    counts: &NodeMap,
    node: u32,
    found: &Node,
    levels: u32,
) -> Result<(), AllocError>
    requires { slice_get nodes.now node ≡ Some found.now }
    ensures { OnOk result (writing.new ≡ with_piece writing.old (held_at levels nodes.now (is_many counts.now) node writing.old.puts)) }
{
    match writing.puts.number(node) {
        Some(number) => write_get(writing, number),
        None => {
            let listed = listed_parts(alloc, found)?;
            write_parts(
                alloc,
                writing,
                nodes,
                counts,
                found,
                listed.as_slice(),
                levels,
            )?;
            write_put(writing, node, is_many(counts, node))
        }
    }
}

/// Writes a node from which each walk has fewer edges than there are levels.
#[cycle(writing)]
#[tactic(auto, unfolding(crate::specs::Spelling::piece_of))]
fn write_node(
    alloc: Global,
    writing: &mut Writing,
    nodes: &ListOf<Node>,
    counts: &NodeMap,
    node: u32,
    levels: u32,
) -> Result<(), AllocError>
    ensures { OnOk result (writing.new ≡ with_piece writing.old (piece_of levels nodes.now (is_many counts.now) node writing.old.puts)) }
{
    if levels == 0 {
        return Ok(());
    }
    match nodes.get(node as usize) {
        None => Ok(()),
        Some(found) => {
            if is_held(found) {
                return write_held(alloc, writing, nodes, counts, node, found, levels - 1);
            }
            write_leaf(&mut writing.text, found)
        }
    }
}

/// Writes a node as the root of a graph.
#[tactic(auto, using(crate::proofs::Pieces::root_written))]
fn write_root(alloc: Global, nodes: &ListOf<Node>, root: u32) -> Result<Writing, WriteError>
    ensures ok { IfOk result (λ all. IsRootWritten nodes.now root all) }
    ensures err { IfErr result (λ e. e ≡ TooDeep → has_walk (WALK_LIMIT + 1) nodes.now root ≡ true) }
{
    let counts = measure_from(alloc, nodes, root)?;
    let mut writing = Writing {
        text: Text8::new(alloc),
        puts: Puts::new(alloc, nodes.len()),
    };
    write_node(alloc, &mut writing, nodes, &counts, root, WALK_LIMIT + 1)?;
    Ok(writing)
}

/// The spelling of a leaf or an empty tuple, which is the same in each graph. Want of memory is the one
/// error.
pub fn leaf_spelling(alloc: Global, node: &Node) -> Result<Text8, AllocError>
    ensures { IfOk result (λ text. text ≡ leaf_text node.now) }
{
    let mut text = Text8::new(alloc);
    write_leaf(&mut text, node)?;
    Ok(text)
}

/// The spelling of a node: what [`write_pickle`] writes for it as the root, without PROTO and STOP.
///
/// `TooDeep` is answered exactly where a walk of more than [`WALK_LIMIT`] edges starts at the node. The
/// time that it takes grows with the edges that the node reaches, not with the graph.
#[tactic(auto, using(crate::proofs::Pieces::spelled_ok, crate::proofs::Pieces::spelled_deep, crate::proofs::Pieces::leaf_spelled))]
pub fn spelling(alloc: Global, pickle: &Pickle, node: u32) -> Result<Text8, WriteError>
    requires { node < length pickle.now.nodes }
    ensures text { Writes result (spelling_of pickle.now.nodes node) }
{
    let nodes = pickle.nodes();
    if let Some(leaf) = nodes.get(node as usize) {
        if !is_held(leaf) {
            let text = leaf_spelling(alloc, leaf)?;
            return Ok(text);
        }
    }
    let writing = write_root(alloc, nodes, node)?;
    Ok(writing.text)
}

/// Whether a graph can be written: `TooDeep` is answered exactly where [`write_pickle`] answers it. Want of
/// memory answers `Memory`.
pub fn check_depth(alloc: Global, pickle: &Pickle) -> Result<(), WriteError>
    ensures ok { OnOk result (has_walk (WALK_LIMIT + 1) pickle.now.nodes pickle.now.root ≡ false) }
    ensures err { IfErr result
        (λ e. e ≡ TooDeep → has_walk (WALK_LIMIT + 1) pickle.now.nodes pickle.now.root ≡ true) }
{
    measure_from(alloc, pickle.nodes(), pickle.root())?;
    Ok(())
}

/// The text of a graph: PROTO 3, the text of the root, and STOP. Reading it gives the same graph.
///
/// A node with items to which more than one edge leads is put in the memo, behind its text, and stands
/// as a get at each later place; the root counts as having one edge more, and only nodes that the root
/// reaches count. Leaves and empty tuples are written once for each edge. Numbers stand in their shortest
/// form.
///
/// `TooDeep` is answered exactly where a walk of more than [`WALK_LIMIT`] edges starts at the root, as in
/// each cyclic graph. Want of memory answers `Memory`.
pub fn write_pickle(alloc: Global, pickle: &Pickle) -> Result<Text8, WriteError>
    ensures text { Writes result (pickle_text pickle.now) }
{
    let spelled = spelling(alloc, pickle, pickle.root())?;
    let mut text = Text8::from_slice(alloc, &[0x80, 3])?;
    text.extend_from_slice(spelled.as_slice())?;
    text.push(0x2e)?;
    Ok(text)
}
