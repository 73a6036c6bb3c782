//! Writing the states of buckets and sets.

ghost use Rattle.std.specs.Prelude.{◌≡◌, ◌++◌, [], ◌∷◌, IfOk};
ghost use Rattle.pickle_graph.specs.Graph.{IsGlobal, IsGraph};
ghost use Rattle.btree_family.specs.Buckets.{keys_of};
ghost use Rattle.btree_family.specs.Classes.{class_seen};
ghost use Rattle.bucket_state.specs.Trees.{separators_of};
ghost use Rattle.bucket_state.specs.Written.{key_graph, key_text, value_graph, link_graph, with_value, item_graphs, laid_all, tuple_graph, next_graphs, bucket_graph, none_graph, embedded_graph, child_graphs, inner_graph};
ghost use Rattle.bucket_state.specs.Writable.{IsWritable, AreWritable};

use crate::flat::with_key;
use crate::laying::Side;
use crate::tree::{Branch, Inner};
use btree_family::{Bucket, ClassRow, Item, Key};
use byteorder::{BigEndian, ByteOrder};
use pickle_graph::{Node, Pickle};
use pickle_reading::read_pickle;
use std::alloc::{AllocError, Global};
use zb_ids::{ListOf, Oid, Text8};

/// The node that a key is.
fn key_pickle(alloc: Global, key: &Key) -> Result<Pickle, AllocError>
    requires { IsWritable key.now }
    ensures { IfOk result (λ graph. graph ≡ key_graph key.now) }
{
    let node = match key {
        Key::Text(text) => Node::Text(text.clone()?),
        Key::Bytes(bytes) => Node::Bytes(bytes.clone()?),
        Key::Number(number) => Node::Number(*number),
    };
    let mut nodes = Vec::new(alloc);
    nodes.push(node)?;
    Ok(Pickle::new(ListOf::from_vec(nodes), 0))
}

/// The spelling of a key, as a node of its own. Want of memory is the one error.
pub fn key_spelling(alloc: Global, key: &Key) -> Result<Text8, AllocError>
    requires { IsWritable key.now }
    ensures { IfOk result (λ text. text ≡ key_text key.now) }
{
    with_key(alloc, Text8::new(alloc), key)
}

/// The graph that a spelling is read as. One of more nodes than a pickle may have is refused as want of memory.
#[tactic(auto, unfolding(crate::specs::Written::value_graph))]
fn value_pickle(alloc: Global, text: &Text8) -> Result<Pickle, AllocError>
    ensures { IfOk result (λ graph. graph ≡ value_graph text.now) }
{
    let mut bytes = Text8::from_slice(alloc, &[0x80, 3])?;
    bytes.extend_from_slice(text.as_slice())?;
    bytes.push(0x2e)?;
    match read_pickle(alloc, bytes.as_slice(), 0) {
        Ok((pickle, _)) => Ok(pickle),
        Err(_) => Err(AllocError),
    }
}

/// A reference to an object: its oid and its class.
#[tactic(auto, unfolding(crate::specs::Written::link_graph))]
fn link_pickle(
    alloc: Global,
    oid: Oid,
    module_name: &[u8],
    class_name: &[u8],
) -> Result<Pickle, AllocError>
    requires { IsGlobal module_name.now class_name.now }
    ensures { IfOk result (λ graph. graph ≡ link_graph oid module_name.now class_name.now) }
{
    let mut bytes = [0; 8];
    BigEndian::write_u64(&mut bytes, oid.0);
    let mut nodes = Vec::new(alloc);
    nodes.push(Node::Bytes(Text8::from_slice(alloc, &bytes)?))?;
    let module = Text8::from_slice(alloc, module_name)?;
    let name = Text8::from_slice(alloc, class_name)?;
    nodes.push(Node::Global { module, name })?;
    let id = Vec::from_slice(alloc, &[0, 1])?;
    nodes.push(Node::Tuple(ListOf::from_vec(id)))?;
    nodes.push(Node::Reference(2))?;
    Ok(Pickle::new(ListOf::from_vec(nodes), 3))
}

/// The graphs, and an item's key and value behind them.
fn lay_item(alloc: Global, side: Side, item: &Item) -> Result<Side, AllocError>
    requires { IsWritable item.now.key }
    ensures { IfOk result (λ all. all ≡ laid_all side (key_graph item.now.key ∷ with_value item.now.value [])) }
{
    let side = side.lay(alloc, &key_pickle(alloc, &item.key)?)?;
    match &item.value {
        None => Ok(side),
        Some(text) => side.lay(alloc, &value_pickle(alloc, text)?),
    }
}

/// The tuple of keys and values.
fn items_pickle(alloc: Global, items: &[Item]) -> Result<Pickle, AllocError>
    requires { AreWritable (keys_of items.now) }
    ensures { IfOk result (λ graph. graph ≡ tuple_graph (item_graphs items.now)) }
{
    let mut side = Side::new(alloc);
    for item in items {
        side = lay_item(alloc, side, item)?;
    }
    side.close()
}

/// The graphs, and behind them a link to the next bucket of a class, if there is one.
fn lay_next(
    alloc: Global,
    side: Side,
    row: &ClassRow,
    next: Option<Oid>,
) -> Result<Side, AllocError>
    requires { IsGlobal row.now.module.now row.now.name.now }
    ensures { IfOk result (λ all. all ≡ laid_all side (next_graphs (class_seen row.now) next)) }
{
    match next {
        None => Ok(side),
        Some(oid) => {
            let link = link_pickle(alloc, oid, row.module.as_bytes(), row.name.as_bytes())?;
            let all = side.lay(alloc, &link)?;
            Ok(all)
        }
    }
}

/// The state of a bucket or a set, of the class that the row is: [`read_bucket`](crate::read_bucket) reads it as
/// the same bucket.
///
/// Each key, each value and the link stand apart in it, so a node that two values shared stands twice, and where
/// it is written each has its own spelling, with its puts counted on from those before. A reference to the next
/// bucket names the class of the row. Want of memory is the one error; a value of more nodes than a pickle may
/// have is refused so, too.
pub fn write_bucket(alloc: Global, bucket: &Bucket, row: &ClassRow) -> Result<Pickle, AllocError>
    requires keys { AreWritable (keys_of bucket.now.items) }
    requires class { IsGlobal row.now.module.now row.now.name.now }
    ensures state { IfOk result (λ graph. graph ≡ bucket_graph (class_seen row.now) bucket.now) }
    ensures graph { IfOk result (λ graph. IsGraph graph.nodes graph.root) }
{
    let items = items_pickle(alloc, bucket.items().as_slice())?;
    let side = Side::new(alloc).lay(alloc, &items)?;
    lay_next(alloc, side, row, bucket.next())?.close()
}

/// The tuple of one graph.
fn lone_tuple(alloc: Global, graph: &Pickle) -> Result<Pickle, AllocError>
    ensures { IfOk result (λ all. all ≡ tuple_graph (graph.now ∷ [])) }
{
    Side::new(alloc).lay(alloc, graph)?.close()
}

/// The pickle of None.
fn none_pickle(alloc: Global) -> Result<Pickle, AllocError>
    ensures { IfOk result (λ graph. graph ≡ none_graph) }
{
    let mut nodes = Vec::new(alloc);
    nodes.push(Node::None)?;
    Ok(Pickle::new(ListOf::from_vec(nodes), 0))
}

/// The state of a tree of one leaf that is no object of its own, so that its link is not written: None where the
/// leaf has no items, else a tuple of a tuple of the leaf's state. [`read_tree`](crate::read_tree) reads it as the
/// same leaf, or as `Empty`.
///
/// Keys and values stand in it as in what [`write_bucket`] gives. Want of memory is the one error; a value of more
/// nodes than a pickle may have is refused so, too.
pub fn write_embedded(alloc: Global, leaf: &Bucket) -> Result<Pickle, AllocError>
    requires keys { AreWritable (keys_of leaf.now.items) }
    ensures state { IfOk result (λ graph. graph ≡ embedded_graph leaf.now.items) }
{
    let items = leaf.items().as_slice();
    if items.is_empty() {
        return none_pickle(alloc);
    }
    let state = lone_tuple(alloc, &items_pickle(alloc, items)?)?;
    let inner = lone_tuple(alloc, &state)?;
    lone_tuple(alloc, &inner)
}

/// The graphs, and behind them a separator with a link to the child behind it, of a class.
fn lay_branch(
    alloc: Global,
    side: Side,
    child: &ClassRow,
    branch: &Branch,
) -> Result<Side, AllocError>
    requires key { IsWritable branch.now.key }
    requires class { IsGlobal child.now.module.now child.now.name.now }
    ensures { IfOk result (λ all. all ≡ laid_all side (child_graphs (class_seen child.now) (branch.now ∷ []))) }
{
    let side = side.lay(alloc, &key_pickle(alloc, &branch.key)?)?;
    let link = link_pickle(
        alloc,
        branch.child,
        child.module.as_bytes(),
        child.name.as_bytes(),
    )?;
    let all = side.lay(alloc, &link)?;
    Ok(all)
}

/// The graphs, and behind them separators with links to the children behind them, of a class.
fn lay_branches(
    alloc: Global,
    side: Side,
    child: &ClassRow,
    branches: &[Branch],
) -> Result<Side, AllocError>
    requires keys { AreWritable (separators_of branches.now) }
    requires class { IsGlobal child.now.module.now child.now.name.now }
    ensures { IfOk result (λ all. all ≡ laid_all side (child_graphs (class_seen child.now) branches.now)) }
{
    let mut side = side;
    for branch in branches {
        side = lay_branch(alloc, side, child, branch)?;
    }
    Ok(side)
}

/// The tuple of children, with the separators between them.
fn children_pickle(alloc: Global, child: &ClassRow, inner: &Inner) -> Result<Pickle, AllocError>
    requires keys { AreWritable (separators_of inner.now.tail) }
    requires class { IsGlobal child.now.module.now child.now.name.now }
    ensures { IfOk result (λ graph. graph ≡ tuple_graph
        (link_graph inner.now.head child.now.module.now child.now.name.now
        ∷ child_graphs (class_seen child.now) inner.now.tail)) }
{
    let head = link_pickle(
        alloc,
        inner.head,
        child.module.as_bytes(),
        child.name.as_bytes(),
    )?;
    let side = Side::new(alloc).lay(alloc, &head)?;
    lay_branches(alloc, side, child, inner.tail.as_slice())?.close()
}

/// The state of a tree's object with others below it. References to its children name the one class, that to the
/// first leaf the other. [`read_tree`](crate::read_tree) reads it as the same object.
///
/// Each key and each link stands apart in it. Want of memory is the one error.
pub fn write_inner(
    alloc: Global,
    inner: &Inner,
    child: &ClassRow,
    leaf: &ClassRow,
) -> Result<Pickle, AllocError>
    requires keys { AreWritable (separators_of inner.now.tail) }
    requires child { IsGlobal child.now.module.now child.now.name.now }
    requires leaf { IsGlobal leaf.now.module.now leaf.now.name.now }
    ensures state { IfOk result
        (λ graph. graph ≡ inner_graph (class_seen child.now) (class_seen leaf.now) inner.now) }
    ensures graph { IfOk result (λ graph. IsGraph graph.nodes graph.root) }
{
    let children = children_pickle(alloc, child, inner)?;
    let first = link_pickle(
        alloc,
        inner.first,
        leaf.module.as_bytes(),
        leaf.name.as_bytes(),
    )?;
    let side = Side::new(alloc).lay(alloc, &children)?;
    side.lay(alloc, &first)?.close()
}
