//! Shapes: what a reader of references keeps of nodes.

ghost use Rattle.std.specs.Prelude.{◌≡◌, slice_get};
ghost use Rattle.pickle_references.specs.References.{oid_in};
ghost use Rattle.pickle_references.specs.Shapes;

use crate::finding::Names;
use crate::passing::{Passed, pass};
use crate::references::Named;
use byteorder::{BigEndian, ByteOrder};
use pickle_ops::{Op, Token};
use pickle_reading::{Extent, Kept, NodeTable, Stack};
use std::alloc::{AllocError, Global};
use zb_ids::Oid;

/// What references depend on in a node. It never changes.
#[derive(Clone, Copy)]
pub(crate) enum Shape {
    List,
    Dict,
    Object,
    /// A tuple whose first item is an oid.
    Naming(Oid),
    /// A tuple whose first item is a global.
    Classed,
    /// Any other tuple.
    Tuple,
    /// An oid.
    Id(Oid),
    Global,
    /// Any other node.
    Other,
}

/// What a token adds to a node.
#[derive(Clone, Copy)]
pub(crate) enum Adding {
    /// Items of a list.
    Values,
    /// Keys and values of a dictionary.
    Pairs,
    /// The state of an object.
    State,
}

/// The oid that eight bytes are.
pub(crate) fn read_oid(bytes: &[u8]) -> Named
    ensures { result ≡ oid_in bytes.now }
{
    if bytes.len() == 8 {
        return Named::Strong(Oid(BigEndian::read_u64(bytes)));
    }
    Named::Bad
}

/// The shape of bytes.
fn bytes_shape(bytes: &[u8]) -> Shape
    ensures { result ≡ Shapes.bytes_shape (oid_in bytes.now) }
{
    match read_oid(bytes) {
        Named::Strong(oid) => Shape::Id(oid),
        Named::Weak | Named::Bad => Shape::Other,
    }
}

/// The shape of the node that an opcode with these bytes makes by itself, or `None` where it is one that
/// doesn't.
#[inline(always)]
pub(crate) fn leaf_shape(op: Op, bytes: &[u8]) -> Option<Shape>
    ensures { result ≡ Shapes.leaf_shape op bytes.now }
{
    match op {
        Op::None | Op::NewTrue | Op::NewFalse => Some(Shape::Other),
        Op::BinInt | Op::BinInt1 | Op::BinInt2 => Some(Shape::Other),
        Op::Long1 | Op::Long4 | Op::BinFloat => Some(Shape::Other),
        Op::BinBytes | Op::ShortBinBytes => Some(bytes_shape(bytes)),
        Op::BinString | Op::ShortBinString => Some(bytes_shape(bytes)),
        Op::BinUnicode => Some(Shape::Other),
        Op::Global => Some(Shape::Global),
        Op::EmptyTuple => Some(Shape::Tuple),
        Op::EmptyList => Some(Shape::List),
        Op::EmptyDict => Some(Shape::Dict),
        _ => None,
    }
}

/// What the node of a number names as a persistent id.
fn name_shape(shapes: &NodeTable<Shape>, number: u32) -> Named
    ensures { result ≡ Shapes.named_as (slice_get shapes.now number) }
{
    match shapes.get(number) {
        Some(Shape::Naming(oid)) => Named::Strong(*oid),
        Some(Shape::Id(oid)) => Named::Strong(*oid),
        Some(Shape::List) => Named::Weak,
        _ => Named::Bad,
    }
}

/// The shape of a tuple whose first item is the node of a number, if it has one.
fn tuple_shape(shapes: &NodeTable<Shape>, first: Option<u32>) -> Shape
    ensures { result ≡ Shapes.tuple_shape (Shapes.lowest_as shapes.now first) }
{
    let Some(number) = first else {
        return Shape::Tuple;
    };
    match shapes.get(number) {
        Some(Shape::Id(oid)) => Shape::Naming(*oid),
        Some(Shape::Global) => Shape::Classed,
        _ => Shape::Tuple,
    }
}

/// Whether the node of a number is a tuple.
fn is_tuple_shape(shapes: &NodeTable<Shape>, number: u32) -> bool
    ensures { result ≡ Shapes.is_tuple_shape (slice_get shapes.now number) }
{
    match shapes.get(number) {
        Some(Shape::Tuple | Shape::Naming(_) | Shape::Classed) => true,
        _ => false,
    }
}

/// Whether the node of a number is a global or a tuple that begins with one.
pub(crate) fn is_class_shape(shapes: &NodeTable<Shape>, number: u32) -> bool
    ensures { result ≡ Shapes.is_class_shape (slice_get shapes.now number) }
{
    match shapes.get(number) {
        Some(Shape::Global | Shape::Classed) => true,
        _ => false,
    }
}

/// Whether the node of a number takes an addition.
fn takes(shapes: &NodeTable<Shape>, number: u32, adding: Adding) -> bool
    ensures { result ≡ Shapes.takes adding (slice_get shapes.now number) }
{
    match shapes.get(number) {
        Some(Shape::Object) => true,
        Some(Shape::List) => match adding {
            Adding::Values => true,
            _ => false,
        },
        Some(Shape::Dict) => match adding {
            Adding::Pairs => true,
            _ => false,
        },
        _ => false,
    }
}

impl Kept for Shape {
    ghost use Rattle.pickle_references.specs.Sights.{shapes};

    type Values = Passed;

    type Addition = Adding;

    ghost keeping = { shapes };

    #[inline(always)]
    fn leaf(_alloc: Global, token: Token, bytes: &[u8]) -> Result<Option<Shape>, AllocError> {
        Ok(leaf_shape(token.op, bytes))
    }

    fn taken(
        _alloc: Global,
        stack: &mut Stack,
        extent: Extent,
    ) -> Result<Option<Passed>, AllocError> {
        Ok(pass(stack, extent))
    }

    fn tuple(nodes: &NodeTable<Shape>, values: Passed) -> Shape {
        tuple_shape(nodes, values.lowest)
    }

    fn values(_values: Passed) -> Adding {
        Adding::Values
    }

    fn pairs(_alloc: Global, values: Passed) -> Result<Option<Adding>, AllocError> {
        if values.odd {
            return Ok(None);
        }
        Ok(Some(Adding::Pairs))
    }

    fn state(_number: u32) -> Adding {
        Adding::State
    }

    #[tactic(auto, using(crate::proofs::Staying::stays))]
    fn add(
        nodes: &mut NodeTable<Shape>,
        number: u32,
        addition: Adding,
    ) -> Result<bool, AllocError> {
        Ok(takes(nodes, number, addition))
    }

    fn is_tuple(nodes: &NodeTable<Shape>, number: u32) -> bool {
        is_tuple_shape(nodes, number)
    }

    fn object(_alloc: Global, _callee: u32, _arguments: u32, _by_new: bool) -> Shape {
        Shape::Object
    }

    fn reference(_id: u32) -> Shape {
        Shape::Other
    }
}

impl Names for Shape {
    ghost use Rattle.pickle_references.specs.Sights.{shape_names};

    ghost names = { shape_names };

    fn name(nodes: &NodeTable<Shape>, number: u32) -> Named {
        name_shape(nodes, number)
    }
}
