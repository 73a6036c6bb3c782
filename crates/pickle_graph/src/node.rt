//! Nodes.

use zb_ids::{ListOf, Text8};

/// What is done to an object after it is made. Nodes are named by number.
#[derive(Clone, Copy, Debug, PartialEq, Eq)]
pub enum Act {
    /// Appends a node.
    Append(u32),
    /// Sets a key, the first node, to a value, the second one.
    Set(u32, u32),
    /// Gives it a state.
    Build(u32),
}

/// A value of a graph. It names other nodes of the graph by number, counted from 0.
#[derive(Debug, Drop)]
pub enum Node {
    /// None.
    None,
    /// True or False.
    Bool(bool),
    /// A whole number of at most 128 bits in two's complement.
    Number(i128),
    /// The bytes of a longer number in two's complement, the lowest first: 17 to 2^31 - 1 bytes.
    Wide(Text8),
    /// The eight bytes of a float, the highest first. They are kept and never read as a number.
    Float(Text8),
    /// Fewer than 2^32 bytes.
    Bytes(Text8),
    /// A string of Python 2, which is bytes of no known encoding, fewer than 2^31.
    OldText(Text8),
    /// A text in UTF-8, of fewer than 2^32 bytes.
    Text(Text8),
    /// The items of a tuple.
    Tuple(ListOf<u32>),
    /// The items of a list.
    List(ListOf<u32>),
    /// The keys and values of a dictionary, in the order in which they were set. A key that was set
    /// twice stands twice.
    Dict(ListOf<(u32, u32)>),
    /// What a module has under a name. Both are UTF-8 without a newline.
    Global {
        module: Text8,
        name: Text8,
    },
    /// What stands outside under a persistent id, which is a node.
    Reference(u32),
    /// What a callee gives for arguments, which are a tuple. It is made by the callee's `__new__`
    /// (`by_new`) or by a call of it, and then the acts are done to it in order.
    Object {
        callee: u32,
        arguments: u32,
        by_new: bool,
        acts: ListOf<Act>,
    },
}
