//! Nodes that a token makes by itself.

ghost use Rattle.std.specs.Prelude.{◌≡◌, ◌≤◌, ◌+◌, IfOk, length, take, drop};
ghost use Rattle.pickle_reading.specs.Leaves.{long_number, long_of, first_line, behind_line, global_of, leaf_of};

use byteorder::{ByteOrder, LittleEndian};
use pickle_graph::Node;
use pickle_ops::{Op, Token};
use std::alloc::{AllocError, Global};
use zb_ids::{ListOf, Text8};

/// The number that at most 16 bytes are in two's complement.
fn number_of(bytes: &[u8]) -> i128
    requires { length bytes.now ≤ 16 }
    ensures { result ≡ long_number bytes.now }
{
    if bytes.is_empty() {
        return 0;
    }
    LittleEndian::read_int128(bytes, bytes.len())
}

/// A whole number, from its bytes in two's complement.
fn long(alloc: Global, bytes: &[u8]) -> Result<Node, AllocError>
    ensures { IfOk result (λ node. node ≡ long_of bytes.now) }
{
    if bytes.len() > 16 {
        return Ok(Node::Wide(Text8::from_slice(alloc, bytes)?));
    }
    Ok(Node::Number(number_of(bytes)))
}

/// How many bytes stand before the first newline.
#[tactic(auto)]
fn line_length(bytes: &[u8]) -> usize
    ensures inside { result ≤ length bytes.now }
    ensures first { take result bytes.now ≡ first_line bytes.now }
    ensures behind { drop (result + 1) bytes.now ≡ behind_line bytes.now }
{
    let mut end = 0;
    while end < bytes.len() {
        if bytes[end] == b'\n' {
            return end;
        }
        end += 1;
    }
    end
}

/// The bytes before the first newline, and those behind it.
fn split_line(bytes: &[u8]) -> (&[u8], &[u8])
    ensures first { result.0.now ≡ first_line bytes.now }
    ensures behind { result.1.now ≡ behind_line bytes.now }
{
    let end = line_length(bytes);
    if end == bytes.len() {
        return (bytes, &[]);
    }
    (&bytes[..end], &bytes[end + 1..])
}

/// A global, from its two lines.
fn global(alloc: Global, bytes: &[u8]) -> Result<Node, AllocError>
    ensures { IfOk result (λ node. node ≡ global_of bytes.now) }
{
    let (module, rest) = split_line(bytes);
    let (name, _) = split_line(rest);
    Ok(Node::Global {
        module: Text8::from_slice(alloc, module)?,
        name: Text8::from_slice(alloc, name)?,
    })
}

/// The node that a token with these bytes makes by itself, or `None` where it is one that doesn't.
#[inline(always)]
pub(crate) fn leaf(alloc: Global, token: Token, bytes: &[u8]) -> Result<Option<Node>, AllocError>
    ensures { IfOk result (λ node. node ≡ leaf_of token.op token.number bytes.now) }
{
    let node = match token.op {
        Op::None => Node::None,
        Op::NewTrue => Node::Bool(true),
        Op::NewFalse => Node::Bool(false),
        Op::BinInt | Op::BinInt1 | Op::BinInt2 => Node::Number(token.number as i128),
        Op::Long1 | Op::Long4 => long(alloc, bytes)?,
        Op::BinFloat => Node::Float(Text8::from_slice(alloc, bytes)?),
        Op::BinBytes | Op::ShortBinBytes => Node::Bytes(Text8::from_slice(alloc, bytes)?),
        Op::BinString | Op::ShortBinString => Node::OldText(Text8::from_slice(alloc, bytes)?),
        Op::BinUnicode => Node::Text(Text8::from_slice(alloc, bytes)?),
        Op::EmptyTuple => Node::Tuple(ListOf::new(alloc)),
        Op::EmptyList => Node::List(ListOf::new(alloc)),
        Op::EmptyDict => Node::Dict(ListOf::new(alloc)),
        Op::Global => global(alloc, bytes)?,
        _ => return Ok(None),
    };
    Ok(Some(node))
}
