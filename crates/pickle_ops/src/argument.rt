//! The arguments of opcodes.

ghost use Rattle.std.specs.Prelude.{◌≡◌, true, IsTrue, IfOk, ◌==◌, position, ◌+◌, ◌≤◌, length};
ghost use Rattle.std.specs.Str.{is_utf8};
ghost use Rattle.pickle_ops.specs.Arguments.{argument_in, is_newline, number_argument, signed_number, span, counted_bytes, signed_counted, text, two_lines, version};

use crate::table::Kind;
use byteorder::{ByteOrder, LittleEndian};

/// An argument behind an opcode: the number that it says, 0 where it says none, and its bytes, which
/// are `length` bytes behind the first `before` ones.
#[derive(Clone, Copy)]
pub(crate) struct Argument {
    pub number: i64,
    pub before: usize,
    pub length: usize,
}

/// Why no argument stands behind an opcode.
#[derive(Clone, Copy)]
pub(crate) enum Fault {
    /// The input ends before the argument does.
    Missing,
    /// A version that is not read.
    Version(u8),
    /// A negative length, or bytes that are not UTF-8.
    BadText,
}

/// Whether each byte is below 128.
fn is_ascii(bytes: &[u8]) -> bool
    ensures { IsTrue result → is_utf8 bytes.now ≡ true }
{
    let mut most: u8 = 0;
    for byte in bytes {
        if *byte > most {
            most = *byte;
        }
    }
    most < 128
}

/// Whether the bytes are UTF-8.
fn is_text(bytes: &[u8]) -> bool
    ensures { result ≡ is_utf8 bytes.now }
{
    if is_ascii(bytes) {
        return true;
    }
    match std::str::from_utf8(bytes) {
        Ok(_) => true,
        Err(_) => false,
    }
}

/// How many bytes stand before the first newline.
fn line_length(bytes: &[u8]) -> Option<usize>
    ensures { result ≡ position is_newline bytes.now }
{
    bytes.iter().position(|byte| *byte == b'\n')
}

/// One byte, the version of a protocol.
#[inline(always)]
fn read_version(rest: &[u8]) -> Result<Argument, Fault>
    ensures argument { result ≡ version rest.now }
    ensures within { IfOk result (λ a. a.before + a.length ≤ length rest.now) }
{
    match rest {
        [] => Err(Fault::Missing),
        [byte, ..] => {
            if *byte > 3 {
                return Err(Fault::Version(*byte));
            }
            Ok(Argument {
                number: i64::from(*byte),
                before: 0,
                length: 1,
            })
        }
    }
}

/// A number of `size` bytes.
#[tactic(auto, using(crate::proofs::Numbers::number_is_small))]
#[inline(always)]
fn read_number(size: usize, rest: &[u8]) -> Result<Argument, Fault>
    requires low { 1 ≤ size }
    requires high { size ≤ 4 }
    ensures argument { result ≡ number_argument size rest.now }
    ensures within { IfOk result (λ a. a.before + a.length ≤ length rest.now) }
{
    if rest.len() < size {
        return Err(Fault::Missing);
    }
    Ok(Argument {
        number: LittleEndian::read_uint(rest, size) as i64,
        before: 0,
        length: size,
    })
}

/// A number of four bytes in two's complement.
#[inline(always)]
fn read_signed(rest: &[u8]) -> Result<Argument, Fault>
    ensures argument { result ≡ signed_number rest.now }
    ensures within { IfOk result (λ a. a.before + a.length ≤ length rest.now) }
{
    if rest.len() < 4 {
        return Err(Fault::Missing);
    }
    Ok(Argument {
        number: LittleEndian::read_int(rest, 4),
        before: 0,
        length: 4,
    })
}

/// So many bytes behind the first ones.
#[inline(always)]
fn read_span(before: usize, count: usize, rest: &[u8]) -> Result<Argument, Fault>
    requires { before ≤ length rest.now }
    ensures argument { result ≡ span before count rest.now }
    ensures within { IfOk result (λ a. a.before + a.length ≤ length rest.now) }
{
    if rest.len() - before < count {
        return Err(Fault::Missing);
    }
    Ok(Argument {
        number: 0,
        before,
        length: count,
    })
}

/// A length of `size` bytes, and so many bytes.
#[inline(always)]
fn read_counted(size: usize, rest: &[u8]) -> Result<Argument, Fault>
    requires low { 1 ≤ size }
    requires high { size ≤ 4 }
    ensures argument { result ≡ counted_bytes size rest.now }
    ensures within { IfOk result (λ a. a.before + a.length ≤ length rest.now) }
{
    if rest.len() < size {
        return Err(Fault::Missing);
    }
    let count = LittleEndian::read_uint(rest, size) as usize;
    read_span(size, count, rest)
}

/// A length of four bytes in two's complement, and so many bytes. A negative length is seen before
/// bytes behind it are missed.
#[inline(always)]
fn read_signed_counted(rest: &[u8]) -> Result<Argument, Fault>
    ensures argument { result ≡ signed_counted rest.now }
    ensures within { IfOk result (λ a. a.before + a.length ≤ length rest.now) }
{
    if rest.len() < 4 {
        return Err(Fault::Missing);
    }
    let count = LittleEndian::read_int(rest, 4);
    if count < 0 {
        return Err(Fault::BadText);
    }
    read_span(4, count as usize, rest)
}

/// A length of four bytes, and so many bytes of UTF-8.
#[inline(always)]
fn read_text(rest: &[u8]) -> Result<Argument, Fault>
    ensures argument { result ≡ text rest.now }
    ensures within { IfOk result (λ a. a.before + a.length ≤ length rest.now) }
{
    let argument = read_counted(4, rest)?;
    let end = argument.before + argument.length;
    if !is_text(&rest[argument.before..end]) {
        return Err(Fault::BadText);
    }
    Ok(argument)
}

/// Two lines of UTF-8, each ended by a newline.
fn read_lines(rest: &[u8]) -> Result<Argument, Fault>
    ensures argument { result ≡ two_lines rest.now }
    ensures within { IfOk result (λ a. a.before + a.length ≤ length rest.now) }
{
    let Some(first) = line_length(rest) else {
        return Err(Fault::Missing);
    };
    let behind = &rest[first + 1..];
    let Some(second) = line_length(behind) else {
        return Err(Fault::Missing);
    };
    if !is_text(&rest[..first]) {
        return Err(Fault::BadText);
    }
    if !is_text(&behind[..second]) {
        return Err(Fault::BadText);
    }
    Ok(Argument {
        number: 0,
        before: 0,
        length: first + 1 + second + 1,
    })
}

/// The argument of a kind in the bytes behind its opcode.
#[inline(always)]
pub(crate) fn read_argument(kind: Kind, rest: &[u8]) -> Result<Argument, Fault>
    ensures argument { result ≡ argument_in kind rest.now }
    ensures within { IfOk result (λ a. a.before + a.length ≤ length rest.now) }
{
    match kind {
        Kind::Nothing => read_span(0, 0, rest),
        Kind::Version => read_version(rest),
        Kind::Unsigned1 => read_number(1, rest),
        Kind::Unsigned2 => read_number(2, rest),
        Kind::Unsigned4 => read_number(4, rest),
        Kind::Signed4 => read_signed(rest),
        Kind::Float8 => read_span(0, 8, rest),
        Kind::Counted1 => read_counted(1, rest),
        Kind::Counted4 => read_counted(4, rest),
        Kind::SignedCounted4 => read_signed_counted(rest),
        Kind::Text4 => read_text(rest),
        Kind::TwoLines => read_lines(rest),
    }
}
