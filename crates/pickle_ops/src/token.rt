//! Tokens.

ghost use Rattle.std.specs.Prelude.{◌≡◌, IfOk, ◌+◌, ◌^◌, ◌<◌, ◌≤◌, length, drop, slice_range};
ghost use Rattle.std.specs.Result.{ForOk};
ghost use Rattle.pickle_ops.specs.Rows.{row_in};
ghost use Rattle.pickle_ops.specs.Tokens.{IsWithin, argument_bytes, token_placed, row_token, token_at};
ghost use Rattle.pickle_ops.specs.Grammar.{IsToken};
ghost use Rattle.pickle_ops.specs.Fits.{Fits};

use crate::argument::{Argument, Fault, read_argument};
use crate::table::{Op, TABLE, row_of};
use std::error::Error;
use std::fmt;

/// An opcode with its argument. The bytes of the argument are the `length` bytes of the input from
/// `start` on: those of a number, the counted bytes behind a length, or both lines of a global with
/// their newlines. `number` is the number that the argument says, and 0 where it says none.
#[derive(Clone, Copy, Debug, PartialEq, Eq)]
pub struct Token {
    pub op: Op,
    pub number: i64,
    pub start: usize,
    pub length: usize,
}

/// Why no token stands at a place.
#[derive(Clone, Copy, Debug, PartialEq, Eq)]
pub enum TokenError {
    /// The byte at `at` is no opcode of the table, or the version of a protocol above 3.
    UnknownOp { at: usize, byte: u8 },
    /// The input ends before the token whose opcode is to stand at `at` is whole.
    Cut { at: usize },
    /// The token whose opcode stands at `at` has a negative length, or a text or line that is not
    /// UTF-8.
    BadText { at: usize },
}

impl fmt::Display for TokenError {
    fn fmt<W: fmt::Write>(&self, f: &mut fmt::Formatter<W>) -> fmt::Result {
        match self {
            TokenError::UnknownOp { at, byte } => {
                write!(
                    f,
                    "byte {byte} at {at} is no opcode or version that is read"
                )
            }
            TokenError::Cut { at } => write!(f, "the token at {at} is cut"),
            TokenError::BadText { at } => write!(f, "the token at {at} has a bad length or text"),
        }
    }
}

impl Error for TokenError {}

/// The token of an opcode at a place, from its argument.
#[inline(always)]
fn place_token(
    op: Op,
    at: usize,
    found: Result<Argument, Fault>,
) -> Result<(Token, usize), TokenError>
    requires opcode { at + 1 < 2 ^ 64 }
    requires room { ForOk found (λ a. at + 1 + (a.before + a.length) < 2 ^ 64) }
    ensures { result ≡ token_placed at op found }
{
    match found {
        Ok(argument) => {
            let start = at + 1 + argument.before;
            let token = Token {
                op,
                number: argument.number,
                start,
                length: argument.length,
            };
            Ok((token, start + argument.length))
        }
        Err(Fault::Missing) => Err(TokenError::Cut { at }),
        Err(Fault::Version(byte)) => Err(TokenError::UnknownOp { at: at + 1, byte }),
        Err(Fault::BadText) => Err(TokenError::BadText { at }),
    }
}

/// The token whose opcode is `byte`, with `rest` behind it.
#[inline(always)]
fn token_behind(byte: u8, at: usize, rest: &[u8]) -> Result<(Token, usize), TokenError>
    requires { at + 1 + length rest.now < 2 ^ 64 }
    ensures { result ≡ row_token at byte rest.now (row_in TABLE.rows byte) }
{
    match row_of(byte) {
        Some(row) => place_token(row.op, at, read_argument(row.kind, rest)),
        None => Err(TokenError::UnknownOp { at, byte }),
    }
}

/// The token at a place of the input, and the place behind it. Nothing is read past the token.
///
/// The answer is the first of these that holds. `Cut` at the place, where the input ends at or before
/// it. `UnknownOp` at the place, where its byte is in no row of the table. `Cut` at the place, where
/// the argument is not whole. `UnknownOp` one place further, where a protocol's version is above 3.
/// `BadText` at the place, where a length is negative, or where a text or a line is not UTF-8; a
/// negative length is seen before the bytes behind it are missed.
#[inline(always)]
pub fn next_token(input: &[u8], at: usize) -> Result<(Token, usize), TokenError>
    ensures token { result ≡ token_at at (drop at input.now) }
    ensures within { IfOk result (λ r. IsWithin at (length input.now) r.0 r.1) }
    // The bytes up to the place behind the token spell it.
    ensures spelled { IfOk result
        (λ r. IsToken (slice_range input.now at r.1) r.0.op r.0.number (argument_bytes input.now r.0)) }
    ensures fits { IfOk result (λ r. Fits r.0.op r.0.number (argument_bytes input.now r.0)) }
{
    if at >= input.len() {
        return Err(TokenError::Cut { at });
    }
    token_behind(input[at], at, &input[at + 1..])
}
