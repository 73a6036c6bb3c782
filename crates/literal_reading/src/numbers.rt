//! Numbers in decimal.

ghost use Rattle.std.specs.Prelude.{◌≡◌, IfOk, IsTrue};
ghost use Rattle.std.specs.Fmt.{signed_decimal};
ghost use Rattle.std.specs.Str.{bytes_eq};
ghost use Rattle.literal_reading.specs.Reading.{ReadsLiteral, number_of_word, number_leaf_at};

use crate::error::LiteralError;
use crate::words::split_word;
use itoa::Buffer;
use pickle_graph::Node;
use std::str;

/// Whether a word is the literal of a number.
fn is_literal_of(number: i128, word: &[u8]) -> bool
    ensures { result ≡ bytes_eq word.now (signed_decimal number) }
{
    let mut buffer = Buffer::new();
    word == buffer.format(number).as_bytes()
}

/// The number that a word is the literal of.
fn number_of(word: &[u8]) -> Result<i128, LiteralError>
    ensures { ReadsLiteral (λ number. number) result (number_of_word word.now) }
{
    let Ok(text) = str::from_utf8(word) else {
        return Err(LiteralError::NotLiteral);
    };
    let Ok(number) = i128::from_str_radix(text, 10) else {
        return Err(LiteralError::NotLiteral);
    };
    if !is_literal_of(number, word) {
        return Err(LiteralError::NotLiteral);
    }
    Ok(number)
}

/// The number that stands first, and what stands behind it.
#[tactic(auto, unfolding(crate::specs::Reading::number_leaf_at))]
pub(crate) fn number_node(bytes: &[u8]) -> Result<(Node, &[u8]), LiteralError>
    ensures { ReadsLiteral (λ x. (x.0, x.1.now)) result (number_leaf_at bytes.now) }
{
    let (word, rest) = split_word(bytes);
    let number = number_of(word)?;
    Ok((Node::Number(number), rest))
}
