//! Words: bytes up to one that ends them.

ghost use Rattle.std.specs.Prelude.{◌≡◌, option_map};
ghost use Rattle.std.specs.Str.{is_utf8};
ghost use Rattle.zb_ids.specs.Hex.{bytes_at};
ghost use Rattle.literal_reading.specs.Reading;
ghost use Rattle.literal_reading.specs.Reading.{ReadsLiteral, one_at, is_word_byte, word_of, rest_of_word};

use crate::digits::read_digits;
use crate::error::LiteralError;
use std::alloc::Global;
use std::str;
use zb_ids::Text8;

/// What stands behind a word, or `None` where another one stands first.
#[tactic(auto, unfolding(crate::specs::Reading::rest_behind))]
pub(crate) fn after<'a>(word: &[u8], bytes: &'a [u8]) -> Option<&'a [u8]>
    ensures { option_map (λ x. x.now) result ≡ Reading.rest_behind word.now bytes.now }
{
    bytes.strip_prefix(word)
}

/// What stands behind a word.
#[tactic(auto, unfolding(crate::specs::Reading::rest_behind))]
pub(crate) fn behind<'a>(word: &[u8], bytes: &'a [u8]) -> Result<&'a [u8], LiteralError>
    ensures { ReadsLiteral (λ x. x.now) result (Reading.rest_behind word.now bytes.now) }
{
    match bytes.strip_prefix(word) {
        Some(rest) => Ok(rest),
        None => Err(LiteralError::NotLiteral),
    }
}

/// The first byte, and those behind it.
pub(crate) fn one_of(bytes: &[u8]) -> Result<(u8, &[u8]), LiteralError>
    ensures { ReadsLiteral (λ x. (x.0, x.1.now)) result (one_at bytes.now) }
{
    match bytes {
        [] => Err(LiteralError::NotLiteral),
        [first, rest @ ..] => Ok((*first, rest)),
    }
}

/// Whether a byte is a digit of a number in decimal or of bytes, or the sign.
fn is_word(byte: u8) -> bool
    ensures { result ≡ is_word_byte byte }
{
    match byte {
        b'-' | b'0'..=b'9' | b'a'..=b'f' => true,
        _ => false,
    }
}

/// The longest word that stands first, and what stands behind it.
pub(crate) fn split_word(bytes: &[u8]) -> (&[u8], &[u8])
    ensures word { result.0.now ≡ word_of bytes.now }
    ensures rest { result.1.now ≡ rest_of_word bytes.now }
{
    let mut end = 0;
    while end < bytes.len() && is_word(bytes[end]) {
        end += 1;
    }
    bytes.split_at(end)
}

/// Whether bytes are UTF-8.
#[tactic(auto, using(crate::proofs::Utf8::is_text, crate::proofs::Utf8::is_no_text))]
pub(crate) fn is_text(bytes: &[u8]) -> bool
    ensures { result ≡ is_utf8 bytes.now }
{
    match str::from_utf8(bytes) {
        Ok(_) => true,
        Err(_) => false,
    }
}

/// The bytes that digits spell, two for each.
pub(crate) fn bytes_of(alloc: Global, text: &[u8]) -> Result<Text8, LiteralError>
    ensures { ReadsLiteral (λ bytes. bytes) result (bytes_at text.now) }
{
    match read_digits(alloc, text) {
        Ok(bytes) => Ok(Text8::from_vec(bytes)),
        Err(error) => Err(error),
    }
}
