//! Characters of texts, and bytes of the lines of globals.

ghost use Rattle.std.specs.Prelude.{◌≡◌, ◌<◌, ◌++◌, [], IfOk};
ghost use Rattle.zb_ids.specs.Hex.{digit_value};
ghost use Rattle.std.specs.Char.{encode_utf8};
ghost use Rattle.std.specs.Char.Escape.{escape_unicode};
ghost use Rattle.zb_literals.specs.Texts;
ghost use Rattle.literal_reading.specs.Reading.{ReadsLiteral, byte_pair_at, character_at, characters_at, code_at, escape_at, name_bytes_at, name_byte_at, name_byte_plain, plain_at, quoted_at, name_line_at};

use crate::error::LiteralError;
use crate::words::{after, behind, is_text, one_of};
use std::alloc::{AllocError, Global};
use zb_ids::{Text8, read_hex_pair};
use zb_literals::{is_name_byte, is_plain, is_quoted, push_escape};

/// The value of a hexadecimal digit.
fn digit_of(digit: u8) -> Result<u32, LiteralError>
    ensures value { ReadsLiteral (λ value. value) result (digit_value digit) }
    ensures small { IfOk result (λ value. value < 16) }
{
    match digit {
        b'0'..=b'9' => Ok((digit - b'0') as u32),
        b'a'..=b'f' => Ok((digit - b'a') as u32 + 10),
        _ => Err(LiteralError::NotLiteral),
    }
}

/// The number that digits spell, up to `}`.
fn code_of(bytes: &[u8]) -> Result<u32, LiteralError>
    ensures { ReadsLiteral (λ code. code) result (code_at 0 bytes.now) }
{
    let mut code = 0;
    for byte in bytes {
        if *byte == b'}' {
            return Ok(code);
        }
        if code > 0x10_ffff {
            return Err(LiteralError::NotLiteral);
        }
        let digit = digit_of(*byte)?;
        code = 16 * code + digit;
    }
    Err(LiteralError::NotLiteral)
}

/// The escape of a character.
fn escape_text(alloc: Global, c: char) -> Result<Vec<u8>, AllocError>
    ensures { IfOk result (λ text. text.items ≡ escape_unicode c) }
{
    let mut text = Vec::new(alloc);
    push_escape(&mut text, c)?;
    Ok(text)
}

/// A character that doesn't stand for itself, by its one escape. The digits stand behind `\u{`.
#[tactic(auto, unfolding(crate::specs::Reading::escape_at))]
fn escape_of<'a>(
    alloc: Global,
    bytes: &'a [u8],
    digits: &[u8],
) -> Result<(char, &'a [u8]), LiteralError>
    ensures { ReadsLiteral (λ x. (x.0, x.1.now)) result (escape_at bytes.now digits.now) }
{
    let code = code_of(digits)?;
    let Some(c) = char::from_u32(code) else {
        return Err(LiteralError::NotLiteral);
    };
    if is_plain(c) {
        return Err(LiteralError::NotLiteral);
    }
    let text = escape_text(alloc, c)?;
    let rest = behind(text.as_slice(), bytes)?;
    Ok((c, rest))
}

/// A quote or a backslash.
#[tactic(auto, unfolding(crate::specs::Reading::quoted_at))]
fn quoted_of(bytes: &[u8]) -> Result<(char, &[u8]), LiteralError>
    ensures { ReadsLiteral (λ x. (x.0, x.1.now)) result (quoted_at bytes.now) }
{
    let (byte, rest) = one_of(bytes)?;
    let c = byte as char;
    if !is_quoted(c) {
        return Err(LiteralError::NotLiteral);
    }
    Ok((c, rest))
}

/// A character that stands for itself.
#[tactic(auto, unfolding(crate::specs::Reading::plain_at))]
fn plain_of(bytes: &[u8]) -> Result<(char, &[u8]), LiteralError>
    ensures { ReadsLiteral (λ x. (x.0, x.1.now)) result (plain_at bytes.now) }
{
    let (byte, rest) = one_of(bytes)?;
    let c = byte as char;
    if !is_plain(c) || is_quoted(c) {
        return Err(LiteralError::NotLiteral);
    }
    Ok((c, rest))
}

/// A character within quotes.
#[tactic(auto, unfolding(crate::specs::Reading::character_at, crate::specs::Reading::rest_behind))]
fn character_of(alloc: Global, bytes: &[u8]) -> Result<(char, &[u8]), LiteralError>
    ensures { ReadsLiteral (λ x. (x.0, x.1.now)) result (character_at bytes.now) }
{
    if let Some(digits) = bytes.strip_prefix(b"\\u{") {
        return escape_of(alloc, bytes, digits);
    }
    if let Some(rest) = bytes.strip_prefix(b"\\") {
        return quoted_of(rest);
    }
    plain_of(bytes)
}

/// A byte that doesn't stand for itself, by its two digits.
#[tactic(auto, unfolding(crate::specs::Reading::byte_pair_at))]
fn byte_pair_of(bytes: &[u8]) -> Result<(u8, &[u8]), LiteralError>
    ensures { ReadsLiteral (λ x. (x.0, x.1.now)) result (byte_pair_at bytes.now) }
{
    let (high, rest) = one_of(bytes)?;
    let (low, rest) = one_of(rest)?;
    let Some(byte) = read_hex_pair(high, low) else {
        return Err(LiteralError::NotLiteral);
    };
    if is_name_byte(byte) || byte == b'\n' {
        return Err(LiteralError::NotLiteral);
    }
    Ok((byte, rest))
}

/// A byte that stands for itself.
#[tactic(auto, unfolding(crate::specs::Reading::name_byte_plain))]
fn byte_plain_of(bytes: &[u8]) -> Result<(u8, &[u8]), LiteralError>
    ensures { ReadsLiteral (λ x. (x.0, x.1.now)) result (name_byte_plain bytes.now) }
{
    let (byte, rest) = one_of(bytes)?;
    if !is_name_byte(byte) {
        return Err(LiteralError::NotLiteral);
    }
    Ok((byte, rest))
}

/// A byte of a module or a name.
#[tactic(auto, unfolding(crate::specs::Reading::name_byte_at, crate::specs::Reading::rest_behind))]
fn name_byte_of(bytes: &[u8]) -> Result<(u8, &[u8]), LiteralError>
    ensures { ReadsLiteral (λ x. (x.0, x.1.now)) result (name_byte_at bytes.now) }
{
    if let Some(digits) = bytes.strip_prefix(b"\\x") {
        return byte_pair_of(digits);
    }
    byte_plain_of(bytes)
}

/// Puts a character at the end of a text in UTF-8.
fn push_char(mut text: Text8, c: char) -> Result<Text8, AllocError>
    ensures { IfOk result (λ all. all ≡ text ++ encode_utf8 c) }
{
    let mut buffer = [0; 4];
    let encoded = c.encode_utf8(&mut buffer);
    text.extend_from_slice(encoded.as_bytes())?;
    Ok(text)
}

/// The characters up to the closing quote, in UTF-8, and what stands behind it.
pub(crate) fn characters_of(alloc: Global, bytes: &[u8]) -> Result<(Text8, &[u8]), LiteralError>
    ensures { ReadsLiteral (λ x. (x.0, x.1.now)) result (characters_at [] bytes.now) }
{
    let mut text = Text8::new(alloc);
    let mut rest = bytes;
    'pieces: loop {
        if let Some(end) = after(b"\"", rest) {
            return Ok((text, end));
        }
        let (c, next) = character_of(alloc, rest)?;
        text = push_char(text, c)?;
        rest = next;
    }
}

/// The bytes of a module or a name up to the one at which they stop, and what stands behind it.
fn name_of(alloc: Global, stop: u8, bytes: &[u8]) -> Result<(Text8, &[u8]), LiteralError>
    ensures { ReadsLiteral (λ x. (x.0, x.1.now)) result (name_bytes_at stop [] bytes.now) }
{
    let mut text = Text8::new(alloc);
    let mut rest = bytes;
    'pieces: loop {
        if let Some(end) = after(&[stop], rest) {
            return Ok((text, end));
        }
        let (byte, next) = name_byte_of(rest)?;
        text.push(byte)?;
        rest = next;
    }
}

/// A module or a name up to the byte at which it stops, and what stands behind it.
#[tactic(auto, unfolding(crate::specs::Reading::name_line_at))]
pub(crate) fn line_of(alloc: Global, stop: u8, bytes: &[u8]) -> Result<(Text8, &[u8]), LiteralError>
    ensures { ReadsLiteral (λ x. (x.0, x.1.now)) result (name_line_at stop bytes.now) }
{
    let (line, rest) = name_of(alloc, stop, bytes)?;
    if !is_text(line.as_slice()) {
        return Err(LiteralError::NotLiteral);
    }
    Ok((line, rest))
}
