//! Texts and bytes as literals.

ghost use Rattle.std.specs.Prelude.{◌≡◌, ◌++◌, OnOk};
ghost use Rattle.std.specs.List.{flat_map};
ghost use Rattle.std.specs.Char.Escape.{escape_unicode};
ghost use Rattle.std.specs.Str.{chars};
ghost use Rattle.zb_ids.specs.Hex.{hex_text};
ghost use Rattle.zb_literals.specs.Texts.{bytes_text, character_text, global_text, name_byte_text, quoted_text, text_literal};
ghost use Rattle.zb_literals.specs.Texts;

use crate::hexadecimal::push_digits;
use std::alloc::AllocError;
use std::str;
use zb_ids::hex_pair;

/// Whether a character stands for itself in the literal of a text: one from the blank to the tilde.
pub fn is_plain(c: char) -> bool
    ensures { result ≡ Texts.is_plain c }
{
    ' ' <= c && c <= '~'
}

/// Whether a character stands behind a backslash in the literal of a text: a quote or a backslash.
pub fn is_quoted(c: char) -> bool
    ensures { result ≡ Texts.is_quoted c }
{
    c == '"' || c == '\\'
}

/// Whether a byte of a module or a name stands for itself in a literal: a letter, a digit, `_` or `.`.
pub fn is_name_byte(byte: u8) -> bool
    ensures { result ≡ Texts.is_name_byte byte }
{
    match byte {
        b'a'..=b'z' | b'A'..=b'Z' | b'0'..=b'9' | b'_' | b'.' => true,
        _ => false,
    }
}

/// Puts the escape of a character at the end, `\u{..}` with its code in lower-case hexadecimal digits.
/// Where there is no memory, a part of it may have been put.
#[tactic(auto, using(crate::proofs::Digits::escape_small, crate::proofs::Digits::next_small, crate::proofs::Digits::rest_small, crate::proofs::Digits::put_one))]
pub fn push_escape(out: &mut Vec<u8>, c: char) -> Result<(), AllocError>
    ensures { OnOk result (out.new.items ≡ out.old.items ++ escape_unicode c) }
{
    for digit in c.escape_unicode() {
        out.push(digit as u8)?;
    }
    Ok(())
}

fn push_character(out: &mut Vec<u8>, c: char) -> Result<(), AllocError>
    ensures { OnOk result (out.new.items ≡ out.old.items ++ character_text c) }
{
    if is_quoted(c) {
        return out.extend_from_slice(&[b'\\', c as u8]);
    }
    if is_plain(c) {
        return out.extend_from_slice(&[c as u8]);
    }
    push_escape(out, c)
}

fn push_characters(out: &mut Vec<u8>, text: &str) -> Result<(), AllocError>
    ensures { OnOk result (out.new.items ≡ out.old.items ++ flat_map character_text (chars text.now)) }
{
    for c in text.chars() {
        push_character(out, c)?;
    }
    Ok(())
}

fn push_quoted(out: &mut Vec<u8>, text: &str) -> Result<(), AllocError>
    ensures { OnOk result (out.new.items ≡ out.old.items ++ quoted_text text.now) }
{
    out.reserve(text.len().saturating_add(2))?;
    out.push(b'"')?;
    push_characters(out, text)?;
    out.push(b'"')?;
    Ok(())
}

/// Puts `b:` and two digits for each byte at the end.
pub(crate) fn push_bytes(out: &mut Vec<u8>, bytes: &[u8]) -> Result<(), AllocError>
    ensures { OnOk result (out.new.items ≡ out.old.items ++ bytes_text bytes.now) }
{
    out.extend_from_slice(b"b:")?;
    push_digits(out, bytes)
}

/// Puts a text within quotes at the end, or, where the bytes aren't UTF-8, `b:` and two digits for
/// each byte. Where there is no memory, `out` may end with a front of it.
#[tactic(auto, using(crate::proofs::Utf8::as_text))]
pub fn push_text(out: &mut Vec<u8>, bytes: &[u8]) -> Result<(), AllocError>
    ensures { OnOk result (out.new.items ≡ out.old.items ++ text_literal bytes.now) }
{
    match str::from_utf8(bytes) {
        Ok(text) => push_quoted(out, text),
        Err(_) => push_bytes(out, bytes),
    }
}

/// Puts the bytes of a module or a name at the end, `\xhh` for those that don't stand for themselves.
fn push_name(out: &mut Vec<u8>, bytes: &[u8]) -> Result<(), AllocError>
    ensures { OnOk result (out.new.items ≡ out.old.items ++ flat_map name_byte_text bytes.now) }
{
    for byte in bytes {
        push_name_byte(out, *byte)?;
    }
    Ok(())
}

fn push_name_byte(out: &mut Vec<u8>, byte: u8) -> Result<(), AllocError>
    ensures { OnOk result (out.new.items ≡ out.old.items ++ name_byte_text byte) }
{
    if is_name_byte(byte) {
        return out.extend_from_slice(&[byte]);
    }
    out.extend_from_slice(b"\\x")?;
    out.extend_from_slice(&hex_pair(byte))
}

/// Puts a global at the end: `<`, the module, `:`, the name and `>`.
pub(crate) fn push_global(out: &mut Vec<u8>, one: &[u8], other: &[u8]) -> Result<(), AllocError>
    ensures { OnOk result (out.new.items ≡ out.old.items ++ global_text one.now other.now) }
{
    out.push(b'<')?;
    push_name(out, one)?;
    out.push(b':')?;
    push_name(out, other)?;
    out.push(b'>')?;
    Ok(())
}
