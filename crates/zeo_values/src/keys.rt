//! Keys as they are spelled.

ghost use Rattle.std.specs.Prelude.{◌≡◌, ◌==◌, ◌<◌, length, drop};
ghost use Rattle.std.specs.Str.{is_utf8};
ghost use Rattle.zeo_values.specs.Keys.{is_bytes_spelled, is_key_spelled, is_long_spelled, is_needed, is_number_spelled, is_text_spelled};

use crate::leaves::{back, byte_in, word_in};

/// Whether the bytes are the spelling of bytes.
fn is_bytes_spelled(text: &[u8]) -> bool
    ensures { result ≡ is_bytes_spelled text.now }
{
    match byte_in(0, text) {
        0x43 => byte_in(1, text) as usize + 2 == text.len(),
        0x42 => word_in(text) as usize + 5 == text.len() && text.len() > 260,
        _ => false,
    }
}

/// Whether the bytes are UTF-8.
fn is_text(bytes: &[u8]) -> bool
    ensures { result ≡ is_utf8 bytes.now }
{
    match std::str::from_utf8(bytes) {
        Ok(_) => true,
        Err(_) => false,
    }
}

/// Whether the bytes are the spelling of a text.
fn is_text_spelled(text: &[u8]) -> bool
    ensures { result ≡ is_text_spelled text.now }
{
    byte_in(0, text) == 0x58 && word_in(text) as usize + 5 == text.len() && is_text(back(5, text))
}

/// Whether the highest byte of a number can't be left out, by the one below it.
fn is_needed(highest: u8, next: u8) -> bool
    ensures { result ≡ is_needed highest next }
{
    !(highest == 0 && next < 128 || highest == 255 && next > 127)
}

/// Whether the bytes are the spelling of a number of more than 32 bits.
fn is_long_spelled(text: &[u8]) -> bool
    ensures { result ≡ is_long_spelled text.now }
{
    let size = byte_in(1, text) as usize;
    byte_in(0, text) == 0x8a
        && text.len() == size + 2
        && size > 4
        && size < 17
        && is_needed(byte_in(size + 1, text), byte_in(size, text))
}

/// Whether the bytes are the spelling of a whole number of at most 128 bits.
fn is_number_spelled(text: &[u8]) -> bool
    ensures { result ≡ is_number_spelled text.now }
{
    match byte_in(0, text) {
        0x4b => text.len() == 2,
        0x4d => text.len() == 3 && byte_in(2, text) != 0,
        0x4a => text.len() == 5 && !(byte_in(3, text) == 0 && byte_in(4, text) == 0),
        _ => is_long_spelled(text),
    }
}

/// Whether the bytes are the spelling of a key: of bytes or of a text, of fewer than 2^32 bytes, or of a
/// whole number of at most 128 bits.
pub fn is_key_spelled(text: &[u8]) -> bool
    ensures { result ≡ is_key_spelled text.now }
{
    is_bytes_spelled(text) || is_text_spelled(text) || is_number_spelled(text)
}
