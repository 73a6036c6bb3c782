//! The bytes that hexadecimal digits spell, read a piece at a time.

ghost use Rattle.std.specs.Prelude.{◌≡◌, ◌≤◌, ◌*◌, ◌+◌, ◌/◌, ◌%◌, ◌++◌, length, take, option_map};
ghost use Rattle.zb_ids.specs.Hex.{bytes_at};
ghost use Rattle.zb_ids.specs.HexLaws.{behind_prefix};
ghost use Rattle.literal_reading.specs.Reading.{ReadsLiteral};

use crate::error::LiteralError;
use std::alloc::Global;
use zb_ids::read_hex_pair;

/// How many digits are read before what they spell is put at the end.
const PIECE: usize = 64;

/// The bytes that the digits of a piece spell, two for each, in the front of what is answered.
fn piece_of(text: &[u8]) -> Option<[u8; 32]>
    requires few { length text.now ≤ 64 }
    requires even { length text.now % 2 ≡ 0 }
    ensures { option_map (λ piece. take (length text.now / 2) piece) result ≡ bytes_at text.now }
{
    let mut piece = [0; 32];
    for i in 0..text.len() / 2 {
        let Some(byte) = read_hex_pair(text[2 * i], text[2 * i + 1]) else {
            return None;
        };
        piece[i] = byte;
    }
    Some(piece)
}

/// Puts the bytes that the digits of a piece spell at the end.
fn push_piece(bytes: &mut Vec<u8>, text: &[u8]) -> Result<(), LiteralError>
    requires few { length text.now ≤ 64 }
    requires even { length text.now % 2 ≡ 0 }
    ensures { ReadsLiteral (λ _. bytes.new.items) result (behind_prefix bytes.old.items (bytes_at text.now)) }
{
    match piece_of(text) {
        None => Err(LiteralError::NotLiteral),
        Some(piece) => {
            bytes.extend_from_slice(&piece[..text.len() / 2])?;
            Ok(())
        }
    }
}

/// The bytes that digits spell, two for each. `NotLiteral` where one is no lower-case hexadecimal digit, or their
/// number is odd; `Memory` where there was none.
pub fn read_digits(alloc: Global, text: &[u8]) -> Result<Vec<u8>, LiteralError>
    ensures { ReadsLiteral (λ bytes. bytes.items) result (bytes_at text.now) }
{
    if text.len() % 2 != 0 {
        return Err(LiteralError::NotLiteral);
    }
    let mut bytes = Vec::with_capacity(alloc, text.len() / 2)?;
    let mut rest = text;
    while rest.len() > PIECE {
        let (front, behind) = rest.split_at(PIECE);
        match push_piece(&mut bytes, front) {
            Ok(()) => rest = behind,
            Err(error) => return Err(error),
        }
    }
    match push_piece(&mut bytes, rest) {
        Ok(()) => Ok(bytes),
        Err(error) => Err(error),
    }
}
