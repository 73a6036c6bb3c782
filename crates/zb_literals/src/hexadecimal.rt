//! The digits of bytes.

ghost use Rattle.std.specs.Prelude.{◌≡◌, ◌<◌, ◌≤◌, ◌+◌, ◌*◌, ◌/◌, ◌%◌, ◌++◌, OnOk, length, set, take};
ghost use Rattle.zb_ids.specs.Hex.{digit_of, hex_text};

use std::alloc::AllocError;
use zb_ids::hex_pair;

/// How many bytes are spelled before their digits are put at the end.
const PIECE: usize = 32;

/// Puts the two digits of a byte into their place among those of other bytes.
fn put_pair(digits: &mut [u8; 64], place: usize, byte: u8)
    requires { 2 * place + 1 < 64 }
    ensures { digits.new
        ≡ set (set digits.old (2 * place) (digit_of (byte / 16))) (2 * place + 1) (digit_of (byte % 16)) }
{
    let pair = hex_pair(byte);
    digits[2 * place] = pair[0];
    digits[2 * place + 1] = pair[1];
}

/// Two digits for each of a piece's bytes, in the front of what is answered.
#[tactic(auto, using(crate::proofs::Pieces::pair_more))]
fn digits_of(bytes: &[u8]) -> [u8; 64]
    requires { length bytes.now ≤ 32 }
    ensures { take (2 * length bytes.now) result ≡ hex_text bytes.now }
{
    let mut digits = [0; 64];
    for i in 0..bytes.len() {
        put_pair(&mut digits, i, bytes[i]);
    }
    digits
}

/// Puts two digits for each of a piece's bytes at the end.
fn push_piece(out: &mut Vec<u8>, bytes: &[u8]) -> Result<(), AllocError>
    requires { length bytes.now ≤ 32 }
    ensures { OnOk result (out.new.items ≡ out.old.items ++ hex_text bytes.now) }
{
    let digits = digits_of(bytes);
    out.extend_from_slice(&digits[..2 * bytes.len()])
}

/// Puts two digits for each byte at the end, in room that is taken once. Where there is no memory,
/// `out` may end with a front of them.
pub fn push_digits(out: &mut Vec<u8>, bytes: &[u8]) -> Result<(), AllocError>
    ensures { OnOk result (out.new.items ≡ out.old.items ++ hex_text bytes.now) }
{
    out.reserve(bytes.len().saturating_mul(2))?;
    let mut rest = bytes;
    while rest.len() > PIECE {
        let (front, behind) = rest.split_at(PIECE);
        push_piece(out, front)?;
        rest = behind;
    }
    push_piece(out, rest)
}
