//! The names of clients.

ghost use Rattle.std.specs.Prelude.{◌≡◌, ◌<◌, ◌↔◌, length, take, IsSome, IfSome, Some};
ghost use Rattle.std.specs.List.{list_all};
ghost use Rattle.zb_script.specs.Names.{IsName, is_letter, is_letter_or_digit, is_name};

use std::marker::Model;

/// A client's name: a lower-case letter, and behind it up to seven lower-case letters or digits.
/// Contracts see the list of its bytes.
#[derive(Clone, Copy, Debug, PartialEq, Eq)]
pub struct Name {
    letters: [u8; 8],
    len: usize,
}

impl Model for Name {
    ghost use Rattle.std.specs.Prelude.{ℕ, List, length, take};
    ghost use Rattle.std.proofs.Common.{arith, sym, length-take-le};
    ghost use Rattle.zb_script.specs.Names.{IsPadded, padded};

    ghost Value = { List ℕ };

    ghost view = { λ n. take n.len n.letters };

    ghost invariant = { λ n. IsPadded n.letters n.len };

    ghost inverse = { λ v. record { letters = padded v; len = length v } };

    ghost inverse_ok = { λ n h i. record {
      letters = sym h.zeros i;
      len = length-take-le n.len n.letters (omega (arith, h.full, h.fits)) i;
    } };
}

fn is_lower(byte: u8) -> bool
    ensures { result ≡ is_letter byte }
{
    byte.is_ascii_lowercase()
}

fn is_lower_or_digit(byte: u8) -> bool
    ensures { result ≡ is_letter_or_digit byte }
{
    is_lower(byte) || byte.is_ascii_digit()
}

fn are_lower_or_digits(bytes: &[u8]) -> bool
    ensures { result ≡ list_all is_letter_or_digit bytes.now }
{
    bytes.iter().all(|byte| is_lower_or_digit(*byte))
}

fn is_a_name(bytes: &[u8]) -> bool
    ensures { result ≡ is_name bytes.now }
{
    !bytes.is_empty() && bytes.len() <= 8 && is_lower(bytes[0]) && are_lower_or_digits(bytes)
}

impl Name {
    /// The name that these bytes are, or `None` where they are none.
    pub fn new(bytes: &[u8]) -> Option<Name>
        ensures some { IsSome result ↔ IsName bytes.now }
        ensures value { IfSome result (λ name. name ≡ bytes.now) }
    {
        if !is_a_name(bytes) {
            return None;
        }
        let mut letters = [0; 8];
        letters[..bytes.len()].copy_from_slice(bytes);
        Some(Name {
            letters,
            len: bytes.len(),
        })
    }

    /// The bytes of the name.
    pub fn as_bytes(&self) -> &[u8]
        ensures value { result.now ≡ self.now }
        ensures is_name { IsName self.now }
    {
        &self.letters[..self.len]
    }
}
