//! Cutting a line into words.

ghost use Rattle.std.specs.Prelude.{◌≡◌};
ghost use Rattle.zb_ids.specs.Hex.{number_at};
ghost use Rattle.zb_script.specs.Reading;
ghost use Rattle.zb_script.specs.Reading.{ReadsAs, cut_at, field_at, literal_cut};

use crate::cutting::place_of;
use crate::errors::ReadError;
use zb_ids::read_hex;

/// Where a byte stands in a line with texts in quotes.
#[derive(Clone, Copy, Debug, PartialEq, Eq)]
pub(crate) enum Place {
    /// In no text.
    Outside,
    /// In a text.
    Quoted,
    /// In a text, behind a backslash.
    Escaped,
}

#[tactic(auto, unfolding(crate::specs::Reading::cut_at))]
pub(crate) fn cut(separator: u8, bytes: &[u8]) -> Result<(&[u8], &[u8]), ReadError>
    ensures { ReadsAs (λ x. (x.0.now, x.1.now)) result (cut_at separator bytes.now) }
{
    let Some(i) = place_of(separator, bytes) else {
        return Err(ReadError::Bad);
    };
    Ok((bytes.split_at(i).0, bytes.split_at(i + 1).1))
}

/// Where the byte behind this one stands.
fn step(place: Place, byte: u8) -> Place
    ensures { result ≡ Reading.step place byte }
{
    match place {
        Place::Outside if byte == b'"' => Place::Quoted,
        Place::Outside => Place::Outside,
        Place::Quoted if byte == b'"' => Place::Outside,
        Place::Quoted if byte == b'\\' => Place::Escaped,
        Place::Quoted => Place::Quoted,
        Place::Escaped => Place::Quoted,
    }
}

/// Whether a byte is a blank outside quotes.
fn is_gap(place: Place, byte: u8) -> bool
    ensures { result ≡ Reading.is_gap place byte }
{
    match place {
        Place::Outside => byte == b' ',
        Place::Quoted | Place::Escaped => false,
    }
}

/// What stands before the first blank outside quotes, and what stands behind it.
#[tactic(auto, unfolding(crate::specs::Reading::literal_cut), using(crate::proofs::Gaps::gap_found, crate::proofs::Gaps::gap_passed, crate::proofs::Gaps::gap_none))]
pub(crate) fn cut_literal(bytes: &[u8]) -> Result<(&[u8], &[u8]), ReadError>
    ensures { ReadsAs (λ x. (x.0.now, x.1.now)) result (literal_cut bytes.now) }
{
    let mut place = Place::Outside;
    for i in 0..bytes.len() {
        if is_gap(place, bytes[i]) {
            return Ok((bytes.split_at(i).0, bytes.split_at(i + 1).1));
        }
        place = step(place, bytes[i]);
    }
    Err(ReadError::Bad)
}

pub(crate) fn number_of(text: &[u8]) -> Result<u64, ReadError>
    ensures { ReadsAs (λ number. number) result (number_at text.now) }
{
    match read_hex(text) {
        Ok(number) => Ok(number),
        Err(_) => Err(ReadError::Bad),
    }
}

/// A number and a blank.
#[tactic(auto, unfolding(crate::specs::Reading::field_at))]
pub(crate) fn field_of(bytes: &[u8]) -> Result<(u64, &[u8]), ReadError>
    ensures { ReadsAs (λ x. (x.0, x.1.now)) result (field_at bytes.now) }
{
    let (word, rest) = cut(b' ', bytes)?;
    let number = number_of(word)?;
    Ok((number, rest))
}
