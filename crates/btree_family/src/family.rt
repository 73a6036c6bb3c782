//! What the keys and the values of a family are.

ghost use Rattle.std.specs.Prelude.{◌≡◌, ◌==◌};
ghost use Rattle.btree_family.specs.Keys.{rank_of};
ghost use Rattle.btree_family.specs.Families;

use crate::key::{Key, rank};
use crate::table::{KeyKind, ValueKind};

/// Whether a number is one of 32 bits with a sign.
fn is_int32(number: i128) -> bool
    ensures { result ≡ Families.is_int32 number }
{
    -0x8000_0000 <= number && number < 0x8000_0000
}

/// Whether a number is one of 64 bits with a sign.
fn is_int64(number: i128) -> bool
    ensures { result ≡ Families.is_int64 number }
{
    -0x8000_0000_0000_0000 <= number && number < 0x8000_0000_0000_0000
}

/// Whether a key is one of a family: any key, a number of 32 bits, or one of 64 bits.
pub fn key_fits(kind: KeyKind, key: &Key) -> bool
    ensures { result ≡ Families.key_fits kind key.now }
{
    match kind {
        KeyKind::Object => true,
        KeyKind::Int32 => match key {
            Key::Number(number) => is_int32(*number),
            _ => false,
        },
        KeyKind::Int64 => match key {
            Key::Number(number) => is_int64(*number),
            _ => false,
        },
    }
}

/// Whether a number is a value of a family: any number, one of 32 bits, or one of 64 bits.
pub fn number_fits(kind: ValueKind, number: i128) -> bool
    ensures { result ≡ Families.number_fits kind number }
{
    match kind {
        ValueKind::Object => true,
        ValueKind::Int32 => is_int32(number),
        ValueKind::Int64 => is_int64(number),
    }
}

/// Whether two keys are of one kind: both texts, both bytes or both numbers.
pub fn is_same_kind(a: &Key, b: &Key) -> bool
    ensures { result ≡ (rank_of a.now == rank_of b.now) }
{
    rank(a) == rank(b)
}
