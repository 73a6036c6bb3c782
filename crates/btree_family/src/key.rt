//! Keys and their order.

ghost use Rattle.std.specs.Prelude.{◌≡◌};
ghost use Rattle.btree_family.specs.Keys.{rank_of, key_number, key_bytes, key_cmp};

use std::alloc::AllocError;
use std::cmp::Ordering;
use zb_ids::Text8;

/// A key of a bucket, a set or a tree.
#[derive(Debug, Drop)]
pub enum Key {
    /// A text, in UTF-8.
    Text(Text8),
    /// Bytes.
    Bytes(Text8),
    /// A whole number.
    Number(i128),
}

/// The place of a key's kind: numbers before bytes, and bytes before texts.
pub(crate) fn rank(key: &Key) -> u8
    ensures { result ≡ rank_of key.now }
{
    match key {
        Key::Number(_) => 0,
        Key::Bytes(_) => 1,
        Key::Text(_) => 2,
    }
}

/// The number that a key is, or 0.
fn number(key: &Key) -> i128
    ensures { result ≡ key_number key.now }
{
    match key {
        Key::Number(number) => *number,
        _ => 0,
    }
}

/// The bytes of a text or of bytes; a number has none.
fn bytes(key: &Key) -> &[u8]
    ensures { result.now ≡ key_bytes key.now }
{
    match key {
        Key::Text(text) | Key::Bytes(text) => text.as_slice(),
        Key::Number(_) => &[],
    }
}

/// The one order of keys: numbers by size, bytes by their bytes, texts by code points, which is the order
/// of their UTF-8; and between kinds numbers before bytes before texts. It takes no memory.
pub fn key_order(a: &Key, b: &Key) -> Ordering
    ensures { result ≡ key_cmp a.now b.now }
{
    rank(a)
        .cmp(&rank(b))
        .then(number(a).cmp(&number(b)))
        .then(bytes(a).cmp(bytes(b)))
}

impl Clone for Key {
    ghost use Rattle.std.specs.Prelude.{◌≡◌};

    ghost is_clone = { λ key copy. copy ≡ key };

    fn clone(&self) -> Result<Key, AllocError> {
        match self {
            Key::Text(text) => Ok(Key::Text(text.clone()?)),
            Key::Bytes(bytes) => Ok(Key::Bytes(bytes.clone()?)),
            Key::Number(number) => Ok(Key::Number(*number)),
        }
    }
}

impl PartialEq for Key {
    ghost use Rattle.std.specs.Cmp.{partial_equiv_from_equiv};
    ghost use Rattle.btree_family.specs.Keys.{key_eq};
    ghost use Rattle.btree_family.specs.KeyLaws.{key_eq-equiv};

    ghost eq = { key_eq };

    ghost laws = { partial_equiv_from_equiv key_eq-equiv };

    fn eq(&self, other: &Key) -> bool {
        match self.cmp(other) {
            Ordering::Equal => true,
            _ => false,
        }
    }
}

impl Eq for Key {
    ghost use Rattle.btree_family.specs.KeyLaws.{key_eq-equiv};

    ghost laws = { key_eq-equiv };
}

impl Ord for Key {
    ghost use Rattle.btree_family.specs.Keys.{key_cmp};
    ghost use Rattle.btree_family.specs.KeyLaws.{key_cmp-total};
    ghost use Rattle.std.proofs.Common.{refl};

    ghost cmp = { key_cmp };

    ghost total = { key_cmp-total };

    ghost matches_partial_cmp = { λ x y. refl };

    ghost matches_eq = { λ x y. refl };

    fn cmp(&self, other: &Key) -> Ordering {
        key_order(self, other)
    }
}

impl PartialOrd for Key {
    ghost use Rattle.std.specs.Ordering.{as_partial_cmp};
    ghost use Rattle.btree_family.specs.Keys.{key_cmp};
    ghost use Rattle.btree_family.specs.KeyLaws.{key_cmp-partial};

    ghost partial_cmp = { as_partial_cmp key_cmp };

    ghost laws = { key_cmp-partial };

    fn partial_cmp(&self, other: &Key) -> Option<Ordering> {
        Some(self.cmp(other))
    }
}
