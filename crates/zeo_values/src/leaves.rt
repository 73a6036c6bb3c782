//! Reading values loosely: what stands where a value is to stand, whatever else stands there.

ghost use Rattle.std.specs.Prelude.{◌≡◌, ◌<◌, take, drop};
ghost use Rattle.zeo_values.specs.Values.{byte_in, word_in};
ghost use Rattle.zeo_values.specs.Leaves.{behind, behind_bytes, behind_count, behind_maybe_count, behind_maybe_id, behind_name, bytes_in, count_in, count_size, id_in, items_in, long_byte, long_in, maybe_count_in, maybe_id_in, name_in, small, truth_in};

use zb_ids::Tid;

/// The byte at a place, or 0 behind the end.
pub fn byte_in(place: usize, bytes: &[u8]) -> u8
    ensures { result ≡ byte_in place bytes.now }
{
    match bytes.get(place) {
        Some(byte) => *byte,
        None => 0,
    }
}

/// The bytes without the first ones.
#[tactic(auto, using(std::proofs::lemmas::List::drop_min), unfolding(crate::specs::Leaves::behind))]
pub fn behind(count: usize, bytes: &[u8]) -> &[u8]
    ensures { result.now ≡ behind count bytes.now }
{
    bytes.split_at(count.min(bytes.len())).1
}

/// The first bytes.
#[tactic(auto, using(std::proofs::lemmas::List::take_min))]
fn front(count: usize, bytes: &[u8]) -> &[u8]
    ensures { result.now ≡ take count bytes.now }
{
    bytes.split_at(count.min(bytes.len())).0
}

/// The bytes without the first ones.
#[tactic(auto, unfolding(crate::specs::Leaves::behind))]
pub fn back(count: usize, bytes: &[u8]) -> &[u8]
    ensures { result.now ≡ drop count bytes.now }
{
    behind(count, bytes)
}

/// The number of an object or of a transaction.
#[tactic(auto, unfolding(crate::specs::Leaves::id_in))]
pub fn id_in(bytes: &[u8]) -> u64
    ensures { result ≡ id_in bytes.now }
{
    u64::from_be_bytes([
        byte_in(2, bytes),
        byte_in(3, bytes),
        byte_in(4, bytes),
        byte_in(5, bytes),
        byte_in(6, bytes),
        byte_in(7, bytes),
        byte_in(8, bytes),
        byte_in(9, bytes),
    ])
}

/// A byte of a long number, or 0 behind its size.
fn long_byte(place: u8, bytes: &[u8]) -> u8
    requires { place < 8 }
    ensures { result ≡ long_byte place bytes.now }
{
    if place < byte_in(1, bytes) {
        byte_in(place as usize + 2, bytes)
    } else {
        0
    }
}

fn long_in(bytes: &[u8]) -> u64
    ensures { result ≡ long_in bytes.now }
{
    u64::from_le_bytes([
        long_byte(0, bytes),
        long_byte(1, bytes),
        long_byte(2, bytes),
        long_byte(3, bytes),
        long_byte(4, bytes),
        long_byte(5, bytes),
        long_byte(6, bytes),
        long_byte(7, bytes),
    ])
}

/// Four bytes behind the first one, as a number.
pub fn word_in(bytes: &[u8]) -> u32
    ensures { result ≡ word_in bytes.now }
{
    u32::from_le_bytes([
        byte_in(1, bytes),
        byte_in(2, bytes),
        byte_in(3, bytes),
        byte_in(4, bytes),
    ])
}

/// A number.
#[tactic(auto, unfolding(crate::specs::Leaves::count_in))]
pub fn count_in(bytes: &[u8]) -> u64
    ensures { result ≡ count_in bytes.now }
{
    match byte_in(0, bytes) {
        0x4b => u64::from(byte_in(1, bytes)),
        0x4d => u64::from(u16::from_le_bytes([byte_in(1, bytes), byte_in(2, bytes)])),
        0x4a => u64::from(word_in(bytes)),
        _ => long_in(bytes),
    }
}

/// How many bytes a number takes.
fn count_size(bytes: &[u8]) -> usize
    ensures { result ≡ count_size bytes.now }
{
    match byte_in(0, bytes) {
        0x4b => 2,
        0x4d => 3,
        0x4a => 5,
        _ => byte_in(1, bytes) as usize + 2,
    }
}

/// What stands behind a number.
#[tactic(auto, unfolding(crate::specs::Leaves::behind_count))]
pub fn behind_count(bytes: &[u8]) -> &[u8]
    ensures { result.now ≡ behind_count bytes.now }
{
    back(count_size(bytes), bytes)
}

/// A number of at most 32 bits, or 0.
pub fn small(number: u64) -> u32
    ensures { result ≡ small number }
{
    if number < 1 << 32 { number as u32 } else { 0 }
}

/// Bytes.
#[tactic(auto, unfolding(crate::specs::Leaves::bytes_in))]
pub fn bytes_in(bytes: &[u8]) -> &[u8]
    ensures { result.now ≡ bytes_in bytes.now }
{
    if byte_in(0, bytes) == 0x43 {
        front(byte_in(1, bytes) as usize, back(2, bytes))
    } else {
        front(word_in(bytes) as usize, back(5, bytes))
    }
}

/// What stands behind bytes.
#[tactic(auto, unfolding(crate::specs::Leaves::behind_bytes))]
pub fn behind_bytes(bytes: &[u8]) -> &[u8]
    ensures { result.now ≡ behind_bytes bytes.now }
{
    if byte_in(0, bytes) == 0x43 {
        back(byte_in(1, bytes) as usize, back(2, bytes))
    } else {
        back(word_in(bytes) as usize, back(5, bytes))
    }
}

/// A text.
#[tactic(auto, unfolding(crate::specs::Leaves::name_in))]
pub fn name_in(bytes: &[u8]) -> &[u8]
    ensures { result.now ≡ name_in bytes.now }
{
    front(word_in(bytes) as usize, back(5, bytes))
}

/// What stands behind a text.
#[tactic(auto, unfolding(crate::specs::Leaves::behind_name))]
pub fn behind_name(bytes: &[u8]) -> &[u8]
    ensures { result.now ≡ behind_name bytes.now }
{
    back(word_in(bytes) as usize, back(5, bytes))
}

/// Whether a truth value is true.
pub fn truth_in(bytes: &[u8]) -> bool
    ensures { result ≡ truth_in bytes.now }
{
    byte_in(0, bytes) == 0x88
}

/// The first item of a list.
#[tactic(auto, unfolding(crate::specs::Leaves::items_in))]
pub fn items_in(bytes: &[u8]) -> &[u8]
    ensures { result.now ≡ items_in bytes.now }
{
    if byte_in(1, bytes) == 0x28 {
        back(2, bytes)
    } else {
        back(1, bytes)
    }
}

/// A number of a transaction, or None.
pub fn maybe_id_in(bytes: &[u8]) -> Option<Tid>
    ensures { result ≡ maybe_id_in bytes.now }
{
    if byte_in(0, bytes) == 0x4e {
        None
    } else {
        Some(Tid(id_in(bytes)))
    }
}

/// What stands behind a number of a transaction, or None.
pub fn behind_maybe_id(bytes: &[u8]) -> &[u8]
    ensures { result.now ≡ behind_maybe_id bytes.now }
{
    if byte_in(0, bytes) == 0x4e {
        behind(1, bytes)
    } else {
        behind(10, bytes)
    }
}

/// A number, or None.
pub fn maybe_count_in(bytes: &[u8]) -> Option<u64>
    ensures { result ≡ maybe_count_in bytes.now }
{
    if byte_in(0, bytes) == 0x4e {
        None
    } else {
        Some(count_in(bytes))
    }
}

/// What stands behind a number, or None.
pub fn behind_maybe_count(bytes: &[u8]) -> &[u8]
    ensures { result.now ≡ behind_maybe_count bytes.now }
{
    if byte_in(0, bytes) == 0x4e {
        behind(1, bytes)
    } else {
        behind_count(bytes)
    }
}
