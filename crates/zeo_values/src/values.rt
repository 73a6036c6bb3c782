//! Writing values as pickles spell them.

ghost use Rattle.std.specs.Prelude.{◌≡◌, ◌<◌, ◌≤◌, ◌^◌, ◌++◌, ◌∷◌, [], OnOk, length};
ghost use Rattle.byteorder.specs.Endian.{little_bytes};
ghost use Rattle.zeo_values.specs.Values.{bytes_text, closing, count_text, id_text, long_size, maybe_text, name_text, none_text, opening, truth_text, list_of};

use std::alloc::AllocError;
use zb_ids::{Oid, Tid};

/// The lowest four bytes of a number, the lowest first.
fn four_bytes(number: usize) -> [u8; 4]
    ensures { result ≡ little_bytes 4 number }
{
    let bytes = number.to_le_bytes();
    [bytes[0], bytes[1], bytes[2], bytes[3]]
}

/// Writes bytes, behind their number.
#[tactic(auto, unfolding(crate::specs::Values::bytes_text))]
pub fn put_bytes(text: &mut Vec<u8>, bytes: &[u8]) -> Result<(), AllocError>
    ensures { OnOk result (text.new.items ≡ text.old.items ++ bytes_text bytes.now) }
{
    if bytes.len() < 256 {
        text.extend_from_slice(&[0x43, bytes.len() as u8])?;
    } else {
        text.push(0x42)?;
        text.extend_from_slice(&four_bytes(bytes.len()))?;
    }
    text.extend_from_slice(bytes)
}

/// Writes a text.
#[tactic(auto, unfolding(crate::specs::Values::name_text))]
pub fn put_name(text: &mut Vec<u8>, name: &[u8]) -> Result<(), AllocError>
    ensures { OnOk result (text.new.items ≡ text.old.items ++ name_text name.now) }
{
    text.push(0x58)?;
    text.extend_from_slice(&four_bytes(name.len()))?;
    text.extend_from_slice(name)
}

/// Writes the number of an object or of a transaction.
#[tactic(auto, unfolding(crate::specs::Values::id_text))]
pub fn put_id(text: &mut Vec<u8>, id: u64) -> Result<(), AllocError>
    ensures { OnOk result (text.new.items ≡ text.old.items ++ id_text id) }
{
    text.extend_from_slice(&[0x43, 8])?;
    text.extend_from_slice(&id.to_be_bytes())
}

/// How many bytes a long number takes.
fn size_of_long(count: u64) -> usize
    ensures { result ≡ long_size count }
{
    if count < 1 << 39 {
        5
    } else if count < 1 << 47 {
        6
    } else if count < 1 << 55 {
        7
    } else if count < 1 << 63 {
        8
    } else {
        9
    }
}

/// How many bytes the text of a number has.
#[tactic(auto, using(crate::specs::LengthLaws::count_of_one, crate::specs::LengthLaws::count_of_two, crate::specs::LengthLaws::count_of_four, crate::specs::LengthLaws::count_of_long))]
pub fn count_length(count: u64) -> usize
    ensures size { result ≡ length (count_text count) }
    ensures few { count < 2 ^ 31 → result ≤ 5 }
{
    if count < 256 {
        2
    } else if count < 65_536 {
        3
    } else if count < 1 << 31 {
        5
    } else {
        size_of_long(count) + 2
    }
}

/// Writes a number that four bytes don't have.
fn put_long(text: &mut Vec<u8>, count: u64) -> Result<(), AllocError>
    ensures { OnOk result (text.new.items ≡ text.old.items ++ 0x8a ∷ long_size count ∷ little_bytes (long_size count) count) }
{
    let size = size_of_long(count);
    let bytes = u128::from(count).to_le_bytes();
    text.extend_from_slice(&[0x8a, size as u8])?;
    text.extend_from_slice(&bytes[..size])
}

/// Writes a number.
#[tactic(auto, unfolding(crate::specs::Values::count_text))]
pub fn put_count(text: &mut Vec<u8>, count: u64) -> Result<(), AllocError>
    ensures { OnOk result (text.new.items ≡ text.old.items ++ count_text count) }
{
    if let Ok(byte) = u8::try_from(count) {
        return text.extend_from_slice(&[0x4b, byte]);
    }
    if let Ok(short) = u16::try_from(count) {
        text.push(0x4d)?;
        return text.extend_from_slice(&short.to_le_bytes());
    }
    if count < 1 << 31 {
        text.push(0x4a)?;
        return text.extend_from_slice(&(count as u32).to_le_bytes());
    }
    put_long(text, count)
}

/// Writes a truth value.
pub fn put_truth(text: &mut Vec<u8>, truth: bool) -> Result<(), AllocError>
    ensures { OnOk result (text.new.items ≡ text.old.items ++ truth_text truth) }
{
    text.push(if truth { 0x88 } else { 0x89 })?;
    Ok(())
}

/// Writes a number of a transaction, or None.
pub fn put_maybe_id(text: &mut Vec<u8>, id: Option<Tid>) -> Result<(), AllocError>
    ensures { OnOk result (text.new.items ≡ text.old.items ++ maybe_text id_text id) }
{
    match id {
        Some(tid) => put_id(text, tid.0),
        None => Ok(text.push(0x4e)?),
    }
}

/// Writes a number, or None.
pub fn put_maybe_count(text: &mut Vec<u8>, count: Option<u64>) -> Result<(), AllocError>
    ensures { OnOk result (text.new.items ≡ text.old.items ++ maybe_text count_text count) }
{
    match count {
        Some(count) => put_count(text, count),
        None => Ok(text.push(0x4e)?),
    }
}

/// Writes what stands before the items of a list.
pub fn put_opening(text: &mut Vec<u8>, count: usize) -> Result<(), AllocError>
    ensures { OnOk result (text.new.items ≡ text.old.items ++ 0x5d ∷ opening count) }
{
    text.push(0x5d)?;
    if count > 1 {
        text.push(0x28)?;
    }
    Ok(())
}

/// Writes what stands behind the items of a list.
pub fn put_closing(text: &mut Vec<u8>, count: usize) -> Result<(), AllocError>
    ensures { OnOk result (text.new.items ≡ text.old.items ++ closing count) }
{
    if count > 1 {
        text.push(0x65)?;
    } else if count == 1 {
        text.push(0x61)?;
    }
    Ok(())
}

/// Writes a list of objects.
#[tactic(auto, using(crate::specs::WrittenLaws::list_begun, crate::specs::WrittenLaws::list_on, crate::specs::WrittenLaws::list_over))]
pub fn put_oids(text: &mut Vec<u8>, oids: &[Oid]) -> Result<(), AllocError>
    ensures { OnOk result (text.new.items ≡ text.old.items ++ list_of id_text oids.now) }
{
    put_opening(text, oids.len())?;
    for oid in oids {
        put_id(text, oid.0)?;
    }
    put_closing(text, oids.len())
}

/// Writes a list of transactions.
#[tactic(auto, using(crate::specs::WrittenLaws::list_begun, crate::specs::WrittenLaws::list_on, crate::specs::WrittenLaws::list_over))]
pub fn put_tids(text: &mut Vec<u8>, tids: &[Tid]) -> Result<(), AllocError>
    ensures { OnOk result (text.new.items ≡ text.old.items ++ list_of id_text tids.now) }
{
    put_opening(text, tids.len())?;
    for tid in tids {
        put_id(text, tid.0)?;
    }
    put_closing(text, tids.len())
}
