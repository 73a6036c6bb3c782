//! Texts of leaves, and of numbers in the memo.

ghost use Rattle.std.specs.Prelude.{◌≡◌, ◌≤◌, [], ◌∷◌, ◌++◌, length, OnOk};
ghost use Rattle.byteorder.specs.Endian.{little_bytes};
ghost use Rattle.pickle_writing.specs.Spelling.{magnitude_of, fewest, long_text, number_text, counted_text, leaf_text, numbered_text};

use byteorder::{ByteOrder, LittleEndian};
use pickle_graph::Node;
use std::alloc::AllocError;
use zb_ids::Text8;

/// The number of a number, or of its complement where it is negative.
fn magnitude(number: i128) -> u128
    ensures { result ≡ magnitude_of number }
{
    if number < 0 {
        return -(number + 1) as u128;
    }
    number as u128
}

/// The fewest bytes from 5 on whose two's complement has a number of this magnitude.
#[tactic(auto, using(crate::proofs::Pieces::fewest_found, crate::proofs::Pieces::fewest_on, crate::proofs::Pieces::fewest_end, crate::proofs::Pieces::limit_next, crate::proofs::Pieces::limit_small))]
fn fewest_bytes(magnitude: u128) -> usize
    ensures least { result ≡ fewest 11 5 magnitude }
    ensures low { 5 ≤ result }
    ensures high { result ≤ 16 }
{
    let mut size: usize = 5;
    let mut more: u32 = 11;
    let mut limit: u128 = 0x80_0000_0000;
    while more > 0 {
        if magnitude < limit {
            return size;
        }
        limit *= 256;
        size += 1;
        more -= 1;
    }
    size
}

/// Writes a number that four bytes don't have.
fn write_long(text: &mut Text8, number: i128) -> Result<(), AllocError>
    ensures { OnOk result (text.new ≡ text.old ++ long_text number) }
{
    let size = fewest_bytes(magnitude(number));
    let mut bytes = [0; 16];
    LittleEndian::write_int128(&mut bytes, number, size);
    text.extend_from_slice(&[0x8a, size as u8])?;
    text.extend_from_slice(&bytes[..size])?;
    Ok(())
}

/// Writes a number in its shortest form.
fn write_number(text: &mut Text8, number: i128) -> Result<(), AllocError>
    ensures { OnOk result (text.new ≡ text.old ++ number_text number) }
{
    if let Ok(byte) = u8::try_from(number) {
        text.extend_from_slice(&[0x4b, byte])?;
        return Ok(());
    }
    if let Ok(short) = u16::try_from(number) {
        text.push(0x4d)?;
        text.extend_from_slice(&short.to_le_bytes())?;
        return Ok(());
    }
    if let Ok(word) = i32::try_from(number) {
        text.push(0x4a)?;
        text.extend_from_slice(&word.to_le_bytes())?;
        return Ok(());
    }
    write_long(text, number)
}

/// The lowest four bytes of a number, the lowest first.
fn four_bytes(number: u64) -> [u8; 4]
    ensures { result ≡ little_bytes 4 number }
{
    let bytes = number.to_le_bytes();
    [bytes[0], bytes[1], bytes[2], bytes[3]]
}

/// Writes an opcode, the length of bytes, and the bytes. The short opcode has its length in one byte.
fn write_counted(text: &mut Text8, short: u8, long: u8, bytes: &[u8]) -> Result<(), AllocError>
    ensures { OnOk result (text.new ≡ text.old ++ counted_text short long bytes.now) }
{
    if bytes.len() < 256 {
        text.extend_from_slice(&[short, bytes.len() as u8])?;
        text.extend_from_slice(bytes)?;
        return Ok(());
    }
    text.push(long)?;
    text.extend_from_slice(&four_bytes(bytes.len() as u64))?;
    text.extend_from_slice(bytes)?;
    Ok(())
}

/// Writes an opcode and bytes.
fn write_bytes(text: &mut Text8, byte: u8, bytes: &[u8]) -> Result<(), AllocError>
    ensures { OnOk result (text.new ≡ text.old ++ byte ∷ bytes.now) }
{
    text.push(byte)?;
    text.extend_from_slice(bytes)?;
    Ok(())
}

/// Writes a text, with its length before it.
fn write_text(text: &mut Text8, bytes: &[u8]) -> Result<(), AllocError>
    ensures { OnOk result (text.new ≡ text.old ++ 0x58 ∷ (little_bytes 4 (length bytes.now) ++ bytes.now)) }
{
    text.push(0x58)?;
    text.extend_from_slice(&four_bytes(bytes.len() as u64))?;
    text.extend_from_slice(bytes)?;
    Ok(())
}

/// Writes a global, from its two lines.
fn write_global(text: &mut Text8, first: &[u8], second: &[u8]) -> Result<(), AllocError>
    ensures { OnOk result (text.new ≡ text.old ++ 0x63 ∷ (first.now ++ 10 ∷ (second.now ++ 10 ∷ []))) }
{
    text.push(0x63)?;
    text.extend_from_slice(first)?;
    text.push(10)?;
    text.extend_from_slice(second)?;
    text.push(10)?;
    Ok(())
}

/// Writes a node that has no place in the memo.
pub(crate) fn write_leaf(text: &mut Text8, node: &Node) -> Result<(), AllocError>
    ensures { OnOk result (text.new ≡ text.old ++ leaf_text node.now) }
{
    match node {
        Node::None => write_bytes(text, 0x4e, &[]),
        Node::Bool(true) => write_bytes(text, 0x88, &[]),
        Node::Bool(false) => write_bytes(text, 0x89, &[]),
        Node::Number(number) => write_number(text, *number),
        Node::Wide(bytes) => write_counted(text, 0x8a, 0x8b, bytes.as_slice()),
        Node::Float(bytes) => write_bytes(text, 0x47, bytes.as_slice()),
        Node::Bytes(bytes) => write_counted(text, 0x43, 0x42, bytes.as_slice()),
        Node::OldText(bytes) => write_counted(text, 0x55, 0x54, bytes.as_slice()),
        Node::Text(bytes) => write_text(text, bytes.as_slice()),
        Node::Global { module, name } => write_global(text, module.as_slice(), name.as_slice()),
        _ => write_bytes(text, 0x29, &[]),
    }
}

/// Writes an opcode with a number of the memo. The short opcode has the number in one byte.
pub(crate) fn write_numbered(
    text: &mut Text8,
    short: u8,
    long: u8,
    number: u64,
) -> Result<(), AllocError>
    ensures { OnOk result (text.new ≡ text.old ++ numbered_text short long number) }
{
    if number < 256 {
        text.extend_from_slice(&[short, number as u8])?;
        return Ok(());
    }
    text.push(long)?;
    text.extend_from_slice(&four_bytes(number))?;
    Ok(())
}
