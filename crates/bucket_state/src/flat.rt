//! The texts of states whose values are leaves, made with no graph.

ghost use Rattle.std.specs.Prelude.{◌≡◌, ◌++◌, ◌∷◌, [], true, IfSome, IfOk, IsTrue};
ghost use Rattle.std.specs.Str.{is_utf8};
ghost use Rattle.byteorder.specs.Endian.{little_bytes};
ghost use Rattle.pickle_writing.specs.Spelling.{leaf_text, number_text};
ghost use Rattle.btree_family.specs.Classes.{class_seen};
ghost use Rattle.bucket_state.specs.Written.{key_text};
ghost use Rattle.bucket_state.specs.Flat.{IsFlatValue, IsWithItems, IsFlatState, tuple_start, tuple_end, members_of, link_text, next_text};

use crate::items::has_values;
use btree_family::{Bucket, ClassRow, Item, Key, ValueKind, key_fits, number_fits};
use byteorder::{BigEndian, ByteOrder};
use pickle_graph::Node;
use pickle_writing::leaf_spelling;
use std::alloc::{AllocError, Global};
use zb_ids::{Oid, Text8};

/// The lowest four bytes of a number, the lowest first.
fn four_bytes(number: u64) -> [u8; 4]
    ensures { result ≡ little_bytes 4 number }
{
    let bytes = number.to_le_bytes();
    [bytes[0], bytes[1], bytes[2], bytes[3]]
}

/// The opcode of texts or of long bytes, and a length.
fn head(opcode: u8, length: usize) -> [u8; 5]
    ensures { result ≡ opcode ∷ little_bytes 4 length }
{
    let bytes = four_bytes(length as u64);
    [opcode, bytes[0], bytes[1], bytes[2], bytes[3]]
}

/// The text, and a text node behind it.
fn with_text(mut text: Text8, bytes: &[u8]) -> Result<Text8, AllocError>
    ensures { IfOk result (λ all. all ≡ text ++ leaf_text (Node.Text bytes.now)) }
{
    text.extend_from_slice(&head(0x58, bytes.len()))?;
    text.extend_from_slice(bytes)?;
    Ok(text)
}

/// The text, and a node of bytes behind it.
fn with_bytes(mut text: Text8, bytes: &[u8]) -> Result<Text8, AllocError>
    ensures { IfOk result (λ all. all ≡ text ++ leaf_text (Node.Bytes bytes.now)) }
{
    if bytes.len() < 256 {
        text.extend_from_slice(&[0x43, bytes.len() as u8])?;
        text.extend_from_slice(bytes)?;
        return Ok(text);
    }
    text.extend_from_slice(&head(0x42, bytes.len()))?;
    text.extend_from_slice(bytes)?;
    Ok(text)
}

/// The text, and a number behind it.
fn with_number(alloc: Global, mut text: Text8, number: i128) -> Result<Text8, AllocError>
    ensures { IfOk result (λ all. all ≡ text ++ number_text number) }
{
    if let Ok(byte) = u8::try_from(number) {
        text.extend_from_slice(&[0x4b, byte])?;
        return Ok(text);
    }
    if let Ok(short) = u16::try_from(number) {
        text.push(0x4d)?;
        text.extend_from_slice(&short.to_le_bytes())?;
        return Ok(text);
    }
    if let Ok(word) = i32::try_from(number) {
        text.push(0x4a)?;
        text.extend_from_slice(&word.to_le_bytes())?;
        return Ok(text);
    }
    let spelled = leaf_spelling(alloc, &Node::Number(number))?;
    text.extend_from_slice(spelled.as_slice())?;
    Ok(text)
}

/// The text, and a key behind it.
pub(crate) fn with_key(alloc: Global, text: Text8, key: &Key) -> Result<Text8, AllocError>
    ensures { IfOk result (λ all. all ≡ text ++ key_text key.now) }
{
    match key {
        Key::Text(bytes) => with_text(text, bytes.as_slice()),
        Key::Bytes(bytes) => with_bytes(text, bytes.as_slice()),
        Key::Number(number) => with_number(alloc, text, *number),
    }
}

/// Whether each byte is below 128.
fn is_ascii(bytes: &[u8]) -> bool
    ensures { IsTrue result → is_utf8 bytes.now ≡ true }
{
    let mut most: u8 = 0;
    for byte in bytes {
        if *byte > most {
            most = *byte;
        }
    }
    most < 128
}

/// Whether the bytes are UTF-8.
fn is_text(bytes: &[u8]) -> bool
    ensures { IsTrue result → is_utf8 bytes.now ≡ true }
{
    if is_ascii(bytes) {
        return true;
    }
    match std::str::from_utf8(bytes) {
        Ok(_) => true,
        Err(_) => false,
    }
}

/// Whether these are an opcode and a length.
fn is_head(bytes: &[u8], opcode: u8, length: usize) -> bool
    ensures { IsTrue result → bytes.now ≡ opcode ∷ little_bytes 4 length }
{
    bytes == head(opcode, length).as_slice()
}

/// Whether the text is a whole number of at most four bytes, as it is written.
fn is_flat_number(kind: ValueKind, text: &[u8]) -> bool
    ensures { IsTrue result → IsFlatValue kind text.now }
{
    if text.len() == 2 {
        return text[0] == 0x4b;
    }
    if text.len() == 3 {
        if text[2] > 0 {
            return text[0] == 0x4d;
        }
        return false;
    }
    if text.len() == 5 {
        if text[3] > 0 {
            return text[0] == 0x4a;
        }
        if text[4] > 0 {
            return text[0] == 0x4a;
        }
    }
    false
}

/// The number that at most sixteen bytes say in two's complement, the lowest first.
fn number_said(bytes: &[u8]) -> i128 {
    let mut fill: u8 = 0;
    if let Some(last) = bytes.last() {
        if *last >= 128 {
            fill = 0xff;
        }
    }
    let mut all: [u8; 16] = [fill; 16];
    let mut place: usize = 0;
    for byte in bytes {
        if place < 16 {
            all[place] = *byte;
            place += 1;
        }
    }
    i128::from_le_bytes(all)
}

/// Whether bytes are the same.
fn is_same(one: &[u8], other: &[u8]) -> bool
    ensures { IsTrue result → one.now ≡ other.now }
{
    one == other
}

/// Whether the text is that of a whole number, as it is written.
fn spells_number(
    alloc: Global,
    kind: ValueKind,
    number: i128,
    text: &[u8],
) -> Result<bool, AllocError>
    ensures { IfOk result (λ so. IsTrue so → IsFlatValue kind text.now) }
{
    let spelled = leaf_spelling(alloc, &Node::Number(number))?;
    if is_same(text, spelled.as_slice()) {
        return Ok(number_fits(kind, number));
    }
    Ok(false)
}

/// Whether the text is a whole number of five to sixteen bytes, as it is written.
fn is_long_number(alloc: Global, kind: ValueKind, text: &[u8]) -> Result<bool, AllocError>
    ensures { IfOk result (λ so. IsTrue so → IsFlatValue kind text.now) }
{
    if text.len() < 7 {
        return Ok(false);
    }
    if text.len() > 18 {
        return Ok(false);
    }
    if text[0] != 0x8a {
        return Ok(false);
    }
    let (_, bytes) = text.split_at(2);
    spells_number(alloc, kind, number_said(bytes), text)
}

/// Whether the text is None, a boolean, a float, a text or bytes, as it is written.
fn is_flat_leaf(text: &[u8]) -> bool
    ensures { IsTrue result → IsFlatValue ValueKind.Object text.now }
{
    if text.len() > 0xffff_ffff {
        return false;
    }
    if text.len() >= 5 {
        let (front, rest) = text.split_at(5);
        if is_head(front, 0x58, rest.len()) {
            return is_text(rest);
        }
        if is_head(front, 0x42, rest.len()) {
            return rest.len() > 255;
        }
    }
    if text.len() == 1 {
        if text[0] == 0x4e {
            return true;
        }
        if text[0] == 0x88 {
            return true;
        }
        return text[0] == 0x89;
    }
    if text.len() < 2 {
        return false;
    }
    if text[0] == 0x47 {
        return text.len() == 9;
    }
    if text[0] == 0x43 {
        return text.len() - 2 == text[1] as usize;
    }
    false
}

/// Whether the text is that of a leaf that is a value of the family. Numbers of more than sixteen
/// bytes and classes are not seen.
fn is_flat(alloc: Global, kind: ValueKind, text: &[u8]) -> Result<bool, AllocError>
    ensures { IfOk result (λ so. IsTrue so → IsFlatValue kind text.now) }
{
    if is_flat_number(kind, text) {
        return Ok(true);
    }
    if is_long_number(alloc, kind, text)? {
        return Ok(true);
    }
    match kind {
        ValueKind::Object => Ok(is_flat_leaf(text)),
        _ => Ok(false),
    }
}

/// The text, and an item's key and value behind it, where they are flat and of the class.
fn with_item(
    alloc: Global,
    text: Text8,
    row: &ClassRow,
    item: &Item,
) -> Result<Option<Text8>, AllocError>
    ensures { IfOk result (λ found. IfSome found
        (IsWithItems (class_seen row.now) text (item.now ∷ []))) }
{
    if !key_fits(row.key, &item.key) {
        return Ok(None);
    }
    let mut text = with_key(alloc, text, &item.key)?;
    match &item.value {
        None => {
            if has_values(row.kind) {
                return Ok(None);
            }
        }
        Some(value) => {
            if !has_values(row.kind) {
                return Ok(None);
            }
            if !is_flat(alloc, row.value, value.as_slice())? {
                return Ok(None);
            }
            text.extend_from_slice(value.as_slice())?;
        }
    }
    Ok(Some(text))
}

/// The text, and items behind it, where they are flat and of the class.
pub(crate) fn with_items(
    alloc: Global,
    text: Text8,
    row: &ClassRow,
    items: &[Item],
) -> Result<Option<Text8>, AllocError>
    ensures { IfOk result (λ found. IfSome found
        (IsWithItems (class_seen row.now) text items.now)) }
{
    let mut all = text;
    for item in items {
        match with_item(alloc, all, row, item)? {
            None => return Ok(None),
            Some(more) => all = more,
        }
    }
    Ok(Some(all))
}

/// The text, and a link to an object of a class behind it.
#[tactic(auto, using(crate::proofs::FlatPieces::link_appended))]
pub(crate) fn with_link(text: Text8, row: &ClassRow, oid: Oid) -> Result<Text8, AllocError>
    ensures { IfOk result (λ all. all ≡ text ++ link_text oid row.now.module.now row.now.name.now) }
{
    let mut bytes = [0; 8];
    BigEndian::write_u64(&mut bytes, oid.0);
    let mut text = with_bytes(text, &bytes)?;
    text.push(0x63)?;
    text.extend_from_slice(row.module.as_bytes())?;
    text.push(10)?;
    text.extend_from_slice(row.name.as_bytes())?;
    text.extend_from_slice(&[10, 0x86, 0x51])?;
    Ok(text)
}

/// The text, and behind it the link to the next bucket of a class, if there is one, and the end of
/// a tuple of it and one member more.
#[tactic(auto, using(crate::proofs::FlatPieces::next_appended))]
pub(crate) fn with_next(
    mut text: Text8,
    row: &ClassRow,
    next: Option<Oid>,
) -> Result<Text8, AllocError>
    ensures { IfOk result (λ all. all ≡ text ++ next_text (class_seen row.now) next) }
{
    match next {
        None => {
            text.push(0x85)?;
            Ok(text)
        }
        Some(oid) => {
            let mut text = with_link(text, row, oid)?;
            text.push(0x86)?;
            Ok(text)
        }
    }
}

/// How many members the tuple of so many items has.
pub(crate) fn members(values: bool, items: usize) -> Result<usize, AllocError>
    ensures { IfOk result (λ count. count ≡ members_of values items) }
{
    if !values {
        return Ok(items);
    }
    match items.checked_mul(2) {
        Some(count) => Ok(count),
        None => Err(AllocError),
    }
}

/// What stands before the members of a tuple of so many.
pub(crate) fn opened(alloc: Global, count: usize) -> Result<Text8, AllocError>
    ensures { IfOk result (λ text. text ≡ tuple_start count) }
{
    let mut text = Text8::new(alloc);
    if count > 3 {
        text.push(0x28)?;
    }
    Ok(text)
}

/// The text, and what stands behind the members of a tuple of so many.
pub(crate) fn closed(mut text: Text8, count: usize) -> Result<Text8, AllocError>
    ensures { IfOk result (λ all. all ≡ text ++ tuple_end count) }
{
    let byte = match count {
        0 => 0x29,
        1 => 0x85,
        2 => 0x86,
        3 => 0x87,
        _ => 0x74,
    };
    text.push(byte)?;
    Ok(text)
}

/// The text of the state of a bucket or a set, of the class that the row is, where its keys and
/// values are of the class and each value is the text of a leaf: what
/// [`spelling`](pickle_writing::spelling) gives of the graph that
/// [`write_bucket`](crate::write_bucket) makes.
///
/// It is `None` for every other bucket, and for some whose values are numbers of more than sixteen
/// bytes or classes. Want of memory is the one error.
#[tactic(auto, using(crate::proofs::FlatPieces::state_text))]
pub fn flat_state(
    alloc: Global,
    bucket: &Bucket,
    row: &ClassRow,
) -> Result<Option<Text8>, AllocError>
    ensures { IfOk result (λ found. IfSome found (IsFlatState (class_seen row.now) bucket.now)) }
{
    let items = bucket.items().as_slice();
    let count = members(has_values(row.kind), items.len())?;
    let start = opened(alloc, count)?;
    let Some(text) = with_items(alloc, start, row, items)? else {
        return Ok(None);
    };
    let inner = closed(text, count)?;
    let all = with_next(inner, row, bucket.next())?;
    Ok(Some(all))
}
