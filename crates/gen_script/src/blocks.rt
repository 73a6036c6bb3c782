//! The lines of the script, made a block at a time.

ghost use Rattle.std.specs.Prelude.{◌≡◌, ◌<◌, ◌^◌, ◌++◌, ◌∷◌, [], IfOk, OnOk};
ghost use Rattle.gen_script.specs.Script;
ghost use Rattle.gen_script.specs.Script.{is_hundredth, line, pack_behind, set_text, three_digits, turns_of};

use crate::line::GenLine;
use itoa::Buffer;
use std::alloc::{AllocError, Global};
use zb_ids::{ListOf, Text8};

/// The number behind one.
pub(crate) fn next(x: u64) -> u64
    requires { x < 2 ^ 31 }
    ensures value { result ≡ Script.next x }
    ensures small { result < 2 ^ 31 }
{
    (1_103_515_245 * x + 12_345) % 2_147_483_648
}

/// What is drawn with a number.
pub(crate) fn drawn(x: u64) -> u64
    ensures value { result ≡ Script.drawn x }
    ensures small { result < 1000 }
{
    x / 65_536 % 1000
}

/// Three digits of a number.
fn three_digits(n: u64) -> [u8; 3]
    requires { n < 1000 }
    ensures { result ≡ three_digits n }
{
    [
        b'0' + (n / 100) as u8,
        b'0' + (n / 10 % 10) as u8,
        b'0' + (n % 10) as u8,
    ]
}

/// The line that sets a number under a key.
fn set_text(alloc: Global, key: u64, value: u64) -> Result<Text8, AllocError>
    requires { key < 1000 }
    ensures { IfOk result (λ text. text ≡ set_text key value) }
{
    let mut text = Text8::from_slice(alloc, b"set 0000000000000001 \"k")?;
    text.extend_from_slice(&three_digits(key))?;
    text.extend_from_slice(b"\" ")?;
    let mut buffer = Buffer::new();
    text.extend_from_slice(buffer.format(value).as_bytes())?;
    Ok(text)
}

/// Puts a line of a client behind others.
fn push_text(block: &mut ListOf<GenLine>, client: u64, text: Text8) -> Result<(), AllocError>
    ensures { OnOk result (block.new ≡ block.old ++ line client text ∷ []) }
{
    block.push(GenLine { client, text })?;
    Ok(())
}

/// The same, of a text that is copied.
fn push(
    alloc: Global,
    block: &mut ListOf<GenLine>,
    client: u64,
    text: &[u8],
) -> Result<(), AllocError>
    ensures { OnOk result (block.new ≡ block.old ++ line client text.now ∷ []) }
{
    let text = Text8::from_slice(alloc, text)?;
    push_text(block, client, text)
}

/// The lines before the rounds.
pub(crate) fn setup(alloc: Global) -> Result<ListOf<GenLine>, AllocError>
    ensures { IfOk result (λ block. block ≡ Script.setup) }
{
    let mut block = ListOf::new(alloc);
    push(alloc, &mut block, 0, b"open local")?;
    push(alloc, &mut block, 1, b"open local")?;
    push(alloc, &mut block, 2, b"open remote")?;
    push(alloc, &mut block, 3, b"open remote")?;
    push(alloc, &mut block, 0, b"begin")?;
    push(alloc, &mut block, 0, b"new")?;
    push(
        alloc,
        &mut block,
        0,
        b"put 0000000000000001 <BTrees.OOBTree:OOBTree> None",
    )?;
    push(
        alloc,
        &mut block,
        0,
        b"put 0000000000000000 <persistent.mapping:PersistentMapping> {\"data\":{\"t\":@0000000000000001}}",
    )?;
    push(alloc, &mut block, 0, b"vote \"\" \"setup\"")?;
    push(alloc, &mut block, 0, b"finish")?;
    Ok(block)
}

/// The turns of two clients in a round.
fn turns_of(
    alloc: Global,
    i: u64,
    j: u64,
    u: u64,
    v: u64,
    k: u64,
) -> Result<ListOf<GenLine>, AllocError>
    requires first { u < 1000 }
    requires second { v < 1000 }
    ensures { IfOk result (λ block. block ≡ turns_of i j u v k) }
{
    let mut block = ListOf::new(alloc);
    push(alloc, &mut block, i, b"deliver")?;
    push(alloc, &mut block, j, b"deliver")?;
    push(alloc, &mut block, i, b"begin")?;
    push(alloc, &mut block, j, b"begin")?;
    push_text(&mut block, i, set_text(alloc, u, k)?)?;
    push_text(&mut block, j, set_text(alloc, v, k)?)?;
    push(alloc, &mut block, i, b"vote \"\" \"\"")?;
    push(alloc, &mut block, i, b"finish")?;
    push(alloc, &mut block, j, b"vote \"\" \"\"")?;
    push(alloc, &mut block, j, b"finish")?;
    push(alloc, &mut block, i, b"abort")?;
    push(alloc, &mut block, j, b"abort")?;
    Ok(block)
}

/// Whether the list is packed behind a round.
pub(crate) fn is_hundredth(k: u64) -> bool
    ensures { result ≡ is_hundredth k }
{
    k % 100 == 0
}

/// Packs the list behind a block, or doesn't.
fn push_pack(alloc: Global, block: &mut ListOf<GenLine>, packs: bool) -> Result<(), AllocError>
    ensures { OnOk result (block.new ≡ block.old ++ pack_behind packs) }
{
    if packs {
        push(alloc, block, 0, b"pack ffffffffffffffff")?;
    }
    Ok(())
}

/// The lines of round `k`, with the number before its two draws, and the number behind them.
pub(crate) fn round(alloc: Global, k: u64, x: u64) -> Result<(ListOf<GenLine>, u64), AllocError>
    requires number { x < 2 ^ 31 }
    requires round { k < 2 ^ 32 }
    ensures lines { IfOk result (λ made. made.0 ≡ Script.round k x) }
    ensures number { IfOk result (λ made. made.1 ≡ Script.next (Script.next x)) }
    ensures small { IfOk result (λ made. made.1 < 2 ^ 31) }
{
    let first = next(x);
    let second = next(first);
    let mut block = turns_of(alloc, k % 4, (k + 1) % 4, drawn(first), drawn(second), k)?;
    push_pack(alloc, &mut block, is_hundredth(k))?;
    Ok((block, second))
}
