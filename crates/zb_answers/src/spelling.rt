//! The one spelling of numbers.

ghost use Rattle.std.specs.Prelude.{◌≡◌, ◌++◌, OnOk, decimal};
ghost use Rattle.zb_ids.specs.Hex.{hex_number};

use itoa::Buffer;
use std::alloc::AllocError;
use zb_ids::hex;

/// Puts a number's sixteen digits at the end.
pub(crate) fn push_number(out: &mut Vec<u8>, number: u64) -> Result<(), AllocError>
    ensures { OnOk result (out.new.items ≡ out.old.items ++ hex_number number) }
{
    out.extend_from_slice(&hex(number))
}

/// Puts a count in decimal digits at the end.
pub(crate) fn push_count(out: &mut Vec<u8>, count: u64) -> Result<(), AllocError>
    ensures { OnOk result (out.new.items ≡ out.old.items ++ decimal count) }
{
    let mut buffer = Buffer::new();
    out.extend_from_slice(buffer.format(count).as_bytes())
}

/// Puts a word at the end, and a count in decimal behind it.
pub(crate) fn push_counted(out: &mut Vec<u8>, word: &[u8], count: u64) -> Result<(), AllocError>
    ensures { OnOk result (out.new.items ≡ out.old.items ++ (word.now ++ decimal count)) }
{
    out.extend_from_slice(word)?;
    push_count(out, count)
}

/// Puts a word at the end, and a number in sixteen digits behind it.
pub(crate) fn push_numbered(out: &mut Vec<u8>, word: &[u8], number: u64) -> Result<(), AllocError>
    ensures { OnOk result (out.new.items ≡ out.old.items ++ (word.now ++ hex_number number)) }
{
    out.extend_from_slice(word)?;
    push_number(out, number)
}
