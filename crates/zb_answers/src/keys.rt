//! Keys as answers show them.

ghost use Rattle.std.specs.Prelude.{◌≡◌, ◌++◌, OnOk};
ghost use Rattle.std.specs.Fmt.{signed_decimal};
ghost use Rattle.zb_script.specs.Keys.{key_literal};

use btree_family::Key;
use itoa::Buffer;
use std::alloc::AllocError;
use zb_literals::{push_digits, push_text};

/// Puts a number in decimal digits at the end.
fn push_signed(out: &mut Vec<u8>, number: i128) -> Result<(), AllocError>
    ensures { OnOk result (out.new.items ≡ out.old.items ++ signed_decimal number) }
{
    let mut buffer = Buffer::new();
    out.extend_from_slice(buffer.format(number).as_bytes())
}

/// Puts the literal of a key at the end.
pub(crate) fn push_key_literal(out: &mut Vec<u8>, key: &Key) -> Result<(), AllocError>
    ensures { OnOk result (out.new.items ≡ out.old.items ++ key_literal key.now) }
{
    match key {
        Key::Text(text) => push_text(out, text.as_slice()),
        Key::Bytes(bytes) => {
            out.extend_from_slice(b"b:")?;
            push_digits(out, bytes.as_slice())
        }
        Key::Number(number) => push_signed(out, *number),
    }
}
