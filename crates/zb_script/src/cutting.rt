//! Cutting bytes into lines.

ghost use Rattle.std.specs.Prelude.{◌≡◌, ◌<◌, ◌==◌, ◌∷◌, length, IfSome, position};
ghost use Rattle.zb_script.specs.Lines.{pieces};

/// The place of the first such byte.
pub(crate) fn place_of(separator: u8, bytes: &[u8]) -> Option<usize>
    ensures place { result ≡ position (λ b. b == separator) bytes.now }
    ensures bound { IfSome result (λ i. i < length bytes.now) }
{
    bytes.iter().position(|b| *b == separator)
}

/// The first line and what stands behind its newline.
pub(crate) fn first_line(bytes: &[u8]) -> (&[u8], &[u8])
    requires { 0 < length bytes.now }
    ensures pieces { pieces bytes.now ≡ result.0.now ∷ pieces result.1.now }
    ensures shorter { length result.1.now < length bytes.now }
{
    match place_of(b'\n', bytes) {
        Some(i) => (bytes.split_at(i).0, bytes.split_at(i + 1).1),
        None => bytes.split_at(bytes.len()),
    }
}
