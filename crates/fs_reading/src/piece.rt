//! A piece of a file.

use zb_ids::Text8;

/// Bytes of Main from a place on.
#[derive(Debug, Drop)]
pub struct Piece {
    /// From which place on.
    pub at: u64,
    /// The bytes.
    pub bytes: Text8,
}
