//! The areas of a volume, and the one error of its calls.

use std::fmt;

/// An area of a volume: bytes that are read, written and cut at any place.
#[derive(Clone, Copy, Debug, PartialEq, Eq)]
pub enum Area {
    /// The file of the database.
    Main,
    /// A second area, in which a new file is prepared before it takes Main's place.
    Side,
    /// What helps to open Main without reading it whole. A database is whole without it.
    Hint,
}

/// A call of a volume failed: it was not done, or in part, or it was done and said otherwise. The
/// volume counts it. After a call that changes the volume, each area that the call is about may read
/// as a crash could leave it.
#[derive(Clone, Copy, Debug, PartialEq, Eq)]
pub struct StoreFault;

impl fmt::Display for StoreFault {
    fn fmt<W: fmt::Write>(&self, f: &mut fmt::Formatter<W>) -> fmt::Result {
        f.write_str("a call of the volume failed")
    }
}

impl std::error::Error for StoreFault {}
