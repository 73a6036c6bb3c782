//! What is noted of a data record.

/// What a data record says of its object's history.
#[derive(Clone, Copy, Debug, PartialEq, Eq)]
pub(crate) struct Noted {
    /// How many bytes the object has by it, or `None` where it is gone.
    pub(crate) size: Option<u64>,
    /// Where the record's transaction stands.
    pub(crate) transaction: u64,
}
