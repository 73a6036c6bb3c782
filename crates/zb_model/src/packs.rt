//! What the calls of a pack answer.

/// How far the copying of a pack has come.
#[derive(Clone, Copy, Debug, PartialEq, Eq)]
pub struct Copied {
    /// How many changes the transactions have that are copied so far.
    pub count: u64,
    /// Whether the packed list is copied whole.
    pub whole: bool,
}

/// What a pack made of the list.
#[derive(Clone, Copy, Debug, PartialEq, Eq)]
pub struct Packed {
    /// How many changes the packed list has.
    pub kept: u64,
    /// How many changes went.
    pub dropped: u64,
}
