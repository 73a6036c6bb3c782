//! How the serving of links ended.

/// Why no further link was accepted.
#[derive(Clone, Copy, Debug, PartialEq, Eq)]
pub enum ServingEnd {
    /// As many were as were to be.
    All,
    /// The doors failed.
    NoLink,
    /// A worker wasn't started.
    NoWorkers,
    /// The history is full, so no session was opened.
    StepsSpent,
    /// There was no memory, or no session of the link's number.
    Memory,
}

/// What the serving of links came to.
#[derive(Clone, Copy, Debug, PartialEq, Eq)]
pub struct Served {
    /// Why no further link was accepted. Those before were served to their end.
    pub end: ServingEnd,
    /// How many sessions ended for a fault of their link or for want of memory.
    pub faulty: u64,
}
