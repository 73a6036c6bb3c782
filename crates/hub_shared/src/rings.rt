//! Whom a step may concern that waits.

/// A number that no session has, so that another holds the vote for it wherever one is held.
pub(crate) const NOBODY: u32 = u32::MAX;

/// What was so before a step.
#[derive(Drop)]
pub(crate) struct Outlook {
    /// How many entries the journal had.
    pub(crate) entries: u64,
    /// Whether the vote was held, or the step needs it, so that it may be left free.
    pub(crate) may_free: bool,
}

/// Whom to wake behind a step.
#[derive(Drop)]
pub(crate) struct Rings {
    /// Each ear.
    pub(crate) ears: bool,
    /// One that waits for the vote.
    pub(crate) voter: bool,
}
