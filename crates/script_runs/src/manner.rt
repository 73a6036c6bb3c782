//! How the turns of a script are taken.

/// How the turns of a script are taken.
#[derive(Clone, Copy, Debug, PartialEq, Eq)]
pub enum Manner {
    /// In the order of the script's lines, each answered before the next one.
    InTurn,
    /// Each client's lines in a task of its own, in whatever order they come.
    SideBySide,
}
