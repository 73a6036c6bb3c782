//! What a value can be in a reference.

/// What a value that was read can be in the id of a reference.
#[derive(Clone, Copy, Debug, PartialEq, Eq)]
pub(crate) struct Form {
    /// The number of an object: eight bytes.
    pub oid: bool,
    /// A global.
    pub global: bool,
    /// An id that has a form with `@`: the number of an object, or a tuple of one and a global.
    pub short: bool,
}
