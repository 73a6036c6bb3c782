//! An entry of a client cache.

use zb_ids::{Text8, Tid};

/// The bytes of a revision of an object, and the fronts at which a read of the object gives them: those
/// above its serial and up to its end, or without an end up to the greatest front that is known.
#[derive(Debug, Drop)]
pub struct Interval {
    /// The serial of the revision.
    pub serial: Tid,
    /// Its bytes.
    pub bytes: Text8,
    /// The greatest front at which they hold, if it is known.
    pub end: Option<Tid>,
}
