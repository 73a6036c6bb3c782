//! The one way in which a call of the outside fails.

use thiserror::Error;

/// The call did nothing, and the count of faults of the object that was called rose.
#[derive(Clone, Copy, Debug, PartialEq, Eq, Error)]
#[error("a call of the outside failed")]
pub struct Failed;
