//! Why a call of a store is refused.

ghost use Rattle.std.specs.Prelude.{◌≡◌};
ghost use Rattle.zb_model.specs.declared.store_error.StoreError.TheVariants.{Memory};

use std::alloc::AllocError;
use std::fmt;

/// Why a call of a store is refused.
#[derive(Clone, Copy, Debug, PartialEq, Eq)]
pub enum StoreError {
    /// A write, cut, sync or replace of the volume failed, and the store counted it. Nothing more is
    /// promised of the store than what its images allow: the volume is to be opened again.
    StoreFault,
    /// Reading the volume failed, and the store counted it. The store is as before; but no pack is begun
    /// any more where a call of a pack was refused.
    ReadFault,
    /// There is no memory. The store is as before; but no pack is begun any more where a call of a pack
    /// was refused.
    Memory,
}

impl fmt::Display for StoreError {
    fn fmt<W: fmt::Write>(&self, f: &mut fmt::Formatter<W>) -> fmt::Result {
        f.write_str(match self {
            StoreError::StoreFault => "a call of the volume failed",
            StoreError::ReadFault => "reading the volume failed",
            StoreError::Memory => "out of memory",
        })
    }
}

impl std::error::Error for StoreError {}

impl From<AllocError> for StoreError {
    ghost from_gives = { λ _ error. error ≡ Memory };

    fn from(_error: AllocError) -> StoreError {
        StoreError::Memory
    }
}
