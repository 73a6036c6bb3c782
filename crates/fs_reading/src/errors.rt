//! Why something could not be read.

ghost use Rattle.std.specs.Prelude.{◌≡◌};
ghost use Rattle.fs_reading.specs.StoreErrors.{store_error_of};
ghost use Rattle.fs_reading.specs.declared.errors.ReadError.TheVariants.{ReadFault, Memory};

use std::alloc::{AllocError, AllocFailed};
use thiserror::Error;
use zb_model::StoreError;
use zb_volume::StoreFault;

/// Why something could not be read. The volume is as it was.
#[derive(Clone, Copy, Debug, PartialEq, Eq, Error)]
pub enum ReadError {
    /// A read of the volume failed, which the volume counted.
    #[error("a read of the volume failed")]
    ReadFault,
    /// There is not enough memory.
    #[error("out of memory")]
    Memory,
}

impl From<StoreFault> for ReadError {
    ghost from_gives = { λ _ e. e ≡ ReadFault };

    fn from(_e: StoreFault) -> ReadError {
        ReadError::ReadFault
    }
}

impl From<AllocError> for ReadError {
    ghost from_gives = { λ _ e. e ≡ Memory };

    fn from(_e: AllocError) -> ReadError {
        ReadError::Memory
    }
}

impl<T: Drop> From<AllocFailed<T>> for ReadError {
    ghost from_gives = { λ _ e. e ≡ Memory };

    fn from(_e: AllocFailed<T>) -> ReadError {
        ReadError::Memory
    }
}

impl From<ReadError> for StoreError {
    ghost from_gives = { λ e refused. refused ≡ store_error_of e };

    fn from(e: ReadError) -> StoreError {
        match e {
            ReadError::Memory => StoreError::Memory,
            ReadError::ReadFault => StoreError::ReadFault,
        }
    }
}
