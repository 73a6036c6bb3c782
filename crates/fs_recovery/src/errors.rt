//! Why a file wasn't opened.

ghost use Rattle.std.specs.Prelude.{◌≡◌};
ghost use Rattle.fs_recovery.specs.declared.errors.OpenError.TheVariants.{Memory, StoreFault as Fault};

use fs_records::Field;
use std::alloc::AllocError;
use thiserror::Error;
use zb_volume::StoreFault;

/// Why a file wasn't opened.
#[derive(Clone, Copy, Debug, PartialEq, Eq, Error)]
pub enum OpenError {
    /// A call of the volume failed, and the volume counted it. Where a read failed, nothing was
    /// changed. Else the cut or the sync failed: Main reads
    /// as before, or a part of its tail or all of it is gone.
    #[error("a call of the volume failed")]
    StoreFault,
    /// The file is damaged: the first rule that fails, and where. Nothing was changed.
    #[error("the file is damaged at {at}: {field}")]
    BadRecord {
        /// The place, counted from the start of the file: of a transaction, or of a data record
        /// where it is one of its rules that fails.
        at: u64,
        /// The rule.
        field: Field,
    },
    /// The first four bytes aren't `FS30`, or there are fewer. Nothing was changed.
    #[error("this is no FileStorage file")]
    NotFileStorage,
    /// There was no memory for the index. Nothing was changed.
    #[error("out of memory")]
    Memory,
}

impl From<StoreFault> for OpenError {
    ghost from_gives = { λ _ e. e ≡ Fault };

    fn from(_fault: StoreFault) -> OpenError {
        OpenError::StoreFault
    }
}

impl From<AllocError> for OpenError {
    ghost from_gives = { λ _ e. e ≡ Memory };

    fn from(_none_left: AllocError) -> OpenError {
        OpenError::Memory
    }
}
