//! A source is read to its end.

ghost use Rattle.std.specs.Prelude.{◌≡◌, ◌+◌, ◌≤◌, ◌<◌, ◌⊎◌, ℕ, List, length, vec_len, IfOk, OnOk, IfSome, IsErrOf, IsOkUnless};
ghost use Rattle.std.specs.Io.KnownBytes.{Consumes, IsAtEnd};
ghost use Rattle.zb_base.specs.Counts.{Rose};
ghost use Rattle.zb_outside.specs.declared.reading.ReadAllError.TheVariants.{Fault, Memory};

use crate::failed::Failed;
use crate::source::Source;
use std::alloc::{AllocError, Global};
use thiserror::Error;

/// Why a source wasn't read to its end.
#[derive(Clone, Copy, Debug, PartialEq, Eq, Error)]
pub enum ReadAllError {
    /// There was no memory for the bytes.
    #[error("out of memory")]
    Memory,
    /// More bytes were left than the limit allows.
    #[error("the input is too long")]
    TooLong,
    /// A read failed.
    #[error("the input can't be read")]
    Fault,
}

impl From<AllocError> for ReadAllError {
    ghost from_gives = { λ _ error. error ≡ Memory };

    fn from(_none_left: AllocError) -> ReadAllError {
        ReadAllError::Memory
    }
}

impl From<Failed> for ReadAllError {
    ghost from_gives = { λ _ error. error ≡ Fault };

    fn from(_failed: Failed) -> ReadAllError {
        ReadAllError::Fault
    }
}

/// How many bytes a read asks for at most.
const CHUNK: usize = 65_536;

/// All the bytes that are left, as `read_all` gives them, read in pieces as long as `chunk`.
fn read_with<S: Source>(
    alloc: Global,
    source: &mut S,
    limit: usize,
    chunk: &mut [u8],
) -> Result<Vec<u8>, ReadAllError>
    requires { 0 < length chunk.old }
    ensures whole { IfOk result (λ all. IfSome (S.left source.old) (λ left. all.items ≡ left)) }
    ensures end { OnOk result (IsAtEnd (S.left source.new)) }
    ensures within { IfOk result (λ all. vec_len all ≤ limit) }
    ensures too_long { IsErrOf result ReadAllError.TooLong
        → IfSome (S.left source.old) (λ left. limit < length left) }
    ensures fault { IsErrOf result ReadAllError.Fault
        → Rose (S.faults source.old) (S.faults source.new) }
    ensures complete { ¬ Rose (S.faults source.old) (S.faults source.new)
        → IfSome (S.left source.old) (λ left. length left ≤ limit
        → IsOkUnless result ReadAllError.Memory) }
    ensures refused { ¬ Rose (S.faults source.old) (S.faults source.new)
        → IfSome (S.left source.old) (λ left. limit < length left
        → IsErrOf result ReadAllError.TooLong ⊎ IsErrOf result ReadAllError.Memory) }
    ensures taken { (bytes : List ℕ)
        × Consumes (S.left source.old) (S.left source.new) bytes
        × (length bytes ≤ limit + 1) }
    ensures counted { S.faults source.old ≤ S.faults source.new }
    ensures sure { S.sure source.old → S.sure source.new × ¬ IsErrOf result ReadAllError.Fault }
{
    let mut all = Vec::new(alloc);
    'reading: while all.len() <= limit {
        let room = (limit - all.len()).min(chunk.len() - 1) + 1;
        match source.read(&mut chunk[..room])? {
            0 => return Ok(all),
            count => {
                if all.extend_from_slice(&chunk[..count]).is_err() {
                    return Err(ReadAllError::Memory);
                }
            }
        }
    }
    Err(ReadAllError::TooLong)
}

/// All the bytes that are left, read in pieces of 65,536, which brings the source to its end. It is
/// `TooLong` only where more than `limit` bytes were left, `Fault` only where a read failed, and else
/// `Memory`. With any answer at most `limit` + 1 bytes were taken from the source.
pub fn read_all<S: Source>(
    alloc: Global,
    source: &mut S,
    limit: usize,
) -> Result<Vec<u8>, ReadAllError>
    ensures whole { IfOk result (λ all. IfSome (S.left source.old) (λ left. all.items ≡ left)) }
    ensures end { OnOk result (IsAtEnd (S.left source.new)) }
    ensures within { IfOk result (λ all. vec_len all ≤ limit) }
    ensures too_long { IsErrOf result ReadAllError.TooLong
        → IfSome (S.left source.old) (λ left. limit < length left) }
    ensures fault { IsErrOf result ReadAllError.Fault
        → Rose (S.faults source.old) (S.faults source.new) }
    ensures complete { ¬ Rose (S.faults source.old) (S.faults source.new)
        → IfSome (S.left source.old) (λ left. length left ≤ limit
        → IsOkUnless result ReadAllError.Memory) }
    ensures refused { ¬ Rose (S.faults source.old) (S.faults source.new)
        → IfSome (S.left source.old) (λ left. limit < length left
        → IsErrOf result ReadAllError.TooLong ⊎ IsErrOf result ReadAllError.Memory) }
    ensures taken { (bytes : List ℕ)
        × Consumes (S.left source.old) (S.left source.new) bytes
        × (length bytes ≤ limit + 1) }
    ensures counted { S.faults source.old ≤ S.faults source.new }
    ensures sure { S.sure source.old → S.sure source.new × ¬ IsErrOf result ReadAllError.Fault }
{
    let mut buffer = vec![in alloc; 0u8; CHUNK]?;
    read_with(alloc, source, limit, buffer.as_mut_slice())
}
