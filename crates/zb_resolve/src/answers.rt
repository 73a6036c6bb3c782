//! Why nothing is merged.

ghost use Rattle.zb_resolve.specs.Resolution.{RefusedBy, IsWritableRefusal};

use bucket_merge::MergeRefusal;
use bucket_state::key_spelling;
use std::alloc::Global;
use zb_model::{ResolveError, Why};

/// Why buckets are not merged. A key is named by its spelling.
pub(crate) fn refused(alloc: Global, refusal: MergeRefusal) -> ResolveError
    requires { IsWritableRefusal refusal }
    ensures { RefusedBy refusal result }
{
    match refusal {
        MergeRefusal::Link => ResolveError::Refused(Why::Link),
        MergeRefusal::EmptySide => ResolveError::Refused(Why::EmptySide),
        MergeRefusal::Key(key) => match key_spelling(alloc, &key) {
            Ok(text) => ResolveError::Refused(Why::Key(text)),
            Err(_) => ResolveError::Memory,
        },
        MergeRefusal::FirstKey => ResolveError::Refused(Why::FirstKey),
        MergeRefusal::Memory => ResolveError::Memory,
    }
}
