//! Writing records.

ghost use Rattle.pickle_writing.specs.Spelling.{Writes};
ghost use Rattle.zb_record.specs.Records.{object_text};

use crate::record::ObjectRecord;
use pickle_writing::{WriteError, write_pickle};
use std::alloc::Global;
use zb_ids::Text8;

/// The text of a record: that of its class, then that of its state, each as
/// [`write_pickle`](pickle_writing::write_pickle) gives it. Reading it gives the same two graphs, as
/// [`written_records_read_back`](crate::written_records_read_back) says.
///
/// `TooDeep` is answered exactly where one of the two is too deep. Want of memory answers `Memory`.
pub fn write_record(alloc: Global, entry: &ObjectRecord) -> Result<Text8, WriteError>
    ensures text { Writes result (object_text entry.now.class entry.now.state) }
{
    let mut text = write_pickle(alloc, &entry.class)?;
    let state = write_pickle(alloc, &entry.state)?;
    text.extend_from_slice(state.as_slice())?;
    Ok(text)
}
