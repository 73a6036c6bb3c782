//! A data record's header, read together with the bytes behind it.

ghost use Rattle.std.specs.Prelude.{◌≡◌, ◌+◌, ◌≤◌, length, take, drop, min, IfOk};
ghost use Rattle.zb_model.specs.declared.data.Content.TheVariants.{Held};
ghost use Rattle.zb_volume.specs.Disk.{main_bytes};
ghost use Rattle.fs_records.specs.Headers.{data_header_of};
ghost use Rattle.zb_volume.specs.States.{OnlyReads};

use fs_records::{DATA_HEADER_LENGTH, DataHeader, read_data_header};
use std::alloc::{AllocError, Global};
use zb_ids::Text8;
use zb_model::Content;
use zb_volume::{Area, StoreFault, Volume};

/// How many bytes are read together at most.
pub(crate) const FRONT: usize = 4_096;

/// Fills the front of `out` with the bytes at a place, of which there are `room`, and answers how
/// many it holds.
pub(crate) fn fill_front<V: Volume>(
    volume: &mut V,
    at: u64,
    room: u64,
    out: &mut [u8; FRONT],
) -> Result<usize, StoreFault>
    requires { V.told → at + room ≤ length (main_bytes (V.state volume.old).log) }
    ensures count { IfOk result (λ count. count ≡ min room 4096) }
    ensures bytes { V.told → IfOk result (λ count.
        take count out.new ≡ take count (drop at (main_bytes (V.state volume.old).log))) }
    ensures read { OnlyReads (V.state volume.old) (V.state volume.new) result }
{
    let mut m = FRONT;
    if room < FRONT as u64 {
        m = room as usize;
    }
    volume.read(Area::Main, at, &mut out[..m])?;
    Ok(m)
}

/// The header that these bytes begin with.
pub(crate) fn header_in(front: &[u8; FRONT]) -> DataHeader
    ensures { result ≡ data_header_of front.now }
{
    let mut bytes = [0; DATA_HEADER_LENGTH];
    bytes.copy_from_slice(&front[..DATA_HEADER_LENGTH]);
    read_data_header(&bytes)
}

/// The content of so many bytes behind the header that these bytes begin with. The one error is want
/// of memory.
pub(crate) fn content_in(
    alloc: Global,
    front: &[u8; FRONT],
    count: usize,
) -> Result<Content, AllocError>
    requires { 42 + count ≤ 4096 }
    ensures { IfOk result (λ content. content ≡ Held (take count (drop 42 front.now))) }
{
    let all = &front[..];
    let bytes = Text8::from_slice(alloc, &all[DATA_HEADER_LENGTH..DATA_HEADER_LENGTH + count])?;
    Ok(Content::Held(bytes))
}
