//! The file of a new database.

ghost use Rattle.std.specs.Prelude.{◌≡◌, ◌<◌, ◌++◌, ◌∷◌, [], None, length, slice_set, IfOk};
ghost use Rattle.zb_ids.specs.Tids.{stamp_number};
ghost use Rattle.zb_model.specs.Creation.{first_transaction as first_by};
ghost use Rattle.fs_records.specs.Blocks.{magic};
ghost use Rattle.fs_records.specs.File.{StandsFor};
ghost use Rattle.file_store.specs.First.{file_with};
ghost use Rattle.file_store.specs.Kept.{IsKept};

use crate::preparing::{count_staged, prepare};
use crate::ready::Ready;
use crate::staging::StagedIndex;
use fs_index::Index;
use fs_records::{COMMITTED, STATUS_PLACE};
use fs_recovery::Numbers;
use pack_copy::anew;
use std::alloc::{AllocError, Global};
use zb_ids::{Stamp, Text8, Tid};
use zb_model::first_transaction;

/// The place behind the first four bytes of a file.
const START: u64 = 4;

/// The file of a new database, and what a store keeps of it.
#[derive(Drop)]
pub(crate) struct NewFile {
    /// The bytes of the file.
    pub(crate) bytes: Text8,
    /// What is kept of it.
    pub(crate) ready: Ready,
}

/// The file with this transaction alone, which is committed: `FS30`, and the text of a vote with its
/// status set. The one error is want of memory.
fn committed(alloc: Global, vote: &[u8]) -> Result<Text8, AllocError>
    requires { 16 < length vote.now }
    ensures { IfOk result (λ file. file ≡ magic ++ slice_set vote.now 16 32) }
{
    let mut block = Text8::from_slice(alloc, vote)?.into_vec();
    block[STATUS_PLACE] = COMMITTED;
    let mut file = Text8::from_slice(alloc, b"FS30")?;
    file.extend_from_slice(&block)?;
    Ok(file)
}

/// The file of a new database, its first transaction alone, with what a store keeps of it. The one
/// error is want of memory.
pub(crate) fn first_file(alloc: Global, clock: Stamp) -> Result<NewFile, AllocError>
    ensures value { IfOk result (λ file. file.bytes ≡ file_with (first_by (stamp_number clock))) }
    ensures stands { IfOk result (λ file.
        StandsFor file.bytes (first_by (stamp_number clock) ∷ []) None) }
    ensures kept { IfOk result (λ file. IsKept file.bytes file.ready.index file.ready.numbers) }
    ensures free { IfOk result (λ file. file.ready.index.staged ≡ None) }
    ensures cut { IfOk result (λ file. file.ready.cut ≡ None) }
{
    let new = anew(alloc, first_transaction(alloc, clock)?)?;
    let places = Index::new(alloc);
    let mut index = StagedIndex::new(places, Tid(0), START);
    let mut numbers = Numbers::new(alloc);
    let vote = prepare(alloc, &mut index, &mut numbers, &new)?;
    let bytes = committed(alloc, vote.as_slice())?;
    count_staged(&mut numbers, &index);
    index.keep();
    Ok(NewFile {
        bytes,
        ready: Ready {
            index,
            numbers,
            cut: None,
        },
    })
}
