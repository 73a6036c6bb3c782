//! What a vote makes ready before it writes.

ghost use Rattle.std.specs.Prelude.{◌≡◌, ℕ, ◌<◌, ◌++◌, ◌∷◌, [], false, List, None, length, map, IfOk, OnErr};
ghost use Rattle.std.specs.Option.{ForSome};
ghost use Rattle.zb_model.specs.declared.data.Transaction.{Transaction};
ghost use Rattle.zb_model.specs.Voting.{IsVotable, IsWellFormed, voted_of};
ghost use Rattle.fs_records.specs.Blocks.{Begins, Reached};
ghost use Rattle.fs_records.specs.Indexed.{IsIndexOf};
ghost use Rattle.fs_index.specs.Places.{oids_placed, places_in};
ghost use Rattle.fs_records.specs.Writing.{IsNext, block_of};
ghost use Rattle.file_store.specs.Kept.{HasRoomForTally};
ghost use Rattle.fs_recovery.specs.Numbers.{AreNumbersOf};
ghost use Rattle.file_store.specs.Preparing.{IsPrepared};

use crate::staging::StagedIndex;
use fs_records::{HEADER_LENGTH, write_transaction};
use fs_recovery::Numbers;
use std::alloc::{AllocError, Global};
use zb_ids::Text8;
use zb_model::NewTransaction;

/// The greatest length of a file.
const MOST: u64 = (1 << 63) - 1;

#[tactic(auto, using(fs_records::specs::PlacingLaws::text_end, fs_records::specs::PlacingLaws::begins_at))]
/// Makes a vote ready: the text that is to be written at the index's end, its places staged, and room
/// in the index and in the numbers for all that its finish adds. The one error is want of memory, also
/// where the file would be longer than 2^63 - 1 bytes, and then nothing is staged.
pub(crate) fn prepare(
    alloc: Global,
    index: &mut StagedIndex,
    numbers: &mut Numbers,
    new: &NewTransaction,
) -> Result<Text8, AllocError>
    requires free { index.old.staged ≡ None }
    requires above { index.old.newest < new.now.tid }
    requires well_formed { IsWellFormed new.now }
    ensures prepared { IfOk result (λ text.
        IsPrepared index.old index.new numbers.new new.now text) }
    ensures next { IfOk result (λ _. (bytes : List ℕ) (s : Reached) → Begins bytes s
        → IsIndexOf s index.old.kept → s.end ≡ index.old.end → IsVotable s.list new.now
        → IsNext s (block_of 32 index.old.kept.entries new.now) (voted_of s.list new.now)) }
    ensures none { OnErr result (index.new.staged ≡ None) }
    ensures places { (oid : ℕ) →
        places_in index.new.kept.entries oid ≡ places_in index.old.kept.entries oid }
    ensures starts { index.new.kept.transactions ≡ index.old.kept.transactions }
    ensures newest { index.new.newest ≡ index.old.newest }
    ensures end { index.new.end ≡ index.old.end }
    ensures tallies { numbers.new.tallies ≡ numbers.old.tallies }
    ensures greatest { numbers.new.greatest ≡ numbers.old.greatest }
    ensures pack_point { numbers.new.pack_point ≡ numbers.old.pack_point }
{
    let end = index.end();
    let text = write_transaction(alloc, new, end, index.index())?;
    if text.len() as u64 > MOST - end {
        return Err(AllocError);
    }
    numbers.reserve(new.changes.len())?;
    let texts = new.user.len() as u64 + new.description.len() as u64 + new.extension.len() as u64;
    let behind = end + text.len() as u64;
    index.stage(
        alloc,
        new.tid,
        end + (HEADER_LENGTH as u64 + texts),
        behind,
        new.changes.as_slice(),
    )?;
    Ok(text)
}

/// Counts what is staged, for which room was made.
pub(crate) fn count_staged(numbers: &mut Numbers, index: &StagedIndex)
    requires { ForSome index.now.staged (λ s. HasRoomForTally numbers.old (length s.records)) }
    ensures { ForSome index.now.staged (λ s. (list : List Transaction) (t : Transaction)
        → t.tid ≡ s.tid → t.packed ≡ false → map (λ c. c.oid) t.changes ≡ oids_placed s.records
        → AreNumbersOf list numbers.old → AreNumbersOf (list ++ t ∷ []) numbers.new) }
{
    if let Some(staged) = index.staged() {
        let _ = numbers.add(staged.tid, false, staged.records.as_slice());
    }
}
