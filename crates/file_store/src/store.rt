//! The store over a volume.

ghost use Rattle.std.specs.Prelude.{◌≡◌, ◌<◌, ◌++◌, ◌∷◌, [], None, Some, false, length, option_map, take, IfErr, IfOk, IsSome, OnErr, OnOk};
ghost use Rattle.std.specs.Option.{ForSome};
ghost use Rattle.zb_volume.specs.declared.areas.Area.TheVariants.{Main, Side, Hint};
ghost use Rattle.zb_volume.specs.Disk.{seen, IsSettled};
ghost use Rattle.zb_volume.specs.declared.areas.Area.{Area};
ghost use Rattle.zb_volume.specs.Moments.{LeavesOnly, StaysAs};
ghost use Rattle.zb_volume.specs.States.{OthersStay};
ghost use Rattle.zb_model.specs.Database.{newest_tid};
ghost use Rattle.zb_model.specs.Packing.{packed_by};
ghost use Rattle.zb_model.specs.Packs.{IsCopyOf, IsCopyTurn, IsPackCount, StandsForOneOfTwo};
ghost use Rattle.zb_model.specs.Packs.{new_pack};
ghost use Rattle.zb_model.specs.Stores.{AbortLeaves, BreaksByFault, CopyLeaves, FinishLeaves};
ghost use Rattle.zb_model.specs.Stores.{HasStoreCause, MayBreak, StandsForOneOf};
ghost use Rattle.zb_model.specs.Stores.{SwitchLeaves, VoteLeaves, tid_of_begun};
ghost use Rattle.zb_model.specs.Voting.{IsVotable, IsWellFormed, voted_of};
ghost use Rattle.file_store.specs.Hinting.{HasHonestHint, IsHintedUpTo, KeepsStore, IsHinted, LeavesHonest, StaysHonest};
ghost use Rattle.file_store.specs.HintingLaws.{hinted_once};
ghost use Rattle.file_store.specs.Kept.{HasRoomForTally, IsCopyKept, IsKept, IsVotedIn, StandsForList};
ghost use Rattle.file_store.specs.KeptLaws.{copied_once, kept_once, voted_once};
ghost use Rattle.file_store.specs.Outcomes.{AsksClock, IsOpenStore, IsRefusal};
ghost use Rattle.file_store.specs.Written.{IsAbortWritten, IsCopyInFull, IsFinishWritten};
ghost use Rattle.file_store.specs.Written.{IsListPacked, LeavesList, LeavesOneOfTwo};
ghost use Rattle.file_store.specs.Written.{SwitchWrites, VoteWrites};
ghost use Rattle.file_store.specs.Outlined.{IsOutlinedIn};
ghost use Rattle.file_store.specs.SourcesLaws.{sources_once};
ghost use Rattle.fs_reading.specs.Known.{AreSourcesOf};
ghost use Rattle.file_store.specs.OutlinedLaws.{outlined_once};

use crate::looking::{found_before, transaction_with};
use crate::opening::{keep as keep_opened, open};
use crate::outlined::{change_in, outline_of};
use crate::packing::pack_file;
use crate::preparing::{count_staged, prepare};
use crate::ready::Ready;
use crate::staging::StagedIndex;
use crate::switching::Switched;
use fs_append as append;
use fs_index::last_of;
use fs_index_file::write_hint;
use fs_reading::{
    KnownSources, Outline, first_tid_after, read_change, read_first_after, read_history_at,
    read_undo_log_at, read_undo_log_before,
};
use fs_recovery::{Numbers, OpenError};
use pack_copy::{CopyState, begin, copy_turn};
use std::alloc::Global;
use zb_ids::{ListOf, Oid, Tid};
use zb_model::{
    Change, Copied, Found, LogLine, NewTransaction, OidSet, Packed, Revision, Store, StoreError,
    Transaction,
};
use zb_outside::Clock;
use zb_volume::{StoreFault, Volume};

/// A store whose list lies in Main of a volume, as a FileStorage file. It keeps an index of the file
/// and a few numbers of its list in memory, and reads all else.
///
/// Until a call answers a store fault, every crash leaves of Main what stands for the list. While a pack
/// is begun, Side is a file of what is copied, and no other call touches it.
#[derive(Drop)]
pub struct FileStore<V: Volume> {
    pub(crate) volume: V,
    pub(crate) index: StagedIndex,
    pub(crate) numbers: Numbers,
    /// What is known of the file on Side, where a pack is begun.
    pub(crate) copy: Option<CopyState>,
    /// Where the changes stand of the transaction that was asked for one last, until a call changes
    /// the volume.
    pub(crate) outline: Option<Outline>,
    /// Where the contents stand of a few data records before the index's end.
    pub(crate) sources: KnownSources,
    /// Whether a call is under way that changes the volume, or one has failed.
    pub(crate) broken: bool,
    ghost room: { ForSome index.staged (λ s. HasRoomForTally numbers (length s.records)) },
    ghost settled: { V.told → broken ≡ false → IsSettled (V.state volume).log Main },
    ghost kept: { V.told → broken ≡ false
        → IsKept (seen (V.state volume).log Main) index numbers } by { kept_once V.told (broken ≡ false) (seen (V.state volume).log Main) index numbers },
    ghost voted: { V.told → broken ≡ false
        → ForSome index.staged (λ s. IsVotedIn (seen (V.state volume).log Main) s index) } by { voted_once V.told (broken ≡ false) (seen (V.state volume).log Main) index },
    ghost copied: { V.told → broken ≡ false
        → ForSome copy (λ c. IsCopyKept (seen (V.state volume).log Side) c) } by { copied_once V.told (broken ≡ false) (seen (V.state volume).log Side) copy },
    ghost outlined: { V.told → broken ≡ false
        → ForSome outline (λ o. IsOutlinedIn (seen (V.state volume).log Main) o) } by { outlined_once V.told (broken ≡ false) (seen (V.state volume).log Main) outline },
    ghost known: { V.told → broken ≡ false
        → AreSourcesOf (take index.end (seen (V.state volume).log Main)) sources } by { sources_once V.told (broken ≡ false) (take index.end (seen (V.state volume).log Main)) sources },
    ghost hint: { V.told → IsHinted (V.state volume).log broken index.end } by { hinted_once V.told (V.state volume).log broken index.end },
}

impl<V: Volume + Drop> FileStore<V> {
    /// Opens the file in Main of a volume, and makes it first where Main is empty: then the list is
    /// the first transaction alone, with a stamp of the clock, which is asked for only there. What was
    /// voted and never finished is cut off, and its place is answered beside the store.
    ///
    /// An error hands the volume back. Nothing was changed with any error but that of a write that
    /// failed, and where Main is damaged or no file. Side is as it was unless the file was made. Any
    /// error but `StoreFault` comes only where no call of the volume failed. Where the file is opened,
    /// none has failed, and Main's bytes are as they were without the tail, or, where it was empty, the
    /// file of a new database.
    ///
    /// The index file in Hint has to be honest, as an empty one is: then opening reads Main on from its
    /// end. It is closed before a file is made, and is honest at every moment.
    pub fn create_or_open<C: Clock>(
        alloc: Global,
        mut volume: V,
        clock: &mut C,
    ) -> Result<(FileStore<V>, Option<u64>), (OpenError, V)>
        requires { V.told → HasHonestHint (V.state volume).log }
        ensures store { IfOk result (λ r. IsOpenStore V.told (C.stamps clock.old) (V.state volume)
            (⟦<FileStore<V> as Store>⟧.state r.0) r.1) }
        ensures refused { IfErr result (λ e.
            IsRefusal V.told (C.stamps clock.old) (V.state volume) (V.state e.1) e.0) }
        ensures hint { V.told → IsSettled (V.state volume).log Main → IfOk result (λ r.
            StaysHonest (V.state volume).log (⟦<FileStore<V> as Store>⟧.state r.0).log) }
        ensures hint_left { V.told → IsSettled (V.state volume).log Main → IfErr result (λ e.
            StaysHonest (V.state volume).log (V.state e.1).log) }
        ensures clock { AsksClock V.told (V.state volume).log (C.stamps clock.old)
            (C.stamps clock.new) result }
    {
        match open(alloc, &mut volume, clock) {
            Ok(ready) => {
                let Ready {
                    index,
                    numbers,
                    cut,
                } = ready;
                let store = FileStore {
                    volume,
                    index,
                    numbers,
                    copy: None,
                    outline: None,
                    sources: KnownSources::new(alloc),
                    broken: false,
                };
                Ok((store, cut))
            }
            Err(error) => Err((error, volume)),
        }
    }

    /// Writes the index file of the list, and answers the place in Main up to which it goes: the end of the
    /// last transaction. What is voted and a pack that is begun stay so.
    ///
    /// Want of memory is answered before anything is written; after a `StoreFault` the store is broken.
    /// At every moment the index file is honest.
    pub fn write_hint(&mut self, alloc: Global) -> Result<u64, StoreError>
        requires { (⟦<FileStore<V> as Store>⟧.state self.old).broken ≡ false }
        ensures written { V.told → IfOk result
            (IsHintedUpTo (⟦<FileStore<V> as Store>⟧.state self.new).log) }
        ensures hint { V.told → StaysHonest (⟦<FileStore<V> as Store>⟧.state self.old).log
            (⟦<FileStore<V> as Store>⟧.state self.new).log }
        ensures others { V.told → OthersStay Hint (⟦<FileStore<V> as Store>⟧.state self.old).log
            (⟦<FileStore<V> as Store>⟧.state self.new).log }
        ensures keeps { KeepsStore V.told (⟦<FileStore<V> as Store>⟧.state self.old)
            (⟦<FileStore<V> as Store>⟧.state self.new) }
        ensures fault { BreaksByFault (⟦<FileStore<V> as Store>⟧.state self.new) result }
        ensures cause { HasStoreCause (⟦<FileStore<V> as Store>⟧.state self.old)
            (⟦<FileStore<V> as Store>⟧.state self.new) result }
    {
        let end = self.index.end();
        self.outline = None;
        self.broken = true;
        match write_hint(
            alloc,
            &mut self.volume,
            self.index.index(),
            &self.numbers,
            end,
        ) {
            Ok(()) => {
                self.broken = false;
                Ok(end)
            }
            Err(error) => {
                self.broken = error == StoreError::StoreFault;
                Err(error)
            }
        }
    }

    /// The volume, whether the store is broken or not; where it isn't, Main stands for the list. What is
    /// voted is dropped from the store alone: its bytes still stand behind the file, and are cut off
    /// when that is opened. Whatever a crash leaves of the index file is honest.
    pub fn into_volume(self) -> V
        ensures stands { V.told → (⟦<FileStore<V> as Store>⟧.state self).broken ≡ false
            → StandsForList (seen (V.state result).log Main)
            (⟦<FileStore<V> as Store>⟧.state self).list }
        ensures hint { V.told → LeavesHonest (V.state result).log }
        ensures honest { V.told → (⟦<FileStore<V> as Store>⟧.state self).broken ≡ false
            → HasHonestHint (V.state result).log }
        ensures log { (V.state result).log ≡ (⟦<FileStore<V> as Store>⟧.state self).log }
        ensures faults { (V.state result).write_faults
            ≡ (⟦<FileStore<V> as Store>⟧.state self).faults }
        ensures read_faults { (V.state result).read_faults
            ≡ (⟦<FileStore<V> as Store>⟧.state self).read_faults }
    {
        let FileStore {
            volume,
            index: _,
            numbers: _,
            copy: _,
            outline: _,
            sources: _,
            broken: _,
        } = self;
        volume
    }
}

impl<V: Volume + Drop> Store for FileStore<V> {
    ghost use Rattle.std.specs.Prelude.{option_map};
    ghost use Rattle.zb_volume.specs.declared.areas.Area.TheVariants.{Main, Side};
    ghost use Rattle.zb_volume.specs.Disk.{seen};
    ghost use Rattle.fs_records.specs.Listed.{listed};
    ghost use Rattle.pack_copy.specs.Copying.{copied_in};
    ghost use Rattle.file_store.specs.Kept.{StandsForList, voted_in};
    ghost use Rattle.file_store.specs.KeptLaws.{kept_database, kept_leaves};

    ghost told = { V.told };

    ghost lasts = { V.told };

    ghost stands = { StandsForList };

    ghost state = { λ store. record {
      list = listed (seen (V.state store.volume).log Main);
      voted = option_map
          (λ s. voted_in s.tid store.index.end (seen (V.state store.volume).log Main))
          store.index.staged;
      begun = option_map (λ c. copied_in c.tid (seen (V.state store.volume).log Side)) store.copy;
      newest = store.index.newest;
      broken = store.broken;
      log = (V.state store.volume).log;
      faults = (V.state store.volume).write_faults;
      read_faults = (V.state store.volume).read_faults;
    } };

    ghost database = { λ store told whole.
        kept_database (seen (V.state store.volume).log Main) store.index store.numbers
        (store.kept told whole) };

    ghost lasting = { λ store told whole.
        kept_leaves (V.state store.volume).log store.index store.numbers
        (store.settled told whole) (store.kept told whole) };

    fn newest(&self) -> Tid {
        self.index.newest()
    }

    fn pack_point(&self) -> Tid {
        self.numbers.pack_point()
    }

    fn greatest_oid(&self) -> Oid {
        self.numbers.greatest_oid()
    }

    fn serial_of(&self, oid: Oid) -> Tid {
        match last_of(self.index.places(oid)) {
            Some(place) => place.serial,
            None => Tid(0),
        }
    }

    fn changes_to(&self, tid: Tid) -> u64 {
        self.numbers.changes_to(self.index.starts(), tid)
    }

    fn first_tid_after(&self, tid: Tid) -> Option<Tid> {
        first_tid_after(self.index.starts(), tid)
    }

    fn load_before(&mut self, alloc: Global, oid: Oid, front: Tid) -> Result<Found, StoreError> {
        let end = self.index.end();
        let whole = self.index.is_free();
        let volume = &mut self.volume;
        let places = self.index.places(oid);
        let found = found_before(alloc, volume, &mut self.sources, whole, places, end, front)?;
        Ok(found)
    }

    fn transaction(&mut self, alloc: Global, tid: Tid) -> Result<Option<Transaction>, StoreError> {
        let end = self.index.end();
        let whole = self.index.is_free();
        let volume = &mut self.volume;
        let starts = self.index.starts();
        let found = transaction_with(alloc, volume, &mut self.sources, whole, starts, end, tid)?;
        Ok(found)
    }

    fn after(&mut self, alloc: Global, tid: Tid) -> Result<Option<Transaction>, StoreError> {
        let found = read_first_after(alloc, &mut self.volume, self.index.starts(), tid)?;
        Ok(found)
    }

    fn change_at(
        &mut self,
        alloc: Global,
        tid: Tid,
        number: u64,
    ) -> Result<Option<Change>, StoreError> {
        let known = self.outline.take();
        let starts = self.index.starts();
        let outline = outline_of(alloc, &mut self.volume, starts, known, tid)?;
        let change = change_in(&outline, number);
        self.outline = outline;
        let Some(change) = change else {
            return Ok(None);
        };
        let read = read_change(alloc, &mut self.volume, change)?;
        Ok(Some(read))
    }

    fn history(&mut self, alloc: Global, oid: Oid) -> Result<ListOf<Revision>, StoreError> {
        let lines = read_history_at(alloc, &mut self.volume, self.index.places(oid))?;
        Ok(lines)
    }

    fn undo_log(&mut self, alloc: Global) -> Result<ListOf<LogLine>, StoreError> {
        let lines = read_undo_log_at(alloc, &mut self.volume, self.index.starts())?;
        Ok(lines)
    }

    fn undo_log_before(
        &mut self,
        alloc: Global,
        below: Tid,
        count: u64,
    ) -> Result<ListOf<LogLine>, StoreError> {
        let starts = self.index.starts();
        let lines = read_undo_log_before(alloc, &mut self.volume, starts, below, count)?;
        Ok(lines)
    }

    fn vote(&mut self, alloc: Global, new: &NewTransaction) -> Result<(), StoreError>
        requires whole { (⟦<FileStore<V> as Store>⟧.state self.old).broken ≡ false }
        requires free { (⟦<FileStore<V> as Store>⟧.state self.old).voted ≡ None }
        requires later { (⟦<FileStore<V> as Store>⟧.state self.old).newest < new.now.tid }
        requires well_formed { IsWellFormed new.now }
        requires votable { V.told → IsVotable (⟦<FileStore<V> as Store>⟧.state self.old).list
            new.now }
        ensures some { OnOk result (IsSome (⟦<FileStore<V> as Store>⟧.state self.new).voted) }
        ensures voted { V.told → OnOk result ((⟦<FileStore<V> as Store>⟧.state self.new).voted ≡
            Some (voted_of (⟦<FileStore<V> as Store>⟧.state self.old).list new.now)) }
        ensures tid { OnOk result (ForSome (⟦<FileStore<V> as Store>⟧.state self.new).voted (λ t.
            t.tid ≡ new.now.tid)) }
        ensures none { OnErr result ((⟦<FileStore<V> as Store>⟧.state self.new).voted ≡ None) }
        ensures leaves { VoteLeaves V.told (⟦<FileStore<V> as Store>⟧.state self.old)
            (⟦<FileStore<V> as Store>⟧.state self.new) result }
        ensures fault { BreaksByFault (⟦<FileStore<V> as Store>⟧.state self.new) result }
        ensures cause { HasStoreCause (⟦<FileStore<V> as Store>⟧.state self.old)
            (⟦<FileStore<V> as Store>⟧.state self.new) result }
        ensures any_moment { V.told → LeavesList (⟦<FileStore<V> as Store>⟧.state self.old)
            (⟦<FileStore<V> as Store>⟧.state self.new) }
        ensures writes { V.told → VoteWrites (⟦<FileStore<V> as Store>⟧.state self.old).log
            (⟦<FileStore<V> as Store>⟧.state self.new).log new.now result }
    {
        self.outline = None;
        let text = prepare(alloc, &mut self.index, &mut self.numbers, new)?;
        self.broken = true;
        match append::vote(&mut self.volume, self.index.end(), text.as_slice()) {
            Ok(()) => {}
            Err(StoreFault) => {
                self.index.take_back();
                return Err(StoreError::StoreFault);
            }
        }
        self.broken = false;
        Ok(())
    }

    fn finish(&mut self) -> Result<(), StoreFault>
        requires whole { (⟦<FileStore<V> as Store>⟧.state self.old).broken ≡ false }
        requires voted { IsSome (⟦<FileStore<V> as Store>⟧.state self.old).voted }
        ensures list { V.told → OnOk result (ForSome
            (⟦<FileStore<V> as Store>⟧.state self.old).voted (λ t.
            (⟦<FileStore<V> as Store>⟧.state self.new).list ≡
            (⟦<FileStore<V> as Store>⟧.state self.old).list ++ t ∷ [])) }
        ensures number { OnOk result (ForSome (⟦<FileStore<V> as Store>⟧.state self.old).voted (λ
            t. (⟦<FileStore<V> as Store>⟧.state self.new).newest ≡ t.tid)) }
        ensures voted { OnOk result ((⟦<FileStore<V> as Store>⟧.state self.new).voted ≡ None) }
        ensures leaves { FinishLeaves V.told (⟦<FileStore<V> as Store>⟧.state self.old)
            (⟦<FileStore<V> as Store>⟧.state self.new) }
        ensures fault { MayBreak (⟦<FileStore<V> as Store>⟧.state self.old)
            (⟦<FileStore<V> as Store>⟧.state self.new) result }
        ensures any_moment { V.told → ForSome (⟦<FileStore<V> as Store>⟧.state self.old).voted (λ
            t. LeavesOnly Area.Main (StandsForOneOf StandsForList
            (⟦<FileStore<V> as Store>⟧.state self.old).list t)
            (⟦<FileStore<V> as Store>⟧.state self.old).log
            (⟦<FileStore<V> as Store>⟧.state self.new).log) }
        ensures side { V.told → StaysAs Area.Side (⟦<FileStore<V> as Store>⟧.state self.old).log
            (⟦<FileStore<V> as Store>⟧.state self.new).log }
        ensures text { V.told → OnOk result (IsFinishWritten
            (⟦<FileStore<V> as Store>⟧.state self.old).log
            (⟦<FileStore<V> as Store>⟧.state self.new).log) }
        ensures hint { V.told → StaysHonest (⟦<FileStore<V> as Store>⟧.state self.old).log
            (⟦<FileStore<V> as Store>⟧.state self.new).log }
    {
        self.outline = None;
        self.broken = true;
        append::finish(&mut self.volume, self.index.end())?;
        count_staged(&mut self.numbers, &self.index);
        self.index.keep();
        self.broken = false;
        Ok(())
    }

    fn abort(&mut self) -> Result<(), StoreFault>
        requires whole { (⟦<FileStore<V> as Store>⟧.state self.old).broken ≡ false }
        requires voted { IsSome (⟦<FileStore<V> as Store>⟧.state self.old).voted }
        ensures voted { OnOk result ((⟦<FileStore<V> as Store>⟧.state self.new).voted ≡ None) }
        ensures leaves { AbortLeaves V.told (⟦<FileStore<V> as Store>⟧.state self.old)
            (⟦<FileStore<V> as Store>⟧.state self.new) result }
        ensures fault { MayBreak (⟦<FileStore<V> as Store>⟧.state self.old)
            (⟦<FileStore<V> as Store>⟧.state self.new) result }
        ensures any_moment { V.told → LeavesList (⟦<FileStore<V> as Store>⟧.state self.old)
            (⟦<FileStore<V> as Store>⟧.state self.new) }
        ensures side { V.told → StaysAs Area.Side (⟦<FileStore<V> as Store>⟧.state self.old).log
            (⟦<FileStore<V> as Store>⟧.state self.new).log }
        ensures text { V.told → OnOk result (IsAbortWritten
            (⟦<FileStore<V> as Store>⟧.state self.old).log
            (⟦<FileStore<V> as Store>⟧.state self.new).log) }
        ensures hint { V.told → StaysHonest (⟦<FileStore<V> as Store>⟧.state self.old).log
            (⟦<FileStore<V> as Store>⟧.state self.new).log }
    {
        self.outline = None;
        self.broken = true;
        append::abort(&mut self.volume, self.index.end())?;
        self.index.take_back();
        self.broken = false;
        Ok(())
    }

    fn pack_begin(&mut self, alloc: Global, tid: Tid) -> Result<(), StoreError>
        requires { (⟦<FileStore<V> as Store>⟧.state self.old).broken ≡ false }
        ensures begun { V.told → OnOk result ((⟦<FileStore<V> as Store>⟧.state self.new).begun ≡
            Some (new_pack tid)) }
        ensures tid { OnOk result (tid_of_begun (⟦<FileStore<V> as Store>⟧.state self.new) ≡ Some
            tid) }
        ensures leaves { CopyLeaves V.told (⟦<FileStore<V> as Store>⟧.state self.old)
            (⟦<FileStore<V> as Store>⟧.state self.new) result }
        ensures fault { BreaksByFault (⟦<FileStore<V> as Store>⟧.state self.new) result }
        ensures cause { HasStoreCause (⟦<FileStore<V> as Store>⟧.state self.old)
            (⟦<FileStore<V> as Store>⟧.state self.new) result }
        ensures main { V.told → StaysAs Area.Main (⟦<FileStore<V> as Store>⟧.state self.old).log
            (⟦<FileStore<V> as Store>⟧.state self.new).log }
        ensures text { V.told → OnOk result (IsCopyInFull (⟦<FileStore<V> as Store>⟧.state self.new)) }
        ensures hint { V.told → StaysHonest (⟦<FileStore<V> as Store>⟧.state self.old).log
            (⟦<FileStore<V> as Store>⟧.state self.new).log }
    {
        self.copy = None;
        self.outline = None;
        self.broken = true;
        match begin(alloc, &mut self.volume, tid) {
            Ok(copy) => self.copy = Some(copy),
            Err(StoreFault) => return Err(StoreError::StoreFault),
        }
        self.broken = false;
        Ok(())
    }

    fn pack_copy(&mut self, alloc: Global, keep: &OidSet) -> Result<Copied, StoreError>
        requires whole { (⟦<FileStore<V> as Store>⟧.state self.old).broken ≡ false }
        requires begun { IsSome (⟦<FileStore<V> as Store>⟧.state self.old).begun }
        requires copy { V.told → ForSome (⟦<FileStore<V> as Store>⟧.state self.old).begun (IsCopyOf
            keep.now (⟦<FileStore<V> as Store>⟧.state self.old).list) }
        ensures tid { OnOk result (tid_of_begun (⟦<FileStore<V> as Store>⟧.state self.new) ≡
            tid_of_begun (⟦<FileStore<V> as Store>⟧.state self.old)) }
        ensures copied { V.told → IfOk result (λ copied. ForSome
            (⟦<FileStore<V> as Store>⟧.state self.old).begun (λ old. ForSome
            (⟦<FileStore<V> as Store>⟧.state self.new).begun (λ new.
            IsCopyTurn (packed_by old.tid keep.now (⟦<FileStore<V> as Store>⟧.state self.old).list) old new copied))) }
        ensures leaves { CopyLeaves V.told (⟦<FileStore<V> as Store>⟧.state self.old)
            (⟦<FileStore<V> as Store>⟧.state self.new) result }
        ensures fault { BreaksByFault (⟦<FileStore<V> as Store>⟧.state self.new) result }
        ensures cause { HasStoreCause (⟦<FileStore<V> as Store>⟧.state self.old)
            (⟦<FileStore<V> as Store>⟧.state self.new) result }
        ensures main { V.told → StaysAs Area.Main (⟦<FileStore<V> as Store>⟧.state self.old).log
            (⟦<FileStore<V> as Store>⟧.state self.new).log }
        ensures text { V.told → OnOk result (IsCopyInFull (⟦<FileStore<V> as Store>⟧.state self.new)) }
        ensures hint { V.told → StaysHonest (⟦<FileStore<V> as Store>⟧.state self.old).log
            (⟦<FileStore<V> as Store>⟧.state self.new).log }
    {
        let Some(mut copy) = self.copy.take() else {
            return Err(StoreError::Memory);
        };
        self.outline = None;
        self.broken = true;
        match copy_turn(alloc, &mut self.volume, self.index.index(), &mut copy, keep) {
            Ok(copied) => {
                self.copy = Some(copy);
                self.broken = false;
                Ok(copied)
            }
            Err(error) => {
                self.broken = error == StoreError::StoreFault;
                Err(error)
            }
        }
    }

    fn pack_switch(&mut self, alloc: Global, keep: &OidSet) -> Result<Packed, StoreError>
        requires whole { (⟦<FileStore<V> as Store>⟧.state self.old).broken ≡ false }
        requires free { (⟦<FileStore<V> as Store>⟧.state self.old).voted ≡ None }
        requires begun { IsSome (⟦<FileStore<V> as Store>⟧.state self.old).begun }
        requires copy { V.told → ForSome (⟦<FileStore<V> as Store>⟧.state self.old).begun (IsCopyOf
            keep.now (⟦<FileStore<V> as Store>⟧.state self.old).list) }
        ensures list { V.told → OnOk result (IsListPacked keep.now
            (⟦<FileStore<V> as Store>⟧.state self.old) (⟦<FileStore<V> as Store>⟧.state self.new)) }
        ensures number { V.told → OnOk result ((⟦<FileStore<V> as Store>⟧.state self.new).newest ≡
            newest_tid (⟦<FileStore<V> as Store>⟧.state self.new).list) }
        ensures counts { V.told → IfOk result (λ counts. IsPackCount
            (⟦<FileStore<V> as Store>⟧.state self.old).list
            (⟦<FileStore<V> as Store>⟧.state self.new).list counts) }
        ensures leaves { SwitchLeaves V.told (⟦<FileStore<V> as Store>⟧.state self.old)
            (⟦<FileStore<V> as Store>⟧.state self.new) result }
        ensures fault { BreaksByFault (⟦<FileStore<V> as Store>⟧.state self.new) result }
        ensures cause { HasStoreCause (⟦<FileStore<V> as Store>⟧.state self.old)
            (⟦<FileStore<V> as Store>⟧.state self.new) result }
        ensures any_moment { V.told → LeavesOneOfTwo keep.now
            (⟦<FileStore<V> as Store>⟧.state self.old) (⟦<FileStore<V> as Store>⟧.state self.new) }
        ensures writes { V.told → SwitchWrites (⟦<FileStore<V> as Store>⟧.state self.old).log
            (⟦<FileStore<V> as Store>⟧.state self.new).log result }
    {
        let Some(copy) = self.copy.take() else {
            return Err(StoreError::Memory);
        };
        self.outline = None;
        self.sources.forget();
        self.broken = true;
        let volume = &mut self.volume;
        match pack_file(alloc, volume, &self.index, &self.numbers, copy, keep) {
            Ok(switched) => {
                let Switched { opened, packed } = switched;
                let ready = keep_opened(opened);
                self.index = ready.index;
                self.numbers = ready.numbers;
                self.broken = false;
                Ok(packed)
            }
            Err(error) => {
                self.broken = error == StoreError::StoreFault;
                Err(error)
            }
        }
    }

    fn pack_drop(&mut self) {
        self.copy = None;
    }
}
