//! An index, and beside it the places of a voted transaction, with all the room that its finish needs.

ghost use Rattle.std.specs.Prelude.{◌≡◌, ℕ, ◌-◌, ◌^◌, ◌<◌, ◌≤◌, None, Some, true, map, nat_eq, All, OnOk, OnErr};
ghost use Rattle.std.specs.List.{IsDistinct};
ghost use Rattle.std.specs.Option.{ForSome, option_copied};
ghost use Rattle.fs_index.specs.Places.{HasRoomFor, IsRising, places_in};
ghost use Rattle.fs_records.specs.Placing.{placed_end, placed_from};
ghost use Rattle.file_store.specs.Staging.{IsAllBefore, IsWith};

use crate::staged::Staged;
use fs_index::{Index, Place};
use fs_records::placed_records;
use std::alloc::{AllocError, Global};
use std::marker::Model;
use zb_ids::{Oid, Tid};
use zb_model::NewChange;

/// An index of what stands in a file up to an end, and apart from it, where one is staged, the places
/// of the transaction that is voted there. The index has room for these.
#[derive(Drop)]
pub(crate) struct StagedIndex {
    index: Index,
    /// The number of the last transaction in the index, or 0.
    newest: Tid,
    /// The place behind it.
    end: u64,
    staged: Option<Staged>,
}

impl Model for StagedIndex {
    ghost use Rattle.file_store.specs.Staging.{IsStagedIndex, StagedKept};

    ghost Value = { StagedKept };

    ghost view = { λ a. record { kept = a.index; staged = a.staged; newest = a.newest; end = a.end } };

    ghost invariant = { λ a. IsStagedIndex a.staged a.index a.newest a.end };
}

impl StagedIndex {
    /// An index of what stands before a place, with nothing staged.
    pub(crate) fn new(index: Index, newest: Tid, end: u64) -> StagedIndex
        requires bound { newest < 2 ^ 64 - 1 }
        requires limit { end < 2 ^ 63 }
        requires up_to { IsAllBefore index newest end }
        ensures { result ≡ record { kept = index; staged = None; newest = newest; end = end } }
    {
        StagedIndex {
            index,
            newest,
            end,
            staged: None,
        }
    }

    /// The number of the last transaction in the index, or 0.
    pub(crate) fn newest(&self) -> Tid
        ensures value { result ≡ self.now.newest }
        ensures bound { result < 2 ^ 64 - 1 }
    {
        self.newest
    }

    /// The place behind what is in the index.
    pub(crate) fn end(&self) -> u64
        ensures value { result ≡ self.now.end }
        ensures limit { result < 2 ^ 63 }
    {
        self.end
    }

    /// What is staged.
    pub(crate) fn staged(&self) -> Option<&Staged>
        ensures { option_copied result ≡ self.now.staged }
    {
        self.staged.as_ref()
    }

    /// Whether nothing is staged.
    pub(crate) fn is_free(&self) -> bool
        ensures { result ≡ true → self.now.staged ≡ None }
    {
        self.staged.is_none()
    }

    /// The index, without what is staged. The number of each of its transactions has one after it.
    pub(crate) fn index(&self) -> &Index
        ensures value { result.now ≡ self.now.kept }
        ensures bound { All (λ p. p.serial < 2 ^ 64 - 1) result.now.transactions }
    {
        &self.index
    }

    /// The places of an object's records, in order, without those that are staged.
    pub(crate) fn places(&self, oid: Oid) -> &[Place]
        ensures value { result.now ≡ places_in self.now.kept.entries oid }
        ensures rising { IsRising result.now }
    {
        self.index.places(oid)
    }

    /// The places of the transactions, in order, without the one that is staged.
    pub(crate) fn starts(&self) -> &[Place]
        ensures value { result.now ≡ self.now.kept.transactions }
        ensures rising { IsRising result.now }
    {
        self.index.transactions()
    }

    /// Stages a transaction that stands at the end, with its data records from a place on, and makes room
    /// for their places in the index. The one error is want of memory, and then nothing is staged.
    pub(crate) fn stage(
        &mut self,
        alloc: Global,
        tid: Tid,
        from: u64,
        end: u64,
        changes: &[NewChange],
    ) -> Result<(), AllocError>
        requires free { self.old.staged ≡ None }
        requires above { self.old.newest < tid }
        requires bound { tid < 2 ^ 64 - 1 }
        requires from { self.old.end < from }
        requires within { placed_end from changes.now ≤ end }
        requires limit { end < 2 ^ 63 }
        requires distinct { IsDistinct nat_eq (map (λ c. c.oid) changes.now) }
        ensures staged { OnOk result (self.new.staged ≡ Some (record {
          tid = tid;
          end = end;
          records = placed_from tid from changes.now;
        })) }
        ensures room { OnOk result (HasRoomFor self.new.kept (placed_from tid from changes.now)) }
        ensures none { OnErr result (self.new.staged ≡ None) }
        ensures places { (oid : ℕ) →
            places_in self.new.kept.entries oid ≡ places_in self.old.kept.entries oid }
        ensures starts { self.new.kept.transactions ≡ self.old.kept.transactions }
        ensures newest { self.new.newest ≡ self.old.newest }
        ensures end { self.new.end ≡ self.old.end }
    {
        let records = placed_records(alloc, tid, from, changes)?;
        self.index.reserve(records.as_slice())?;
        self.staged = Some(Staged { tid, end, records });
        Ok(())
    }

    /// Puts what is staged into the index. It takes no memory.
    pub(crate) fn keep(&mut self)
        ensures kept { ForSome self.old.staged (λ s. IsWith s self.old self.new) }
        ensures staged { self.new.staged ≡ None }
        ensures end { self.old.end ≤ self.new.end }
    {
        if let Some(staged) = self.staged.take() {
            let start = Place {
                serial: staged.tid,
                at: self.end,
            };
            self.index.add_reserved(start, staged.records.as_slice());
            self.newest = staged.tid;
            self.end = staged.end;
        }
    }

    /// Drops what is staged. It takes no memory.
    pub(crate) fn take_back(&mut self)
        ensures { self.new ≡ record self.old { staged = None } }
    {
        self.staged = None;
    }
}
