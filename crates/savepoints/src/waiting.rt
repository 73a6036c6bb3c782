//! What waits in one transaction, and its savepoints.

ghost use Rattle.std.specs.Prelude.{◌≡◌, ◌+◌, ◌++◌, ◌∷◌, [], ◌<◌, All, IfOk, OnErr, OnOk, length, slice_get, take};
ghost use Rattle.std.specs.Option.{option_map};
ghost use Rattle.zb_model.specs.declared.data.Content.TheVariants.{Absent, Held};
ghost use Rattle.zb_model.specs.Database.{IsRecord};
ghost use Rattle.commit_phases.specs.Pending.{excess_with, pending_of, stores_after, with_pending, AreStores, AreStoredUnlessTooLong, IsOkUnlessTooLong};
ghost use Rattle.savepoints.specs.Saved.{IsSaved};

use crate::error::SavepointError;
use crate::going_back::contents_at;
use crate::noting::{put_all_in, put_in};
use crate::replaced::{Mark, Replaced};
use commit_phases::{Pending, PendingError};
use std::alloc::{AllocError, Global};
use std::marker::Model;
use zb_ids::{ListOf, Oid, Text8, Tid};
use zb_model::{Content, PendingCheck, PendingStore};

/// The changes that are pending in one transaction, and those that were pending at each of its savepoints.
/// Contracts see the savepoints as a list of these pending changes, the earliest first; a savepoint's number
/// is its place there, from 0. A savepoint is kept as a mark in a log of what later changes replaced: it takes
/// as much memory as they do, however much is pending.
#[derive(Drop)]
pub struct Waiting {
    alloc: Global,
    pending: Pending,
    /// What each change since the first savepoint replaced.
    log: Vec<Replaced>,
    /// The savepoints.
    marks: Vec<Mark>,
}

impl Model for Waiting {
    ghost use Rattle.savepoints.specs.Log.{AreMarks, saved_all};
    ghost use Rattle.savepoints.specs.Saved.{Waits};

    ghost Value = { Waits };

    ghost view = { λ a. record {
      pending = a.pending;
      savepoints = saved_all a.pending a.log.items a.marks.items;
    } };

    ghost invariant = { λ a. AreMarks a.pending a.log.items a.marks.items };
}

/// The mark with a number, if there is one.
fn mark_at(marks: &[Mark], place: usize) -> Option<Mark>
    ensures { result ≡ slice_get marks.now place }
{
    marks.get(place).copied()
}

impl Waiting {
    /// Nothing is pending, and nothing is saved. It takes no memory until something is.
    pub fn new(alloc: Global) -> Waiting
        ensures stores { result.pending.stores ≡ [] }
        ensures checks { result.pending.checks ≡ [] }
        ensures savepoints { result.savepoints ≡ [] }
    {
        Waiting {
            alloc,
            pending: Pending::new(alloc),
            log: Vec::new(alloc),
            marks: Vec::new(alloc),
        }
    }

    /// Puts an object's bytes, made from its revision with the serial `base`, behind the other stores, as
    /// `Pending::store` does. With an error all is as before.
    pub fn store(&mut self, oid: Oid, base: Tid, bytes: Text8) -> Result<(), PendingError>
        requires filled { 0 < length bytes }
        ensures answer { IsOkUnlessTooLong
            (excess_with self.old.pending.stores (record { oid = oid; base = base; content = Held bytes })) result }
        ensures ok { OnOk result (self.new.pending.stores
            ≡ with_pending self.old.pending.stores (record { oid = oid; base = base; content = Held bytes })) }
        ensures err { OnErr result (self.new ≡ self.old) }
        ensures checks { self.new.pending.checks ≡ self.old.pending.checks }
        ensures savepoints { self.new.savepoints ≡ self.old.savepoints }
    {
        let content = Content::Held(bytes);
        self.put(PendingStore { oid, base, content })
    }

    /// Puts a delete of an object, made from its revision with the serial `base`, behind the stores, as
    /// `Pending::delete` does. The one error is want of memory, and then all is as before.
    pub fn delete(&mut self, oid: Oid, base: Tid) -> Result<(), AllocError>
        ensures ok { OnOk result (self.new.pending.stores
            ≡ with_pending self.old.pending.stores (record { oid = oid; base = base; content = Absent })) }
        ensures err { OnErr result (self.new ≡ self.old) }
        ensures checks { self.new.pending.checks ≡ self.old.pending.checks }
        ensures savepoints { self.new.savepoints ≡ self.old.savepoints }
    {
        let content = Content::Absent;
        match self.put(PendingStore { oid, base, content }) {
            Ok(()) => Ok(()),
            Err(_) => Err(AllocError),
        }
    }

    /// Puts a store or delete behind the others.
    #[tactic(auto, using(crate::proofs::Marks::marks_kept, crate::proofs::Marks::saved_kept))]
    fn put(&mut self, store: PendingStore) -> Result<(), PendingError>
        requires filled { IsRecord store.content }
        ensures answer { IsOkUnlessTooLong (excess_with self.old.pending.stores store) result }
        ensures ok { OnOk result (self.new.pending.stores ≡ with_pending self.old.pending.stores store) }
        ensures err { OnErr result (self.new ≡ self.old) }
        ensures checks { self.new.pending.checks ≡ self.old.pending.checks }
        ensures savepoints { self.new.savepoints ≡ self.old.savepoints }
    {
        let is_saved = !self.marks.is_empty();
        match put_in(
            self.alloc,
            &mut self.pending,
            &mut self.log,
            is_saved,
            store,
        ) {
            Ok(()) => Ok(()),
            Err(why) => Err(why),
        }
    }

    /// Puts several stores and deletes behind the others, one after another: all of them, or none, as
    /// `Pending::store_all` does. With an error all is as before.
    #[tactic(auto, using(crate::proofs::Marks::marks_kept, crate::proofs::Marks::saved_kept))]
    pub fn store_all(&mut self, stores: ListOf<PendingStore>) -> Result<(), PendingError>
        requires filled { All (λ p. IsRecord p.content) stores }
        ensures answer { AreStoredUnlessTooLong
            (stores_after self.old.pending.stores stores) self.new.pending.stores result }
        ensures err { OnErr result (self.new ≡ self.old) }
        ensures checks { self.new.pending.checks ≡ self.old.pending.checks }
        ensures savepoints { self.new.savepoints ≡ self.old.savepoints }
    {
        let is_saved = !self.marks.is_empty();
        match put_all_in(
            self.alloc,
            &mut self.pending,
            &mut self.log,
            is_saved,
            stores,
        ) {
            Ok(()) => Ok(()),
            Err(why) => Err(why),
        }
    }

    /// Puts a check behind the others, as `Pending::check` does. The one error is want of memory, and then
    /// all is as before.
    #[tactic(auto, using(crate::proofs::Marks::marks_checked, crate::proofs::Marks::saved_checked))]
    pub fn check(&mut self, oid: Oid, serial: Tid) -> Result<(), AllocError>
        ensures ok { OnOk result (self.new.pending.checks
            ≡ self.old.pending.checks ++ (record { oid = oid; serial = serial }) ∷ []) }
        ensures err { OnErr result (self.new ≡ self.old) }
        ensures stores { self.new.pending.stores ≡ self.old.pending.stores }
        ensures savepoints { self.new.savepoints ≡ self.old.savepoints }
    {
        match self.pending.check(oid, serial) {
            Ok(()) => Ok(()),
            Err(failed) => Err(failed),
        }
    }

    /// Makes a savepoint of what is pending, behind the others, and answers its number. The one error is
    /// want of memory, and then all is as before.
    #[tactic(auto, using(crate::proofs::Marks::marks_saved, crate::proofs::Marks::saved_more))]
    pub fn save(&mut self) -> Result<u64, AllocError>
        ensures number { IfOk result (λ number. number ≡ length self.old.savepoints) }
        ensures ok { OnOk result (self.new.savepoints ≡ self.old.savepoints ++ self.old.pending ∷ []) }
        ensures err { OnErr result (self.new ≡ self.old) }
        ensures pending { self.new.pending ≡ self.old.pending }
    {
        let number = self.marks.len() as u64;
        let extent = self.pending.extent();
        let log = self.log.len();
        self.marks.push(Mark { log, extent })?;
        Ok(number)
    }

    /// Goes back to a savepoint: what was pending when it was made is pending, and the later savepoints are
    /// dropped. It stands itself, and may be gone back to again. `NoSavepoint` comes exactly where none has
    /// this number; with an error all is as before.
    pub fn rollback(&mut self, number: u64) -> Result<(), SavepointError>
        ensures answer { IsSaved self.old.savepoints number self.new.pending result }
        ensures ok { OnOk result (self.new.savepoints ≡ take (number + 1) self.old.savepoints) }
        ensures err { OnErr result (self.new ≡ self.old) }
    {
        let place = number as usize;
        let Some(mark) = mark_at(self.marks.as_slice(), place) else {
            return Err(SavepointError::NoSavepoint { number });
        };
        let contents = contents_at(self.alloc, &self.pending, self.log.as_slice(), mark.log)?;
        self.pending.go_back(contents, mark.extent);
        self.log.truncate(mark.log);
        self.marks.truncate(place + 1);
        Ok(())
    }

    /// How many stores, deletes and checks are pending together.
    pub fn count(&self) -> u64
        ensures { result ≡ length self.now.pending.stores + length self.now.pending.checks }
    {
        self.pending.count()
    }

    /// The base of the object's store or delete, if it has one.
    pub fn base_of(&self, oid: Oid) -> Option<Tid>
        ensures { result ≡ option_map (λ p. p.base) (pending_of self.now.pending.stores oid) }
    {
        self.pending.base_of(oid)
    }

    /// The object's store or delete once more, if it has one. The one error is want of memory.
    pub fn copy_of(&self, oid: Oid) -> Result<Option<PendingStore>, AllocError>
        ensures { IfOk result (λ store. store ≡ pending_of self.now.pending.stores oid) }
    {
        self.pending.copy_of(oid)
    }

    /// What is pending once more: the stores and deletes, and the checks, in their orders. The one error is
    /// want of memory.
    pub fn parts(&self) -> Result<(ListOf<PendingStore>, ListOf<PendingCheck>), AllocError>
        ensures stores { IfOk result (λ parts. parts.0 ≡ self.now.pending.stores) }
        ensures checks { IfOk result (λ parts. parts.1 ≡ self.now.pending.checks) }
        ensures are { AreStores self.now.pending.stores }
    {
        let _extent = self.pending.extent();
        self.pending.copy()?.into_parts()
    }
}
