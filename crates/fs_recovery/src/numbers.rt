//! What is known of a list of transactions without reading it.

ghost use Rattle.std.specs.Prelude.{◌≡◌, ◌+◌, ◌<◌, ◌≤◌, ◌^◌, ◌++◌, ◌∷◌, [], if◌then◌else◌, List, IsOk, filter, length, map, max, slice_get, take, OnOk, OnErr};
ghost use Rattle.zb_model.specs.declared.data.Transaction.{Transaction};
ghost use Rattle.zb_model.specs.Packs.{change_count};
ghost use Rattle.zb_model.specs.Queries.{changes_up_to, greatest_of, is_up_to, oids_of};
ghost use Rattle.fs_index.specs.Places.{IsRising, oids_placed};
ghost use Rattle.fs_recovery.specs.Numbers.{AreNumbersOf, tallies_from, total_of};

use crate::counted::{Counted, greater};
use crate::tally::{Tally, kept_for, sum_of, tally_in};
use fs_index::{Place, Placed};
use std::alloc::{AllocError, Global};
use std::marker::Model;
use zb_ids::{Oid, Tid};

/// The numbers of a list of transactions: how many changes there are up to each, the greatest object
/// that one changes, and the greatest tid of one that a pack has gone over. What is counted up to a
/// transaction is kept in 8 bytes.
#[derive(Drop)]
pub struct Numbers {
    tallies: Vec<u64>,
    greatest: Oid,
    pack_point: Tid,
}

impl Model for Numbers {
    ghost use Rattle.std.specs.Prelude.{◌-◌, map, vec_len, vec_capacity};
    ghost use Rattle.fs_recovery.specs.Numbers.{NumbersKept, tally_of};

    ghost Value = { NumbersKept };

    ghost view = { λ a. record {
      tallies = map tally_of a.tallies.items;
      greatest = a.greatest;
      pack_point = a.pack_point;
      room = vec_capacity a.tallies - vec_len a.tallies;
    } };
}

/// The greatest object of some data records, or 0.
fn greatest_in(placed: &[Placed]) -> Oid
    ensures { result ≡ greatest_of (oids_placed placed.now) }
{
    let mut greatest = Oid(0);
    'each: for one in placed {
        if greatest < one.oid {
            greatest = one.oid;
        }
    }
    greatest
}

/// The pack point with one transaction more.
fn point_with(point: Tid, packed: bool, tid: Tid) -> Tid
    ensures { result ≡ (if packed then max point tid else point) }
{
    if packed && point < tid { tid } else { point }
}

/// How many of these transactions have a number up to this one. They are the first ones of a list whose
/// transactions have these places. It is found by halving.
fn count_up_to(places: &[Place], tid: Tid) -> usize
    requires { IsRising places.now }
    ensures within { result ≤ length places.now }
    ensures first { (list : List Transaction)
        → map (λ p. p.serial) places.now ≡ map (λ t. t.tid) list
        → filter (is_up_to tid) list ≡ take result list }
{
    places.partition_point(|place| place.serial <= tid)
}

impl Numbers {
    /// Those of the empty list. It takes no memory.
    pub fn new(alloc: Global) -> Numbers
        ensures { AreNumbersOf [] result }
    {
        Numbers {
            tallies: Vec::new(alloc),
            greatest: Oid(0),
            pack_point: Tid(0),
        }
    }

    /// The greatest number of an object that some transaction changes, or 0.
    pub fn greatest_oid(&self) -> Oid
        ensures { result ≡ self.now.greatest }
    {
        self.greatest
    }

    /// The greatest tid of a transaction that a pack has gone over, or 0.
    pub fn pack_point(&self) -> Tid
        ensures { result ≡ self.now.pack_point }
    {
        self.pack_point
    }

    /// What is counted up to the transaction with this number in the list, or `None` where the list is
    /// not as long.
    #[tactic(auto, using(crate::proofs::Tallies::there_is, crate::proofs::Tallies::none_is))]
    pub fn tally(&self, number: usize) -> Option<Tally>
        ensures { result ≡ slice_get self.now.tallies number }
    {
        match self.tallies.get(number) {
            Some(kept) => Some(tally_in(*kept)),
            None => None,
        }
    }

    /// How many changes the list has, by the last tally.
    #[tactic(auto, using(crate::proofs::Tallies::last_is, crate::proofs::Tallies::no_last))]
    fn total(&self) -> u64
        ensures { result ≡ total_of self.now.tallies }
    {
        match self.tallies.last() {
            Some(kept) => tally_in(*kept).changes,
            None => 0,
        }
    }

    /// How many changes the list has.
    #[tactic(auto, using(crate::proofs::Tallies::all_counted))]
    pub fn changes(&self) -> u64
        ensures { (list : List Transaction) → AreNumbersOf list self.now
            → result ≡ change_count list }
    {
        self.total()
    }

    /// How many changes the first transactions have.
    fn changes_of_first(&self, count: usize) -> u64
        ensures { (list : List Transaction) → count ≤ length list → AreNumbersOf list self.now
            → result ≡ change_count (take count list) }
    {
        if count == 0 {
            return 0;
        }
        match self.tally(count - 1) {
            Some(tally) => tally.changes,
            None => 0,
        }
    }

    /// How many changes the transactions up to a tid have, where the transactions of the list have these
    /// places.
    pub fn changes_to(&self, places: &[Place], tid: Tid) -> u64
        requires { IsRising places.now }
        ensures { (list : List Transaction)
            → map (λ p. p.serial) places.now ≡ map (λ t. t.tid) list
            → AreNumbersOf list self.now → result ≡ changes_up_to tid list }
    {
        self.changes_of_first(count_up_to(places, tid))
    }

    /// Makes room for one more transaction, which has so many changes. The one error is want of memory,
    /// also where the list would have 2^63 changes or more.
    pub fn reserve(&mut self, count: usize) -> Result<(), AllocError>
        ensures room { OnOk result (0 < self.new.room) }
        ensures total { OnOk result (total_of self.new.tallies + count < 2 ^ 63) }
        ensures tallies { self.new.tallies ≡ self.old.tallies }
        ensures greatest { self.new.greatest ≡ self.old.greatest }
        ensures pack_point { self.new.pack_point ≡ self.old.pack_point }
    {
        if sum_of(self.total(), count as u64).is_none() {
            return Err(AllocError);
        }
        self.tallies.reserve(1)
    }

    /// With one transaction more, of which this was counted. Where room was made for it, it takes no
    /// memory. The one error is want of memory, and then the numbers are as before.
    #[inline(always)]
    pub fn add_counted(
        &mut self,
        tid: Tid,
        packed: bool,
        counted: Counted,
    ) -> Result<(), AllocError>
        ensures ok { OnOk result ((list : List Transaction) (t : Transaction) → t.tid ≡ tid
            → t.packed ≡ packed → length t.changes ≡ counted.changes
            → greatest_of (oids_of t) ≡ counted.greatest → AreNumbersOf list self.old
            → AreNumbersOf (list ++ t ∷ []) self.new) }
        ensures tallies { OnErr result (self.new.tallies ≡ self.old.tallies) }
        ensures greatest { OnErr result (self.new.greatest ≡ self.old.greatest) }
        ensures pack_point { OnErr result (self.new.pack_point ≡ self.old.pack_point) }
        ensures succeeds { 0 < self.old.room
            → total_of self.old.tallies + counted.changes < 2 ^ 63 → IsOk result }
    {
        let Some(changes) = sum_of(self.total(), counted.changes) else {
            return Err(AllocError);
        };
        self.tallies.push(kept_for(changes, packed))?;
        self.greatest = greater(self.greatest, counted.greatest);
        self.pack_point = point_with(self.pack_point, packed, tid);
        Ok(())
    }

    /// With one transaction more, which has these data records, one of each object that it changes.
    /// Where room was made for it, it takes no memory. The one error is want of memory, and then the
    /// numbers are as before.
    pub fn add(&mut self, tid: Tid, packed: bool, placed: &[Placed]) -> Result<(), AllocError>
        ensures ok { OnOk result ((list : List Transaction) (t : Transaction) → t.tid ≡ tid
            → t.packed ≡ packed → map (λ c. c.oid) t.changes ≡ oids_placed placed.now
            → AreNumbersOf list self.old → AreNumbersOf (list ++ t ∷ []) self.new) }
        ensures tallies { OnErr result (self.new.tallies ≡ self.old.tallies) }
        ensures greatest { OnErr result (self.new.greatest ≡ self.old.greatest) }
        ensures pack_point { OnErr result (self.new.pack_point ≡ self.old.pack_point) }
        ensures succeeds { 0 < self.old.room → total_of self.old.tallies + length placed.now < 2 ^ 63
            → IsOk result }
    {
        let counted = Counted {
            changes: placed.len() as u64,
            greatest: greatest_in(placed),
        };
        self.add_counted(tid, packed, counted)?;
        Ok(())
    }
}
