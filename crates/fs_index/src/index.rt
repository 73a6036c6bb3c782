//! Where the records of each object stand, and where the transactions do.

ghost use Rattle.std.specs.Prelude.{◌≡◌, ◌≤◌, ℕ, nat_eq, [], ◌∷◌, ◌++◌, All, length, IfOk, OnOk, OnErr};
ghost use Rattle.std.specs.List.{IsDistinct};
ghost use Rattle.fs_index.specs.Places.{places_in, placed_of, oids_placed, Added, HasRoomIn, HasRoomFor, IsBefore, IsRising, StandBehind};
ghost use Rattle.fs_index.specs.Listed.{AreRecordsOf};

use crate::listing::{in_order, push_all};
use crate::objects::Objects;
use crate::place::{Place, Placed};
use std::alloc::{AllocError, Global};
use std::marker::Model;
use zb_ids::Oid;

/// The places of the data records of each object and of the transactions of a file, each in the
/// order in which they stand. A record that a later one of the same object and transaction
/// replaces is kept too. Contracts see the places of each object and those of the transactions, and
/// for how many more there is room.
#[derive(Drop)]
pub struct Index {
    objects: Objects,
    transactions: Vec<Place>,
}

impl Model for Index {
    ghost use Rattle.std.specs.Prelude.{◌-◌, vec_len, vec_capacity};
    ghost use Rattle.fs_index.specs.Places.{Kept, IsSoundIndex};

    ghost Value = { Kept };

    ghost view = { λ index. record {
      entries = index.objects.entries;
      transactions = index.transactions.items;
      objects_room = index.objects.room;
      transactions_room = vec_capacity index.transactions - vec_len index.transactions;
    } };

    ghost invariant = { λ index. IsSoundIndex index.objects.entries index.transactions.items };
}

/// Makes room for one place more of each of these objects that has places. The one error is want of
/// memory.
fn reserve_each(objects: &mut Objects, placed: &[Placed]) -> Result<(), AllocError>
    ensures ok { OnOk result (All (λ p. HasRoomIn objects.new.entries p.oid) placed.now) }
    ensures places { (o : ℕ) → places_in objects.new.entries o ≡ places_in objects.old.entries o }
{
    'each: for one in placed {
        objects.make_room(one.oid, placed.len());
        objects.reserve_one(one.oid)?;
    }
    Ok(())
}

/// Puts each of these places at the end of its object's places. It takes no memory.
fn keep_each(objects: &mut Objects, placed: &[Placed])
    requires objects { length placed.now ≤ objects.old.room }
    requires each { All (λ p. HasRoomIn objects.old.entries p.oid) placed.now }
    requires distinct { IsDistinct nat_eq (oids_placed placed.now) }
    ensures { (o : ℕ) → places_in objects.new.entries o
        ≡ places_in objects.old.entries o ++ placed_of o placed.now }
{
    'each: for one in placed {
        let _ = objects.keep(one.oid, one.place);
    }
}

impl Index {
    /// An index of nothing, which takes no memory until something is kept.
    pub fn new(alloc: Global) -> Index
        ensures objects { result.entries ≡ [] }
        ensures transactions { result.transactions ≡ [] }
    {
        Index {
            objects: Objects::new(alloc),
            transactions: Vec::new(alloc),
        }
    }

    /// The places of an object's records, in order. It takes no memory.
    pub fn places(&self, oid: Oid) -> &[Place]
        ensures value { result.now ≡ places_in self.now.entries oid }
        ensures rising { IsRising result.now }
    {
        self.objects.places(oid)
    }

    /// The places of the transactions, in order. It takes no memory.
    pub fn transactions(&self) -> &[Place]
        ensures value { result.now ≡ self.now.transactions }
        ensures rising { IsRising result.now }
    {
        self.transactions.as_slice()
    }

    /// Keeps the place of a record, which stands behind all that are kept of its object. The one
    /// error is want of memory, and then the places are as they were.
    pub fn push_record(&mut self, oid: Oid, place: Place) -> Result<(), AllocError>
        requires behind { All (IsBefore place.serial place.at) (places_in self.old.entries oid) }
        ensures ok { OnOk result (Added self.old.entries oid place self.new.entries) }
        ensures err { OnErr result ((o : ℕ) →
            places_in self.new.entries o ≡ places_in self.old.entries o) }
        ensures transactions { self.new.transactions ≡ self.old.transactions }
    {
        self.objects.make_room(oid, 1);
        self.objects.keep(oid, place)
    }

    /// Keeps the place of a transaction, which stands behind all that are kept. The one error is
    /// want of memory, and then the places are as they were.
    pub fn push_transaction(&mut self, place: Place) -> Result<(), AllocError>
        requires behind { All (IsBefore place.serial place.at) self.old.transactions }
        ensures ok { OnOk result (self.new.transactions ≡ self.old.transactions ++ place ∷ []) }
        ensures err { OnErr result (self.new.transactions ≡ self.old.transactions) }
        ensures objects { self.new.entries ≡ self.old.entries }
    {
        self.transactions.push(place)?;
        Ok(())
    }

    /// Makes room for the place of one transaction more and for these places of its data records. The
    /// one error is want of memory; the places that are kept stay in any case.
    pub fn reserve(&mut self, placed: &[Placed]) -> Result<(), AllocError>
        ensures room { OnOk result (HasRoomFor self.new placed.now) }
        ensures places { (o : ℕ) → places_in self.new.entries o ≡ places_in self.old.entries o }
        ensures transactions { self.new.transactions ≡ self.old.transactions }
    {
        self.transactions.reserve(1)?;
        reserve_each(&mut self.objects, placed)?;
        self.objects.reserve(placed.len())
    }

    /// Keeps the place of a transaction, which stands behind all that are kept, and those of its data
    /// records, each behind all that are kept of its object, for which room was made. It takes no
    /// memory.
    pub fn add_reserved(&mut self, start: Place, placed: &[Placed])
        requires room { HasRoomFor self.old placed.now }
        requires distinct { IsDistinct nat_eq (oids_placed placed.now) }
        requires start { All (IsBefore start.serial start.at) self.old.transactions }
        requires behind { StandBehind self.old.entries placed.now }
        ensures records { (o : ℕ) → places_in self.new.entries o
            ≡ places_in self.old.entries o ++ placed_of o placed.now }
        ensures transactions { self.new.transactions ≡ self.old.transactions ++ start ∷ [] }
    {
        let _ = self.transactions.push(start);
        keep_each(&mut self.objects, placed);
    }
    /// All records of all objects, in rising order of the objects, those of one object in the order in
    /// which they stand. The one error is want of memory.
    pub fn records(&self, alloc: Global) -> Result<Vec<Placed>, AllocError>
        ensures { IfOk result (λ r. AreRecordsOf self.now.entries r.items) }
    {
        let oids = in_order(self.objects.list(alloc)?)?;
        let mut records = Vec::new(alloc);
        'each: for oid in oids.as_slice() {
            push_all(&mut records, *oid, self.places(*oid))?;
        }
        Ok(records)
    }
}
