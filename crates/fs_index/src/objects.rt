//! The places of the records of each object.

ghost use Rattle.std.specs.Prelude.{◌≡◌, ◌==◌, ◌+◌, ◌<◌, ◌≤◌, ℕ, true, false, None, Some, if◌then◌else◌, nat_eq, List, [], ◌++◌, length, take, drop, vec_len, vec_capacity, slice_get, IsOk, IsSome, IfOk, OnOk, OnErr};
ghost use Rattle.std.specs.Map.{lookup};
ghost use Rattle.fs_index.specs.Places.{PlacesKept, places_in, Added, HasRoomIn};
ghost use Rattle.fs_index.specs.Listed.{AreListed};
ghost use Rattle.fs_index.specs.Slots.{slots_from, if_any, if_held, if_one, nowhere, alone_kept};

use crate::listing::list_first;
use crate::place::Place;
use crate::places::Places;
use crate::several::{Several, lies_near};
use std::alloc::{AllocError, Global};
use std::marker::Model;
use zb_ids::{Oid, Tid};

/// Where no record stands, since no file is as long.
const NOWHERE: u64 = u64::MAX;

/// The places of the data records of each object, in order. Most objects have one record and are
/// numbered from 0 on: their places are in a list by number, at most twice as long as there are objects
/// and a few more, and a place at `NOWHERE` stands for none. Contracts see the places of each object
/// that has some, and for how many objects more there is room.
#[derive(Drop)]
pub(crate) struct Objects {
    alloc: Global,
    alone: Vec<Place>,
    // How many objects have had their place in the list.
    held: usize,
    // Those of objects with several records, and of those whose number is too great for the list.
    several: Several,
}

impl Model for Objects {
    ghost use Rattle.std.specs.Prelude.{◌++◌};
    ghost use Rattle.fs_index.specs.Slots.{ObjectsKept, slots_from, alone_kept};

    ghost Value = { ObjectsKept };

    ghost view = { λ a. record {
      entries = slots_from 0 (alone_kept a.alone.items) ++ a.several.entries;
      room = a.several.room;
    } };
}

/// Whether no record stands at a place.
#[inline(always)]
fn is_nowhere(place: &Place) -> bool
    ensures { result ≡ (place.now.at == nowhere) }
{
    place.at == NOWHERE
}

/// No place.
fn no_place() -> Place
    ensures { result.at ≡ nowhere }
{
    Place {
        serial: Tid(0),
        at: NOWHERE,
    }
}

/// The place of an object in the list, where it has one there.
#[inline(always)]
fn one_of(alone: &[Place], oid: Oid) -> Option<Place>
    ensures held { if_held (slice_get (alone_kept alone.now) oid) ≡ if_one result }
    ensures within { IsSome result → oid < length alone.now }
{
    match alone.get(oid.0 as usize) {
        None => None,
        Some(place) => {
            if is_nowhere(place) {
                return None;
            }
            Some(*place)
        }
    }
}

/// The one place at a number of the list.
#[inline(always)]
fn ones_at(alone: &[Place], oid: Oid) -> &[Place]
    requires { oid < length alone.now }
    ensures { result.now ≡ take 1 (drop oid alone.now) }
{
    let at = oid.0 as usize;
    &alone[at..at + 1]
}

/// Whether the list is long enough for an object, a place can stand there, and none is kept elsewhere.
#[inline(always)]
fn is_free(alone: &[Place], several: &Several, oid: Oid, place: &Place) -> bool
    ensures within { result ≡ true → oid < length alone.now }
    ensures absent { result ≡ true → lookup (nat_eq oid) several.now.entries ≡ None }
    ensures there { result ≡ true → (place.now.at == nowhere) ≡ false }
{
    if oid.0 >= alone.len() as u64 {
        return false;
    }
    if is_nowhere(place) {
        return false;
    }
    several.lacks(oid)
}

/// Puts the first place of an object into the list, which is long enough. It takes no memory.
fn keep_first(alone: &mut Vec<Place>, oid: Oid, place: Place)
    requires within { oid < length alone.old.items }
    requires absent { if_held (slice_get (alone_kept alone.old.items) oid) ≡ None }
    requires there { (place.at == nowhere) ≡ false }
    ensures added { (rest : List (ℕ × PlacesKept)) → lookup (nat_eq oid) rest ≡ None
        → Added (slots_from 0 (alone_kept alone.old.items) ++ rest) oid place
        (slots_from 0 (alone_kept alone.new.items) ++ rest) }
    ensures others { (rest : List (ℕ × PlacesKept)) (o : ℕ) → (o == oid) ≡ false
        → HasRoomIn (slots_from 0 (alone_kept alone.old.items) ++ rest) o
        → HasRoomIn (slots_from 0 (alone_kept alone.new.items) ++ rest) o }
{
    alone[oid.0 as usize] = place;
}

/// Whether an object is the next one in the list, which has room for it, a place can stand there, and
/// none is kept elsewhere.
#[inline(always)]
fn is_next(alone: &Vec<Place>, several: &Several, oid: Oid, place: &Place) -> bool
    ensures next { result ≡ true → oid ≡ length alone.now.items }
    ensures room { result ≡ true → vec_len alone.now < vec_capacity alone.now }
    ensures absent { result ≡ true → lookup (nat_eq oid) several.now.entries ≡ None }
    ensures there { result ≡ true → (place.now.at == nowhere) ≡ false }
{
    if oid.0 != alone.len() as u64 {
        return false;
    }
    if is_nowhere(place) {
        return false;
    }
    alone.len() < alone.capacity() && several.lacks(oid)
}

/// Puts the first place of the next object behind the list, which has room for it. It takes no memory.
#[inline(always)]
fn keep_next(alone: &mut Vec<Place>, oid: Oid, place: Place)
    requires next { oid ≡ length alone.old.items }
    requires room { vec_len alone.old < vec_capacity alone.old }
    requires there { (place.at == nowhere) ≡ false }
    ensures added { (rest : List (ℕ × PlacesKept)) → lookup (nat_eq oid) rest ≡ None
        → Added (slots_from 0 (alone_kept alone.old.items) ++ rest) oid place
        (slots_from 0 (alone_kept alone.new.items) ++ rest) }
    ensures others { (rest : List (ℕ × PlacesKept)) (o : ℕ) → (o == oid) ≡ false
        → HasRoomIn (slots_from 0 (alone_kept alone.old.items) ++ rest) o
        → HasRoomIn (slots_from 0 (alone_kept alone.new.items) ++ rest) o }
{
    let _ = alone.push(place);
}

/// Takes the place of an object out of the list.
fn forget(alone: &mut Vec<Place>, oid: Oid)
    requires { oid < length alone.old.items }
    ensures { (rest : List (ℕ × PlacesKept)) (o : ℕ) →
        lookup (nat_eq o) (slots_from 0 (alone_kept alone.new.items) ++ rest)
        ≡ (if oid == o then lookup (nat_eq o) rest
        else lookup (nat_eq o) (slots_from 0 (alone_kept alone.old.items) ++ rest)) }
{
    alone[oid.0 as usize] = no_place();
}

/// Puts places, of which there are some, in the place of the one that an object has in the list. The one
/// error is want of memory.
fn replace(
    alone: &mut Vec<Place>,
    several: &mut Several,
    oid: Oid,
    places: Places,
) -> Result<(), AllocError>
    requires within { oid < length alone.old.items }
    requires some { if_any places places.places ≡ Some places }
    ensures ok { OnOk result ((o : ℕ) →
        lookup (nat_eq o) (slots_from 0 (alone_kept alone.new.items) ++ several.new.entries)
        ≡ (if oid == o then Some places
        else lookup (nat_eq o) (slots_from 0 (alone_kept alone.old.items) ++ several.old.entries))) }
    ensures err_alone { OnErr result (alone.new.items ≡ alone.old.items) }
    ensures err_several { OnErr result (several.new.entries ≡ several.old.entries) }
    ensures room { several.old.room ≤ several.new.room + 1 }
{
    several.set(oid, places)?;
    forget(alone, oid);
    Ok(())
}

/// Lengthens the list up to an object that lies near, as far as there is room for it. It takes no
/// memory.
fn lengthen(alone: &mut Vec<Place>, oid: Oid, near: bool)
    ensures { slots_from 0 (alone_kept alone.new.items) ≡ slots_from 0 (alone_kept alone.old.items) }
{
    if !near {
        return;
    }
    let more = alone.capacity().saturating_sub(alone.len());
    'more: for _i in 0..more {
        if oid.0 < alone.len() as u64 {
            return;
        }
        let _ = alone.push(no_place());
    }
}

impl Objects {
    /// Of no object. It takes no memory.
    pub(crate) fn new(alloc: Global) -> Objects
        ensures { result.entries ≡ [] }
    {
        Objects {
            alloc,
            alone: Vec::new(alloc),
            held: 0,
            several: Several::new(alloc),
        }
    }

    /// The places of an object, in order. It takes no memory.
    pub(crate) fn places(&self, oid: Oid) -> &[Place]
        ensures { result.now ≡ places_in self.now.entries oid }
    {
        if let Some(_) = one_of(self.alone.as_slice(), oid) {
            return ones_at(self.alone.as_slice(), oid);
        }
        self.several.places(oid)
    }

    /// Whether the list may be as long as an object needs it, with so many objects more.
    fn is_near(&self, oid: Oid, more: usize) -> bool {
        let objects = self
            .held
            .saturating_add(self.several.count())
            .saturating_add(more);
        lies_near(oid, objects)
    }

    /// Makes room in the list for an object that lies near, with so many objects more. Where there is no
    /// memory for it, the object goes elsewhere.
    #[inline(always)]
    pub(crate) fn make_room(&mut self, oid: Oid, more: usize)
        ensures { self.new ≡ self.old }
    {
        if oid.0 < self.alone.capacity() as u64 || !self.is_near(oid, more) {
            return;
        }
        let _ = self.alone.reserve(
            (oid.0 as usize)
                .saturating_sub(self.alone.len())
                .saturating_add(1),
        );
    }

    /// Puts a place at the end of an object's places, wherever these are. Where there is room for it, it
    /// takes no memory.
    #[inline(never)]
    fn keep_any(&mut self, oid: Oid, place: Place) -> Result<(), AllocError>
        ensures ok { OnOk result (Added self.old.entries oid place self.new.entries) }
        ensures err { OnErr result ((o : ℕ) →
            places_in self.new.entries o ≡ places_in self.old.entries o) }
        ensures succeeds { 0 < self.old.room → HasRoomIn self.old.entries oid → IsOk result }
        ensures others { (o : ℕ) → (o == oid) ≡ false → HasRoomIn self.old.entries o
            → HasRoomIn self.new.entries o }
        ensures room { self.old.room ≤ self.new.room + 1 }
    {
        let near = self.is_near(oid, 1);
        lengthen(&mut self.alone, oid, near);
        if let Some(one) = one_of(self.alone.as_slice(), oid) {
            let two = Places::two(self.alloc, one, place)?;
            return replace(&mut self.alone, &mut self.several, oid, two);
        }
        if is_free(self.alone.as_slice(), &self.several, oid, &place) {
            keep_first(&mut self.alone, oid, place);
            self.held = self.held.saturating_add(1);
            return Ok(());
        }
        self.several.keep(oid, place)
    }

    /// Puts a place at the end of an object's places. Where there is room for it, it takes no memory.
    #[inline(always)]
    pub(crate) fn keep(&mut self, oid: Oid, place: Place) -> Result<(), AllocError>
        ensures ok { OnOk result (Added self.old.entries oid place self.new.entries) }
        ensures err { OnErr result ((o : ℕ) →
            places_in self.new.entries o ≡ places_in self.old.entries o) }
        ensures succeeds { 0 < self.old.room → HasRoomIn self.old.entries oid → IsOk result }
        ensures others { (o : ℕ) → (o == oid) ≡ false → HasRoomIn self.old.entries o
            → HasRoomIn self.new.entries o }
        ensures room { self.old.room ≤ self.new.room + 1 }
    {
        if !is_next(&self.alone, &self.several, oid, &place) {
            return self.keep_any(oid, place);
        }
        keep_next(&mut self.alone, oid, place);
        self.held = self.held.saturating_add(1);
        Ok(())
    }

    /// Makes room for one place more of an object that has places. The one error is want of memory.
    pub(crate) fn reserve_one(&mut self, oid: Oid) -> Result<(), AllocError>
        ensures ok { OnOk result (HasRoomIn self.new.entries oid) }
        ensures others { (o : ℕ) → HasRoomIn self.old.entries o → HasRoomIn self.new.entries o }
        ensures places { (o : ℕ) → places_in self.new.entries o ≡ places_in self.old.entries o }
    {
        if let Some(one) = one_of(self.alone.as_slice(), oid) {
            let roomy = Places::roomy(self.alloc, one)?;
            return replace(&mut self.alone, &mut self.several, oid, roomy);
        }
        self.several.reserve_one(oid)
    }

    /// Makes room for so many objects more. The one error is want of memory.
    pub(crate) fn reserve(&mut self, more: usize) -> Result<(), AllocError>
        ensures ok { OnOk result (more ≤ self.new.room) }
        ensures entries { self.new.entries ≡ self.old.entries }
    {
        self.several.reserve(more)
    }
    /// All objects that have places, and some that have none, in no order. The one error is want of
    /// memory.
    pub(crate) fn list(&self, alloc: Global) -> Result<Vec<Oid>, AllocError>
        ensures { IfOk result (λ r. AreListed r.items self.now.entries) }
    {
        let mut oids = Vec::new(alloc);
        list_first(&mut oids, self.alone.len())?;
        self.several.list(&mut oids)?;
        Ok(oids)
    }
}
