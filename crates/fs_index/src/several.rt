//! The places of the records of the objects that have several.

ghost use Rattle.std.specs.Prelude.{◌≡◌, ◌==◌, ◌+◌, ◌<◌, ◌≤◌, ℕ, true, false, None, Some, if◌then◌else◌, nat_eq, List, [], ◌++◌, length, slice_get, option_copied, IsOk, IsSome, OnOk, OnErr};
ghost use Rattle.std.specs.Map.{lookup};
ghost use Rattle.indexmap.specs.IndexMap.{spare};
ghost use Rattle.fs_index.specs.Places.{PlacesKept, places_in, Added, HasRoomIn};
ghost use Rattle.fs_index.specs.Listed.{AreAmong, AreListed};
ghost use Rattle.fs_index.specs.Slots.{slots_from, if_any, if_held};

use crate::listing::{list_first, list_keys};
use crate::place::Place;
use crate::places::Places;
use indexmap::IndexMap;
use std::alloc::{AllocError, Global};
use std::marker::Model;
use zb_ids::Oid;

/// How much longer than twice the number of objects the list by number may be.
const MORE_SLOTS: usize = 64;

/// The places of the data records of objects that have several, in order, and of those whose number is
/// too great for a list. Most have theirs in a list by number, the others in a table. Contracts see the
/// places of each object that has some, and for how many objects more there is room.
#[derive(Drop)]
pub(crate) struct Several {
    alloc: Global,
    slots: Vec<Places>,
    // How many objects have places in the list.
    held: usize,
    others: IndexMap<Oid, Places>,
}

impl Model for Several {
    ghost use Rattle.std.specs.Prelude.{◌++◌};
    ghost use Rattle.indexmap.specs.IndexMap.{spare};
    ghost use Rattle.fs_index.specs.Slots.{ObjectsKept, slots_from};

    ghost Value = { ObjectsKept };

    ghost view = { λ a. record {
      entries = slots_from 0 a.slots.items ++ a.others.entries;
      room = spare a.others;
    } };
}

/// Whether a list by number may be as long as an object needs it, where there are so many objects.
pub(crate) fn lies_near(oid: Oid, objects: usize) -> bool {
    oid.0 < objects.saturating_mul(2).saturating_add(MORE_SLOTS) as u64
}

/// The places of an object in the list by number, where it has some there.
#[inline(always)]
fn slot_of(slots: &[Places], oid: Oid) -> Option<&Places>
    ensures { option_copied result ≡ if_held (slice_get slots.now oid) }
{
    match slots.get(oid.0 as usize) {
        None => None,
        Some(places) => {
            if places.is_empty() {
                return None;
            }
            Some(places)
        }
    }
}

/// Whether an object has places in the list by number.
#[inline(always)]
fn is_held(slots: &[Places], oid: Oid) -> bool
    ensures held { result ≡ true → IsSome (if_held (slice_get slots.now oid)) }
    ensures absent { result ≡ false → if_held (slice_get slots.now oid) ≡ None }
{
    slot_of(slots, oid).is_some()
}

/// The places of an object in a table that isn't empty, where it has some there.
#[inline(never)]
fn looked_up(others: &IndexMap<Oid, Places>, oid: Oid) -> Option<&Places>
    ensures { option_copied result ≡ lookup (nat_eq oid) others.now.entries }
{
    others.get(&oid)
}

/// Whether the table has no object.
#[inline(always)]
fn is_bare(others: &IndexMap<Oid, Places>) -> bool
    ensures { (oid : ℕ) → result ≡ true → lookup (nat_eq oid) others.now.entries ≡ None }
{
    others.is_empty()
}

/// The places of an object in the table, where it has some there.
#[inline(always)]
fn other_of(others: &IndexMap<Oid, Places>, oid: Oid) -> Option<&Places>
    ensures { option_copied result ≡ lookup (nat_eq oid) others.now.entries }
{
    if is_bare(others) {
        return None;
    }
    looked_up(others, oid)
}

/// Whether an object has places in the table.
#[inline(always)]
fn is_other(others: &IndexMap<Oid, Places>, oid: Oid) -> bool
    ensures { result ≡ false → lookup (nat_eq oid) others.now.entries ≡ None }
{
    other_of(others, oid).is_some()
}

/// Whether the list is long enough for an object, and the table has no places of it.
fn is_free(slots: &[Places], others: &IndexMap<Oid, Places>, oid: Oid) -> bool
    ensures within { result ≡ true → oid < length slots.now }
    ensures absent { result ≡ true → lookup (nat_eq oid) others.now.entries ≡ None }
{
    if oid.0 >= slots.len() as u64 {
        return false;
    }
    other_of(others, oid).is_none()
}

/// Puts a place at the end of those of an object that has some in the list. Where there is room for it,
/// it takes no memory.
fn keep_held(
    alloc: Global,
    slots: &mut Vec<Places>,
    oid: Oid,
    place: Place,
) -> Result<(), AllocError>
    requires { IsSome (if_held (slice_get slots.old.items oid)) }
    ensures ok { (rest : List (ℕ × PlacesKept)) → OnOk result
        (Added (slots_from 0 slots.old.items ++ rest) oid place (slots_from 0 slots.new.items ++ rest)) }
    ensures err { (rest : List (ℕ × PlacesKept)) → OnErr result ((o : ℕ) →
        places_in (slots_from 0 slots.new.items ++ rest) o ≡ places_in (slots_from 0 slots.old.items ++ rest) o) }
    ensures succeeds { (rest : List (ℕ × PlacesKept)) →
        HasRoomIn (slots_from 0 slots.old.items ++ rest) oid → IsOk result }
    ensures others { (rest : List (ℕ × PlacesKept)) (o : ℕ) → (o == oid) ≡ false
        → HasRoomIn (slots_from 0 slots.old.items ++ rest) o
        → HasRoomIn (slots_from 0 slots.new.items ++ rest) o }
{
    slots[oid.0 as usize].push(alloc, place)
}

/// Puts the first place of an object into the list, which is long enough. It takes no memory.
fn keep_first(slots: &mut Vec<Places>, oid: Oid, place: Place)
    requires within { oid < length slots.old.items }
    requires absent { if_held (slice_get slots.old.items oid) ≡ None }
    ensures added { (rest : List (ℕ × PlacesKept)) → lookup (nat_eq oid) rest ≡ None
        → Added (slots_from 0 slots.old.items ++ rest) oid place (slots_from 0 slots.new.items ++ rest) }
    ensures others { (rest : List (ℕ × PlacesKept)) (o : ℕ) → (o == oid) ≡ false
        → HasRoomIn (slots_from 0 slots.old.items ++ rest) o
        → HasRoomIn (slots_from 0 slots.new.items ++ rest) o }
{
    slots[oid.0 as usize] = Places::one(place);
}

/// Puts a place at the end of those of an object in the table. Where there is room for it, it takes no
/// memory.
fn keep_other(
    alloc: Global,
    others: &mut IndexMap<Oid, Places>,
    oid: Oid,
    place: Place,
) -> Result<(), AllocError>
    ensures ok { OnOk result (Added others.old.entries oid place others.new.entries) }
    ensures err { OnErr result ((o : ℕ) →
        places_in others.new.entries o ≡ places_in others.old.entries o) }
    ensures succeeds { 0 < spare others.old → HasRoomIn others.old.entries oid → IsOk result }
    ensures others { (o : ℕ) → (o == oid) ≡ false → HasRoomIn others.old.entries o
        → HasRoomIn others.new.entries o }
    ensures room { spare others.old ≤ spare others.new + 1 }
{
    if let Some(places) = others.get_mut(&oid) {
        return places.push(alloc, place);
    }
    others.insert(oid, Places::one(place))?;
    Ok(())
}

/// Makes room for one place more of an object that has places in the list. The one error is want of
/// memory.
fn reserve_held(alloc: Global, slots: &mut Vec<Places>, oid: Oid) -> Result<(), AllocError>
    requires { IsSome (if_held (slice_get slots.old.items oid)) }
    ensures ok { (rest : List (ℕ × PlacesKept)) →
        OnOk result (HasRoomIn (slots_from 0 slots.new.items ++ rest) oid) }
    ensures others { (rest : List (ℕ × PlacesKept)) (o : ℕ) →
        HasRoomIn (slots_from 0 slots.old.items ++ rest) o
        → HasRoomIn (slots_from 0 slots.new.items ++ rest) o }
    ensures places { (rest : List (ℕ × PlacesKept)) (o : ℕ) →
        places_in (slots_from 0 slots.new.items ++ rest) o ≡ places_in (slots_from 0 slots.old.items ++ rest) o }
{
    slots[oid.0 as usize].reserve(alloc)
}

/// Makes room for one place more of an object that has places in the table. The one error is want of
/// memory.
fn reserve_other(
    alloc: Global,
    others: &mut IndexMap<Oid, Places>,
    oid: Oid,
) -> Result<(), AllocError>
    ensures ok { OnOk result (HasRoomIn others.new.entries oid) }
    ensures others { (o : ℕ) → HasRoomIn others.old.entries o → HasRoomIn others.new.entries o }
    ensures places { (o : ℕ) → places_in others.new.entries o ≡ places_in others.old.entries o }
{
    match others.get_mut(&oid) {
        None => Ok(()),
        Some(places) => places.reserve(alloc),
    }
}

/// Lengthens the list up to an object that lies near, as far as there is room for it. It takes no
/// memory.
fn lengthen(slots: &mut Vec<Places>, oid: Oid, near: bool)
    ensures { slots_from 0 slots.new.items ≡ slots_from 0 slots.old.items }
{
    if !near {
        return;
    }
    let more = slots.capacity().saturating_sub(slots.len());
    'more: for _i in 0..more {
        if oid.0 < slots.len() as u64 {
            return;
        }
        let _ = slots.push(Places::none());
    }
}

/// Lengthens the list up to an object, where there is memory for it.
fn reach(slots: &mut Vec<Places>, oid: Oid)
    ensures { slots_from 0 slots.new.items ≡ slots_from 0 slots.old.items }
{
    if oid.0 >= slots.capacity() as u64 {
        let _ = slots.reserve(
            (oid.0 as usize)
                .saturating_sub(slots.len())
                .saturating_add(1),
        );
    }
    lengthen(slots, oid, true);
}

/// Puts places, of which there are some, in the place of those of an object within the list.
fn set_slot(slots: &mut Vec<Places>, oid: Oid, places: Places)
    requires within { oid < length slots.old.items }
    requires some { if_any places places.places ≡ Some places }
    ensures { (rest : List (ℕ × PlacesKept)) (o : ℕ) → lookup (nat_eq o) (slots_from 0 slots.new.items ++ rest)
        ≡ (if oid == o then Some places else lookup (nat_eq o) (slots_from 0 slots.old.items ++ rest)) }
{
    slots[oid.0 as usize] = places;
}

/// Puts places, of which there are some, in the place of those of an object in the table. The one error
/// is want of memory.
fn set_other(others: &mut IndexMap<Oid, Places>, oid: Oid, places: Places) -> Result<(), AllocError>
    ensures ok { OnOk result ((o : ℕ) → lookup (nat_eq o) others.new.entries
        ≡ (if oid == o then Some places else lookup (nat_eq o) others.old.entries)) }
    ensures err { OnErr result (others.new.entries ≡ others.old.entries) }
    ensures room { spare others.old ≤ spare others.new + 1 }
{
    others.insert(oid, places)?;
    Ok(())
}

impl Several {
    /// Of no object. It takes no memory.
    pub(crate) fn new(alloc: Global) -> Several
        ensures { result.entries ≡ [] }
    {
        Several {
            alloc,
            slots: Vec::new(alloc),
            held: 0,
            others: IndexMap::new(alloc),
        }
    }

    /// The places of an object, in order. It takes no memory.
    pub(crate) fn places(&self, oid: Oid) -> &[Place]
        ensures { result.now ≡ places_in self.now.entries oid }
    {
        if let Some(places) = slot_of(self.slots.as_slice(), oid) {
            return places.as_slice();
        }
        if is_bare(&self.others) {
            return &[];
        }
        match looked_up(&self.others, oid) {
            None => &[],
            Some(places) => places.as_slice(),
        }
    }

    /// Whether the list may be as long as one object more needs it.
    fn is_near(&self, oid: Oid) -> bool {
        let objects = self
            .held
            .saturating_add(self.others.len())
            .saturating_add(1);
        lies_near(oid, objects)
    }

    /// How many objects have places in the table.
    pub(crate) fn count(&self) -> usize {
        self.others.len()
    }

    /// Whether an object has no places here.
    #[inline(always)]
    pub(crate) fn lacks(&self, oid: Oid) -> bool
        ensures { result ≡ true → lookup (nat_eq oid) self.now.entries ≡ None }
    {
        if is_held(self.slots.as_slice(), oid) {
            return false;
        }
        if is_other(&self.others, oid) {
            return false;
        }
        true
    }

    /// Puts a place at the end of an object's places. Where there is room for it, it takes no memory.
    pub(crate) fn keep(&mut self, oid: Oid, place: Place) -> Result<(), AllocError>
        ensures ok { OnOk result (Added self.old.entries oid place self.new.entries) }
        ensures err { OnErr result ((o : ℕ) →
            places_in self.new.entries o ≡ places_in self.old.entries o) }
        ensures succeeds { 0 < self.old.room → HasRoomIn self.old.entries oid → IsOk result }
        ensures others { (o : ℕ) → (o == oid) ≡ false → HasRoomIn self.old.entries o
            → HasRoomIn self.new.entries o }
        ensures room { self.old.room ≤ self.new.room + 1 }
    {
        let near = self.is_near(oid);
        lengthen(&mut self.slots, oid, near);
        if is_held(self.slots.as_slice(), oid) {
            return keep_held(self.alloc, &mut self.slots, oid, place);
        }
        if is_free(self.slots.as_slice(), &self.others, oid) {
            keep_first(&mut self.slots, oid, place);
            self.held = self.held.saturating_add(1);
            return Ok(());
        }
        keep_other(self.alloc, &mut self.others, oid, place)
    }

    /// Puts places, of which there are some, in the place of those of an object, one that lies near into
    /// the list. The one error is want of memory.
    pub(crate) fn set(&mut self, oid: Oid, places: Places) -> Result<(), AllocError>
        requires { if_any places places.places ≡ Some places }
        ensures ok { OnOk result ((o : ℕ) → lookup (nat_eq o) self.new.entries
            ≡ (if oid == o then Some places else lookup (nat_eq o) self.old.entries)) }
        ensures err { OnErr result (self.new.entries ≡ self.old.entries) }
        ensures room { self.old.room ≤ self.new.room + 1 }
    {
        reach(&mut self.slots, oid);
        if oid.0 < self.slots.len() as u64 {
            set_slot(&mut self.slots, oid, places);
            self.held = self.held.saturating_add(1);
            return Ok(());
        }
        set_other(&mut self.others, oid, places)
    }

    /// Makes room for one place more of an object that has places. The one error is want of memory.
    pub(crate) fn reserve_one(&mut self, oid: Oid) -> Result<(), AllocError>
        ensures ok { OnOk result (HasRoomIn self.new.entries oid) }
        ensures others { (o : ℕ) → HasRoomIn self.old.entries o → HasRoomIn self.new.entries o }
        ensures places { (o : ℕ) → places_in self.new.entries o ≡ places_in self.old.entries o }
    {
        if is_held(self.slots.as_slice(), oid) {
            return reserve_held(self.alloc, &mut self.slots, oid);
        }
        reserve_other(self.alloc, &mut self.others, oid)
    }

    /// Makes room for so many objects more. The one error is want of memory.
    pub(crate) fn reserve(&mut self, more: usize) -> Result<(), AllocError>
        ensures ok { OnOk result (more ≤ self.new.room) }
        ensures entries { self.new.entries ≡ self.old.entries }
    {
        self.others.reserve(more)
    }
    /// Puts all objects that have places here behind these, and some that have none, in no order. The
    /// one error is want of memory.
    pub(crate) fn list(&self, oids: &mut Vec<Oid>) -> Result<(), AllocError>
        ensures listed { OnOk result (AreListed oids.new.items self.now.entries) }
        ensures kept { OnOk result (AreAmong oids.old.items oids.new.items) }
    {
        list_first(oids, self.slots.len())?;
        list_keys(oids, &self.others)?;
        Ok(())
    }
}
