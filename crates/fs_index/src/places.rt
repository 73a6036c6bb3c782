//! The places of one object.

ghost use Rattle.std.specs.Prelude.{◌≡◌, ◌<◌, ◌≤◌, ◌++◌, ◌∷◌, ◌==◌, [], length, vec_len, vec_capacity, IsOk, IfOk, OnOk, OnErr};
ghost use Rattle.fs_index.specs.Places.{PlacesKept};

use crate::place::Place;
use std::alloc::{AllocError, Global};
use std::marker::Model;

/// None, one place in itself, or several on the heap. Most objects have one revision.
#[derive(Drop)]
enum Held {
    Nothing,
    One([Place; 1]),
    Several(Vec<Place>),
}

/// The places of the data records of one object, in order. A single one takes no memory of its own.
/// Contracts see the places, and for how many more there is room.
#[derive(Drop)]
pub(crate) struct Places {
    held: Held,
}

impl Model for Places {
    ghost use Rattle.fs_index.specs.Places.{PlacesKept};
    ghost use Rattle.fs_index.specs.HeldPlaces.{places_held, room_held};

    ghost Value = { PlacesKept };

    ghost view = { λ a. record { places = places_held a.held; room = room_held a.held } };
}

/// The place on the heap, with room for one more. The one error is want of memory.
fn on_heap(alloc: Global, place: Place) -> Result<Vec<Place>, AllocError>
    ensures items { IfOk result (λ places. places.items ≡ place ∷ []) }
    ensures room { IfOk result (λ places. vec_len places < vec_capacity places) }
{
    let mut places = Vec::with_capacity(alloc, 2)?;
    places.push(place)?;
    Ok(places)
}

impl Places {
    /// No place, without room for any. It takes no memory.
    pub(crate) fn none() -> Places
        ensures { result ≡ record { places = []; room = 0 } }
    {
        Places {
            held: Held::Nothing,
        }
    }

    /// Whether there is no place.
    pub(crate) fn is_empty(&self) -> bool
        ensures { result ≡ (length self.now.places == 0) }
    {
        self.as_slice().is_empty()
    }

    /// One place, without room for more. It takes no memory.
    pub(crate) fn one(place: Place) -> Places
        ensures { result ≡ record { places = place ∷ []; room = 0 } }
    {
        Places {
            held: Held::One([place]),
        }
    }

    /// One place, with room for more. The one error is want of memory.
    pub(crate) fn roomy(alloc: Global, place: Place) -> Result<Places, AllocError>
        ensures places { IfOk result (λ p. p.places ≡ place ∷ []) }
        ensures room { IfOk result (λ p. 0 < p.room) }
    {
        Ok(Places {
            held: Held::Several(on_heap(alloc, place)?),
        })
    }

    /// Two places. The one error is want of memory.
    pub(crate) fn two(alloc: Global, first: Place, second: Place) -> Result<Places, AllocError>
        ensures { IfOk result (λ p. p.places ≡ first ∷ second ∷ []) }
    {
        let mut places = on_heap(alloc, first)?;
        places.push(second)?;
        Ok(Places {
            held: Held::Several(places),
        })
    }

    /// The places, in order.
    pub(crate) fn as_slice(&self) -> &[Place]
        ensures { result.now ≡ self.now.places }
    {
        match &self.held {
            Held::Nothing => &[],
            Held::One(place) => place.as_slice(),
            Held::Several(places) => places.as_slice(),
        }
    }

    /// Makes room for one place more. The one error is want of memory; the places stay in any case, and
    /// so does room that there was.
    pub(crate) fn reserve(&mut self, alloc: Global) -> Result<(), AllocError>
        ensures ok { OnOk result (0 < self.new.room) }
        ensures places { self.new.places ≡ self.old.places }
        ensures room { self.old.room ≤ self.new.room }
    {
        match &mut self.held {
            Held::Nothing => {
                self.held = Held::Several(Vec::with_capacity(alloc, 1)?);
                Ok(())
            }
            Held::One(first) => {
                let places = on_heap(alloc, first[0])?;
                self.held = Held::Several(places);
                Ok(())
            }
            Held::Several(places) => places.reserve(1),
        }
    }

    /// Puts a place at the end. Where there is room for it, it takes no memory. The one error is want of
    /// memory, and then the places are as before.
    pub(crate) fn push(&mut self, alloc: Global, place: Place) -> Result<(), AllocError>
        ensures ok { OnOk result (self.new.places ≡ self.old.places ++ place ∷ []) }
        ensures err { OnErr result (self.new.places ≡ self.old.places) }
        ensures succeeds { 0 < self.old.room → IsOk result }
    {
        match &mut self.held {
            Held::Nothing => self.held = Held::One([place]),
            Held::One(first) => {
                let mut places = on_heap(alloc, first[0])?;
                places.push(place)?;
                self.held = Held::Several(places);
            }
            Held::Several(places) => places.push(place)?,
        }
        Ok(())
    }
}
