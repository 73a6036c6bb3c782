//! The calls of an index.

ghost use Rattle.std.specs.Prelude.{◌≡◌, ℕ, All, OnOk, OnErr};
ghost use Rattle.std.specs.List.{last_or};
ghost use Rattle.fs_index.specs.Places.{Kept, places_in, last_below, knows, Added, IsBefore};

use crate::search::{any_at, last_before, last_of};
use crate::{Index, Place};
use std::alloc::AllocError;
use zb_ids::{Oid, Tid};

/// Looking up the places of an object's data records, and adding to them.
///
/// Contracts see what is kept: the places of each object's records in the order in which they
/// stand, a record that a later one of the same object and transaction replaces among them, and the
/// places of the transactions.
pub trait Lookup {
    ghost use Rattle.fs_index.specs.Places.{Kept};

    /// What is kept.
    ghost kept: { Self → Kept };

    /// The place of an object's last record, or `None` where it has none. It takes no memory.
    fn newest(&self, oid: Oid) -> Option<Place>
        ensures { result ≡ last_or None (places_in (kept self.now).entries oid) };

    /// The place of an object's last record in the transactions whose number is below a front, or
    /// `None` where it has none there. It takes no memory.
    fn before(&self, oid: Oid, front: Tid) -> Option<Place>
        ensures { result ≡ last_below front (places_in (kept self.now).entries oid) };

    /// Whether a record of the object is kept that stands at this place. It takes no memory.
    fn stands_at(&self, oid: Oid, at: u64) -> bool
        ensures { result ≡ knows (kept self.now).entries oid at };

    /// Keeps the place of one record more, which stands behind all that are kept of its object. The
    /// one error is want of memory, and then the places are as they were.
    fn add(&mut self, oid: Oid, place: Place) -> Result<(), AllocError>
        requires { All (IsBefore place.serial place.at) (places_in (kept self.old).entries oid) }
        ensures ok { OnOk result (Added (kept self.old).entries oid place (kept self.new).entries) }
        ensures err { OnErr result ((o : ℕ) →
            places_in (kept self.new).entries o ≡ places_in (kept self.old).entries o) }
        ensures transactions { (kept self.new).transactions ≡ (kept self.old).transactions };
}

impl Lookup for Index {
    ghost kept = { λ index. index };

    fn newest(&self, oid: Oid) -> Option<Place> {
        last_of(self.places(oid))
    }

    fn before(&self, oid: Oid, front: Tid) -> Option<Place> {
        last_before(self.places(oid), front)
    }

    fn stands_at(&self, oid: Oid, at: u64) -> bool {
        any_at(self.places(oid), at)
    }

    fn add(&mut self, oid: Oid, place: Place) -> Result<(), AllocError> {
        self.push_record(oid, place)
    }
}
