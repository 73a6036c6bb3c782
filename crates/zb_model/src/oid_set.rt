//! A set of objects.

ghost use Rattle.std.specs.Prelude.{◌≡◌, ◌<◌, ◌^◌, not, IfOk, OnOk, OnErr};
ghost use Rattle.std.specs.FinSet as set;

use std::alloc::{AllocError, Global};
use std::collections::BTreeSet;
use std::marker::Model;
use zb_ids::Oid;

/// Objects, each once, in a tree: a call costs a path of it, and never a move of all of them.
/// Contracts see the set of their numbers.
#[derive(Drop)]
pub struct OidSet {
    oids: BTreeSet<Oid>,
}

impl Model for OidSet {
    ghost use Rattle.std.specs.Coded.{coded_ℕ};
    ghost use Rattle.std.specs.FinSet as set;
    ghost use Rattle.std.specs.Ordering.{nat_cmp};

    ghost Value = { set.FinSet nat_cmp };

    ghost coded = { set.code coded_ℕ };

    ghost view = { λ a. set.from_list a.oids.keys };
}

impl OidSet {
    /// The empty set. It takes no memory until something is put in.
    pub fn new(alloc: Global) -> OidSet
        ensures { result ≡ set.empty }
    {
        OidSet {
            oids: BTreeSet::new(alloc),
        }
    }

    /// Whether an object is in the set.
    pub fn contains(&self, oid: Oid) -> bool
        ensures { result ≡ set.contains self.now oid }
    {
        self.oids.contains(&oid)
    }

    /// How many objects are in the set.
    pub fn len(&self) -> usize
        ensures count { result ≡ set.len self.now }
        ensures bound { result < 2 ^ 63 }
    {
        self.oids.len()
    }

    /// Puts an object in, and answers whether it wasn't in the set. Where there is no memory the set
    /// stays as it was.
    pub fn insert(&mut self, oid: Oid) -> Result<bool, AllocError>
        ensures new { IfOk result (λ new. new ≡ not (set.contains self.old oid)) }
        ensures ok { OnOk result (self.new ≡ set.insert self.old oid) }
        ensures err { OnErr result (self.new ≡ self.old) }
    {
        Ok(self.oids.insert(oid)?)
    }
}
