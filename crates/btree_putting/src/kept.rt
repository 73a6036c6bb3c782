//! Objects to put whose records were tried.

ghost use Rattle.std.specs.Prelude.{◌≡◌, ◌++◌, ◌∷◌, [], length, OnOk, MatchOption};

use crate::puts::Put;
use btree_shapes::Entry;
use std::alloc::{AllocError, Global};
use std::collections::VecDeque;
use std::marker::Model;
use zb_ids::Text8;

/// An object that is put, whose record can be written and reads back: the bytes of the record, and
/// what they hold.
#[derive(Drop)]
pub struct Kept {
    pub put: Put,
    pub bytes: Text8,
    /// What was read back: the node of the put, and the class as it is read.
    pub entry: Entry,
}

/// Such objects, in order.
#[derive(Drop)]
pub struct KeptPuts {
    list: VecDeque<Kept>,
}

impl Model for KeptPuts {
    ghost use Rattle.std.specs.Prelude.{List};
    ghost use Rattle.btree_putting.specs.declared.kept.Kept.{Kept};

    ghost Value = { List Kept };

    ghost view = { λ puts. puts.list.items };
}

impl KeptPuts {
    /// Nothing to put.
    pub(crate) fn new(alloc: Global) -> KeptPuts
        ensures { result ≡ [] }
    {
        KeptPuts {
            list: VecDeque::new(alloc),
        }
    }

    /// How many there are.
    pub fn len(&self) -> usize
        ensures { result ≡ length self.now }
    {
        self.list.len()
    }

    /// One more behind the others.
    pub(crate) fn push(&mut self, kept: Kept) -> Result<(), AllocError>
        ensures { OnOk result (self.new ≡ self.old ++ kept ∷ []) }
    {
        self.list.push_back(kept)?;
        Ok(())
    }

    /// The first one leaves.
    pub(crate) fn take(&mut self) -> Option<Kept>
        ensures { MatchOption result ((self.old ≡ []) × (self.new ≡ []))
            (λ kept. self.old ≡ kept ∷ self.new) }
    {
        self.list.pop_front()
    }
}
