//! Numbers of objects, seen the newest first.

ghost use Rattle.std.specs.Prelude.{◌≡◌, ◌∷◌, [], ◌<◌, ◌^◌, length, OnOk, MatchOption};
ghost use Rattle.btree_shapes.specs.Ways.{stands_in};

use std::alloc::{AllocError, Global};
use std::marker::Model;
use zb_ids::Oid;

/// Numbers of objects, which contracts see the newest first.
#[derive(Drop)]
pub struct Children {
    list: Vec<Oid>,
}

impl Model for Children {
    ghost use Rattle.std.specs.Prelude.{List, ℕ, reverse};

    ghost Value = { List ℕ };

    ghost view = { λ children. reverse children.list.items };
}

impl Children {
    /// No numbers.
    pub(crate) fn new(alloc: Global) -> Children
        ensures { result ≡ [] }
    {
        Children {
            list: Vec::new(alloc),
        }
    }

    /// One number more.
    pub(crate) fn push(&mut self, oid: Oid) -> Result<(), AllocError>
        ensures ok { OnOk result (self.new ≡ oid ∷ self.old) }
        ensures room { OnOk result (length self.new < 2 ^ 64) }
    {
        self.list.push(oid)?;
        Ok(())
    }

    /// The newest number leaves.
    pub fn pop(&mut self) -> Option<Oid>
        ensures { MatchOption result ((self.old ≡ []) × (self.new ≡ [])) (λ oid. self.old ≡ oid ∷ self.new) }
    {
        self.list.pop()
    }

    /// Whether an object is among them.
    pub(crate) fn contains(&self, oid: Oid) -> bool
        ensures { result ≡ stands_in self.now oid }
    {
        self.list.as_slice().contains(&oid)
    }
}
