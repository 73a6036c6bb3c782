//! Ways down, with the objects on them.

ghost use Rattle.std.specs.Prelude.{◌≡◌, ◌+◌, ◌++◌, ◌∷◌, [], ◌<◌, ◌^◌, ◌↔◌, length, OnOk, IsTrue, MatchOption, map};
ghost use Rattle.btree_shapes.specs.Ways.{stands_in, step_oid};

use crate::shared::Shared;
use bucket_state::Inner;
use pickle_graph::Pickle;
use std::alloc::{AllocError, Global};
use std::marker::Model;
use zb_ids::Oid;

/// An object with others below it, by which a way goes: its number, its class and what it holds.
#[derive(Drop)]
pub struct Step {
    pub oid: Oid,
    pub class: Shared<Pickle>,
    pub inner: Shared<Inner>,
}

/// The objects with others below them on a way down, from the root on.
#[derive(Drop)]
pub struct Path {
    list: Vec<Step>,
}

impl Model for Path {
    ghost use Rattle.std.specs.Prelude.{List};
    ghost use Rattle.btree_shapes.specs.declared.path.Step.{Step};

    ghost Value = { List Step };

    ghost view = { λ path. path.list.items };
}

impl Path {
    /// The way of no steps.
    pub fn new(alloc: Global) -> Path
        ensures { result ≡ [] }
    {
        Path {
            list: Vec::new(alloc),
        }
    }

    /// One step further down.
    pub fn push(&mut self, step: Step) -> Result<(), AllocError>
        ensures ok { OnOk result (self.new ≡ self.old ++ step ∷ []) }
        ensures room { OnOk result (length self.new + 1 < 2 ^ 64) }
    {
        self.list.push(step)?;
        Ok(())
    }

    /// The lowest step leaves.
    pub fn pop(&mut self) -> Option<Step>
        ensures { MatchOption result ((self.old ≡ []) × (self.new ≡ [])) (λ step. self.old ≡ self.new ++ step ∷ []) }
    {
        self.list.pop()
    }

    /// Whether it has no steps.
    pub fn is_empty(&self) -> bool
        ensures { IsTrue result ↔ (self.now ≡ []) }
    {
        self.list.is_empty()
    }

    /// Whether an object is one of the steps.
    pub fn contains(&self, oid: Oid) -> bool
        ensures { result ≡ stands_in (map step_oid self.now) oid }
    {
        for step in self.list.iter() {
            if step.oid == oid {
                return true;
            }
        }
        false
    }
}
