//! The objects above a leaf.

ghost use Rattle.std.specs.Prelude.{◌≡◌, ◌++◌, ◌∷◌, [], ◌<◌, length, slice_get, Some, OnOk, MatchOption};

use std::alloc::{AllocError, Global};
use std::collections::VecDeque;
use std::marker::Model;

/// What is known of each object on a way to a leaf, from the root on. Contracts see the list.
#[derive(Drop)]
pub struct Rungs<R> {
    list: VecDeque<R>,
}

impl<R> Model for Rungs<R> {
    ghost use Rattle.std.specs.Prelude.{List};

    ghost Value = { List R };

    ghost view = { λ rungs. rungs.list.items };
}

impl<R> Rungs<R> {
    /// A way of no objects.
    pub fn new(alloc: Global) -> Rungs<R>
        ensures { result ≡ [] }
    {
        Rungs {
            list: VecDeque::new(alloc),
        }
    }

    /// How many there are.
    pub fn len(&self) -> usize
        ensures { result ≡ length self.now }
    {
        self.list.len()
    }

    /// The one at a place, counted from 0 at the root.
    pub fn at(&self, place: usize) -> &R
        requires { place < length self.now }
        ensures { slice_get self.now place ≡ Some result.now }
    {
        &self.list[place]
    }

    /// One more above the others. The one error is want of memory.
    pub fn put_above(&mut self, rung: R) -> Result<(), AllocError>
    where
        R: Drop,
        ensures { OnOk result (self.new ≡ rung ∷ self.old) }
    {
        self.list.push_front(rung)?;
        Ok(())
    }

    /// One more below the others. The one error is want of memory.
    pub fn put_below(&mut self, rung: R) -> Result<(), AllocError>
    where
        R: Drop,
        ensures { OnOk result (self.new ≡ self.old ++ rung ∷ []) }
    {
        self.list.push_back(rung)?;
        Ok(())
    }

    /// The highest one leaves, where there is one.
    pub fn take(&mut self) -> Option<R>
        ensures { MatchOption result ((self.old ≡ []) × (self.new ≡ []))
            (λ rung. self.old ≡ rung ∷ self.new) }
    {
        self.list.pop_front()
    }

    /// The lowest one leaves, where there is one.
    pub fn pop(&mut self) -> Option<R>
        ensures { MatchOption result ((self.old ≡ []) × (self.new ≡ []))
            (λ rung. self.old ≡ self.new ++ rung ∷ []) }
    {
        self.list.pop_back()
    }
}
