//! A clock that is a list of stamps.

ghost use Rattle.std.specs.Prelude.{◌≡◌, ◌∷◌, Some, IfSome, slice_get};
ghost use Rattle.zb_outside.specs.Stamps.{stamps_after};

use crate::clock::Clock;
use std::marker::Model;
use zb_ids::Stamp;

/// A clock that gives the stamps of a list one after another, and the last of them from then on.
/// Contracts see the list of the stamps that are left, which is never empty.
#[derive(Debug, Drop)]
pub struct ListClock {
    next: Stamp,
    later: Vec<Stamp>,
    at: usize,
}

impl Model for ListClock {
    ghost use Rattle.std.specs.Prelude.{◌∷◌, ◌≤◌, List, drop, length};
    ghost use Rattle.zb_ids.specs.declared.stamp.Stamp.{Stamp};

    ghost Value = { List Stamp };

    ghost view = { λ clock. clock.next ∷ drop clock.at clock.later.items };

    ghost invariant = { λ clock. clock.at ≤ length clock.later.items };
}

impl ListClock {
    /// A clock that gives `first`, and then the stamps of `later` in their order.
    pub fn new(first: Stamp, later: Vec<Stamp>) -> ListClock
        ensures { result ≡ first ∷ later.items }
    {
        ListClock {
            next: first,
            later,
            at: 0,
        }
    }
}

impl Clock for ListClock {
    ghost stamps = { λ clock. Some clock };

    /// The first stamp, which is then dropped unless it is the last.
    fn stamp(&mut self) -> Stamp
        ensures first { slice_get self.old 0 ≡ Some result }
        ensures left { self.new ≡ stamps_after self.old }
    {
        let given = self.next;
        if let Some(next) = self.later.get(self.at) {
            self.next = *next;
            self.at += 1;
        }
        given
    }
}
