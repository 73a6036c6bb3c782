//! Whose objects a call sees.

use std::marker::Brand;

/// What a call on a tree stands on, for proofs alone: the objects that it may read, and the numbers that were drawn for
/// it.
pub trait Sight {
    ghost use Rattle.std.specs.Prelude.{ℕ, List, Option};
    ghost use Rattle.tree_attempts.specs.declared.known.Seen.{Seen};

    /// What each object has, where it has something.
    ghost objects: { ℕ → Option Seen };

    /// The numbers for new objects, in the order in which they were drawn.
    ghost numbers: { List ℕ };
}

impl Sight for Brand {
    ghost use Rattle.std.specs.Prelude.{[], None};

    ghost objects = { λ oid. None };

    ghost numbers = { [] };
}
