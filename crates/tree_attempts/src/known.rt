//! What was read so far.

ghost use Rattle.std.specs.Prelude.{◌≡◌, ◌+◌, [], ℕ, Some, OnOk, OnErr, is_some, length, nat_eq, if◌then◌else◌};
ghost use Rattle.std.specs.Option.{option_copied};
ghost use Rattle.tree_attempts.specs.Known.{known_at};

use indexmap::IndexMap;
use std::alloc::{AllocError, Global};
use std::marker::Model;
use zb_ids::{Oid, Text8, Tid};

/// What a client has of an object.
#[derive(Debug, Drop)]
pub struct Seen {
    /// The serial of the revision, or the base of what waits for the vote.
    pub serial: Tid,
    /// Its bytes.
    pub bytes: Text8,
}

/// What was read of objects so far, each once. An object that has no content is known too. Contracts see the objects in the
/// order in which they were read.
#[derive(Drop)]
pub struct Known {
    objects: IndexMap<Oid, Option<Seen>>,
}

impl Model for Known {
    ghost use Rattle.std.specs.Prelude.{List, ℕ, Option};
    ghost use Rattle.tree_attempts.specs.declared.known.Seen.{Seen};

    ghost Value = { List (ℕ × Option Seen) };

    ghost view = { λ known. known.objects.entries };
}

impl Known {
    /// Nothing was read. It takes no memory until something is.
    pub fn new(alloc: Global) -> Known
        ensures { result ≡ [] }
    {
        Known {
            objects: IndexMap::new(alloc),
        }
    }

    /// An object was read: it has this, or no content. The one error is want of memory, and then what is known is as
    /// before.
    pub fn learn(&mut self, oid: Oid, seen: Option<Seen>) -> Result<(), AllocError>
        ensures known { OnOk result ((other : ℕ) → known_at self.new other
            ≡ (if nat_eq oid other then Some seen else known_at self.old other)) }
        ensures grows { OnOk result (length self.new
            ≡ length self.old + (if is_some (known_at self.old oid) then 0 else 1)) }
        ensures err { OnErr result (self.new ≡ self.old) }
    {
        self.objects.insert(oid, seen)?;
        Ok(())
    }

    /// How many objects are known.
    pub fn len(&self) -> usize
        ensures { result ≡ length self.now }
    {
        self.objects.len()
    }

    /// What is known of an object: `None` where it wasn't read yet.
    pub fn find(&self, oid: Oid) -> Option<&Option<Seen>>
        ensures { option_copied result ≡ known_at self.now oid }
    {
        self.objects.get(&oid)
    }
}
