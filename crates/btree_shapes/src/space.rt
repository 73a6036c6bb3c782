//! The objects that a tree stands on.

ghost use Rattle.std.specs.Prelude.{◌≡◌};

use crate::reading::Entry;
use btree_family::ClassRow;
use std::alloc::AllocError;
use thiserror::Error;
use zb_ids::{Oid, Text8};
use zb_model::Refusal;
use zb_record::ObjectRecord;

/// Why a space gives or takes no object.
#[derive(Debug, Drop, Error)]
pub enum SpaceError {
    /// The space has no content for the object.
    #[error("there is no content for the object")]
    NoNode,
    /// The content of the object is no record.
    #[error("the content of the object is no record")]
    NoRecord,
    /// The space refuses for a reason of its own.
    #[error("the space refuses")]
    Refused(Refusal),
    /// There was no memory.
    #[error("no memory is left")]
    Memory,
}

/// A call of a space.
#[derive(Clone, Copy, Debug, PartialEq, Eq)]
pub enum Call {
    /// An object was read.
    Read(Oid),
    /// A number was drawn for a new object.
    Drew(Oid),
    /// An object was put.
    Wrote(Oid),
}

/// What an object held when it was read as one of a tree whose root has this class.
#[derive(Drop)]
pub struct Recalled {
    pub row: &'static ClassRow,
    pub entry: Entry,
}

/// Objects by their numbers: a tree reads their records, draws numbers for new ones, and puts records.
pub trait Space {
    ghost use Rattle.std.specs.Prelude.{ℕ, List, [], ◌∷◌, ◌++◌, Option, Some, IfOk, IfErr, IfSome, OnOk, OnErr};
    ghost use Rattle.btree_family.specs.Classes.{class_seen};
    ghost use Rattle.btree_shapes.specs.Nodes.{Holds, held_in};
    ghost use Rattle.zb_model.specs.declared.refusal.Refusal.{Refusal};
    ghost use Rattle.btree_shapes.specs.declared.space.Call.{Call};
    ghost use Rattle.btree_shapes.specs.declared.space.Call.TheVariants.{Drew, Read, Wrote};
    ghost use Rattle.btree_shapes.specs.Spaces.{IsContentOf, IsLogged, lacked_memory, IsFault, refused, with_bytes, IsRecordText};

    /// The bytes that stand at each number.
    ghost contents: { Self → ℕ → Option (List ℕ) };

    /// A fact where a space of this type tells its calls and its refusals.
    ghost told: { Type 0 };

    /// The calls so far, where it tells: what was read, drawn and put, the first call first.
    ghost log: { Self → List Call };

    /// What the space has refused for reasons of its own, where it tells, the first refusal first.
    ghost refusals: { Self → List Refusal };

    /// The record of an object. `NoNode` is answered exactly where there is no content for it, and `NoRecord`
    /// exactly where its bytes are no record; `Refused` hands on a refusal of the space.
    fn node(&mut self, oid: Oid) -> Result<ObjectRecord, SpaceError>
        ensures content { IsContentOf (contents self.old oid) result }
        ensures contents { contents self.new ≡ contents self.old }
        ensures log { told → IsLogged oid (lacked_memory result) (log self.old) (log self.new) }
        ensures refusals { told → refusals self.new ≡ refusals self.old ++ refused result };

    /// Gives an object these bytes, which are those of a record. It is refused only by a refusal of the space, and
    /// for want of memory; then nothing is changed.
    fn put_text(&mut self, oid: Oid, bytes: Text8) -> Result<(), SpaceError>
        requires text { IsRecordText bytes }
        ensures ok { OnOk result (contents self.new ≡ with_bytes (contents self.old) oid bytes) }
        ensures written { OnOk result (told → log self.new ≡ log self.old ++ Wrote oid ∷ []) }
        ensures err { OnErr result (contents self.new ≡ contents self.old) }
        ensures kept { OnErr result (told → log self.new ≡ log self.old) }
        ensures fault { IfErr result IsFault }
        ensures refusals { told → refusals self.new ≡ refusals self.old ++ refused result };

    /// A number for a new object. It is refused only by a refusal of the space, and for want of memory.
    fn new_node(&mut self) -> Result<Oid, SpaceError>
        ensures ok { IfOk result (λ oid. told → log self.new ≡ log self.old ++ Drew oid ∷ []) }
        ensures err { OnErr result (told → log self.new ≡ log self.old) }
        ensures contents { contents self.new ≡ contents self.old }
        ensures fault { IfErr result IsFault }
        ensures refusals { told → refusals self.new ≡ refusals self.old ++ refused result };

    /// What an object holds, where the space remembers it from an earlier reading. This is no call of the space.
    fn recall(&self, oid: Oid) -> Option<Recalled>
        ensures holds { IfSome result (λ recalled. held_in (Some (class_seen recalled.row.now)) (contents self.now oid)
            ≡ Holds recalled.entry.class recalled.entry.node) }
    {
        let _ = oid;
        None
    }

    /// Counts an object as read that was recalled.
    fn reread(&mut self, oid: Oid) -> Result<(), AllocError>
        ensures contents { contents self.new ≡ contents self.old }
        ensures ok { OnOk result (told → log self.new ≡ log self.old ++ Read oid ∷ []) }
        ensures err { OnErr result (told → log self.new ≡ log self.old) }
        ensures refusals { told → refusals self.new ≡ refusals self.old }
    {
        let _ = oid;
        Err(AllocError)
    }

    /// The space may remember what an object holds.
    fn remember(&mut self, oid: Oid, row: &'static ClassRow, entry: &Entry)
        requires holds { held_in (Some (class_seen row.now)) (contents self.old oid) ≡ Holds entry.now.class entry.now.node }
        ensures contents { contents self.new ≡ contents self.old }
        ensures log { told → log self.new ≡ log self.old }
        ensures refusals { told → refusals self.new ≡ refusals self.old }
    {
        let _ = oid;
        let _ = row;
        let _ = entry;
    }
}
