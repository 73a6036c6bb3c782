//! What is written so far.

ghost use Rattle.std.specs.Prelude.{◌≡◌, [], IfOk, OnOk, OnErr, option_copied, option_map};
ghost use Rattle.zb_model.specs.Voting.{IsFilled};
ghost use Rattle.undo_records.specs.Outcomes.{AreWellFormedChanges};
ghost use Rattle.undo_records.specs.Undone.{with_change, written_for};
ghost use Rattle.undo_records.specs.Written.{change_of_entry};

use indexmap::IndexMap;
use std::alloc::{AllocError, Global};
use std::marker::Model;
use zb_ids::{ListOf, Oid};
use zb_model::{NewChange, NewContent};

/// The new contents of objects, in the order in which the objects were first written. Contracts see them
/// as new changes, which a store may vote.
#[derive(Drop)]
pub(crate) struct Written {
    alloc: Global,
    contents: IndexMap<Oid, NewContent>,
}

impl Model for Written {
    ghost use Rattle.undo_records.specs.Outcomes.{AreWellFormedChanges};
    ghost use Rattle.undo_records.specs.Written.{changes_in};
    ghost use Rattle.zb_model.specs.declared.new_transaction.NewChange.{NewChange};
    ghost use Rattle.std.specs.Prelude.{List};

    ghost Value = { List NewChange };

    ghost view = { λ a. changes_in a.contents.entries };

    ghost invariant = { λ a. AreWellFormedChanges (changes_in a.contents.entries) };
}

impl Written {
    /// Nothing is written. It takes no memory until something is.
    pub(crate) fn new(alloc: Global) -> Written
        ensures { result ≡ [] }
    {
        Written {
            alloc,
            contents: IndexMap::new(alloc),
        }
    }

    /// What is written of an object, if anything is.
    pub(crate) fn get(&self, oid: Oid) -> Option<&NewContent>
        ensures { option_copied result ≡ option_map (λ c. c.content) (written_for oid self.now) }
    {
        self.contents.get(&oid)
    }

    /// Writes an object's content: in the place of an earlier one, or behind all. With an error nothing
    /// is written.
    pub(crate) fn put(&mut self, oid: Oid, content: NewContent) -> Result<(), AllocError>
        requires { IsFilled content }
        ensures ok { OnOk result (self.new ≡ with_change self.old (record { oid = oid; content = content })) }
        ensures err { OnErr result (self.new ≡ self.old) }
    {
        self.contents.insert(oid, content)?;
        Ok(())
    }

    /// All that is written. The one error is want of memory.
    pub(crate) fn into_changes(self) -> Result<ListOf<NewChange>, AllocError>
        ensures changes { IfOk result (λ changes. changes ≡ self) }
        ensures votable { AreWellFormedChanges self }
    {
        let Written { alloc, contents } = self;
        let changes: Vec<NewChange> = contents
            .into_iter()
            .map(|(oid, content)| new_change(oid, content))
            .collect(alloc)?;
        Ok(ListOf::from_vec(changes))
    }
}

/// An entry of the table as a change.
fn new_change(oid: Oid, content: NewContent) -> NewChange
    ensures { result ≡ change_of_entry (oid, content) }
{
    NewChange { oid, content }
}
