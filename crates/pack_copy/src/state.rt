//! What is known of the file that is copied to Side.

ghost use Rattle.std.specs.Prelude.{◌≡◌, ◌-◌, ◌<◌, ◌^◌, List};
ghost use Rattle.zb_model.specs.declared.data.Transaction.{Transaction};
ghost use Rattle.zb_model.specs.Database.{IsDatabase};
ghost use Rattle.zb_model.specs.Packs.{change_count};
ghost use Rattle.fs_recovery.specs.Numbers.{AreNumbersOf};
ghost use Rattle.fs_recovery.specs.Opens.{IsBounded, newest_kept};
ghost use Rattle.pack_copy.specs.Copying.{opened_of};

use fs_index::{Index, last_of};
use fs_recovery::{Numbers, Opened};
use std::marker::Model;
use zb_ids::Tid;

/// A copy that was begun: up to which tid is packed, and of the file on Side, which has no tail, the
/// index, the numbers of its list, and where it ends. The next transaction to be copied is the first
/// one above the last that stands there.
#[derive(Drop)]
pub struct CopyState {
    pub(crate) tid: Tid,
    pub(crate) index: Index,
    pub(crate) numbers: Numbers,
    pub(crate) end: u64,
}

impl Model for CopyState {
    ghost use Rattle.std.specs.Prelude.{None};
    ghost use Rattle.fs_recovery.specs.Opens.{IsBounded};
    ghost use Rattle.pack_copy.specs.Copying.{CopyKept};

    ghost Value = { CopyKept };

    ghost view = { λ a. record { tid = a.tid; index = a.index; numbers = a.numbers; end = a.end } };

    ghost invariant = { λ a. IsBounded (record { index = a.index; numbers = a.numbers; end = a.end; cut = None }) };
}

/// How many changes the list with these numbers has.
pub fn changes_of(numbers: &Numbers) -> u64
    ensures { (list : List Transaction) → IsDatabase list → AreNumbersOf list numbers.now
        → result ≡ change_count list }
{
    numbers.changes()
}

impl CopyState {
    /// The tid up to which is packed.
    pub fn tid(&self) -> Tid
        ensures { result ≡ self.now.tid }
    {
        self.tid
    }

    /// The number of the last transaction on Side, or 0.
    pub(crate) fn newest(&self) -> Tid
        ensures value { result ≡ newest_kept self.now.index }
        ensures bound { result < 2 ^ 64 - 1 }
    {
        match last_of(self.index.transactions()) {
            Some(place) => place.serial,
            None => Tid(0),
        }
    }

    /// Where the file on Side ends.
    pub(crate) fn end(&self) -> u64
        ensures { result ≡ self.now.end }
    {
        self.end
    }

    /// How many changes were copied.
    pub fn changes(&self) -> u64
        ensures { (list : List Transaction) → IsDatabase list → AreNumbersOf list self.now.numbers
            → result ≡ change_count list }
    {
        changes_of(&self.numbers)
    }

    /// The file on Side, as it would be opened. It takes no memory.
    pub fn into_opened(self) -> Opened
        ensures value { result ≡ opened_of self }
        ensures bounded { IsBounded result }
    {
        let CopyState {
            tid: _,
            index,
            numbers,
            end,
        } = self;
        Opened {
            index,
            numbers,
            end,
            cut: None,
        }
    }
}
