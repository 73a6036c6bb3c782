//! What a store promises, however it keeps its list, and what a crash leaves of it.

ghost use Rattle.std.specs.Prelude.{◌≡◌, ℕ, ◌<◌, ◌-◌, ◌^◌, ◌++◌, ◌∷◌, [], None, Some, IsSome, IfOk, OnOk, OnErr, false};
ghost use Rattle.std.specs.Option.{ForSome};
ghost use Rattle.zb_volume.specs.declared.areas.Area.{Area};
ghost use Rattle.zb_volume.specs.Moments.{LeavesOnly, StaysAs};
ghost use Rattle.zb_model.specs.Database.{newest_tid, serial_of};
ghost use Rattle.zb_model.specs.Lists.{history_of, undo_log_before, undo_log_of};
ghost use Rattle.zb_model.specs.Queries.{change_at, changes_up_to, first_after, first_tid_after};
ghost use Rattle.zb_model.specs.Queries.{found_below, greatest_oid, pack_point, transaction_at};
ghost use Rattle.zb_model.specs.Packing.{packed_by};
ghost use Rattle.zb_model.specs.Packs.{IsCopyOf, IsCopyTurn, IsPackCount, StandsForOneOfTwo, new_pack};
ghost use Rattle.zb_model.specs.Stores.{AbortLeaves, BreaksByFault, CopyLeaves, DropKeepsRest, FinishLeaves, HasStoreCause, IsOnlyRead, MayBreak, SideIsEmpty, StandsForOneOf, SwitchLeaves, UnlessFault, VoteLeaves, tid_of_begun};
ghost use Rattle.zb_model.specs.Voting.{IsVotable, IsWellFormed, voted_of};

use crate::data::{Change, Transaction};
use crate::found::Found;
use crate::lists::{LogLine, Revision};
use crate::new_transaction::NewTransaction;
use crate::oid_set::OidSet;
use crate::packs::{Copied, Packed};
use crate::store_error::StoreError;
use std::alloc::Global;
use zb_ids::{ListOf, Oid, Tid};
use zb_volume::StoreFault;

/// A list of transactions, the oldest first, and beside it the one that is voted, if one is, and the
/// pack that is begun, if one is.
///
/// Contracts see a store as its list. Where its type tells (`told`), each call's answer is that of the
/// list. Over a volume that doesn't tell, only the clauses on faults, bounds and what stays the same
/// say something.
///
/// A store whose list lies on a disk (`lasts`) says what each crash leaves: bytes of Main that stand
/// for the list, at every moment until a call answers a store fault, and while a transaction is
/// finished, for the list or for the list with it; while a pack is switched, for the list or for the
/// packed one. After a store fault the store is broken, no call but `pack_drop` may be made, and the
/// volume is to be opened again.
///
/// A store has two counts of faults, one for reading and one for the calls that change it. They never
/// fall, and stand still at 2^64 - 1. A call moves one only where it answers a fault, so want of memory
/// is never told of a read or a write that failed. Its list is always a database: `database` says so.
pub trait Store {
    ghost use Rattle.std.specs.Prelude.{◌≡◌, ℕ, false, List};
    ghost use Rattle.zb_volume.specs.declared.areas.Area.TheVariants.{Main};
    ghost use Rattle.zb_volume.specs.Moments.{Leaves};
    ghost use Rattle.zb_model.specs.declared.data.Transaction.{Transaction};
    ghost use Rattle.zb_model.specs.Database.{IsDatabase};
    ghost use Rattle.zb_model.specs.Stores.{StoreState};

    /// Whether stores of this type tell their contents.
    ghost told: { Type 0 };

    /// Whether their list lies on a disk, so that it outlives a crash.
    ghost lasts: { Type 0 };

    /// What contracts see of a store.
    ghost state: { Self → StoreState };

    /// The bytes of Main stand for a list.
    ghost stands: { List ℕ → List Transaction → Type 0 };

    /// The tid of the last transaction, or 0 where there is none. It has one after it.
    fn newest(&self) -> Tid
        requires { (state self.now).broken ≡ false }
        ensures value { told → result ≡ newest_tid (state self.now).list }
        ensures number { result ≡ (state self.now).newest }
        ensures bound { result < 2 ^ 64 - 1 };

    /// The greatest tid of a transaction that a pack has gone over, or 0.
    fn pack_point(&self) -> Tid
        requires { (state self.now).broken ≡ false }
        ensures { told → result ≡ pack_point (state self.now).list };

    /// The greatest number of an object that some transaction changes, or 0.
    fn greatest_oid(&self) -> Oid
        requires { (state self.now).broken ≡ false }
        ensures { told → result ≡ greatest_oid (state self.now).list };

    /// The serial of the object's last revision, or 0 where it has none.
    fn serial_of(&self, oid: Oid) -> Tid
        requires { (state self.now).broken ≡ false }
        ensures { told → result ≡ serial_of oid (state self.now).list };

    /// How many changes the transactions up to a tid have.
    fn changes_to(&self, tid: Tid) -> u64
        requires { (state self.now).broken ≡ false }
        ensures { told → result ≡ changes_up_to tid (state self.now).list };

    /// The tid of the first transaction above this one, if there is one. Nothing is read.
    fn first_tid_after(&self, tid: Tid) -> Option<Tid>
        requires { (state self.now).broken ≡ false }
        ensures { told → result ≡ first_tid_after tid (state self.now).list };

    /// The object's last revision below a front, with the serial of its next one.
    fn load_before(&mut self, alloc: Global, oid: Oid, front: Tid) -> Result<Found, StoreError>
        requires { (state self.old).broken ≡ false }
        ensures found { told → IfOk result (λ found. found ≡ found_below oid front (state self.old).list) }
        ensures read { IsOnlyRead (state self.old) (state self.new) result };

    /// The transaction with this tid, if there is one.
    fn transaction(&mut self, alloc: Global, tid: Tid) -> Result<Option<Transaction>, StoreError>
        requires { (state self.old).broken ≡ false }
        ensures found { told → IfOk result (λ found. found ≡ transaction_at tid (state self.old).list) }
        ensures read { IsOnlyRead (state self.old) (state self.new) result };

    /// The first transaction above this tid, if there is one.
    fn after(&mut self, alloc: Global, tid: Tid) -> Result<Option<Transaction>, StoreError>
        requires { (state self.old).broken ≡ false }
        ensures found { told → IfOk result (λ found. found ≡ first_after tid (state self.old).list) }
        ensures read { IsOnlyRead (state self.old) (state self.new) result };

    /// The change at a place, counted from 0, of the transaction with this tid, if there is one.
    /// So a transaction is gone through whose contents together are larger than memory; one that is
    /// asked for its changes in their order is looked up in a file once.
    fn change_at(
        &mut self,
        alloc: Global,
        tid: Tid,
        number: u64,
    ) -> Result<Option<Change>, StoreError>
        requires { (state self.old).broken ≡ false }
        ensures found { told → IfOk result (λ found.
            found ≡ change_at tid number (state self.old).list) }
        ensures read { IsOnlyRead (state self.old) (state self.new) result };

    /// Every change of an object, the newest first.
    fn history(&mut self, alloc: Global, oid: Oid) -> Result<ListOf<Revision>, StoreError>
        requires { (state self.old).broken ≡ false }
        ensures lines { told → IfOk result (λ lines. lines ≡ history_of oid (state self.old).list) }
        ensures read { IsOnlyRead (state self.old) (state self.new) result };

    /// Every transaction that no pack has gone over, the newest first.
    fn undo_log(&mut self, alloc: Global) -> Result<ListOf<LogLine>, StoreError>
        requires { (state self.old).broken ≡ false }
        ensures lines { told → IfOk result (λ lines. lines ≡ undo_log_of (state self.old).list) }
        ensures read { IsOnlyRead (state self.old) (state self.new) result };

    /// No more than so many lines of the undo list, the newest first, of the transactions below a
    /// tid. So the list is gone through piece by piece, each below the last line of the one before.
    fn undo_log_before(
        &mut self,
        alloc: Global,
        below: Tid,
        count: u64,
    ) -> Result<ListOf<LogLine>, StoreError>
        requires { (state self.old).broken ≡ false }
        ensures lines { told → IfOk result (λ lines.
            lines ≡ undo_log_before below count (state self.old).list) }
        ensures read { IsOnlyRead (state self.old) (state self.new) result };

    /// Votes a transaction: it stands beside the list, with all the room that `finish` needs. With an
    /// error nothing is voted. A read fault and want of memory are answered before anything is written.
    fn vote(&mut self, alloc: Global, new: &NewTransaction) -> Result<(), StoreError>
        requires whole { (state self.old).broken ≡ false }
        requires free { (state self.old).voted ≡ None }
        requires later { (state self.old).newest < new.now.tid }
        requires well_formed { IsWellFormed new.now }
        requires votable { told → IsVotable (state self.old).list new.now }
        ensures some { OnOk result (IsSome (state self.new).voted) }
        ensures voted { told → OnOk result ((state self.new).voted ≡ Some (voted_of (state self.old).list new.now)) }
        ensures tid { OnOk result (ForSome (state self.new).voted (λ t. t.tid ≡ new.now.tid)) }
        ensures none { OnErr result ((state self.new).voted ≡ None) }
        ensures leaves { VoteLeaves told (state self.old) (state self.new) result }
        ensures fault { BreaksByFault (state self.new) result }
        ensures cause { HasStoreCause (state self.old) (state self.new) result }
        ensures any_moment { lasts → LeavesOnly Area.Main (λ bytes. stands bytes (state self.old).list)
            (state self.old).log (state self.new).log }
        ensures side { lasts → StaysAs Area.Side (state self.old).log (state self.new).log };

    /// Puts the voted transaction at the end of the list. It takes no memory.
    fn finish(&mut self) -> Result<(), StoreFault>
        requires whole { (state self.old).broken ≡ false }
        requires voted { IsSome (state self.old).voted }
        ensures list { told → OnOk result
            (ForSome (state self.old).voted (λ t. (state self.new).list ≡ (state self.old).list ++ t ∷ [])) }
        ensures number { OnOk result
            (ForSome (state self.old).voted (λ t. (state self.new).newest ≡ t.tid)) }
        ensures voted { OnOk result ((state self.new).voted ≡ None) }
        ensures leaves { FinishLeaves told (state self.old) (state self.new) }
        ensures fault { MayBreak (state self.old) (state self.new) result }
        ensures any_moment { lasts → ForSome (state self.old).voted (λ t. LeavesOnly Area.Main
            (StandsForOneOf stands (state self.old).list t) (state self.old).log (state self.new).log) }
        ensures side { lasts → StaysAs Area.Side (state self.old).log (state self.new).log };

    /// Drops the voted transaction. It takes no memory.
    fn abort(&mut self) -> Result<(), StoreFault>
        requires whole { (state self.old).broken ≡ false }
        requires voted { IsSome (state self.old).voted }
        ensures voted { OnOk result ((state self.new).voted ≡ None) }
        ensures leaves { AbortLeaves told (state self.old) (state self.new) result }
        ensures fault { MayBreak (state self.old) (state self.new) result }
        ensures any_moment { lasts → LeavesOnly Area.Main (λ bytes. stands bytes (state self.old).list)
            (state self.old).log (state self.new).log }
        ensures side { lasts → StaysAs Area.Side (state self.old).log (state self.new).log };

    /// Begins a pack that goes over the transactions up to a tid, in place of any other that is begun:
    /// nothing is copied yet. What is voted stays so. With an error no pack is begun.
    fn pack_begin(&mut self, alloc: Global, tid: Tid) -> Result<(), StoreError>
        requires { (state self.old).broken ≡ false }
        ensures begun { told → OnOk result ((state self.new).begun ≡ Some (new_pack tid)) }
        ensures tid { OnOk result (tid_of_begun (state self.new) ≡ Some tid) }
        ensures leaves { CopyLeaves told (state self.old) (state self.new) result }
        ensures fault { BreaksByFault (state self.new) result }
        ensures cause { HasStoreCause (state self.old) (state self.new) result }
        ensures main { lasts → StaysAs Area.Main (state self.old).log (state self.new).log };

    /// Copies more of the packed list, in which just the objects of a set are kept: transaction by
    /// transaction, each whole, until 64 changes or more are copied in this turn or nothing is left. The
    /// set is the same in each call of one pack. What is voted stays so. With an error no pack is begun.
    fn pack_copy(&mut self, alloc: Global, keep: &OidSet) -> Result<Copied, StoreError>
        requires whole { (state self.old).broken ≡ false }
        requires begun { IsSome (state self.old).begun }
        requires copy { told → ForSome (state self.old).begun (IsCopyOf keep.now (state self.old).list) }
        ensures tid { OnOk result (tid_of_begun (state self.new) ≡ tid_of_begun (state self.old)) }
        ensures copied { told → IfOk result (λ copied. ForSome (state self.old).begun (λ old.
            ForSome (state self.new).begun (λ new.
            IsCopyTurn (packed_by old.tid keep.now (state self.old).list) old new copied))) }
        ensures leaves { CopyLeaves told (state self.old) (state self.new) result }
        ensures fault { BreaksByFault (state self.new) result }
        ensures cause { HasStoreCause (state self.old) (state self.new) result }
        ensures main { lasts → StaysAs Area.Main (state self.old).log (state self.new).log };

    /// Copies what is left of the packed list, and puts it in the place of the list in one step; then Side
    /// is empty. Whatever is answered, no pack is begun behind it; with an error the list is as before,
    /// or, where it is a store fault, a crash leaves one of the two.
    fn pack_switch(&mut self, alloc: Global, keep: &OidSet) -> Result<Packed, StoreError>
        requires whole { (state self.old).broken ≡ false }
        requires free { (state self.old).voted ≡ None }
        requires begun { IsSome (state self.old).begun }
        requires copy { told → ForSome (state self.old).begun (IsCopyOf keep.now (state self.old).list) }
        ensures list { told → OnOk result (ForSome (state self.old).begun (λ pack.
            (state self.new).list ≡ packed_by pack.tid keep.now (state self.old).list)) }
        ensures number { told → OnOk result ((state self.new).newest ≡ newest_tid (state self.new).list) }
        ensures counts { told → IfOk result (λ counts.
            IsPackCount (state self.old).list (state self.new).list counts) }
        ensures leaves { SwitchLeaves told (state self.old) (state self.new) result }
        ensures fault { BreaksByFault (state self.new) result }
        ensures cause { HasStoreCause (state self.old) (state self.new) result }
        ensures main { lasts → OnErr result
            (UnlessFault result (StaysAs Area.Main (state self.old).log (state self.new).log)) }
        ensures any_moment { lasts → ForSome (state self.old).begun (λ pack. LeavesOnly Area.Main
            (StandsForOneOfTwo stands (state self.old).list
            (packed_by pack.tid keep.now (state self.old).list))
            (state self.old).log (state self.new).log) }
        ensures side { lasts → OnOk result (SideIsEmpty (state self.new).log) };

    /// Drops the pack that is begun, if one is. It calls no volume and takes no memory.
    fn pack_drop(&mut self)
        ensures { DropKeepsRest (state self.old) (state self.new) };

    /// Between calls the list is a database.
    ghost database: { (store : Self) → told → (state store).broken ≡ false → IsDatabase (state store).list };

    /// Between calls each crash leaves bytes that stand for the list, whether one is voted or not.
    ghost lasting: { (store : Self) → lasts → (state store).broken ≡ false → Leaves Main (λ bytes. stands bytes (state store).list) (state store).log };
}
