//! Calls that read and change what waits in the open transaction.

ghost use Rattle.std.specs.Prelude.{◌≡◌, ◌<◌, ◌⊎◌, All, Err, IfOk, None, Ok, Some, false, length};
ghost use Rattle.zb_model.specs.declared.data.Content.TheVariants.{Held};
ghost use Rattle.zb_model.specs.Database.{IsRecord};
ghost use Rattle.zb_model.specs.declared.pending.PendingStore.{PendingStore};
ghost use Rattle.zb_model.specs.declared.refusal.Refusal.{Refusal};
ghost use Rattle.zb_model.specs.declared.refusal.Refusal.TheVariants as refusal;
ghost use Rattle.commit_phases.specs.Pending.{pending_of};
ghost use Rattle.connection_view.specs.Loading.{Reads};
ghost use Rattle.connection_view.specs.Works.{Work};
ghost use Rattle.connection_view.specs.Views.{Client, View};
ghost use Rattle.connection_view.specs.Connections.{Between, InView, IsPutAsRead, IsReadBy, LeavesWork, followed_by, changeable, checked_in_work, deleted_in_work, rolled_back, saved, stored_in_work, stored_all, waiting_read, work_of};

use crate::changing::{
    base_in, base_read, check_in, delete_in, roll_back_in, save_in, store_all_in, store_in,
    waiting_in,
};
use crate::connection::Connection;
use crate::loads::Loads;
use zb_ids::{ListOf, Oid, Text8, Tid};
use zb_model::{Content, PendingStore, Refusal};

/// What is answered of what waits under an object.
fn waiting_read(oid: Oid, store: PendingStore) -> Result<(Tid, Text8), Refusal>
    ensures { result ≡ waiting_read oid store }
{
    let PendingStore {
        oid: _,
        base,
        content,
    } = store;
    match content {
        Content::Held(bytes) => Ok((base, bytes)),
        Content::Absent => Err(Refusal::Missing { oid, packed: false }),
    }
}

impl Connection {
    /// What waits under an object in the open transaction: its bytes with its base as their serial, or `Missing` with
    /// `false` where a delete waits there; or else what the object has in the view, as `load` answers it.
    pub fn get<L: Loads>(&mut self, loads: &mut L, oid: Oid) -> Result<(Tid, Text8), Refusal>
        ensures waiting { (w : Work) (p : PendingStore) → work_of self.old ≡ Ok w
            → pending_of w.pending.stores oid ≡ Some p
            → ((result ≡ waiting_read oid p) ⊎ (result ≡ Err refusal.Memory)) × (loads.new ≡ loads.old) }
        ensures reads { (w : Work) → work_of self.old ≡ Ok w → pending_of w.pending.stores oid ≡ None
            → (u : View) (c : Client) → L.stands loads.old c → InView self.old u c
            → Reads u (L.state loads.old) oid result }
        ensures view { (u : View) (c : Client) → L.stands loads.old c → InView self.old u c → InView self.new u c }
        ensures between { (c : Client) → Between self.old c → Between self.new c }
        ensures stands { (c : Client) → L.stands loads.old c → L.stands loads.new c }
        ensures refused { (r : Refusal) → work_of self.old ≡ Err r → (result ≡ Err r) × (loads.new ≡ loads.old) }
        ensures makes { (w : Work) → work_of self.old ≡ Ok w → pending_of w.pending.stores oid ≡ None
            → IsReadBy L.makes loads.old loads.new oid w.front w.switches result }
        ensures work { work_of self.new ≡ work_of self.old }
        ensures state { L.told → L.state loads.new ≡ L.state loads.old }
        ensures place { L.place loads.new ≡ L.place loads.old }
    {
        let store = match waiting_in(self.is_open, &self.work, oid) {
            Err(refusal) => return Err(refusal),
            Ok(store) => store,
        };
        match store {
            Some(store) => waiting_read(oid, store),
            None => self.load(loads, oid),
        }
    }

    /// An object's bytes wait for the vote, as made from what a read answers: its serial is their base, and 0 is where
    /// the object is missing and no pack was made since; where a pack was, that refusal is answered. Where something
    /// waits under the object already, its base stays and nothing is read. `NotOpen`, `NoTransaction` and `Voted` come
    /// first, then the refusals of the read, and last `TooLong` where the bytes pass a limit. What is refused leaves
    /// the transaction as it was.
    pub fn put<L: Loads>(&mut self, loads: &mut L, oid: Oid, bytes: Text8) -> Result<(), Refusal>
        requires filled { 0 < length bytes }
        ensures waiting { (w : Work) (p : PendingStore) → changeable (work_of self.old) ≡ Ok w
            → pending_of w.pending.stores oid ≡ Some p
            → LeavesWork (stored_in_work (record { oid = oid; base = p.base; content = Held bytes }) w) (work_of self.old)
            (work_of self.new) result × (loads.new ≡ loads.old) }
        ensures reads { (w : Work) → changeable (work_of self.old) ≡ Ok w → pending_of w.pending.stores oid ≡ None
            → IsPutAsRead L.makes (L.stands loads.old)
            (L.state loads.old) loads.old loads.new self.old self.new w oid bytes result }
        ensures refused { (r : Refusal) → changeable (work_of self.old) ≡ Err r
            → (result ≡ Err r) × (loads.new ≡ loads.old) × (work_of self.new ≡ work_of self.old) }
        ensures view { (u : View) (c : Client) → L.stands loads.old c → InView self.old u c → InView self.new u c }
        ensures between { (c : Client) → Between self.old c → Between self.new c }
        ensures stands { (c : Client) → L.stands loads.old c → L.stands loads.new c }
        ensures state { L.told → L.state loads.new ≡ L.state loads.old }
        ensures place { L.place loads.new ≡ L.place loads.old }
    {
        let base = match base_in(self.is_open, &self.work, oid) {
            Err(refusal) => return Err(refusal),
            Ok(base) => base,
        };
        match base {
            Some(base) => self.set(oid, base, bytes),
            None => match base_read(self.load(loads, oid)) {
                Ok(base) => self.set(oid, base, bytes),
                Err(refusal) => Err(refusal),
            },
        }
    }

    /// An object's bytes wait for the vote, as made from its revision with the serial `base`; where something waits
    /// under the object already, its base stays.
    #[tactic(auto, using(crate::proofs::Told::sight_kept, crate::proofs::Told::none_kept))]
    fn set(&mut self, oid: Oid, base: Tid, bytes: Text8) -> Result<(), Refusal>
        requires filled { 0 < length bytes }
        ensures leaves { LeavesWork (followed_by (changeable (work_of self.old)) (stored_in_work
            (record { oid = oid; base = base; content = Held bytes })))
            (work_of self.old) (work_of self.new) result }
        ensures view { (u : View) (c : Client) → InView self.old u c → InView self.new u c }
        ensures between { (c : Client) → Between self.old c → Between self.new c }
    {
        store_in(self.is_open, &mut self.work, oid, base, bytes)
    }

    /// An object's bytes wait for the vote, as made from its revision with the serial `base`; where something waits
    /// under the object already, its base stays. `NotOpen`, `NoTransaction` and `Voted` come first, then `TooLong`. What
    /// is refused leaves the transaction as it was.
    pub fn store<L: Loads>(
        &mut self,
        _loads: &mut L,
        oid: Oid,
        base: Tid,
        bytes: Text8,
    ) -> Result<(), Refusal>
        requires filled { 0 < length bytes }
        ensures leaves { LeavesWork (followed_by (changeable (work_of self.old)) (stored_in_work
            (record { oid = oid; base = base; content = Held bytes })))
            (work_of self.old) (work_of self.new) result }
        ensures view { (u : View) (c : Client) → InView self.old u c → InView self.new u c }
        ensures between { (c : Client) → Between self.old c → Between self.new c }
        ensures loads { _loads.new ≡ _loads.old }
    {
        self.set(oid, base, bytes)
    }

    /// An object's delete waits for the vote, as made from its revision with the serial `base`; where something waits
    /// under the object already, the delete takes its place, and its base stays. `NotOpen`, `NoTransaction` and `Voted`
    /// come first; it is never `TooLong`. What is refused leaves the transaction as it was. Whether the object is there
    /// to be deleted shows at the vote.
    #[tactic(auto, using(crate::proofs::Told::sight_kept, crate::proofs::Told::none_kept))]
    pub fn delete<L: Loads>(&mut self, _loads: &mut L, oid: Oid, base: Tid) -> Result<(), Refusal>
        ensures leaves { LeavesWork (followed_by (changeable (work_of self.old)) (deleted_in_work oid base))
            (work_of self.old) (work_of self.new) result }
        ensures view { (u : View) (c : Client) → InView self.old u c → InView self.new u c }
        ensures between { (c : Client) → Between self.old c → Between self.new c }
        ensures loads { _loads.new ≡ _loads.old }
    {
        delete_in(self.is_open, &mut self.work, oid, base)
    }

    /// Several stores and deletes wait for the vote, one after another as `store` and `delete` take them: all of them, or
    /// none.
    #[tactic(auto, using(crate::proofs::Told::sight_kept, crate::proofs::Told::none_kept))]
    pub fn store_all(&mut self, stores: ListOf<PendingStore>) -> Result<(), Refusal>
        requires filled { All (λ p. IsRecord p.content) stores }
        ensures leaves { LeavesWork (followed_by (changeable (work_of self.old)) (stored_all stores))
            (work_of self.old) (work_of self.new) result }
        ensures view { (u : View) (c : Client) → InView self.old u c → InView self.new u c }
        ensures between { (c : Client) → Between self.old c → Between self.new c }
    {
        store_all_in(self.is_open, &mut self.work, stores)
    }

    /// A check waits for the vote: the object must have this serial then, or none where it is 0. `NotOpen`,
    /// `NoTransaction` and `Voted` come first. What is refused leaves the transaction as it was.
    #[tactic(auto, using(crate::proofs::Told::sight_kept, crate::proofs::Told::none_kept))]
    pub fn check<L: Loads>(&mut self, _loads: &mut L, oid: Oid, serial: Tid) -> Result<(), Refusal>
        ensures leaves { LeavesWork (followed_by (changeable (work_of self.old)) (checked_in_work
            (record { oid = oid; serial = serial })))
            (work_of self.old) (work_of self.new) result }
        ensures view { (u : View) (c : Client) → InView self.old u c → InView self.new u c }
        ensures between { (c : Client) → Between self.old c → Between self.new c }
        ensures loads { _loads.new ≡ _loads.old }
    {
        check_in(self.is_open, &mut self.work, oid, serial)
    }

    /// Saves what waits, and answers the savepoint's number, which are counted from 0 in a transaction. `NotOpen`,
    /// `NoTransaction` and `Voted` come first. What is refused leaves the transaction as it was.
    #[tactic(auto, using(crate::proofs::Told::sight_kept, crate::proofs::Told::none_kept))]
    pub fn savepoint<L: Loads>(&mut self, _loads: &mut L) -> Result<u64, Refusal>
        ensures number { IfOk result (λ number. (w : Work) → work_of self.old ≡ Ok w → number ≡ length w.savepoints) }
        ensures leaves { LeavesWork (followed_by (changeable (work_of self.old)) saved)
            (work_of self.old) (work_of self.new) result }
        ensures view { (u : View) (c : Client) → InView self.old u c → InView self.new u c }
        ensures between { (c : Client) → Between self.old c → Between self.new c }
        ensures loads { _loads.new ≡ _loads.old }
    {
        save_in(self.is_open, &mut self.work)
    }

    /// Goes back to a savepoint: exactly what waited then waits again, the later savepoints are gone, and its own
    /// stays. Numbers that were drawn for new objects stay handed out. `NotOpen`, `NoTransaction` and `Voted` come first,
    /// then `NoSavepoint` exactly where there are not so many. What is refused leaves the transaction as it was.
    #[tactic(auto, using(crate::proofs::Told::sight_kept, crate::proofs::Told::none_kept))]
    pub fn rollback<L: Loads>(&mut self, _loads: &mut L, number: u64) -> Result<(), Refusal>
        ensures leaves { LeavesWork (followed_by (changeable (work_of self.old)) (rolled_back number))
            (work_of self.old) (work_of self.new) result }
        ensures view { (u : View) (c : Client) → InView self.old u c → InView self.new u c }
        ensures between { (c : Client) → Between self.old c → Between self.new c }
        ensures loads { _loads.new ≡ _loads.old }
    {
        roll_back_in(self.is_open, &mut self.work, number)
    }
}
