//! The vote, and how a transaction ends.

ghost use Rattle.std.specs.Prelude.{◌≡◌, ◌⊎◌, ◌++◌, ◌∷◌, [], Err, Bool, IfErr, IfOk, IsOk, MatchOption, Ok, OnErr, OnOk, true};
ghost use Rattle.zb_model.specs.declared.data.Transaction.{Transaction};
ghost use Rattle.zb_model.specs.declared.refusal.Refusal.{Refusal};
ghost use Rattle.zb_model.specs.declared.refusal.Refusal.TheVariants as refusal;
ghost use Rattle.connection_view.specs.Loading.{Abort, Finish, IsNothingDone, IsServerRefusal, IsShortText, Undo, Vote};
ghost use Rattle.connection_view.specs.Works.{Work};
ghost use Rattle.connection_view.specs.Views.{Client, View, committed, each_object, stored_in, unvoted, view_of, voting};
ghost use Rattle.connection_view.specs.Connections.{Between, InView, IsCallMade, KeepsSight, followed_by, changeable, open_work, unmixed, work_of};

use crate::changing::{parts_in, unmixed_in};
use crate::connection::Connection;
use crate::loads::Loads;
use crate::named::forget;
use crate::work::OpenWork;
use zb_ids::{Text8, Tid};
use zb_model::Refusal;

/// An open transaction is voted.
fn set_voted(work: &mut Option<OpenWork>)
    ensures voted { (is_open : Bool) (w : Work) → open_work is_open work.old ≡ Ok w
        → open_work is_open work.new ≡ Ok (record w { is_voted = true }) }
    ensures sight { KeepsSight work.old work.new }
{
    if let Some(work) = work {
        work.is_voted = true;
    }
}

impl Connection {
    /// Votes on a copy of what waits, which is given to the loads. `NotOpen`, `NoTransaction` and `Voted` come first;
    /// other refusals are those of the vote, or want of memory. What is refused leaves the transaction open, as it was
    /// and unvoted: what waits is still there, and only the copy is dropped.
    #[tactic(auto, using(crate::proofs::Told::voting_in, crate::proofs::Waits::open_of_changeable))]
    pub fn vote<L: Loads>(
        &mut self,
        loads: &mut L,
        user: &Text8,
        description: &Text8,
    ) -> Result<(), Refusal>
        requires user { IsShortText user.now }
        requires description { IsShortText description.now }
        ensures voted { OnOk result ((w : Work) → work_of self.old ≡ Ok w
            → work_of self.new ≡ Ok (record w { is_voted = true })) }
        ensures err { OnErr result (work_of self.new ≡ work_of self.old) }
        ensures view { (u : View) (c : Client) (w : Work) → work_of self.old ≡ Ok w → L.stands loads.old c
            → InView self.old u c
            → (now : Client) × (L.stands loads.new now) × (InView self.new u now) × ((now ≡ c)
            ⊎ (now ≡ voting (stored_in w.pending.stores) c)) }
        ensures refused { (r : Refusal) → changeable (work_of self.old) ≡ Err r → (result ≡ Err r)
            × (loads.new ≡ loads.old) × (self.new ≡ self.old) }
        ensures makes { (w : Work) → changeable (work_of self.old) ≡ Ok w
            → IsCallMade L.makes loads.old loads.new
            (Vote user.now description.now w.pending.stores w.pending.checks result) result }
        ensures own { (w : Work) → changeable (work_of self.old) ≡ Ok w → IfErr result IsServerRefusal }
        ensures state { L.told → L.state loads.new ≡ L.state loads.old }
        ensures place { L.place loads.new ≡ L.place loads.old }
    {
        let (stores, checks) = match parts_in(self.is_open, &self.work) {
            Err(refusal) => return Err(refusal),
            Ok(parts) => parts,
        };
        self.asked.add_stores(stores.as_slice());
        match loads.vote(user, description, stores, checks) {
            Err(refusal) => Err(refusal),
            Ok(()) => {
                set_voted(&mut self.work);
                Ok(())
            }
        }
    }

    /// Votes on undoing transactions. `NotOpen`, `NoTransaction` and `Voted` come first, then `Mixed` exactly where
    /// something waits; other refusals are those of the undo. What is refused leaves the transaction open, as it was and
    /// unvoted.
    pub fn undo<L: Loads>(
        &mut self,
        loads: &mut L,
        user: &Text8,
        description: &Text8,
        tids: &[Tid],
    ) -> Result<(), Refusal>
        requires user { IsShortText user.now }
        requires description { IsShortText description.now }
        ensures voted { OnOk result ((w : Work) → work_of self.old ≡ Ok w
            → work_of self.new ≡ Ok (record w { is_voted = true })) }
        ensures err { OnErr result (work_of self.new ≡ work_of self.old) }
        ensures view { (u : View) (c : Client) → IsOk (followed_by (changeable (work_of self.old)) unmixed)
            → L.stands loads.old c → InView self.old u c
            → (L.stands loads.new (voting each_object c)) × (InView self.new u (voting each_object c)) }
        ensures refused { (r : Refusal) → followed_by (changeable (work_of self.old)) unmixed ≡ Err r
            → (result ≡ Err r) × (loads.new ≡ loads.old) × (self.new ≡ self.old) }
        ensures makes { IsOk (followed_by (changeable (work_of self.old)) unmixed)
            → L.makes loads.old (Undo user.now description.now tids.now result) loads.new }
        ensures own { IsOk (followed_by (changeable (work_of self.old)) unmixed) → IfErr result IsServerRefusal }
        ensures state { L.told → L.state loads.new ≡ L.state loads.old }
        ensures place { L.place loads.new ≡ L.place loads.old }
    {
        match unmixed_in(self.is_open, &self.work) {
            Err(refusal) => return Err(refusal),
            Ok(()) => {}
        }
        self.asked.add_all();
        match loads.undo(user, description, tids) {
            Err(refusal) => Err(refusal),
            Ok(()) => {
                set_voted(&mut self.work);
                Ok(())
            }
        }
    }

    /// Commits what is voted: it answers the tid, or `None` where there was nothing to write, and the transaction has
    /// ended. `NotOpen` and `NoTransaction` come first; other refusals are those of the finish. What is refused leaves
    /// the connection as it was.
    #[tactic(auto, using(crate::proofs::Told::told_committed, crate::proofs::Told::told_unvoted))]
    pub fn finish<L: Loads>(&mut self, loads: &mut L) -> Result<Option<Tid>, Refusal>
        ensures ended { OnOk result (work_of self.new ≡ Err refusal.NoTransaction) }
        ensures committed { IfOk result (λ tid. MatchOption tid
            ((u : View) (c : Client) → L.stands loads.old c → InView self.old u c
            → (L.stands loads.new (unvoted c)) × (Between self.new (unvoted c)))
            (λ tid. (u : View) (c : Client) → L.stands loads.old c → InView self.old u c
            → (L.stands loads.new (committed (view_of (L.state loads.new)) c))
            × (Between self.new (committed (view_of (L.state loads.new)) c)))) }
        ensures list { IfOk result (λ tid. L.told → MatchOption tid (L.state loads.new ≡ L.state loads.old)
            (λ tid. (t : Transaction) × (t.tid ≡ tid)
            × ((L.state loads.new).list ≡ (L.state loads.old).list ++ t ∷ []))) }
        ensures refused { (r : Refusal) → work_of self.old ≡ Err r → (result ≡ Err r) × (loads.new ≡ loads.old) }
        ensures makes { (w : Work) → work_of self.old ≡ Ok w → L.makes loads.old (Finish result) loads.new }
        ensures own { (w : Work) → work_of self.old ≡ Ok w → IfErr result IsServerRefusal }
        ensures err { OnErr result (self.new ≡ self.old) }
        ensures same { IfErr result (λ r. IsNothingDone r → (c : Client) → L.stands loads.old c
            → L.stands loads.new c) }
        ensures place { L.place loads.new ≡ L.place loads.old }
    {
        match self.sight() {
            Err(refusal) => return Err(refusal),
            Ok(_) => {}
        }
        let tid = match loads.finish() {
            Err(refusal) => return Err(refusal),
            Ok(tid) => tid,
        };
        match tid {
            Some(tid) => {
                forget(&mut self.cache, &self.asked);
                self.work = None;
                Ok(Some(tid))
            }
            None => {
                self.work = None;
                Ok(None)
            }
        }
    }

    /// Ends the transaction without a commit, and drops its vote. `NotOpen` and `NoTransaction` come first; other
    /// refusals are those of the abort. What is refused leaves the connection as it was.
    #[tactic(auto, using(crate::proofs::Told::told_unvoted))]
    pub fn abort<L: Loads>(&mut self, loads: &mut L) -> Result<(), Refusal>
        ensures ended { OnOk result (work_of self.new ≡ Err refusal.NoTransaction) }
        ensures dropped { OnOk result ((u : View) (c : Client) → L.stands loads.old c → InView self.old u c
            → (L.stands loads.new (unvoted c)) × (Between self.new (unvoted c))) }
        ensures refused { (r : Refusal) → work_of self.old ≡ Err r → (result ≡ Err r) × (loads.new ≡ loads.old) }
        ensures makes { (w : Work) → work_of self.old ≡ Ok w → L.makes loads.old (Abort result) loads.new }
        ensures own { (w : Work) → work_of self.old ≡ Ok w → IfErr result IsServerRefusal }
        ensures err { OnErr result (self.new ≡ self.old) }
        ensures same { OnErr result ((c : Client) → L.stands loads.old c → L.stands loads.new c) }
        ensures state { L.told → L.state loads.new ≡ L.state loads.old }
        ensures place { L.place loads.new ≡ L.place loads.old }
    {
        match self.sight() {
            Err(refusal) => return Err(refusal),
            Ok(_) => {}
        }
        match loads.abort() {
            Err(refusal) => Err(refusal),
            Ok(()) => {
                self.work = None;
                Ok(())
            }
        }
    }
}
