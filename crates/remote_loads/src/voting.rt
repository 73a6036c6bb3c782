//! Votes and undos of a remote client, exactly as the machine at the other end of a carrier that tells makes them.

ghost use Rattle.std.specs.Prelude.{◌≡◌, IfErr, IfOk, OnErr};
ghost use Rattle.zb_model.specs.declared.refusal.Refusal.TheVariants as refusal;
ghost use Rattle.connection_view.specs.Loading.{AreVotable, IsShortText};
ghost use Rattle.connection_view.specs.Views.{Client};
ghost use Rattle.remote_loads.specs.Keeping.{GoesItsWay};
ghost use Rattle.remote_loads.specs.Leaving.{UndoLeaves, VoteLeaves};
ghost use Rattle.remote_loads.specs.Making.{IsAskedFor, IsUndoMade, IsVoteMade, IsVoteSpelled};
ghost use Rattle.remote_loads.specs.Standing.{Stands};

use crate::answers::done_answer;
use crate::carrier::Carrier;
use crate::holding::{checks_are_held, stores_are_held};
use crate::remote::Remote;
use crate::undoing::undo_call;
use zb_ids::{ListOf, Text8, Tid};
use zb_model::{PendingCheck, PendingStore, Refusal};
use zeo_client::{ZeoClient, whole_pieces_are_heard};
use zeo_reading::payloads_are_read_back;

/// The messages of a vote. The stores and checks are dropped once their messages are spelled, so
/// that nothing holds them while these are sent. The one error is want of memory.
#[tactic(auto, using(crate::proofs::Made::vote_spelled))]
fn vote_text(
    client: &mut ZeoClient,
    user: &Text8,
    description: &Text8,
    stores: ListOf<PendingStore>,
    checks: ListOf<PendingCheck>,
) -> Result<Text8, Refusal>
    requires user { IsShortText user.now }
    requires description { IsShortText description.now }
    requires stores { AreVotable stores }
    ensures spelled { IfOk result
        (IsVoteSpelled user.now description.now stores checks client.old client.new) }
    ensures err { IfErr result (λ r. r ≡ refusal.Memory) }
    ensures asked { OnErr result (IsAskedFor stores client.old client.new) }
{
    let to_store = stores.as_slice();
    let to_check = checks.as_slice();
    stores_are_held(to_store);
    checks_are_held(to_check);
    client.ask_for(to_store);
    match client.vote(user, description, to_store, to_check) {
        Ok(text) => Ok(text),
        Err(_) => Err(Refusal::Memory),
    }
}

impl<'c, W: Carrier> Remote<'c, W> {
    /// A vote, by its messages.
    #[tactic(auto, using(crate::proofs::Made::vote_stays, crate::proofs::Made::vote_refused, crate::proofs::Made::vote_answers,))]
    fn vote_made(
        &mut self,
        user: &Text8,
        description: &Text8,
        stores: ListOf<PendingStore>,
        checks: ListOf<PendingCheck>,
    ) -> Result<(), Refusal>
        requires user { IsShortText user.now }
        requires description { IsShortText description.now }
        requires stores { AreVotable stores }
        ensures way { GoesItsWay W.faults W.closed W.session W.place W.later self.old.carrier
            self.new.carrier self.old.client self.new.client result }
        ensures told { W.told → IsVoteMade (W.steps (W.session self.old.carrier))
            (W.end self.old.carrier) (W.desk self.old.carrier) self.old.client.now user.now
            description.now stores checks
            result self.new.client.now (W.end self.new.carrier) (W.desk self.new.carrier) }
    {
        let text = match vote_text(self.client, user, description, stores, checks) {
            Ok(text) => text,
            Err(refusal) => return Err(refusal),
        };
        let answer = match self.talk(text) {
            Ok(answer) => answer,
            Err(refusal) => return Err(refusal),
        };
        done_answer(answer)
    }

    /// Votes on stores, deletes and checks, which are dropped before their messages go out. One step
    /// at most is made.
    pub(crate) fn vote_on(
        &mut self,
        user: &Text8,
        description: &Text8,
        stores: ListOf<PendingStore>,
        checks: ListOf<PendingCheck>,
    ) -> Result<(), Refusal>
        requires user { IsShortText user.now }
        requires description { IsShortText description.now }
        requires stores { AreVotable stores }
        ensures way { GoesItsWay W.faults W.closed W.session W.place W.later self.old.carrier
            self.new.carrier self.old.client self.new.client result }
        ensures exact { W.told → (c : Client) → Stands (W.machine (W.end self.old.carrier))
            (W.session self.old.carrier) (W.desk self.old.carrier) self.old.client.now c
            → VoteLeaves (W.steps (W.session self.old.carrier)) W.machine
            (W.session self.old.carrier) (W.end self.old.carrier) user.now description.now
            stores checks c result
            self.new.client.now (W.end self.new.carrier) (W.desk self.new.carrier) }
    {
        payloads_are_read_back();
        whole_pieces_are_heard();
        self.vote_made(user, description, stores, checks)
    }

    /// An undo, by a call.
    #[tactic(auto, using(crate::proofs::Made::undo_stays, crate::proofs::Made::undo_refused, crate::proofs::Made::undo_answers,))]
    fn undo_made(&mut self, user: &Text8, description: &Text8, tids: &[Tid]) -> Result<(), Refusal>
        requires user { IsShortText user.now }
        requires description { IsShortText description.now }
        ensures way { GoesItsWay W.faults W.closed W.session W.place W.later self.old.carrier
            self.new.carrier self.old.client self.new.client result }
        ensures told { W.told → IsUndoMade (W.steps (W.session self.old.carrier))
            (W.end self.old.carrier) (W.desk self.old.carrier) self.old.client.now user.now
            description.now tids.now
            result self.new.client.now (W.end self.new.carrier) (W.desk self.new.carrier) }
    {
        self.client.ask_for_all();
        let call = match undo_call(self.alloc, user, description, tids) {
            Ok(call) => call,
            Err(refusal) => return Err(refusal),
        };
        let answer = match self.ask(call) {
            Ok(answer) => answer,
            Err(refusal) => return Err(refusal),
        };
        done_answer(answer)
    }

    /// Votes on undoing transactions. One step at most is made.
    pub(crate) fn undo_on(
        &mut self,
        user: &Text8,
        description: &Text8,
        tids: &[Tid],
    ) -> Result<(), Refusal>
        requires user { IsShortText user.now }
        requires description { IsShortText description.now }
        ensures way { GoesItsWay W.faults W.closed W.session W.place W.later self.old.carrier
            self.new.carrier self.old.client self.new.client result }
        ensures exact { W.told → (c : Client) → Stands (W.machine (W.end self.old.carrier))
            (W.session self.old.carrier) (W.desk self.old.carrier) self.old.client.now c
            → UndoLeaves (W.steps (W.session self.old.carrier)) W.machine
            (W.session self.old.carrier) (W.end self.old.carrier) user.now description.now
            tids.now c result
            self.new.client.now (W.end self.new.carrier) (W.desk self.new.carrier) }
    {
        payloads_are_read_back();
        whole_pieces_are_heard();
        self.undo_made(user, description, tids)
    }
}
