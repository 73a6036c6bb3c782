//! Calls of a remote client that name one step, exactly as the machine at the other end of a carrier that tells makes it.

ghost use Rattle.connection_view.specs.Views.{Client};
ghost use Rattle.zeo_messages.specs.declared.call.Call.{Call};
ghost use Rattle.remote_loads.specs.Answers.{done_answer, oid_answer};
ghost use Rattle.remote_loads.specs.Keeping.{GoesItsWay};
ghost use Rattle.remote_loads.specs.Leaving.{AbortLeaves, LoadLeaves, OidLeaves};
ghost use Rattle.remote_loads.specs.Making.{IsLoadMade, IsMadeBy, free_if_done, left_alone};
ghost use Rattle.remote_loads.specs.Standing.{Stands};

use crate::answers::{done_answer, load_answer, oid_answer};
use crate::carrier::Carrier;
use crate::holding::are_ids;
use crate::remote::Remote;
use connection_view::Loaded;
use zb_ids::{Oid, Tid};
use zb_model::Refusal;
use zeo_client::whole_pieces_are_heard;
use zeo_messages::Call;
use zeo_reading::payloads_are_read_back;

impl<'c, W: Carrier> Remote<'c, W> {
    /// A load: what the cache answers, or else a call.
    #[tactic(auto, using(crate::proofs::Made::load_starved, crate::proofs::Made::load_hit, crate::proofs::Made::load_refused, crate::proofs::Made::load_answers,))]
    fn load_made(&mut self, oid: Oid, front: Tid) -> Result<Loaded, Refusal>
        ensures way { GoesItsWay W.faults W.closed W.session W.place W.later self.old.carrier
            self.new.carrier self.old.client self.new.client result }
        ensures told { W.told → IsLoadMade (W.steps (W.session self.old.carrier))
            (W.end self.old.carrier) (W.desk self.old.carrier) self.old.client.now oid front
            result self.new.client.now (W.end self.new.carrier) (W.desk self.new.carrier) }
    {
        let Ok(found) = self.client.find(oid, front) else {
            return Err(Refusal::Memory);
        };
        if let Some((serial, bytes)) = found {
            return Ok(Loaded::Held { serial, bytes });
        }
        let answer = match self.ask(Call::LoadBefore { oid, front }) {
            Ok(answer) => answer,
            Err(refusal) => return Err(refusal),
        };
        load_answer(answer)
    }

    /// What an object has below a front. A hit of the cache makes no step, a miss one at most.
    pub(crate) fn load_at(&mut self, oid: Oid, front: Tid) -> Result<Loaded, Refusal>
        ensures way { GoesItsWay W.faults W.closed W.session W.place W.later self.old.carrier
            self.new.carrier self.old.client self.new.client result }
        ensures exact { W.told → (c : Client) → Stands (W.machine (W.end self.old.carrier))
            (W.session self.old.carrier) (W.desk self.old.carrier) self.old.client.now c
            → LoadLeaves (W.steps (W.session self.old.carrier)) W.machine
            (W.session self.old.carrier) (W.end self.old.carrier) (W.desk self.old.carrier)
            self.old.client.now oid front c result
            self.new.client.now (W.end self.new.carrier) (W.desk self.new.carrier) }
    {
        are_ids(oid.0, front.0);
        payloads_are_read_back();
        whole_pieces_are_heard();
        self.load_made(oid, front)
    }

    /// A new number, by a call.
    #[tactic(auto, using(crate::proofs::Made::made_refused, crate::proofs::Made::made_answers))]
    fn oid_made(&mut self) -> Result<Oid, Refusal>
        ensures way { GoesItsWay W.faults W.closed W.session W.place W.later self.old.carrier
            self.new.carrier self.old.client self.new.client result }
        ensures told { W.told → IsMadeBy (W.steps (W.session self.old.carrier))
            (W.end self.old.carrier) (W.desk self.old.carrier) self.old.client.now (Call.NewOids 1)
            oid_answer left_alone
            result self.new.client.now (W.end self.new.carrier) (W.desk self.new.carrier) }
    {
        let answer = match self.ask(Call::NewOids { count: 1 }) {
            Ok(answer) => answer,
            Err(refusal) => return Err(refusal),
        };
        oid_answer(answer)
    }

    /// A new number. One step at most is made.
    pub(crate) fn next_oid(&mut self) -> Result<Oid, Refusal>
        ensures way { GoesItsWay W.faults W.closed W.session W.place W.later self.old.carrier
            self.new.carrier self.old.client self.new.client result }
        ensures exact { W.told → (c : Client) → Stands (W.machine (W.end self.old.carrier))
            (W.session self.old.carrier) (W.desk self.old.carrier) self.old.client.now c
            → OidLeaves (W.steps (W.session self.old.carrier)) W.machine
            (W.session self.old.carrier) (W.end self.old.carrier) c result
            self.new.client.now (W.end self.new.carrier) (W.desk self.new.carrier) }
    {
        payloads_are_read_back();
        whole_pieces_are_heard();
        self.oid_made()
    }

    /// The end of a vote, by a call.
    #[tactic(auto, using(crate::proofs::Made::abort_refused, crate::proofs::Made::abort_answers))]
    fn abort_made(&mut self) -> Result<(), Refusal>
        ensures way { GoesItsWay W.faults W.closed W.session W.place W.later self.old.carrier
            self.new.carrier self.old.client self.new.client result }
        ensures told { W.told → IsMadeBy (W.steps (W.session self.old.carrier))
            (W.end self.old.carrier) (W.desk self.old.carrier) self.old.client.now Call.TpcAbort
            done_answer free_if_done
            result self.new.client.now (W.end self.new.carrier) (W.desk self.new.carrier) }
    {
        let answer = match self.ask(Call::TpcAbort) {
            Ok(answer) => answer,
            Err(refusal) => return Err(refusal),
        };
        let done = done_answer(answer);
        if done.is_ok() {
            self.client.ask_for_nothing();
        }
        done
    }

    /// Drops the vote, if the session holds one. One step at most is made.
    pub(crate) fn drop_vote(&mut self) -> Result<(), Refusal>
        ensures way { GoesItsWay W.faults W.closed W.session W.place W.later self.old.carrier
            self.new.carrier self.old.client self.new.client result }
        ensures exact { W.told → (c : Client) → Stands (W.machine (W.end self.old.carrier))
            (W.session self.old.carrier) (W.desk self.old.carrier) self.old.client.now c
            → AbortLeaves (W.steps (W.session self.old.carrier)) W.machine
            (W.session self.old.carrier) (W.end self.old.carrier) c result
            self.new.client.now (W.end self.new.carrier) (W.desk self.new.carrier) }
    {
        payloads_are_read_back();
        whole_pieces_are_heard();
        self.abort_made()
    }
}
