//! The finish of a remote client, exactly as the machine at the other end of a carrier that tells makes it.

ghost use Rattle.connection_view.specs.Views.{Client};
ghost use Rattle.remote_loads.specs.Finishing.{FinishLeaves, IsFinishMade, IsToldBehind};
ghost use Rattle.remote_loads.specs.Keeping.{GoesItsWay};
ghost use Rattle.remote_loads.specs.Standing.{Stands};

use crate::answers::finish_answer;
use crate::carrier::Carrier;
use crate::causes::behind_commit;
use crate::remote::Remote;
use zb_ids::Tid;
use zb_model::Refusal;
use zeo_client::whole_pieces_are_heard;
use zeo_messages::Call;
use zeo_reading::payloads_are_read_back;

impl<'c, W: Carrier> Remote<'c, W> {
    /// A sync behind a commit, which is answered behind it.
    #[tactic(auto, using(crate::proofs::Made::behind_refused, crate::proofs::Made::behind_told))]
    fn told_behind(&mut self, tid: Tid) -> Result<Option<Tid>, Refusal>
        ensures way { GoesItsWay W.faults W.closed W.session W.place W.later self.old.carrier
            self.new.carrier self.old.client self.new.client result }
        ensures told { W.told → IsToldBehind (W.steps (W.session self.old.carrier))
            (W.end self.old.carrier) (W.desk self.old.carrier) self.old.client.now tid result
            self.new.client.now (W.end self.new.carrier) (W.desk self.new.carrier) }
    {
        match self.sync_made() {
            Ok(_) => Ok(Some(tid)),
            Err(refusal) => Err(behind_commit(refusal)),
        }
    }

    /// A finish, by a call, and the sync behind a commit.
    #[tactic(auto, using(crate::proofs::Made::finish_unheard, crate::proofs::Made::finish_refuses, crate::proofs::Made::finish_empties, crate::proofs::Made::finish_commits_so,))]
    fn finish_made(&mut self) -> Result<Option<Tid>, Refusal>
        ensures way { GoesItsWay W.faults W.closed W.session W.place W.later self.old.carrier
            self.new.carrier self.old.client self.new.client result }
        ensures told { W.told → IsFinishMade (W.steps (W.session self.old.carrier))
            (W.end self.old.carrier) (W.desk self.old.carrier) self.old.client.now
            result self.new.client.now (W.end self.new.carrier) (W.desk self.new.carrier) }
    {
        self.client.drop_asked();
        let answer = match self.ask(Call::TpcFinish) {
            Ok(answer) => answer,
            Err(refusal) => return Err(refusal),
        };
        let committed = match finish_answer(answer) {
            Ok(committed) => committed,
            Err(refusal) => return Err(refusal),
        };
        self.client.ask_for_nothing();
        match committed {
            Some(tid) => self.told_behind(tid),
            None => Ok(None),
        }
    }

    /// Commits what is voted. Behind a commit the client knows the list as it stands then.
    pub(crate) fn finish_vote(&mut self) -> Result<Option<Tid>, Refusal>
        ensures way { GoesItsWay W.faults W.closed W.session W.place W.later self.old.carrier
            self.new.carrier self.old.client self.new.client result }
        ensures exact { W.told → (c : Client) → Stands (W.machine (W.end self.old.carrier))
            (W.session self.old.carrier) (W.desk self.old.carrier) self.old.client.now c
            → FinishLeaves (W.steps (W.session self.old.carrier)) W.machine
            (W.session self.old.carrier) (W.end self.old.carrier) c result
            self.new.client.now (W.end self.new.carrier) (W.desk self.new.carrier) }
    {
        payloads_are_read_back();
        whole_pieces_are_heard();
        self.finish_made()
    }
}
