//! How a remote client asks for the news, and what it knows behind that.

ghost use Rattle.std.specs.Prelude.{◌≡◌, IfOk};
ghost use Rattle.connection_view.specs.Views.{Client};
ghost use Rattle.zeo_messages.specs.declared.call.Call.{Call};
ghost use Rattle.remote_loads.specs.Answers.{count_answer};
ghost use Rattle.remote_loads.specs.Keeping.{GoesItsWay};
ghost use Rattle.remote_loads.specs.Leaving.{SyncLeaves};
ghost use Rattle.remote_loads.specs.Making.{IsMadeBy, left_alone};
ghost use Rattle.remote_loads.specs.Registering.{IsNewcomer, IsRegistered, RegisterLeaves};
ghost use Rattle.remote_loads.specs.Standing.{Stands};

use crate::answers::{count_answer, tid_answer};
use crate::carrier::Carrier;
use crate::remote::Remote;
use zb_ids::Tid;
use zb_model::Refusal;
use zeo_client::whole_pieces_are_heard;
use zeo_messages::Call;
use zeo_reading::payloads_are_read_back;

impl<'c, W: Carrier> Remote<'c, W> {
    /// A sync, by a call.
    #[tactic(auto, using(crate::proofs::Made::made_refused, crate::proofs::Made::made_answers))]
    pub(crate) fn sync_made(&mut self) -> Result<Tid, Refusal>
        ensures way { GoesItsWay W.faults W.closed W.session W.place W.later self.old.carrier
            self.new.carrier self.old.client self.new.client result }
        ensures told { W.told → IsMadeBy (W.steps (W.session self.old.carrier))
            (W.end self.old.carrier) (W.desk self.old.carrier) self.old.client.now Call.Sync
            count_answer left_alone result self.new.client.now (W.end self.new.carrier)
            (W.desk self.new.carrier) }
    {
        let answer = match self.ask(Call::Sync) {
            Ok(answer) => answer,
            Err(refusal) => return Err(refusal),
        };
        count_answer(answer)
    }

    /// A sync. Behind one that is answered, the client knows the list as it stood.
    fn hear_news(&mut self) -> Result<Tid, Refusal>
        ensures way { GoesItsWay W.faults W.closed W.session W.place W.later self.old.carrier
            self.new.carrier self.old.client self.new.client result }
        ensures exact { W.told → (c : Client) → Stands (W.machine (W.end self.old.carrier))
            (W.session self.old.carrier) (W.desk self.old.carrier) self.old.client.now c
            → SyncLeaves (W.steps (W.session self.old.carrier)) W.machine
            (W.session self.old.carrier) (W.end self.old.carrier) c result
            self.new.client.now (W.end self.new.carrier) (W.desk self.new.carrier) }
    {
        payloads_are_read_back();
        whole_pieces_are_heard();
        self.sync_made()
    }

    /// Asks for the news, and answers the front that is known from then on. Where the carrier tells, the client knows
    /// the list as it stood; an error leaves open what it knows.
    pub fn sync(&mut self) -> Result<Tid, Refusal>
        ensures front { IfOk result (λ front. front ≡ self.new.client.now.held.standing.known) }
        ensures way { GoesItsWay W.faults W.closed W.session W.place W.later self.old.carrier
            self.new.carrier self.old.client self.new.client result }
        ensures exact { W.told → (c : Client) → Stands (W.machine (W.end self.old.carrier))
            (W.session self.old.carrier) (W.desk self.old.carrier) self.old.client.now c
            → SyncLeaves (W.steps (W.session self.old.carrier)) W.machine
            (W.session self.old.carrier) (W.end self.old.carrier) c result
            self.new.client.now (W.end self.new.carrier) (W.desk self.new.carrier) }
    {
        match self.hear_news() {
            Ok(_) => Ok(self.client.known()),
            Err(refusal) => Err(refusal),
        }
    }

    /// A registering, by a call, and the sync behind it.
    #[tactic(auto, using(crate::proofs::Made::register_unheard, crate::proofs::Made::register_refuses, crate::proofs::Made::register_syncs,))]
    fn register_made(&mut self) -> Result<Tid, Refusal>
        ensures way { GoesItsWay W.faults W.closed W.session W.place W.later self.old.carrier
            self.new.carrier self.old.client self.new.client result }
        ensures told { W.told → IsRegistered (W.steps (W.session self.old.carrier))
            (W.end self.old.carrier) (W.desk self.old.carrier) self.old.client.now
            result self.new.client.now (W.end self.new.carrier) (W.desk self.new.carrier) }
    {
        let answer = match self.ask(Call::Register { again: false }) {
            Ok(answer) => answer,
            Err(refusal) => return Err(refusal),
        };
        match tid_answer(answer) {
            Ok(_) => self.sync_made(),
            Err(refusal) => Err(refusal),
        }
    }

    /// A registering. Behind one that is answered, the client knows the list as it stands.
    fn register_told(&mut self) -> Result<Tid, Refusal>
        ensures way { GoesItsWay W.faults W.closed W.session W.place W.later self.old.carrier
            self.new.carrier self.old.client self.new.client result }
        ensures exact { W.told → IsNewcomer (W.machine (W.end self.old.carrier))
            (W.session self.old.carrier) (W.desk self.old.carrier) self.old.client.now
            → RegisterLeaves (W.steps (W.session self.old.carrier)) W.machine
            (W.session self.old.carrier) (W.end self.old.carrier) result
            self.new.client.now (W.end self.new.carrier) (W.desk self.new.carrier) }
    {
        payloads_are_read_back();
        whole_pieces_are_heard();
        self.register_made()
    }

    /// Registers a client whose link was just opened, and asks for the news. It answers the front that is known from
    /// then on. Where the carrier tells, the client knows the list as it stands; an error leaves open what it knows.
    pub fn register(&mut self) -> Result<Tid, Refusal>
        ensures front { IfOk result (λ front. front ≡ self.new.client.now.held.standing.known) }
        ensures way { GoesItsWay W.faults W.closed W.session W.place W.later self.old.carrier
            self.new.carrier self.old.client self.new.client result }
        ensures exact { W.told → IsNewcomer (W.machine (W.end self.old.carrier))
            (W.session self.old.carrier) (W.desk self.old.carrier) self.old.client.now
            → RegisterLeaves (W.steps (W.session self.old.carrier)) W.machine
            (W.session self.old.carrier) (W.end self.old.carrier) result
            self.new.client.now (W.end self.new.carrier) (W.desk self.new.carrier) }
    {
        match self.register_told() {
            Ok(_) => Ok(self.client.known()),
            Err(refusal) => Err(refusal),
        }
    }
}
