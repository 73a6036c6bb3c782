//! The calls of a remote client.

use crate::carrier::Carrier;
use crate::remote::Remote;
use connection_view::{FrontView, Loaded, Loads};
use zb_ids::{ListOf, Oid, Text8, Tid};
use zb_model::{PendingCheck, PendingStore, Refusal};

impl<'c, W: Carrier> Loads for Remote<'c, W> {
    ghost use Rattle.std.specs.Prelude.{◌≤◌, ℕ};
    ghost use Rattle.std.specs.Borrow.{GName};
    ghost use Rattle.connection_view.specs.Views.{Client};
    ghost use Rattle.zeo_serving.specs.MayLaws.{told_before};
    ghost use Rattle.zeo_serving.specs.Serving.{server_at};
    ghost use Rattle.remote_loads.specs.Causes.{HasLinkCause, IsCallCaused};
    ghost use Rattle.remote_loads.specs.Relating.{IsCallMade};
    ghost use Rattle.remote_loads.specs.Standing.{Stands};

    ghost told = { ⊥ };

    ghost state = { λ l. server_at (W.machine (W.end l.carrier)) };

    ghost stands = { λ l c. W.told × Stands (W.machine (W.end l.carrier)) (W.session l.carrier)
        (W.desk l.carrier) l.client.now c };

    ghost fresh = { λ l c. c.known };

    ghost Place = { GName × W.Place × ℕ };

    ghost place = { λ l. (l.client.ghost_name, W.place l.carrier, W.session l.carrier) };

    ghost makes = { λ old call new. IsCallCaused
        (HasLinkCause (W.faults old.carrier) (W.faults new.carrier) (W.closed new.carrier) new.client.now.ended) call
        × (old.client.now.held.standing.known ≤ new.client.now.held.standing.known)
        × W.later old.carrier new.carrier
        × (W.told → (c : Client) → Stands (W.machine (W.end old.carrier)) (W.session old.carrier)
        (W.desk old.carrier) old.client.now c → IsCallMade (W.steps (W.session old.carrier))
        (W.end old.carrier) old.client.now call (W.end new.carrier)) };

    ghost told_before = { λ l c stands. told_before (W.machine (W.end l.carrier)) (W.session l.carrier)
        l.client.now.held.standing l.client.now.held.cache.entries c stands.1.served };

    #[tactic(auto, using(crate::proofs::Meeting::front_says, crate::proofs::Meeting::front_stands))]
    fn front(&mut self) -> Result<FrontView, Refusal> {
        let news = self.client.renew();
        Ok(FrontView {
            front: self.client.known(),
            news,
            switches: self.client.switches(),
        })
    }

    fn load(&mut self, oid: Oid, front: Tid) -> Result<Loaded, Refusal> {
        self.load_at(oid, front)
    }

    fn new_oid(&mut self) -> Result<Oid, Refusal> {
        self.next_oid()
    }

    fn vote(
        &mut self,
        user: &Text8,
        description: &Text8,
        stores: ListOf<PendingStore>,
        checks: ListOf<PendingCheck>,
    ) -> Result<(), Refusal> {
        self.vote_on(user, description, stores, checks)
    }

    fn undo(&mut self, user: &Text8, description: &Text8, tids: &[Tid]) -> Result<(), Refusal> {
        self.undo_on(user, description, tids)
    }

    fn finish(&mut self) -> Result<Option<Tid>, Refusal> {
        self.finish_vote()
    }

    fn abort(&mut self) -> Result<(), Refusal> {
        self.drop_vote()
    }
}
