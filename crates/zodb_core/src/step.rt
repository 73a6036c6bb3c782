//! One step.

ghost use Rattle.std.specs.Prelude.{◌≡◌, Option, List, None, false, true};
ghost use Rattle.zb_volume.specs.declared.areas.Area.TheVariants.{Main, Side};
ghost use Rattle.zb_volume.specs.Moments.{LeavesOnly, StaysAs};
ghost use Rattle.zb_model.specs.Database.{IsDatabase};
ghost use Rattle.zodb_core.specs.HubState.{IsBeforeOrBehind, IsFitting, MakesStep, StandsForMachine, StepsByClock, StepsSafely, may_write, rules_of};
ghost use Rattle.zodb_core.specs.Machine.{Machine, is_open_in};
ghost use Rattle.zodb_core.specs.Outcomes.{NoMemory, ReadingFailed, StoreFailed, is_pack, keeps_store, outcome_of, reads_store, takes_memory};
ghost use Rattle.zodb_core.specs.Packing.{goal_of};
ghost use Rattle.zodb_core.specs.Seen.{KeepsSeen};

use crate::hub::Hub;
use crate::reply::Reply;
use crate::request::Request;
use crate::texts::Texts;
use std::alloc::Global;
use zb_ids::Text8;
use zb_model::{Refs, Refusal, Resolver, Store};
use zb_outside::Clock;

impl<St: Store, R: Resolver, F: Refs> Hub<St, R, F> {
    /// A step of a session: what it asks is done, or refused, and nothing else happens meanwhile. The reply
    /// and what is left are those of the machine, for each machine that the hub stands for; but reading
    /// may fail, memory run out or the store fail, and then the step isn't made. After a store fault
    /// every session is closed, those that are opened later too.
    ///
    /// The clock is read once by each vote or undo that has changes to write, and by no other step. That
    /// it was read, and which stamp it gave, is told of each step, whether or not the store tells its list.
    /// Where the store's list lies on a disk, each crash in a step leaves the list before it or the one
    /// behind it.
    ///
    /// A pack is made whole in one step, or in turns between which others commit: what it keeps is marked,
    /// what stays is copied, and the copy is put in the place of the list. Each object that it keeps has, in
    /// a view above the pack's tid, the content that it had; where it collects, every object that references
    /// lead to from the root is kept. A request on a pack that isn't answered for a failed read or for want
    /// of memory leaves Main as it was, but may have written Side, and drops the pack.
    #[tactic(auto, using(crate::proofs::Votes::closed_failed, crate::proofs::Votes::closed_now, crate::proofs::Votes::moments_kept, crate::proofs::Votes::moments_same, zb_model::specs::StayLaws::stays_same, zb_model::specs::StayLaws::stays_from, crate::specs::SwitchLaws::unpacked_keeps, crate::proofs::Switches::unasked_keeps))]
    pub fn step<C: Clock>(
        &mut self,
        alloc: Global,
        session: u32,
        request: Request,
        clock: &mut C,
    ) -> Reply
        requires fitting { IsFitting request }
        ensures step { St.told → (m : Machine) → StandsForMachine self.old m →
            MakesStep (rules_of R.rules F.named self.old) m session request
            result self.old self.new (C.stamps clock.old) (C.stamps clock.new) }
        ensures clock { StepsByClock St.told (rules_of R.rules F.named self.old) session request
            result self.old self.new (C.stamps clock.old) (C.stamps clock.new) }
        ensures safe { StepsSafely (is_pack request) result self.old self.new }
        ensures side { St.lasts → is_pack request ≡ false → StaysAs Side self.old.store.log self.new.store.log }
        ensures main { St.lasts → is_pack request ≡ true → may_write false result ≡ false →
            StaysAs Main self.old.store.log self.new.store.log }
        ensures views { St.told → KeepsSeen (F.named self.old.refs) (goal_of self.old.pack) request result
            self.old.store.list self.new.store.list }
        ensures database { St.told → self.old.store.broken ≡ false → IsDatabase self.old.store.list }
        ensures failed { self.old.store.broken ≡ true →
            (result ≡ Reply.Refused Refusal.NotOpen) × (self.new ≡ self.old) }
        ensures closed { is_open_in self.old.sessions session ≡ false →
            (result ≡ Reply.Refused Refusal.NotOpen) × (self.new ≡ self.old) }
        ensures memory { takes_memory request ≡ false → ¬ (outcome_of result ≡ NoMemory) }
        ensures unread { reads_store request ≡ false → ¬ (outcome_of result ≡ ReadingFailed) }
        ensures unwritten { keeps_store request ≡ true → ¬ (outcome_of result ≡ StoreFailed) }
        ensures any_moment { St.lasts → St.told → self.old.store.broken ≡ false →
            (m : Machine) → StandsForMachine self.old m →
            LeavesOnly Main (IsBeforeOrBehind St.stands (rules_of R.rules F.named self.old) m session request)
            self.old.store.log self.new.store.log }
    {
        if self.failed {
            return Reply::Refused(Refusal::NotOpen);
        }
        if !self.journal.is_open(session) {
            return Reply::Refused(Refusal::NotOpen);
        }
        match request {
            Request::Front => self.front(alloc, session),
            Request::LoadBefore { oid, front } => self.load_before(alloc, session, oid, front),
            Request::NewOids { count } => self.new_oids(session, count),
            Request::Vote {
                user,
                description,
                extension,
                pending,
            } => {
                let texts = Texts {
                    user,
                    description,
                    extension,
                };
                self.vote(alloc, session, texts, pending, clock)
            }
            Request::Undo {
                user,
                description,
                tids,
            } => {
                let texts = Texts {
                    user,
                    description,
                    extension: Text8::new(alloc),
                };
                self.undo(alloc, session, texts, tids, clock)
            }
            Request::Finish => self.finish(session),
            Request::Abort => self.abort(session),
            Request::History { oid } => self.history(alloc, session, oid),
            Request::UndoLog => self.undo_log(alloc, session),
            Request::Pack { tid, collect } => self.pack(alloc, session, tid, collect),
            Request::PackBegin { tid, collect } => self.pack_begin(alloc, session, tid, collect),
            Request::PackTurn => self.pack_turn(alloc, session),
            Request::Last => self.last(session),
            Request::Since { tid, changes } => self.since(alloc, session, tid, changes),
            Request::Close => self.close(session),
        }
    }
}
