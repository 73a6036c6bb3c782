//! Turns.

ghost use Rattle.std.specs.Prelude.{◌≡◌, ◌<◌, [], List, Option, Some, IfOk, IsErrOf, OnOk, None, false, length, slice_get};
ghost use Rattle.zb_base.specs.Counts.{Rose};
ghost use Rattle.zb_ids.specs.declared.stamp.Stamp.{Stamp};
ghost use Rattle.zb_volume.specs.declared.areas.Area.TheVariants.{Main, Side};
ghost use Rattle.zb_volume.specs.Moments.{LeavesOnly, StaysAs};
ghost use Rattle.zodb_core.specs.HubState.{counts_of, rules_of};
ghost use Rattle.zodb_core.specs.Outcomes.{AreLaterCounts};
ghost use Rattle.client_turns.specs.Asking.{IsCalm};
ghost use Rattle.client_turns.specs.Clients.{Moment, place_of_client};
ghost use Rattle.client_turns.specs.Lines.{IsCountedBy, end_of, outcome_of_answer, outcome_of_end, outcome_of_turn};
ghost use Rattle.client_turns.specs.Refusing.{IsFittingLine, opening_in};
ghost use Rattle.client_turns.specs.Standing.{ClosesAs, ClosesIf, IsListIn, IsOpenLineOf, IsCutOf, KeepsHub, LeadsTo, LeavesHub, MayAskAt, MayAskFor, MayStandFor, OrCut, OrStarved, StandsForMoment, kept_named, packs_list};
ghost use Rattle.client_turns.specs.Turns.{IsCutLine, IsLine, IsLineAt, IsOpening, IsTurn};

use crate::client::Client;
use crate::clients::Clients;
use crate::errors::TurnError;
use crate::member::{Member, is_linked_at, place_of, push_client, session_at};
use crate::requests::{answer_of, asks_by, end_of, plain_request};
use crate::steps::lose_at;
use connection_view::Connection;
use std::alloc::Global;
use zb_answers::Answer;
use zb_model::{Refs, Refusal, Resolver, Store};
use zb_outside::Clock;
use zb_script::{Line, Name, Turn};
use zodb_core::{Request, SessionRefusal};

/// Of a line that opens a session, whether its client has a link to it.
fn opening_in(line: &Line) -> Option<bool>
    ensures { result ≡ opening_in line.now }
{
    match line {
        Line::Open { remote } => Some(*remote),
        _ => None,
    }
}

impl<St: Store, R: Resolver, F: Refs> Clients<St, R, F> {
    /// A client opens its session, with the next number.
    fn open(&mut self, alloc: Global, name: Name) -> Answer
        ensures opening { St.told → (m : Moment) → (left : Option (List Stamp)) → StandsForMoment self.old left m →
            LeadsTo (OrStarved (IsOpening m name) m result) self.new left }
        ensures store { self.new.hub.store ≡ self.old.hub.store }
        ensures resolver { self.new.hub.resolver ≡ self.old.hub.resolver }
        ensures refs { self.new.hub.refs ≡ self.old.hub.refs }
        ensures calm { IsCalm (outcome_of_answer result) }
    {
        let Ok(connection) = Connection::new(alloc) else {
            return Answer::Refused(Refusal::Memory);
        };
        if self.clients.reserve(1).is_err() {
            return Answer::Refused(Refusal::Memory);
        }
        match self.hub.open_session() {
            Ok(session) => {
                let client = Client {
                    name,
                    session,
                    told: None,
                    connection,
                };
                push_client(&mut self.clients, Member::Near(client));
                Answer::Opened { session }
            }
            Err(SessionRefusal::TooManySessions { count }) => {
                Answer::Refused(Refusal::TooManySessions { count })
            }
            Err(SessionRefusal::StepsSpent) => Answer::Refused(Refusal::StepsSpent),
            Err(SessionRefusal::Memory) => Answer::Refused(Refusal::Memory),
        }
    }

    /// A line of the client at a place, whose session is open.
    fn open_line<C: Clock>(
        &mut self,
        alloc: Global,
        at: usize,
        line: &Line,
        clock: &mut C,
    ) -> Answer
        requires place { at < length self.old.clients }
        requires fitting { IsFittingLine line.now }
        requires opened { opening_in line.now ≡ None }
        ensures line { St.told → (m : Moment) → StandsForMoment self.old (C.stamps clock.old) m → MayAskAt m at →
            LeadsTo (OrCut (IsOpenLineOf (rules_of R.rules F.named self.old.hub) m at line.now)
            (IsCutOf (rules_of R.rules F.named self.old.hub) m at line.now) result) self.new (C.stamps clock.new) }
        ensures hub { LeavesHub (St.told × MayAskFor self.old (C.stamps clock.old) at) St.lasts St.stands
            (rules_of R.rules F.named self.old.hub) (slice_get self.old.clients at) line.now (outcome_of_answer result)
            self.old.hub self.new.hub }
    {
        if asks_by(is_linked_at(self.clients.as_slice(), at), line) {
            return self.ask(alloc, at, line, clock);
        }
        if let Some(request) = plain_request(line) {
            return self.take_step(alloc, at, request, clock);
        }
        match line {
            Line::Tree { root, call } => self.tree_line(alloc, at, *root, call, clock),
            _ => unreachable!(),
        }
    }

    /// A line of the client at a place.
    fn take_line<C: Clock>(
        &mut self,
        alloc: Global,
        at: usize,
        line: &Line,
        clock: &mut C,
    ) -> Answer
        requires place { at < length self.old.clients }
        requires fitting { IsFittingLine line.now }
        requires opened { opening_in line.now ≡ None }
        ensures line { St.told → (m : Moment) → StandsForMoment self.old (C.stamps clock.old) m →
            LeadsTo (OrCut (OrStarved (IsLineAt (rules_of R.rules F.named self.old.hub) m at line.now) m)
            (IsCutOf (rules_of R.rules F.named self.old.hub) m at line.now) result) self.new (C.stamps clock.new) }
        ensures hub { LeavesHub (St.told × MayStandFor self.old (C.stamps clock.old)) St.lasts St.stands
            (rules_of R.rules F.named self.old.hub) (slice_get self.old.clients at) line.now (outcome_of_answer result)
            self.old.hub self.new.hub }
    {
        if !self.hub.is_open(session_at(self.clients.as_slice(), at)) {
            return Answer::Refused(Refusal::NotOpen);
        }
        self.open_line(alloc, at, line, clock)
    }

    /// A line of a client, by its name.
    fn line<C: Clock>(&mut self, alloc: Global, name: Name, line: &Line, clock: &mut C) -> Answer
        requires fitting { IsFittingLine line.now }
        ensures line { St.told → (m : Moment) → StandsForMoment self.old (C.stamps clock.old) m →
            LeadsTo (OrCut (OrStarved (IsLine (rules_of R.rules F.named self.old.hub) m name line.now) m)
            (IsCutLine (rules_of R.rules F.named self.old.hub) m name line.now) result) self.new (C.stamps clock.new) }
        ensures hub { LeavesHub (St.told × MayStandFor self.old (C.stamps clock.old)) St.lasts St.stands
            (rules_of R.rules F.named self.old.hub) (kept_named name self.old.clients) line.now (outcome_of_answer result)
            self.old.hub self.new.hub }
    {
        match opening_in(line) {
            Some(false) => return self.open(alloc, name),
            Some(true) => return self.open_far(alloc, name, clock),
            None => {}
        }
        match place_of(self.clients.as_slice(), &name) {
            Some(at) => self.take_line(alloc, at, line, clock),
            None => Answer::Refused(Refusal::NotOpen),
        }
    }

    /// The closing of a client's session, where it has one, and how that ends the run, if it does.
    fn close<C: Clock>(&mut self, alloc: Global, name: &Name, clock: &mut C) -> Option<TurnError>
        ensures closing { St.told → (m : Moment) → StandsForMoment self.old (C.stamps clock.old) m →
            LeadsTo (ClosesAs (rules_of R.rules F.named self.old.hub) m (place_of_client name.now m.clients) result)
            self.new (C.stamps clock.new) }
        ensures hub { KeepsHub St.told St.lasts St.stands false (λ machine bytes. St.stands bytes machine.list)
            (outcome_of_end result) self.old.hub self.new.hub }
        ensures fed { ¬ (result ≡ Some TurnError.Memory) }
    {
        let Some(at) = place_of(self.clients.as_slice(), name) else {
            return None;
        };
        lose_at(&mut self.clients, at);
        let reply = self.step(alloc, at, Request::Close, clock);
        end_of(&answer_of(reply))
    }

    /// Behind a client's last line its session is closed; how that ends the run, if it does.
    fn close_if<C: Clock>(
        &mut self,
        alloc: Global,
        name: &Name,
        is_last: bool,
        clock: &mut C,
    ) -> Option<TurnError>
        ensures closing { St.told → (m : Moment) → StandsForMoment self.old (C.stamps clock.old) m →
            LeadsTo (ClosesIf (rules_of R.rules F.named self.old.hub) m name.now is_last result)
            self.new (C.stamps clock.new) }
        ensures hub { KeepsHub St.told St.lasts St.stands false (λ machine bytes. St.stands bytes machine.list)
            (outcome_of_end result) self.old.hub self.new.hub }
        ensures fed { ¬ (result ≡ Some TurnError.Memory) }
    {
        if !is_last {
            return None;
        }
        self.close(alloc, name, clock)
    }

    /// Takes a turn: a line of a client, and, where it is the client's last, the closing of its session.
    /// `TurnError` ends the run: the turn isn't answered. `Memory` comes only where no call of the store
    /// has failed in this turn, and an answer only where none has, but for a read of which the answer tells.
    #[tactic(auto, using(crate::proofs::Causes::ended_counts, crate::proofs::Causes::closing_counts, crate::proofs::Causes::whole_counts, crate::proofs::Causes::stays_whole, zb_model::specs::StayLaws::stays_then))]
    pub fn take_turn<C: Clock>(
        &mut self,
        alloc: Global,
        turn: &Turn,
        is_last: bool,
        clock: &mut C,
    ) -> Result<Answer, TurnError>
        requires fitting { IsFittingLine turn.now.line }
        ensures turn { St.told → (m : Moment) → StandsForMoment self.old (C.stamps clock.old) m →
            LeadsTo (IsTurn (rules_of R.rules F.named self.old.hub) m turn.now is_last result)
            self.new (C.stamps clock.new) }
        ensures any_moment { St.lasts → St.told → self.old.hub.store.broken ≡ false →
            (m : Moment) → StandsForMoment self.old (C.stamps clock.old) m →
            LeavesOnly Main (IsListIn St.stands (rules_of R.rules F.named self.old.hub) m turn.now)
            self.old.hub.store.log self.new.hub.store.log }
        ensures side { St.lasts → packs_list turn.now.line ≡ false → StaysAs Side self.old.hub.store.log self.new.hub.store.log }
        ensures resolver { self.new.hub.resolver ≡ self.old.hub.resolver }
        ensures refs { self.new.hub.refs ≡ self.old.hub.refs }
        ensures later { AreLaterCounts (counts_of self.old.hub.store) (counts_of self.new.hub.store) }
        ensures failed { IsErrOf result TurnError.StoreFault →
            Rose self.old.hub.store.faults self.new.hub.store.faults }
        ensures goes_on { IfOk result (λ answer. end_of answer ≡ None) }
        ensures whole { self.old.hub.store.broken ≡ false → OnOk result (self.new.hub.store.broken ≡ false) }
        ensures counts { IsCountedBy (counts_of self.old.hub.store) (counts_of self.new.hub.store) (outcome_of_turn result) }
    {
        self.lasting();
        let answer = self.line(alloc, turn.client, &turn.line, clock);
        self.lasting();
        if let Some(why) = end_of(&answer) {
            return Err(why);
        }
        match self.close_if(alloc, &turn.client, is_last, clock) {
            Some(why) => Err(why),
            None => Ok(answer),
        }
    }
}
