//! A client with the way to its server.

ghost use Rattle.std.specs.Prelude.{◌≡◌, true};
ghost use Rattle.zeo_messages.specs.Calls.{fits_call};
ghost use Rattle.remote_loads.specs.Keeping.{GoesItsWay};
ghost use Rattle.remote_loads.specs.Talking.{Exchanges, IsAsked, Talks, answer_in};

use crate::carrier::Carrier;
use crate::causes::{refusal_of, unasked};
use std::alloc::Global;
use zb_ids::{ListOf, Text8};
use zb_model::Refusal;
use zeo_client::ZeoClient;
use zeo_messages::{Answer, Call, Message};

/// A client with a carrier: the calls of that client, for one turn.
///
/// A load below a known front is answered by the cache where it can be, and then nothing is sent; each other call but
/// a front sends its messages in one piece and waits for the answer. What comes before the answer is taken in its
/// order.
#[derive(Drop)]
pub struct Remote<'c, W: Carrier> {
    /// Where memory comes from.
    pub alloc: Global,
    /// The client.
    pub client: &'c mut ZeoClient,
    /// The carrier.
    pub carrier: W,
}

/// The first answer among messages, if one is.
fn answer_in(messages: ListOf<Message>) -> Option<Answer>
    ensures { result ≡ answer_in messages }
{
    for message in messages.into_vec() {
        if let Message::Answered { number: _, answer } = message {
            return Some(answer);
        }
    }
    None
}

impl<'c, W: Carrier> Remote<'c, W> {
    /// The calls of a client over these parts. The client is given back as calls leave it.
    pub fn new(alloc: Global, client: &'c mut ZeoClient, carrier: W) -> Remote<'c, W>
        ensures client { result.client.now ≡ client.old }
        ensures client_place { result.client.ghost_name ≡ client.entry.ghost_name }
        ensures carrier { result.carrier ≡ carrier }
    {
        Remote {
            alloc,
            client,
            carrier,
        }
    }

    /// Sends bytes, and takes the messages that came.
    #[tactic(auto, using(crate::proofs::Exchanging::breaks, crate::proofs::Exchanging::takes, crate::proofs::Exchanging::refuses,))]
    fn exchange(&mut self, text: &[u8]) -> Result<ListOf<Message>, Refusal>
        ensures way { GoesItsWay W.faults W.closed W.session W.place W.later self.old.carrier
            self.new.carrier self.old.client self.new.client result }
        ensures told { W.told → Exchanges (W.steps (W.session self.old.carrier))
            (W.end self.old.carrier) (W.desk self.old.carrier) self.old.client.now text.now
            result self.new.client.now (W.end self.new.carrier) (W.desk self.new.carrier) }
    {
        let piece = match self.carrier.carry(self.alloc, text) {
            Ok(piece) => piece,
            Err(error) => return Err(refusal_of(error)),
        };
        match self.client.feed(piece.as_slice()) {
            Ok(messages) => Ok(messages),
            Err(error) => Err(refusal_of(error)),
        }
    }

    /// Waits for an answer behind messages without one.
    fn wait(&mut self) -> Result<Answer, Refusal>
        ensures way { GoesItsWay W.faults W.closed W.session W.place W.later self.old.carrier
            self.new.carrier self.old.client self.new.client result }
    {
        'waiting: for _ in 0..u64::MAX {
            let text = Text8::new(self.alloc);
            let messages = match self.exchange(text.as_slice()) {
                Ok(messages) => messages,
                Err(refusal) => return Err(refusal),
            };
            if let Some(answer) = answer_in(messages) {
                return Ok(answer);
            }
        }
        Err(Refusal::Memory)
    }

    /// Sends the frames of calls, and takes what comes up to the answer.
    #[tactic(auto, using(crate::proofs::Exchanging::fails, crate::proofs::Exchanging::answers))]
    pub(crate) fn talk(&mut self, text: Text8) -> Result<Answer, Refusal>
        ensures way { GoesItsWay W.faults W.closed W.session W.place W.later self.old.carrier
            self.new.carrier self.old.client self.new.client result }
        ensures told { W.told → Talks (W.steps (W.session self.old.carrier))
            (W.end self.old.carrier) (W.desk self.old.carrier) self.old.client.now text
            result self.new.client.now (W.end self.new.carrier) (W.desk self.new.carrier) }
    {
        let messages = match self.exchange(text.as_slice()) {
            Ok(messages) => messages,
            Err(refusal) => return Err(refusal),
        };
        match answer_in(messages) {
            Some(answer) => Ok(answer),
            None => self.wait(),
        }
    }

    /// Makes one call.
    #[tactic(auto, using(crate::proofs::Exchanging::is_unsent, crate::proofs::Exchanging::is_sent))]
    pub(crate) fn ask(&mut self, call: Call) -> Result<Answer, Refusal>
        requires fits { fits_call call ≡ true }
        ensures way { GoesItsWay W.faults W.closed W.session W.place W.later self.old.carrier
            self.new.carrier self.old.client self.new.client result }
        ensures told { W.told → IsAsked (W.steps (W.session self.old.carrier))
            (W.end self.old.carrier) (W.desk self.old.carrier) self.old.client.now call
            result self.new.client.now (W.end self.new.carrier) (W.desk self.new.carrier) }
    {
        let text = match self.client.call(call) {
            Ok(text) => text,
            Err(error) => return Err(unasked(error)),
        };
        self.talk(text)
    }
}
