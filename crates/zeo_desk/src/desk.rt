//! The server's end of a link.

ghost use Rattle.std.specs.Prelude.{◌≡◌, ◌<◌, ◌≤◌, ◌^◌, ◌∷◌, [], length, IfOk, IsErrOf, OnErr, OnOk, None, Some, true};
ghost use Rattle.zodb_core.specs.HubState.{IsFitting};
ghost use Rattle.zeo_messages.specs.declared.answer.Answer.{Answer};
ghost use Rattle.zeo_messages.specs.Calls.{fits_call};
ghost use Rattle.zeo_desk.specs.Answering.{IsShortAnswer};
ghost use Rattle.zeo_desk.specs.Desks.{asks, begun, called, called_early, check_of, committed, committed_tid, delete_of, new_desk, refuses, replied, sends, store_of, taken, votes, waiting, with_current, with_delete, with_storea, IsFittingNext};

use crate::asked::{Asked, Awaited};
use crate::calls::{NumberedCall, is_answered, is_register, read_call};
use crate::error::DeskError;
use crate::framing::{refusal_frames, reply_frames};
use crate::naming::{NamedStep, step_of};
use crate::next::Next;
use commit_phases::{Pending, PendingError};
use std::alloc::{AllocError, Global};
use std::marker::Model;
use zb_ids::{ListOf, Oid, Text8, Tid};
use zb_model::Refusal;
use zeo_messages::Call;
use zodb_core::{Reply, Request};

/// How many bytes of a frame stand before its payload.
const LENGTH_BYTES: u64 = 4;

/// The server's end of one link: whether the client has registered, the texts of its votes and what waits
/// for them, the first refusal of that, and the step whose reply is awaited.
///
/// A message is handed to [`take`](Desk::take), and what it answers is done: frames are sent, or the
/// session makes a step and its reply is handed to [`reply`](Desk::reply), until there are frames. Contracts
/// see a [`Desk`] as the record of what it keeps.
#[derive(Drop)]
pub struct Desk {
    /// Whether the client has registered.
    registered: bool,
    /// Who makes the transactions of later votes.
    user: Text8,
    /// What they are for.
    description: Text8,
    /// Further notes on them.
    extension: Text8,
    /// What waits for a vote.
    pending: Pending,
    /// The length for which a store was refused first since the last `tpc_begin`.
    refused: Option<u64>,
    /// The step whose reply is awaited.
    awaited: Option<Awaited>,
    /// How many bytes the frames had whose payloads were handed to it, where the count stays at 2^64-1.
    bytes: u64,
}

impl Model for Desk {
    ghost use Rattle.zeo_desk.specs.Desks.{DeskState, IsDesk};

    ghost Value = { DeskState };

    ghost view = { λ a. record {
      registered = a.registered;
      user = a.user;
      description = a.description;
      extension = a.extension;
      stores = a.pending.stores;
      checks = a.pending.checks;
      refused = a.refused;
      awaited = a.awaited;
    } };

    ghost invariant = { λ a. IsDesk a.user a.description a.extension a.awaited };
}

impl Desk {
    /// The desk of a link that was just opened. It takes no memory.
    pub fn new(alloc: Global) -> Desk
        ensures { result ≡ new_desk }
    {
        Desk {
            registered: false,
            user: Text8::new(alloc),
            description: Text8::new(alloc),
            extension: Text8::new(alloc),
            pending: Pending::new(alloc),
            refused: None,
            awaited: None,
            bytes: 0,
        }
    }

    /// How many bytes the frames had whose payloads were handed to it, with the four of each frame's length: from 0 to
    /// 2^64-1, where the count stays. No message and no contract tells it: it shows what a client asks its server.
    pub fn bytes_taken(&self) -> u64 {
        self.bytes
    }

    /// Takes one message: its payload names a step of the session, or frames are sent for it, which may be
    /// none. A step whose reply was still awaited is awaited no more. With an error the desk is as before:
    /// `BadMessage` comes exactly where the payload is no message of a client, `Memory` where there was none.
    pub fn take(&mut self, alloc: Global, payload: &[u8]) -> Result<Next, DeskError>
        ensures ok { IfOk result (λ next.
            taken self.old payload.now ≡ Some (record { desk = self.new; next = next })) }
        ensures bad { IsErrOf result DeskError.BadMessage → taken self.old payload.now ≡ None }
        ensures err { OnErr result (self.new ≡ self.old) }
        ensures fitting { IfOk result IsFittingNext }
    {
        self.bytes = self.bytes.saturating_add(payload.len() as u64);
        self.bytes = self.bytes.saturating_add(LENGTH_BYTES);
        let NumberedCall { number, call } = read_call(alloc, payload)?;
        if self.registered {
            let next = self.take_call(alloc, number, call)?;
            return Ok(next);
        }
        let next = self.take_early(alloc, number, call)?;
        Ok(next)
    }

    /// Takes the reply to the step that is awaited: a further step is asked for, or frames are sent. A reply
    /// to no step does nothing. The one error is want of memory, and then the desk is as before: it awaits
    /// the reply, so another one can be handed to it.
    pub fn reply(&mut self, alloc: Global, reply: Reply) -> Result<Next, AllocError>
        ensures ok { IfOk result (λ next.
            replied self.old reply ≡ record { desk = self.new; next = next }) }
        ensures err { OnErr result (self.new ≡ self.old) }
        ensures fitting { IfOk result IsFittingNext }
    {
        let Some(awaited) = &self.awaited else {
            return Ok(self.send(ListOf::new(alloc)));
        };
        let number = awaited.number;
        match committed(&awaited.asked, &reply) {
            Some(tid) => Ok(self.ask(number, Asked::NewsBehind { tid }, Request::Front)),
            None => {
                let frames = reply_frames(alloc, number, &awaited.asked, reply)?;
                Ok(self.send(frames))
            }
        }
    }

    /// Asks for a step, whose reply is awaited.
    fn ask(&mut self, number: u32, asked: Asked, request: Request) -> Next
        requires number { number < 2 ^ 31 }
        ensures turn { asks self.old number asked request ≡ record { desk = self.new; next = result } }
    {
        self.awaited = Some(Awaited { number, asked });
        Next::Step(request)
    }

    /// Sends frames.
    fn send(&mut self, frames: ListOf<Text8>) -> Next
        ensures turn { sends self.old frames ≡ record { desk = self.new; next = result } }
    {
        self.awaited = None;
        Next::Send(frames)
    }

    /// Refuses a call.
    fn refuse(&mut self, alloc: Global, number: u32, refusal: Refusal) -> Result<Next, AllocError>
        requires number { number < 2 ^ 31 }
        requires short { IsShortAnswer number (Answer.Refused refusal) }
        ensures ok { IfOk result (λ next.
            refuses self.old number refusal ≡ record { desk = self.new; next = next }) }
        ensures err { OnErr result (self.new ≡ self.old) }
        ensures fitting { IfOk result IsFittingNext }
    {
        let frames = refusal_frames(alloc, number, refusal)?;
        Ok(self.send(frames))
    }

    /// Begins a transaction: nothing waits, and these are the texts of its votes.
    fn begin(&mut self, alloc: Global, user: Text8, description: Text8, extension: Text8)
        requires user { length user ≤ 65535 }
        requires description { length description ≤ 65535 }
        requires extension { length extension ≤ 65535 }
        ensures { self.new ≡ begun self.old user description extension }
    {
        self.user = user;
        self.description = description;
        self.extension = extension;
        self.pending = Pending::new(alloc);
        self.refused = None;
    }

    /// Keeps a store, unless one was refused before.
    fn store(&mut self, oid: Oid, base: Tid, bytes: Text8) -> Result<(), AllocError>
        requires filled { 0 < length bytes }
        ensures ok { OnOk result (self.new ≡ with_storea self.old (store_of oid base bytes)) }
        ensures err { OnErr result (self.new ≡ self.old) }
    {
        let None = self.refused else {
            return Ok(());
        };
        match self.pending.store(oid, base, bytes) {
            Ok(()) => Ok(()),
            Err(error) => match error {
                PendingError::TooLong { length } => {
                    self.refused = Some(length);
                    Ok(())
                }
                PendingError::Memory => Err(AllocError),
            },
        }
    }

    /// Keeps a delete, unless a store was refused before.
    fn delete(&mut self, oid: Oid, base: Tid) -> Result<(), AllocError>
        ensures ok { OnOk result (self.new ≡ with_delete self.old (delete_of oid base)) }
        ensures err { OnErr result (self.new ≡ self.old) }
    {
        let None = self.refused else {
            return Ok(());
        };
        self.pending.delete(oid, base)?;
        Ok(())
    }

    /// Keeps a check, unless a store was refused before.
    fn check(&mut self, oid: Oid, serial: Tid) -> Result<(), AllocError>
        ensures ok { OnOk result (self.new ≡ with_current self.old (check_of oid serial)) }
        ensures err { OnErr result (self.new ≡ self.old) }
    {
        let None = self.refused else {
            return Ok(());
        };
        self.pending.check(oid, serial)?;
        Ok(())
    }

    /// A vote on all that waits. The one error is want of memory.
    fn vote_on_all(&self) -> Result<Request, AllocError>
        ensures request { IfOk result (λ request. request ≡
            Request.Vote self.now.user self.now.description self.now.extension (waiting self.now)) }
        ensures fitting { IfOk result IsFitting }
    {
        let user = self.user.clone()?;
        let description = self.description.clone()?;
        let extension = self.extension.clone()?;
        let pending = self.pending.copy()?;
        Ok(Request::Vote {
            user,
            description,
            extension,
            pending,
        })
    }

    /// Votes on what waits, which waits on, or answers the first refusal of it.
    #[tactic(auto, using(crate::proofs::Lengths::too_long_fits))]
    fn vote(&mut self, alloc: Global, number: u32) -> Result<Next, AllocError>
        requires number { number < 2 ^ 31 }
        ensures ok { IfOk result (λ next.
            votes self.old number self.old.refused ≡ record { desk = self.new; next = next }) }
        ensures err { OnErr result (self.new ≡ self.old) }
        ensures fitting { IfOk result IsFittingNext }
    {
        match self.refused {
            Some(length) => self.refuse(alloc, number, Refusal::TooLong { length }),
            None => {
                let request = self.vote_on_all()?;
                Ok(self.ask(number, Asked::Other, request))
            }
        }
    }

    /// Takes a call of a client that has registered.
    #[tactic(auto, using(crate::proofs::Lengths::not_open_fits, crate::proofs::Rows::store_filled, crate::proofs::Rows::texts_short))]
    fn take_call(&mut self, alloc: Global, number: u32, call: Call) -> Result<Next, AllocError>
        requires number { number < 2 ^ 31 }
        requires fits { fits_call call ≡ true }
        ensures ok { IfOk result (λ next.
            called self.old number call ≡ record { desk = self.new; next = next }) }
        ensures err { OnErr result (self.new ≡ self.old) }
        ensures fitting { IfOk result IsFittingNext }
    {
        match call {
            Call::Register { again: _ } => self.refuse(alloc, number, Refusal::NotOpen),
            Call::TpcBegin {
                user,
                description,
                extension,
            } => {
                self.begin(alloc, user, description, extension);
                Ok(self.send(ListOf::new(alloc)))
            }
            Call::Storea { oid, base, bytes } => {
                self.store(oid, base, bytes)?;
                Ok(self.send(ListOf::new(alloc)))
            }
            Call::DeleteObject { oid, base } => {
                self.delete(oid, base)?;
                Ok(self.send(ListOf::new(alloc)))
            }
            Call::CheckCurrentSerial { oid, serial } => {
                self.check(oid, serial)?;
                Ok(self.send(ListOf::new(alloc)))
            }
            Call::Vote => self.vote(alloc, number),
            other => {
                let NamedStep { asked, request } = step_of(other);
                Ok(self.ask(number, asked, request))
            }
        }
    }

    /// Takes a call of a client that has not registered.
    #[tactic(auto, using(crate::proofs::Lengths::not_open_fits))]
    fn take_early(&mut self, alloc: Global, number: u32, call: Call) -> Result<Next, AllocError>
        requires number { number < 2 ^ 31 }
        ensures ok { IfOk result (λ next.
            called_early self.old number call ≡ record { desk = self.new; next = next }) }
        ensures err { OnErr result (self.new ≡ self.old) }
        ensures fitting { IfOk result IsFittingNext }
    {
        if is_register(&call) {
            self.registered = true;
            return Ok(self.ask(number, Asked::Register, Request::Front));
        }
        if is_answered(&call) {
            return self.refuse(alloc, number, Refusal::NotOpen);
        }
        Ok(self.send(ListOf::new(alloc)))
    }
}

/// The transaction of a commit that was asked.
fn committed(asked: &Asked, reply: &Reply) -> Option<Tid>
    ensures { result ≡ committed asked.now reply.now }
{
    match asked {
        Asked::Finish => committed_tid(reply),
        _ => None,
    }
}

fn committed_tid(reply: &Reply) -> Option<Tid>
    ensures { result ≡ committed_tid reply.now }
{
    match reply {
        Reply::Committed { tid } => Some(*tid),
        _ => None,
    }
}
