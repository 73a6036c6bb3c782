//! What a remote client keeps from turn to turn.

ghost use Rattle.std.specs.Prelude.{◌≡◌, ◌≤◌, ◌||◌, IfErr, IfOk, OnErr, OnOk, Err, Some, true};
ghost use Rattle.connection_view.specs.Loading.{AreVotable, IsShortText};
ghost use Rattle.connection_view.specs.Views.{is_one_of};
ghost use Rattle.zeo_cache.specs.Intervals.{HoldsSame};
ghost use Rattle.zeo_messages.specs.declared.call.Call.{Call};
ghost use Rattle.zeo_messages.specs.Calls.{fits_call};
ghost use Rattle.zeo_client.specs.Asking.{IsTooLong, call_frame, call_frames, next_number, number_behind, vote_calls};
ghost use Rattle.zeo_client.specs.Errors.{IsFeedError};
ghost use Rattle.zeo_client.specs.Renewing.{HoldsUnless, IsAskedBeside, IsButCache, found_known, new_client, no_news, nothing, standing_as};
ghost use Rattle.zeo_client.specs.Taking.{IsFed, IsTakenSo};

use crate::asking::{AskError, FramedCall, framed, next_number};
use crate::error::ClientError;
use crate::taking::take_all;
use crate::voting::vote_text;
use std::alloc::{AllocError, Global};
use std::marker::Model;
use std::mem::replace;
use zb_ids::{ListOf, Oid, Text8, Tid};
use zb_model::{News, PendingCheck, PendingStore};
use zeo_cache::ZeoCache;
use zeo_frames::Frames;
use zeo_messages::{Call, Message};
use zeo_serving::{MayChange, Standing};

/// How many objects a client caches.
pub const CACHED_ENTRIES: usize = 4096;

/// What a remote client keeps from turn to turn: its cache, what it was told, the bytes of a frame that isn't whole
/// yet, and the number and the arguments of its last call.
///
/// It neither sends nor receives: [`ask`](ZeoClient::ask) and its kin give the bytes that are to be sent, and what
/// comes is handed to [`feed`](ZeoClient::feed). Contracts see a client as the record of what it keeps.
#[derive(Drop)]
pub struct ZeoClient {
    alloc: Global,
    cache: ZeoCache,
    standing: Standing,
    frames: Frames,
    number: u32,
    last: Option<Call>,
    ended: Option<ClientError>,
}

impl Model for ZeoClient {
    ghost use Rattle.zeo_client.specs.Taking.{ClientState};

    ghost Value = { ClientState };

    ghost view = { λ a. record { held = record { cache = a.cache; standing = a.standing }; reading = a.frames; number = a.number; last = a.last; ended = a.ended } };

    ghost use Rattle.zeo_client.specs.Errors.{IsFeedErrorIfSome};

    ghost invariant = { λ a. IsFeedErrorIfSome a.ended };
}

/// No news.
fn no_news(alloc: Global) -> News
    ensures { result ≡ no_news }
{
    News {
        forget: false,
        packed: false,
        commits: ListOf::new(alloc),
    }
}

/// No objects.
fn nothing(alloc: Global) -> MayChange
    ensures { result ≡ nothing }
{
    MayChange {
        all: false,
        oids: ListOf::new(alloc),
    }
}

impl ZeoClient {
    /// A client that was told nothing yet and has nothing cached. It takes the room of its cache; the one error is
    /// want of memory.
    pub fn new(alloc: Global) -> Result<ZeoClient, AllocError>
        ensures { IfOk result (λ client. client ≡ new_client CACHED_ENTRIES) }
    {
        Ok(ZeoClient {
            alloc,
            cache: ZeoCache::with_capacity(alloc, CACHED_ENTRIES)?,
            standing: Standing {
                known: Tid(0),
                switches: 0,
                news: no_news(alloc),
                asked: nothing(alloc),
            },
            frames: Frames::new(alloc),
            number: 0,
            last: None,
            ended: None,
        })
    }

    /// The greatest front that is known.
    pub fn known(&self) -> Tid
        ensures { result ≡ self.now.held.standing.known }
    {
        self.standing.known
    }

    /// How often the list had been packed at the front that the last answer to `sync` gave.
    pub fn switches(&self) -> u64
        ensures { result ≡ self.now.held.standing.switches }
    {
        self.standing.switches
    }

    /// The frame of a call, whose answer may come next. With an error the client is as before: `TooLong` comes
    /// exactly where the call's payload, with its number counted as 5 bytes, is longer than a frame's may be.
    pub fn call(&mut self, call: Call) -> Result<Text8, AskError>
        requires fits { fits_call call ≡ true }
        ensures text { IfOk result (λ text. text ≡ call_frame (next_number self.old.number) call) }
        ensures asked { OnOk result (self.new ≡ record self.old { number = next_number self.old.number; last = Some call }) }
        ensures long { (n : _) → result ≡ Err (AskError.TooLong n) → IsTooLong call n }
        ensures err { OnErr result (self.new ≡ self.old) }
    {
        let number = next_number(self.number);
        let FramedCall { call, text } = framed(self.alloc, number, call)?;
        self.number = number;
        self.last = Some(call);
        Ok(text)
    }

    /// The frame of a `loadBefore`, whose answer may come next. The one error is want of memory, and then the
    /// client is as before.
    pub fn ask(&mut self, oid: Oid, front: Tid) -> Result<Text8, AllocError>
        ensures text { IfOk result (λ text. text ≡ call_frame (next_number self.old.number) (Call.LoadBefore oid front)) }
        ensures asked { OnOk result (self.new ≡ record self.old { number = next_number self.old.number; last = Some (Call.LoadBefore oid front) }) }
        ensures err { OnErr result (self.new ≡ self.old) }
    {
        match self.call(Call::LoadBefore { oid, front }) {
            Ok(text) => Ok(text),
            Err(_) => Err(AllocError),
        }
    }

    /// The frames of a vote on stores, deletes and checks, to be sent in one piece: its answer may come next. With an
    /// error the client is as before.
    pub fn vote(
        &mut self,
        user: &Text8,
        description: &Text8,
        stores: &[PendingStore],
        checks: &[PendingCheck],
    ) -> Result<Text8, AskError>
        requires user { IsShortText user.now }
        requires description { IsShortText description.now }
        requires stores { AreVotable stores.now }
        ensures text { IfOk result (λ text. text ≡ call_frames self.old.number (vote_calls user.now description.now stores.now checks.now)) }
        ensures asked { OnOk result (self.new ≡ record self.old {
          number = number_behind self.old.number (vote_calls user.now description.now stores.now checks.now);
          last = Some Call.Vote;
        }) }
        ensures err { OnErr result (self.new ≡ self.old) }
    {
        let calls = vote_text(self.alloc, self.number, user, description, stores, checks)?;
        self.number = calls.number;
        self.last = Some(Call::Vote);
        Ok(calls.text)
    }

    /// Takes the next piece of what comes, and gives the messages that became whole in it, in their order. What
    /// each says is taken: a revision that was loaded below a known front is kept, what others committed closes
    /// entries, and a pack, or that more happened than is told, empties the cache; the greatest front that a
    /// message tells is known.
    ///
    /// `FrameTooLong` comes exactly as [`Frames::feed`] answers it, `BadMessage` exactly at a payload that is no
    /// message of a server, or an answer with another number than the last call's or with a value that isn't of
    /// that call's row. What came before it in the piece has been taken. After an error every piece is answered
    /// by it, and the client stays as it is.
    pub fn feed(&mut self, piece: &[u8]) -> Result<ListOf<Message>, ClientError>
        ensures fed { IsFed self.old piece.now result self.new }
        ensures ended { IfErr result (λ error. self.new.ended ≡ Some error) }
        ensures cause { IfErr result IsFeedError }
        ensures never_falls { self.old.held.standing.known ≤ self.new.held.standing.known }
    {
        if let Some(error) = self.ended {
            return Err(error);
        }
        let taken = self.take_piece(piece);
        self.ended = taken.as_ref().err().copied();
        taken
    }

    /// What is found of an object at a front that is known. All but the order of last use is as before. The one
    /// error is want of memory.
    pub fn find(&mut self, oid: Oid, front: Tid) -> Result<Option<(Tid, Text8)>, AllocError>
        ensures found { IfOk result (λ found. found ≡ found_known self.old.held oid front) }
        ensures same { HoldsSame self.old.held.cache.entries self.new.held.cache.entries }
        ensures others { IsButCache self.old self.new }
        ensures err { OnErr result (self.new ≡ self.old) }
    {
        if front > self.standing.known {
            return Ok(None);
        }
        self.cache.find(oid, front)
    }

    /// The news since views were renewed last, which they are now.
    pub fn renew(&mut self) -> News
        ensures news { result ≡ self.old.held.standing.news }
        ensures left { self.new ≡ standing_as self.old (record self.old.held.standing { news = no_news }) }
    {
        replace(&mut self.standing.news, no_news(self.alloc))
    }

    /// The next commit of the client may change the objects of these stores, too. Where there is no memory to keep
    /// that, it may change all.
    pub fn ask_for(&mut self, stores: &[PendingStore])
        ensures asked { IsAskedBeside stores.now self.old.held.standing.asked self.new.held.standing.asked }
        ensures others { self.new ≡ standing_as self.old (record self.old.held.standing { asked = self.new.held.standing.asked }) }
    {
        ask_for(&mut self.standing.asked, stores);
    }

    /// The next commit of the client may change any object.
    pub fn ask_for_all(&mut self)
        ensures { self.new ≡ standing_as self.old (record self.old.held.standing { asked = record self.old.held.standing.asked { all = true } }) }
    {
        self.standing.asked.all = true;
    }

    /// The client holds no vote: its next commit changes nothing.
    pub fn ask_for_nothing(&mut self)
        ensures { self.new ≡ standing_as self.old (record self.old.held.standing { asked = nothing }) }
    {
        self.standing.asked = nothing(self.alloc);
    }

    /// Drops the entries of the objects that the next commit of the client may change.
    pub fn drop_asked(&mut self)
        ensures dropped { HoldsUnless (λ oid. self.old.held.standing.asked.all || is_one_of self.old.held.standing.asked.oids oid)
            self.old.held.cache.entries self.new.held.cache.entries }
        ensures others { IsButCache self.old self.new }
    {
        drop_asked(&mut self.cache, &self.standing.asked);
    }

    /// Takes a piece of a stream that goes on.
    #[tactic(auto, using(crate::specs::Errors::feed_error, crate::specs::Errors::frame_feed_error))]
    fn take_piece(&mut self, piece: &[u8]) -> Result<ListOf<Message>, ClientError>
        ensures taken { IsTakenSo self.old piece.now result self.new }
        ensures cause { IfErr result IsFeedError }
    {
        let payloads = match self.frames.feed(piece) {
            Ok(payloads) => payloads,
            Err(error) => return Err(ClientError::from(error)),
        };
        take_all(
            self.alloc,
            self.number,
            &self.last,
            &mut self.cache,
            &mut self.standing,
            payloads.as_slice(),
        )
    }
}

/// The objects of some stores may be changed beside.
fn ask_for(asked: &mut MayChange, stores: &[PendingStore])
    ensures { IsAskedBeside stores.now asked.old asked.new }
{
    for store in stores {
        if asked.oids.push(store.oid).is_err() {
            asked.all = true;
            return;
        }
    }
}

/// Drops the entries of some objects.
#[tactic(auto, using(crate::proofs::Dropping::none_dropped, crate::proofs::Dropping::one_more_dropped))]
fn drop_all(cache: &mut ZeoCache, oids: &[Oid])
    ensures dropped { HoldsUnless (λ oid. is_one_of oids.now oid) cache.old.entries cache.new.entries }
    ensures capacity { cache.new.capacity ≡ cache.old.capacity }
{
    for oid in oids {
        cache.drop_one(*oid);
    }
}

/// Drops the entries of the objects that may be changed.
#[tactic(auto, using(crate::proofs::Dropping::asked_dropped, crate::proofs::Dropping::named_dropped))]
fn drop_asked(cache: &mut ZeoCache, asked: &MayChange)
    ensures dropped { HoldsUnless (λ oid. asked.now.all || is_one_of asked.now.oids oid) cache.old.entries cache.new.entries }
    ensures capacity { cache.new.capacity ≡ cache.old.capacity }
{
    if asked.all {
        cache.clear();
    } else {
        drop_all(cache, asked.oids.as_slice());
    }
}
