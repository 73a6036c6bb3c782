//! What a reply of the hub says to a client.

ghost use Rattle.std.specs.Prelude.{◌≡◌, ◌<◌, ◌^◌, IfOk};
ghost use Rattle.local_loads.specs.Answers.{abort_answer, finish_answer, front_answer, is_committed, load_answer, news_since, oid_answer, refusal_in, server_refusal, told_after, vote_answer};

use crate::told::Told;
use connection_view::{FrontView, Loaded};
use std::alloc::Global;
use zb_ids::{ListOf, Oid, Tid};
use zb_model::{News, Refusal};
use zodb_core::Reply;

/// A refusal of the hub, which is none of those that a connection has of its own.
fn server_refusal(refusal: Refusal) -> Refusal
    ensures { result ≡ server_refusal refusal }
{
    match refusal {
        Refusal::Missing { .. } => Refusal::NotOpen,
        Refusal::NoTransaction => Refusal::NotOpen,
        Refusal::InTransaction => Refusal::NotOpen,
        Refusal::NoSavepoint { .. } => Refusal::NotOpen,
        Refusal::Mixed { .. } => Refusal::NotOpen,
        Refusal::NotATree { .. } => Refusal::NotOpen,
        Refusal::NodeMissing { .. } => Refusal::NotOpen,
        Refusal::BadKey => Refusal::NotOpen,
        refusal => refusal,
    }
}

/// Why a call is refused by a reply that doesn't answer it.
fn refusal_in(reply: Reply) -> Refusal
    ensures { result ≡ refusal_in reply }
{
    match reply {
        Reply::Refused(refusal) => server_refusal(refusal),
        _ => Refusal::NotOpen,
    }
}

/// What a front of these numbers tells a client: nothing where its last one had the same, else that all may have
/// changed.
fn news_since(alloc: Global, told: &Option<Told>, front: Tid, switches: u64) -> News
    ensures { result ≡ news_since told.now front switches }
{
    let forget = match told {
        None => true,
        Some(told) => !(told.front == front && told.switches == switches),
    };
    News {
        forget,
        packed: false,
        commits: ListOf::new(alloc),
    }
}

/// What a front is answered, of which the client is told.
pub(crate) fn front_answer(
    alloc: Global,
    told: &mut Option<Told>,
    reply: Reply,
) -> Result<FrontView, Refusal>
    ensures answer { result ≡ front_answer told.old reply }
    ensures told { told.new ≡ told_after told.old reply }
    ensures counted { IfOk result (λ view. view.switches < 2 ^ 64) }
{
    match reply {
        Reply::Front {
            front,
            news: _,
            switches,
        } => {
            let news = news_since(alloc, told, front, switches);
            *told = Some(Told { front, switches });
            Ok(FrontView {
                front,
                news,
                switches,
            })
        }
        reply => Err(refusal_in(reply)),
    }
}

/// What a load is answered.
pub(crate) fn load_answer(reply: Reply) -> Result<Loaded, Refusal>
    ensures { result ≡ load_answer reply }
{
    match reply {
        Reply::Loaded {
            serial,
            bytes,
            end: _,
            upto: _,
        } => Ok(Loaded::Held { serial, bytes }),
        Reply::Nothing { oid: _, switches } => Ok(Loaded::Nothing { switches }),
        reply => Err(refusal_in(reply)),
    }
}

/// What the asking for a number is answered.
pub(crate) fn oid_answer(reply: Reply) -> Result<Oid, Refusal>
    ensures { result ≡ oid_answer reply }
{
    match reply {
        Reply::Oids { first, count: _ } => Ok(first),
        reply => Err(refusal_in(reply)),
    }
}

/// What a vote or an undo is answered.
pub(crate) fn vote_answer(reply: Reply) -> Result<(), Refusal>
    ensures { result ≡ vote_answer reply }
{
    match reply {
        Reply::Voted => Ok(()),
        reply => Err(refusal_in(reply)),
    }
}

/// What a finish is answered.
pub(crate) fn finish_answer(reply: Reply) -> Result<Option<Tid>, Refusal>
    ensures { result ≡ finish_answer reply }
{
    match reply {
        Reply::Committed { tid } => Ok(Some(tid)),
        Reply::Empty => Ok(None),
        reply => Err(refusal_in(reply)),
    }
}

/// What an abort is answered.
pub(crate) fn abort_answer(reply: Reply) -> Result<(), Refusal>
    ensures { result ≡ abort_answer reply }
{
    match reply {
        Reply::Aborted => Ok(()),
        reply => Err(refusal_in(reply)),
    }
}

/// Whether a transaction was committed.
pub(crate) fn is_committed(reply: &Reply) -> bool
    ensures { result ≡ is_committed reply.now }
{
    match reply {
        Reply::Committed { tid: _ } => true,
        _ => false,
    }
}
