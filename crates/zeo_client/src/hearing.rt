//! What a client makes of a message.

ghost use Rattle.std.specs.Prelude.{◌≡◌, ◌++◌, ◌∷◌, [], OnErr, OnOk, max, true};
ghost use Rattle.zeo_client.specs.Hearing.{ChangedBy, IsAnswerHeard, IsCacheTold, IsEntryKept, IsHeard, IsNewsKept, IsNoticed, IsRevisionHeard, closed_all, front_behind, front_heard, known_told, news_told};
ghost use Rattle.zeo_cache.specs.Intervals.{kept_end};

use std::alloc::{AllocError, Global};
use zb_ids::{ListOf, Oid, Text8, Tid};
use zb_model::{News, NewsCommit};
use zeo_cache::ZeoCache;
use zeo_messages::{Answer, Call, Message, Notice};
use zeo_serving::Standing;

/// Closes the entries of some objects at a tid.
#[tactic(auto, using(crate::proofs::Closings::none_closed, crate::proofs::Closings::one_more_closed))]
fn close_all(cache: &mut ZeoCache, oids: &[Oid], tid: Tid)
    ensures closed { ChangedBy (closed_all oids.now tid) cache.old.entries cache.new.entries }
    ensures capacity { cache.new.capacity ≡ cache.old.capacity }
{
    for oid in oids {
        cache.close(*oid, tid);
    }
}

/// What a notice leaves of a cache.
fn tell_cache(cache: &mut ZeoCache, notice: &Notice)
    ensures { IsCacheTold notice.now cache.old cache.new }
{
    match notice {
        Notice::Invalidate { tid, oids } => close_all(cache, oids.as_slice(), *tid),
        Notice::Forget { .. } => cache.clear(),
        Notice::Packed { .. } => cache.clear(),
    }
}

/// The front behind a tid.
fn front_behind(tid: Tid) -> Tid
    ensures { result ≡ front_behind tid }
{
    if tid.0 < u64::MAX {
        Tid(tid.0 + 1)
    } else {
        tid
    }
}

/// The greatest front that is known behind a notice.
fn known_told(notice: &Notice, known: Tid) -> Tid
    ensures { result ≡ known_told notice.now known }
{
    match notice {
        Notice::Invalidate { tid, .. } => greater(known, front_behind(*tid)),
        Notice::Forget { front } => greater(known, *front),
        Notice::Packed { .. } => known,
    }
}

/// The greater of two fronts.
fn greater(one: Tid, other: Tid) -> Tid
    ensures { result ≡ max one other }
{
    if one < other { other } else { one }
}

/// One more commit is news.
fn add_commit(news: &mut News, tid: Tid, oids: &ListOf<Oid>) -> Result<(), AllocError>
    ensures ok { OnOk result (news.new ≡ record news.old { commits = news.old.commits ++ record { tid = tid; oids = oids.now } ∷ [] }) }
    ensures err { OnErr result (news.new ≡ news.old) }
{
    let oids = oids.clone()?;
    news.commits.push(NewsCommit { tid, oids })?;
    Ok(())
}

/// All that is cached may be old.
fn forget(alloc: Global, news: &mut News)
    ensures { news.new ≡ record news.old { forget = true; commits = [] } }
{
    news.forget = true;
    news.commits = ListOf::new(alloc);
}

/// What is news behind a notice.
fn tell_news(alloc: Global, news: &mut News, notice: &Notice)
    ensures { IsNewsKept (news_told notice.now news.old) news.new }
{
    match notice {
        Notice::Invalidate { tid, oids } => {
            if !news.forget && add_commit(news, *tid, oids).is_err() {
                forget(alloc, news);
            }
        }
        Notice::Forget { .. } => forget(alloc, news),
        Notice::Packed { .. } => news.packed = true,
    }
}

/// Takes a notice.
fn notice(alloc: Global, cache: &mut ZeoCache, standing: &mut Standing, notice: &Notice)
    ensures { IsNoticed notice.now (record { cache = cache.old; standing = standing.old }) (record { cache = cache.new; standing = standing.new }) }
{
    tell_cache(cache, notice);
    standing.known = known_told(notice, standing.known);
    tell_news(alloc, &mut standing.news, notice);
}

/// Keeps a revision that was answered. Where there is no memory it isn't kept.
fn keep_revision(
    cache: &mut ZeoCache,
    oid: Oid,
    serial: Tid,
    bytes: &Text8,
    end: Option<Tid>,
    upto: Tid,
    known: Tid,
)
    ensures { IsEntryKept oid (record { serial = serial; bytes = bytes.now; end = kept_end end upto known }) cache.old cache.new }
{
    let Ok(bytes) = bytes.clone() else {
        return;
    };
    let _ = cache.keep(oid, serial, bytes, end, upto, known);
}

/// Takes the answer to the asking for a revision below a front.
fn hear_revision(cache: &mut ZeoCache, known: Tid, oid: Oid, front: Tid, answer: &Answer)
    ensures { IsRevisionHeard oid front known answer.now cache.old cache.new }
{
    if let Answer::Loaded {
        bytes,
        serial,
        end,
        upto,
    } = answer
    {
        if front <= known {
            keep_revision(cache, oid, *serial, bytes, *end, *upto, known);
        }
    }
}

/// Takes the answer to the asking for the front.
fn hear_front(standing: &mut Standing, answer: &Answer)
    ensures { standing.new ≡ front_heard answer.now standing.old }
{
    if let Answer::TidAndCount { tid, count } = answer {
        standing.known = greater(standing.known, *tid);
        standing.switches = *count;
    }
}

/// Takes an answer to the last call.
fn hear_answer(cache: &mut ZeoCache, standing: &mut Standing, last: &Option<Call>, answer: &Answer)
    ensures { IsAnswerHeard last.now answer.now (record { cache = cache.old; standing = standing.old }) (record { cache = cache.new; standing = standing.new }) }
{
    match last {
        Some(Call::LoadBefore { oid, front }) => {
            hear_revision(cache, standing.known, *oid, *front, answer);
        }
        Some(Call::Sync) => hear_front(standing, answer),
        _ => {}
    }
}

/// Takes a message.
pub(crate) fn hear(
    alloc: Global,
    cache: &mut ZeoCache,
    standing: &mut Standing,
    last: &Option<Call>,
    message: &Message,
)
    ensures { IsHeard last.now message.now (record { cache = cache.old; standing = standing.old }) (record { cache = cache.new; standing = standing.new }) }
{
    match message {
        Message::Told { notice: told } => notice(alloc, cache, standing, told),
        Message::Answered { answer, .. } => hear_answer(cache, standing, last, answer),
        Message::Asked { .. } => {}
    }
}
