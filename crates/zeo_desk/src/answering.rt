//! Which answer a reply is.

ghost use Rattle.std.specs.Prelude.{◌≡◌, ◌+◌, ◌++◌, [], IfOk, OnOk};
ghost use Rattle.zeo_messages.specs.declared.answer.Answer.{Answer};
ghost use Rattle.zeo_desk.specs.Answering.{answer_to, frames_before, front_answer, listed, number_alone, oids_from, packed_answer, reply_answer, since_answer};

use crate::asked::Asked;
use crate::told::Told;
use std::alloc::{AllocError, Global};
use zb_ids::{ListOf, Oid, Text8, Tid};
use zb_model::{LogLine, NewsCommit, Revision};
use zeo_messages::{Answer, Stage};
use zeo_news::news_frames;
use zodb_core::Reply;

/// Puts the number at a place behind the first one at the end, where an object can have it. The one error
/// is want of memory.
#[tactic(auto, using(crate::proofs::Listing::number_told, crate::proofs::Listing::number_left_out))]
fn push_number(oids: &mut ListOf<Oid>, first: Oid, place: u64) -> Result<(), AllocError>
    ensures { OnOk result (oids.new ≡ oids.old ++ number_alone (first + place)) }
{
    if place > u64::MAX - first.0 {
        return Ok(());
    }
    oids.push(Oid(first.0 + place))?;
    Ok(())
}

/// So many numbers from the first on, those that objects can have. The one error is want of memory.
#[tactic(auto, using(crate::proofs::Listing::one_more))]
fn oids_from(alloc: Global, count: u32, first: Oid) -> Result<ListOf<Oid>, AllocError>
    ensures { IfOk result (λ oids. oids ≡ oids_from count first) }
{
    let mut oids = ListOf::new(alloc);
    for i in 0..u64::from(count) {
        push_number(&mut oids, first, i)?;
    }
    Ok(oids)
}

#[tactic(auto, using(crate::proofs::Listing::listed_none, crate::proofs::Listing::listed_some))]
fn oids_answer(oids: ListOf<Oid>) -> Answer
    ensures { result ≡ listed Answer.Oids oids }
{
    if oids.is_empty() {
        Answer::EmptyList
    } else {
        Answer::Oids { oids }
    }
}

#[tactic(auto, using(crate::proofs::Listing::listed_none, crate::proofs::Listing::listed_some))]
fn revisions_answer(list: ListOf<Revision>) -> Answer
    ensures { result ≡ listed Answer.Revisions list }
{
    if list.is_empty() {
        Answer::EmptyList
    } else {
        Answer::Revisions { list }
    }
}

#[tactic(auto, using(crate::proofs::Listing::listed_none, crate::proofs::Listing::listed_some))]
fn lines_answer(list: ListOf<LogLine>) -> Answer
    ensures { result ≡ listed Answer.LogLines list }
{
    if list.is_empty() {
        Answer::EmptyList
    } else {
        Answer::LogLines { list }
    }
}

#[tactic(auto, using(crate::proofs::Listing::listed_none, crate::proofs::Listing::listed_some))]
fn commits_answer(list: ListOf<NewsCommit>) -> Answer
    ensures { result ≡ listed Answer.Commits list }
{
    if list.is_empty() {
        Answer::EmptyList
    } else {
        Answer::Commits { list }
    }
}

fn since_answer(keep: bool, commits: ListOf<NewsCommit>) -> Answer
    ensures { result ≡ since_answer keep commits }
{
    if keep {
        commits_answer(commits)
    } else {
        Answer::Done
    }
}

fn front_answer(asked: &Asked, front: Tid, switches: u64) -> Answer
    ensures { result ≡ front_answer asked.now front switches }
{
    match asked {
        Asked::Register => Answer::OneTid {
            tid: Tid(front.0.saturating_sub(1)),
        },
        _ => Answer::TidAndCount {
            tid: front,
            count: switches,
        },
    }
}

fn packed_answer(asked: &Asked, kept: u64, dropped: u64) -> Answer
    ensures { result ≡ packed_answer asked.now kept dropped }
{
    match asked {
        Asked::PackTurn => Answer::Switched { kept, dropped },
        _ => Answer::Packed { kept, dropped },
    }
}

/// A turn of a pack that isn't its last.
fn turned(stage: Stage, count: u64) -> Answer
    ensures { result ≡ Answer.Turned stage count }
{
    Answer::Turned { stage, count }
}

/// A revision.
fn loaded_answer(serial: Tid, bytes: Text8, end: Option<Tid>, upto: Tid) -> Answer
    ensures { result ≡ Answer.Loaded bytes serial end upto }
{
    Answer::Loaded {
        bytes,
        serial,
        end,
        upto,
    }
}

/// A transaction with the number of changes up to it.
fn counted_tid(tid: Tid, count: u64) -> Answer
    ensures { result ≡ Answer.TidAndCount tid count }
{
    Answer::TidAndCount { tid, count }
}

/// The answer that a reply is to what was asked. The one error is want of memory.
fn reply_answer(alloc: Global, asked: &Asked, reply: Reply) -> Result<Answer, AllocError>
    ensures { IfOk result (λ answer. answer ≡ reply_answer asked.now reply) }
{
    match reply {
        Reply::Front {
            front,
            news: _,
            switches,
        } => Ok(front_answer(asked, front, switches)),
        Reply::Loaded {
            serial,
            bytes,
            end,
            upto,
        } => Ok(loaded_answer(serial, bytes, end, upto)),
        Reply::Nothing { oid: _, switches } => Ok(Answer::Nothing { switches }),
        Reply::Oids { first, count } => {
            let oids = oids_from(alloc, count, first)?;
            Ok(oids_answer(oids))
        }
        Reply::Voted => Ok(Answer::Done),
        Reply::Committed { tid } => Ok(Answer::OneTid { tid }),
        Reply::Empty => Ok(Answer::Done),
        Reply::Aborted => Ok(Answer::Done),
        Reply::History { list } => Ok(revisions_answer(list)),
        Reply::UndoLog { list } => Ok(lines_answer(list)),
        Reply::Packed { kept, dropped } => Ok(packed_answer(asked, kept, dropped)),
        Reply::Packing { tid } => Ok(Answer::OneTid { tid }),
        Reply::Marking { count } => Ok(turned(Stage::Marking, count)),
        Reply::Marked { count } => Ok(turned(Stage::Marked, count)),
        Reply::Copying { count } => Ok(turned(Stage::Copying, count)),
        Reply::Copied { count } => Ok(turned(Stage::Copied, count)),
        Reply::Last { tid, changes } => Ok(counted_tid(tid, changes)),
        Reply::Since { keep, commits } => Ok(since_answer(keep, commits)),
        Reply::Closed => Ok(Answer::Done),
        Reply::Refused(refusal) => Ok(Answer::Refused { refusal }),
    }
}

/// What a reply tells, where it is its own answer: the news of a front, and the answer. The one error is
/// want of memory.
fn reply_told(alloc: Global, asked: &Asked, reply: Reply) -> Result<Told, AllocError>
    ensures frames { IfOk result (λ told. told.frames ≡ frames_before reply) }
    ensures answer { IfOk result (λ told. told.answer ≡ reply_answer asked.now reply) }
{
    match reply {
        Reply::Front {
            front,
            news,
            switches,
        } => {
            let answer = front_answer(asked, front, switches);
            let frames = news_frames(alloc, front, news)?;
            Ok(Told { frames, answer })
        }
        other => {
            let answer = reply_answer(alloc, asked, other)?;
            let frames = ListOf::new(alloc);
            Ok(Told { frames, answer })
        }
    }
}

/// What a reply tells whoever asked. The one error is want of memory.
pub(crate) fn told(alloc: Global, asked: &Asked, reply: Reply) -> Result<Told, AllocError>
    ensures frames { IfOk result (λ told. told.frames ≡ frames_before reply) }
    ensures answer { IfOk result (λ told. told.answer ≡ answer_to asked.now reply) }
{
    let Told { frames, answer } = reply_told(alloc, asked, reply)?;
    match asked {
        Asked::NewsBehind { tid } => Ok(Told {
            frames,
            answer: Answer::OneTid { tid: *tid },
        }),
        _ => Ok(Told { frames, answer }),
    }
}
