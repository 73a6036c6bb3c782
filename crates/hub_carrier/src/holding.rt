//! Which replies can be told: the numbers in them are those that their types can hold, and their lists are no longer
//! than a message can say.

ghost use Rattle.std.specs.Prelude.{◌<◌, ◌^◌, IsTrue, length};
ghost use Rattle.std.specs.List.{AllByRecursion};
ghost use Rattle.zeo_messages.specs.Answers.{HoldsCommit, HoldsLine, HoldsRefusal, HoldsRevision, IsMaybeId, IsSmall};
ghost use Rattle.zeo_values.specs.Values.{AreIds, IsId};
ghost use Rattle.remote_loads.specs.Sending.{HoldsReply};
ghost use Rattle.hub_carrier.specs.Telling.{HasNumbers, IsFewer, IsShortCommit, IsShortRefusal, IsShortReply};

use zb_ids::{Oid, Tid};
use zb_model::{LogLine, NewsCommit, Refusal, Revision, Why};
use zodb_core::Reply;

/// A number of 64 bits.
fn is_id(number: u64)
    ensures { IsId number }
{}

/// A number of 32 bits.
fn is_small(number: u32)
    ensures { IsSmall number }
{}

/// Two numbers of 64 bits.
fn are_two(one: u64, other: u64)
    ensures one { IsId one }
    ensures other { IsId other }
{}

/// A number of 64 bits, if there is one.
fn is_maybe_id(number: &Option<u64>)
    ensures { IsMaybeId number.now }
{
    if let Some(number) = number {
        is_id(*number);
    }
}

/// A tid, if there is one.
fn is_maybe_tid(tid: &Option<Tid>)
    ensures { IsMaybeId tid.now }
{
    if let Some(tid) = tid {
        is_id(tid.0);
    }
}

/// Each number is one of 64 bits.
#[tactic(auto, using(crate::proofs::Numbers::one_more_id))]
fn are_ids(oids: &[Oid])
    ensures { AreIds oids.now }
{
    for oid in oids {
        is_id(oid.0);
    }
}

fn holds_revision(revision: &Revision)
    ensures { HoldsRevision revision.now }
{
    is_id(revision.tid.0);
    is_maybe_id(&revision.size);
}

#[tactic(auto, using(crate::proofs::Numbers::one_more_revision))]
fn hold_revisions(list: &[Revision])
    ensures { AllByRecursion HoldsRevision list.now }
{
    for revision in list {
        holds_revision(revision);
    }
}

fn holds_line(line: &LogLine)
    ensures { HoldsLine line.now }
{
    is_id(line.tid.0);
}

#[tactic(auto, using(crate::proofs::Numbers::one_more_line))]
fn hold_lines(list: &[LogLine])
    ensures { AllByRecursion HoldsLine list.now }
{
    for line in list {
        holds_line(line);
    }
}

fn holds_commit(commit: &NewsCommit)
    ensures { HoldsCommit commit.now }
{
    is_id(commit.tid.0);
    are_ids(commit.oids.as_slice());
}

#[tactic(auto, using(crate::proofs::Numbers::one_more_commit))]
fn hold_commits(commits: &[NewsCommit])
    ensures { AllByRecursion HoldsCommit commits.now }
{
    for commit in commits {
        holds_commit(commit);
    }
}

/// Three numbers of 64 bits.
fn are_three(one: u64, other: u64, third: u64)
    ensures one { IsId one }
    ensures other { IsId other }
    ensures third { IsId third }
{}

fn holds_refusal(refusal: &Refusal)
    ensures { HoldsRefusal refusal.now }
{
    match refusal {
        Refusal::Conflict {
            oid,
            base,
            current,
            why: _,
        } => are_three(oid.0, base.0, current.0),
        Refusal::ReadConflict { oid, base, current } => are_three(oid.0, base.0, current.0),
        Refusal::TooLong { length } => is_id(*length),
        Refusal::UndoUnknown { tid } => is_id(tid.0),
        Refusal::UndoPacked { tid } => is_id(tid.0),
        Refusal::UndoConflict { oid, later } => are_two(oid.0, later.0),
        Refusal::Overtaken { oid, tid } => are_two(oid.0, tid.0),
        Refusal::Unreadable { oid, tid } => are_two(oid.0, tid.0),
        Refusal::PackedAlready { packed } => is_id(packed.0),
        Refusal::Missing { oid, packed: _ } => is_id(oid.0),
        Refusal::Busy { holder } => is_small(*holder),
        Refusal::PackRunning { session } => is_small(*session),
        Refusal::JournalFull { count } => is_id(*count),
        Refusal::TooManySessions { count } => is_small(*count),
        Refusal::NoSavepoint { number } => is_id(*number),
        Refusal::FrameTooLong { length } => is_small(*length),
        Refusal::Mixed { stores } => is_id(*stores),
        Refusal::NotATree { oid } => is_id(oid.0),
        Refusal::NodeMissing { oid } => is_id(oid.0),
        Refusal::NothingToDelete { oid, current } => are_two(oid.0, current.0),
        Refusal::Connected { session } => is_small(*session),
        _ => {}
    }
}

/// The numbers of a reply are those that its type can hold.
fn has_numbers(reply: &Reply)
    ensures { HasNumbers reply.now }
{
    match reply {
        Reply::Front {
            front,
            news,
            switches,
        } => {
            are_two(front.0, *switches);
            hold_commits(news.commits.as_slice());
        }
        Reply::Loaded {
            serial,
            bytes: _,
            end,
            upto,
        } => {
            are_two(serial.0, upto.0);
            is_maybe_tid(end);
        }
        Reply::Nothing { oid: _, switches } => is_id(*switches),
        Reply::Oids { first: _, count } => is_small(*count),
        Reply::Committed { tid } => is_id(tid.0),
        Reply::History { list } => hold_revisions(list.as_slice()),
        Reply::UndoLog { list } => hold_lines(list.as_slice()),
        Reply::Packed { kept, dropped } => are_two(*kept, *dropped),
        Reply::Packing { tid } => is_id(tid.0),
        Reply::Marking { count } => is_id(*count),
        Reply::Marked { count } => is_id(*count),
        Reply::Copying { count } => is_id(*count),
        Reply::Copied { count } => is_id(*count),
        Reply::Last { tid, changes } => are_two(tid.0, *changes),
        Reply::Since { keep: _, commits } => hold_commits(commits.as_slice()),
        Reply::Refused(refusal) => holds_refusal(refusal),
        _ => {}
    }
}

/// Whether a length is far below what a number of 64 bits can say.
fn is_fewer(count: usize) -> bool
    ensures { IsTrue result → IsFewer count }
{
    count < 1 << 40
}

/// Whether each commit names few objects.
#[tactic(auto, using(crate::proofs::Numbers::one_more_short))]
fn are_short(commits: &[NewsCommit]) -> bool
    ensures { IsTrue result → AllByRecursion IsShortCommit commits.now }
{
    for commit in commits {
        if !is_fewer(commit.oids.len()) {
            return false;
        }
    }
    true
}

/// Whether there are few commits, each of few objects.
fn are_few(commits: &[NewsCommit]) -> bool
    ensures few { IsTrue result → length commits.now < 2 ^ 16 }
    ensures short { IsTrue result → AllByRecursion IsShortCommit commits.now }
{
    if commits.len() >= 1 << 16 {
        return false;
    }
    are_short(commits)
}

fn is_short_refusal(refusal: &Refusal) -> bool
    ensures { IsTrue result → IsShortRefusal refusal.now }
{
    match refusal {
        Refusal::Conflict {
            why: Why::Key(spelling),
            ..
        } => is_fewer(spelling.len()),
        _ => true,
    }
}

/// Whether the lists of a reply are short.
fn is_short(reply: &Reply) -> bool
    ensures { IsTrue result → IsShortReply reply.now }
{
    match reply {
        Reply::Loaded { bytes, .. } => is_fewer(bytes.len()),
        Reply::History { list } => is_fewer(list.len()),
        Reply::UndoLog { list } => is_fewer(list.len()),
        Reply::Since { keep: _, commits } => are_few(commits.as_slice()),
        Reply::Refused(refusal) => is_short_refusal(refusal),
        _ => true,
    }
}

/// Whether a reply can be told, as each one that is met.
#[tactic(auto, using(crate::proofs::Telling::reply_holds))]
pub(crate) fn can_be_told(reply: &Reply) -> bool
    ensures { IsTrue result → HoldsReply reply.now }
{
    has_numbers(reply);
    is_short(reply)
}
