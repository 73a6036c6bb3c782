//! The frames that tell news.

ghost use Rattle.std.specs.Prelude.{◌≡◌, ◌++◌, ◌≤◌, length, map, IfOk, OnOk};
ghost use Rattle.zeo_messages.specs.declared.message.Notice.{Notice};
ghost use Rattle.zeo_news.specs.Notices.{commit_notice, first_notices, notice_frame, notice_payload, news_frames};

use std::alloc::{AllocError, Global};
use zb_ids::{ListOf, Text8, Tid};
use zb_model::{News, NewsCommit};
use zeo_frames::{FRAME_LIMIT, frame};
use zeo_messages::{Message, Notice, write_message};

/// The payload of a notice.
#[tactic(auto, unfolding(crate::specs::Notices::notice_payload))]
fn payload_of(alloc: Global, notice: Notice) -> Result<Text8, AllocError>
    ensures { IfOk result (λ payload. payload ≡ notice_payload notice) }
{
    write_message(alloc, &Message::Told { notice })
}

/// The frame that tells that all may be old that is cached, up to a front.
#[tactic(auto, using(crate::specs::NoticeLaws::forget_fits))]
fn forget_frame(alloc: Global, front: Tid) -> Result<Text8, AllocError>
    ensures { IfOk result (λ text. text ≡ notice_frame (Notice.Forget front)) }
{
    let payload = payload_of(alloc, Notice::Forget { front })?;
    frame(alloc, payload.as_slice())
}

/// The frame that tells of a pack, by the newest transaction then.
#[tactic(auto, using(crate::specs::NoticeLaws::packed_fits))]
fn packed_frame(alloc: Global, tid: Tid) -> Result<Text8, AllocError>
    ensures { IfOk result (λ text. text ≡ notice_frame (Notice.Packed tid)) }
{
    let payload = payload_of(alloc, Notice::Packed { tid })?;
    frame(alloc, payload.as_slice())
}

/// The frame that tells of a commit.
fn commit_frame(alloc: Global, front: Tid, commit: NewsCommit) -> Result<Text8, AllocError>
    ensures { IfOk result (λ text. text ≡ notice_frame (commit_notice front commit)) }
{
    let NewsCommit { tid, oids } = commit;
    let payload = payload_of(alloc, Notice::Invalidate { tid, oids })?;
    if payload.len() > FRAME_LIMIT as usize {
        return forget_frame(alloc, front);
    }
    frame(alloc, payload.as_slice())
}

/// What is told before the commits.
fn first_frames(alloc: Global, front: Tid, news: &News) -> Result<ListOf<Text8>, AllocError>
    ensures { IfOk result (λ frames. frames ≡ map notice_frame (first_notices front news.now)) }
{
    let mut frames = ListOf::new(alloc);
    if news.forget {
        frames.push(forget_frame(alloc, front)?)?;
    } else if news.packed {
        frames.push(packed_frame(alloc, Tid(front.0.saturating_sub(1)))?)?;
    }
    Ok(frames)
}

/// Puts the frames of commits at the end.
#[tactic(auto, using(crate::proofs::Commits::commit_told))]
fn push_commits(
    frames: &mut ListOf<Text8>,
    alloc: Global,
    front: Tid,
    commits: ListOf<NewsCommit>,
) -> Result<(), AllocError>
    ensures { OnOk result (frames.new ≡ frames.old ++ map notice_frame (map (commit_notice front) commits)) }
{
    for commit in commits.into_vec() {
        frames.push(commit_frame(alloc, front, commit)?)?;
    }
    Ok(())
}

/// The frames that tell news, in order: that all may be old, or else that the list was packed, and then
/// each commit. A commit whose objects don't fit a frame is told as that all may be old. The front is
/// the one that came with the news. The one error is want of memory.
pub fn news_frames(alloc: Global, front: Tid, news: News) -> Result<ListOf<Text8>, AllocError>
    ensures told { IfOk result (λ frames. frames ≡ news_frames front news) }
{
    let mut frames = first_frames(alloc, front, &news)?;
    push_commits(&mut frames, alloc, front, news.commits)?;
    Ok(frames)
}
