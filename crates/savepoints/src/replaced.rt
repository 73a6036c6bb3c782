//! What a change replaced.

ghost use Rattle.std.specs.Prelude.{◌≡◌, ◌+◌, ◌-◌, ◌++◌, ◌≤◌, IfOk, drop, length, take};
ghost use Rattle.zb_model.specs.declared.data.Content.TheVariants.{Held};
ghost use Rattle.savepoints.specs.Log.{undone};

use commit_phases::Extent;
use std::alloc::{AllocError, Global};
use zb_ids::{Oid, Text8};
use zb_model::Content;

/// The content of an object before the one that it has. Where both are bytes they mostly differ in one
/// piece, and only that piece is kept.
#[derive(Drop)]
pub(crate) enum Earlier {
    /// The content itself.
    Whole(Content),
    /// Bytes that stood in the place of `length` bytes at `at`.
    Cut {
        at: usize,
        length: usize,
        gone: Text8,
    },
}

/// An object whose store was replaced, and its content before.
#[derive(Drop)]
pub(crate) struct Replaced {
    pub(crate) oid: Oid,
    pub(crate) earlier: Earlier,
}

/// A savepoint: how long the log was, and how much was pending.
#[derive(Clone, Copy)]
pub(crate) struct Mark {
    pub(crate) log: usize,
    pub(crate) extent: Extent,
}

/// How many bytes two texts have in common at their beginnings.
fn common_front(old: &[u8], new: &[u8]) -> usize
    ensures old { result ≤ length old.now }
    ensures new { result ≤ length new.now }
    ensures common { take result old.now ≡ take result new.now }
{
    let most = old.len().min(new.len());
    let mut count = 0;
    while count < most && old[count] == new[count] {
        count += 1;
    }
    count
}

/// How many bytes two texts have in common at their ends.
fn common_end(old: &[u8], new: &[u8]) -> usize
    ensures old { result ≤ length old.now }
    ensures new { result ≤ length new.now }
    ensures common { drop (length old.now - result) old.now ≡ drop (length new.now - result) new.now }
{
    let most = old.len().min(new.len());
    let mut count = 0;
    while count < most && old[old.len() - count - 1] == new[new.len() - count - 1] {
        count += 1;
    }
    count
}

/// What has to be put into the new bytes to have the old ones.
#[tactic(auto, using(crate::proofs::Cuts::cut_undone))]
fn cut(alloc: Global, old: &[u8], new: &[u8]) -> Result<Earlier, AllocError>
    ensures { IfOk result (λ earlier. undone earlier (Held new.now) ≡ Held old.now) }
{
    let at = common_front(old, new);
    let old = &old[at..];
    let new = &new[at..];
    let end = common_end(old, new);
    let gone = Text8::from_slice(alloc, &old[..old.len() - end])?;
    let length = new.len() - end;
    Ok(Earlier::Cut { at, length, gone })
}

/// What leads from an object's later content to the earlier one.
pub(crate) fn earlier_than(
    alloc: Global,
    earlier: &Content,
    later: &Content,
) -> Result<Earlier, AllocError>
    ensures { IfOk result (λ found. undone found later.now ≡ earlier.now) }
{
    match earlier {
        Content::Absent => Ok(Earlier::Whole(Content::Absent)),
        Content::Held(old) => match later {
            Content::Absent => Ok(Earlier::Whole(earlier.clone()?)),
            Content::Held(new) => cut(alloc, old.as_slice(), new.as_slice()),
        },
    }
}

/// Bytes with others in the place of a piece of them.
#[tactic(auto, using(crate::proofs::Cuts::spliced_at))]
fn spliced(
    alloc: Global,
    bytes: &[u8],
    at: usize,
    length: usize,
    gone: &[u8],
) -> Result<Text8, AllocError>
    ensures { IfOk result (λ text. text ≡ take at bytes.now ++ (gone.now ++ drop (at + length) bytes.now)) }
{
    let front = at.min(bytes.len());
    let rest = &bytes[front..];
    let skipped = length.min(rest.len());
    let rest = &rest[skipped..];
    let count = front.saturating_add(gone.len()).saturating_add(rest.len());
    let mut text = Vec::with_capacity(alloc, count)?;
    text.extend_from_slice(&bytes[..front])?;
    text.extend_from_slice(gone)?;
    text.extend_from_slice(rest)?;
    Ok(Text8::from_vec(text))
}

/// The content before this one.
pub(crate) fn undo(alloc: Global, earlier: &Earlier, now: &Content) -> Result<Content, AllocError>
    ensures { IfOk result (λ content. content ≡ undone earlier.now now.now) }
{
    match earlier {
        Earlier::Whole(content) => content.clone(),
        Earlier::Cut { at, length, gone } => match now {
            Content::Absent => Ok(Content::Absent),
            Content::Held(bytes) => {
                let text = spliced(alloc, bytes.as_slice(), *at, *length, gone.as_slice())?;
                Ok(Content::Held(text))
            }
        },
    }
}
