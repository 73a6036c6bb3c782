//! Reading lists of records loosely.

ghost use Rattle.std.specs.Prelude.{◌≡◌, length, IfOk};
ghost use Rattle.zeo_reading.specs.Loose.{behind_commit, behind_line, behind_revision, commit_in, commits_at, line_in, lines_at, revision_in, revisions_at, user_of_revision};

use std::alloc::{AllocError, Global};
use zb_ids::{ListOf, Text8, Tid};
use zb_model::{LogLine, NewsCommit, Revision};
use zeo_values::{
    behind, behind_bytes, behind_ids, behind_maybe_count, byte_in, bytes_in, id_in, maybe_count_in,
    oids_in,
};

/// A revision. It is copied.
fn revision_in(alloc: Global, bytes: &[u8]) -> Result<Revision, AllocError>
    ensures { IfOk result (λ revision. revision ≡ revision_in bytes.now) }
{
    let size = behind(11, bytes);
    let user = behind_maybe_count(size);
    Ok(Revision {
        tid: Tid(id_in(behind(1, bytes))),
        size: maybe_count_in(size),
        user: Text8::from_slice(alloc, bytes_in(user))?,
        description: Text8::from_slice(alloc, bytes_in(behind_bytes(user)))?,
    })
}

fn behind_revision(bytes: &[u8]) -> &[u8]
    ensures { result.now ≡ behind_revision bytes.now }
{
    let user = behind_maybe_count(behind(11, bytes));
    behind(1, behind_bytes(behind_bytes(user)))
}

/// The revisions of a list, from its first item on.
#[tactic(auto, using(zeo_values::specs::ItemLaws::items_on, zeo_values::specs::ItemLaws::items_off, zeo_values::specs::ItemLaws::items_over))]
pub(crate) fn revisions_at(alloc: Global, bytes: &[u8]) -> Result<ListOf<Revision>, AllocError>
    ensures { IfOk result (λ revisions. revisions ≡ revisions_at bytes.now) }
{
    let mut revisions = ListOf::new(alloc);
    let mut rest = bytes;
    for _i in 0..bytes.len() {
        if byte_in(0, rest) != 0x28 {
            return Ok(revisions);
        }
        revisions.push(revision_in(alloc, rest)?)?;
        rest = behind_revision(rest);
    }
    Ok(revisions)
}

/// A transaction of a log. It is copied.
fn line_in(alloc: Global, bytes: &[u8]) -> Result<LogLine, AllocError>
    ensures { IfOk result (λ line. line ≡ line_in bytes.now) }
{
    let user = behind(10, bytes);
    Ok(LogLine {
        tid: Tid(id_in(bytes)),
        user: Text8::from_slice(alloc, bytes_in(user))?,
        description: Text8::from_slice(alloc, bytes_in(behind_bytes(user)))?,
    })
}

fn behind_line(bytes: &[u8]) -> &[u8]
    ensures { result.now ≡ behind_line bytes.now }
{
    behind(1, behind_bytes(behind_bytes(behind(10, bytes))))
}

/// The transactions of a log, from its first item on.
#[tactic(auto, using(zeo_values::specs::ItemLaws::items_on, zeo_values::specs::ItemLaws::items_off, zeo_values::specs::ItemLaws::items_over))]
pub(crate) fn lines_at(alloc: Global, bytes: &[u8]) -> Result<ListOf<LogLine>, AllocError>
    ensures { IfOk result (λ lines. lines ≡ lines_at bytes.now) }
{
    let mut lines = ListOf::new(alloc);
    let mut rest = bytes;
    for _i in 0..bytes.len() {
        if byte_in(0, rest) != 0x43 {
            return Ok(lines);
        }
        lines.push(line_in(alloc, rest)?)?;
        rest = behind_line(rest);
    }
    Ok(lines)
}

/// A commit.
fn commit_in(alloc: Global, bytes: &[u8]) -> Result<NewsCommit, AllocError>
    ensures { IfOk result (λ commit. commit ≡ commit_in bytes.now) }
{
    Ok(NewsCommit {
        tid: Tid(id_in(bytes)),
        oids: oids_in(alloc, behind(10, bytes))?,
    })
}

fn behind_commit(bytes: &[u8]) -> &[u8]
    ensures { result.now ≡ behind_commit bytes.now }
{
    behind(1, behind_ids(behind(10, bytes)))
}

/// The commits of a list, from its first item on.
#[tactic(auto, using(zeo_values::specs::ItemLaws::items_on, zeo_values::specs::ItemLaws::items_off, zeo_values::specs::ItemLaws::items_over))]
pub(crate) fn commits_at(alloc: Global, bytes: &[u8]) -> Result<ListOf<NewsCommit>, AllocError>
    ensures { IfOk result (λ commits. commits ≡ commits_at bytes.now) }
{
    let mut commits = ListOf::new(alloc);
    let mut rest = bytes;
    for _i in 0..bytes.len() {
        if byte_in(0, rest) != 0x43 {
            return Ok(commits);
        }
        commits.push(commit_in(alloc, rest)?)?;
        rest = behind_commit(rest);
    }
    Ok(commits)
}
