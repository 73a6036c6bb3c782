//! What sessions are told of the journal.

ghost use Rattle.std.specs.Prelude.{◌≡◌, IfOk, drop, filter, length};
ghost use Rattle.std.specs.List.{filter_map, list_any};
ghost use Rattle.zodb_core.specs.Machine.{commit_in, is_news_for, is_switch, news_of};

use crate::journal::JournalEntry;
use std::alloc::{AllocError, Global};
use zb_ids::ListOf;
use zb_model::{News, NewsCommit};

/// How much a session can be told at once.
pub(crate) const NEWS_LIMIT: usize = 1000;

/// Whether a session is to be told of an entry: of each pack, and of each commit of another session.
pub(crate) fn is_news_for(session: u32, entry: &JournalEntry) -> bool
    ensures { result ≡ is_news_for session entry.now }
{
    match entry {
        JournalEntry::Commit {
            session: own,
            tid: _,
            oids: _,
        } => *own != session,
        JournalEntry::Packed { tid: _ } => true,
    }
}

/// Whether an entry is a pack.
pub(crate) fn is_switch(entry: &JournalEntry) -> bool
    ensures { result ≡ is_switch entry.now }
{
    match entry {
        JournalEntry::Commit {
            session: _,
            tid: _,
            oids: _,
        } => false,
        JournalEntry::Packed { tid: _ } => true,
    }
}

/// What a session is told of a commit. The one error is want of memory.
pub(crate) fn commit_in(entry: &JournalEntry) -> Result<Option<NewsCommit>, AllocError>
    ensures { IfOk result (λ commit. commit ≡ commit_in entry.now) }
{
    match entry {
        JournalEntry::Commit {
            session: _,
            tid,
            oids,
        } => Ok(Some(NewsCommit {
            tid: *tid,
            oids: oids.clone()?,
        })),
        JournalEntry::Packed { tid: _ } => Ok(None),
    }
}

/// The entries behind the first ones.
pub(crate) fn entries_behind(journal: &[JournalEntry], told: u64) -> &[JournalEntry]
    ensures { result.now ≡ drop told journal.now }
{
    if told >= journal.len() as u64 {
        return &[];
    }
    journal.split_at(told as usize).1
}

/// Whether there is an entry of which a session is to be told.
pub(crate) fn has_news(entries: &[JournalEntry], session: u32) -> bool
    ensures { result ≡ list_any (is_news_for session) entries.now }
{
    for entry in entries {
        if is_news_for(session, entry) {
            return true;
        }
    }
    false
}

/// Of how many entries a session is to be told.
fn count_news(entries: &[JournalEntry], session: u32) -> usize
    ensures { result ≡ length (filter (is_news_for session) entries.now) }
{
    let mut count = 0;
    for entry in entries {
        if is_news_for(session, entry) {
            count += 1;
        }
    }
    count
}

/// Whether there is a pack of which a session is to be told.
fn has_switch(entries: &[JournalEntry], session: u32) -> bool
    ensures { result ≡ list_any is_switch (filter (is_news_for session) entries.now) }
{
    for entry in entries {
        if is_news_for(session, entry) && is_switch(entry) {
            return true;
        }
    }
    false
}

/// The commits of which a session is to be told. The one error is want of memory.
fn gather_commits(
    alloc: Global,
    entries: &[JournalEntry],
    session: u32,
) -> Result<ListOf<NewsCommit>, AllocError>
    ensures { IfOk result (λ commits. commits ≡ filter_map commit_in (filter (is_news_for session) entries.now)) }
{
    let mut commits = ListOf::new(alloc);
    for entry in entries {
        if !is_news_for(session, entry) {
            continue;
        }
        if let Some(commit) = commit_in(entry)? {
            commits.push(commit)?;
        }
    }
    Ok(commits)
}

/// The news for a session that was told so many entries. The one error is want of memory.
pub(crate) fn gather_news(
    alloc: Global,
    journal: &[JournalEntry],
    told: u64,
    session: u32,
) -> Result<News, AllocError>
    ensures { IfOk result (λ news. news ≡ news_of (filter (is_news_for session) (drop told journal.now))) }
{
    let entries = entries_behind(journal, told);
    let packed = has_switch(entries, session);
    if count_news(entries, session) > NEWS_LIMIT {
        return Ok(News {
            forget: true,
            packed,
            commits: ListOf::new(alloc),
        });
    }
    Ok(News {
        forget: false,
        packed,
        commits: gather_commits(alloc, entries, session)?,
    })
}
