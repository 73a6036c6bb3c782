//! The journal, and what each session is still to be told of it.

ghost use Rattle.std.specs.Prelude.{◌≡◌, ◌<◌, ◌≤◌, ◌+◌, ◌-◌, ◌^◌, ◌++◌, ◌∷◌, [], ℕ, IfOk, OnErr, OnOk, drop, false, filter, if◌then◌else◌, length, not, option_to_list, slice_get, slice_set, true, vec_capacity};
ghost use Rattle.std.specs.List.{filter_map, list_any};
ghost use Rattle.std.specs.Option.{option_map};
ghost use Rattle.zodb_core.specs.Machine.{is_news_for, is_open_in, is_switch, news_of, session_limit, told_of};
ghost use Rattle.zodb_core.specs.Telling.{commit_at, noted};

use crate::journal::JournalEntry;
use crate::news::{NEWS_LIMIT, commit_in, entries_behind, has_news, is_news_for, is_switch};
use crate::session::{HubSession, is_open};
use invalidation_queue::Queue;
use std::alloc::{AllocError, Global};
use std::marker::Model;
use zb_ids::ListOf;
use zb_model::{News, NewsCommit};

/// What happened to the list since the hub was made, and the sessions with what each is still to be told of it.
/// Contracts see the entries, the room for them, and the sessions of the machine.
#[derive(Drop)]
pub(crate) struct SessionJournal {
    /// What happened.
    items: Vec<JournalEntry>,
    /// How many entries there are up to the last pack.
    switched: u64,
    /// The sessions, by their numbers.
    kept: Vec<HubSession>,
}

impl Model for SessionJournal {
    ghost use Rattle.std.specs.Prelude.{map, vec_capacity};
    ghost use Rattle.zodb_core.specs.Telling.{JournalKeeps, JournalState, session_seen};

    ghost Value = { JournalState };

    ghost view = { λ a. record {
      entries = a.items.items;
      capacity = vec_capacity a.items;
      sessions = map session_seen a.kept.items;
    } };

    ghost invariant = { λ a. JournalKeeps a.items.items a.switched a.kept.items };
}

/// Puts the place of an entry behind those of which a session is to be told, where it is open and the entry is news
/// for it.
fn note(session: &mut HubSession, number: u32, place: u64, entry: &JournalEntry)
    requires { place < 2 ^ 64 - 1 }
    ensures { session.new ≡ noted number place entry.now session.old }
{
    if session.is_open && is_news_for(number, entry) {
        session.untold.push(place);
        session.newest = place + 1;
    }
}

/// Puts the place of an entry behind those of which the sessions are to be told. It takes no memory.
fn note_all(sessions: &mut [HubSession], place: u64, entry: &JournalEntry)
    requires few { length sessions.old ≤ session_limit }
    requires within { place < 2 ^ 64 - 1 }
    ensures each { (k : ℕ) → slice_get sessions.new k ≡ option_map (noted k place entry.now) (slice_get sessions.old k) }
    ensures count { length sessions.new ≡ length sessions.old }
{
    for number in 0..sessions.len() {
        note(&mut sessions[number], number as u32, place, entry);
    }
}

/// How many entries there are up to the last pack, once an entry stands at a place.
fn last_switch(switched: u64, place: u64, entry: &JournalEntry) -> u64
    requires within { place < 2 ^ 64 - 1 }
    ensures { result ≡ (if is_switch entry.now then place + 1 else switched) }
{
    if is_switch(entry) {
        place + 1
    } else {
        switched
    }
}

/// Puts an entry behind the others, for which there is room.
fn put_entry(items: &mut Vec<JournalEntry>, entry: JournalEntry)
    requires room { length items.old.items < vec_capacity items.old }
    ensures { items.new.items ≡ items.old.items ++ entry ∷ [] }
{
    let _ = items.push(entry);
}

/// What a session is told of the entry at a place. The one error is want of memory.
fn commit_at(entries: &[JournalEntry], place: u64) -> Result<Option<NewsCommit>, AllocError>
    ensures { IfOk result (λ commit. commit ≡ commit_at entries.now place) }
{
    match entries.get(place as usize) {
        Some(entry) => commit_in(entry),
        None => Ok(None),
    }
}

/// Puts the commit at a place of the journal behind others, if it is one. The one error is want of memory.
fn put_commit(
    commits: &mut ListOf<NewsCommit>,
    entries: &[JournalEntry],
    place: u64,
) -> Result<(), AllocError>
    ensures { OnOk result (commits.new ≡ commits.old ++ option_to_list (commit_at entries.now place)) }
{
    if let Some(commit) = commit_at(entries, place)? {
        commits.push(commit)?;
    }
    Ok(())
}

/// The commits at some places of the journal. The one error is want of memory.
fn commits_at(
    alloc: Global,
    entries: &[JournalEntry],
    places: &Queue,
) -> Result<ListOf<NewsCommit>, AllocError>
    ensures { IfOk result (λ commits. commits ≡ filter_map (commit_at entries.now) places.now.numbers) }
{
    let mut commits = ListOf::new(alloc);
    for i in 0..places.len() {
        let Some(place) = places.item(i) else {
            continue;
        };
        put_commit(&mut commits, entries, place)?;
    }
    Ok(commits)
}

/// What a session is told of these places. The one error is want of memory.
fn news_at(
    alloc: Global,
    entries: &[JournalEntry],
    places: &Queue,
    packed: bool,
) -> Result<News, AllocError>
    ensures { IfOk result (λ news. news ≡ record {
      forget = places.now.forgotten;
      packed = packed;
      commits = if places.now.forgotten then [] else filter_map (commit_at entries.now) places.now.numbers;
    }) }
{
    if places.forgotten() {
        return Ok(News {
            forget: true,
            packed,
            commits: ListOf::new(alloc),
        });
    }
    Ok(News {
        forget: false,
        packed,
        commits: commits_at(alloc, entries, places)?,
    })
}

impl SessionJournal {
    /// Nothing happened, and there are no sessions. It takes no memory.
    pub(crate) fn new(alloc: Global) -> SessionJournal
        ensures entries { result.entries ≡ [] }
        ensures sessions { result.sessions ≡ [] }
    {
        SessionJournal {
            items: Vec::new(alloc),
            switched: 0,
            kept: Vec::new(alloc),
        }
    }

    /// What happened.
    pub(crate) fn entries(&self) -> &[JournalEntry]
        ensures { result.now ≡ self.now.entries }
    {
        self.items.as_slice()
    }

    /// How many entries there are.
    pub(crate) fn len(&self) -> u64
        ensures { result ≡ length self.now.entries }
    {
        self.items.len() as u64
    }

    /// How many sessions there are.
    pub(crate) fn count(&self) -> u32
        ensures { result ≡ length self.now.sessions }
    {
        self.kept.len() as u32
    }

    /// Whether a session is open.
    pub(crate) fn is_open(&self, number: u32) -> bool
        ensures { result ≡ is_open_in self.now.sessions number }
    {
        is_open(self.kept.as_slice(), number)
    }

    /// Takes the room for one entry. The one error is want of memory.
    pub(crate) fn reserve(&mut self) -> Result<(), AllocError>
        ensures room { OnOk result (length self.new.entries < self.new.capacity) }
        ensures fits { OnOk result (length self.new.entries < 2 ^ 64 - 1) }
        ensures entries { self.new.entries ≡ self.old.entries }
        ensures sessions { self.new.sessions ≡ self.old.sessions }
        ensures kept { self.old.capacity ≤ self.new.capacity }
    {
        self.items.reserve(1)
    }

    /// Puts an entry behind the others, for which there is room. Each open session for which it is news is to be told
    /// of it from then on. It takes no memory.
    pub(crate) fn push(&mut self, entry: JournalEntry)
        requires room { length self.old.entries < self.old.capacity }
        ensures entries { self.new.entries ≡ self.old.entries ++ entry ∷ [] }
        ensures sessions { self.new.sessions ≡ self.old.sessions }
    {
        let place = self.items.len() as u64;
        note_all(&mut self.kept, place, &entry);
        self.switched = last_switch(self.switched, place, &entry);
        put_entry(&mut self.items, entry);
    }

    /// Puts a session behind the others, which is to be told of what happens from then on. It takes the room for that;
    /// the one error is want of memory, and then nothing has changed.
    pub(crate) fn open(&mut self, is_open: bool) -> Result<(), AllocError>
        requires few { length self.old.sessions < session_limit }
        ensures ok { OnOk result (self.new.sessions ≡ self.old.sessions
            ++ record { is_open = is_open; told = length self.old.entries } ∷ []) }
        ensures err { OnErr result (self.new.sessions ≡ self.old.sessions) }
        ensures entries { self.new.entries ≡ self.old.entries }
        ensures capacity { self.new.capacity ≡ self.old.capacity }
    {
        let alloc = *self.kept.allocator();
        let untold = Queue::with_capacity(alloc, NEWS_LIMIT)?;
        let told = self.len();
        self.kept.push(HubSession {
            is_open,
            told,
            untold,
            newest: told,
        })?;
        Ok(())
    }

    /// Whether a session that is open and was told so many entries was told of all of which it is to be told.
    fn was_told(&self, number: u32, told: u64) -> bool
        ensures { result ≡ true → list_any (is_news_for number) (drop told self.now.entries) ≡ false }
    {
        if number as usize >= self.kept.len() {
            return false;
        }
        let session = &self.kept[number as usize];
        session.is_open && session.newest <= told
    }

    /// Whether there is news for a session that was told so many entries. An open session's own entries behind the
    /// last news aren't looked at.
    pub(crate) fn has_news(&self, number: u32, told: u64) -> bool
        ensures { result ≡ list_any (is_news_for number) (drop told self.now.entries) }
    {
        if self.was_told(number, told) {
            return false;
        }
        has_news(entries_behind(self.entries(), told), number)
    }

    /// What an open session is to be told. It takes no more time than what is told. The one error is want of memory.
    pub(crate) fn news(&self, alloc: Global, number: u32) -> Result<News, AllocError>
        requires is_open { is_open_in self.now.sessions number ≡ true }
        ensures { IfOk result (λ news. news ≡ news_of
            (filter (is_news_for number) (drop (told_of number self.now.sessions) self.now.entries))) }
    {
        let session = &self.kept[number as usize];
        news_at(
            alloc,
            self.items.as_slice(),
            &session.untold,
            session.told < self.switched,
        )
    }

    /// An open session was told all that happened. It takes no memory.
    pub(crate) fn tell(&mut self, number: u32)
        requires is_open { is_open_in self.old.sessions number ≡ true }
        ensures sessions { self.new.sessions ≡ slice_set self.old.sessions number
            (record { is_open = true; told = length self.old.entries }) }
        ensures entries { self.new.entries ≡ self.old.entries }
        ensures capacity { self.new.capacity ≡ self.old.capacity }
    {
        let told = self.len();
        let session = &mut self.kept[number as usize];
        session.told = told;
        session.untold.clear();
    }

    /// Closes an open session. It takes no memory.
    pub(crate) fn close(&mut self, number: u32)
        requires is_open { is_open_in self.old.sessions number ≡ true }
        ensures sessions { self.new.sessions ≡ slice_set self.old.sessions number
            (record { is_open = false; told = length self.old.entries }) }
        ensures entries { self.new.entries ≡ self.old.entries }
        ensures capacity { self.new.capacity ≡ self.old.capacity }
    {
        let told = self.len();
        let session = &mut self.kept[number as usize];
        session.is_open = false;
        session.told = told;
    }
}
