//! What a client asks that comes back: how far the list goes, and what was committed since.

ghost use Rattle.std.specs.Prelude.{◌≡◌, ◌<◌, ◌≤◌, List, Option, None, Some, IfOk, false, true, filter, length, map, nat_le, if◌then◌else◌};
ghost use Rattle.zb_ids.specs.declared.stamp.Stamp.{Stamp};
ghost use Rattle.zb_model.specs.Queries.{is_above, oids_of};
ghost use Rattle.zb_model.specs.Stores.{IsOnlyRead};
ghost use Rattle.zodb_core.specs.HubState.{MakesStep, StandsForMachine, StepsSafely, rules_of};
ghost use Rattle.zodb_core.specs.Machine.{Machine, is_open_in, news_limit};
ghost use Rattle.zodb_core.specs.Outcomes.{NoMemory, ReadingFailed, StoreFailed, outcome_of};
ghost use Rattle.zodb_core.specs.Steps.{commit_of};

use crate::hub::Hub;
use crate::reading::fault_reply;
use crate::reply::Reply;
use crate::request::Request;
use std::alloc::{AllocError, Global};
use zb_ids::{ListOf, Oid, Tid};
use zb_model::{NewsCommit, Refs, Resolver, Store, StoreError, Transaction};

/// How many transactions may be behind a tid.
const SINCE_LIMIT: u32 = 1000;

/// The objects that a transaction changes. The one error is want of memory.
fn oids_in(alloc: Global, transaction: &Transaction) -> Result<ListOf<Oid>, AllocError>
    ensures { IfOk result (λ oids. oids ≡ oids_of transaction.now) }
{
    let mut oids = ListOf::new(alloc);
    for change in transaction.changes.as_slice() {
        oids.push(change.oid)?;
    }
    Ok(oids)
}

/// The transactions behind a tid, with the objects that they change, unless they are too many.
fn commits_behind<St: Store>(
    alloc: Global,
    store: &mut St,
    tid: Tid,
) -> Result<Option<ListOf<NewsCommit>>, StoreError>
    requires whole { (St.state store.old).broken ≡ false }
    ensures found { St.told → IfOk result (λ commits. commits ≡
        (if nat_le (length (filter (is_above tid) (St.state store.old).list)) news_limit
        then Some (map commit_of (filter (is_above tid) (St.state store.old).list)) else None)) }
    ensures read { IsOnlyRead (St.state store.old) (St.state store.new) result }
{
    let mut commits = ListOf::new(alloc);
    let mut at = tid;
    for _i in 0..SINCE_LIMIT + 1 {
        let Some(transaction) = store.after(alloc, at)? else {
            return Ok(Some(commits));
        };
        let oids = oids_in(alloc, &transaction)?;
        at = transaction.tid;
        let Ok(()) = commits.push(NewsCommit { tid: at, oids }) else {
            return Err(StoreError::Memory);
        };
    }
    Ok(None)
}

impl<St: Store, R: Resolver, F: Refs> Hub<St, R, F> {
    /// The newest tid, and how many changes the list has. It takes no memory.
    pub(crate) fn last(&mut self, session: u32) -> Reply
        requires whole { self.old.store.broken ≡ false }
        requires is_open { is_open_in self.old.sessions session ≡ true }
        ensures step { St.told → (m : Machine) → StandsForMachine self.old m → (stamps : Option (List Stamp)) →
            MakesStep (rules_of R.rules F.named self.old) m session Request.Last
            result self.old self.new stamps stamps }
        ensures safe { StepsSafely false result self.old self.new }
        ensures memory { ¬ (outcome_of result ≡ NoMemory) }
        ensures unread { ¬ (outcome_of result ≡ ReadingFailed) }
        ensures unwritten { ¬ (outcome_of result ≡ StoreFailed) }
        ensures log { self.new.store.log ≡ self.old.store.log }
    {
        let tid = self.store.newest();
        Reply::Last {
            tid,
            changes: self.store.changes_to(tid),
        }
    }

    /// The commits behind a tid, where the list has as many changes up to it as a client had counted, and
    /// no more than 1,000 transactions are behind it.
    pub(crate) fn since(&mut self, alloc: Global, session: u32, tid: Tid, changes: u64) -> Reply
        requires whole { self.old.store.broken ≡ false }
        requires is_open { is_open_in self.old.sessions session ≡ true }
        ensures step { St.told → (m : Machine) → StandsForMachine self.old m → (stamps : Option (List Stamp)) →
            MakesStep (rules_of R.rules F.named self.old) m session (Request.Since tid changes)
            result self.old self.new stamps stamps }
        ensures safe { StepsSafely false result self.old self.new }
        ensures unwritten { ¬ (outcome_of result ≡ StoreFailed) }
        ensures log { self.new.store.log ≡ self.old.store.log }
    {
        if self.store.changes_to(tid) != changes {
            return Reply::Since {
                keep: false,
                commits: ListOf::new(alloc),
            };
        }
        match commits_behind(alloc, &mut self.store, tid) {
            Ok(Some(commits)) => Reply::Since {
                keep: true,
                commits,
            },
            Ok(None) => Reply::Since {
                keep: false,
                commits: ListOf::new(alloc),
            },
            Err(error) => fault_reply(error),
        }
    }
}
