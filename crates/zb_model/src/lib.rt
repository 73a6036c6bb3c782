//! What a database is: a list of transactions, each a list of changes of objects. And what a store
//! promises that keeps one.
#![tactic(auto)]

mod creation;
mod data;
mod found;
mod lists;
mod new_transaction;
mod news;
mod oid_set;
mod packs;
mod pending;
mod plain;
mod refusal;
mod rules;
mod store;
mod store_error;
mod votable;

pub use creation::first_transaction;
pub use data::{Change, Content, Transaction};
pub use found::Found;
pub use lists::{LogLine, Revision};
pub use new_transaction::{NewChange, NewContent, NewTransaction};
pub use news::{News, NewsCommit};
pub use oid_set::OidSet;
pub use packs::{Copied, Packed};
pub use pending::{PendingCheck, PendingStore};
pub use plain::{change_of, content_at, newest_of, revision_before, serial_in};
pub use refusal::{Refusal, Why};
pub use rules::{NoRefs, NoRules, Refs, RefsError, ResolveError, Resolver};
pub use store::Store;
pub use store_error::StoreError;
pub use votable::{is_votable, is_well_formed};
