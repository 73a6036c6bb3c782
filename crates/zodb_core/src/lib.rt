//! The plain database with sessions: one list of transactions, and the requests that sessions make of
//! it, one step at a time.
#![tactic(auto)]

mod ending;
mod errors;
mod hub;
mod journal;
mod laws;
mod news;
mod oids;
mod open_pack;
mod pack_turns;
mod packing;
mod reading;
mod reply;
mod request;
mod session;
mod session_journal;
mod since;
mod step;
mod texts;
mod vote;
mod voting;
mod watching;

pub use errors::SessionRefusal;
pub use hub::{Hub, SESSION_LIMIT};
pub use journal::JournalEntry;
pub use laws::{
    counts_never_fall, current_votes_are_voted, free_steps_are_served, fronts_never_fall,
    histories_begin, histories_go_on, journal_is_full, lists_only_grow, machines_stay_sound,
    new_numbers_are_new, packs_keep_views, refusals_leave, replies_are_one, steps_are_answered,
    unread_steps_are_one,
};
pub use open_pack::{HubCopying, HubPack};
pub use reply::Reply;
pub use request::Request;
pub use vote::{HubVote, VotedEntry};
