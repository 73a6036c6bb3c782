//! What a remote client and the database that serves it know of each other.
#![tactic(auto)]

mod laws;
mod standing;

pub use laws::{
    answers_are_kept, commits_deliver, entries_are_answers, fronts_deliver, less_serves,
    openings_serve, others_keep_clients, plain_steps_keep_clients, votes_serve_clients,
};
pub use standing::{MayChange, Standing};
