//! Turns of clients: each line of a client becomes steps of the hub, and is answered.
#![tactic(auto)]

mod answers;
mod asking;
mod calls;
mod client;
mod clients;
mod errors;
mod joining;
mod last;
mod laws;
mod lines;
mod linked;
mod linked_asking;
mod linking;
mod member;
mod over;
mod questions_over;
mod reads_over;
mod requests;
mod settling;
mod steps;
mod trees;
mod turns;
mod waiting;

pub use client::Client;
pub use clients::Clients;
pub use errors::TurnError;
pub use last::last_turns;
pub use laws::{
    fronts_never_fall, new_numbers_are_new, reads_stay_below_the_front, refusals_have_their_cause,
    the_list_stays_a_database,
};
pub use linked::LinkedClient;
pub use member::{FarClient, Member};
