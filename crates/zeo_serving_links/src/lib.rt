//! Links are accepted and served, all in one history: each has a session, which a worker serves, and
//! a second worker that sends the session's news.
#![tactic(auto)]

mod ending;
mod feeding;
mod lent;
mod serving;
mod task;
mod work;

pub use ending::{Served, ServingEnd};
pub use serving::serve;
