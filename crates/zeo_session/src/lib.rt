//! A session serves its link: it reads the messages of a client, makes the steps that they name,
//! and sends their answers.
#![tactic(auto)]

mod answering;
mod asking;
mod ending;
mod serving;

pub use ending::SessionEnd;
pub use serving::serve_session;
