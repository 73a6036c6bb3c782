//! The lines that answer the turns of a script. Each answer has one spelling.
#![tactic(auto)]

mod answer;
mod items;
mod keys;
mod lists;
mod objects;
mod refusal;
mod spelling;

pub use answer::{Answer, answer_line, answer_lines};
pub use lists::{log_line, revision_line};
pub use objects::shown_line;
