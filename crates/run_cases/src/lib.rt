//! Cases of whole runs: what a program is given, what is expected of each run, how a file of cases
//! is read, where an outcome first differs from what is expected, and what is said of it.
#![tactic(auto)]

mod case;
mod case_error;
mod draft;
mod fields;
mod memory;
mod outcome;
mod piece;
mod reading;
mod report;
mod run_draft;
mod telling;

pub use case::{After, Case, Each, Expectation, Left, Outside, Run};
pub use case_error::CaseError;
pub use memory::{main_of, spend, volume_with};
pub use outcome::{Difference, Outcome, are_replies, difference_of};
pub use reading::{Unread, read_cases};
pub use report::{Report, Tally, report_of};
pub use telling::{tell, tell_replies};
