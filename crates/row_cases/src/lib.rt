//! Rows of parts: a call, what it is given, and the answer that is expected; how a file of rows is
//! read, its calls are made and what is said of them. The programs of rows stand on it.
#![tactic(auto)]

mod reading;
mod row;
mod row_error;
mod running;
mod tally;
mod texts;

pub use reading::{Unread, read_rows};
pub use row::{Row, bytes_of, number, trimmed};
pub use row_error::RowError;
pub use running::{Calls, report_all};
pub use tally::{Tally, Verdict, verdict_of};
pub use texts::{push_bytes, push_text8};
