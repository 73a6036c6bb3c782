//! How a transaction is appended to the FileStorage file in Main, over any volume: it is voted, and
//! then finished or aborted. At every moment a crash leaves the file with the transaction or without
//! it.
#![tactic(auto)]

mod appending;
mod creating;

pub use appending::{abort, finish, vote};
pub use creating::create;
