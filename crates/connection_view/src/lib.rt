//! A client's view of the database.
#![tactic(auto)]

mod changing;
mod connection;
mod ending;
mod loads;
mod named;
mod reading;
mod waiting;
mod work;

pub use connection::{CACHED_OBJECTS, Connection};
pub use loads::{FrontView, Loaded, Loads};
