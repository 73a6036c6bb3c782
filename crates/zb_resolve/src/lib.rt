//! What the database makes of the classes of the BTrees package: two changes of one object are merged by its class.
//! And which objects a record names.
#![tactic(auto)]

mod answers;
mod counting;
mod merging;
mod reading;
mod rule;
mod state;
mod stock;

pub use stock::{StockRefs, StockResolver};
