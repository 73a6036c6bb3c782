//! A store that keeps the plain list of its transactions, in memory.
#![tactic(auto)]

mod gathering;
mod making;
mod mapping;
mod packing;
mod walks;

pub use mapping::MappingStore;
