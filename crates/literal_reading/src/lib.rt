//! Literals read: bytes to the graph of the value that they spell.
#![tactic(auto)]

mod characters;
mod digits;
mod error;
mod exact;
mod form;
mod leaves;
mod numbers;
mod reading;
mod words;

pub use digits::read_digits;
pub use error::LiteralError;
pub use exact::literals_are_exact;
pub use reading::read_literal;
