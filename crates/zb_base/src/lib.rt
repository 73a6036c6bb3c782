//! What every other crate may stand on: counts of faults and what makes them rise, byte lists, and
//! lemmas on lists that several crates use. All but one function of it are definitions and lemmas,
//! in `specs/`.
#![tactic(auto)]

mod counts;

pub use counts::one_more;
