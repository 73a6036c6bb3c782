//! The store on a FileStorage file: its list lies in Main of a volume, and outlives a crash.
#![tactic(auto)]

mod first;
mod looking;
mod opening;
mod outlined;
mod packing;
mod preparing;
mod ready;
mod staged;
mod staging;
mod store;
mod switching;

pub use opening::open_with_hint;
pub use store::FileStore;
