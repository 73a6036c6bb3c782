//! Putting the objects of a tree of the BTrees package: copies of what was read, objects to put and
//! their order, whether their records can be written and read back, and putting them.
#![tactic(auto)]

mod copying;
mod first;
mod items;
mod kept;
mod puts;
mod rungs;
mod storing;
mod straight;
mod straight_inner;
mod straight_lone;
mod trying;
mod writing;

pub use copying::{copy_pickle, with_branches, with_items};
pub use first::first_below;
pub use items::{has_key, has_value};
pub use kept::{Kept, KeptPuts};
pub use puts::{Put, Puts, in_order};
pub use rungs::Rungs;
pub use storing::store_all;
pub use trying::{keep_all, same_link};
pub use writing::{Family, plain_class};
