//! The index file in Hint, which says of Main up to some end what reading it would find: it is written,
//! closed and read. A file that is cut short, or whose gate isn't open, says nothing.
#![tactic(auto)]

mod closing;
mod counting;
mod entries;
mod laws;
mod pieces;
mod reading;
mod records;
mod starts;
mod writing;

pub use closing::close_hint;
pub use entries::{Head, Start};
pub use laws::{kept_files_are_honest, written_files_are_read};
pub use reading::read_hint;
pub use writing::write_hint;
