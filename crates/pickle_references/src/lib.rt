//! What pickles refer to: the oids that their persistent ids name, read with a graph or without one,
//! and two pickles of one reader.
#![tactic(auto)]

mod finding;
mod laws;
mod node_copy;
mod pair;
mod part;
mod passing;
mod references;
mod shapes;

pub use laws::references_are_those_of_nodes;
pub use pair::{Pair, PairReferences, read_pair, references_of_pair};
pub use part::Part;
pub use references::references_of;
