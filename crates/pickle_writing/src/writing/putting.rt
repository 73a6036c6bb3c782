//! The numbers under which nodes are put.

ghost use Rattle.std.specs.Prelude.{◌≡◌, ◌<◌, length};
ghost use Rattle.pickle_writing.specs.Spelling.{put_number, Writes};
ghost use Rattle.pickle_writing.specs.Putting.{puts_of};

use super::{Puts, Writing, write_root};
use crate::error::WriteError;
use pickle_graph::Pickle;
use std::alloc::Global;
use std::marker::Model;

/// The nodes that a text puts in the memo, each with its number. Contracts see the nodes, the newest
/// first.
#[derive(Drop)]
pub struct PutNumbers {
    puts: Puts,
}

impl Model for PutNumbers {
    ghost use Rattle.std.specs.Prelude.{List, ℕ};

    ghost Value = { List ℕ };

    ghost view = { λ numbers. numbers.puts };
}

impl PutNumbers {
    /// The number under which a node is put, counted from 0 in the order of the puts, or `None` where it
    /// is not put.
    pub fn number(&self, node: u32) -> Option<u64>
        ensures { result ≡ put_number node self.now }
    {
        self.puts.number(node)
    }
}

/// The numbers of the nodes that [`spelling`](crate::spelling) of a node puts in the memo. It is `TooDeep`
/// where that is.
#[tactic(auto, using(crate::proofs::Putting::puts_ok, crate::proofs::Putting::puts_deep))]
pub fn put_numbers(alloc: Global, pickle: &Pickle, node: u32) -> Result<PutNumbers, WriteError>
    requires { node < length pickle.now.nodes }
    ensures { Writes result (puts_of pickle.now.nodes node) }
{
    let writing = write_root(alloc, pickle.nodes(), node)?;
    let Writing { text: _, puts } = writing;
    Ok(PutNumbers { puts })
}
