//! Two pickles of one reader.

ghost use Rattle.std.specs.Prelude.{◌≡◌, ◌≤◌, ◌+◌, [], length, IfOk};
ghost use Rattle.pickle_reading.specs.declared.reading.TheConstants.{NODE_LIMIT};
ghost use Rattle.pickle_references.specs.References.{pair_of, references_in};
ghost use Rattle.pickle_reading.specs.Steps.{AnswersAs};

use crate::finding::Finding;
use crate::node_copy::copied_nodes;
use crate::part::{Part, read_part};
use crate::references::look_to_stop;
use crate::shapes::{Shape, is_class_shape};
use pickle_reading::{Memo, NODE_LIMIT, PickleError, first_room};
use std::alloc::Global;
use zb_ids::{ListOf, Oid};

/// Two pickles, one behind the other, of which the second may name what the first has put: its
/// graph begins with the nodes of the first.
#[derive(Drop)]
pub struct Pair {
    pub first: Part,
    pub second: Part,
}

/// What two pickles refer to: the oids of the first and then those of the second, whether the first
/// may be a class, as [`is_class`](crate::is_class) says, and the place behind both.
#[derive(Drop)]
pub struct PairReferences {
    pub oids: ListOf<Oid>,
    pub is_class: bool,
    pub behind: usize,
}

/// The two pickles at the start of the input. The reader of the second begins with the nodes and
/// the memo that the first left, as the unpickler of a file of several pickles does, and with an
/// empty stack; each of the two makes at most [`NODE_LIMIT`] nodes.
///
/// The persistent ids of both have a form, as [`references_of`](crate::references_of) says. The
/// answer is else the refusal of the first pickle, or that of the second, each by its first token
/// that has one.
pub fn read_pair(alloc: Global, input: &[u8]) -> Result<Pair, PickleError>
    ensures pair { AnswersAs result (pair_of input.now) }
    ensures inside { IfOk result (λ pair. pair.second.behind ≤ length input.now) }
{
    let (first, memo) = read_part(alloc, input, 0, ListOf::new(alloc), Memo::new(alloc))?;
    let nodes = copied_nodes(alloc, first.pickle.nodes())?;
    let (second, _) = read_part(alloc, input, first.behind, nodes, memo)?;
    Ok(Pair { first, second })
}

/// What the second pickle's reader keeps at its start, and the oids that the first named.
fn next_sight(alloc: Global, sight: Finding<Shape>, room: usize) -> (Finding<Shape>, ListOf<Oid>)
    requires few { length sight.state.nodes ≤ NODE_LIMIT }
    ensures limit { result.0.state.limit ≡ NODE_LIMIT + length sight.state.nodes }
    ensures nodes { result.0.state.nodes ≡ sight.state.nodes }
    ensures stack { result.0.state.stack ≡ [] }
    ensures memo { result.0.state.memo ≡ sight.state.memo }
    ensures oids { result.0.oids ≡ [] }
    ensures told { result.1 ≡ sight.oids }
{
    let limit = NODE_LIMIT + sight.state.nodes.len() as u32;
    sight.next(alloc, limit, room)
}

/// What the two pickles at the start of the input refer to, of which no graph is made. The answer
/// is that of [`read_pair`], as far as it is told.
pub fn references_of_pair(alloc: Global, input: &[u8]) -> Result<PairReferences, PickleError>
    ensures told { AnswersAs result (references_in (pair_of input.now)) }
    ensures inside { IfOk result (λ told. told.behind ≤ length input.now) }
{
    let mut first: Finding<Shape> = Finding::new(alloc, NODE_LIMIT, 0);
    let stop = look_to_stop(alloc, &mut first, input, 0)?;
    let is_class = is_class_shape(&first.state.nodes, stop.0);
    let room = first_room(input.len().saturating_sub(stop.1));
    let (mut second, oids) = next_sight(alloc, first, room);
    let end = look_to_stop(alloc, &mut second, input, stop.1)?;
    let mut all = oids.into_vec();
    all.extend_from_slice(second.oids.as_slice())?;
    Ok(PairReferences {
        oids: ListOf::from_vec(all),
        is_class,
        behind: end.1,
    })
}
