//! Reading graphs.

ghost use Rattle.std.specs.Prelude.{◌≡◌, ◌<◌, ◌≤◌, drop, length, IfOk};
ghost use Rattle.pickle_reading.specs.Sound.{IsSoundState};
ghost use Rattle.pickle_reading.specs.Steps.{AnswersAs};
ghost use Rattle.pickle_reading.specs.Reading.{is_stop, root_of, graph_at};

use crate::error::PickleError;
use crate::state::{Item, State, first_room};
use crate::steps::take_step;
use pickle_graph::{Node, Pickle};
use pickle_ops::{Op, next_token};
use std::alloc::Global;

/// No graph has more nodes.
pub const NODE_LIMIT: u32 = 4_194_304;

/// Whether an opcode ends the pickle.
pub fn ends(op: Op) -> bool
    ensures { result ≡ is_stop op }
{
    match op {
        Op::Stop => true,
        _ => false,
    }
}

/// The graph at STOP.
fn finish(mut state: State<Node>, at: usize, next: usize) -> Result<(Pickle, usize), PickleError>
    requires { IsSoundState state }
    ensures graph { AnswersAs result (root_of at next state state.stack) }
    ensures place { IfOk result (λ r. r.1 ≡ next) }
{
    let Some(Item::Value(root)) = state.stack.pop() else {
        return Err(PickleError::Stack { at });
    };
    Ok((Pickle::new(state.nodes.into_list(), root), next))
}

/// The graph of at most `limit` nodes that stands at a place, and the place behind it.
pub(crate) fn read_within(
    alloc: Global,
    input: &[u8],
    at: usize,
    limit: u32,
) -> Result<(Pickle, usize), PickleError>
    ensures graph { AnswersAs result (graph_at limit at (drop at input.now)) }
    ensures behind { IfOk result (λ r. at < r.1) }
    ensures inside { IfOk result (λ r. r.1 ≤ length input.now) }
{
    let room = first_room(input.len().saturating_sub(at));
    let mut state: State<Node> = State::new(alloc, limit, room);
    let mut place = at;
    loop {
        let (token, next) = next_token(input, place)?;
        if ends(token.op) {
            return finish(state, place, next);
        }
        let bytes = &input[token.start..token.start + token.length];
        take_step(alloc, &mut state, token, place, bytes)?;
        place = next;
    }
}

/// The graph of the pickle that stands at a place of the input, and the place behind its STOP. Bytes
/// behind it are not looked at.
///
/// Nodes are numbered in the order of the tokens that make them, whether or not the root reaches
/// them. A token is refused at its place where none stands there (`Token`), where the stack does not
/// hold what it takes (`Stack`), where it gets what was not put (`Memo`), and where it has all that
/// but would make one node more than `NODE_LIMIT` (`TooLarge`); the first such token decides. Want of
/// memory answers `Memory`.
pub fn read_pickle(alloc: Global, input: &[u8], at: usize) -> Result<(Pickle, usize), PickleError>
    ensures graph { AnswersAs result (graph_at NODE_LIMIT at (drop at input.now)) }
    ensures behind { IfOk result (λ r. at < r.1) }
    ensures inside { IfOk result (λ r. r.1 ≤ length input.now) }
{
    read_within(alloc, input, at, NODE_LIMIT)
}
