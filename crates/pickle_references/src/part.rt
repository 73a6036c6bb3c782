//! What a pickle says.

ghost use Rattle.std.specs.Prelude.{◌≡◌, ◌+◌, ◌<◌, ◌≤◌, drop, length, slice_get, IfOk};
ghost use Rattle.pickle_reading.specs.declared.reading.TheConstants.{NODE_LIMIT};
ghost use Rattle.pickle_graph.specs.Graph.{AreNodes};
ghost use Rattle.pickle_references.specs.References.{oid_of, named_first, named_by, left_of, part_at};
ghost use Rattle.pickle_reading.specs.Sound.{IsSoundState, MemoBelow};
ghost use Rattle.pickle_reading.specs.Steps.{AnswersAs};

use crate::finding::{Finding, Names, find};
use crate::references::Named;
use crate::shapes::read_oid;
use pickle_graph::{Node, Pickle};
use pickle_ops::next_token;
use pickle_reading::{Item, Memo, NODE_LIMIT, NodeTable, PickleError, State, ends, first_room};
use std::alloc::Global;
use zb_ids::{ListOf, Oid};

/// A pickle with the oids that its persistent ids name, in the order of their tokens, and the place
/// behind it.
#[derive(Drop)]
pub struct Part {
    pub pickle: Pickle,
    pub oids: ListOf<Oid>,
    pub behind: usize,
}

/// The oid that the node of a number is.
fn name_oid(nodes: &NodeTable<Node>, number: u32) -> Named
    ensures { result ≡ oid_of (slice_get nodes.now number) }
{
    match nodes.get(number) {
        Some(Node::Bytes(bytes)) => read_oid(bytes.as_slice()),
        Some(Node::OldText(bytes)) => read_oid(bytes.as_slice()),
        _ => Named::Bad,
    }
}

/// What the first of these items names.
fn name_first(nodes: &NodeTable<Node>, items: &[u32]) -> Named
    ensures { result ≡ named_first nodes.now items.now }
{
    match items {
        [] => Named::Bad,
        [first, ..] => name_oid(nodes, *first),
    }
}

/// What the node of a number names as a persistent id.
fn name_node(nodes: &NodeTable<Node>, number: u32) -> Named
    ensures { result ≡ named_by nodes.now (slice_get nodes.now number) }
{
    match nodes.get(number) {
        Some(Node::Tuple(items)) => name_first(nodes, items.as_slice()),
        Some(Node::List(_)) => Named::Weak,
        _ => name_oid(nodes, number),
    }
}

impl Names for Node {
    ghost use Rattle.pickle_references.specs.References.{named_by};

    ghost names = { named_by };

    fn name(nodes: &NodeTable<Node>, number: u32) -> Named {
        name_node(nodes, number)
    }
}

/// What was found, at STOP.
fn finish(finding: Finding<Node>, at: usize, next: usize) -> Result<(Part, Memo), PickleError>
    requires { IsSoundState finding.state }
    ensures part { AnswersAs result (left_of at next finding finding.state.stack) }
    ensures place { IfOk result (λ r. r.0.behind ≡ next) }
    ensures nodes { IfOk result (λ r. r.0.pickle.nodes ≡ finding.state.nodes) }
    ensures memo { IfOk result (λ r. r.1 ≡ finding.state.memo) }
{
    let Finding { mut state, oids } = finding;
    let Some(Item::Value(root)) = state.stack.pop() else {
        return Err(PickleError::Stack { at });
    };
    let State {
        limit: _,
        nodes,
        stack: _,
        memo,
    } = state;
    let part = Part {
        pickle: Pickle::new(nodes.into_list(), root),
        oids,
        behind: next,
    };
    Ok((part, memo))
}

/// What the pickle at a place says, and the memo that it leaves. Its reader begins with the nodes
/// and the memo that the pickle before left, and an empty stack; at most [`NODE_LIMIT`] nodes more
/// are made.
pub(crate) fn read_part(
    alloc: Global,
    input: &[u8],
    at: usize,
    nodes: ListOf<Node>,
    memo: Memo,
) -> Result<(Part, Memo), PickleError>
    requires nodes { AreNodes nodes nodes }
    requires memo { MemoBelow (length nodes) memo }
    requires few { length nodes ≤ NODE_LIMIT }
    ensures part { AnswersAs result (part_at nodes memo at (drop at input.now)) }
    ensures memo { IfOk result (λ r. MemoBelow (length r.0.pickle.nodes) r.1) }
    ensures few { IfOk result (λ r. length r.0.pickle.nodes ≤ NODE_LIMIT + length nodes) }
    ensures behind { IfOk result (λ r. at < r.0.behind) }
    ensures inside { IfOk result (λ r. r.0.behind ≤ length input.now) }
{
    let room = first_room(input.len().saturating_sub(at));
    let limit = NODE_LIMIT + nodes.len() as u32;
    let mut finding = Finding {
        state: State::behind(alloc, limit, NodeTable::from_list(nodes, room), memo),
        oids: ListOf::new(alloc),
    };
    let mut place = at;
    loop {
        let (token, next) = next_token(input, place)?;
        if ends(token.op) {
            return finish(finding, place, next);
        }
        let bytes = &input[token.start..token.start + token.length];
        find(alloc, &mut finding, token, place, bytes)?;
        place = next;
    }
}
