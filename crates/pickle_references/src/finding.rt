//! What tokens name, whatever is kept of a node.

ghost use Rattle.std.specs.Prelude.{◌≡◌, [], Ok, OnOk, IfErr, slice_get};
ghost use Rattle.pickle_reading.specs.Steps.{RefusesAs};
ghost use Rattle.pickle_references.specs.Naming.{named_on, named_by_token, noted, find};

use crate::references::Named;
use pickle_ops::{Op, Token};
use pickle_reading::{Item, Kept, NodeTable, PickleError, State, take_step};
use std::alloc::Global;
use zb_ids::{ListOf, Oid};

/// What is kept of a node, which tells what the node names as a persistent id.
pub(crate) trait Names: Kept {
    ghost use Rattle.std.specs.Prelude.{List, Option};
    ghost use Rattle.pickle_references.specs.declared.references.Named.{Named};

    ghost names: { List Self → Option Self → Named };

    /// What the node of a number names.
    fn name(nodes: &NodeTable<Self>, number: u32) -> Named
        ensures { result ≡ names nodes.now (slice_get nodes.now number) };
}

/// What was read, and the oids so far.
#[derive(Drop)]
pub(crate) struct Finding<L> {
    pub state: State<L>,
    pub oids: ListOf<Oid>,
}

impl<L: Drop> Finding<L> {
    /// What there is before the first token, with room for so many nodes.
    pub fn new(alloc: Global, limit: u32, room: usize) -> Finding<L>
        ensures limit { result.state.limit ≡ limit }
        ensures nodes { result.state.nodes ≡ [] }
        ensures stack { result.state.stack ≡ [] }
        ensures memo { result.state.memo ≡ [] }
        ensures oids { result.oids ≡ [] }
    {
        Finding {
            state: State::new(alloc, limit, room),
            oids: ListOf::new(alloc),
        }
    }

    /// What the next pickle's reader keeps before its first token, with this limit and room for so
    /// many nodes more, and the oids that were named.
    pub fn next(self, alloc: Global, limit: u32, room: usize) -> (Finding<L>, ListOf<Oid>)
        ensures limit { result.0.state.limit ≡ limit }
        ensures nodes { result.0.state.nodes ≡ self.state.nodes }
        ensures stack { result.0.state.stack ≡ [] }
        ensures memo { result.0.state.memo ≡ self.state.memo }
        ensures oids { result.0.oids ≡ [] }
        ensures told { result.1 ≡ self.oids }
    {
        let Finding { state, oids } = self;
        let State {
            limit: _,
            nodes,
            stack: _,
            memo,
        } = state;
        let next = Finding {
            state: State::behind(alloc, limit, nodes.widened(room), memo),
            oids: ListOf::new(alloc),
        };
        (next, oids)
    }
}

/// What the value on the top names.
fn name_top<L: Names>(state: &State<L>) -> Named
    ensures { result ≡ named_on L.names state.now.nodes state.now.stack }
{
    match state.stack.top() {
        Some(Item::Value(number)) => L::name(&state.nodes, number),
        _ => Named::Bad,
    }
}

/// What a token names: only that of a persistent id names something.
#[inline(always)]
fn name_by_token<L: Names>(op: Op, state: &State<L>) -> Named
    ensures { result ≡ named_by_token L.names op state.now.nodes state.now.stack }
{
    match op {
        Op::BinPersid => name_top(state),
        _ => Named::Weak,
    }
}

/// Keeps what was named.
fn note<L: Drop>(finding: &mut Finding<L>, at: usize, named: Named) -> Result<(), PickleError>
    ensures ok { OnOk result (noted at finding.old.state finding.old.oids named ≡ Ok finding.new) }
    ensures err { IfErr result (λ e.
        RefusesAs e (noted at finding.old.state finding.old.oids named)) }
{
    match named {
        Named::Strong(oid) => {
            finding.oids.push(oid)?;
            Ok(())
        }
        Named::Weak => Ok(()),
        Named::Bad => Err(PickleError::BadReference { at }),
    }
}

/// What the token at a place, whose argument has these bytes, does, and what its persistent id
/// names.
pub(crate) fn find<L: Names>(
    alloc: Global,
    finding: &mut Finding<L>,
    token: Token,
    at: usize,
    bytes: &[u8],
) -> Result<(), PickleError>
    ensures ok { OnOk result
        (find L.keeping L.names token.op at token.number bytes.now finding.old ≡ Ok finding.new) }
    ensures err { IfErr result (λ e.
        RefusesAs e (find L.keeping L.names token.op at token.number bytes.now finding.old)) }
{
    let named = name_by_token(token.op, &finding.state);
    take_step(alloc, &mut finding.state, token, at, bytes)?;
    note(finding, at, named)
}
