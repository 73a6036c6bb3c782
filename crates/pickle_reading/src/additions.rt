//! What a token adds to a node that stands already.

ghost use Rattle.std.specs.Prelude.{◌≡◌, [], ◌∷◌, ◌++◌, IfOk, Some};
ghost use Rattle.pickle_graph.specs.declared.node.Act.TheVariants.{Build};
ghost use Rattle.pickle_reading.specs.Additions.{pairs_of, append_acts, set_acts, acts_with, added};

use pickle_graph::{Act, Node};
use std::alloc::{AllocError, Global};
use zb_ids::ListOf;

/// An addition. Nodes are named by number.
#[derive(Drop)]
pub enum Addition {
    /// Items of a list.
    Values(ListOf<u32>),
    /// Keys and values of a dictionary.
    Pairs(ListOf<(u32, u32)>),
    /// The state of an object.
    State(u32),
}

/// The values as keys and values one after the other, or `None` where one is left over.
#[tactic(auto, using(crate::proofs::Pairs::pair_step, crate::proofs::Pairs::pair_end, crate::proofs::Pairs::pair_left))]
pub(crate) fn in_pairs(
    alloc: Global,
    values: &[u32],
) -> Result<Option<ListOf<(u32, u32)>>, AllocError>
    ensures { IfOk result (λ pairs. pairs ≡ pairs_of values.now) }
{
    let mut pairs: Vec<(u32, u32)> = Vec::with_capacity(alloc, values.len() / 2)?;
    let mut index = 0;
    while index < values.len() {
        if values.len() - index == 1 {
            return Ok(None);
        }
        pairs.push((values[index], values[index + 1]))?;
        index += 2;
    }
    Ok(Some(ListOf::from_vec(pairs)))
}

/// The acts, and behind them that each value is appended.
fn with_values(acts: ListOf<Act>, values: &[u32]) -> Result<ListOf<Act>, AllocError>
    ensures { IfOk result (λ all. all ≡ acts ++ append_acts values.now) }
{
    let mut all = acts.into_vec();
    for value in values {
        all.push(Act::Append(*value))?;
    }
    Ok(ListOf::from_vec(all))
}

/// The acts, and behind them that each key is set.
fn with_pairs(acts: ListOf<Act>, pairs: &[(u32, u32)]) -> Result<ListOf<Act>, AllocError>
    ensures { IfOk result (λ all. all ≡ acts ++ set_acts pairs.now) }
{
    let mut all = acts.into_vec();
    for pair in pairs {
        all.push(Act::Set(pair.0, pair.1))?;
    }
    Ok(ListOf::from_vec(all))
}

/// The acts, and behind them that a state is given.
fn with_state(mut acts: ListOf<Act>, state: u32) -> Result<ListOf<Act>, AllocError>
    ensures { IfOk result (λ all. all ≡ acts ++ Build state ∷ []) }
{
    acts.push(Act::Build(state))?;
    Ok(acts)
}

/// The items with others behind them.
fn joined<T: Copy>(items: ListOf<T>, more: ListOf<T>) -> Result<ListOf<T>, AllocError>
    ensures { IfOk result (λ all. all ≡ items ++ more) }
{
    if items.is_empty() {
        return Ok(more);
    }
    let mut all = items.into_vec();
    all.extend_from_slice(more.as_slice())?;
    Ok(ListOf::from_vec(all))
}

/// The node with an addition, or `None` where it takes none of that kind.
pub(crate) fn add(node: Node, addition: Addition) -> Result<Option<Node>, AllocError>
    ensures { IfOk result (λ changed. changed ≡ added addition (Some node)) }
{
    let changed = match node {
        Node::List(items) => match addition {
            Addition::Values(values) => Node::List(joined(items, values)?),
            _ => return Ok(None),
        },
        Node::Dict(pairs) => match addition {
            Addition::Pairs(new) => Node::Dict(joined(pairs, new)?),
            _ => return Ok(None),
        },
        Node::Object {
            callee,
            arguments,
            by_new,
            acts,
        } => Node::Object {
            callee,
            arguments,
            by_new,
            acts: with_addition(acts, addition)?,
        },
        _ => return Ok(None),
    };
    Ok(Some(changed))
}

/// The acts of an object with an addition.
fn with_addition(acts: ListOf<Act>, addition: Addition) -> Result<ListOf<Act>, AllocError>
    ensures { IfOk result (λ all. all ≡ acts_with addition acts) }
{
    match addition {
        Addition::Values(values) => with_values(acts, values.as_slice()),
        Addition::Pairs(pairs) => with_pairs(acts, pairs.as_slice()),
        Addition::State(state) => with_state(acts, state),
    }
}
