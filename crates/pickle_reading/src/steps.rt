//! What each token does to what a reader keeps.

ghost use Rattle.std.specs.Prelude.{◌≡◌, Ok, OnOk, IfErr};
ghost use Rattle.std.specs.Int.RustNames.{unsigned_abs};
ghost use Rattle.pickle_reading.specs.declared.state.Extent.TheVariants.{Marked};
ghost use Rattle.pickle_reading.specs.Stacks.{node_at};
ghost use Rattle.pickle_reading.specs.Steps.{RefusesAs, make, push, popped, unmarked, doubled, tuple_of, add_to, append_to, set_in, build_of, object_of, reference_of, put_of, get_of, act_of, step};

use crate::error::PickleError;
use crate::kept::Kept;
use crate::state::{Extent, Item, State};
use pickle_ops::{Op, Token};
use std::alloc::Global;

/// Makes a node of what stands on the stack, and pushes its number.
#[inline(never)]
fn make_node<L: Kept>(state: &mut State<L>, at: usize, node: L) -> Result<(), PickleError>
    ensures ok { OnOk result (make at node state.old ≡ Ok state.new) }
    ensures err { IfErr result (λ e. RefusesAs e (make at node state.old)) }
{
    let count = state.nodes.len();
    if count >= state.limit as usize {
        return Err(PickleError::TooLarge { at });
    }
    state.nodes.push(node)?;
    state.stack.push(Item::Value(count as u32))?;
    Ok(())
}

/// Makes a node that a token makes by itself, and pushes its number. It does what [`make_node`]
/// does, and has one caller so that it becomes a part of the loop over the tokens.
#[inline(always)]
fn make_leaf<L: Kept>(state: &mut State<L>, at: usize, node: L) -> Result<(), PickleError>
    ensures ok { OnOk result (make at node state.old ≡ Ok state.new) }
    ensures err { IfErr result (λ e. RefusesAs e (make at node state.old)) }
{
    let count = state.nodes.len();
    if count >= state.limit as usize {
        return Err(PickleError::TooLarge { at });
    }
    state.nodes.push(node)?;
    state.stack.push(Item::Value(count as u32))?;
    Ok(())
}

#[inline(always)]
fn push_item<L: Kept>(state: &mut State<L>, item: Item) -> Result<(), PickleError>
    ensures ok { OnOk result (push item state.old ≡ Ok state.new) }
    ensures err { IfErr result (λ e. RefusesAs e (push item state.old)) }
{
    state.stack.push(item)?;
    Ok(())
}

fn pop<L: Kept>(state: &mut State<L>, at: usize) -> Result<(), PickleError>
    ensures ok { OnOk result (popped at state.old state.old.stack ≡ Ok state.new) }
    ensures err { IfErr result (λ e. RefusesAs e (popped at state.old state.old.stack)) }
{
    match state.stack.pop() {
        Some(_) => Ok(()),
        None => Err(PickleError::Stack { at }),
    }
}

fn pop_mark<L: Kept>(alloc: Global, state: &mut State<L>, at: usize) -> Result<(), PickleError>
    ensures ok { OnOk result (unmarked at state.old (L.keeping.taken Marked state.old.stack) ≡ Ok state.new) }
    ensures err { IfErr result (λ e. RefusesAs e (unmarked at state.old (L.keeping.taken Marked state.old.stack))) }
{
    match L::taken(alloc, &mut state.stack, Extent::Marked)? {
        Some(_) => Ok(()),
        None => Err(PickleError::Stack { at }),
    }
}

fn double<L: Kept>(state: &mut State<L>, at: usize) -> Result<(), PickleError>
    ensures ok { OnOk result (doubled at state.old state.old.stack ≡ Ok state.new) }
    ensures err { IfErr result (λ e. RefusesAs e (doubled at state.old state.old.stack)) }
{
    let Some(Item::Value(value)) = state.stack.pop() else {
        return Err(PickleError::Stack { at });
    };
    state.stack.push(Item::Value(value))?;
    state.stack.push(Item::Value(value))?;
    Ok(())
}

fn make_tuple<L: Kept>(
    alloc: Global,
    state: &mut State<L>,
    at: usize,
    extent: Extent,
) -> Result<(), PickleError>
    ensures ok { OnOk result (tuple_of L.keeping at state.old (L.keeping.taken extent state.old.stack) ≡ Ok state.new) }
    ensures err { IfErr result (λ e. RefusesAs e (tuple_of L.keeping at state.old (L.keeping.taken extent state.old.stack))) }
{
    match L::taken(alloc, &mut state.stack, extent)? {
        Some(values) => {
            let node = L::tuple(&state.nodes, values);
            make_node(state, at, node)
        }
        None => Err(PickleError::Stack { at }),
    }
}

/// Adds to the node on the top.
fn add_to_top<L: Kept>(
    state: &mut State<L>,
    at: usize,
    addition: L::Addition,
) -> Result<(), PickleError>
    ensures ok { OnOk result (add_to L.keeping at state.old addition state.old.stack ≡ Ok state.new) }
    ensures err { IfErr result (λ e. RefusesAs e (add_to L.keeping at state.old addition state.old.stack)) }
{
    let Some(Item::Value(number)) = state.stack.pop() else {
        return Err(PickleError::Stack { at });
    };
    if !L::add(&mut state.nodes, number, addition)? {
        return Err(PickleError::Stack { at });
    }
    state.stack.push(Item::Value(number))?;
    Ok(())
}

fn append<L: Kept>(
    alloc: Global,
    state: &mut State<L>,
    at: usize,
    extent: Extent,
) -> Result<(), PickleError>
    ensures ok { OnOk result (append_to L.keeping at state.old (L.keeping.taken extent state.old.stack) ≡ Ok state.new) }
    ensures err { IfErr result (λ e. RefusesAs e (append_to L.keeping at state.old (L.keeping.taken extent state.old.stack))) }
{
    match L::taken(alloc, &mut state.stack, extent)? {
        Some(values) => add_to_top(state, at, L::values(values)),
        None => Err(PickleError::Stack { at }),
    }
}

fn set<L: Kept>(
    alloc: Global,
    state: &mut State<L>,
    at: usize,
    extent: Extent,
) -> Result<(), PickleError>
    ensures ok { OnOk result (set_in L.keeping at state.old (L.keeping.taken extent state.old.stack) ≡ Ok state.new) }
    ensures err { IfErr result (λ e. RefusesAs e (set_in L.keeping at state.old (L.keeping.taken extent state.old.stack))) }
{
    let Some(values) = L::taken(alloc, &mut state.stack, extent)? else {
        return Err(PickleError::Stack { at });
    };
    match L::pairs(alloc, values)? {
        Some(pairs) => add_to_top(state, at, pairs),
        None => Err(PickleError::Stack { at }),
    }
}

fn build<L: Kept>(state: &mut State<L>, at: usize) -> Result<(), PickleError>
    ensures ok { OnOk result (build_of L.keeping at state.old state.old.stack ≡ Ok state.new) }
    ensures err { IfErr result (λ e. RefusesAs e (build_of L.keeping at state.old state.old.stack)) }
{
    let Some(Item::Value(value)) = state.stack.pop() else {
        return Err(PickleError::Stack { at });
    };
    add_to_top(state, at, L::state(value))
}

fn make_object<L: Kept>(
    alloc: Global,
    state: &mut State<L>,
    at: usize,
    by_new: bool,
) -> Result<(), PickleError>
    ensures ok { OnOk result (object_of L.keeping by_new at state.old state.old.stack ≡ Ok state.new) }
    ensures err { IfErr result (λ e. RefusesAs e (object_of L.keeping by_new at state.old state.old.stack)) }
{
    let Some(Item::Value(arguments)) = state.stack.pop() else {
        return Err(PickleError::Stack { at });
    };
    let Some(Item::Value(callee)) = state.stack.pop() else {
        return Err(PickleError::Stack { at });
    };
    if !L::is_tuple(&state.nodes, arguments) {
        return Err(PickleError::Stack { at });
    }
    let node = L::object(alloc, callee, arguments, by_new);
    make_node(state, at, node)
}

fn refer<L: Kept>(state: &mut State<L>, at: usize) -> Result<(), PickleError>
    ensures ok { OnOk result (reference_of L.keeping at state.old state.old.stack ≡ Ok state.new) }
    ensures err { IfErr result (λ e. RefusesAs e (reference_of L.keeping at state.old state.old.stack)) }
{
    let Some(Item::Value(id)) = state.stack.pop() else {
        return Err(PickleError::Stack { at });
    };
    make_node(state, at, L::reference(id))
}

#[inline(always)]
fn put<L: Kept>(state: &mut State<L>, at: usize, number: u64) -> Result<(), PickleError>
    ensures ok { OnOk result (put_of at number state.old state.old.stack ≡ Ok state.new) }
    ensures err { IfErr result (λ e. RefusesAs e (put_of at number state.old state.old.stack)) }
{
    let Some(Item::Value(value)) = state.stack.top() else {
        return Err(PickleError::Stack { at });
    };
    state.memo.put(number, value)?;
    Ok(())
}

fn get<L: Kept>(state: &mut State<L>, at: usize, number: u64) -> Result<(), PickleError>
    ensures ok { OnOk result (get_of at state.old (node_at state.old.memo number) ≡ Ok state.new) }
    ensures err { IfErr result (λ e. RefusesAs e (get_of at state.old (node_at state.old.memo number))) }
{
    match state.memo.get(number) {
        Some(value) => push_item(state, Item::Value(value)),
        None => Err(PickleError::Memo { at }),
    }
}

/// What a token does whose opcode makes no node by itself.
#[inline(always)]
fn act<L: Kept>(
    alloc: Global,
    state: &mut State<L>,
    token: Token,
    at: usize,
) -> Result<(), PickleError>
    ensures ok { OnOk result (act_of L.keeping token.op at token.number state.old ≡ Ok state.new) }
    ensures err { IfErr result (λ e. RefusesAs e (act_of L.keeping token.op at token.number state.old)) }
{
    match token.op {
        Op::Proto => Ok(()),
        Op::Mark => push_item(state, Item::Mark),
        Op::Pop => pop(state, at),
        Op::PopMark => pop_mark(alloc, state, at),
        Op::Dup => double(state, at),
        Op::Tuple => make_tuple(alloc, state, at, Extent::Marked),
        Op::Tuple1 => make_tuple(alloc, state, at, Extent::Top(1)),
        Op::Tuple2 => make_tuple(alloc, state, at, Extent::Top(2)),
        Op::Tuple3 => make_tuple(alloc, state, at, Extent::Top(3)),
        Op::Append => append(alloc, state, at, Extent::Top(1)),
        Op::Appends => append(alloc, state, at, Extent::Marked),
        Op::SetItem => set(alloc, state, at, Extent::Top(2)),
        Op::SetItems => set(alloc, state, at, Extent::Marked),
        Op::Reduce => make_object(alloc, state, at, false),
        Op::NewObj => make_object(alloc, state, at, true),
        Op::Build => build(state, at),
        Op::BinPersid => refer(state, at),
        Op::BinPut | Op::LongBinPut => put(state, at, token.number.unsigned_abs()),
        Op::BinGet | Op::LongBinGet => get(state, at, token.number.unsigned_abs()),
        _ => Err(PickleError::Stack { at }),
    }
}

/// What the token at a place, whose argument has these bytes, does to a state.
///
/// It answers `Stack` where the stack doesn't hold what the token takes, `Memo` where it gets what was
/// not put, `TooLarge` where it would make one node too many, each with the place, and `Memory` where
/// there is none. Nothing is said of the state then.
#[inline(always)]
pub fn take_step<L: Kept>(
    alloc: Global,
    state: &mut State<L>,
    token: Token,
    at: usize,
    bytes: &[u8],
) -> Result<(), PickleError>
    ensures ok { OnOk result (step L.keeping token.op at token.number bytes.now state.old ≡ Ok state.new) }
    ensures err { IfErr result (λ e. RefusesAs e (step L.keeping token.op at token.number bytes.now state.old)) }
{
    match L::leaf(alloc, token, bytes)? {
        Some(node) => make_leaf(state, at, node),
        None => act(alloc, state, token, at),
    }
}
