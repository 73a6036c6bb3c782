//! The states that are merged.

ghost use Rattle.std.specs.Prelude.{◌≡◌, IfOk, slice_get};
ghost use Rattle.std.specs.Option.{option_copied, option_map};
ghost use Rattle.btree_family.specs.Classes.{class_seen};
ghost use Rattle.btree_family.specs.Buckets.{keys_of};
ghost use Rattle.bucket_state.specs.Answers.{AnswersFound};
ghost use Rattle.bucket_state.specs.Writable.{IsWritableTree};
ghost use Rattle.bucket_state.specs.Trees.{separators_of, tree_state_of};
ghost use Rattle.bucket_state.specs.States.{bucket_of};
ghost use Rattle.bucket_state.specs.Depths.{IsWrittenWhole, bucket_depth, leaf_depth};
ghost use Rattle.zb_resolve.specs.declared.state.State.TheVariants.{Leaf};
ghost use Rattle.zb_resolve.specs.Depths.{BucketsAreShallow, TreesAreShallow};
ghost use Rattle.zb_resolve.specs.Classes.{rule_seen};
ghost use Rattle.zb_resolve.specs.States.{leaf_or_inner, family_state, number_state, leaf_in, count_in, state_of, depth_of, depth_for, IsWritableState, IsShallowState, IsShallowTree, keys_in, are_alike};
ghost use Rattle.zb_resolve.specs.States;

use crate::rule::Rule;
use btree_family::{Bucket, ClassRow, Item, Key, Kind, is_same_kind};
use bucket_state::{
    Branch, Inner, StateError, TreeState, read_bucket, read_tree, states_keep_their_depth,
};
use pickle_graph::{Node, Pickle};
use std::alloc::Global;
use zb_ids::ListOf;

/// The state of an object that has a rule.
#[derive(Drop)]
pub(crate) enum State {
    /// The items of a bucket, of a set, or of a tree of one leaf that is no object of its own.
    Leaf(Bucket),
    /// A tree with others below it.
    Inner(Inner),
    /// What a counter has come to.
    Count(i128),
}

/// A leaf without items.
fn empty_leaf(alloc: Global) -> Bucket
    ensures { result ≡ States.empty_leaf }
{
    Bucket::new(ListOf::new(alloc), None)
}

/// A tree's state as one that is merged.
fn leaf_or_inner(alloc: Global, tree: TreeState) -> State
    requires writable { IsWritableTree tree }
    requires shallow { IsShallowTree tree }
    ensures state { result ≡ leaf_or_inner tree }
    ensures writable { IsWritableState result }
    ensures shallow { IsShallowState leaf_depth result }
{
    match tree {
        TreeState::Empty => State::Leaf(empty_leaf(alloc)),
        TreeState::Leaf(leaf) => State::Leaf(leaf),
        TreeState::Children(inner) => State::Inner(inner),
    }
}

/// What is read of a state that can be written is not too deep.
fn keep_depth(state: &Pickle)
    requires whole { IsWrittenWhole state.now }
    ensures bucket { BucketsAreShallow state.now }
    ensures tree { TreesAreShallow state.now }
{
    let _nodes = state.nodes();
    states_keep_their_depth();
}

/// The state of a bucket or a set.
fn read_leaf(alloc: Global, state: &Pickle, row: &ClassRow) -> Result<State, StateError>
    requires whole { IsWrittenWhole state.now }
    ensures state { AnswersFound result (option_map Leaf (bucket_of (class_seen row.now) state.now)) }
    ensures writable { IfOk result (λ state. IsWritableState state) }
    ensures shallow { IfOk result (λ state. IsShallowState bucket_depth state) }
{
    keep_depth(state);
    let bucket = read_bucket(alloc, state, row)?;
    Ok(State::Leaf(bucket))
}

/// The state of a tree.
fn read_any_tree(alloc: Global, state: &Pickle, row: &ClassRow) -> Result<State, StateError>
    requires whole { IsWrittenWhole state.now }
    ensures state { AnswersFound result (option_map leaf_or_inner (tree_state_of (class_seen row.now) state.now)) }
    ensures writable { IfOk result (λ state. IsWritableState state) }
    ensures shallow { IfOk result (λ state. IsShallowState leaf_depth state) }
{
    keep_depth(state);
    let tree = read_tree(alloc, state, row)?;
    Ok(leaf_or_inner(alloc, tree))
}

/// The state of a bucket, a set or a tree.
fn read_family(alloc: Global, state: &Pickle, row: &ClassRow) -> Result<State, StateError>
    requires whole { IsWrittenWhole state.now }
    ensures state { AnswersFound result (family_state (class_seen row.now) state.now) }
    ensures writable { IfOk result (λ state. IsWritableState state) }
    ensures shallow { IfOk result (λ state. IsShallowState (depth_of row.now.kind) state) }
{
    match row.kind {
        Kind::Bucket | Kind::Set => read_leaf(alloc, state, row),
        Kind::Tree | Kind::TreeSet => read_any_tree(alloc, state, row),
    }
}

/// The state of a counter.
fn read_count(state: &Pickle) -> Result<State, StateError>
    ensures state { AnswersFound result (number_state (slice_get state.now.nodes state.now.root)) }
    ensures writable { IfOk result (λ state. IsWritableState state) }
    ensures shallow { IfOk result (λ state. IsShallowState 0 state) }
{
    match state.nodes().get(state.root() as usize) {
        Some(Node::Number(number)) => Ok(State::Count(*number)),
        _ => Err(StateError::BadState),
    }
}

/// The state of an object that has a rule, where it is not too deep to write.
pub(crate) fn read_state(alloc: Global, rule: Rule, state: &Pickle) -> Result<State, StateError>
    requires whole { IsWrittenWhole state.now }
    ensures state { AnswersFound result (state_of (rule_seen rule) state.now) }
    ensures writable { IfOk result (λ state. IsWritableState state) }
    ensures shallow { IfOk result (λ state. IsShallowState (depth_for (rule_seen rule)) state) }
{
    match rule {
        Rule::Family(row) => read_family(alloc, state, row),
        Rule::Counter => read_count(state),
    }
}

/// The leaf, where the state is one.
pub(crate) fn leaf(state: &State) -> Option<&Bucket>
    ensures { option_copied result ≡ leaf_in state.now }
{
    match state {
        State::Leaf(leaf) => Some(leaf),
        State::Inner(_) => None,
        State::Count(_) => None,
    }
}

/// The count, where the state is one.
pub(crate) fn count(state: &State) -> Option<i128>
    ensures { result ≡ count_in state.now }
{
    match state {
        State::Leaf(_) => None,
        State::Inner(_) => None,
        State::Count(number) => Some(*number),
    }
}

/// The first key of items.
fn first_key(items: &[Item]) -> Option<&Key>
    ensures { States.kind_of_first (option_copied result) ≡ States.kind_of (keys_of items.now) }
{
    match items {
        [] => None,
        [first, ..] => Some(&first.key),
    }
}

/// The first separator.
fn first_separator(branches: &[Branch]) -> Option<&Key>
    ensures { States.kind_of_first (option_copied result) ≡ States.kind_of (separators_of branches.now) }
{
    match branches {
        [] => None,
        [first, ..] => Some(&first.key),
    }
}

/// A key of a state, if there is one. They are all of one kind.
fn some_key(state: &State) -> Option<&Key>
    ensures { States.kind_of_first (option_copied result) ≡ States.kind_of (keys_in state.now) }
{
    match state {
        State::Leaf(leaf) => first_key(leaf.items().as_slice()),
        State::Inner(inner) => first_separator(inner.tail.as_slice()),
        State::Count(_) => None,
    }
}

/// Whether two keys are of one kind, where both stand.
fn agree(one: Option<&Key>, other: Option<&Key>) -> bool
    ensures { result ≡ States.kinds_agree
        (States.kind_of_first (option_copied one.entry)) (States.kind_of_first (option_copied other.entry)) }
{
    match (one, other) {
        (Some(one), Some(other)) => is_same_kind(one, other),
        _ => true,
    }
}

/// Whether the keys of three states are of one kind.
pub(crate) fn are_alike(old: &State, committed: &State, stored: &State) -> bool
    ensures { result ≡ are_alike old.now committed.now stored.now }
{
    let a = some_key(old);
    let b = some_key(committed);
    let c = some_key(stored);
    agree(a, b) && agree(a, c) && agree(b, c)
}
