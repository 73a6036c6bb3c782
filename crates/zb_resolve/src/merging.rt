//! The merge of three records.

ghost use Rattle.std.specs.Prelude.{◌≡◌, ◌++◌, [], ◌∷◌, true, Some, None, Ok, IfOk, IfSome};
ghost use Rattle.pickle_graph.specs.Graph.{IsGlobal};
ghost use Rattle.btree_family.specs.Classes.{class_seen};
ghost use Rattle.btree_family.specs.Buckets.{keys_of};
ghost use Rattle.bucket_state.specs.Writable.{AreWritable};
ghost use Rattle.pickle_writing.specs.Spelling.{spelling_of};
ghost use Rattle.bucket_state.specs.Written.{embedded_graph, leaf_graph};
ghost use Rattle.bucket_state.specs.Depths.{AreShallow, IsWrittenWhole};
ghost use Rattle.bucket_merge.specs.Merge.{merge_of};
ghost use Rattle.zb_model.specs.Merged.{IsMerged};
ghost use Rattle.pickle_graph.specs.Class.{is_class};
ghost use Rattle.zb_resolve.specs.Classes.{rule_seen, rule_of, IsGlobalRule};
ghost use Rattle.zb_resolve.specs.States.{leaf_in, are_alike, depth_of, depth_for, IsWritableState, IsShallowState};
ghost use Rattle.zb_resolve.specs.Answers.{AnswersFor};
ghost use Rattle.zb_resolve.specs.Resolution.{graph_bytes, state_bytes, leaf_state, leaf_merged, count_merged, leaves_merged, counts_merged, merged_states, unless_mixed, merged_by, merged_if, IsClassOf};
ghost use Rattle.zb_record.specs.Records.{record_of};
ghost use Rattle.zb_resolve.specs.States;

use crate::answers::refused;
use crate::counting::joint_count;
use crate::reading::read_readable;
use crate::rule::{Rule, rule_of};
use crate::state::{State, are_alike, count, leaf};
use btree_family::{Bucket, ClassRow, Kind};
use bucket_merge::merge;
use bucket_state::{
    flat_state, flat_states_are_spelled, lone_state, lone_states_are_spelled,
    states_keep_their_depth, write_bucket, write_embedded,
};
use pickle_graph::{Node, Pickle};
use pickle_writing::write_pickle;
use std::alloc::{AllocError, Global};
use zb_ids::{ListOf, Text8};
use zb_model::{ResolveError, Why};
use zb_record::ObjectRecord;

/// The state of a leaf: of a tree it stands within the tree's state.
fn leaf_pickle(alloc: Global, row: &ClassRow, leaf: &Bucket) -> Result<Pickle, AllocError>
    requires keys { AreWritable (keys_of leaf.now.items) }
    requires shallow { AreShallow (depth_of row.now.kind) leaf.now.items }
    requires class { IsGlobal row.now.module.now row.now.name.now }
    ensures state { IfOk result (λ graph. graph ≡ leaf_state (class_seen row.now) leaf.now) }
    ensures whole { IfOk result (λ graph. IsWrittenWhole graph) }
{
    let _items = leaf.items();
    states_keep_their_depth();
    match row.kind {
        Kind::Bucket | Kind::Set => write_bucket(alloc, leaf, row),
        Kind::Tree | Kind::TreeSet => write_embedded(alloc, leaf),
    }
}

/// The text of a graph that is not too deep.
#[tactic(auto, using(crate::proofs::Whole::whole_bytes))]
fn graph_bytes(alloc: Global, graph: &Pickle) -> Result<Text8, AllocError>
    requires { IsWrittenWhole graph.now }
    ensures { IfOk result (λ text. text ≡ graph_bytes graph.now) }
{
    match write_pickle(alloc, graph) {
        Ok(text) => Ok(text),
        Err(_) => Err(AllocError),
    }
}

/// A spelling as a pickle: PROTO 3, the spelling, and STOP.
fn pickle_of(alloc: Global, spelled: &Text8) -> Result<Text8, AllocError>
    ensures { IfOk result (λ text. text ≡ 0x80 ∷ 3 ∷ (spelled.now ++ 0x2e ∷ [])) }
{
    let mut text = Text8::from_slice(alloc, &[0x80, 3])?;
    text.extend_from_slice(spelled.as_slice())?;
    text.push(0x2e)?;
    Ok(text)
}

/// The spelling of the state of a tree of one leaf whose values are leaves of a graph, made without a
/// graph.
fn lone_spelling(alloc: Global, row: &ClassRow, leaf: &Bucket) -> Result<Option<Text8>, AllocError>
    ensures { IfOk result (λ found. IfSome found (λ text.
        spelling_of (embedded_graph leaf.now.items).nodes (embedded_graph leaf.now.items).root
        ≡ Ok text)) }
{
    lone_states_are_spelled();
    lone_state(alloc, leaf, row)
}

/// The same of a leaf: of a tree it stands within the tree's state.
fn flat_spelling(alloc: Global, row: &ClassRow, leaf: &Bucket) -> Result<Option<Text8>, AllocError>
    ensures { IfOk result (λ found. IfSome found (λ text.
        spelling_of (leaf_state (class_seen row.now) leaf.now).nodes
        (leaf_state (class_seen row.now) leaf.now).root ≡ Ok text)) }
{
    flat_states_are_spelled();
    match row.kind {
        Kind::Bucket | Kind::Set => flat_state(alloc, leaf, row),
        Kind::Tree | Kind::TreeSet => lone_spelling(alloc, row, leaf),
    }
}

/// The text of such a state.
#[tactic(auto, using(crate::proofs::Whole::spelled_bytes))]
fn flat_bytes(alloc: Global, row: &ClassRow, leaf: &Bucket) -> Result<Option<Text8>, AllocError>
    ensures { IfOk result (λ found. IfSome found
        (λ text. text ≡ graph_bytes (leaf_state (class_seen row.now) leaf.now))) }
{
    let Some(spelled) = flat_spelling(alloc, row, leaf)? else {
        return Ok(None);
    };
    Ok(Some(pickle_of(alloc, &spelled)?))
}

/// The text of the state of a leaf.
fn leaf_bytes(alloc: Global, row: &ClassRow, leaf: &Bucket) -> Result<Text8, AllocError>
    requires keys { AreWritable (keys_of leaf.now.items) }
    requires shallow { AreShallow (depth_of row.now.kind) leaf.now.items }
    requires class { IsGlobal row.now.module.now row.now.name.now }
    ensures { IfOk result (λ text. text ≡ graph_bytes (leaf_state (class_seen row.now) leaf.now)) }
{
    if let Some(text) = flat_bytes(alloc, row, leaf)? {
        return Ok(text);
    }
    let state = leaf_pickle(alloc, row, leaf)?;
    graph_bytes(alloc, &state)
}

/// The text of the state of the merge of three leaves.
fn merge_buckets(
    alloc: Global,
    row: &ClassRow,
    old: &Bucket,
    committed: &Bucket,
    stored: &Bucket,
) -> Result<Text8, ResolveError>
    requires old { AreWritable (keys_of old.now.items) }
    requires committed { AreWritable (keys_of committed.now.items) }
    requires stored { AreWritable (keys_of stored.now.items) }
    requires committed_depth { AreShallow (depth_of row.now.kind) committed.now.items }
    requires stored_depth { AreShallow (depth_of row.now.kind) stored.now.items }
    requires class { IsGlobal row.now.module.now row.now.name.now }
    ensures state { AnswersFor result
        (state_bytes (leaf_merged (class_seen row.now) (merge_of old.now committed.now stored.now))) }
{
    match merge(alloc, old, committed, stored) {
        Ok(leaf) => {
            let state = leaf_bytes(alloc, row, &leaf)?;
            Ok(state)
        }
        Err(refusal) => Err(refused(alloc, refusal)),
    }
}

/// The text of the state of the merge of three objects of a class of BTrees.
fn merge_leaves(
    alloc: Global,
    row: &ClassRow,
    old: &State,
    committed: &State,
    stored: &State,
) -> Result<Text8, ResolveError>
    requires old { IsWritableState old.now }
    requires committed { IsWritableState committed.now }
    requires stored { IsWritableState stored.now }
    requires committed_depth { IsShallowState (depth_of row.now.kind) committed.now }
    requires stored_depth { IsShallowState (depth_of row.now.kind) stored.now }
    requires class { IsGlobal row.now.module.now row.now.name.now }
    ensures state { AnswersFor result (state_bytes (leaves_merged (class_seen row.now)
        (States.leaf_in old.now) (States.leaf_in committed.now) (States.leaf_in stored.now))) }
{
    let Some(a) = leaf(old) else {
        return Err(ResolveError::Refused(Why::NotEmbedded));
    };
    let Some(b) = leaf(committed) else {
        return Err(ResolveError::Refused(Why::NotEmbedded));
    };
    let Some(c) = leaf(stored) else {
        return Err(ResolveError::Refused(Why::NotEmbedded));
    };
    merge_buckets(alloc, row, a, b, c)
}

/// The pickle of a number.
#[tactic(auto, using(crate::proofs::Whole::number_whole))]
fn number_pickle(alloc: Global, number: i128) -> Result<Pickle, AllocError>
    ensures state { IfOk result (λ graph. graph ≡ leaf_graph (Node.Number number)) }
    ensures whole { IfOk result (λ graph. IsWrittenWhole graph) }
{
    let mut nodes = Vec::new(alloc);
    nodes.push(Node::Number(number))?;
    Ok(Pickle::new(ListOf::from_vec(nodes), 0))
}

/// The text of the state of a counter that has come to a number.
fn count_bytes(alloc: Global, count: Option<i128>) -> Result<Text8, ResolveError>
    ensures state { AnswersFor result (state_bytes (count_merged count)) }
{
    let Some(number) = count else {
        return Err(ResolveError::Refused(Why::Overflow));
    };
    let state = number_pickle(alloc, number)?;
    let text = graph_bytes(alloc, &state)?;
    Ok(text)
}

/// The text of the state of the merge of three counters.
fn merge_counts(
    alloc: Global,
    old: &State,
    committed: &State,
    stored: &State,
) -> Result<Text8, ResolveError>
    ensures state { AnswersFor result (state_bytes (counts_merged
        (States.count_in old.now) (States.count_in committed.now) (States.count_in stored.now))) }
{
    let Some(a) = count(old) else {
        return Err(ResolveError::Refused(Why::NotEmbedded));
    };
    let Some(b) = count(committed) else {
        return Err(ResolveError::Refused(Why::NotEmbedded));
    };
    let Some(c) = count(stored) else {
        return Err(ResolveError::Refused(Why::NotEmbedded));
    };
    count_bytes(alloc, joint_count(a, b, c))
}

/// The text of the state of the merge of three objects.
fn merge_states(
    alloc: Global,
    rule: Rule,
    old: &State,
    committed: &State,
    stored: &State,
) -> Result<Text8, ResolveError>
    requires old { IsWritableState old.now }
    requires committed { IsWritableState committed.now }
    requires stored { IsWritableState stored.now }
    requires committed_depth { IsShallowState (depth_for (rule_seen rule)) committed.now }
    requires stored_depth { IsShallowState (depth_for (rule_seen rule)) stored.now }
    requires class { IsGlobalRule rule }
    ensures state { AnswersFor result
        (state_bytes (unless_mixed (are_alike old.now committed.now stored.now)
        (merged_states (rule_seen rule) old.now committed.now stored.now))) }
{
    if !are_alike(old, committed, stored) {
        return Err(ResolveError::Refused(Why::Unreadable));
    }
    match rule {
        Rule::Family(row) => merge_leaves(alloc, row, old, committed, stored),
        Rule::Counter => merge_counts(alloc, old, committed, stored),
    }
}

/// The text of a record of a class that isn't too deep, and a state that is written.
fn object_bytes(alloc: Global, class: &Pickle, state: &Text8) -> Result<Text8, AllocError>
    requires { IsWrittenWhole class.now }
    ensures { IfOk result (λ text. text ≡ graph_bytes class.now ++ state.now) }
{
    let mut text = graph_bytes(alloc, class)?;
    text.extend_from_slice(state.as_slice())?;
    Ok(text)
}

/// The merge of three records by a rule, with the class of the stored one.
#[tactic(auto, using(crate::proofs::Whole::state_behind, crate::proofs::Whole::refused_behind))]
fn merge_by(
    alloc: Global,
    rule: Rule,
    class: Pickle,
    old: &[u8],
    committed: &[u8],
    stored: &[u8],
) -> Result<Text8, ResolveError>
    requires class { is_class class ≡ true }
    requires rule { IsGlobalRule rule }
    requires stored { IsClassOf class (record_of stored.now) }
    ensures { AnswersFor result (merged_by (rule_seen rule) class old.now committed.now stored.now) }
{
    let was = read_readable(alloc, rule, old)?;
    let mine = read_readable(alloc, rule, committed)?;
    let theirs = read_readable(alloc, rule, stored)?;
    let state = merge_states(alloc, rule, &was, &mine, &theirs)?;
    let text = object_bytes(alloc, &class, &state)?;
    Ok(text)
}

/// The merge of three records by the rule of the stored one's class, with that class.
pub(crate) fn merge_with(
    alloc: Global,
    object: ObjectRecord,
    old: &[u8],
    committed: &[u8],
    stored: &[u8],
) -> Result<Text8, ResolveError>
    requires { IsClassOf object.class (record_of stored.now) }
    ensures { AnswersFor result (merged_if (rule_of object.class) object.class old.now committed.now stored.now) }
{
    match rule_of(&object.class) {
        Some(rule) => merge_by(alloc, rule, object.class, old, committed, stored),
        None => Err(ResolveError::Refused(Why::NoRule)),
    }
}
