//! A walk over the leaves of a tree.

ghost use Rattle.std.specs.Prelude.{◌≡◌, ◌+◌, ◌-◌, ◌++◌, ◌∷◌, [], ◌<◌, ◌^◌, List, length, OnOk, IfOk, IfErr, MatchOption};
ghost use Rattle.btree_shapes.specs.Reading.{IsRooted};
ghost use Rattle.btree_shapes.specs.Spaces.{handed_on};
ghost use Rattle.btree_shapes.specs.Met.{ReadsFirst};
ghost use Rattle.btree_shapes.specs.declared.space.Call.{Call};
ghost use Rattle.btree_shapes.specs.declared.space.Call.TheVariants.{Read};
ghost use Rattle.btree_shapes.specs.Nodes.{objects_of, Holds};
ghost use Rattle.btree_shapes.specs.Ways.{Answers, IsRefusal};
ghost use Rattle.btree_maps.specs.Visits.{items_within, entered, left_of, entering, visited, cost, cost_of, met_by, met_entering, met_left, SameLength};

use crate::children::Children;
use crate::span::{Span, children_within};
use btree_family::Item;
use btree_shapes::{Entry, Node, Rooted, Space, TreeError, read_entry};
use std::alloc::{AllocError, Global};
use std::marker::Model;
use zb_ids::{ListOf, Oid};

/// What is left to visit of each open object, which contracts see the newest first.
#[derive(Drop)]
pub(crate) struct Lefts {
    list: Vec<Children>,
}

impl Model for Lefts {
    ghost use Rattle.std.specs.Prelude.{List, ℕ, reverse};

    ghost Value = { List (List ℕ) };

    ghost view = { λ lefts. reverse lefts.list.items };
}

impl Lefts {
    /// Nothing is left.
    pub(crate) fn new(alloc: Global) -> Lefts
        ensures { result ≡ [] }
    {
        Lefts {
            list: Vec::new(alloc),
        }
    }

    /// What is left of one more object.
    pub(crate) fn push(&mut self, left: Children) -> Result<(), AllocError>
        ensures { OnOk result (self.new ≡ left ∷ self.old) }
    {
        self.list.push(left)?;
        Ok(())
    }

    /// What is left of the newest object.
    pub(crate) fn pop(&mut self) -> Option<Children>
        ensures { MatchOption result ((self.old ≡ []) × (self.new ≡ [])) (λ left. self.old ≡ left ∷ self.new) }
    {
        self.list.pop()
    }
}

/// A walk: the open objects, what is left of each, and the items so far.
#[derive(Drop)]
pub(crate) struct Walk {
    pub way: Children,
    pub lefts: Lefts,
    pub items: ListOf<Item>,
}

/// The items, and copies of those whose keys are taken.
fn gather(span: &Span, more: &[Item], items: ListOf<Item>) -> Result<ListOf<Item>, AllocError>
    ensures { IfOk result (λ all. all ≡ items ++ items_within span.now more.now) }
{
    let mut all = items;
    for item in more {
        if span.takes(&item.key) {
            all.push(item.clone()?)?;
        }
    }
    Ok(all)
}

/// Visits an object that was read.
fn enter_node(
    alloc: Global,
    span: &Span,
    walk: Walk,
    oid: Oid,
    node: Node,
) -> Result<Walk, AllocError>
    requires room { length walk.way < 2 ^ 64 }
    ensures walk { IfOk result (λ entered_walk. entered_walk ≡ entered span.now oid walk node) }
    ensures room { IfOk result (λ entered_walk. length entered_walk.way < 2 ^ 64) }
{
    let Walk {
        mut way,
        mut lefts,
        items,
    } = walk;
    match node {
        Node::Lone(bucket) => {
            let items = gather(span, bucket.items().as_slice(), items)?;
            Ok(Walk { way, lefts, items })
        }
        Node::Leaf(bucket) => {
            let items = gather(span, bucket.items().as_slice(), items)?;
            Ok(Walk { way, lefts, items })
        }
        Node::Inner(inner) => {
            let children = children_within(alloc, &inner, span)?;
            way.push(oid)?;
            lefts.push(children)?;
            Ok(Walk { way, lefts, items })
        }
    }
}

/// Reads one more object, and visits it.
#[tactic(auto, using(crate::proofs::Walks::enter_twice, crate::proofs::Walks::enter_unread, crate::proofs::Walks::enter_bad_key, crate::proofs::Walks::enter_gives, crate::proofs::Walks::enter_less, crate::proofs::Walks::enter_same, btree_shapes::specs::MetLaws::first_start))]
fn enter<S: Space>(
    alloc: Global,
    space: &mut S,
    tree: &Rooted,
    fits: bool,
    span: &Span,
    walk: Walk,
    oid: Oid,
) -> Result<Walk, TreeError>
    requires rooted { IsRooted (S.contents space.old) tree.now }
    requires room { length walk.way < 2 ^ 64 }
    requires same { SameLength walk.way walk.lefts }
    ensures room { IfOk result (λ next. length next.way < 2 ^ 64) }
    ensures same { IfOk result (λ next. SameLength next.way next.lefts) }
    ensures gives { IfOk result (λ next. left_of fits span.now (objects_of (S.contents space.old) tree.now.root) next
        ≡ entering fits span.now (objects_of (S.contents space.old) tree.now.root) walk oid) }
    ensures less { IfOk result (λ next.
        cost_of span.now (objects_of (S.contents space.old) tree.now.root) next.way next.lefts
        < cost_of span.now (objects_of (S.contents space.old) tree.now.root) walk.way walk.lefts
        + cost span.now (2 ^ 64 - length walk.way) (objects_of (S.contents space.old) tree.now.root) oid) }
    ensures err { IfErr result (λ e.
        IsRefusal e (entering fits span.now (objects_of (S.contents space.old) tree.now.root) walk oid)) }
    ensures contents { S.contents space.new ≡ S.contents space.old }
    ensures met { S.told → ReadsFirst (met_entering span.now (objects_of (S.contents space.old) tree.now.root)
        walk.way walk.lefts oid) (S.log space.old) (S.log space.new) }
    ensures read { IfOk result (λ next. S.told → S.log space.new ≡ S.log space.old ++ Read oid ∷ []) }
    ensures left { IfOk result (λ next.
        met_entering span.now (objects_of (S.contents space.old) tree.now.root) walk.way walk.lefts oid
        ≡ oid ∷ met_left span.now (objects_of (S.contents space.old) tree.now.root) next.way next.lefts) }
    ensures refusals { S.told → S.refusals space.new ≡ S.refusals space.old ++ handed_on result }
{
    if walk.way.contains(oid) {
        return Err(TreeError::NotATree { oid });
    }
    let Entry { node, .. } = read_entry(alloc, space, tree, oid)?;
    if !span.suits(fits, &node) {
        return Err(TreeError::BadKey);
    }
    Ok(enter_node(alloc, span, walk, oid, node)?)
}

/// The items of a tree whose root was read.
#[tactic(auto, using(crate::proofs::Walks::start_gives, crate::proofs::Walks::start_same, crate::proofs::Walks::start_bad_key, crate::proofs::Walks::and_then_end, crate::proofs::Walks::rest_child, crate::proofs::Walks::rest_none, crate::proofs::Walks::cost_child, crate::proofs::Walks::cost_none, crate::proofs::Walks::finish))]
pub(crate) fn walk_all<S: Space>(
    alloc: Global,
    space: &mut S,
    tree: &Rooted,
    fits: bool,
    span: &Span,
    entry: Entry,
) -> Result<ListOf<Item>, TreeError>
    requires rooted { IsRooted (S.contents space.old) tree.now }
    requires entry { objects_of (S.contents space.old) tree.now.root tree.now.root ≡ Holds entry.class entry.node }
    ensures answer { Answers result
        (visited fits span.now (objects_of (S.contents space.old) tree.now.root) tree.now.root) }
    ensures contents { S.contents space.new ≡ S.contents space.old }
    ensures met { S.told → (base : List Call) → S.log space.old ≡ base ++ Read tree.now.root ∷ []
        → ReadsFirst (met_by span.now (objects_of (S.contents space.old) tree.now.root) tree.now.root) base (S.log space.new) }
    ensures refusals { S.told → S.refusals space.new ≡ S.refusals space.old ++ handed_on result }
{
    let Entry { node, .. } = entry;
    if !span.suits(fits, &node) {
        return Err(TreeError::BadKey);
    }
    let start = Walk {
        way: Children::new(alloc),
        lefts: Lefts::new(alloc),
        items: ListOf::new(alloc),
    };
    let mut walk = enter_node(alloc, span, start, tree.root, node)?;
    'walk: while let Some(mut left) = walk.lefts.pop() {
        match left.pop() {
            Some(child) => {
                walk.lefts.push(left)?;
                walk = enter(alloc, space, tree, fits, span, walk, child)?;
            }
            None => {
                let _ = walk.way.pop();
            }
        }
    }
    Ok(walk.items)
}
