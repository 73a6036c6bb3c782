//! What a walk has met so far.

ghost use Rattle.std.specs.Prelude.{◌≡◌, ◌<◌, ◌^◌, false, length, None, IfOk};
ghost use Rattle.std.specs.Option.{option_map};
ghost use Rattle.btree_family.specs.Keys.{rank_of};
ghost use Rattle.btree_family.specs.Buckets.{keys_of};
ghost use Rattle.btree_shapes.specs.Nodes.{items_in};
ghost use Rattle.btree_checking.specs.Rules.{keys_in, kind_with, depth_with, was_visited, rule_broken, with_visit};
ghost use Rattle.btree_checking.specs.Walks.{fresh_tour};
ghost use Rattle.btree_checking.specs.Verdicts.{linked_verdict, wrong_link};

use crate::links::{Pointer, pointer_of, wrong_link};
use crate::place::Place;
use crate::rules::{are_within, may_stand, suit_kind, suits_depth};
use crate::verdict::{Rule, Verdict};
use btree_family::{Item, Key};
use btree_shapes::Node;
use indexmap::IndexMap;
use std::alloc::{AllocError, Global};
use std::marker::Model;
use zb_ids::Oid;

/// What a walk has met so far: the objects in the order of the walk, each with the leaf that it
/// names, the kind of the keys, the depth of the first leaf, and how many items there were.
#[derive(Drop)]
pub(crate) struct Survey {
    visits: IndexMap<Oid, Pointer>,
    /// The first key that was met.
    key: Option<Key>,
    /// How many objects stand above the first leaf that was met.
    depth: Option<u64>,
    items: u64,
}

impl Model for Survey {
    ghost use Rattle.std.specs.Option.{option_map};
    ghost use Rattle.btree_family.specs.Keys.{rank_of};
    ghost use Rattle.btree_checking.specs.Rules.{Tour};

    ghost Value = { Tour };

    ghost view = { λ survey. record {
      visits = survey.visits.entries;
      kind = option_map rank_of survey.key;
      depth = survey.depth;
      items = survey.items;
    } };
}

/// How many items an object has itself.
fn count_of(node: &Node) -> u64
    ensures { result ≡ length (items_in node.now) }
{
    match node {
        Node::Lone(bucket) => bucket.items().len() as u64,
        Node::Leaf(bucket) => bucket.items().len() as u64,
        Node::Inner(_) => 0,
    }
}

/// A copy of the first key of an object, if it has one.
fn first_key(node: &Node) -> Result<Option<Key>, AllocError>
    ensures { IfOk result (λ key. option_map rank_of key ≡ kind_with None (keys_in node.now)) }
{
    match node {
        Node::Lone(bucket) => first_of(bucket.items().as_slice()),
        Node::Leaf(bucket) => first_of(bucket.items().as_slice()),
        Node::Inner(inner) => match inner.tail.as_slice() {
            [] => Ok(None),
            [first, ..] => {
                let key = first.key.clone()?;
                Ok(Some(key))
            }
        },
    }
}

/// A copy of the first key of items, if there is one.
fn first_of(items: &[Item]) -> Result<Option<Key>, AllocError>
    ensures { IfOk result (λ key. option_map rank_of key ≡ kind_with None (keys_of items.now)) }
{
    match items {
        [] => Ok(None),
        [first, ..] => {
            let key = first.key.clone()?;
            Ok(Some(key))
        }
    }
}

/// A key of the kind that is met with an object, if one is.
fn key_with(met: Option<Key>, node: &Node) -> Result<Option<Key>, AllocError>
    ensures { IfOk result (λ key. option_map rank_of key
        ≡ kind_with (option_map rank_of met) (keys_in node.now)) }
{
    match met {
        Some(key) => Ok(Some(key)),
        None => first_key(node),
    }
}

/// The depth of the first leaf that is met with an object, if one is.
fn depth_with(met: Option<u64>, level: u64, node: &Node) -> Option<u64>
    ensures { result ≡ depth_with met level node.now }
{
    match (met, node) {
        (Some(depth), _) => Some(depth),
        (None, Node::Lone(_)) => Some(level),
        (None, Node::Leaf(_)) => Some(level),
        (None, Node::Inner(_)) => None,
    }
}

impl Survey {
    /// Nothing was met. It takes no memory until something is.
    pub(crate) fn new(alloc: Global) -> Survey
        ensures { result ≡ fresh_tour }
    {
        Survey {
            visits: IndexMap::new(alloc),
            key: None,
            depth: None,
            items: 0,
        }
    }

    /// Whether an object was visited.
    #[tactic(auto, using(crate::proofs::Visited::found_visited))]
    pub(crate) fn has(&self, oid: Oid) -> bool
        ensures { result ≡ was_visited self.now.visits oid }
    {
        self.visits.contains_key(&oid)
    }

    /// The first rule on what it holds that an object breaks, if it breaks one.
    pub(crate) fn rule_broken(&self, place: &Place, node: &Node) -> Option<Rule>
        ensures { result ≡ rule_broken place.now self.now node.now }
    {
        if !may_stand(place.level, node) {
            return Some(Rule::NotATree);
        }
        if !suit_kind(&self.key, node) {
            return Some(Rule::Keys);
        }
        if !are_within(&place.low, &place.high, node) {
            return Some(Rule::Bounds);
        }
        if !suits_depth(self.depth, place.level, node) {
            return Some(Rule::Depth);
        }
        None
    }

    /// One more object was visited. It is want of memory too where the items are more than a number
    /// counts.
    #[tactic(auto, using(crate::proofs::Visited::insert_new))]
    pub(crate) fn with_visit(self, place: &Place, node: &Node) -> Result<Survey, AllocError>
        requires new { was_visited self.visits place.now.oid ≡ false }
        ensures is { IfOk result (λ survey. survey ≡ with_visit place.now self node.now) }
        ensures room { IfOk result (λ survey. length survey.visits < 2 ^ 63) }
    {
        let Survey {
            mut visits,
            key,
            depth,
            items,
        } = self;
        let count = count_of(node);
        if items > u64::MAX - count {
            return Err(AllocError);
        }
        let key = key_with(key, node)?;
        visits.insert(place.oid, pointer_of(node))?;
        let _ = visits.len();
        Ok(Survey {
            visits,
            key,
            depth: depth_with(depth, place.level, node),
            items: items + count,
        })
    }

    /// What a whole walk says, after which only the links are left to be tested.
    pub(crate) fn verdict(&self) -> Verdict
        ensures { result ≡ linked_verdict self.now (wrong_link self.now.visits) }
    {
        match wrong_link(&self.visits) {
            Some(oid) => Verdict::Broken {
                oid,
                rule: Rule::Links,
            },
            None => Verdict::Sound {
                items: self.items,
                nodes: self.visits.len() as u64,
            },
        }
    }
}
