//! A check of a tree whose objects the caller reads, step by step.

ghost use Rattle.std.specs.Prelude.{◌≡◌, ◌-◌, ◌<◌, ◌^◌, ℕ, List, Option, Some, None, false, length, IfOk};
ghost use Rattle.btree_family.specs.Classes.{class_seen};
ghost use Rattle.pickle_graph.specs.Graph.{Graph};
ghost use Rattle.btree_shapes.specs.Nodes.{Holds, class_held, objects_of};
ghost use Rattle.btree_checking.specs.Fed.{HasLessRoom, IsCheckOf, IsProgressOf, room_of, wanted_by};
ghost use Rattle.btree_checking.specs.Rules.{was_visited};
ghost use Rattle.btree_checking.specs.Steps.{AreHeld, entering, rest_of};
ghost use Rattle.btree_checking.specs.Walks.{walk_of};

use crate::checking::{Checking, Progress};
use crate::content::{Content, class_after, held_in};
use crate::place::{Place, root_place};
use crate::survey::Survey;
use crate::verdict::{Rule, Verdict};
use crate::walk::{Step, Todo, Walk, enter};
use btree_family::ClassRow;
use btree_shapes::Node;
use std::alloc::{AllocError, Global};
use zb_ids::{Oid, Text8};

/// An object breaks this rule.
fn broken(oid: Oid, rule: Rule) -> Progress
    ensures { result ≡ Progress.Ended (Verdict.Broken oid rule) }
{
    Progress::Ended(Verdict::Broken { oid, rule })
}

/// A root with this content has no class of a tree.
fn without_class(root: Oid, content: &Option<Text8>) -> Progress
    ensures missing { content.now ≡ None
        → result ≡ Progress.Ended (Verdict.Broken root Rule.NodeMissing) }
    ensures foreign { (bytes : List ℕ) → content.now ≡ Some bytes
        → result ≡ Progress.Ended (Verdict.Broken root Rule.NotATree) }
{
    match content {
        Some(_) => broken(root, Rule::NotATree),
        None => broken(root, Rule::NodeMissing),
    }
}

/// Goes on to the object that is next, if one is left. One that was visited before is not read
/// again.
fn next(row: &'static ClassRow, walk: Walk) -> Progress
    ensures progress { (contents : ℕ → Option (List ℕ)) (root : ℕ)
        → class_held (contents root) ≡ Some (class_seen row.now)
        → AreHeld (objects_of contents root) walk.survey.visits
        → rest_of (objects_of contents root) walk ≡ walk_of (objects_of contents root) root
        → IsProgressOf contents root result }
    ensures room { (room : ℕ) → 2 ^ 63 - length walk.survey.visits < room
        → HasLessRoom room result }
{
    let Walk { survey, mut todo } = walk;
    let Some(place) = todo.pop() else {
        return Progress::Ended(survey.verdict());
    };
    if survey.has(place.oid) {
        return broken(place.oid, Rule::Shared);
    }
    Progress::Wants(Checking {
        row: Some(row),
        walk: Walk { survey, todo },
        place,
    })
}

/// Visits an object of the tree that holds this, and goes on.
fn visit(
    alloc: Global,
    row: &'static ClassRow,
    walk: Walk,
    place: &Place,
    node: &Node,
) -> Result<Progress, AllocError>
    requires new { was_visited walk.survey.visits place.now.oid ≡ false }
    requires level { place.now.level < 2 ^ 64 }
    ensures progress { (contents : ℕ → Option (List ℕ)) (root : ℕ) (class : Graph)
        → class_held (contents root) ≡ Some (class_seen row.now)
        → AreHeld (objects_of contents root) walk.survey.visits
        → objects_of contents root place.now.oid ≡ Holds class node.now
        → entering (objects_of contents root) walk place.now
        ≡ walk_of (objects_of contents root) root
        → IfOk result (IsProgressOf contents root) }
    ensures room { IfOk result (HasLessRoom (2 ^ 63 - length walk.survey.visits)) }
{
    let Ok(step) = enter(alloc, walk, place, node) else {
        return Err(AllocError);
    };
    match step {
        Step::On(walk) => Ok(next(row, walk)),
        Step::Stopped(oid, rule) => Ok(broken(oid, rule)),
    }
}

impl Checking {
    /// A check of the tree with this root. It takes no memory yet.
    pub fn new(alloc: Global, root: Oid) -> Checking
        ensures check { (contents : ℕ → Option (List ℕ)) → IsCheckOf contents root result }
    {
        Checking {
            row: None,
            walk: Walk {
                survey: Survey::new(alloc),
                todo: Todo::new(alloc),
            },
            place: root_place(root),
        }
    }

    /// The object that it wants to read next.
    pub fn wanted(&self) -> Oid
        ensures { result ≡ wanted_by self.now }
    {
        self.place.oid
    }

    /// Goes on, told what stands at the object that it wanted: bytes, or nothing. The one error is
    /// want of memory.
    pub fn told(self, alloc: Global, content: &Option<Text8>) -> Result<Progress, AllocError>
        ensures progress { (contents : ℕ → Option (List ℕ)) (root : ℕ)
            → IsCheckOf contents root self → contents (wanted_by self) ≡ content.now
            → IfOk result (IsProgressOf contents root) }
        ensures room { IfOk result (HasLessRoom (room_of self)) }
    {
        let Checking { row, walk, place } = self;
        let Some(row) = class_after(alloc, row, content)? else {
            return Ok(without_class(place.oid, content));
        };
        match held_in(alloc, row, content)? {
            Content::Missing => Ok(broken(place.oid, Rule::NodeMissing)),
            Content::Foreign => Ok(broken(place.oid, Rule::NotATree)),
            Content::Holds(entry) => visit(alloc, row, walk, &place, &entry.node),
        }
    }
}
