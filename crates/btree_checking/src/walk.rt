//! A walk over a tree, step by step.

ghost use Rattle.std.specs.Prelude.{◌≡◌, ◌<◌, ◌^◌, ◌++◌, ◌∷◌, [], false, IfOk, IfErr, MatchOption, OnOk};
ghost use Rattle.btree_shapes.specs.Nodes.{objects_of};
ghost use Rattle.btree_shapes.specs.Reading.{IsRooted};
ghost use Rattle.btree_shapes.specs.Spaces.{IsFault, refused};
ghost use Rattle.btree_shapes.specs.Ways.{OnlyReads, reads};
ghost use Rattle.btree_checking.specs.Rules.{places_below, was_visited, with_visit};
ghost use Rattle.btree_checking.specs.Steps.{AreHeld, GoesOn, IsSmall, StepIsSmall, comes_to, entering, step_of, step_reads};

use crate::place::{Place, places_below};
use crate::survey::Survey;
use crate::verdict::Rule;
use btree_shapes::{Node, Rooted, Space, SpaceError, TreeError, read_entry};
use std::alloc::{AllocError, Global};
use std::marker::Model;
use zb_ids::{ListOf, Oid};

/// What is still to be visited, which contracts see in the order of the walk.
#[derive(Drop)]
pub(crate) struct Todo {
    list: Vec<Place>,
}

impl Model for Todo {
    ghost use Rattle.std.specs.Prelude.{List, reverse};
    ghost use Rattle.btree_checking.specs.declared.place.Place.{Place};

    ghost Value = { List Place };

    ghost view = { λ todo. reverse todo.list.items };
}

impl Todo {
    /// Nothing is to be visited.
    pub(crate) fn new(alloc: Global) -> Todo
        ensures { result ≡ [] }
    {
        Todo {
            list: Vec::new(alloc),
        }
    }

    /// One more is to be visited first.
    fn push(&mut self, place: Place) -> Result<(), AllocError>
        ensures { OnOk result (self.new ≡ place ∷ self.old) }
    {
        self.list.push(place)?;
        Ok(())
    }

    /// These are to be visited first.
    fn with_places(self, places: ListOf<Place>) -> Result<Todo, AllocError>
        ensures { IfOk result (λ todo. todo ≡ places ++ self) }
    {
        let mut todo = self;
        let mut places = places.into_vec();
        'places: while let Some(place) = places.pop() {
            todo.push(place)?;
        }
        Ok(todo)
    }

    /// What is to be visited next.
    pub(crate) fn pop(&mut self) -> Option<Place>
        ensures { MatchOption result ((self.old ≡ []) × (self.new ≡ []))
            (λ place. self.old ≡ place ∷ self.new) }
    {
        self.list.pop()
    }
}

/// A walk: what it has met, and what is still to be visited.
#[derive(Drop)]
pub(crate) struct Walk {
    pub survey: Survey,
    pub todo: Todo,
}

/// What comes of one more object.
#[derive(Drop)]
pub(crate) enum Step {
    /// It breaks no rule that is tested on the way.
    On(Walk),
    /// It breaks this rule.
    Stopped(Oid, Rule),
}

/// What is to be visited after an object: its children first.
fn with_children(alloc: Global, todo: Todo, place: &Place, node: &Node) -> Result<Todo, AllocError>
    ensures { IfOk result (λ next. next ≡ places_below place.now node.now ++ todo) }
{
    match node {
        Node::Lone(_) => Ok(todo),
        Node::Leaf(_) => Ok(todo),
        Node::Inner(inner) => {
            let Some(level) = place.level.checked_add(1) else {
                return Err(AllocError);
            };
            let places = places_below(alloc, place, inner, level)?;
            todo.with_places(places)
        }
    }
}

/// Visits an object that breaks no rule.
fn go_on(alloc: Global, walk: Walk, place: &Place, node: &Node) -> Result<Walk, AllocError>
    requires new { was_visited walk.survey.visits place.now.oid ≡ false }
    ensures survey { IfOk result (λ next.
        next.survey ≡ with_visit place.now walk.survey node.now) }
    ensures todo { IfOk result (λ next.
        next.todo ≡ places_below place.now node.now ++ walk.todo) }
    ensures small { IfOk result (λ next. IsSmall next.survey.visits) }
{
    let Walk { survey, todo } = walk;
    let survey = survey.with_visit(place, node)?;
    let todo = with_children(alloc, todo, place, node)?;
    Ok(Walk { survey, todo })
}

/// Visits an object that was read and not visited before.
pub(crate) fn enter(
    alloc: Global,
    walk: Walk,
    place: &Place,
    node: &Node,
) -> Result<Step, SpaceError>
    requires new { was_visited walk.survey.visits place.now.oid ≡ false }
    ensures step { IfOk result (λ step. step ≡ step_of walk place.now node.now) }
    ensures small { IfOk result (λ step. StepIsSmall step) }
    ensures fault { IfErr result IsFault }
    ensures own { refused result ≡ [] }
{
    match walk.survey.rule_broken(place, node) {
        Some(rule) => Ok(Step::Stopped(place.oid, rule)),
        None => match go_on(alloc, walk, place, node) {
            Ok(next) => Ok(Step::On(next)),
            Err(AllocError) => Err(SpaceError::Memory),
        },
    }
}

/// Reads the next object, where it was not visited before, and visits it.
#[tactic(auto, using(btree_shapes::specs::Logs::only_none, btree_shapes::specs::Logs::only_read))]
pub(crate) fn visit_next<S: Space>(
    alloc: Global,
    space: &mut S,
    tree: &Rooted,
    walk: Walk,
    place: &Place,
) -> Result<Step, SpaceError>
    requires level { place.now.level < 2 ^ 64 }
    requires rooted { IsRooted (S.contents space.old) tree.now }
    requires held { AreHeld (objects_of (S.contents space.old) tree.now.root) walk.survey.visits }
    ensures gives { IfOk result (λ step.
        comes_to (objects_of (S.contents space.old) tree.now.root) walk step
        ≡ entering (objects_of (S.contents space.old) tree.now.root) walk place.now) }
    ensures on { IfOk result (λ step.
        GoesOn (objects_of (S.contents space.old) tree.now.root) walk.survey.visits place.now.oid
        step) }
    ensures read { IfOk result (λ step. S.told
        → S.log space.new ≡ S.log space.old ++ reads (step_reads place.now.oid step)) }
    ensures fault { IfErr result IsFault }
    ensures only { S.told → OnlyReads (S.log space.old) (S.log space.new) }
    ensures contents { S.contents space.new ≡ S.contents space.old }
    ensures refusals { S.told → S.refusals space.new ≡ S.refusals space.old ++ refused result }
{
    if walk.survey.has(place.oid) {
        return Ok(Step::Stopped(place.oid, Rule::Shared));
    }
    match read_entry(alloc, space, tree, place.oid) {
        Ok(entry) => {
            let step = enter(alloc, walk, place, &entry.node)?;
            Ok(step)
        }
        Err(TreeError::NodeMissing { .. }) => Ok(Step::Stopped(place.oid, Rule::NodeMissing)),
        Err(TreeError::NotATree { .. }) => Ok(Step::Stopped(place.oid, Rule::NotATree)),
        Err(TreeError::Refused(refusal)) => Err(SpaceError::Refused(refusal)),
        Err(TreeError::BadKey) => Err(SpaceError::Memory),
        Err(TreeError::Memory) => Err(SpaceError::Memory),
    }
}
