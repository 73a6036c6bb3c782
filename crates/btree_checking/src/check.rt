//! The check of a tree.

ghost use Rattle.std.specs.Prelude.{◌≡◌, ◌++◌, IfOk, IfErr};
ghost use Rattle.btree_shapes.specs.Nodes.{objects_of};
ghost use Rattle.btree_shapes.specs.Reading.{IsRooted};
ghost use Rattle.btree_shapes.specs.Spaces.{IsFault, refused};
ghost use Rattle.btree_shapes.specs.Ways.{OnlyReads, reads};
ghost use Rattle.btree_checking.specs.Laws.{MeansTree};
ghost use Rattle.btree_checking.specs.Steps.{AreHeld, IsSmall, ReadSince, rest_of};
ghost use Rattle.btree_checking.specs.Verdicts.{verdict_after, verdict_of};
ghost use Rattle.btree_checking.specs.Walks;

use crate::laws::checked_is_sound;
use crate::place::root_place;
use crate::survey::Survey;
use crate::verdict::{Rule, Verdict};
use crate::walk::{Step, Todo, Walk, enter, visit_next};
use btree_shapes::{Rooted, Space, SpaceError, TreeError, read_root};
use std::alloc::Global;
use zb_ids::Oid;

/// Goes on with a walk to its end.
#[tactic(auto, using(crate::proofs::Going::rest_next, crate::proofs::Going::rest_end, crate::proofs::Going::since_same, crate::proofs::Going::since_more, btree_shapes::specs::Logs::only_none, btree_shapes::specs::Logs::only_more))]
fn walk_on<S: Space>(
    alloc: Global,
    space: &mut S,
    tree: &Rooted,
    walk: Walk,
) -> Result<Verdict, SpaceError>
    requires rooted { IsRooted (S.contents space.old) tree.now }
    requires held { AreHeld (objects_of (S.contents space.old) tree.now.root) walk.survey.visits }
    requires small { IsSmall walk.survey.visits }
    ensures verdict { IfOk result (λ verdict.
        verdict ≡ verdict_after
        (rest_of (objects_of (S.contents space.old) tree.now.root) walk)) }
    ensures read { IfOk result (λ verdict. S.told → ReadSince (Walks.oids_in walk.survey.visits)
        (Walks.read_by (rest_of (objects_of (S.contents space.old) tree.now.root) walk))
        (S.log space.old) (S.log space.new)) }
    ensures fault { IfErr result IsFault }
    ensures only { S.told → OnlyReads (S.log space.old) (S.log space.new) }
    ensures contents { S.contents space.new ≡ S.contents space.old }
    ensures refusals { S.told → S.refusals space.new ≡ S.refusals space.old ++ refused result }
{
    let mut walk = walk;
    'walk: while let Some(place) = walk.todo.pop() {
        match visit_next(alloc, space, tree, walk, &place)? {
            Step::On(next) => walk = next,
            Step::Stopped(oid, rule) => return Ok(Verdict::Broken { oid, rule }),
        }
    }
    Ok(walk.survey.verdict())
}

/// Walks over a tree.
#[tactic(auto, using(crate::proofs::Going::start_gives, crate::proofs::Going::missing_gives, crate::proofs::Going::foreign_gives, crate::proofs::Going::enter_gives, crate::proofs::Going::enter_on, crate::proofs::Going::enter_logs, crate::proofs::Going::since_start, btree_shapes::specs::Logs::only_read, btree_shapes::specs::Logs::only_more))]
fn walk_tree<S: Space>(alloc: Global, space: &mut S, root: Oid) -> Result<Verdict, SpaceError>
    ensures verdict { IfOk result (λ verdict.
        verdict ≡ verdict_of (objects_of (S.contents space.old) root) root) }
    ensures read { IfOk result (λ verdict. S.told → S.log space.new ≡ S.log space.old
        ++ reads (Walks.read_by (Walks.walk_of (objects_of (S.contents space.old) root) root))) }
    ensures fault { IfErr result IsFault }
    ensures only { S.told → OnlyReads (S.log space.old) (S.log space.new) }
    ensures contents { S.contents space.new ≡ S.contents space.old }
    ensures refusals { S.told → S.refusals space.new ≡ S.refusals space.old ++ refused result }
{
    match read_root(alloc, space, root) {
        Ok((tree, entry)) => {
            let start = Walk {
                survey: Survey::new(alloc),
                todo: Todo::new(alloc),
            };
            match enter(alloc, start, &root_place(root), &entry.node)? {
                Step::On(walk) => walk_on(alloc, space, &tree, walk),
                Step::Stopped(oid, rule) => Ok(Verdict::Broken { oid, rule }),
            }
        }
        Err(TreeError::NodeMissing { .. }) => Ok(Verdict::Broken {
            oid: root,
            rule: Rule::NodeMissing,
        }),
        Err(TreeError::NotATree { .. }) => Ok(Verdict::Broken {
            oid: root,
            rule: Rule::NotATree,
        }),
        Err(TreeError::Refused(refusal)) => Err(SpaceError::Refused(refusal)),
        Err(TreeError::BadKey) => Err(SpaceError::Memory),
        Err(TreeError::Memory) => Err(SpaceError::Memory),
    }
}

/// Whether the tree with this root is sound, and else which object is the first that breaks a rule.
///
/// The walk visits the root, and then its children from left to right, each with all below it. At
/// each object the rules are tested in the order of [`Rule`]; the first object and rule decide.
/// Links are tested after the walk: the first object with others below it that does not name the
/// first leaf below it is at fault, or else the first leaf that does not name the next one. A
/// bucket or a set that stands alone is a tree of one leaf. Each object is read once.
///
/// The space's refusals, and want of memory, may come at each of its calls; nothing is changed.
#[tactic(auto, using(crate::proofs::Sound::means_tree))]
pub fn check_tree<S: Space>(alloc: Global, space: &mut S, root: Oid) -> Result<Verdict, SpaceError>
    ensures verdict { IfOk result (λ verdict.
        verdict ≡ verdict_of (objects_of (S.contents space.old) root) root) }
    ensures tree { IfOk result (λ verdict. MeansTree (S.contents space.old) root verdict) }
    ensures read { IfOk result (λ verdict. S.told → S.log space.new ≡ S.log space.old
        ++ reads (Walks.read_by (Walks.walk_of (objects_of (S.contents space.old) root) root))) }
    ensures fault { IfErr result IsFault }
    ensures only { S.told → OnlyReads (S.log space.old) (S.log space.new) }
    ensures contents { S.contents space.new ≡ S.contents space.old }
    ensures refusals { S.told → S.refusals space.new ≡ S.refusals space.old ++ refused result }
{
    checked_is_sound();
    walk_tree(alloc, space, root)
}
