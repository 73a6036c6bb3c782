//! Numbers for new objects.

ghost use Rattle.std.specs.Prelude.{◌≡◌, ◌<◌, ◌^◌, ◌++◌, ◌∷◌, [], length, map, IfOk, IfErr};
ghost use Rattle.pickle_graph.specs.Graph.{AllBelow};
ghost use Rattle.btree_shapes.specs.declared.space.Call.TheVariants.{Drew};
ghost use Rattle.btree_shapes.specs.Spaces.{handed_on};
ghost use Rattle.btree_putting.specs.Storing.{IsFree};
ghost use Rattle.btree_setting.specs.Sets.{AreZero, DrewOf};

use btree_shapes::{Space, SpaceError, TreeError};
use std::alloc::{AllocError, Global};
use zb_ids::{ListOf, Oid};

/// Numbers that stand in for those that are to be drawn: two more than so many, each 0.
#[tactic(auto, using(crate::proofs::Trying::zero_push))]
pub(crate) fn stand_ins(alloc: Global, count: usize) -> Result<ListOf<Oid>, AllocError>
    ensures { IfOk result (λ oids. AreZero oids) }
{
    let mut oids = ListOf::new(alloc);
    oids.push(Oid(0))?;
    oids.push(Oid(0))?;
    for _i in 0..count {
        oids.push(Oid(0))?;
    }
    Ok(oids)
}

/// A number for a new object.
fn draw<S: Space>(space: &mut S) -> Result<Oid, TreeError>
    ensures ok { IfOk result (λ oid. S.told → S.log space.new ≡ S.log space.old ++ Drew oid ∷ []) }
    ensures number { IfOk result (λ oid. oid < 2 ^ 64) }
    ensures err { IfErr result (λ e. S.told → S.log space.new ≡ S.log space.old) }
    ensures free { IfErr result IsFree }
    ensures contents { S.contents space.new ≡ S.contents space.old }
    ensures refusals { S.told → S.refusals space.new ≡ S.refusals space.old ++ handed_on result }
{
    match space.new_node() {
        Ok(oid) => Ok(oid),
        Err(SpaceError::Refused(refusal)) => Err(TreeError::Refused(refusal)),
        Err(_) => Err(TreeError::Memory),
    }
}

/// So many numbers, in the order in which they are drawn.
#[tactic(auto, using(crate::proofs::Numbers::drew_none, crate::proofs::Numbers::drew_more, crate::proofs::Trying::drew_fewer, crate::proofs::Trying::drew_most, crate::proofs::Trying::one_more, crate::proofs::Trying::below_more))]
pub(crate) fn draw_all<S: Space>(
    alloc: Global,
    space: &mut S,
    count: usize,
) -> Result<ListOf<Oid>, TreeError>
    ensures ok { IfOk result (λ oids. S.told → S.log space.new ≡ S.log space.old ++ map Drew oids) }
    ensures count { IfOk result (λ oids. length oids ≡ count) }
    ensures numbers { IfOk result (λ oids. AllBelow (2 ^ 64) oids) }
    ensures err { IfErr result (λ e. S.told → DrewOf count e (S.log space.old) (S.log space.new)) }
    ensures free { IfErr result IsFree }
    ensures contents { S.contents space.new ≡ S.contents space.old }
    ensures refusals { S.told → S.refusals space.new ≡ S.refusals space.old ++ handed_on result }
{
    let mut oids = ListOf::new(alloc);
    let mut left = count;
    'draws: while left > 0 {
        let oid = draw(space)?;
        oids.push(oid)?;
        left -= 1;
    }
    Ok(oids)
}
