//! Putting the objects of a tree.

ghost use Rattle.std.specs.Prelude.{◌≡◌, ◌++◌, ◌∷◌, [], map, IfErr, OnOk, OnErr};
ghost use Rattle.btree_family.specs.Classes.{class_seen};
ghost use Rattle.btree_shapes.specs.declared.space.Call.TheVariants.{Wrote};
ghost use Rattle.btree_shapes.specs.Spaces.{handed_on, with_bytes};
ghost use Rattle.btree_putting.specs.Puts.{put_bytes};
ghost use Rattle.btree_putting.specs.Kept.{AreKept, IsKept, kept_put};
ghost use Rattle.btree_putting.specs.Storing.{IsFree, IsStored, IsStoredFront};

use crate::kept::{Kept, KeptPuts};
use crate::writing::Family;
use btree_shapes::{Space, SpaceError, TreeError};

/// Puts an object whose record can be written and reads back. The space may remember what it holds.
#[tactic(auto, using(crate::proofs::Rows::put_holds, crate::proofs::Rows::put_so))]
fn store<S: Space>(space: &mut S, family: &Family, kept: Kept) -> Result<(), TreeError>
    requires kept { IsKept (class_seen family.now.row.now) (class_seen family.now.leaf.now) kept }
    ensures ok { OnOk result (S.contents space.new ≡ with_bytes (S.contents space.old) kept.put.oid
        (put_bytes (class_seen family.now.row.now) (class_seen family.now.leaf.now) kept.put)) }
    ensures written { OnOk result
        (S.told → S.log space.new ≡ S.log space.old ++ Wrote kept.put.oid ∷ []) }
    ensures err { OnErr result (S.contents space.new ≡ S.contents space.old) }
    ensures same { OnErr result (S.told → S.log space.new ≡ S.log space.old) }
    ensures free { IfErr result IsFree }
    ensures refusals { S.told → S.refusals space.new ≡ S.refusals space.old ++ handed_on result }
{
    let Kept { put, bytes, entry } = kept;
    match space.put_text(put.oid, bytes) {
        Ok(()) => {
            space.remember(put.oid, family.row, &entry);
            Ok(())
        }
        Err(SpaceError::Refused(refusal)) => Err(TreeError::Refused(refusal)),
        Err(_) => Err(TreeError::Memory),
    }
}

/// Puts objects whose records can all be written and read back, in this order.
#[tactic(auto, using(crate::proofs::Rows::stored_start, crate::proofs::Rows::stored_end, crate::proofs::Rows::stored_front, crate::proofs::Rows::first_kept, crate::proofs::Rows::rest_kept))]
pub fn store_all<S: Space>(space: &mut S, family: &Family, kept: KeptPuts) -> Result<(), TreeError>
    requires kept { AreKept (class_seen family.now.row.now) (class_seen family.now.leaf.now) kept }
    ensures ok { OnOk result
        (IsStored S.told (class_seen family.now.row.now) (class_seen family.now.leaf.now)
        (map kept_put kept) (S.contents space.old) (S.contents space.new) (S.log space.old)
        (S.log space.new)) }
    ensures err { OnErr result
        (IsStoredFront S.told (class_seen family.now.row.now) (class_seen family.now.leaf.now)
        (map kept_put kept) (S.contents space.old) (S.contents space.new) (S.log space.old)
        (S.log space.new)) }
    ensures free { IfErr result IsFree }
    ensures refusals { S.told → S.refusals space.new ≡ S.refusals space.old ++ handed_on result }
{
    let mut left = kept;
    'puts: while let Some(one) = left.take() {
        store(space, family, one)?;
    }
    Ok(())
}
