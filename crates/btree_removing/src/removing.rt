//! Removing a key.

ghost use Rattle.std.specs.Prelude.{◌≡◌, ◌++◌, IfOk, IfErr, IfSome};
ghost use Rattle.btree_shapes.specs.Spaces.{handed_on};
ghost use Rattle.btree_shapes.specs.Met.{ReadsFirst};
ghost use Rattle.btree_shapes.specs.Ways.{IsRefusal};
ghost use Rattle.btree_family.specs.Classes.{class_seen};
ghost use Rattle.btree_putting.specs.Writing.{AreGlobal};
ghost use Rattle.btree_removing.specs.Plans.{met_under, plan_under, reads_under};
ghost use Rattle.btree_removing.specs.Ends.{IsFinding, Writes, Removes};

use crate::planning::plan;
use btree_family::{Key, key_fits, leaf_of};
use btree_putting::{Family, Puts, keep_all, store_all};
use btree_shapes::{Space, TreeError, follow_root, read_root};
use std::alloc::Global;
use zb_ids::Oid;

/// What a remove is to put, and the classes of the tree.
#[derive(Drop)]
struct Finding {
    family: Family,
    puts: Puts,
}

/// What a remove is to put in the tree with this root: nothing, where the key is absent.
#[tactic(auto, using(crate::proofs::Answering::root_unread, crate::proofs::Answering::no_leaf, crate::proofs::Answering::no_key, crate::proofs::Answering::way_is_refused, crate::proofs::Answering::plan_is_refused, crate::proofs::Answering::plan_is))]
fn find_puts<S: Space>(
    alloc: Global,
    space: &mut S,
    root: Oid,
    key: &Key,
) -> Result<Option<Finding>, TreeError>
    ensures err { IfErr result (λ e. IsRefusal e (plan_under (S.contents space.old) root key.now)) }
    ensures ok { IfOk result (λ found. IsFinding (S.contents space.old) root key.now found) }
    ensures global { IfOk result (λ found. IfSome found (λ x. AreGlobal x.family)) }
    ensures contents { S.contents space.new ≡ S.contents space.old }
    ensures log { IfOk result (λ found. S.told
        → S.log space.new ≡ S.log space.old ++ reads_under (S.contents space.old) root key.now) }
    ensures met { S.told → ReadsFirst (met_under (S.contents space.old) root key.now)
        (S.log space.old)
        (S.log space.new) }
    ensures refusals { S.told → S.refusals space.new ≡ S.refusals space.old ++ handed_on result }
{
    let (tree, entry) = read_root(alloc, space, root)?;
    let Some(leaf) = leaf_of(tree.row) else {
        return Err(TreeError::BadKey);
    };
    if !key_fits(tree.row.key, key) {
        return Err(TreeError::BadKey);
    }
    let found = follow_root(alloc, space, &tree, true, key, entry)?;
    let Some(puts) = plan(alloc, space, &tree, key, found)? else {
        return Ok(None);
    };
    let family = Family {
        row: tree.row,
        leaf,
    };
    Ok(Some(Finding { family, puts }))
}

/// Tries the records that a remove puts, and puts them.
#[tactic(auto, using(crate::proofs::Answering::untried, crate::proofs::Answering::unwritable, crate::proofs::Answering::all_stored, crate::proofs::Answering::some_stored))]
fn write<S: Space>(
    alloc: Global,
    space: &mut S,
    family: &Family,
    puts: Puts,
) -> Result<(), TreeError>
    requires { AreGlobal family.now }
    ensures writes { Writes S.told (class_seen family.now.row.now)
        (class_seen family.now.leaf.now) puts (S.contents space.old) (S.contents space.new)
        (S.log space.old) (S.log space.new) result }
    ensures refusals { S.told → S.refusals space.new ≡ S.refusals space.old ++ handed_on result }
{
    let Some(kept) = keep_all(alloc, family, puts)? else {
        return Err(TreeError::BadKey);
    };
    store_all(space, family, kept)
}

/// Removes a key from the tree with this root, and answers whether it was there.
#[tactic(auto, using(crate::proofs::Answering::refused_before, crate::proofs::Answering::is_absent, crate::proofs::Answering::is_removed, crate::proofs::Answering::is_stopped))]
pub fn remove<S: Space>(
    alloc: Global,
    space: &mut S,
    root: Oid,
    key: &Key,
) -> Result<bool, TreeError>
    ensures ways { Removes S.told (S.contents space.old) (S.contents space.new) (S.log space.old)
        (S.log space.new) root key.now result }
    ensures refusals { S.told → S.refusals space.new ≡ S.refusals space.old ++ handed_on result }
{
    match find_puts(alloc, space, root, key) {
        Err(error) => Err(error),
        Ok(None) => Ok(false),
        Ok(Some(finding)) => {
            let Finding { family, puts } = finding;
            write(alloc, space, &family, puts)?;
            Ok(true)
        }
    }
}
