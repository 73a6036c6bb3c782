//! The children that a set reads besides the way.

ghost use Rattle.std.specs.Prelude.{◌≡◌, ◌++◌, [], IfOk};
ghost use Rattle.btree_shapes.specs.Nodes.{objects_of};
ghost use Rattle.btree_shapes.specs.Reading.{IsRooted};
ghost use Rattle.btree_shapes.specs.Spaces.{handed_on};
ghost use Rattle.btree_shapes.specs.Met.{ReadsFirst};
ghost use Rattle.btree_shapes.specs.Ways.{Answers, stands_in, reads};
ghost use Rattle.btree_setting.specs.Rungs.{with_first, settled, settle, asked, asked_by};

use crate::rung::{Rung, Seam, child_asked};
use btree_family::Key;
use btree_putting::{Rungs, first_below};
use btree_shapes::{Rooted, Space, TreeError};
use std::alloc::Global;
use zb_ids::{ListOf, Oid};

/// An object with this first leaf of its second half.
fn with_first(rung: Rung, first: Oid) -> Rung
    ensures { result ≡ with_first rung first }
{
    let Rung {
        oid,
        class,
        inner,
        leaves,
        seam: _,
    } = rung;
    Rung {
        oid,
        class,
        inner,
        leaves,
        seam: Seam::Old(first),
    }
}

/// Whether an object is one of these.
fn stands_in(oids: &[Oid], oid: Oid) -> bool
    ensures { result ≡ stands_in oids.now oid }
{
    oids.contains(&oid)
}

/// An object with the first leaf of its second half, which is read where it isn't known. `above`
/// has the object and those above it.
#[tactic(auto, using(crate::proofs::Beside::settled_twice, crate::proofs::Beside::settled_child, crate::proofs::Beside::settled_unread, crate::proofs::Beside::settled_known, crate::proofs::Beside::logged_child, crate::proofs::Beside::logged_none, crate::proofs::Beside::first_child, crate::proofs::Beside::first_child_read, btree_shapes::specs::MetLaws::first_start))]
fn settle_one<S: Space>(
    alloc: Global,
    space: &mut S,
    tree: &Rooted,
    fits: bool,
    key: &Key,
    above: &[Oid],
    rung: Rung,
) -> Result<Rung, TreeError>
    requires rooted { IsRooted (S.contents space.old) tree.now }
    ensures answer { Answers result
        (settled (objects_of (S.contents space.old) tree.now.root) fits key.now above.now rung) }
    ensures contents { S.contents space.new ≡ S.contents space.old }
    ensures log { IfOk result
        (λ known. S.told → S.log space.new ≡ S.log space.old ++ reads (asked_by rung.seam)) }
    ensures met { S.told → ReadsFirst (asked_by rung.seam) (S.log space.old) (S.log space.new) }
    ensures refusals { S.told → S.refusals space.new ≡ S.refusals space.old ++ handed_on result }
{
    let Some(child) = child_asked(&rung) else {
        return Ok(rung);
    };
    if stands_in(above, child) {
        return Err(TreeError::NotATree { oid: child });
    }
    let first = first_below(alloc, space, tree, fits, key, child)?;
    Ok(with_first(rung, first))
}

/// The objects of a way with the first leaves of their second halves. Those that aren't known are
/// read, from the root down.
#[tactic(auto, using(crate::proofs::Beside::settle_start, crate::proofs::Beside::settle_step, crate::proofs::Beside::settle_end, crate::proofs::Beside::settle_refused, crate::proofs::Beside::read_start, crate::proofs::Beside::read_step, crate::proofs::Beside::read_end, crate::proofs::Beside::first_step, crate::proofs::Beside::first_end, crate::proofs::Beside::first_refused))]
pub(crate) fn settle<S: Space>(
    alloc: Global,
    space: &mut S,
    tree: &Rooted,
    fits: bool,
    key: &Key,
    rungs: Rungs<Rung>,
) -> Result<Rungs<Rung>, TreeError>
    requires rooted { IsRooted (S.contents space.old) tree.now }
    ensures answer { Answers result
        (settle (objects_of (S.contents space.old) tree.now.root) fits key.now [] rungs) }
    ensures contents { S.contents space.new ≡ S.contents space.old }
    ensures log { IfOk result
        (λ known. S.told → S.log space.new ≡ S.log space.old ++ reads (asked rungs)) }
    ensures met { S.told → ReadsFirst (asked rungs) (S.log space.old) (S.log space.new) }
    ensures refusals { S.told → S.refusals space.new ≡ S.refusals space.old ++ handed_on result }
{
    let mut left = rungs;
    let mut above = ListOf::new(alloc);
    let mut known = Rungs::new(alloc);
    'down: while let Some(rung) = left.take() {
        above.push(rung.oid)?;
        let rung = settle_one(alloc, space, tree, fits, key, above.as_slice(), rung)?;
        known.put_below(rung)?;
    }
    Ok(known)
}
