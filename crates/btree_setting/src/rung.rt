//! The objects above a leaf that is set, as far as a split goes up through them.

ghost use Rattle.std.specs.Prelude.{◌≡◌, IfOk};
ghost use Rattle.btree_setting.specs.Rungs.{child_asked, seam_child, seam_for, rungs_of, is_full};

use btree_family::Key;
use btree_putting::Rungs;
use btree_shapes::{Path, Shared, Step, place_for};
use bucket_state::{Branch, Inner};
use pickle_graph::Pickle;
use std::alloc::{AllocError, Global};
use zb_ids::Oid;

/// What begins the second half of an object that is split.
#[derive(Clone, Copy)]
pub(crate) enum Seam {
    /// The child that was split off below.
    New,
    /// A child that stood there, whose first leaf this is.
    Old(Oid),
    /// This child that stood there, which was not read yet.
    Beside(Oid),
}

/// An object with others below it on the way to a leaf that is set: its number, its class, what it
/// holds, whether its children are leaves, and what begins its second half where it is split.
#[derive(Drop)]
pub(crate) struct Rung {
    pub oid: Oid,
    pub class: Shared<Pickle>,
    pub inner: Shared<Inner>,
    pub leaves: bool,
    pub seam: Seam,
}

/// The child that is to be read, if there is one.
pub(crate) fn child_asked(rung: &Rung) -> Option<Oid>
    ensures { result ≡ child_asked rung.now.seam }
{
    match rung.seam {
        Seam::New => None,
        Seam::Old(_) => None,
        Seam::Beside(child) => Some(child),
    }
}

/// The child that begins the second half, where one stands there already, once a child was put in
/// at a place.
fn seam_child(tail: &[Branch], place: usize) -> Option<Oid>
    ensures { result ≡ seam_child tail.now place }
{
    let middle = tail.len() / 2;
    if middle == place {
        return None;
    }
    let at = if middle < place { middle } else { middle - 1 };
    match tail.get(at) {
        None => None,
        Some(branch) => Some(branch.child),
    }
}

/// What begins the second half of an object, whose child on the way has this first leaf; `leaves`
/// says whether the children are leaves.
fn seam_for(tail: &[Branch], key: &Key, leaves: bool, first: Oid) -> Seam
    ensures { result ≡ seam_for tail.now key.now leaves first }
{
    let place = place_for(tail, key);
    match seam_child(tail, place) {
        None => Seam::New,
        Some(child) => {
            if leaves {
                return Seam::Old(child);
            }
            if tail.len() / 2 < place && place - tail.len() / 2 == 1 {
                return Seam::Old(first);
            }
            Seam::Beside(child)
        }
    }
}

/// Whether an object has too many children once it gets one more.
fn is_full(max: usize, inner: &Inner) -> bool
    ensures { result ≡ is_full max inner.now }
{
    let count = inner.tail.len();
    max <= count || max - count < 2
}

/// The objects of a way, as far as a split goes up through them. `splits` says whether the leaf is
/// split.
#[tactic(auto, using(crate::proofs::Rising::rungs_start, crate::proofs::Rising::rungs_step, crate::proofs::Rising::rungs_end))]
pub(crate) fn rungs_of(
    alloc: Global,
    max: usize,
    key: &Key,
    splits: bool,
    path: Path,
    leaf: Oid,
) -> Result<Rungs<Rung>, AllocError>
    ensures { IfOk result (λ rungs. rungs ≡ rungs_of max key.now splits leaf path) }
{
    let mut path = path;
    let mut rungs = Rungs::new(alloc);
    let mut leaves = true;
    let mut grows = splits;
    let mut first = leaf;
    'up: while let Some(step) = path.pop() {
        let Step { oid, class, inner } = step;
        grows = grows && is_full(max, &inner);
        let seam = if grows {
            seam_for(inner.tail.as_slice(), key, leaves, first)
        } else {
            Seam::New
        };
        first = inner.first;
        let rung = Rung {
            oid,
            class,
            inner,
            leaves,
            seam,
        };
        rungs.put_above(rung)?;
        leaves = false;
    }
    Ok(rungs)
}
