//! Items and branches without one of them.

ghost use Rattle.std.specs.Prelude.{◌≡◌, ◌<◌, length, IfOk};
ghost use Rattle.btree_removing.specs.Items.{remove_item, cut_branch};

use btree_family::{Item, Key};
use btree_putting::{with_branches, with_items};
use bucket_state::Branch;
use std::alloc::{AllocError, Global};
use zb_ids::ListOf;

/// The items without the first one with a key.
#[tactic(auto, using(crate::proofs::Cutting::items_start, crate::proofs::Cutting::items_here, crate::proofs::Cutting::items_on, crate::proofs::Cutting::items_end))]
pub(crate) fn remove_item(
    alloc: Global,
    items: &[Item],
    key: &Key,
) -> Result<ListOf<Item>, AllocError>
    ensures { IfOk result (λ all. all ≡ remove_item items.now key.now) }
{
    let mut all = ListOf::new(alloc);
    let mut rest = items;
    'items: while let [item, behind @ ..] = rest {
        if item.key == *key {
            return with_items(all, behind);
        }
        all.push(item.clone()?)?;
        rest = behind;
    }
    Ok(all)
}

/// The branches without the one at a place.
#[tactic(auto, using(crate::proofs::Cutting::branch_cut))]
pub(crate) fn cut_branch(
    alloc: Global,
    branches: &[Branch],
    place: usize,
) -> Result<ListOf<Branch>, AllocError>
    requires { place < length branches.now }
    ensures { IfOk result (λ all. all ≡ cut_branch branches.now place) }
{
    let (front, rest) = branches.split_at(place);
    let (_, behind) = rest.split_at(1);
    let all = with_branches(ListOf::new(alloc), front)?;
    let whole = with_branches(all, behind)?;
    Ok(whole)
}
