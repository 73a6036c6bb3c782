//! Reading lists of numbers loosely.

ghost use Rattle.std.specs.Prelude.{◌≡◌, length, IfOk};
ghost use Rattle.zeo_values.specs.Leaves.{behind, behind_ids, ids_at, ids_in, ids_left};

use crate::leaves::{behind, byte_in, id_in, items_in};
use std::alloc::{AllocError, Global};
use zb_ids::{ListOf, Oid, Tid};

/// The objects of a list, from its first item on.
#[tactic(auto, using(crate::specs::ItemLaws::items_on, crate::specs::ItemLaws::items_off, crate::specs::ItemLaws::items_over))]
pub fn oids_at(alloc: Global, bytes: &[u8]) -> Result<ListOf<Oid>, AllocError>
    ensures { IfOk result (λ oids. oids ≡ ids_at bytes.now) }
{
    let mut oids = ListOf::new(alloc);
    let mut rest = bytes;
    for _i in 0..bytes.len() {
        if byte_in(0, rest) != 0x43 {
            return Ok(oids);
        }
        oids.push(Oid(id_in(rest)))?;
        rest = behind(10, rest);
    }
    Ok(oids)
}

/// The transactions of a list, from its first item on.
#[tactic(auto, using(crate::specs::ItemLaws::items_on, crate::specs::ItemLaws::items_off, crate::specs::ItemLaws::items_over))]
fn tids_at(alloc: Global, bytes: &[u8]) -> Result<ListOf<Tid>, AllocError>
    ensures { IfOk result (λ tids. tids ≡ ids_at bytes.now) }
{
    let mut tids = ListOf::new(alloc);
    let mut rest = bytes;
    for _i in 0..bytes.len() {
        if byte_in(0, rest) != 0x43 {
            return Ok(tids);
        }
        tids.push(Tid(id_in(rest)))?;
        rest = behind(10, rest);
    }
    Ok(tids)
}

/// The objects of a list.
pub fn oids_in(alloc: Global, bytes: &[u8]) -> Result<ListOf<Oid>, AllocError>
    ensures { IfOk result (λ oids. oids ≡ ids_in bytes.now) }
{
    oids_at(alloc, items_in(bytes))
}

/// The transactions of a list.
pub fn tids_in(alloc: Global, bytes: &[u8]) -> Result<ListOf<Tid>, AllocError>
    ensures { IfOk result (λ tids. tids ≡ ids_in bytes.now) }
{
    tids_at(alloc, items_in(bytes))
}

/// What stands behind the objects of a list.
#[tactic(auto, using(crate::specs::ItemLaws::left_on, crate::specs::ItemLaws::left_off, crate::specs::ItemLaws::left_over))]
fn ids_left(bytes: &[u8]) -> &[u8]
    ensures { result.now ≡ ids_left bytes.now }
{
    let mut rest = bytes;
    for _i in 0..bytes.len() {
        if byte_in(0, rest) != 0x43 {
            return rest;
        }
        rest = behind(10, rest);
    }
    rest
}

/// What stands behind a list of objects.
pub fn behind_ids(bytes: &[u8]) -> &[u8]
    ensures { result.now ≡ behind_ids bytes.now }
{
    let items = items_in(bytes);
    if byte_in(0, items) == 0x43 {
        behind(1, ids_left(items))
    } else {
        items
    }
}
