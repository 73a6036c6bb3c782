//! The calls that a volume in memory keeps.

ghost use Rattle.std.specs.Prelude.{◌≡◌, List, ◌∷◌, length, take, OnOk, OnErr};
ghost use Rattle.zb_volume.specs.Calls.{WriteAt};
ghost use Rattle.zb_volume.specs.Kept.{calls_of, call_of};

use crate::Area;
use std::alloc::{AllocError, Global};

/// A call that changed the volume, with what it was given.
#[derive(Drop)]
pub enum KeptCall {
    Wrote(Area, u64, Vec<u8>),
    Cut(Area, u64),
    Synced(Area),
    Replaced,
}

/// Keeps one call more. Where there is no memory, nothing changes.
pub fn keep(calls: &mut Vec<KeptCall>, call: KeptCall) -> Result<(), AllocError>
    ensures ok { OnOk result (calls_of calls.new.items ≡ call_of call ∷ calls_of calls.old.items) }
    ensures front { OnOk result (take (length calls.old.items) calls.new.items ≡ calls.old.items) }
    ensures err { OnErr result (calls.new.items ≡ calls.old.items) }
{
    calls.push(call)?;
    Ok(())
}

/// Keeps a write, with a copy of its bytes. Where there is no memory, nothing changes.
pub fn keep_write(
    alloc: Global,
    calls: &mut Vec<KeptCall>,
    area: Area,
    at: u64,
    bytes: &[u8],
) -> Result<(), AllocError>
    ensures ok { OnOk result (calls_of calls.new.items
        ≡ WriteAt area at bytes.now ∷ calls_of calls.old.items) }
    ensures front { OnOk result (take (length calls.old.items) calls.new.items ≡ calls.old.items) }
    ensures err { OnErr result (calls.new.items ≡ calls.old.items) }
{
    let copy = bytes.to_vec(alloc)?;
    keep(calls, KeptCall::Wrote(area, at, copy))
}
