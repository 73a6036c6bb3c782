//! What is pending in each area after some calls, found by making them again.

ghost use Rattle.std.specs.Prelude.{◌≡◌, ℕ, ◌≤◌, List, [], ◌∷◌, length, take, OnOk, OnErr, IfOk};
ghost use Rattle.zb_volume.specs.declared.areas.Area.{Area};
ghost use Rattle.zb_volume.specs.Calls.{WriteAt, CutTo, SyncOf};
ghost use Rattle.zb_volume.specs.Disk.{Disk, written, changed_to, settled, disk, after_call};
ghost use Rattle.zb_volume.specs.Kept.{log_of, calls_of, call_of};
ghost use Rattle.zb_volume.specs.Replays.{IsReplay, AreReplays};

use crate::Area;
use crate::kept::KeptCall;
use std::alloc::{AllocError, Global};
use std::mem;

/// An area: what a read gives, the bytes of the last sync, and each content since then, the oldest
/// first.
#[derive(Drop)]
pub struct Replay {
    pub current: Vec<u8>,
    pub synced: Vec<u8>,
    pub since: Vec<Vec<u8>>,
}

/// The areas.
#[derive(Drop)]
pub struct Areas {
    pub main: Replay,
    pub side: Replay,
    pub hint: Replay,
}

/// An area without bytes, with nothing pending.
pub fn empty(alloc: Global) -> Replay
    ensures { IsReplay result (settled []) }
{
    Replay {
        current: Vec::new(alloc),
        synced: Vec::new(alloc),
        since: Vec::new(alloc),
    }
}

/// Puts bytes in the place of others from `at` on, and past the end. Where there is no memory,
/// nothing changes.
pub fn overwrite(content: &mut Vec<u8>, at: usize, bytes: &[u8]) -> Result<(), AllocError>
    requires { at ≤ length content.old.items }
    ensures ok { OnOk result (content.new.items ≡ written content.old.items at bytes.now) }
    ensures err { OnErr result (content.new.items ≡ content.old.items) }
{
    let room = content.len() - at;
    if bytes.len() <= room {
        content[at..at + bytes.len()].copy_from_slice(bytes);
    } else {
        content.extend_from_slice(&bytes[room..])?;
        content[at..at + room].copy_from_slice(&bytes[..room]);
    }
    Ok(())
}

// One content more, which is there now.
#[tactic(auto, using(crate::proofs::Contents::contents_of_push))]
fn change(alloc: Global, area: &mut Replay, next: Vec<u8>) -> Result<(), AllocError>
    ensures ok { OnOk result ((d : Disk) → IsReplay area.old d →
        IsReplay area.new (changed_to next.items d)) }
{
    let copy = next.as_slice().to_vec(alloc)?;
    area.since.push(copy)?;
    area.current = next;
    Ok(())
}

fn write(alloc: Global, area: &mut Replay, at: u64, bytes: &[u8]) -> Result<(), AllocError>
    ensures ok { OnOk result ((d : Disk) → IsReplay area.old d →
        IsReplay area.new (changed_to (written area.old.current.items at bytes.now) d)) }
{
    let mut next = area.current.as_slice().to_vec(alloc)?;
    let place = (at as usize).min(next.len());
    overwrite(&mut next, place, bytes)?;
    change(alloc, area, next)
}

fn cut(alloc: Global, area: &mut Replay, length: u64) -> Result<(), AllocError>
    ensures ok { OnOk result ((d : Disk) → IsReplay area.old d →
        IsReplay area.new (changed_to (take length area.old.current.items) d)) }
{
    let mut next = area.current.as_slice().to_vec(alloc)?;
    next.truncate(length as usize);
    change(alloc, area, next)
}

fn sync(alloc: Global, area: &mut Replay) -> Result<(), AllocError>
    ensures ok { OnOk result ((d : Disk) → IsReplay area.old d →
        IsReplay area.new (settled area.old.current.items)) }
{
    area.synced = area.current.as_slice().to_vec(alloc)?;
    area.since.clear();
    Ok(())
}

fn write_in(
    alloc: Global,
    areas: &mut Areas,
    area: Area,
    at: u64,
    bytes: &[u8],
) -> Result<(), AllocError>
    ensures { OnOk result ((d : Area → Disk) → AreReplays areas.old d →
        AreReplays areas.new (after_call (WriteAt area at bytes.now) d)) }
{
    match area {
        Area::Main => write(alloc, &mut areas.main, at, bytes),
        Area::Side => write(alloc, &mut areas.side, at, bytes),
        Area::Hint => write(alloc, &mut areas.hint, at, bytes),
    }
}

fn cut_in(alloc: Global, areas: &mut Areas, area: Area, length: u64) -> Result<(), AllocError>
    ensures { OnOk result ((d : Area → Disk) → AreReplays areas.old d →
        AreReplays areas.new (after_call (CutTo area length) d)) }
{
    match area {
        Area::Main => cut(alloc, &mut areas.main, length),
        Area::Side => cut(alloc, &mut areas.side, length),
        Area::Hint => cut(alloc, &mut areas.hint, length),
    }
}

fn sync_in(alloc: Global, areas: &mut Areas, area: Area) -> Result<(), AllocError>
    ensures { OnOk result ((d : Area → Disk) → AreReplays areas.old d →
        AreReplays areas.new (after_call (SyncOf area) d)) }
{
    match area {
        Area::Main => sync(alloc, &mut areas.main),
        Area::Side => sync(alloc, &mut areas.side),
        Area::Hint => sync(alloc, &mut areas.hint),
    }
}

// One call more.
fn step(alloc: Global, areas: &mut Areas, call: &KeptCall) -> Result<(), AllocError>
    ensures { OnOk result ((d : Area → Disk) → AreReplays areas.old d →
        AreReplays areas.new (after_call (call_of call.now) d)) }
{
    match call {
        KeptCall::Wrote(area, at, bytes) => write_in(alloc, areas, *area, *at, bytes),
        KeptCall::Cut(area, length) => cut_in(alloc, areas, *area, *length),
        KeptCall::Synced(area) => sync_in(alloc, areas, *area),
        KeptCall::Replaced => {
            areas.main = mem::replace(&mut areas.side, empty(alloc));
            Ok(())
        }
    }
}

/// The areas after these calls, the oldest first, on a volume that was empty.
pub fn make_again(alloc: Global, calls: &[KeptCall]) -> Result<Areas, AllocError>
    ensures { IfOk result (λ areas. AreReplays areas (disk (log_of (calls_of calls.now)))) }
{
    let mut areas = Areas {
        main: empty(alloc),
        side: empty(alloc),
        hint: empty(alloc),
    };
    for call in calls {
        step(alloc, &mut areas, call)?;
    }
    Ok(areas)
}
