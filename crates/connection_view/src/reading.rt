//! Reading through a cache.

ghost use Rattle.std.specs.Prelude.{◌≡◌, IfErr, IfOk};
ghost use Rattle.connection_view.specs.Loading.{Reads};
ghost use Rattle.zb_model.specs.declared.refusal.Refusal.TheVariants as refusal;
ghost use Rattle.connection_view.specs.Views.{Client, Later, View, current};
ghost use Rattle.connection_view.specs.Connections.{CachesView, IsReadBy};

use crate::loads::{Loaded, Loads};
use object_cache::ObjectCache;
use zb_ids::{Oid, Text8, Tid};
use zb_model::Refusal;

/// The most bytes that an object has which is cached. A read copies what it finds in the cache, so a large object would
/// be there twice, and costs as much to copy as to load.
const MOST_CACHED: usize = 1 << 20;

/// Where a read sees from: the front, and how often the list had been packed.
#[derive(Drop)]
pub(crate) struct Sight {
    pub(crate) front: Tid,
    pub(crate) switches: u64,
}

/// The serial and the bytes that an object has in a view: what is cached of it, or else what is loaded, which is
/// cached then.
#[tactic(auto, using(crate::proofs::Answered::found_read, crate::proofs::Answered::same_cached, crate::proofs::Answered::server_unread, crate::proofs::Answered::held_read, crate::proofs::Answered::missing_read))]
pub(crate) fn read<L: Loads>(
    cache: &mut ObjectCache,
    loads: &mut L,
    sight: &Sight,
    oid: Oid,
) -> Result<(Tid, Text8), Refusal>
    ensures reads { (u : View) (c : Client) → L.stands loads.old c → Later u c.told → u.front ≡ sight.now.front
        → u.switches ≡ sight.now.switches → CachesView u cache.old.objects → Reads u (L.state loads.old) oid result }
    ensures cached { (u : View) (c : Client) → L.stands loads.old c → Later u c.told → u.front ≡ sight.now.front
        → CachesView u cache.old.objects → CachesView u cache.new.objects }
    ensures stands { (c : Client) → L.stands loads.old c → L.stands loads.new c }
    ensures state { L.told → L.state loads.new ≡ L.state loads.old }
    ensures makes { IsReadBy L.makes loads.old loads.new oid sight.now.front sight.now.switches result }
    ensures place { L.place loads.new ≡ L.place loads.old }
    ensures capacity { cache.new.capacity ≡ cache.old.capacity }
{
    let found = match cache.find(oid, sight.front) {
        Err(_) => return Err(Refusal::Memory),
        Ok(found) => found,
    };
    if let Some((serial, bytes)) = found {
        return Ok((serial, bytes));
    }
    let loaded = match loads.load(oid, sight.front) {
        Err(refusal) => return Err(refusal),
        Ok(loaded) => loaded,
    };
    match loaded {
        Loaded::Held { serial, bytes } => keep(cache, oid, serial, bytes),
        Loaded::Nothing { switches } => Err(Refusal::Missing {
            oid,
            packed: switches != sight.switches,
        }),
    }
}

/// Caches what was loaded of an object, unless that is large, and answers it.
#[tactic(auto, using(crate::proofs::Answered::also_cached))]
pub(crate) fn keep(
    cache: &mut ObjectCache,
    oid: Oid,
    serial: Tid,
    bytes: Text8,
) -> Result<(Tid, Text8), Refusal>
    ensures ok { IfOk result (λ d. d ≡ (serial, bytes)) }
    ensures err { IfErr result (λ r. r ≡ refusal.Memory) }
    ensures cached { (u : View) → current u oid ≡ Some (serial, bytes)
        → CachesView u cache.old.objects → CachesView u cache.new.objects }
    ensures capacity { cache.new.capacity ≡ cache.old.capacity }
{
    if bytes.len() > MOST_CACHED {
        return Ok((serial, bytes));
    }
    let Ok(copy) = bytes.clone() else {
        return Err(Refusal::Memory);
    };
    match cache.keep(oid, serial, copy) {
        Ok(()) => Ok((serial, bytes)),
        Err(_) => Err(Refusal::Memory),
    }
}
