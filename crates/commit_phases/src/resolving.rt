//! What goes in for a store whose base isn't the object's serial.

ghost use Rattle.std.specs.Prelude.{◌≡◌, ◌<◌, false, is_some, length, IfOk};
ghost use Rattle.zb_model.specs.Queries.{found_below};
ghost use Rattle.zb_model.specs.Stores.{IsOnlyRead};
ghost use Rattle.commit_phases.specs.Decision.{record_with_serial, current_record, resolution_of};
ghost use Rattle.commit_phases.specs.Resolving.{bytes_with, held_of, unread_as, IsResolved, ResolvingOnlyReads};

use std::alloc::{AllocError, Global};
use zb_ids::{Oid, Text8, Tid};
use zb_model::{Found, ResolveError, Resolver, Store, StoreError, Why};

/// Why nothing goes in.
#[derive(Debug, Drop)]
pub(crate) enum Unresolved {
    /// The changes can't be merged.
    Refused(Why),
    /// Reading the store failed.
    ReadFault,
    /// There is no memory.
    Memory,
}

impl From<AllocError> for Unresolved {
    ghost use Rattle.std.specs.Prelude.{◌≡◌};
    ghost use Rattle.commit_phases.specs.declared.resolving.Unresolved.TheVariants.{Memory};

    ghost from_gives = { λ _ error. error ≡ Memory };

    fn from(_error: AllocError) -> Unresolved {
        Unresolved::Memory
    }
}

/// A record, and the serial of its revision.
#[derive(Debug, Drop)]
struct HeldRecord {
    serial: Tid,
    bytes: Text8,
}

/// The record that was found, where the object has one.
fn held(found: Found) -> Option<HeldRecord>
    ensures { result ≡ held_of found }
{
    match found {
        Found::Held {
            serial,
            bytes,
            end: _,
        } => Some(HeldRecord { serial, bytes }),
        Found::Absent { serial: _ } => None,
        Found::Nothing => None,
    }
}

/// Why a read wasn't answered.
fn unread(error: StoreError) -> Unresolved
    ensures { result ≡ unread_as error }
{
    match error {
        StoreError::Memory => Unresolved::Memory,
        StoreError::ReadFault => Unresolved::ReadFault,
        StoreError::StoreFault => Unresolved::ReadFault,
    }
}

/// An object's last record below a front, with its serial, where it has one there.
fn held_below<St: Store>(
    alloc: Global,
    store: &mut St,
    oid: Oid,
    front: Tid,
) -> Result<Option<HeldRecord>, StoreError>
    requires whole { (St.state store.old).broken ≡ false }
    ensures held { St.told
        → IfOk result (λ held. held ≡ held_of (found_below oid front (St.state store.old).list)) }
    ensures read { IsOnlyRead (St.state store.old) (St.state store.new) result }
{
    match store.load_before(alloc, oid, front) {
        Ok(found) => Ok(held(found)),
        Err(error) => Err(error),
    }
}

/// The record that an object has now.
fn load_current<St: Store>(
    alloc: Global,
    store: &mut St,
    oid: Oid,
) -> Result<Option<Text8>, StoreError>
    requires whole { (St.state store.old).broken ≡ false }
    ensures current { St.told → IfOk result (λ bytes. bytes ≡ current_record oid (St.state store.old).list) }
    ensures read { IsOnlyRead (St.state store.old) (St.state store.new) result }
{
    let front = Tid(store.newest().0 + 1);
    match held_below(alloc, store, oid, front)? {
        Some(HeldRecord { serial: _, bytes }) => Ok(Some(bytes)),
        None => Ok(None),
    }
}

/// Whether an object is there now, by one read of it.
pub(crate) fn is_there<St: Store>(
    alloc: Global,
    store: &mut St,
    oid: Oid,
) -> Result<bool, StoreError>
    requires whole { (St.state store.old).broken ≡ false }
    ensures there { St.told
        → IfOk result (λ there. there ≡ is_some (current_record oid (St.state store.old).list)) }
    ensures read { IsOnlyRead (St.state store.old) (St.state store.new) result }
{
    match load_current(alloc, store, oid)? {
        Some(_) => Ok(true),
        None => Ok(false),
    }
}

/// The record, where its revision has this serial.
fn with_serial(held: Option<HeldRecord>, serial: Tid) -> Option<Text8>
    ensures { result ≡ bytes_with serial held }
{
    match held {
        Some(
            HeldRecord {
                serial: found,
                bytes,
            },
        ) => { if found == serial { Some(bytes) } else { None } }
        None => None,
    }
}

/// The record that an object had in its revision with a serial.
fn load_at<St: Store>(
    alloc: Global,
    store: &mut St,
    oid: Oid,
    serial: Tid,
) -> Result<Option<Text8>, StoreError>
    requires whole { (St.state store.old).broken ≡ false }
    ensures at { St.told → IfOk result (λ bytes. bytes ≡ record_with_serial oid serial (St.state store.old).list) }
    ensures read { IsOnlyRead (St.state store.old) (St.state store.new) result }
{
    if serial.0 == u64::MAX {
        return Ok(None);
    }
    let held = held_below(alloc, store, oid, Tid(serial.0 + 1))?;
    Ok(with_serial(held, serial))
}

/// What merging makes of a store over the object's record now and the one that the store was made from.
pub(crate) fn resolve<St: Store, R: Resolver>(
    alloc: Global,
    store: &mut St,
    resolver: &R,
    oid: Oid,
    base: Tid,
    stored: &[u8],
) -> Result<Text8, Unresolved>
    requires whole { (St.state store.old).broken ≡ false }
    ensures resolved { St.told → IsResolved (resolution_of (R.rules resolver.now)
        (St.state store.old).list oid base stored.now) result }
    ensures some { IfOk result (λ bytes. 0 < length bytes) }
    ensures read { ResolvingOnlyReads (St.state store.old) (St.state store.new) result }
{
    if !resolver.has_rule(alloc, stored)? {
        return Err(Unresolved::Refused(Why::NoRule));
    }
    let committed = match load_current(alloc, store, oid) {
        Ok(Some(bytes)) => bytes,
        Ok(None) => return Err(Unresolved::Refused(Why::Gone)),
        Err(error) => return Err(unread(error)),
    };
    let old = match load_at(alloc, store, oid, base) {
        Ok(Some(bytes)) => bytes,
        Ok(None) => return Err(Unresolved::Refused(Why::NoOld)),
        Err(error) => return Err(unread(error)),
    };
    match resolver.resolve(alloc, old.as_slice(), committed.as_slice(), stored) {
        Ok(bytes) => Ok(bytes),
        Err(ResolveError::Refused(why)) => Err(Unresolved::Refused(why)),
        Err(ResolveError::Memory) => Err(Unresolved::Memory),
    }
}
