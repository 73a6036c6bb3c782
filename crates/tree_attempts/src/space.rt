//! The space of a call: what is known, and the numbers that were drawn.

ghost use Rattle.std.specs.Prelude.{◌≡◌, ◌<◌, ◌++◌, ◌∷◌, [], ℕ, List, Option, map, take, length, slice_get, true, Some, IfOk, IfErr, IfSome, OnOk, OnErr};
ghost use Rattle.std.specs.Option.{option_map};
ghost use Rattle.btree_maps.specs.Drawn.{drawn_in};
ghost use Rattle.btree_shapes.specs.declared.space.Call.TheVariants.{Read, Wrote};
ghost use Rattle.btree_shapes.specs.Spaces.{IsContentOf, refused};
ghost use Rattle.btree_shapes.specs.Ways.{stands_in};
ghost use Rattle.tree_attempts.specs.declared.known.Seen.{Seen};
ghost use Rattle.tree_attempts.specs.Known.{Agrees};
ghost use Rattle.tree_attempts.specs.Calls.{IsLacked, bases_of, contents_after, contents_of, oids_of, written_in};
ghost use Rattle.tree_attempts.specs.Puts;
ghost use Rattle.tree_attempts.specs.Puts.{are_filled, based_on};

use crate::cache::NodeCache;
use crate::known::{Known, Seen};
use crate::put::TreePut;
use crate::sight::Sight;
use btree_family::ClassRow;
use btree_shapes::{Call, Entry, Recalled, Space, SpaceError};
use std::alloc::{AllocError, Global};
use std::marker::PhantomData;
use zb_ids::{ListOf, Oid, Text8, Tid};
use zb_record::{ObjectRecord, RecordError, read_record};

/// The objects that are known, with what the call puts over them, and the numbers that it may give to new ones. Where an object
/// isn't known, the call ends as for want of memory.
#[derive(Drop)]
pub(crate) struct KnownSpace<'a, B: Sight> {
    pub alloc: Global,
    pub known: &'a Known,
    pub cache: &'a mut NodeCache,
    pub numbers: &'a [Oid],
    /// How many of the numbers were given.
    pub used: usize,
    pub puts: ListOf<TreePut>,
    pub calls: Vec<Call>,
    /// An object that the call lacked, since it isn't known yet.
    pub lacked: Option<Oid>,
    pub of: PhantomData<B>,
    ghost agrees: { Agrees known.now B.objects },
    ghost numbered: { numbers.now ≡ B.numbers },
    ghost drawn: { drawn_in calls.items ≡ take used B.numbers },
    ghost written: { written_in calls.items ≡ oids_of puts },
    ghost based: { bases_of puts ≡ map (based_on B.numbers B.objects) (oids_of puts) },
    ghost filled: { are_filled puts ≡ true },
    ghost lacking: { IsLacked calls.items lacked },
}

/// The record that bytes are.
fn read(alloc: Global, bytes: &Text8) -> Result<ObjectRecord, SpaceError>
    ensures content { IsContentOf (Some bytes.now) result }
    ensures own { refused result ≡ [] }
{
    match read_record(alloc, bytes.as_slice()) {
        Ok(entry) => Ok(entry),
        Err(RecordError::Memory) => Err(SpaceError::Memory),
        Err(RecordError::Pickle(_)) => Err(SpaceError::NoRecord),
        Err(RecordError::Rest { at: _ }) => Err(SpaceError::NoRecord),
        Err(RecordError::BadClass) => Err(SpaceError::NoRecord),
    }
}

/// The record of an object that is known.
pub(crate) fn read_seen(alloc: Global, seen: &Option<Seen>) -> Result<ObjectRecord, SpaceError>
    ensures content { IsContentOf (option_map (λ x. x.bytes) seen.now) result }
    ensures own { refused result ≡ [] }
{
    match seen {
        Some(seen) => read(alloc, &seen.bytes),
        None => Err(SpaceError::NoNode),
    }
}

/// The bytes that stand at an object, where they are those of the last put, or it is known and nothing is put yet.
#[tactic(auto, using(crate::proofs::Recalled::bytes_stand, crate::proofs::Recalled::bytes_put))]
fn bytes_standing<'a>(known: &'a Known, puts: &'a ListOf<TreePut>, oid: Oid) -> Option<&'a Text8>
    ensures { (objects : ℕ → Option Seen) → Agrees known.now objects
        → IfSome result (λ bytes. contents_after puts.now (contents_of objects) oid ≡ Some bytes.now) }
{
    if puts.is_empty() {
        return match known.find(oid) {
            Some(Some(seen)) => Some(&seen.bytes),
            _ => None,
        };
    }
    match puts.as_slice().last() {
        Some(put) => {
            if put.oid == oid {
                Some(&put.bytes)
            } else {
                None
            }
        }
        None => None,
    }
}

/// Whether a number is one of these.
fn is_among(numbers: &[Oid], oid: Oid) -> bool
    ensures { result ≡ stands_in numbers.now oid }
{
    numbers.iter().any(|number| *number == oid)
}

/// The serial of an object that is known: 0 where it has nothing.
fn serial_seen(seen: &Option<Seen>) -> Tid
    ensures { result ≡ Puts.serial_seen seen.now }
{
    match seen {
        Some(seen) => seen.serial,
        None => Tid(0),
    }
}

/// What a put of an object is made from: 0 for a new object, else what is known of it, if it is known.
#[tactic(auto, using(crate::proofs::Tracking::base_new, crate::proofs::Tracking::base_known))]
fn base_for(known: &Known, numbers: &[Oid], oid: Oid) -> Option<Tid>
    ensures { (objects : ℕ → Option Seen) → Agrees known.now objects
        → IfSome result (λ base. base ≡ based_on numbers.now objects oid) }
{
    if is_among(numbers, oid) {
        return Some(Tid(0));
    }
    match known.find(oid) {
        Some(seen) => Some(serial_seen(seen)),
        None => None,
    }
}

/// The number at a place, if there is one.
fn number_at(numbers: &[Oid], at: usize) -> Option<Oid>
    ensures number { result ≡ slice_get numbers.now at }
    ensures within { IfSome result (λ number. at < length numbers.now) }
{
    match numbers.get(at) {
        Some(number) => Some(*number),
        None => None,
    }
}

/// Notes a call.
#[tactic(auto, using(crate::proofs::Reading::lacked_more))]
fn note_call(calls: &mut Vec<Call>, call: Call) -> Result<(), AllocError>
    ensures lacked { (lacked : Option ℕ) → IsLacked calls.old.items lacked → IsLacked calls.new.items lacked }
    ensures ok { OnOk result (calls.new.items ≡ calls.old.items ++ call ∷ []) }
    ensures err { OnErr result (calls.new.items ≡ calls.old.items) }
{
    calls.push(call)?;
    Ok(())
}

/// Notes a read.
#[tactic(auto, using(crate::proofs::Tracking::read_drawn, crate::proofs::Tracking::read_written))]
fn note_read(calls: &mut Vec<Call>, oid: Oid) -> Result<(), AllocError>
    ensures ok { OnOk result (calls.new.items ≡ calls.old.items ++ Read oid ∷ []) }
    ensures err { OnErr result (calls.new.items ≡ calls.old.items) }
    ensures drawn { drawn_in calls.new.items ≡ drawn_in calls.old.items }
    ensures written { written_in calls.new.items ≡ written_in calls.old.items }
    ensures lacked { (lacked : Option ℕ) → IsLacked calls.old.items lacked → IsLacked calls.new.items lacked }
{
    note_call(calls, Call::Read(oid))?;
    Ok(())
}

/// Notes what is put.
#[tactic(auto, using(crate::proofs::Tracking::wrote_drawn, crate::proofs::Tracking::wrote_written, crate::proofs::Tracking::based_more, crate::proofs::Tracking::filled_more))]
fn note_put(
    calls: &mut Vec<Call>,
    puts: &mut ListOf<TreePut>,
    put: TreePut,
) -> Result<(), AllocError>
    ensures calls { OnOk result (calls.new.items ≡ calls.old.items ++ Wrote put.oid ∷ []) }
    ensures puts { OnOk result (puts.new ≡ puts.old ++ put ∷ []) }
    ensures drawn { drawn_in calls.new.items ≡ drawn_in calls.old.items }
    ensures written { written_in calls.old.items ≡ oids_of puts.old → written_in calls.new.items ≡ oids_of puts.new }
    ensures based { (f : ℕ → ℕ) → put.base ≡ f put.oid → bases_of puts.old ≡ map f (oids_of puts.old)
        → bases_of puts.new ≡ map f (oids_of puts.new) }
    ensures filled { 0 < length put.bytes → are_filled puts.old ≡ true → are_filled puts.new ≡ true }
    ensures lacked { (lacked : Option ℕ) → IsLacked calls.old.items lacked → IsLacked calls.new.items lacked }
    ensures err { OnErr result (puts.new ≡ puts.old) }
    ensures same { OnErr result (calls.new.items ≡ calls.old.items) }
{
    note_call(calls, Call::Wrote(put.oid))?;
    let Err(_) = puts.push(put) else {
        return Ok(());
    };
    let _ = calls.pop();
    Err(AllocError)
}

impl<'a, B: Sight> Space for KnownSpace<'a, B> {
    ghost use Rattle.std.specs.Prelude.{[]};
    ghost use Rattle.tree_attempts.specs.Calls.{contents_after, contents_of};

    ghost contents = { λ space. contents_after space.puts (contents_of B.objects) };

    ghost told = { Unit {0} };

    ghost log = { λ space. space.calls.items };

    ghost refusals = { λ space. [] };

    fn node(&mut self, oid: Oid) -> Result<ObjectRecord, SpaceError> {
        match note_call(&mut self.calls, Call::Read(oid)) {
            Ok(()) => {}
            Err(_) => return Err(SpaceError::Memory),
        }
        if !self.puts.is_empty() {
            return Err(SpaceError::Memory);
        }
        match self.known.find(oid) {
            Some(seen) => read_seen(self.alloc, seen),
            None => {
                self.lacked = Some(oid);
                Err(SpaceError::Memory)
            }
        }
    }

    #[tactic(auto, using(crate::proofs::Tracking::text_filled))]
    fn put_text(&mut self, oid: Oid, bytes: Text8) -> Result<(), SpaceError> {
        let Some(base) = base_for(self.known, self.numbers, oid) else {
            return Err(SpaceError::Memory);
        };
        match note_put(
            &mut self.calls,
            &mut self.puts,
            TreePut { oid, base, bytes },
        ) {
            Ok(()) => Ok(()),
            Err(_) => Err(SpaceError::Memory),
        }
    }

    fn new_node(&mut self) -> Result<Oid, SpaceError> {
        let Some(oid) = number_at(self.numbers, self.used) else {
            return Err(SpaceError::Memory);
        };
        match note_call(&mut self.calls, Call::Drew(oid)) {
            Ok(()) => {
                self.used += 1;
                Ok(oid)
            }
            Err(_) => Err(SpaceError::Memory),
        }
    }

    #[tactic(auto, using(crate::proofs::Recalled::held_same))]
    fn recall(&self, oid: Oid) -> Option<Recalled> {
        let bytes = bytes_standing(self.known, &self.puts, oid)?;
        self.cache.find(oid, bytes)
    }

    fn reread(&mut self, oid: Oid) -> Result<(), AllocError> {
        note_read(&mut self.calls, oid)
    }

    #[tactic(auto, using(crate::proofs::Recalled::held_same))]
    fn remember(&mut self, oid: Oid, row: &'static ClassRow, entry: &Entry) {
        if let Some(bytes) = bytes_standing(self.known, &self.puts, oid) {
            self.cache.keep(oid, bytes, row, entry);
        }
    }
}
