//! Objects of trees that were read before.

ghost use Rattle.std.specs.Prelude.{◌≡◌, true, Some, IfSome};
ghost use Rattle.btree_family.specs.Classes.{class_seen};
ghost use Rattle.btree_shapes.specs.Nodes.{Holds, held_in};

use btree_family::ClassRow;
use btree_shapes::{Entry, Recalled};
use indexmap::IndexMap;
use std::alloc::{AllocError, Global};
use std::mem::swap;
use zb_ids::{Oid, Text8};

/// How much the objects of one half of what is remembered count together, at most: then the older half is forgotten.
const LIMIT: usize = 1 << 22;

/// How much an object counts beside its bytes.
const EACH: usize = 256;

/// What bytes hold, as an object of a tree whose root has this class.
#[derive(Drop)]
struct Parsed {
    bytes: Text8,
    row: &'static ClassRow,
    entry: Entry,
    ghost holds: { held_in (Some (class_seen row.now)) (Some bytes) ≡ Holds entry.class entry.node },
}

/// What objects of trees held when they were read, so that the same bytes need not be read again. What it holds shows in no
/// answer.
#[derive(Drop)]
pub struct NodeCache {
    // What was remembered last.
    young: IndexMap<Oid, Parsed>,
    // How much of it, by bytes.
    size: usize,
    // What was remembered before that.
    old: IndexMap<Oid, Parsed>,
}

/// What bytes hold, and a copy of them.
fn parsed_copy(bytes: &Text8, row: &'static ClassRow, entry: &Entry) -> Result<Parsed, AllocError>
    requires holds { held_in (Some (class_seen row.now)) (Some bytes.now) ≡ Holds entry.now.class entry.now.node }
{
    let bytes = bytes.clone()?;
    let entry = entry.again()?;
    Ok(Parsed { bytes, row, entry })
}

/// Whether two texts are the same. It looks at all their bytes, so that several are compared at a time.
#[tactic(auto, using(crate::proofs::Recalled::same_start, crate::proofs::Recalled::same_end))]
fn same_bytes(a: &[u8], b: &[u8]) -> bool
    ensures { result ≡ true → a.now ≡ b.now }
{
    if a.len() != b.len() {
        return false;
    }
    let mut same = true;
    let mut place = 0;
    'bytes: while place < a.len() {
        same &= a[place] == b[place];
        place += 1;
    }
    same
}

/// What was parsed, where these are its bytes.
#[tactic(auto, using(crate::proofs::Recalled::held_same))]
fn parsed_as(parsed: &Parsed, bytes: &Text8) -> Option<Recalled>
    ensures { IfSome result (λ recalled. held_in (Some (class_seen recalled.row.now)) (Some bytes.now)
        ≡ Holds recalled.entry.class recalled.entry.node) }
{
    if !same_bytes(parsed.bytes.as_slice(), bytes.as_slice()) {
        return None;
    }
    match parsed.entry.again() {
        Ok(entry) => Some(Recalled {
            row: parsed.row,
            entry,
        }),
        Err(_) => None,
    }
}

/// What an object holds, where it was remembered with these bytes.
fn found_in(nodes: &IndexMap<Oid, Parsed>, oid: Oid, bytes: &Text8) -> Option<Recalled>
    ensures { IfSome result (λ recalled. held_in (Some (class_seen recalled.row.now)) (Some bytes.now)
        ≡ Holds recalled.entry.class recalled.entry.node) }
{
    let parsed = nodes.get(&oid)?;
    parsed_as(parsed, bytes)
}

impl NodeCache {
    /// No object was read. It takes no memory until one is.
    pub fn new(alloc: Global) -> NodeCache {
        NodeCache {
            young: IndexMap::new(alloc),
            size: 0,
            old: IndexMap::new(alloc),
        }
    }

    /// What an object holds, where these are the bytes that it had when it was read last.
    pub(crate) fn find(&self, oid: Oid, bytes: &Text8) -> Option<Recalled>
        ensures { IfSome result (λ recalled. held_in (Some (class_seen recalled.row.now)) (Some bytes.now)
            ≡ Holds recalled.entry.class recalled.entry.node) }
    {
        match found_in(&self.young, oid, bytes) {
            Some(recalled) => Some(recalled),
            None => found_in(&self.old, oid, bytes),
        }
    }

    /// Remembers what an object with these bytes holds, where there is memory for it and it isn't too long. Where too much is
    /// remembered, what is older than the newest half is forgotten first.
    pub(crate) fn keep(&mut self, oid: Oid, bytes: &Text8, row: &'static ClassRow, entry: &Entry)
        requires holds { held_in (Some (class_seen row.now)) (Some bytes.now) ≡ Holds entry.now.class entry.now.node }
    {
        let size = bytes.len().saturating_add(EACH);
        if size > LIMIT {
            return;
        }
        let Ok(parsed) = parsed_copy(bytes, row, entry) else {
            return;
        };
        if self.size.saturating_add(size) > LIMIT {
            swap(&mut self.young, &mut self.old);
            self.young.clear();
            self.size = 0;
        }
        if self.young.insert(oid, parsed).is_ok() {
            self.size = self.size.saturating_add(size);
        }
    }
}
