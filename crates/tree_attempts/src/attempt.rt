//! An attempt at a call.

ghost use Rattle.std.specs.Prelude.{◌≡◌, [], ℕ, Option, IfOk, Some, length, map, true};
ghost use Rattle.std.specs.List.{list_all};
ghost use Rattle.std.specs.Option.{option_map};
ghost use Rattle.btree_maps.specs.Drawn.{drawn_in};
ghost use Rattle.btree_shapes.specs.Spaces.{handed_on};
ghost use Rattle.tree_attempts.specs.declared.known.Seen.{Seen};
ghost use Rattle.tree_attempts.specs.Calls;
ghost use Rattle.tree_attempts.specs.Calls.{CallEnds, HasRead, IsAttempt, IsLacked, IsWant, IsWanted, bases_of, contents_after, contents_of, has_members, is_set_kind, oids_of, written_in};
ghost use Rattle.tree_attempts.specs.Known.{Agrees};
ghost use Rattle.tree_attempts.specs.Puts.{are_filled, based_on};

use crate::cache::NodeCache;
use crate::known::{Known, Seen};
use crate::operation::{TreeAnswer, TreeOperation};
use crate::put::TreePut;
use crate::sight::Sight;
use crate::space::KnownSpace;
use btree_family::{Key, Kind};
use btree_maps::Tree;
use btree_setting::SetEnd;
use btree_shapes::{Call, TreeError, class_of};
use std::alloc::{AllocError, Global};
use std::marker::PhantomData;
use zb_ids::{ListOf, Oid, Text8};
use zb_model::Refusal;
use zb_record::{RecordError, read_record};

/// A call that is answered.
#[derive(Debug, Drop)]
pub struct Made {
    /// The answer.
    pub answer: TreeAnswer,
    /// What it puts, in this order; each has bytes.
    pub puts: ListOf<TreePut>,
}

/// How an attempt at a call ends.
#[derive(Debug, Drop)]
pub enum Attempt {
    /// The call is answered.
    Made(
        /// How.
        Made,
    ),
    /// The call is refused.
    Refused(
        /// Why: `NotATree`, `NodeMissing` or `BadKey`.
        Refusal,
    ),
    /// An object has to be read first.
    WantsObject {
        /// The object.
        oid: Oid,
    },
    /// One more number has to be drawn first: all objects were read, and the call needs more numbers than there are.
    WantsNumber,
}

/// Whether objects of a class of this kind have members, and no values.
fn is_set_kind(kind: Kind) -> bool
    ensures { result ≡ is_set_kind kind }
{
    match kind {
        Kind::Set | Kind::TreeSet => true,
        Kind::Bucket | Kind::Tree => false,
    }
}

/// Whether the object with these bytes has members, and no values.
fn have_members(alloc: Global, bytes: &Text8) -> Result<bool, AllocError>
    ensures { IfOk result (λ members. members ≡ has_members (Some bytes.now)) }
{
    let object = match read_record(alloc, bytes.as_slice()) {
        Ok(object) => object,
        Err(RecordError::Memory) => return Err(AllocError),
        Err(_) => return Ok(false),
    };
    match class_of(&object.class) {
        Some(row) => Ok(is_set_kind(row.kind)),
        None => Ok(false),
    }
}

/// Whether an object that is known has members, and no values.
fn seen_has_members(alloc: Global, seen: &Option<Seen>) -> Result<bool, AllocError>
    ensures { IfOk result (λ members. members ≡ has_members (option_map (λ x. x.bytes) seen.now)) }
{
    match seen {
        Some(seen) => have_members(alloc, &seen.bytes),
        None => Ok(false),
    }
}

/// Whether what stands at the root has members, and no values.
#[tactic(auto, using(crate::proofs::Tracking::members_known))]
fn root_has_members(alloc: Global, known: &Known, root: Oid) -> Result<bool, AllocError>
    ensures { (objects : ℕ → Option Seen) → Agrees known.now objects
        → IfOk result (λ members. members ≡ has_members (contents_of objects root)) }
{
    let Some(seen) = known.find(root) else {
        return Err(AllocError);
    };
    seen_has_members(alloc, seen)
}

/// The tree with this root. Its numbers are [`LEAF`](crate::LEAF) and [`INNER`](crate::INNER).
fn tree_at(root: Oid) -> Tree<30, 250>
    ensures { result.root ≡ root }
{
    Tree { root }
}

#[tactic(auto, using(crate::proofs::Reading::get_reads))]
fn value_of<B: Sight>(
    space: &mut KnownSpace<B>,
    root: Oid,
    key: &Key,
) -> Result<Option<TreeAnswer>, TreeError>
    requires fresh { space.old.calls.items ≡ [] }
    requires empty { space.old.puts ≡ [] }
    ensures ends { CallEnds (contents_of B.objects) (contents_after space.new.puts (contents_of B.objects)) space.new.calls.items
        root (TreeOperation.Get key.now) (length space.old.numbers.now) result }
    ensures own { handed_on result ≡ [] }
{
    let alloc = space.alloc;
    let value = tree_at(root).get(alloc, space, key)?;
    Ok(Some(TreeAnswer::Value(value)))
}

#[tactic(auto, using(crate::proofs::Setting::set_done, crate::proofs::Setting::set_lacks))]
fn set_value<B: Sight>(
    space: &mut KnownSpace<B>,
    root: Oid,
    key: Key,
    value: Option<Text8>,
) -> Result<Option<TreeAnswer>, TreeError>
    requires fresh { space.old.calls.items ≡ [] }
    requires empty { space.old.puts ≡ [] }
    ensures ends { CallEnds (contents_of B.objects) (contents_after space.new.puts (contents_of B.objects)) space.new.calls.items
        root (TreeOperation.Set key value) (length space.old.numbers.now) result }
    ensures own { handed_on result ≡ [] }
{
    let alloc = space.alloc;
    let numbers = space.numbers;
    let supply = numbers.len();
    let ended = match tree_at(root).set_within(alloc, space, key, value, supply, numbers) {
        Ok(ended) => ended,
        Err(error) => return Err(error),
    };
    match ended {
        SetEnd::Done => Ok(Some(TreeAnswer::Set)),
        SetEnd::Lacks => Ok(None),
    }
}

fn remove_key<B: Sight>(
    space: &mut KnownSpace<B>,
    root: Oid,
    key: &Key,
) -> Result<Option<TreeAnswer>, TreeError>
    requires fresh { space.old.calls.items ≡ [] }
    requires empty { space.old.puts ≡ [] }
    ensures ends { CallEnds (contents_of B.objects) (contents_after space.new.puts (contents_of B.objects)) space.new.calls.items
        root (TreeOperation.Remove key.now) (length space.old.numbers.now) result }
    ensures own { handed_on result ≡ [] }
{
    let alloc = space.alloc;
    let was = match tree_at(root).remove(alloc, space, key) {
        Ok(was) => was,
        Err(error) => return Err(error),
    };
    Ok(Some(TreeAnswer::Removed { was }))
}

#[tactic(auto, using(crate::proofs::Reading::items_read))]
fn all_items<B: Sight>(
    space: &mut KnownSpace<B>,
    root: Oid,
) -> Result<Option<TreeAnswer>, TreeError>
    requires fresh { space.old.calls.items ≡ [] }
    requires empty { space.old.puts ≡ [] }
    ensures ends { CallEnds (contents_of B.objects) (contents_after space.new.puts (contents_of B.objects)) space.new.calls.items
        root TreeOperation.Items (length space.old.numbers.now) result }
    ensures own { handed_on result ≡ [] }
{
    let alloc = space.alloc;
    let list = tree_at(root).items(alloc, space)?;
    let is_set = root_has_members(alloc, space.known, root)?;
    Ok(Some(TreeAnswer::Items { list, is_set }))
}

#[tactic(auto, using(crate::proofs::Reading::range_reads))]
fn items_between<B: Sight>(
    space: &mut KnownSpace<B>,
    root: Oid,
    from: &Key,
    to: &Key,
) -> Result<Option<TreeAnswer>, TreeError>
    requires fresh { space.old.calls.items ≡ [] }
    requires empty { space.old.puts ≡ [] }
    ensures ends { CallEnds (contents_of B.objects) (contents_after space.new.puts (contents_of B.objects)) space.new.calls.items
        root (TreeOperation.Range from.now to.now) (length space.old.numbers.now) result }
    ensures own { handed_on result ≡ [] }
{
    let alloc = space.alloc;
    let list = tree_at(root).range(alloc, space, from, to)?;
    let is_set = root_has_members(alloc, space.known, root)?;
    Ok(Some(TreeAnswer::Items { list, is_set }))
}

/// A copy of a value, if there is one.
fn copy_value(value: &Option<Text8>) -> Result<Option<Text8>, AllocError>
    ensures { IfOk result (λ copy. copy ≡ value.now) }
{
    match value {
        Some(text) => Ok(Some(text.clone()?)),
        None => Ok(None),
    }
}

/// Makes a call over what is known. `None` is answered where it needs more numbers.
#[tactic(auto, using(crate::proofs::Reading::none_read))]
fn operate<B: Sight>(
    space: &mut KnownSpace<B>,
    root: Oid,
    operation: &TreeOperation,
) -> Result<Option<TreeAnswer>, TreeError>
    requires fresh { space.old.calls.items ≡ [] }
    requires empty { space.old.puts ≡ [] }
    ensures ends { CallEnds (contents_of B.objects) (contents_after space.new.puts (contents_of B.objects)) space.new.calls.items
        root operation.now (length space.old.numbers.now) result }
    ensures own { handed_on result ≡ [] }
{
    match operation {
        TreeOperation::Get { key } => value_of(space, root, key),
        TreeOperation::Set { key, value } => {
            let key = key.clone()?;
            let value = copy_value(value)?;
            set_value(space, root, key, value)
        }
        TreeOperation::Remove { key } => remove_key(space, root, key),
        TreeOperation::Items => all_items(space, root),
        TreeOperation::Range { from, to } => items_between(space, root, from, to),
    }
}

/// What is to be read for a call that ended as for want of memory: an object that isn't known yet. Objects are read before a number
/// is drawn.
fn wanted(known: &Known, numbers: &[Oid], lacked: Option<Oid>) -> Result<Attempt, AllocError>
    ensures want { IfOk result (IsWant numbers.now lacked) }
    ensures wants { IfOk result (IsWanted known.now) }
{
    let Some(oid) = lacked else {
        return Err(AllocError);
    };
    if !numbers.is_empty() {
        return Err(AllocError);
    }
    match known.find(oid) {
        Some(_) => Err(AllocError),
        None => Ok(Attempt::WantsObject { oid }),
    }
}

/// Why a tree refuses a call, where it does so itself.
fn refusal_of(error: TreeError) -> Option<Refusal>
    ensures { result ≡ Calls.refusal_of error }
{
    match error {
        TreeError::NotATree { oid } => Some(Refusal::NotATree { oid }),
        TreeError::NodeMissing { oid } => Some(Refusal::NodeMissing { oid }),
        TreeError::BadKey => Some(Refusal::BadKey),
        TreeError::Refused(_) | TreeError::Memory => None,
    }
}

/// A refused call, where it took each of the numbers.
fn refused_if(is_whole: bool, why: Refusal) -> Result<Attempt, AllocError>
    ensures { IfOk result (λ attempt. (is_whole ≡ true) × (attempt ≡ Attempt.Refused why)) }
{
    if is_whole {
        Ok(Attempt::Refused(why))
    } else {
        Err(AllocError)
    }
}

/// Whether a call of the space reads nothing but what is known.
fn is_read_known(known: &Known, call: &Call) -> bool
    ensures { result ≡ Calls.is_read_known known.now call.now }
{
    match call {
        Call::Read(oid) => known.find(*oid).is_some(),
        _ => true,
    }
}

/// Whether calls of the space read nothing but what is known.
fn are_known(known: &Known, calls: &[Call]) -> bool
    ensures { result ≡ list_all (Calls.is_read_known known.now) calls.now }
{
    calls.iter().all(|call| is_read_known(known, call))
}

/// How an attempt ends that was answered so, with these calls of the space; whether it took each of the numbers, and
/// read nothing but what is known.
fn end<B: Sight>(
    is_whole: bool,
    puts: ListOf<TreePut>,
    lacked: Option<Oid>,
    known: &Known,
    numbers: &[Oid],
    _calls: &[Call],
    _root: Oid,
    _operation: &TreeOperation,
    answered: Result<Option<TreeAnswer>, TreeError>,
) -> Result<Attempt, AllocError>
    requires numbered { numbers.now ≡ B.numbers }
    requires whole { is_whole ≡ true → drawn_in _calls.now ≡ B.numbers }
    requires known { is_whole ≡ true → list_all (Calls.is_read_known known.now) _calls.now ≡ true }
    requires written { written_in _calls.now ≡ oids_of puts }
    requires based { bases_of puts ≡ map (based_on B.numbers B.objects) (oids_of puts) }
    requires filled { are_filled puts ≡ true }
    requires ends { CallEnds (contents_of B.objects) (contents_after puts (contents_of B.objects)) _calls.now _root
        _operation.now (length numbers.now) answered }
    requires lacking { IsLacked _calls.now lacked }
    ensures attempt { IfOk result (IsAttempt B.objects _root _operation.now B.numbers) }
    ensures wants { IfOk result (IsWanted known.now) }
    ensures reads { IfOk result (HasRead known.now B.objects _root _operation.now B.numbers) }
{
    match answered {
        Ok(given) => match given {
            Some(answer) => {
                if is_whole {
                    Ok(Attempt::Made(Made { answer, puts }))
                } else {
                    Err(AllocError)
                }
            }
            None => Ok(Attempt::WantsNumber),
        },
        Err(error) => match refusal_of(error) {
            Some(why) => refused_if(is_whole, why),
            None => wanted(known, numbers, lacked),
        },
    }
}

/// Attempts a call on the tree with this root, over what is known and with the numbers that were drawn: it is answered or
/// refused, or tells what has to be read or drawn before it is made again: an object before any number is drawn, and a number
/// only where the call needs more than there are. `_whose` and `_changes` are what the objects belong to; only proofs look at
/// them. `cache` spares the reading of bytes that were read before; it changes no answer. The one error is want of memory; it
/// also comes where a call takes fewer of the numbers than were drawn for it, lacks an object that is known, or one once
/// numbers were drawn, reads an object that isn't known, or puts one that it hasn't read. None of this comes up, since a call that is made again over the
/// same objects draws as many numbers (`calls_draw_alike`) and reads nothing else.
pub fn call_tree<B: Sight, W, V>(
    alloc: Global,
    _whose: &W,
    _changes: &V,
    known: &Known,
    cache: &mut NodeCache,
    numbers: &[Oid],
    root: Oid,
    operation: &TreeOperation,
) -> Result<Attempt, AllocError>
    requires agrees { Agrees known.now B.objects }
    requires numbered { numbers.now ≡ B.numbers }
    ensures attempt { IfOk result (IsAttempt B.objects root operation.now B.numbers) }
    ensures wants { IfOk result (IsWanted known.now) }
    ensures reads { IfOk result (HasRead known.now B.objects root operation.now B.numbers) }
{
    let mut space = KnownSpace::<B> {
        alloc,
        known,
        cache,
        numbers,
        used: 0,
        puts: ListOf::new(alloc),
        calls: Vec::new(alloc),
        lacked: None,
        of: PhantomData,
    };
    let answered = operate(&mut space, root, operation);
    let KnownSpace {
        used,
        puts,
        calls,
        lacked,
        ..
    } = space;
    let is_whole = used == numbers.len() && are_known(known, calls.as_slice());
    end::<B>(
        is_whole,
        puts,
        lacked,
        known,
        numbers,
        calls.as_slice(),
        root,
        operation,
        answered,
    )
}
