//! Setting what stands under a key.

ghost use Rattle.std.specs.Prelude.{◌≡◌, ◌++◌, true, length, take, IfOk, IfErr, IfSome, OnErr};
ghost use Rattle.btree_family.specs.Classes.{class_seen};
ghost use Rattle.btree_shapes.specs.Spaces.{handed_on};
ghost use Rattle.btree_putting.specs.Kept.{AreTried};
ghost use Rattle.btree_putting.specs.Puts.{all_keep};
ghost use Rattle.btree_putting.specs.Storing.{IsFree};
ghost use Rattle.btree_setting.specs.Sets.{DrewOf, HasAhead, IsAhead, terms_of, CountsNews, Tried, IsPlan, Writes, WritesWithin};
ghost use Rattle.btree_shapes.specs.Met.{ReadsFirst};
ghost use Rattle.btree_shapes.specs.Ways.{IsRefusal};
ghost use Rattle.btree_setting.specs.Tasks.{met_under, task_under, reads_under};
ghost use Rattle.btree_setting.specs.Ends.{ChangesAreAlike, IsFinding, Sets, SetsWithin};
ghost use Rattle.btree_putting.specs.Writing.{AreGlobal};

use crate::change::Change;
use crate::drawing::{draw_all, stand_ins};
use crate::growing::{Plain, Terms};
use crate::planning::plan;
use crate::preparing::{Sizes, Task, prepare};
use crate::value::fits_class;
use btree_family::{Key, key_fits, leaf_of};
use btree_putting::{Family, KeptPuts, Puts, in_order, keep_all, plain_class, store_all};
use btree_shapes::{Shared, Space, TreeError, follow_root, read_root};
use bucket_state::{links_stand_apart, same_graphs_hold_the_same, written_objects_read_back};
use std::alloc::{AllocError, Global};
use zb_ids::{Oid, Text8};
use zb_record::alike_records_are_kept;

/// How many items and children there may be, the key, and the classes of new objects, where these
/// can be written.
fn terms_of(
    alloc: Global,
    family: &Family,
    sizes: Sizes,
    key: Key,
) -> Result<Option<Terms>, AllocError>
    ensures { IfOk result (λ terms. terms
        ≡ terms_of (class_seen family.now.row.now) (class_seen family.now.leaf.now) sizes key) }
{
    let Some(leaf) = plain_class(alloc, family.leaf)? else {
        return Ok(None);
    };
    let Some(inner) = plain_class(alloc, family.row)? else {
        return Ok(None);
    };
    Ok(Some(Terms {
        leaf: sizes.leaf,
        inner: sizes.inner,
        key,
        plain: Plain {
            leaf: Shared::new(alloc, leaf)?,
            inner: Shared::new(alloc, inner)?,
        },
    }))
}

/// What trying the records of a set gives: how many new objects there are, and the changed ones.
#[derive(Drop)]
struct Trial {
    count: usize,
    olds: KeptPuts,
}

/// Tries all records that a set puts, with 0 for each number: there is none where one can't be
/// written or doesn't read back.
#[tactic(auto, using(crate::proofs::Trying::is_trial, crate::proofs::Trying::is_tried, crate::proofs::Trying::news_fail, crate::proofs::Trying::olds_fail))]
fn try_out(
    alloc: Global,
    family: &Family,
    terms: &Terms,
    task: &Task,
) -> Result<Option<Trial>, AllocError>
    requires { AreGlobal family.now }
    ensures { IfOk result
        (Tried (class_seen family.now.row.now) (class_seen family.now.leaf.now) terms.now
        task.now) }
{
    let oids = stand_ins(alloc, task.rungs.len())?;
    let Change { news, olds, up: _ } = plan(
        alloc,
        terms,
        &task.bottom,
        &task.rungs,
        oids.as_slice(),
    )?;
    let count = news.len();
    let Some(_) = keep_all(alloc, family, news)? else {
        return Ok(None);
    };
    let Some(olds) = keep_all(alloc, family, olds)? else {
        return Ok(None);
    };
    Ok(Some(Trial { count, olds }))
}

/// Whether one object changes and none is new, so that what was tried is what is put.
fn is_whole(trial: &Trial) -> bool
    ensures none { result ≡ true → trial.now.count ≡ 0 }
    ensures one { result ≡ true → length trial.now.olds ≡ 1 }
{
    trial.count == 0 && trial.olds.len() == 1
}

/// Draws so many numbers, and gives the puts of the change with these.
#[tactic(auto, using(crate::proofs::Trying::drew_most, crate::proofs::Trying::is_plan))]
fn draw_and_plan<S: Space>(
    alloc: Global,
    space: &mut S,
    terms: &Terms,
    task: &Task,
    count: usize,
) -> Result<Puts, TreeError>
    requires counted { CountsNews terms.now task.now count }
    ensures ok { IfOk result
        (λ puts. IsPlan S.told terms.now task.now puts (S.log space.old) (S.log space.new)) }
    ensures err { IfErr result (λ e. S.told → DrewOf count e (S.log space.old) (S.log space.new)) }
    ensures free { IfErr result IsFree }
    ensures contents { S.contents space.new ≡ S.contents space.old }
    ensures refusals { S.told → S.refusals space.new ≡ S.refusals space.old ++ handed_on result }
{
    let oids = draw_all(alloc, space, count)?;
    let change = plan(alloc, terms, &task.bottom, &task.rungs, oids.as_slice())?;
    Ok(in_order(alloc, change.news, change.olds)?)
}

/// The puts of a plan, whose records can all be written and read back, with the bytes of these.
fn keep_plan(alloc: Global, family: &Family, puts: Puts) -> Result<KeptPuts, AllocError>
    requires global { AreGlobal family.now }
    requires kept { all_keep (class_seen family.now.row.now) (class_seen family.now.leaf.now) puts
        ≡ true }
    ensures { IfOk result
        (AreTried (class_seen family.now.row.now) (class_seen family.now.leaf.now) puts) }
{
    match keep_all(alloc, family, puts)? {
        Some(kept) => Ok(kept),
        None => Err(AllocError),
    }
}

/// What trying a change gives whose numbers are there already: how many new objects there are, and
/// all that it puts, in order.
#[derive(Drop)]
struct Ahead {
    count: usize,
    kept: KeptPuts,
}

/// Tries all records that a set puts with these numbers, where they suffice. There is nothing also
/// where one can't be written or doesn't read back.
#[tactic(auto, using(crate::proofs::Ahead::is_ahead))]
fn try_ahead(
    alloc: Global,
    family: &Family,
    terms: &Terms,
    task: &Task,
    numbers: &[Oid],
) -> Result<Option<Ahead>, AllocError>
    requires { AreGlobal family.now }
    ensures { IfOk result (λ found. IfSome found (IsAhead (class_seen family.now.row.now)
        (class_seen family.now.leaf.now) terms.now task.now numbers.now)) }
{
    let zeros = stand_ins(alloc, task.rungs.len())?;
    // The change that contracts speak of, which has 0 for each number: it can be written where the
    // other can.
    let _zero = plan(alloc, terms, &task.bottom, &task.rungs, zeros.as_slice())?;
    let Ok(change) = plan(alloc, terms, &task.bottom, &task.rungs, numbers) else {
        return Ok(None);
    };
    let count = change.news.len();
    let puts = in_order(alloc, change.news, change.olds)?;
    alike_records_are_kept();
    same_graphs_hold_the_same();
    links_stand_apart();
    written_objects_read_back();
    let Some(kept) = keep_all(alloc, family, puts)? else {
        return Ok(None);
    };
    Ok(Some(Ahead { count, kept }))
}

/// The same where there are numbers.
fn find_ahead(
    alloc: Global,
    family: &Family,
    sizes: Sizes,
    key: &Key,
    task: &Task,
    numbers: &[Oid],
) -> Result<Option<Ahead>, AllocError>
    requires { AreGlobal family.now }
    ensures { IfOk result (λ found. IfSome found (HasAhead (class_seen family.now.row.now)
        (class_seen family.now.leaf.now) sizes key.now task.now numbers.now)) }
{
    if numbers.is_empty() {
        return Ok(None);
    }
    let Some(terms) = terms_of(alloc, family, sizes, key.clone()?)? else {
        return Ok(None);
    };
    try_ahead(alloc, family, &terms, task, numbers)
}

/// Whether numbers begin with others.
fn begins_with(numbers: &[Oid], oids: &[Oid]) -> bool
    ensures { result ≡ true → take (length oids.now) numbers.now ≡ oids.now }
{
    if numbers.len() < oids.len() {
        return false;
    }
    let (front, _) = numbers.split_at(oids.len());
    front == oids
}

/// Draws the numbers that were tried, and puts what was tried. Where the space gives others, it
/// ends as for want of memory.
#[tactic(auto, using(crate::proofs::Ahead::ahead_undrawn, crate::proofs::Ahead::ahead_other))]
fn put_ahead<S: Space>(
    alloc: Global,
    space: &mut S,
    family: &Family,
    _sizes: Sizes,
    _key: &Key,
    _task: &Task,
    numbers: &[Oid],
    ahead: Ahead,
) -> Result<(), TreeError>
    requires { HasAhead (class_seen family.now.row.now) (class_seen family.now.leaf.now)
        _sizes _key.now _task.now numbers.now ahead }
    ensures writes { Writes S.told (class_seen family.now.row.now) (class_seen family.now.leaf.now)
        _sizes _key.now _task.now (S.contents space.old) (S.contents space.new)
        (S.log space.old) (S.log space.new) result }
    ensures refusals { S.told → S.refusals space.new ≡ S.refusals space.old ++ handed_on result }
{
    let Ahead { count, kept } = ahead;
    let drawn = draw_all(alloc, space, count)?;
    if !begins_with(numbers, drawn.as_slice()) {
        return Err(TreeError::Memory);
    }
    store_all(space, family, kept)
}

/// How a set ends that isn't refused.
#[derive(Clone, Copy, Debug, PartialEq, Eq)]
pub enum SetEnd {
    /// What stands under the key is set.
    Done,
    /// More numbers are needed than there are. Nothing was drawn or put.
    Lacks,
}

/// Tries the records that a set puts with 0 for each number, draws the numbers of new objects, of
/// which there are so many, and puts all.
#[tactic(auto, using(crate::proofs::Counting::counts_news, crate::proofs::Rekept::plan_kept, crate::proofs::Answering::starved, crate::proofs::Answering::undrawn, crate::proofs::Answering::is_short, crate::proofs::Answering::written_whole, crate::proofs::Answering::broken_whole, crate::proofs::Answering::written_kept, crate::proofs::Answering::broken_kept, crate::proofs::Answering::none_put))]
fn write_anew<S: Space>(
    alloc: Global,
    space: &mut S,
    family: &Family,
    sizes: Sizes,
    key: Key,
    task: &Task,
    supply: usize,
) -> Result<SetEnd, TreeError>
    requires { AreGlobal family.now }
    ensures writes { WritesWithin S.told (class_seen family.now.row.now)
        (class_seen family.now.leaf.now) sizes key task.now supply (S.contents space.old)
        (S.contents space.new) (S.log space.old) (S.log space.new) result }
    ensures refusals { S.told → S.refusals space.new ≡ S.refusals space.old ++ handed_on result }
{
    let Some(terms) = terms_of(alloc, family, sizes, key)? else {
        return Err(TreeError::BadKey);
    };
    let Some(trial) = try_out(alloc, family, &terms, task)? else {
        return Err(TreeError::BadKey);
    };
    if is_whole(&trial) {
        store_all(space, family, trial.olds)?;
        return Ok(SetEnd::Done);
    }
    let count = trial.count;
    if supply < count {
        return Ok(SetEnd::Lacks);
    }
    let puts = draw_and_plan(alloc, space, &terms, task, count)?;
    // What could be written and read back with 0 for each number, can be with any.
    alike_records_are_kept();
    same_graphs_hold_the_same();
    links_stand_apart();
    written_objects_read_back();
    let Ok(kept) = keep_plan(alloc, family, puts) else {
        return Err(TreeError::Memory);
    };
    store_all(space, family, kept)?;
    Ok(SetEnd::Done)
}

/// Tries the records that a set puts, draws the numbers of new objects, of which there are so many,
/// and puts all. Where the numbers that come next are known, it tries the records with these.
fn write<S: Space>(
    alloc: Global,
    space: &mut S,
    family: &Family,
    sizes: Sizes,
    key: Key,
    task: &Task,
    supply: usize,
    numbers: &[Oid],
) -> Result<SetEnd, TreeError>
    requires { AreGlobal family.now }
    ensures writes { WritesWithin S.told (class_seen family.now.row.now)
        (class_seen family.now.leaf.now) sizes key task.now supply (S.contents space.old)
        (S.contents space.new) (S.log space.old) (S.log space.new) result }
    ensures refusals { S.told → S.refusals space.new ≡ S.refusals space.old ++ handed_on result }
{
    match find_ahead(alloc, family, sizes, &key, task, numbers)? {
        None => write_anew(alloc, space, family, sizes, key, task, supply),
        Some(ahead) => {
            match put_ahead(alloc, space, family, sizes, &key, task, numbers, ahead) {
                Ok(()) => Ok(SetEnd::Done),
                Err(error) => Err(error),
            }
        }
    }
}

/// What a set is to change, and the classes of the tree.
#[derive(Drop)]
struct Finding {
    family: Family,
    task: Task,
}

/// What a set is to change in the tree with this root: nothing, where the key has the value
/// already.
#[tactic(auto, using(crate::proofs::Answering::root_unread, crate::proofs::Answering::no_leaf, crate::proofs::Answering::no_key, crate::proofs::Answering::no_value, crate::proofs::Answering::way_is_refused, crate::proofs::Answering::task_is_refused))]
fn find_task<S: Space>(
    alloc: Global,
    space: &mut S,
    root: Oid,
    sizes: Sizes,
    key: &Key,
    value: Option<Text8>,
) -> Result<Option<Finding>, TreeError>
    ensures err { IfErr result
        (λ e. IsRefusal e (task_under (S.contents space.old) root sizes key.now value)) }
    ensures ok { IfOk result
        (λ found. IsFinding (S.contents space.old) root sizes key.now value found) }
    ensures global { IfOk result (λ found. IfSome found (λ x. AreGlobal x.family)) }
    ensures contents { S.contents space.new ≡ S.contents space.old }
    ensures log { IfOk result (λ found. S.told
        → S.log space.new ≡ S.log space.old
        ++ reads_under (S.contents space.old) root sizes key.now value) }
    ensures met { S.told → ReadsFirst (met_under (S.contents space.old) root sizes key.now value)
        (S.log space.old) (S.log space.new) }
    ensures refusals { S.told → S.refusals space.new ≡ S.refusals space.old ++ handed_on result }
{
    let (tree, entry) = read_root(alloc, space, root)?;
    let Some(leaf) = leaf_of(tree.row) else {
        return Err(TreeError::BadKey);
    };
    if !key_fits(tree.row.key, key) {
        return Err(TreeError::BadKey);
    }
    if !fits_class(alloc, tree.row, &value)? {
        return Err(TreeError::BadKey);
    }
    let found = follow_root(alloc, space, &tree, true, key, entry)?;
    let Some(task) = prepare(alloc, space, &tree, sizes, key, value, found)? else {
        return Ok(None);
    };
    let family = Family {
        row: tree.row,
        leaf,
    };
    Ok(Some(Finding { family, task }))
}

/// Sets what stands under a key in the tree with this root, where the space can give so many
/// numbers for new objects. Where more are needed, it says so once all was read and each record
/// tried, and nothing is drawn or put. `numbers` are those that the space gives next, as far as
/// they are known: they spare a second trial, and change no answer. Where it gives others, the set
/// ends as for want of memory.
#[tactic(auto, using(crate::proofs::Answering::refused_before, crate::proofs::Answering::has_none, crate::proofs::Answering::has_task))]
pub fn set_within<S: Space>(
    alloc: Global,
    space: &mut S,
    root: Oid,
    sizes: Sizes,
    key: Key,
    value: Option<Text8>,
    supply: usize,
    numbers: &[Oid],
) -> Result<SetEnd, TreeError>
    ensures ways { SetsWithin S.told (S.contents space.old) (S.contents space.new) (S.log space.old)
        (S.log space.new) root sizes key value supply result }
    ensures refusals { S.told → S.refusals space.new ≡ S.refusals space.old ++ handed_on result }
{
    match find_task(alloc, space, root, sizes, &key, value) {
        Err(error) => Err(error),
        Ok(None) => Ok(SetEnd::Done),
        Ok(Some(finding)) => write(
            alloc,
            space,
            &finding.family,
            sizes,
            key,
            &finding.task,
            supply,
            numbers,
        ),
    }
}

/// Sets what stands under a key in the tree with this root.
pub fn set<S: Space>(
    alloc: Global,
    space: &mut S,
    root: Oid,
    sizes: Sizes,
    key: Key,
    value: Option<Text8>,
) -> Result<(), TreeError>
    ensures ways { Sets S.told (S.contents space.old) (S.contents space.new) (S.log space.old)
        (S.log space.new) root sizes key value result }
    ensures refusals { S.told → S.refusals space.new ≡ S.refusals space.old ++ handed_on result }
{
    match set_within(alloc, space, root, sizes, key, value, usize::MAX, &[]) {
        Ok(SetEnd::Done) => Ok(()),
        Ok(SetEnd::Lacks) => Err(TreeError::Memory),
        Err(error) => Err(error),
    }
}

/// The law that the changes of one set are alike, whatever the numbers of new objects are, where
/// one of them can be written.
pub fn changes_are_alike()
    ensures { ChangesAreAlike }
{
    alike_records_are_kept();
    same_graphs_hold_the_same();
    links_stand_apart();
    written_objects_read_back();
}
