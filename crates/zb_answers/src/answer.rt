//! What a turn is answered.

ghost use Rattle.std.specs.Prelude.{◌≡◌, ◌∷◌, ◌++◌, [], map, IfOk, OnOk};
ghost use Rattle.zb_answers.specs.Answers.{answer_text, dashed, item_texts, reply_line, reply_lines};
ghost use Rattle.zb_answers.specs.Lists.{log_words, revision_words};

use crate::items::push_item_list;
use crate::lists::{push_log, push_revision};
use crate::objects::{push_key, push_object};
use crate::refusal::push_refusal;
use crate::spelling::{push_counted, push_numbered};
use btree_family::Item;
use std::alloc::{AllocError, Global};
use zb_ids::{ListOf, Oid, Text8, Tid};
use zb_literals::push_digits;
use zb_model::{LogLine, Refusal, Revision};
use zb_script::Name;

/// What a turn is answered.
#[derive(Drop)]
pub enum Answer {
    /// The session is open.
    Opened {
        /// Its number: the sessions are counted from 0.
        session: u32,
    },
    /// A transaction has begun.
    Begun {
        /// The tid after the newest one: the view has what stands below it.
        front: Tid,
    },
    /// The client was told what was committed up to now.
    Delivered {
        /// The tid after the newest one: the client's next view has what stands below it.
        front: Tid,
    },
    /// What the view has of an object.
    Data {
        /// The serial of the revision.
        serial: Tid,
        /// Its bytes.
        bytes: Text8,
    },
    /// What the transaction has of an object, to be shown by its class and its state.
    Object {
        /// The serial of the revision, or the base of the store that waits for the vote.
        serial: Tid,
        /// Its bytes.
        bytes: Text8,
    },
    /// The store waits for the vote.
    Stored,
    /// The check waits for the vote.
    Checked,
    /// The delete waits for the vote.
    Deleted,
    /// The transaction can be committed.
    Voted,
    /// The transaction is committed.
    Committed {
        /// Its tid.
        tid: Tid,
    },
    /// The transaction has ended, and had nothing to commit.
    Empty,
    /// The transaction has ended, and its stores are dropped.
    Aborted,
    /// A number that no object of the list has had, and that was never handed out.
    Oid {
        /// The number.
        oid: Oid,
    },
    /// The revisions of an object.
    History {
        /// They, the newest first.
        list: ListOf<Revision>,
    },
    /// The transactions that may be undone.
    UndoLog {
        /// They, the newest first.
        list: ListOf<LogLine>,
    },
    /// The list is packed.
    Packed {
        /// How many changes the packed list has.
        kept: u64,
        /// How many changes went.
        dropped: u64,
    },
    /// A pack in turns is begun.
    Packing {
        /// It goes up to this tid.
        tid: Tid,
    },
    /// More objects are marked for the pack, and others are left.
    Marking {
        /// How many are marked.
        count: u64,
    },
    /// All objects are marked that the pack keeps.
    Marked {
        /// How many they are.
        count: u64,
    },
    /// More of the packed list is copied, and transactions are left.
    Copying {
        /// How many changes are copied.
        count: u64,
    },
    /// The packed list is copied.
    Copied {
        /// How many changes are copied.
        count: u64,
    },
    /// The tree is as the line says.
    Done,
    /// The key isn't there.
    Absent,
    /// The value that a key has.
    Found {
        /// Its spelling; shown by the literal of the value that is spelled so.
        value: Text8,
    },
    /// Items of a tree, a bucket or a set.
    Items {
        /// They, in the order of their keys.
        list: ListOf<Item>,
        /// Whether they are members of a set, which have no values.
        is_set: bool,
    },
    /// What the transaction has so far is marked.
    Savepoint {
        /// The number of the mark.
        number: u64,
    },
    /// The transaction is as it was at a savepoint.
    Rolled {
        /// The number of the savepoint.
        number: u64,
    },
    /// The session is closed.
    Closed,
    /// The turn is refused.
    Refused(
        /// Why.
        Refusal,
    ),
}

/// Puts the first line of an answer at the end.
fn push_answer(out: &mut Vec<u8>, answer: &Answer) -> Result<(), AllocError>
    ensures { OnOk result (out.new.items ≡ out.old.items ++ answer_text answer.now) }
{
    match answer {
        Answer::Opened { session } => push_counted(out, b"opened ", u64::from(*session)),
        Answer::Begun { front } => push_numbered(out, b"begun ", front.0),
        Answer::Delivered { front } => push_numbered(out, b"delivered ", front.0),
        Answer::Data { serial, bytes } => {
            push_numbered(out, b"data ", serial.0)?;
            out.push(b' ')?;
            push_digits(out, bytes.as_slice())
        }
        Answer::Object { serial, bytes } => push_object(out, *serial, bytes.as_slice()),
        Answer::Stored => out.extend_from_slice(b"stored"),
        Answer::Checked => out.extend_from_slice(b"checked"),
        Answer::Deleted => out.extend_from_slice(b"deleted"),
        Answer::Voted => out.extend_from_slice(b"voted"),
        Answer::Committed { tid } => push_numbered(out, b"committed ", tid.0),
        Answer::Empty => out.extend_from_slice(b"empty"),
        Answer::Aborted => out.extend_from_slice(b"aborted"),
        Answer::Oid { oid } => push_numbered(out, b"oid ", oid.0),
        Answer::History { list } => push_counted(out, b"history ", list.len() as u64),
        Answer::UndoLog { list } => push_counted(out, b"undolog ", list.len() as u64),
        Answer::Packed { kept, dropped } => {
            push_counted(out, b"packed ", *kept)?;
            push_counted(out, b" ", *dropped)
        }
        Answer::Packing { tid } => push_numbered(out, b"packing ", tid.0),
        Answer::Marking { count } => push_counted(out, b"marking ", *count),
        Answer::Marked { count } => push_counted(out, b"marked ", *count),
        Answer::Copying { count } => push_counted(out, b"copying ", *count),
        Answer::Copied { count } => push_counted(out, b"copied ", *count),
        Answer::Done => out.extend_from_slice(b"done"),
        Answer::Absent => out.extend_from_slice(b"absent"),
        Answer::Found { value } => {
            out.extend_from_slice(b"found ")?;
            push_key(out, value.as_slice())
        }
        Answer::Items { list, is_set } => {
            out.extend_from_slice(b"items ")?;
            push_item_list(out, list.as_slice(), *is_set)
        }
        Answer::Savepoint { number } => push_counted(out, b"savepoint ", *number),
        Answer::Rolled { number } => push_counted(out, b"rolled ", *number),
        Answer::Closed => out.extend_from_slice(b"closed"),
        Answer::Refused(refusal) => {
            out.extend_from_slice(b"refused ")?;
            push_refusal(out, refusal)
        }
    }
}

/// The first line of an answer, without a client's name.
pub fn answer_line(alloc: Global, answer: &Answer) -> Result<Text8, AllocError>
    ensures { IfOk result (λ text. text ≡ answer_text answer.now ++ 10 ∷ []) }
{
    let mut out = Vec::new(alloc);
    push_answer(&mut out, answer)?;
    out.push(b'\n')?;
    Ok(Text8::from_vec(out))
}

/// What each line begins with: the client's name and a blank.
fn begun(alloc: Global, client: &Name) -> Result<Vec<u8>, AllocError>
    ensures { IfOk result (λ out. out.items ≡ client.now ++ 32 ∷ []) }
{
    let mut out = Vec::from_slice(alloc, client.as_bytes())?;
    out.push(b' ')?;
    Ok(out)
}

fn first_line(alloc: Global, client: &Name, answer: &Answer) -> Result<Text8, AllocError>
    ensures { IfOk result (λ text. text ≡ reply_line client.now (answer_text answer.now)) }
{
    let mut out = begun(alloc, client)?;
    push_answer(&mut out, answer)?;
    out.push(b'\n')?;
    Ok(Text8::from_vec(out))
}

fn revision_item(alloc: Global, client: &Name, item: &Revision) -> Result<Text8, AllocError>
    ensures { IfOk result (λ text. text ≡ reply_line client.now (dashed (revision_words item.now))) }
{
    let mut out = begun(alloc, client)?;
    out.extend_from_slice(b"- ")?;
    push_revision(&mut out, item)?;
    out.push(b'\n')?;
    Ok(Text8::from_vec(out))
}

fn log_item(alloc: Global, client: &Name, item: &LogLine) -> Result<Text8, AllocError>
    ensures { IfOk result (λ text. text ≡ reply_line client.now (dashed (log_words item.now))) }
{
    let mut out = begun(alloc, client)?;
    out.extend_from_slice(b"- ")?;
    push_log(&mut out, item)?;
    out.push(b'\n')?;
    Ok(Text8::from_vec(out))
}

/// Puts a line at the end.
fn push_line(lines: &mut ListOf<Text8>, line: Text8) -> Result<(), AllocError>
    ensures { OnOk result (lines.new ≡ lines.old ++ line ∷ []) }
{
    lines.push(line)?;
    Ok(())
}

fn push_history(
    lines: &mut ListOf<Text8>,
    alloc: Global,
    client: &Name,
    list: &[Revision],
) -> Result<(), AllocError>
    ensures { OnOk result (lines.new ≡ lines.old ++ map (reply_line client.now) (map (λ item. dashed (revision_words item)) list.now)) }
{
    for item in list {
        push_line(lines, revision_item(alloc, client, item)?)?;
    }
    Ok(())
}

fn push_undolog(
    lines: &mut ListOf<Text8>,
    alloc: Global,
    client: &Name,
    list: &[LogLine],
) -> Result<(), AllocError>
    ensures { OnOk result (lines.new ≡ lines.old ++ map (reply_line client.now) (map (λ item. dashed (log_words item)) list.now)) }
{
    for item in list {
        push_line(lines, log_item(alloc, client, item)?)?;
    }
    Ok(())
}

/// Puts a line for each item of a list at the end.
fn push_items(
    lines: &mut ListOf<Text8>,
    alloc: Global,
    client: &Name,
    answer: &Answer,
) -> Result<(), AllocError>
    ensures { OnOk result (lines.new ≡ lines.old ++ map (reply_line client.now) (item_texts answer.now)) }
{
    match answer {
        Answer::History { list } => push_history(lines, alloc, client, list.as_slice()),
        Answer::UndoLog { list } => push_undolog(lines, alloc, client, list.as_slice()),
        _ => Ok(()),
    }
}

/// The lines that answer a turn of this client, each with its newline: one, and behind it one for each item of
/// a list. The one error is want of memory.
pub fn answer_lines(
    alloc: Global,
    client: &Name,
    answer: &Answer,
) -> Result<ListOf<Text8>, AllocError>
    ensures { IfOk result (λ lines. lines ≡ reply_lines client.now answer.now) }
{
    let mut lines = ListOf::new(alloc);
    push_line(&mut lines, first_line(alloc, client, answer)?)?;
    push_items(&mut lines, alloc, client, answer)?;
    Ok(lines)
}
