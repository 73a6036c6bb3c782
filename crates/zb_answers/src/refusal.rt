//! Refusals as answers show them.

ghost use Rattle.std.specs.Prelude.{◌≡◌, ◌++◌, OnOk};
ghost use Rattle.zb_answers.specs.Refusals.{refusal_text, three_numbers, two_numbers, why_text};

use crate::objects::push_key;
use crate::spelling::{push_counted, push_number, push_numbered};
use std::alloc::AllocError;
use zb_ids::{Oid, Tid};
use zb_model::{Refusal, Why};

/// A word, and an object's and a transaction's number behind it.
fn push_revision(out: &mut Vec<u8>, word: &[u8], oid: Oid, tid: Tid) -> Result<(), AllocError>
    ensures { OnOk result (out.new.items ≡ out.old.items ++ (word.now ++ two_numbers oid tid)) }
{
    push_numbered(out, word, oid.0)?;
    out.push(b' ')?;
    push_number(out, tid.0)
}

/// A word, and behind it an object's number and two serials.
fn push_conflict(
    out: &mut Vec<u8>,
    word: &[u8],
    oid: Oid,
    base: Tid,
    current: Tid,
) -> Result<(), AllocError>
    ensures { OnOk result (out.new.items ≡ out.old.items ++ (word.now ++ three_numbers oid base current)) }
{
    push_revision(out, word, oid, base)?;
    out.push(b' ')?;
    push_number(out, current.0)
}

fn push_why(out: &mut Vec<u8>, why: &Why) -> Result<(), AllocError>
    ensures { OnOk result (out.new.items ≡ out.old.items ++ why_text why.now) }
{
    match why {
        Why::NoRule => out.extend_from_slice(b"NoRule"),
        Why::Gone => out.extend_from_slice(b"Gone"),
        Why::NoOld => out.extend_from_slice(b"NoOld"),
        Why::Unreadable => out.extend_from_slice(b"Unreadable"),
        Why::NotEmbedded => out.extend_from_slice(b"NotEmbedded"),
        Why::Link => out.extend_from_slice(b"Link"),
        Why::EmptySide => out.extend_from_slice(b"EmptySide"),
        Why::Key(spelling) => {
            out.extend_from_slice(b"Key ")?;
            push_key(out, spelling.as_slice())
        }
        Why::FirstKey => out.extend_from_slice(b"FirstKey"),
        Why::Overflow => out.extend_from_slice(b"Overflow"),
    }
}

fn push_word(out: &mut Vec<u8>, word: &[u8]) -> Result<(), AllocError>
    ensures { OnOk result (out.new.items ≡ out.old.items ++ word.now) }
{
    out.extend_from_slice(word)
}

/// Puts a refusal's name and its fields at the end.
pub(crate) fn push_refusal(out: &mut Vec<u8>, refusal: &Refusal) -> Result<(), AllocError>
    ensures { OnOk result (out.new.items ≡ out.old.items ++ refusal_text refusal.now) }
{
    match refusal {
        Refusal::TidsSpent => push_word(out, b"TidsSpent"),
        Refusal::StoreFault => push_word(out, b"StoreFault"),
        Refusal::Conflict {
            oid,
            base,
            current,
            why,
        } => {
            push_conflict(out, b"Conflict ", *oid, *base, *current)?;
            out.push(b' ')?;
            push_why(out, why)
        }
        Refusal::ReadConflict { oid, base, current } => {
            push_conflict(out, b"ReadConflict ", *oid, *base, *current)
        }
        Refusal::TooLong { length } => push_counted(out, b"TooLong ", *length),
        Refusal::UndoUnknown { tid } => push_numbered(out, b"UndoUnknown ", tid.0),
        Refusal::UndoPacked { tid } => push_numbered(out, b"UndoPacked ", tid.0),
        Refusal::UndoConflict { oid, later } => push_revision(out, b"UndoConflict ", *oid, *later),
        Refusal::Overtaken { oid, tid } => push_revision(out, b"Overtaken ", *oid, *tid),
        Refusal::Unreadable { oid, tid } => push_revision(out, b"Unreadable ", *oid, *tid),
        Refusal::PackedAlready { packed } => push_numbered(out, b"PackedAlready ", packed.0),
        Refusal::Missing { oid, packed } => {
            push_numbered(out, b"Missing ", oid.0)?;
            out.extend_from_slice(if *packed { b" true" } else { b" false" })
        }
        Refusal::NoTransaction => push_word(out, b"NoTransaction"),
        Refusal::InTransaction => push_word(out, b"InTransaction"),
        Refusal::NotVoted => push_word(out, b"NotVoted"),
        Refusal::Voted => push_word(out, b"Voted"),
        Refusal::Busy { holder } => push_counted(out, b"Busy ", u64::from(*holder)),
        Refusal::PackRunning { session } => push_counted(out, b"PackRunning ", u64::from(*session)),
        Refusal::OidsSpent => push_word(out, b"OidsSpent"),
        Refusal::JournalFull { count } => push_counted(out, b"JournalFull ", *count),
        Refusal::TooManySessions { count } => {
            push_counted(out, b"TooManySessions ", u64::from(*count))
        }
        Refusal::NotOpen => push_word(out, b"NotOpen"),
        Refusal::NoSavepoint { number } => push_counted(out, b"NoSavepoint ", *number),
        Refusal::FrameTooLong { length } => push_counted(out, b"FrameTooLong ", u64::from(*length)),
        Refusal::BadMessage => push_word(out, b"BadMessage"),
        Refusal::LinkFault => push_word(out, b"LinkFault"),
        Refusal::Closed => push_word(out, b"Closed"),
        Refusal::Mixed { stores } => push_counted(out, b"Mixed ", *stores),
        Refusal::NoPack => push_word(out, b"NoPack"),
        Refusal::NotATree { oid } => push_numbered(out, b"NotATree ", oid.0),
        Refusal::NodeMissing { oid } => push_numbered(out, b"NodeMissing ", oid.0),
        Refusal::BadKey => push_word(out, b"BadKey"),
        Refusal::ReadFault => push_word(out, b"ReadFault"),
        Refusal::NothingToDelete { oid, current } => {
            push_revision(out, b"NothingToDelete ", *oid, *current)
        }
        Refusal::Connected { session } => push_counted(out, b"Connected ", u64::from(*session)),
        Refusal::StepsSpent => push_word(out, b"StepsSpent"),
        Refusal::Memory => push_word(out, b"Memory"),
    }
}
