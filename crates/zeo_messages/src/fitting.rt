//! What the rows of messages allow, beside what the types of their fields say.

ghost use Rattle.std.specs.Prelude.{◌≡◌, ◌==◌, ◌<◌, length, drop};
ghost use Rattle.std.specs.List.{list_all};
ghost use Rattle.zeo_messages.specs.Calls.{falls_below, fits_call, is_falling, is_short};
ghost use Rattle.zeo_messages.specs.Answers.{fits_answer, fits_line, fits_refusal, fits_revision};
ghost use Rattle.zeo_messages.specs.Messages;

use crate::answer::Answer;
use crate::call::Call;
use crate::message::Message;
use zb_ids::Tid;
use zb_model::{LogLine, Refusal, Revision, Why};
use zeo_values::is_key_spelled;

/// Whether a text has at most 65,535 bytes.
fn is_short(text: &[u8]) -> bool
    ensures { result ≡ is_short text.now }
{
    text.len() < 65_536
}

/// Whether each of the numbers is less than the one before; the first one less than the bound.
fn falls_below(first: Tid, tids: &[Tid]) -> bool
    ensures { result ≡ falls_below first tids.now }
{
    let mut bound = first;
    for tid in tids {
        if *tid >= bound {
            return false;
        }
        bound = *tid;
    }
    true
}

/// Whether there is a number, and each is less than the one before.
fn is_falling(tids: &[Tid]) -> bool
    ensures { result ≡ is_falling tids.now }
{
    match tids {
        [] => false,
        [first, rest @ ..] => falls_below(*first, rest),
    }
}

fn fits_call(call: &Call) -> bool
    ensures { result ≡ fits_call call.now }
{
    match call {
        Call::NewOids { count } => *count > 0 && *count < 101,
        Call::TpcBegin {
            user,
            description,
            extension,
        } => {
            is_short(user.as_slice())
                && is_short(description.as_slice())
                && is_short(extension.as_slice())
        }
        Call::Storea { bytes, .. } => !bytes.is_empty() && bytes.len() < 1 << 32,
        Call::Undoa {
            user,
            description,
            tids,
        } => {
            is_short(user.as_slice())
                && is_short(description.as_slice())
                && is_falling(tids.as_slice())
        }
        _ => true,
    }
}

fn fits_revision(revision: &Revision) -> bool
    ensures { result ≡ fits_revision revision.now }
{
    is_short(revision.user.as_slice()) && is_short(revision.description.as_slice())
}

fn fits_line(line: &LogLine) -> bool
    ensures { result ≡ fits_line line.now }
{
    is_short(line.user.as_slice()) && is_short(line.description.as_slice())
}

fn all_revisions_fit(list: &[Revision]) -> bool
    ensures { result ≡ list_all fits_revision list.now }
{
    list.iter().all(|revision| fits_revision(revision))
}

fn all_lines_fit(list: &[LogLine]) -> bool
    ensures { result ≡ list_all fits_line list.now }
{
    list.iter().all(|line| fits_line(line))
}

fn fits_refusal(refusal: &Refusal) -> bool
    ensures { result ≡ fits_refusal refusal.now }
{
    match refusal {
        Refusal::Conflict {
            why: Why::Key(spelling),
            ..
        } => is_key_spelled(spelling.as_slice()),
        _ => true,
    }
}

fn fits_answer(answer: &Answer) -> bool
    ensures { result ≡ fits_answer answer.now }
{
    match answer {
        Answer::Loaded { bytes, .. } => bytes.len() < 1 << 32,
        Answer::Oids { oids } => !oids.is_empty(),
        Answer::Revisions { list } => !list.is_empty() && all_revisions_fit(list.as_slice()),
        Answer::LogLines { list } => !list.is_empty() && all_lines_fit(list.as_slice()),
        Answer::Commits { list } => !list.is_empty(),
        Answer::Refused { refusal } => fits_refusal(refusal),
        _ => true,
    }
}

/// Whether a message is one of a row: its number is at most [`LAST_NUMBER`](crate::LAST_NUMBER), and its
/// fields are as their variant says.
pub fn fits(message: &Message) -> bool
    ensures { result ≡ Messages.fits message.now }
{
    match message {
        Message::Asked { number, call } => *number < 1 << 31 && fits_call(call),
        Message::Answered { number, answer } => *number < 1 << 31 && fits_answer(answer),
        Message::Told { .. } => true,
    }
}
