//! The words that tell a difference.

use crate::case::{After, Expectation, Left};
use crate::outcome::{Difference, Outcome};
use sha2::{Digest, Sha256};
use std::alloc::{AllocError, Global};
use std::str;
use zb_ids::Stamp;

/// How many bytes of a line are shown at most.
const MOST_SHOWN: usize = 160;

/// The first line in which two texts differ.
#[derive(Clone, Copy)]
struct LinePair<'a> {
    number: u64,
    wanted: Option<&'a str>,
    given: Option<&'a str>,
}

/// Bytes as text, where they are one.
fn as_text(bytes: &[u8]) -> &str {
    str::from_utf8(bytes).unwrap_or("(bytes that are no text)")
}

fn first_pair<'a>(wanted: &'a str, given: &'a str) -> LinePair<'a> {
    let mut others = given.lines();
    let mut number = 0u64;
    for line in wanted.lines() {
        number = number.saturating_add(1);
        let other = others.next();
        if other != Some(line) {
            return LinePair {
                number,
                wanted: Some(line),
                given: other,
            };
        }
    }
    LinePair {
        number: number.saturating_add(1),
        wanted: None,
        given: others.next(),
    }
}

/// A line between quotes, or that there is none.
fn shown(alloc: Global, line: Option<&str>) -> Result<String, AllocError> {
    match line {
        None => String::from_str(alloc, "no line"),
        Some(line) => {
            let front = line.get(..MOST_SHOWN).unwrap_or(line);
            format!(in alloc; "`{front}`")
        }
    }
}

fn tell_lines(alloc: Global, wanted: &[u8], given: &[u8]) -> Result<String, AllocError> {
    let pair = first_pair(as_text(wanted), as_text(given));
    let number = pair.number;
    let wanted = shown(alloc, pair.wanted)?;
    let given = shown(alloc, pair.given)?;
    format!(in alloc; "line {number} is {given}, and {wanted} is expected")
}

fn tell_digest(alloc: Global, length: u64, sha256: &[u8]) -> Result<String, AllocError> {
    let digits = hex::encode(alloc, sha256)?;
    format!(in alloc; "{length} bytes {digits}")
}

fn tell_bytes(alloc: Global, bytes: &[u8]) -> Result<String, AllocError> {
    let sha256 = Sha256::digest(bytes);
    tell_digest(alloc, bytes.len() as u64, sha256.as_slice())
}

fn tell_main(alloc: Global, after: &After, outcome: &Outcome) -> Result<String, AllocError> {
    let given = tell_bytes(alloc, outcome.main.as_slice())?;
    let wanted = match after {
        After::Same => tell_bytes(alloc, outcome.before.as_slice())?,
        After::Bytes(bytes) => tell_bytes(alloc, bytes.as_slice())?,
        After::Digest { length, sha256 } => tell_digest(alloc, *length, sha256.as_slice())?,
    };
    format!(in alloc; "Main has {given}, and {wanted} are expected")
}

/// What is listed over an image.
fn lines_of(left: &Option<Left>) -> &[u8] {
    match left {
        Some(Left::Listed(lines)) => lines.as_slice(),
        Some(Left::Empty) => b"(empty)".as_slice(),
        None => b"".as_slice(),
    }
}

fn tell_stamp(alloc: Global, stamp: Stamp) -> Result<String, AllocError> {
    let Stamp {
        year,
        month,
        day,
        hour,
        minute,
        micros,
    } = stamp;
    let seconds = micros / 1_000_000;
    let millionths = micros % 1_000_000;
    format!(in alloc;
        "{year}-{month:02}-{day:02} {hour:02}:{minute:02}:{seconds:02}.{millionths:06}"
    )
}

fn tell_next(alloc: Global, wanted: Option<Stamp>, given: Stamp) -> Result<String, AllocError> {
    let given = tell_stamp(alloc, given)?;
    match wanted {
        None => Ok(given),
        Some(wanted) => {
            let wanted = tell_stamp(alloc, wanted)?;
            format!(in alloc; "the clock gives {given} next, and {wanted} is expected")
        }
    }
}

fn tell_status(alloc: Global, wanted: u8, given: u8) -> Result<String, AllocError> {
    format!(in alloc; "the status is {given}, and {wanted} is expected")
}

/// In what a run over a list in memory differs, in words.
pub fn tell_replies(
    alloc: Global,
    expected: &Expectation,
    status: u8,
    written: &[u8],
) -> Result<String, AllocError> {
    let wanted = expected.written.as_slice();
    let words = if written == wanted {
        tell_status(alloc, expected.status, status)?
    } else {
        tell_lines(alloc, wanted, written)?
    };
    format!(in alloc; "over a list in memory {words}")
}

/// A difference in words.
pub fn tell(
    alloc: Global,
    difference: Difference,
    expected: &Expectation,
    outcome: &Outcome,
) -> Result<String, AllocError> {
    match difference {
        Difference::Written => tell_lines(
            alloc,
            expected.written.as_slice(),
            outcome.written.as_slice(),
        ),
        Difference::Status => tell_status(alloc, expected.status, outcome.status),
        Difference::Main => tell_main(alloc, &expected.after, outcome),
        Difference::Greatest => {
            let lines = tell_lines(
                alloc,
                lines_of(&expected.greatest),
                lines_of(&outcome.greatest),
            )?;
            format!(in alloc; "over the greatest image {lines}")
        }
        Difference::Least => {
            let lines = tell_lines(alloc, lines_of(&expected.least), lines_of(&outcome.least))?;
            format!(in alloc; "over the least image {lines}")
        }
        Difference::Unread => {
            let given = outcome.unread;
            let wanted = expected.unread.unwrap_or(0);
            format!(in alloc; "{given} bytes are unread, and {wanted} are expected")
        }
        Difference::Next => tell_next(alloc, expected.next, outcome.next),
    }
}
