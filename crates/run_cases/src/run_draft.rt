//! A run of a case while its lines are read.

use crate::case::{After, Expectation, Left, Run};
use crate::case_error::CaseError;
use crate::fields::{MOST_MADE, bytes, exit_status, number, push, stamp, word_and_rest, words};
use crate::piece::{Part, Piece, piece_of, text_piece};
use std::alloc::{AllocError, Global};
use zb_ids::Stamp;

/// The path that the program is given, where a case doesn't name one.
const PATH: &str = "data.fs";

/// A run while its lines are read.
#[derive(Drop)]
pub struct RunDraft {
    pub failing_reads: Vec<u64>,
    pub failing_writes: Vec<u64>,
    words: Option<Vec<String>>,
    script: Vec<u8>,
    stamps: Vec<Stamp>,
    written: Vec<u8>,
    status: Option<u8>,
    after: Option<After>,
    unread: Option<u64>,
    next: Option<Stamp>,
    greatest: Option<Left>,
    least: Option<Left>,
}

/// The words of the program: the path, and those behind it.
fn words_behind_path(alloc: Global, text: &str) -> Result<Vec<String>, AllocError> {
    let mut all = Vec::new(alloc);
    all.push(String::from_str(alloc, PATH)?)?;
    for word in words(alloc, text)? {
        all.push(word)?;
    }
    Ok(all)
}

/// The words of a run, which are the path and `run` where the case doesn't say them.
fn words_or_run(alloc: Global, words: Option<Vec<String>>) -> Result<Vec<String>, AllocError> {
    match words {
        Some(words) => Ok(words),
        None => words_behind_path(alloc, "run"),
    }
}

/// The first of these stamps and the others, or the first moment of 2024 where there is none.
fn clock_of(alloc: Global, stamps: &[Stamp]) -> Result<(Stamp, Vec<Stamp>), CaseError> {
    match stamps {
        [] => Ok((stamp("2024-01-01 00:00:00")?, Vec::new(alloc))),
        [first, later @ ..] => Ok((*first, Vec::from_slice(alloc, later)?)),
    }
}

/// Says something that wasn't said yet.
pub fn say_once<T: Drop>(place: &mut Option<T>, value: T) -> Result<(), CaseError> {
    if place.is_some() {
        return Err(CaseError::Twice);
    }
    *place = Some(value);
    Ok(())
}

/// Adds bytes to what an image lists, or says that it is empty.
fn leave(alloc: Global, place: &mut Option<Left>, rest: &str) -> Result<(), CaseError> {
    if rest == "empty" {
        return say_once(place, Left::Empty);
    }
    let (word, line) = word_and_rest(rest);
    if word != "=" {
        return Err(CaseError::Form);
    }
    let piece = text_piece(alloc, Part::Written, line, "\n")?;
    match place {
        None => {
            *place = Some(Left::Listed(piece.bytes));
            Ok(())
        }
        Some(Left::Empty) => Err(CaseError::Twice),
        Some(Left::Listed(lines)) => Ok(lines.extend_from_slice(piece.bytes.as_slice())?),
    }
}

/// What `N bytes SHA256` says.
fn digest_of(alloc: Global, text: &str) -> Result<Option<After>, CaseError> {
    let (count, rest) = word_and_rest(text);
    let (word, digits) = word_and_rest(rest);
    if word != "bytes" {
        return Ok(None);
    }
    let length = number(count, MOST_MADE)?;
    let bytes = bytes(alloc, digits)?;
    match <[u8; 32]>::try_from(bytes.as_slice()) {
        Ok(sha256) => Ok(Some(After::Digest { length, sha256 })),
        Err(_) => Err(CaseError::Hex),
    }
}

impl RunDraft {
    /// A run of which nothing was read.
    pub fn new(alloc: Global) -> RunDraft {
        RunDraft {
            words: None,
            script: Vec::new(alloc),
            failing_reads: Vec::new(alloc),
            failing_writes: Vec::new(alloc),
            stamps: Vec::new(alloc),
            written: Vec::new(alloc),
            status: None,
            after: None,
            unread: None,
            next: None,
            greatest: None,
            least: None,
        }
    }

    /// Adds the bytes of a piece, so many times.
    fn add(&mut self, piece: &Piece, times: u64) -> Result<(), AllocError> {
        for _ in 0..times {
            match piece.part {
                Part::Script => self.script.extend_from_slice(piece.bytes.as_slice())?,
                Part::Written => self.written.extend_from_slice(piece.bytes.as_slice())?,
            }
        }
        Ok(())
    }

    /// Says what Main is behind the run.
    fn say_after(&mut self, alloc: Global, rest: &str) -> Result<(), CaseError> {
        if rest == "same" {
            return say_once(&mut self.after, After::Same);
        }
        if let Some(digest) = digest_of(alloc, rest)? {
            return say_once(&mut self.after, digest);
        }
        let bytes = bytes(alloc, rest)?;
        match &mut self.after {
            None => {
                self.after = Some(After::Bytes(bytes));
                Ok(())
            }
            Some(After::Bytes(front)) => Ok(front.extend_from_slice(bytes.as_slice())?),
            Some(_) => Err(CaseError::Twice),
        }
    }

    /// Says what is expected of the run, if the word does so.
    pub fn expect(&mut self, alloc: Global, word: &str, rest: &str) -> Result<bool, CaseError> {
        match word {
            "status" => say_once(&mut self.status, exit_status(rest)?)?,
            "after" => self.say_after(alloc, rest)?,
            "unread" => say_once(&mut self.unread, number(rest, MOST_MADE)?)?,
            "next" => say_once(&mut self.next, stamp(rest)?)?,
            "greatest" => leave(alloc, &mut self.greatest, rest)?,
            "least" => leave(alloc, &mut self.least, rest)?,
            _ => return Ok(false),
        }
        Ok(true)
    }

    /// Says what the run is given, if the word does so.
    pub fn give(&mut self, alloc: Global, word: &str, rest: &str) -> Result<bool, CaseError> {
        match word {
            "words" => say_once(&mut self.words, words_behind_path(alloc, rest)?)?,
            "argv" => say_once(&mut self.words, words(alloc, rest)?)?,
            "clock" => push(&mut self.stamps, stamp(rest)?)?,
            "repeat" => {
                let (times, line) = word_and_rest(rest);
                let times = number(times, MOST_MADE)?;
                let (word, rest) = word_and_rest(line);
                match piece_of(alloc, word, rest)? {
                    Some(piece) => self.add(&piece, times)?,
                    None => return Err(CaseError::Form),
                }
            }
            _ => match piece_of(alloc, word, rest)? {
                Some(piece) => self.add(&piece, 1)?,
                None => return Ok(false),
            },
        }
        Ok(true)
    }

    /// The run, if all that it must say was said.
    pub fn finished(self, alloc: Global) -> Result<Run, CaseError> {
        let RunDraft {
            words,
            script,
            failing_reads,
            failing_writes,
            stamps,
            written,
            status,
            after,
            unread,
            next,
            greatest,
            least,
        } = self;
        let status = status.ok_or(CaseError::NoExpectation)?;
        let after = after.ok_or(CaseError::NoExpectation)?;
        let (first_stamp, later_stamps) = clock_of(alloc, stamps.as_slice())?;
        let expected = Expectation {
            written,
            status,
            after,
            unread,
            next,
            greatest,
            least,
        };
        Ok(Run {
            words: words_or_run(alloc, words)?,
            script,
            failing_reads,
            failing_writes,
            first_stamp,
            later_stamps,
            expected,
        })
    }
}
