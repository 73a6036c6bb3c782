//! Whether answers are as they are to be, and how many were.

use crate::row::Row;
use std::alloc::{AllocError, Global};

/// What an answer is.
#[derive(Clone, Copy, Debug, PartialEq, Eq)]
pub enum Verdict {
    /// The expected one.
    Ok,
    /// Another, as it is to be.
    Differs,
    /// Not as it is to be.
    Wrong,
}

/// What an answer to the call of a row is.
pub fn verdict_of(row: &Row, given: &str) -> Verdict {
    let is_wanted = match &row.wanted {
        Some(wanted) => wanted.as_str() == given,
        None => false,
    };
    match &row.told {
        None if is_wanted => Verdict::Ok,
        Some(told) if !is_wanted && told.as_str() == given => Verdict::Differs,
        _ => Verdict::Wrong,
    }
}

/// How many rows and files there were.
#[derive(Clone, Copy, Debug)]
pub struct Tally {
    /// Rows with the expected answer.
    ok: u64,
    /// Rows that differ as they are to.
    differing: u64,
    /// All other rows, and files that can't be read.
    wrong: u64,
}

impl Tally {
    /// Of nothing.
    pub fn new() -> Tally {
        Tally {
            ok: 0,
            differing: 0,
            wrong: 0,
        }
    }

    /// Counts an answer.
    pub fn count(&mut self, verdict: Verdict) {
        match verdict {
            Verdict::Ok => self.ok = self.ok.saturating_add(1),
            Verdict::Differs => self.differing = self.differing.saturating_add(1),
            Verdict::Wrong => self.wrong = self.wrong.saturating_add(1),
        }
    }

    /// Whether there is something, and all of it is as it is to be.
    pub fn is_good(&self) -> bool {
        self.wrong == 0 && self.ok > 0
    }

    /// The last line.
    pub fn line(&self, alloc: Global) -> Result<String, AllocError> {
        let ok = self.ok;
        let differing = self.differing;
        let wrong = self.wrong;
        format!(in alloc; "{ok} ok, {differing} differ as they are to, {wrong} wrong")
    }
}
