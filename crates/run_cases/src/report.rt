//! What is said of a case, and the count of what was said.

ghost use Rattle.std.specs.Prelude.{◌≡◌, ◌≢◌, ◌↔◌, ◌<◌, ◌≤◌, None, IsSome, IsTrue};
ghost use Rattle.run_cases.specs.declared.report.Report.TheVariants.{Ok as AsExpected};

use crate::case::Case;
use std::alloc::{AllocError, Global};

/// What is said of a case.
#[derive(Drop)]
pub enum Report {
    /// What was written, the status and what Main has are what the case expects.
    Ok,
    /// They differ, in these words.
    Differs(String),
}

/// The report of a case that differs so.
pub fn report_of(difference: Option<String>) -> Report
    ensures { (result ≡ AsExpected) ↔ (difference ≡ None) }
{
    match difference {
        None => Report::Ok,
        Some(text) => Report::Differs(text),
    }
}

impl Report {
    /// Whether this is what the case is to be reported as.
    pub fn is_told(&self, case: &Case) -> bool
        ensures ok { self.now ≡ AsExpected → IsTrue result ↔ (case.now.differs ≡ None) }
        ensures differs { self.now ≢ AsExpected → IsTrue result → IsSome case.now.differs }
    {
        match (self, &case.differs) {
            (Report::Ok, None) => true,
            (Report::Differs(text), Some(told)) => text.as_str() == told.as_str(),
            _ => false,
        }
    }

    /// The line of a case.
    pub fn line(&self, alloc: Global, case: &Case) -> Result<String, AllocError> {
        let name = case.name.as_str();
        match self {
            Report::Ok => format!(in alloc; "ok {name}"),
            Report::Differs(text) => format!(in alloc; "differs {name}: {text}"),
        }
    }
}

/// How many cases and files were reported, and as what.
#[derive(Clone, Copy)]
pub struct Tally {
    /// Cases that are as expected.
    pub ok: u64,
    /// Cases that differ as they are to.
    pub differing: u64,
    /// Cases that are reported otherwise than they are to be, and files that can't be read.
    pub wrong: u64,
    /// Cases that were run over a list in memory too.
    pub over_list: u64,
}

impl Tally {
    /// Nothing was reported.
    pub fn new() -> Tally {
        Tally {
            ok: 0,
            differing: 0,
            wrong: 0,
            over_list: 0,
        }
    }

    /// Counts a report of a case.
    pub fn count(&mut self, report: &Report, case: &Case)
        ensures wrong { self.old.wrong ≤ self.new.wrong }
        ensures missed { report.now ≡ AsExpected → IsSome case.now.differs → 0 < self.new.wrong }
        ensures differing { report.now ≢ AsExpected → case.now.differs ≡ None → 0 < self.new.wrong }
    {
        if !report.is_told(case) {
            self.wrong = self.wrong.saturating_add(1);
        } else if case.differs.is_some() {
            self.differing = self.differing.saturating_add(1);
        } else {
            self.ok = self.ok.saturating_add(1);
        }
    }

    /// Counts a file that can't be read.
    pub fn count_unread(&mut self)
        ensures wrong { 0 < self.new.wrong }
    {
        self.wrong = self.wrong.saturating_add(1);
    }

    /// Counts a case that is run over a list in memory too.
    pub fn count_over_list(&mut self)
        ensures wrong { self.new.wrong ≡ self.old.wrong }
    {
        self.over_list = self.over_list.saturating_add(1);
    }

    /// Whether there is something, and all of it is as it is to be.
    pub fn is_good(&self) -> bool
        ensures { IsTrue result ↔ (self.now.wrong ≡ 0) × (0 < self.now.ok) }
    {
        self.wrong == 0 && self.ok > 0
    }

    /// The last line.
    pub fn line(&self, alloc: Global) -> Result<String, AllocError> {
        let ok = self.ok;
        let differing = self.differing;
        let wrong = self.wrong;
        format!(in alloc; "{ok} ok, {differing} differ as they are to, {wrong} wrong")
    }
}
