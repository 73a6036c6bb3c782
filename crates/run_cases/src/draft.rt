//! A case while its lines are read.

use crate::case::{Case, Each, Outside, Run};
use crate::case_error::CaseError;
use crate::fields::{
    bytes, call_number, call_numbers, filled, outside_and_rest, push, word_and_rest,
};
use crate::run_draft::{RunDraft, say_once};
use std::alloc::Global;

/// A case while its lines are read.
#[derive(Drop)]
pub struct Draft {
    name: String,
    main: Vec<u8>,
    failing_calls: Vec<u64>,
    each: Option<Each>,
    runs: Vec<Run>,
    differs: Option<String>,
    run: RunDraft,
}

impl Draft {
    /// A case of which nothing but the name was read.
    pub fn new(alloc: Global, name: &str) -> Result<Draft, CaseError> {
        if name.is_empty() || name.contains(' ') {
            return Err(CaseError::Name);
        }
        Ok(Draft {
            name: String::from_str(alloc, name)?,
            main: Vec::new(alloc),
            failing_calls: Vec::new(alloc),
            each: None,
            runs: Vec::new(alloc),
            differs: None,
            run: RunDraft::new(alloc),
        })
    }

    /// The name of the case.
    pub fn name(&self) -> &str {
        self.name.as_str()
    }

    /// Takes a line, which doesn't end the case.
    pub fn take(&mut self, alloc: Global, line: &str) -> Result<(), CaseError> {
        let (word, rest) = word_and_rest(line);
        if self.run.give(alloc, word, rest)? || self.run.expect(alloc, word, rest)? {
            return Ok(());
        }
        match word {
            "main" => self.add_main(alloc, rest),
            "fail" => self.fail(alloc, rest),
            "each" => self.fail_each(rest),
            "differs" => say_once(&mut self.differs, String::from_str(alloc, rest)?),
            "then" => self.go_on(alloc),
            _ => Err(CaseError::UnknownWord),
        }
    }

    /// The case, if all that it must say was said.
    pub fn finished(self, alloc: Global) -> Result<Case, CaseError> {
        let Draft {
            name,
            main,
            failing_calls,
            each,
            mut runs,
            differs,
            run,
        } = self;
        push(&mut runs, run.finished(alloc)?)?;
        Ok(Case {
            name,
            main,
            failing_calls,
            each,
            runs,
            differs,
        })
    }

    fn add_main(&mut self, alloc: Global, rest: &str) -> Result<(), CaseError> {
        if !self.runs.is_empty() {
            return Err(CaseError::FirstRunOnly);
        }
        let (word, behind) = word_and_rest(rest);
        let added = if word == "fill" {
            filled(alloc, behind)?
        } else {
            bytes(alloc, rest)?
        };
        Ok(self.main.extend_from_slice(added.as_slice())?)
    }

    fn fail(&mut self, alloc: Global, rest: &str) -> Result<(), CaseError> {
        let (of, rest) = outside_and_rest(rest)?;
        let numbers = call_numbers(alloc, rest)?;
        match of {
            Outside::Source => self
                .run
                .failing_reads
                .extend_from_slice(numbers.as_slice())?,
            Outside::Sink => self
                .run
                .failing_writes
                .extend_from_slice(numbers.as_slice())?,
            Outside::Volume => {
                if !self.runs.is_empty() {
                    return Err(CaseError::FirstRunOnly);
                }
                self.failing_calls.extend_from_slice(numbers.as_slice())?;
            }
        }
        Ok(())
    }

    fn fail_each(&mut self, rest: &str) -> Result<(), CaseError> {
        if !self.runs.is_empty() {
            return Err(CaseError::FirstRunOnly);
        }
        let (of, rest) = outside_and_rest(rest)?;
        let (first, last) = word_and_rest(rest);
        let first = call_number(first)?;
        let last = call_number(last)?;
        if last < first {
            return Err(CaseError::Form);
        }
        say_once(&mut self.each, Each { of, first, last })
    }

    /// The next run begins.
    fn go_on(&mut self, alloc: Global) -> Result<(), CaseError> {
        let draft = std::mem::replace(&mut self.run, RunDraft::new(alloc));
        let run = draft.finished(alloc)?;
        push(&mut self.runs, run)?;
        Ok(())
    }
}
