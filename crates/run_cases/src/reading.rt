//! A file of cases is read.

ghost use Rattle.std.specs.Prelude.{◌<◌, IfOk, vec_len};

use crate::case::Case;
use crate::case_error::CaseError;
use crate::draft::Draft;
use crate::fields::{push, word_and_rest};
use std::alloc::{AllocError, Global};

/// Where a file of cases is none: the line, the case that it stands in, and why.
#[derive(Drop)]
pub struct Unread {
    /// The number of the line, counted from 1.
    pub line: u64,
    /// The name of the case, or none where no case has begun.
    pub case: String,
    /// Why.
    pub error: CaseError,
}

/// The cases of a file so far, and the one that is being read.
#[derive(Drop)]
struct Reader {
    cases: Vec<Case>,
    draft: Option<Draft>,
}

impl Reader {
    /// Takes a line.
    fn take(&mut self, alloc: Global, line: &str) -> Result<(), CaseError> {
        let (word, rest) = word_and_rest(line);
        if line.is_empty() || word == "#" {
            return Ok(());
        }
        match self.draft.take() {
            None if word == "case" => {
                self.draft = Some(Draft::new(alloc, rest)?);
                Ok(())
            }
            None => Err(CaseError::NoBeginning),
            Some(draft) if line == "end" => Ok(push(&mut self.cases, draft.finished(alloc)?)?),
            Some(mut draft) => {
                let taken = draft.take(alloc, line);
                self.draft = Some(draft);
                taken
            }
        }
    }

    /// The name of the case that is being read, if one is.
    fn name(&self) -> &str {
        match &self.draft {
            Some(draft) => draft.name(),
            None => "",
        }
    }
}

/// Where and why a file can't be read.
fn unread_at(alloc: Global, line: u64, case: &str, error: CaseError) -> Result<Unread, AllocError> {
    let case = String::from_str(alloc, case)?;
    Ok(Unread { line, case, error })
}

/// The cases of a file, of which there is at least one.
pub fn read_cases(alloc: Global, text: &str) -> Result<Result<Vec<Case>, Unread>, AllocError>
    ensures some { IfOk result (λ answer. IfOk answer (λ cases. 0 < vec_len cases)) }
{
    let mut reader = Reader {
        cases: Vec::new(alloc),
        draft: None,
    };
    let mut number = 0u64;
    for line in text.split('\n') {
        number = number.saturating_add(1);
        let name = String::from_str(alloc, reader.name())?;
        if let Err(error) = reader.take(alloc, line) {
            return Ok(Err(unread_at(alloc, number, name.as_str(), error)?));
        }
    }
    if reader.draft.is_some() {
        return Ok(Err(unread_at(alloc, number, reader.name(), CaseError::NoEnd)?));
    }
    if reader.cases.is_empty() {
        return Ok(Err(unread_at(alloc, number, "", CaseError::NoCase)?));
    }
    Ok(Ok(reader.cases))
}
