//! A file of rows is read.

use crate::row::Row;
use crate::row_error::RowError;
use std::alloc::Global;

/// Where a file of rows is none, and why.
#[derive(Clone, Copy, Debug)]
pub struct Unread {
    pub line: u64,
    pub error: RowError,
}

/// The rows of a file so far; the last one may go on.
#[derive(Drop)]
struct Reader {
    rows: Vec<Row>,
    row: Option<Row>,
}

/// Puts a line at the end of an answer.
fn add_line(alloc: Global, answer: &mut Option<String>, line: &str) -> Result<(), RowError> {
    match answer {
        Some(text) => {
            text.push_str("; ")?;
            text.push_str(line)?;
        }
        None => *answer = Some(String::from_str(alloc, line)?),
    }
    Ok(())
}

/// A row that begins with this line.
fn begin(alloc: Global, number: u64, line: &str) -> Result<Row, RowError> {
    let mut words = line.split(' ');
    let call = String::from_str(alloc, words.next().unwrap_or(""))?;
    let mut fields = Vec::new(alloc);
    for word in words {
        fields.push(String::from_str(alloc, word)?)?;
    }
    Ok(Row {
        line: number,
        call,
        fields,
        wanted: None,
        told: None,
    })
}

/// Takes a line that goes on with a row.
fn go_on(alloc: Global, row: &mut Row, mark: &str, rest: &str) -> Result<(), RowError> {
    match mark {
        "|" if row.wanted.is_some() => Err(RowError::Order),
        "|" => Ok(row.fields.push(String::from_str(alloc, rest)?)?),
        "=" if row.told.is_some() => Err(RowError::Order),
        "=" => add_line(alloc, &mut row.wanted, rest),
        _ => add_line(alloc, &mut row.told, rest),
    }
}

impl Reader {
    /// Ends the row that goes on.
    fn end(&mut self) -> Result<(), RowError> {
        let Some(row) = self.row.take() else {
            return Ok(());
        };
        if row.wanted.is_none() {
            return Err(RowError::NoAnswer);
        }
        Ok(self.rows.push(row)?)
    }

    /// Takes a line.
    fn take(&mut self, alloc: Global, number: u64, line: &str) -> Result<(), RowError> {
        if line.is_empty() {
            return Ok(());
        }
        let (mark, rest) = match line.split_once(' ') {
            Some(parts) => parts,
            None => (line, ""),
        };
        match mark {
            "#" => Ok(()),
            "|" | "=" | "!" => match &mut self.row {
                Some(row) => go_on(alloc, row, mark, rest),
                None => Err(RowError::NoBeginning),
            },
            _ => {
                self.end()?;
                self.row = Some(begin(alloc, number, line)?);
                Ok(())
            }
        }
    }
}

/// The rows of a file, of which there is at least one.
pub fn read_rows(alloc: Global, text: &str) -> Result<Vec<Row>, Unread> {
    let mut reader = Reader {
        rows: Vec::new(alloc),
        row: None,
    };
    let mut number = 0u64;
    for line in text.split('\n') {
        number = number.saturating_add(1);
        if let Err(error) = reader.take(alloc, number, line) {
            return Err(Unread {
                line: number,
                error,
            });
        }
    }
    let error = match reader.end() {
        Err(error) => error,
        Ok(()) if reader.rows.is_empty() => RowError::NoRow,
        Ok(()) => return Ok(reader.rows),
    };
    Err(Unread {
        line: number,
        error,
    })
}
