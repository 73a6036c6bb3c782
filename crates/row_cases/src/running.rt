//! The files of rows in a folder are read, and the calls of their rows are made.

use crate::reading::read_rows;
use crate::row::Row;
use crate::row_error::RowError;
use crate::tally::{Tally, Verdict, verdict_of};
use std::alloc::Global;
use std::{env, fs, io};

/// How the name of a file of rows ends.
const ENDING: &str = ".rows";

/// The calls that a program of rows can make.
pub trait Calls {
    /// The answer to the call of a row; `None` where there is no such call.
    fn answer(&self, alloc: Global, row: &Row) -> Result<Option<String>, RowError>;
}

/// The folder of the rows: the first word behind the program's name, else the one where it runs.
fn folder_of(rt: &HostRuntime) -> io::Result<String> {
    let mut words = env::args(rt)?.skip(1);
    match words.next() {
        Some(word) => Ok(word),
        None => Ok(String::from_str(rt.alloc(), ".")?),
    }
}

/// The names of the files of rows in a folder, in their order.
fn row_files(rt: &HostRuntime, folder: &str) -> io::Result<Vec<String>> {
    let mut names = Vec::new(rt.alloc());
    for entry in fs::read_dir(rt, folder)? {
        let entry = entry?;
        let name = entry.file_name();
        if name.ends_with(ENDING) {
            names.push(String::from_str(rt.alloc(), name)?)?;
        }
    }
    names.sort()?;
    Ok(names)
}

/// The text of a file.
fn text_of(rt: &HostRuntime, folder: &str, name: &str) -> io::Result<String> {
    let path = format!(in rt.alloc(); "{folder}/{name}")?;
    fs::read_to_string(rt, path.as_str())
}

/// The answer to the call of a row, which has to be one of these.
fn answer_of<C: Calls>(alloc: Global, calls: &C, row: &Row) -> Result<String, RowError> {
    match calls.answer(alloc, row)? {
        Some(text) => Ok(text),
        None => Err(RowError::UnknownCall),
    }
}

/// Makes the call of a row, prints a line where its answer isn't the expected one, and counts it.
fn report_row<C: Calls>(
    rt: &HostRuntime,
    calls: &C,
    name: &str,
    row: &Row,
    tally: &mut Tally,
) -> io::Result<()> {
    let line = row.line;
    match answer_of(rt.alloc(), calls, row) {
        Ok(given) => {
            let verdict = verdict_of(row, given.as_str());
            tally.count(verdict);
            if verdict == Verdict::Ok {
                return Ok(());
            }
            println!(rt; "differs {name}, line {line}: {given}")
        }
        Err(error) => {
            tally.count(Verdict::Wrong);
            println!(rt; "unread {name}, line {line}: {error}")
        }
    }
}

/// Makes the calls of the rows of a file.
fn report_file<C: Calls>(
    rt: &HostRuntime,
    calls: &C,
    folder: &str,
    name: &str,
    tally: &mut Tally,
) -> io::Result<()> {
    let text = text_of(rt, folder, name)?;
    match read_rows(rt.alloc(), text.as_str()) {
        Ok(rows) => {
            for row in &rows {
                report_row(rt, calls, name, row, tally)?;
            }
            let count = rows.len();
            println!(rt; "read {name}: {count} rows")
        }
        Err(unread) => {
            tally.count(Verdict::Wrong);
            let line = unread.line;
            let error = unread.error;
            println!(rt; "unread {name}, line {line}: {error}")
        }
    }
}

/// Makes the calls of all rows of the folder that the program is given, or where it runs, prints
/// what differs and a last line, and answers whether all are answered as they are to be.
pub fn report_all<C: Calls>(rt: &HostRuntime, calls: &C) -> io::Result<bool> {
    let mut tally = Tally::new();
    let folder = folder_of(rt)?;
    for name in row_files(rt, folder.as_str())? {
        if report_file(rt, calls, folder.as_str(), name.as_str(), &mut tally).is_err() {
            tally.count(Verdict::Wrong);
            println!(rt; "unread {name}")?;
        }
    }
    let line = tally.line(rt.alloc())?;
    println!(rt; "{line}")?;
    Ok(tally.is_good())
}
