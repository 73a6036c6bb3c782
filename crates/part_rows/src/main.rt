//! The program `part_rows`: it reads the rows of each file in its folder, makes the call that a row
//! names, and compares the answer with the one that the row has. Its calls are those of value_rows,
//! file_rows and link_rows.
//! It ends with status 0 where each row is answered as it is to be.
#![tactic(auto)]

use row_cases::{Calls, Row, RowError, report_all};
use std::alloc::Global;
use std::process::ExitCode;

/// The calls of this program.
struct Parts;

impl Calls for Parts {
    fn answer(&self, alloc: Global, row: &Row) -> Result<Option<String>, RowError> {
        if let Some(text) = value_rows::answer(alloc, row)? {
            return Ok(Some(text));
        }
        if let Some(text) = file_rows::answer(alloc, row)? {
            return Ok(Some(text));
        }
        link_rows::answer(alloc, row)
    }
}

fn main(rt: HostRuntime) -> ExitCode {
    match report_all(&rt, &Parts) {
        Ok(true) => ExitCode::from(0),
        _ => ExitCode::from(1),
    }
}
