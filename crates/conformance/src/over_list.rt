//! The first run of a case over a list in memory, in place of the file in Main.

use mapping_store::MappingStore;
use run_cases::{Case, Run, are_replies, tell_replies};
use script_runs::run_over_store;
use std::alloc::{AllocError, Global};
use zb_model::first_transaction;
use zb_outside::{Clock, ListClock, MemorySink};
use zodb_top::turns_of;

/// Whether the words of a run are those of a script, behind a path.
fn runs_a_script(run: &Run) -> bool {
    match run.words.as_slice() {
        [_path, word] => word.as_str() == "run",
        _ => false,
    }
}

/// The run that can be made over a list in memory too, if the case has one: its first, where that
/// takes a script's turns over a new database, is to end well, and no call fails in it. A case that
/// must differ has none.
pub fn list_run(case: &Case) -> Option<&Run> {
    if !case.main.is_empty() || !case.failing_calls.is_empty() {
        return None;
    }
    if case.each.is_some() || case.differs.is_some() {
        return None;
    }
    let run = case.runs.first()?;
    if !run.failing_reads.is_empty() || !run.failing_writes.is_empty() {
        return None;
    }
    if run.expected.status == 0 && runs_a_script(run) {
        Some(run)
    } else {
        None
    }
}

/// The status of a script's run over the list of a new database, and what it writes.
fn run_over_list(alloc: Global, run: &Run) -> Result<(u8, Vec<u8>), AllocError> {
    let mut sink = MemorySink::new(alloc, Vec::new(alloc));
    let later = Vec::from_slice(alloc, run.later_stamps.as_slice())?;
    let mut clock = ListClock::new(run.first_stamp, later);
    let status = match turns_of(alloc, run.script.as_slice(), &mut sink) {
        Ok(turns) => {
            let first = first_transaction(alloc, clock.stamp())?;
            let list = MappingStore::new(alloc, first)?;
            run_over_store(alloc, list, None, turns.as_slice(), &mut sink, &mut clock).0
        }
        Err(status) => status,
    };
    Ok((status as u8, Vec::from_slice(alloc, sink.bytes())?))
}

/// In what a run over the list in memory differs from what is expected of it over a file, if it does.
pub fn list_difference(alloc: Global, run: &Run) -> Result<Option<String>, AllocError> {
    let (status, written) = run_over_list(alloc, run)?;
    if are_replies(&run.expected, status, written.as_slice()) {
        return Ok(None);
    }
    let text = tell_replies(alloc, &run.expected, status, written.as_slice())?;
    Ok(Some(text))
}
