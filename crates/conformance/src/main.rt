//! The program `conformance`: it runs the cases of each file in its folder through `zodb_main`, over
//! objects in memory, the scripts of new databases over a list in memory too, and prints a line for
//! each case. It ends with status 0 where each is reported as it is to be.
#![tactic(auto)]

mod folder;
mod over_list;
mod running;

use folder::{case_files, folder_of, text_of};
use over_list::{list_difference, list_run};
use run_cases::{Case, Tally, read_cases, report_of};
use running::run_case;
use std::alloc::{AllocError, Global};
use std::io;
use std::process::ExitCode;
use std::sync::Wait;
use std::thread::Threads;

/// In what a case first differs from what is expected: over a file and, where it is as expected
/// there and has a run that can be made over the list in memory, over that.
fn difference_in<R: Threads + Wait + Sync>(
    threads: &R,
    alloc: Global,
    case: &Case,
    tally: &mut Tally,
) -> Result<Option<String>, AllocError> {
    if let Some(difference) = run_case(threads, alloc, case)? {
        return Ok(Some(difference));
    }
    let Some(run) = list_run(case) else {
        return Ok(None);
    };
    tally.count_over_list();
    list_difference(alloc, run)
}

/// Runs a case, prints its line, and counts it.
fn report_case<R: Threads + Wait + Sync>(
    threads: &R,
    rt: &HostRuntime,
    case: &Case,
    tally: &mut Tally,
) -> io::Result<()> {
    let report = report_of(difference_in(threads, rt.alloc(), case, tally)?);
    tally.count(&report, case);
    let line = report.line(rt.alloc(), case)?;
    println!(rt; "{line}")
}

/// Runs the cases of a file.
fn report_file<R: Threads + Wait + Sync>(
    threads: &R,
    rt: &HostRuntime,
    folder: &str,
    name: &str,
    tally: &mut Tally,
) -> io::Result<()> {
    let text = text_of(rt, folder, name)?;
    match read_cases(rt.alloc(), text.as_str())? {
        Ok(cases) => {
            for case in &cases {
                report_case(threads, rt, case, tally)?;
            }
            Ok(())
        }
        Err(unread) => {
            tally.count_unread();
            let line = unread.line;
            let case = unread.case.as_str();
            let error = unread.error;
            println!(rt; "unread {name}, line {line}, case {case}: {error}")
        }
    }
}

/// Runs the cases of all files, and answers whether all are as they are to be.
fn report_all<R: Threads + Wait + Sync>(threads: &R, rt: &HostRuntime) -> io::Result<bool> {
    let mut tally = Tally::new();
    let folder = folder_of(rt)?;
    for name in case_files(rt, folder.as_str())? {
        if report_file(threads, rt, folder.as_str(), name.as_str(), &mut tally).is_err() {
            tally.count_unread();
            println!(rt; "unread {name}")?;
        }
    }
    let over_list = tally.over_list;
    println!(rt; "{over_list} ran over a list in memory too")?;
    let line = tally.line(rt.alloc())?;
    println!(rt; "{line}")?;
    Ok(tally.is_good())
}

fn main(rt: HostRuntime) -> ExitCode {
    match report_all(&rt, &rt) {
        Ok(true) => ExitCode::from(0),
        _ => ExitCode::from(1),
    }
}
