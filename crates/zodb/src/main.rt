//! The program `zodb`: it hands the words, the standard input, the standard output, the files of the
//! path, the clock, this machine's ports and threads to the top call, and ends with its status. Nothing is written to the standard error.
#![tactic(auto)]

use host_volume::HostVolume;
use read_ahead::ReadAhead;
use script_runs::Status;
use std::env;
use std::io::ErrorKind;
use std::process::ExitCode;
use zb_links::{TcpDoors, ThreadSpawner};
use zb_outside::{HostClock, ReadSource, WriteSink};
use zodb_top::zodb_main;

/// The words behind the program's name. Where one isn't UTF-8 there are none, so that they are no
/// command.
fn words_of(rt: &HostRuntime) -> Option<Vec<String>> {
    let mut words = Vec::new(rt.alloc());
    match env::args(rt) {
        Ok(all) => {
            for word in all.skip(1) {
                words.push(word).ok()?;
            }
        }
        Err(error) if error.kind() == ErrorKind::OutOfMemory => return None,
        Err(_) => {}
    }
    Some(words)
}

/// The path of the file: the first word, where there is one.
fn path_of(words: &[String]) -> &str {
    match words.first() {
        Some(path) => path.as_str(),
        None => "",
    }
}

fn main(rt: HostRuntime) -> ExitCode {
    let Some(words) = words_of(&rt) else {
        return ExitCode::from(Status::NoMemory.number());
    };
    let Ok(files) = HostVolume::new(rt.alloc(), &rt, path_of(words.as_slice())) else {
        return ExitCode::from(Status::NoMemory.number());
    };
    let Ok(volume) = ReadAhead::new(rt.alloc(), files) else {
        return ExitCode::from(Status::NoMemory.number());
    };
    let mut source = ReadSource::new(rt.stdin());
    let mut sink = WriteSink::new(rt.stdout());
    let mut clock = HostClock::new(&rt);
    let mut doors = TcpDoors::new(&rt);
    let mut spawner = ThreadSpawner::new();
    let (status, _) = zodb_main(
        &rt,
        rt.alloc(),
        words.as_slice(),
        &mut source,
        &mut sink,
        volume,
        &mut clock,
        &mut doors,
        &mut spawner,
    );
    ExitCode::from(status.number())
}
