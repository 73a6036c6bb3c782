//! What opening cuts off the end of a file, kept in a file beside it.

use crate::area_file::{AreaFile, HostFile, make_like};
use std::alloc::Global;
use std::fs::{OpenFile, OpenOptions};
use std::io::ErrorKind;
use std::rt::Files;
use std::{fs, io};

// How many bytes are copied at once.
const PIECE: usize = 65_536;

// How many files of one place there may be.
const NUMBERS: u32 = 10_000;

// The name of the file for what stood behind a place: `PATH.cut-AT`, and `PATH.cut-AT.1` and so on
// where that is taken.
fn name_of(alloc: Global, path: &str, at: u64, number: u32) -> io::Result<String> {
    if number == 0 {
        return Ok(format!(in alloc; "{path}.cut-{at}")?);
    }
    Ok(format!(in alloc; "{path}.cut-{at}.{number}")?)
}

// Makes a new file under the first of the names that is free.
fn make_new<R: Files>(
    alloc: Global,
    runtime: &R,
    path: &str,
    at: u64,
) -> io::Result<(String, R::File)>
where
    R::File: HostFile,
{
    let mut options = OpenOptions::new();
    options.read(true).write(true).create_new(true);
    for number in 0..NUMBERS {
        let name = name_of(alloc, path, at, number)?;
        match options.open(runtime, name.as_str()) {
            Ok(opened) => {
                // As with the files of areas, the descriptor is above 2.
                let file = opened.try_clone()?;
                return Ok((name, file));
            }
            Err(error) if error.kind() == ErrorKind::AlreadyExists => {}
            Err(error) => return Err(error),
        }
    }
    Err(io::Error::from(ErrorKind::AlreadyExists))
}

// Copies as many bytes as the piece holds from a place of a file to a place of its copy.
fn copy_piece<R: Files>(
    main: &AreaFile<R>,
    from: u64,
    copy: &R::File,
    to: u64,
    piece: &mut [u8],
) -> io::Result<()>
where
    R::File: HostFile,
{
    main.read(from, piece)?;
    copy.put_at(to, piece)
}

// Copies the bytes from a place on to the end, and makes sure of them.
fn copy_tail<R: Files>(
    alloc: Global,
    main: &AreaFile<R>,
    at: u64,
    end: u64,
    copy: &R::File,
) -> io::Result<()>
where
    R::File: HostFile,
{
    let mut piece = vec![in alloc; 0; PIECE]?;
    let mut place = at;
    while place < end {
        let count = (end - place).min(PIECE as u64) as usize;
        copy_piece(main, place, copy, place - at, &mut piece[..count])?;
        place += count as u64;
    }
    copy.sync_all()
}

/// Keeps the bytes of a file from a place on in a new file beside it, which has its owner and mode, and
/// makes sure of them. A file that couldn't be written whole is removed. The folder is not synced.
pub(crate) fn keep_tail<R: Files>(
    alloc: Global,
    runtime: &R,
    main: &AreaFile<R>,
    at: u64,
    end: u64,
) -> io::Result<()>
where
    R::File: HostFile,
{
    let (name, copy) = make_new(alloc, runtime, main.path.as_str(), at)?;
    let mut kept = make_like::<R>(&copy, main.opened()?);
    if kept.is_ok() {
        kept = copy_tail(alloc, main, at, end, &copy);
    }
    if kept.is_err() {
        let _ = fs::remove_file(runtime, name.as_str());
    }
    kept
}
