//! A file of an area, and the calls of the host on it.

ghost use Rattle.std.specs.Prelude.{◌+◌, ◌<◌, ◌^◌, length, IfOk, OnOk};

use crate::limit::may_reach;
use std::fs::{File, OpenFile, OpenOptions};
use std::io::ErrorKind;
use std::os::fd::AsFd;
use std::os::unix::fs::{FileExt, MetadataExt, fchown};
use std::rt::Files;
use std::{fs, io};

// The greatest length of a file in bytes.
const MAX_LENGTH: u64 = (1 << 63) - 1;

/// An open file that can be locked for the one that opened it, is read and written at a place, and
/// can be given to an owner.
pub trait HostFile {
    /// Locks the whole file until it is closed, or answers an error at once where another open of the
    /// same file has locked it.
    fn lock_alone(&self) -> io::Result<()>;

    /// Fills `out` with the bytes from a place on, or answers an error where there are fewer.
    fn fill_at(&self, at: u64, out: &mut [u8]) -> io::Result<()>;

    /// Puts all the bytes into the file from a place on.
    fn put_at(&self, at: u64, bytes: &[u8]) -> io::Result<()>;

    /// Gives the file to a user and a group, by their numbers.
    fn give_to(&self, owner: u32, group: u32) -> io::Result<()>;
}

impl HostFile for File {
    fn lock_alone(&self) -> io::Result<()> {
        Ok(self.try_lock()?)
    }

    fn fill_at(&self, at: u64, out: &mut [u8]) -> io::Result<()> {
        self.read_exact_at(out, at)
    }

    fn put_at(&self, at: u64, bytes: &[u8]) -> io::Result<()> {
        self.write_all_at(bytes, at)
    }

    fn give_to(&self, owner: u32, group: u32) -> io::Result<()> {
        fchown(self.as_fd(), Some(owner), Some(group))
    }
}

/// The file of an area, once it is open.
#[derive(Drop)]
pub(crate) struct AreaFile<R: Files> {
    pub path: String,
    pub file: Option<R::File>,
}

pub(crate) fn invalid() -> io::Error {
    io::Error::from(ErrorKind::InvalidInput)
}

/// Whether a regular file stands at a path, or nothing. Anything else, a link too, is an error.
pub(crate) fn has_file<R: Files>(runtime: &R, path: &str) -> io::Result<bool> {
    match fs::symlink_metadata(runtime, path) {
        Ok(found) if found.is_file() => Ok(true),
        Ok(_) => Err(invalid()),
        Err(error) if error.kind() == ErrorKind::NotFound => Ok(false),
        Err(error) => Err(error),
    }
}

// Whether an open file is a regular one, and still the one at its path.
fn is_at<R: Files>(runtime: &R, path: &str, file: &R::File) -> io::Result<bool> {
    let opened = file.metadata()?;
    let named = fs::symlink_metadata(runtime, path)?;
    Ok(
        opened.is_file()
            && named.is_file()
            && opened.dev() == named.dev()
            && opened.ino() == named.ino(),
    )
}

/// Opens a regular file to read and write it, or makes one where nothing stands at the path, and locks
/// it.
pub(crate) fn open_or_make<R: Files>(runtime: &R, path: &str) -> io::Result<R::File>
where
    R::File: HostFile,
{
    let there = has_file(runtime, path)?;
    let mut options = OpenOptions::new();
    options.read(true).write(true).create_new(!there);
    let opened = options.open(runtime, path)?;
    // The descriptor of a clone is above 2: where the standard output was closed, what is opened
    // first gets its number, and would be written over.
    let file = opened.try_clone()?;
    file.lock_alone()?;
    if !is_at(runtime, path, &file)? {
        return Err(invalid());
    }
    Ok(file)
}

/// Gives a file the owner, the group and the mode of another one. A process that may not give files
/// away leaves the owner as it is.
pub(crate) fn make_like<R: Files>(file: &R::File, model: &R::File) -> io::Result<()>
where
    R::File: HostFile,
{
    let wanted = model.metadata()?;
    let mut found = file.metadata()?;
    if found.uid() != wanted.uid() || found.gid() != wanted.gid() {
        let _ = file.give_to(wanted.uid(), wanted.gid());
        // Giving a file away may change its mode.
        found = file.metadata()?;
    }
    if found.permissions() != wanted.permissions() {
        file.set_permissions(wanted.permissions())?;
    }
    Ok(())
}

impl<R: Files> AreaFile<R>
where
    R::File: HostFile,
{
    /// A file at a path, not opened yet.
    pub fn new(path: String) -> AreaFile<R> {
        AreaFile { path, file: None }
    }

    /// The open file.
    pub fn opened(&self) -> io::Result<&R::File> {
        match &self.file {
            Some(file) => Ok(file),
            None => Err(invalid()),
        }
    }

    /// Opens the file where one stands at its path, and says whether it is open.
    pub fn open_if_there(&mut self, runtime: &R) -> io::Result<bool> {
        if self.file.is_some() {
            return Ok(true);
        }
        if !has_file(runtime, self.path.as_str())? {
            return Ok(false);
        }
        self.file = Some(open_or_make(runtime, self.path.as_str())?);
        Ok(true)
    }

    /// The length of the open file.
    pub fn len(&self) -> io::Result<u64>
        ensures { IfOk result (λ n. n < 2 ^ 63) }
    {
        let length = self.opened()?.metadata()?.len();
        if length > MAX_LENGTH {
            return Err(invalid());
        }
        Ok(length)
    }

    /// Fills `out` from the open file.
    pub fn read(&self, at: u64, out: &mut [u8]) -> io::Result<()> {
        self.opened()?.fill_at(at, out)
    }

    /// Puts bytes into the open file. It doesn't grow past 2^63 - 1 bytes, nor past the limit that the
    /// process has on the size of files, at which the host would end it.
    pub fn write(&self, at: u64, bytes: &[u8]) -> io::Result<()>
        ensures { OnOk result (at + length bytes.now < 2 ^ 63) }
    {
        if bytes.len() as u64 > MAX_LENGTH || at > MAX_LENGTH - bytes.len() as u64 {
            return Err(invalid());
        }
        if !may_reach(at + bytes.len() as u64) {
            return Err(io::Error::from(ErrorKind::FileTooLarge));
        }
        self.opened()?.put_at(at, bytes)
    }

    /// Sets the length of the open file.
    pub fn cut(&self, length: u64) -> io::Result<()> {
        self.opened()?.set_len(length)
    }

    /// Syncs the open file.
    pub fn sync(&self) -> io::Result<()> {
        self.opened()?.sync_all()
    }
}
