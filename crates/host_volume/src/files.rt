//! The files of a volume over the host.

ghost use Rattle.std.specs.Prelude.{◌+◌, ◌<◌, ◌^◌, length, IfOk, OnOk};

use crate::area_file::{AreaFile, HostFile, has_file, invalid, make_like, open_or_make};
use crate::tail::keep_tail;
use std::alloc::{AllocError, Global};
use std::fs::OpenFile;
use std::io::ErrorKind;
use std::path::Path;
use std::rt::Files;
use std::{fs, io};
use zb_volume::Area;

/// The files of a volume. Those of Main and Side are opened at the first call, that of Hint where a
/// call needs it.
#[derive(Drop)]
pub(crate) struct AreaFiles<R: Files> {
    alloc: Global,
    runtime: R,
    folder: String,
    main: AreaFile<R>,
    side: AreaFile<R>,
    hint: AreaFile<R>,
    // A file was opened or made since the folder was synced.
    folder_pending: bool,
    // A sync answered an error.
    sync_failed: bool,
    // Main was written or replaced, so that what is cut off it is this volume's own.
    main_written: bool,
}

// The folder of a file.
fn folder_of(alloc: Global, path: &str) -> Result<String, AllocError> {
    let folder = match Path::new(path).parent() {
        Some(folder) => String::from_str(alloc, folder.to_string_lossy())?,
        None => String::new(alloc),
    };
    if folder.is_empty() {
        return String::from_str(alloc, ".");
    }
    Ok(folder)
}

// The path of the file that a path leads to, links followed. One that leads to none stays as it is.
fn without_links<R: Files>(alloc: Global, runtime: &R, path: &str) -> Result<String, AllocError> {
    match runtime.canonicalize(alloc, path) {
        Ok(found) => Ok(found.into_string()),
        Err(error) if error.kind() == ErrorKind::OutOfMemory => Err(AllocError),
        Err(_) => String::from_str(alloc, path),
    }
}

// A path with an ending.
fn with_ending(alloc: Global, path: &str, ending: &str) -> Result<String, AllocError> {
    let mut whole = String::from_str(alloc, path)?;
    whole.push_str(ending)?;
    Ok(whole)
}

impl<R: Files + Drop> AreaFiles<R>
where
    R::File: HostFile,
{
    /// The files PATH, PATH.side and PATH.hint, not opened yet. Where PATH is a link, its file is meant.
    pub fn new(alloc: Global, runtime: R, path: &str) -> Result<AreaFiles<R>, AllocError> {
        let main = without_links(alloc, &runtime, path)?;
        let side = with_ending(alloc, main.as_str(), ".side")?;
        let hint = with_ending(alloc, main.as_str(), ".hint")?;
        Ok(AreaFiles {
            alloc,
            runtime,
            folder: folder_of(alloc, main.as_str())?,
            main: AreaFile::new(main),
            side: AreaFile::new(side),
            hint: AreaFile::new(hint),
            folder_pending: false,
            sync_failed: false,
            main_written: false,
        })
    }

    fn sync_folder(&mut self) -> io::Result<()> {
        let folder = fs::open(&self.runtime, self.folder.as_str())?;
        let synced = folder.sync_all();
        self.sync_failed = self.sync_failed || synced.is_err();
        synced
    }

    // Opens Main's file. Where something else than a file stands in Side's place, it isn't made either.
    fn open_main(&mut self) -> io::Result<()> {
        if self.main.file.is_some() {
            return Ok(());
        }
        has_file(&self.runtime, self.side.path.as_str())?;
        self.main.file = Some(open_or_make(&self.runtime, self.main.path.as_str())?);
        self.folder_pending = true;
        Ok(())
    }

    // Opens Side's file, once Main's is locked, and makes it like Main's, whose place it is to take: so
    // it is locked too.
    fn open_side(&mut self) -> io::Result<()> {
        if self.side.file.is_some() {
            return Ok(());
        }
        let file = open_or_make(&self.runtime, self.side.path.as_str())?;
        make_like::<R>(&file, self.main.opened()?)?;
        self.side.file = Some(file);
        self.folder_pending = true;
        Ok(())
    }

    // Syncs the folder where a file may just have been made, or put in Main's place by a process that
    // was stopped ahead of its sync.
    fn settle_folder(&mut self) -> io::Result<()> {
        if self.folder_pending {
            self.sync_folder()?;
            self.folder_pending = false;
        }
        Ok(())
    }

    fn open(&mut self) -> io::Result<()> {
        self.open_main()?;
        self.open_side()?;
        self.settle_folder()
    }

    // Opens Hint's file, or makes it like Main's.
    fn open_hint(&mut self) -> io::Result<()> {
        if self.hint.open_if_there(&self.runtime)? {
            return Ok(());
        }
        let file = open_or_make(&self.runtime, self.hint.path.as_str())?;
        make_like::<R>(&file, self.main.opened()?)?;
        self.hint.file = Some(file);
        self.folder_pending = true;
        self.settle_folder()
    }

    /// The length of an area's file. That of Hint is 0 where it isn't there.
    pub fn len(&mut self, area: Area) -> io::Result<u64>
        ensures { IfOk result (λ n. n < 2 ^ 63) }
    {
        self.open()?;
        match area {
            Area::Main => self.main.len(),
            Area::Side => self.side.len(),
            Area::Hint => {
                if !self.hint.open_if_there(&self.runtime)? {
                    return Ok(0);
                }
                self.hint.len()
            }
        }
    }

    /// Fills `out` from a file.
    pub fn read(&mut self, area: Area, at: u64, out: &mut [u8]) -> io::Result<()> {
        self.open()?;
        match area {
            Area::Main => self.main.read(at, out),
            Area::Side => self.side.read(at, out),
            Area::Hint => {
                if !self.hint.open_if_there(&self.runtime)? && at == 0 && out.is_empty() {
                    return Ok(());
                }
                self.hint.read(at, out)
            }
        }
    }

    /// Writes bytes into a file. No file grows past 2^63 - 1 bytes.
    pub fn write(&mut self, area: Area, at: u64, bytes: &[u8]) -> io::Result<()>
        ensures { OnOk result (at + length bytes.now < 2 ^ 63) }
    {
        self.open()?;
        match area {
            Area::Main => {
                self.main_written = true;
                self.main.write(at, bytes)
            }
            Area::Side => self.side.write(at, bytes),
            Area::Hint => {
                self.open_hint()?;
                self.hint.write(at, bytes)
            }
        }
    }

    // Keeps what stands in Main from a place on, if anything does, in a file beside it.
    fn keep_from(&mut self, place: u64) -> io::Result<()> {
        let end = self.main.len()?;
        if place >= end {
            return Ok(());
        }
        keep_tail(self.alloc, &self.runtime, &self.main, place, end)?;
        self.sync_folder()
    }

    // Cuts Main. What this volume has not written is kept first.
    fn cut_main(&mut self, length: u64) -> io::Result<()> {
        if !self.main_written {
            self.keep_from(length)?;
        }
        self.main.cut(length)
    }

    /// Sets the length of a file. Bytes of Main that were there before this volume wrote to it are kept
    /// in a file beside it, named after their place; where they can't be, nothing is cut.
    pub fn cut(&mut self, area: Area, length: u64) -> io::Result<()> {
        self.open()?;
        match area {
            Area::Main => self.cut_main(length),
            Area::Side => self.side.cut(length),
            Area::Hint => {
                if !self.hint.open_if_there(&self.runtime)? && length == 0 {
                    return Ok(());
                }
                self.hint.cut(length)
            }
        }
    }

    fn sync_open(&mut self, area: Area) -> io::Result<()> {
        match area {
            Area::Main => self.main.sync(),
            Area::Side => self.side.sync(),
            Area::Hint => {
                if !self.hint.open_if_there(&self.runtime)? {
                    return Ok(());
                }
                self.hint.sync()
            }
        }
    }

    /// Syncs a file, unless a sync has failed before.
    pub fn sync(&mut self, area: Area) -> io::Result<()> {
        self.open()?;
        if self.sync_failed {
            return Err(invalid());
        }
        let synced = self.sync_open(area);
        self.sync_failed = synced.is_err();
        synced
    }

    /// Renames Side's file to PATH and syncs the folder, unless a sync has failed before. Side's new
    /// file is made at the next call.
    pub fn replace(&mut self) -> io::Result<()> {
        self.open()?;
        if self.sync_failed {
            return Err(invalid());
        }
        self.main_written = true;
        fs::rename(
            &self.runtime,
            self.side.path.as_str(),
            self.main.path.as_str(),
        )?;
        self.main.file = self.side.file.take();
        self.sync_folder()
    }
}
