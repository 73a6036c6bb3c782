//! The host's files, with a log of the calls that matter for what a crash leaves.
use host_volume::HostFile;
use std::alloc::{Allocator, Global};
use std::cell::{Cell, RefCell};
use std::fs::{File, Metadata, OpenFile, OpenOptions, Permissions};
use std::io::{Read, Seek, SeekFrom, Write};
use std::rt::Files;
use std::test::Fail;
use std::{fs, io};

/// A call of the host on a file or a folder.
#[derive(Clone, Copy, PartialEq, Eq)]
pub enum HostCall {
    Seek,
    Read,
    Write,
    ReadAt,
    WriteAt,
    SetLength,
    Length,
    Duplicate,
    Lock,
    SetMode,
    SetOwner,
    SyncFile,
    SyncFolder,
    Rename,
}

/// The calls that were made since it was last asked for them, and whether syncs are to fail.
#[derive(Drop)]
pub struct Log {
    calls: RefCell<Vec<HostCall>>,
    syncs_fail: Cell<bool>,
}

impl Log {
    /// No calls, and syncs that don't fail.
    pub fn new(alloc: Global) -> Log {
        Log {
            calls: RefCell::new(Vec::new(alloc)),
            syncs_fail: Cell::new(false),
        }
    }

    /// Has syncs fail from here on, or not.
    pub fn fail_syncs(&self, fail: bool) {
        self.syncs_fail.set(fail);
    }

    fn add(&self, call: HostCall) -> io::Result<()> {
        if let Ok(mut calls) = self.calls.try_borrow_mut() {
            calls.push(call)?;
        }
        Ok(())
    }

    /// Whether these calls and no others were made since the last time.
    pub fn has(&self, want: &[HostCall]) -> Result<bool, Fail> {
        let mut calls = self.calls.try_borrow_mut()?;
        let same = calls.as_slice() == want;
        calls.clear();
        Ok(same)
    }
}

/// A file or a folder of the host whose calls are logged.
#[derive(Drop)]
pub struct Recorded<'a> {
    file: File,
    is_folder: bool,
    log: &'a Log,
}

impl<'a> Read for Recorded<'a> {
    fn read(&mut self, buf: &mut [u8]) -> io::Result<usize> {
        self.log.add(HostCall::Read)?;
        self.file.read(buf)
    }
}

impl<'a> Write for Recorded<'a> {
    fn write(&mut self, buf: &[u8]) -> io::Result<usize> {
        self.log.add(HostCall::Write)?;
        self.file.write(buf)
    }

    fn flush(&mut self) -> io::Result<()> {
        self.file.flush()
    }
}

impl<'a> Seek for Recorded<'a> {
    fn seek(&mut self, to: SeekFrom) -> io::Result<u64> {
        self.log.add(HostCall::Seek)?;
        self.file.seek(to)
    }
}

impl<'a> OpenFile for Recorded<'a> {
    fn metadata(&self) -> io::Result<Metadata> {
        self.log.add(HostCall::Length)?;
        self.file.metadata()
    }

    fn set_len(&self, size: u64) -> io::Result<()> {
        self.log.add(HostCall::SetLength)?;
        self.file.set_len(size)
    }

    fn sync_all(&self) -> io::Result<()> {
        if self.log.syncs_fail.get() {
            return Err(io::Error::from(io::ErrorKind::Other));
        }
        if self.is_folder {
            self.log.add(HostCall::SyncFolder)?;
        } else {
            self.log.add(HostCall::SyncFile)?;
        }
        self.file.sync_all()
    }

    fn sync_data(&self) -> io::Result<()> {
        self.file.sync_data()
    }

    fn set_permissions(&self, permissions: Permissions) -> io::Result<()> {
        self.log.add(HostCall::SetMode)?;
        self.file.set_permissions(permissions)
    }

    fn try_clone(&self) -> io::Result<Recorded<'a>> {
        self.log.add(HostCall::Duplicate)?;
        Ok(Recorded {
            file: self.file.try_clone()?,
            is_folder: self.is_folder,
            log: self.log,
        })
    }
}

impl<'a> HostFile for Recorded<'a> {
    fn lock_alone(&self) -> io::Result<()> {
        self.log.add(HostCall::Lock)?;
        self.file.lock_alone()
    }

    fn fill_at(&self, at: u64, out: &mut [u8]) -> io::Result<()> {
        self.log.add(HostCall::ReadAt)?;
        self.file.fill_at(at, out)
    }

    fn put_at(&self, at: u64, bytes: &[u8]) -> io::Result<()> {
        self.log.add(HostCall::WriteAt)?;
        self.file.put_at(at, bytes)
    }

    fn give_to(&self, owner: u32, group: u32) -> io::Result<()> {
        self.log.add(HostCall::SetOwner)?;
        self.file.give_to(owner, group)
    }
}

/// The host's files, whose calls are logged.
#[derive(Drop)]
pub struct Recorder<'a> {
    pub runtime: &'a HostRuntime,
    pub log: &'a Log,
}

impl<'a> Files for Recorder<'a> {
    type File = Recorded<'a>;

    type Dir = <HostRuntime as Files>::Dir;

    fn open_file(&self, how: &OpenOptions, path: &str) -> io::Result<Recorded<'a>> {
        let file = self.runtime.open_file(how, path)?;
        let is_folder = file.metadata()?.is_dir();
        Ok(Recorded {
            file,
            is_folder,
            log: self.log,
        })
    }

    fn open_dir(&self, path: &str) -> io::Result<<HostRuntime as Files>::Dir> {
        self.runtime.open_dir(path)
    }

    fn metadata(&self, path: &str) -> io::Result<Metadata> {
        fs::metadata(self.runtime, path)
    }

    fn symlink_metadata(&self, path: &str) -> io::Result<Metadata> {
        fs::symlink_metadata(self.runtime, path)
    }

    fn copy(&self, from: &str, to: &str) -> io::Result<u64> {
        fs::copy(self.runtime, from, to)
    }

    fn rename(&self, from: &str, to: &str) -> io::Result<()> {
        self.log.add(HostCall::Rename)?;
        fs::rename(self.runtime, from, to)
    }

    fn remove_file(&self, path: &str) -> io::Result<()> {
        fs::remove_file(self.runtime, path)
    }

    fn create_dir(&self, path: &str) -> io::Result<()> {
        fs::create_dir(self.runtime, path)
    }

    fn remove_dir(&self, path: &str) -> io::Result<()> {
        fs::remove_dir(self.runtime, path)
    }

    fn remove_dir_all<B: Allocator>(&self, alloc: B, path: &str) -> io::Result<()> {
        self.runtime.remove_dir_all(alloc, path)
    }
}
