//! A volume over files of the host: the trusted edge.

ghost use Rattle.std.specs.Prelude.{◌≡◌, [], IfOk};

use crate::area_file::HostFile;
use crate::files::AreaFiles;
use std::alloc::{AllocError, Global};
use std::rt::Files;
use zb_volume::{Area, StoreFault, Volume};

/// A volume whose areas are files of one folder: Main is PATH, Side is PATH followed by `.side`, and
/// Hint is PATH followed by `.hint`. Where PATH is a link, its file is meant, and the folder is that
/// file's. It tells nothing of them; what it takes the host to do is this.
///
/// The files of Main and Side are opened at the first call, Main ahead of Side, and that of Hint where
/// a call needs it. Each has to be a regular file or not to be there: anything else, a link in the
/// place of Side or Hint too, is a fault. Main's and Side's are made empty where they aren't there;
/// Hint's reads as empty, and is made at its first write. Then the folder is synced (`fsync`), so that
/// a crash doesn't take a new file away again. A file that is made for Side or Hint gets the owner and
/// the group of Main's, where the process may give files away, and its mode.
///
/// Each file is locked when it is opened (`flock`, exclusive, not waited for), until the volume is
/// dropped or the process ends, however it ends. Where another open of Main's file has locked it, the
/// call is a fault and nothing is done to any file. A file that takes Main's place is locked before
/// it does.
///
/// No file has a descriptor below 3 (`fcntl` with `F_DUPFD_CLOEXEC`), so that what is written to a
/// standard stream that was closed doesn't come into it.
///
/// - A read gives what was written: `pread` and `pwrite`.
/// - Between two syncs each byte of a file is after a crash as at the last one or as some write since
///   left it, or 0 past the old end, and its length is any since then: `pwrite` and `ftruncate`, of
///   which the host may have made any part in any order.
/// - After a sync a crash leaves what a read gives: `fsync` of the file. Where that answers an error,
///   the host may have forgotten what it couldn't write; so no later sync or replace is tried, and
///   each answers a fault.
/// - Replacing leaves the old Main or the whole Side: `rename` of Side's file to PATH. Once it
///   answered `Ok` it is kept: `fsync` of the folder follows. Side is empty: its file is gone, and the
///   next call makes one.
///
/// What is cut off Main before this volume wrote to it or replaced it is copied first to a new file,
/// PATH followed by `.cut-` and the place in decimal digits, and by `.1`, `.2` and so on where that is
/// taken, with Main's owner and mode. The copy and the folder are synced; where that can't be done, the
/// cut is a fault, and the copy is removed.
///
/// A write that would reach past the limit that the process has on the size of files is a fault, as
/// one past 2^63 - 1 bytes is. A read or a write of any size is one call of the host, as long as the
/// host takes it whole. Any error of the host is a fault of that call. A process that doesn't ask for
/// the lock may not touch the files.
#[derive(Drop)]
pub struct HostVolume<R: Files> {
    files: AreaFiles<R>,
    read_faults: u64,
    write_faults: u64,
}

impl<R: Files + Drop> HostVolume<R>
where
    R::File: HostFile,
{
    /// A volume over the files PATH, PATH.side and PATH.hint. Nothing is opened yet.
    pub fn new(alloc: Global, runtime: R, path: &str) -> Result<HostVolume<R>, AllocError>
        ensures read_faults { IfOk result
            (λ v. (⟦<HostVolume<R> as Volume>⟧.state v).read_faults ≡ 0) }
        ensures write_faults { IfOk result
            (λ v. (⟦<HostVolume<R> as Volume>⟧.state v).write_faults ≡ 0) }
    {
        Ok(HostVolume {
            files: AreaFiles::new(alloc, runtime, path)?,
            read_faults: 0,
            write_faults: 0,
        })
    }
}

impl<R: Files + Drop> Volume for HostVolume<R>
where
    R::File: HostFile,
{
    ghost told = { ⊥ };

    ghost state = { λ v. record {
      log = [];
      read_faults = v.read_faults;
      write_faults = v.write_faults;
    } };

    ghost called = { λ _ _ _ _. Unit {0} };

    ghost seen_is_left = { λ v a told. absurd told };

    fn len(&mut self, area: Area) -> Result<u64, StoreFault> {
        let Ok(length) = self.files.len(area) else {
            self.read_faults = self.read_faults.saturating_add(1);
            return Err(StoreFault);
        };
        Ok(length)
    }

    fn read(&mut self, area: Area, at: u64, out: &mut [u8]) -> Result<(), StoreFault> {
        if self.files.read(area, at, out).is_err() {
            self.read_faults = self.read_faults.saturating_add(1);
            return Err(StoreFault);
        }
        Ok(())
    }

    fn write_at(&mut self, area: Area, at: u64, bytes: &[u8]) -> Result<(), StoreFault> {
        if self.files.write(area, at, bytes).is_err() {
            self.write_faults = self.write_faults.saturating_add(1);
            return Err(StoreFault);
        }
        Ok(())
    }

    fn cut(&mut self, area: Area, length: u64) -> Result<(), StoreFault> {
        if self.files.cut(area, length).is_err() {
            self.write_faults = self.write_faults.saturating_add(1);
            return Err(StoreFault);
        }
        Ok(())
    }

    fn sync(&mut self, area: Area) -> Result<(), StoreFault> {
        if self.files.sync(area).is_err() {
            self.write_faults = self.write_faults.saturating_add(1);
            return Err(StoreFault);
        }
        Ok(())
    }

    fn replace(&mut self) -> Result<(), StoreFault> {
        if self.files.replace().is_err() {
            self.write_faults = self.write_faults.saturating_add(1);
            return Err(StoreFault);
        }
        Ok(())
    }
}
