//! A volume over real files, and the calls of the host that it makes.
use crate::recorder::HostCall::{
    Duplicate, Length, Lock, ReadAt, Rename, SetLength, SyncFile, SyncFolder, WriteAt,
};
use crate::recorder::{HostCall, Log, Recorder};
use crate::steps::{Step, content, make, remove_files};
use host_volume::HostVolume;
use std::fs::{File, Permissions};
use std::os::unix::fs::{MetadataExt, PermissionsExt, symlink};
use std::process::Abort;
use std::rt::Files;
use std::test::Fail;
use std::{fs, io};
use zb_volume::{Area, StoreFault, Volume, sync_and_replace};

const MAIN: Area = Area::Main;

const SIDE: Area = Area::Side;

/// A call, and the bytes of the files PATH and PATH.side after it.
const CONTENTS: &[(Step<'static>, &[u8], &[u8])] = &[
    (Step::Length(MAIN), b"", b""),
    (Step::Write(MAIN, 0, b"abcdef"), b"abcdef", b""),
    (Step::Write(MAIN, 4, b"XYZ"), b"abcdXYZ", b""),
    (Step::Sync(MAIN), b"abcdXYZ", b""),
    (Step::Cut(MAIN, 5), b"abcdX", b""),
    (Step::Write(SIDE, 0, b"new"), b"abcdX", b"new"),
    (Step::Sync(SIDE), b"abcdX", b"new"),
    (Step::Replace, b"new", b""),
    (Step::Write(MAIN, 0, b"N"), b"New", b""),
];

fn bytes_of(rt: &(impl Files + AllocGlobal), path: &str) -> Result<Vec<u8>, Fail> {
    if fs::exists(rt, path)? {
        return Ok(fs::read(rt, path)?);
    }
    Ok(Vec::new(rt.alloc()))
}

#[test]
fn files_hold_the_areas(rt: HostRuntime) -> Result<(), Fail> {
    let alloc = rt.alloc();
    remove_files(&rt, ["volume.fs", "volume.fs.side"]);
    let mut volume = HostVolume::new(alloc, &rt, "volume.fs")?;
    assert!(rt; !fs::exists(&rt, "volume.fs")?);
    for (row, (step, main, side)) in CONTENTS.iter().enumerate() {
        assert!(rt; make(alloc, &mut volume, *step)?, "row {row}");
        assert_eq!(rt; bytes_of(&rt, "volume.fs")?.as_slice(), *main, "row {row}");
        assert_eq!(rt;
            bytes_of(&rt, "volume.fs.side")?.as_slice(),
            *side,
            "row {row}"
        );
    }
    drop(volume);
    let mut volume = HostVolume::new(alloc, &rt, "volume.fs")?;
    assert_eq!(rt;
        content(alloc, &mut volume, MAIN)?.as_slice(),
        b"New".as_slice()
    );
    assert_eq!(rt;
        content(alloc, &mut volume, SIDE)?.as_slice(),
        b"".as_slice()
    );
    let mut missing = HostVolume::new(alloc, &rt, "missing/volume.fs")?;
    assert!(rt; missing.len(MAIN).is_err());
    remove_files(&rt, ["volume.fs", "volume.fs.side"]);
    Ok(())
}

/// A call, whether it is done, and the calls of the host that it makes: those of opening first, where
/// Length stands for what is asked of a file beside its length too.
type CallRow = (Step<'static>, bool, &'static [HostCall]);

const CALLS: &[CallRow] = &[
    (
        Step::Length(MAIN),
        true,
        &[
            Duplicate, Lock, Length, Duplicate, Lock, Length, Length, Length, SyncFolder, Length,
        ],
    ),
    (Step::Write(MAIN, 0, &[7; 9000]), true, &[Length, WriteAt]),
    (Step::Read(MAIN, 0, 9000), true, &[Length, ReadAt]),
    (Step::Cut(MAIN, 10), true, &[Length, SetLength]),
    (Step::Sync(MAIN), true, &[SyncFile]),
    (Step::Replace, true, &[Rename, SyncFolder]),
    (
        Step::Length(SIDE),
        true,
        &[Duplicate, Lock, Length, Length, Length, SyncFolder, Length],
    ),
];

const CALLS_WHILE_SYNCS_FAIL: &[CallRow] = &[
    (Step::Sync(MAIN), false, &[]),
    (Step::Length(MAIN), true, &[Length]),
];

const CALLS_AFTER_A_FAILED_SYNC: &[CallRow] = &[
    (Step::Sync(MAIN), false, &[]),
    (Step::Sync(SIDE), false, &[]),
    (Step::Replace, false, &[]),
    (Step::Length(MAIN), true, &[Length]),
];

fn check_calls<V: Volume>(
    rt: &(impl Abort + AllocGlobal),
    volume: &mut V,
    log: &Log,
    rows: &[CallRow],
) -> Result<(), Fail> {
    for (row, (step, done, calls)) in rows.iter().enumerate() {
        assert_eq!(rt; make(rt.alloc(), volume, *step)?, *done, "row {row}");
        assert!(rt; log.has(calls)?, "row {row}");
    }
    Ok(())
}

#[test]
fn each_call_makes_its_calls_of_the_host(rt: HostRuntime) -> Result<(), Fail> {
    let alloc = rt.alloc();
    remove_files(&rt, ["calls.fs", "calls.fs.side"]);
    let log = Log::new(alloc);
    let recorder = Recorder {
        runtime: &rt,
        log: &log,
    };
    let mut volume = HostVolume::new(alloc, recorder, "calls.fs")?;
    check_calls(&rt, &mut volume, &log, CALLS)?;
    log.fail_syncs(true);
    check_calls(&rt, &mut volume, &log, CALLS_WHILE_SYNCS_FAIL)?;
    log.fail_syncs(false);
    check_calls(&rt, &mut volume, &log, CALLS_AFTER_A_FAILED_SYNC)?;
    remove_files(&rt, ["calls.fs", "calls.fs.side"]);
    Ok(())
}

/// Opens a file to read and write it, as another process might.
fn open_beside(rt: &impl Files<File = File>, path: &str) -> io::Result<File> {
    File::options().read(true).write(true).open(rt, path)
}

/// Puts three bytes into Side, and has Side take Main's place.
fn replace_by_new<V: Volume>(volume: &mut V) -> Result<(), StoreFault> {
    volume.write_at(SIDE, 0, b"new")?;
    sync_and_replace(volume)
}

#[test]
fn file_that_is_locked_is_left(rt: HostRuntime) -> Result<(), Fail> {
    let alloc = rt.alloc();
    remove_files(&rt, ["locked.fs", "locked.fs.side"]);
    fs::write(&rt, "locked.fs", b"abc".as_slice())?;
    let beside = open_beside(&rt, "locked.fs")?;
    beside.try_lock()?;
    let mut volume = HostVolume::new(alloc, &rt, "locked.fs")?;
    assert!(rt; volume.len(MAIN).is_err());
    assert!(rt; volume.cut(MAIN, 0).is_err());
    assert!(rt; volume.replace().is_err());
    assert!(rt; !fs::exists(&rt, "locked.fs.side")?);
    assert_eq!(rt; bytes_of(&rt, "locked.fs")?.as_slice(), b"abc".as_slice());
    drop(beside);
    assert_eq!(rt; volume.len(MAIN), Ok(3));
    assert!(rt; open_beside(&rt, "locked.fs")?.try_lock().is_err());
    assert!(rt; open_beside(&rt, "locked.fs.side")?.try_lock().is_err());
    replace_by_new(&mut volume)?;
    let mut second = HostVolume::new(alloc, &rt, "locked.fs")?;
    assert!(rt; second.len(MAIN).is_err());
    drop(volume);
    assert_eq!(rt; second.len(MAIN), Ok(3));
    remove_files(&rt, ["locked.fs", "locked.fs.side"]);
    Ok(())
}

#[test]
fn link_is_followed_to_its_file(rt: HostRuntime) -> Result<(), Fail> {
    let alloc = rt.alloc();
    remove_files(&rt, ["link.fs", "linked.fs"]);
    fs::write(&rt, "linked.fs", b"old".as_slice())?;
    symlink(&rt, "linked.fs", "link.fs")?;
    let mut volume = HostVolume::new(alloc, &rt, "link.fs")?;
    replace_by_new(&mut volume)?;
    drop(volume);
    assert!(rt; fs::symlink_metadata(&rt, "link.fs")?.is_symlink());
    assert!(rt; fs::symlink_metadata(&rt, "linked.fs")?.is_file());
    assert_eq!(rt; bytes_of(&rt, "linked.fs")?.as_slice(), b"new".as_slice());
    remove_files(&rt, ["link.fs", "linked.fs"]);
    Ok(())
}

#[test]
fn what_is_no_file_is_left(rt: HostRuntime) -> Result<(), Fail> {
    let alloc = rt.alloc();
    remove_files(&rt, ["dangling.fs", "beside.fs.side"]);
    symlink(&rt, "nowhere", "dangling.fs")?;
    for path in [".", "/dev/null", "dangling.fs"] {
        let mut volume = HostVolume::new(alloc, &rt, path)?;
        assert!(rt; volume.len(MAIN).is_err(), "{path}");
        assert!(rt; volume.replace().is_err(), "{path}");
    }
    assert!(rt; fs::symlink_metadata(&rt, "dangling.fs")?.is_symlink());
    assert!(rt; !fs::exists(&rt, "nowhere")?);
    fs::write(&rt, "target", b"abc".as_slice())?;
    symlink(&rt, "target", "beside.fs.side")?;
    let mut volume = HostVolume::new(alloc, &rt, "beside.fs")?;
    assert!(rt; volume.cut(SIDE, 0).is_err());
    assert!(rt; volume.replace().is_err());
    assert!(rt; !fs::exists(&rt, "beside.fs")?);
    assert_eq!(rt; bytes_of(&rt, "target")?.as_slice(), b"abc".as_slice());
    remove_files(&rt, ["dangling.fs", "beside.fs.side"]);
    fs::remove_file(&rt, "target")?;
    Ok(())
}

#[test]
fn new_file_takes_over_the_mode(rt: HostRuntime) -> Result<(), Fail> {
    let alloc = rt.alloc();
    remove_files(&rt, ["mode.fs", "mode.fs.side"]);
    fs::write(&rt, "mode.fs", b"old".as_slice())?;
    fs::set_permissions(&rt, "mode.fs", Permissions::from_mode(0o640))?;
    let mut volume = HostVolume::new(alloc, &rt, "mode.fs")?;
    volume.write_at(SIDE, 0, b"new")?;
    assert_eq!(rt; fs::metadata(&rt, "mode.fs.side")?.mode() & 0o777, 0o640);
    volume.sync(SIDE)?;
    volume.replace()?;
    drop(volume);
    assert_eq!(rt; bytes_of(&rt, "mode.fs")?.as_slice(), b"new".as_slice());
    assert_eq!(rt; fs::metadata(&rt, "mode.fs")?.mode() & 0o777, 0o640);
    remove_files(&rt, ["mode.fs", "mode.fs.side"]);
    Ok(())
}
