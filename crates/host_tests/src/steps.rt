//! Calls of a volume as data, and what it reads.
use std::alloc::Global;
use std::fs;
use std::rt::Files;
use std::test::Fail;
use zb_volume::{Area, Volume};

/// A call of a volume.
#[derive(Clone, Copy)]
pub enum Step<'a> {
    Length(Area),
    Read(Area, u64, usize),
    Write(Area, u64, &'a [u8]),
    Cut(Area, u64),
    Sync(Area),
    Replace,
}

fn read<V: Volume>(
    alloc: Global,
    volume: &mut V,
    area: Area,
    at: u64,
    count: usize,
) -> Result<bool, Fail> {
    let length = volume.len(area)?;
    if at > length || count as u64 > length - at {
        return Err(Fail::new("a read past the end"));
    }
    let mut out = vec![in alloc; 0; count]?;
    Ok(volume.read(area, at, &mut out).is_ok())
}

fn write<V: Volume>(volume: &mut V, area: Area, at: u64, bytes: &[u8]) -> Result<bool, Fail> {
    let length = volume.len(area)?;
    if at > length {
        return Err(Fail::new("a write past the end"));
    }
    Ok(volume.write_at(area, at, bytes).is_ok())
}

fn cut<V: Volume>(volume: &mut V, area: Area, to: u64) -> Result<bool, Fail> {
    let length = volume.len(area)?;
    if to > length {
        return Err(Fail::new("a cut past the end"));
    }
    Ok(volume.cut(area, to).is_ok())
}

/// Makes a call, and before a read, a write or a cut one of `len`. Answers whether the call was done.
pub fn make<V: Volume>(alloc: Global, volume: &mut V, step: Step<'_>) -> Result<bool, Fail> {
    match step {
        Step::Length(area) => Ok(volume.len(area).is_ok()),
        Step::Read(area, at, count) => read(alloc, volume, area, at, count),
        Step::Write(area, at, bytes) => write(volume, area, at, bytes),
        Step::Cut(area, to) => cut(volume, area, to),
        Step::Sync(area) => Ok(volume.sync(area).is_ok()),
        Step::Replace => Ok(volume.replace().is_ok()),
    }
}

/// Takes away the files of a volume, where an earlier run has left them.
pub fn remove_files(files: &impl Files, paths: [&str; 2]) {
    let _ = fs::remove_file(files, paths[0]);
    let _ = fs::remove_file(files, paths[1]);
}

/// What a read gives of a whole area.
pub fn content<V: Volume>(alloc: Global, volume: &mut V, area: Area) -> Result<Vec<u8>, Fail> {
    let length = volume.len(area)?;
    let mut bytes = vec![in alloc; 0; length as usize]?;
    volume.read(area, 0, &mut bytes)?;
    Ok(bytes)
}
