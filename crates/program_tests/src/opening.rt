//! Runs of the program over a volume that counts what is read.

use crate::counted::CountedVolume;
use script_runs::Status;
use std::alloc::{AllocError, Global};
use std::sync::Wait;
use std::test::Fail;
use std::thread::Threads;
use zb_ids::Stamp;
use zb_links::{CountedSpawner, MemoryDoors};
use zb_outside::{ListClock, MemorySink, MemorySource};
use zb_volume::{Area, Volume};
use zodb_top::zodb_main;

/// What the program wrote, and the volume behind it.
#[derive(Drop)]
pub struct Ending {
    pub written: Vec<u8>,
    pub volume: CountedVolume,
}

/// Runs a command over a volume with a script.
pub fn ran<R: Threads + Wait + Sync>(
    rt: &R,
    alloc: Global,
    words: &[&str],
    script: &[u8],
    volume: CountedVolume,
) -> Result<Ending, Fail> {
    let mut all = Vec::new(alloc);
    all.push(String::from_str(alloc, "data.fs")?)?;
    for word in words {
        all.push(String::from_str(alloc, word)?)?;
    }
    let mut source = MemorySource::new(Vec::from_slice(alloc, script)?, Vec::new(alloc));
    let mut sink = MemorySink::new(alloc, Vec::new(alloc));
    let mut clock = ListClock::new(Stamp::new(2024, 1, 1, 0, 0, 0)?, Vec::new(alloc));
    let mut doors: MemoryDoors<MemorySink> = MemoryDoors::new(Vec::new(alloc), Vec::new(alloc));
    let mut spawner = CountedSpawner::new(Vec::new(alloc));
    let (status, volume) = zodb_main(
        rt,
        alloc,
        all.as_slice(),
        &mut source,
        &mut sink,
        volume,
        &mut clock,
        &mut doors,
        &mut spawner,
    );
    if status != Status::Done {
        return Err(Fail::new("the program ended otherwise"));
    }
    Ok(Ending {
        written: Vec::from_slice(alloc, sink.bytes())?,
        volume,
    })
}

/// The bytes of an area.
fn bytes_of(alloc: Global, volume: &mut CountedVolume, area: Area) -> Result<Vec<u8>, Fail> {
    let Ok(length) = volume.len(area) else {
        return Err(Fail::new("the length can't be read"));
    };
    let mut bytes = vec![in alloc; 0u8; length as usize]?;
    match volume.read(area, 0, bytes.as_mut_slice()) {
        Ok(()) => Ok(bytes),
        Err(_) => Err(Fail::new("the bytes can't be read")),
    }
}

/// A volume with these bytes in Main and in Hint, of which nothing was read yet.
pub fn volume_with(alloc: Global, main: &[u8], hint: &[u8]) -> Result<CountedVolume, Fail> {
    let mut volume = CountedVolume::new(alloc);
    if volume.write_at(Area::Main, 0, main).is_err()
        || volume.write_at(Area::Hint, 0, hint).is_err()
    {
        return Err(Fail::new("the bytes can't be put"));
    }
    Ok(volume)
}

/// The file of a database in which one object was stored after it was made.
fn first_commit<R: Threads + Wait + Sync>(rt: &R, alloc: Global) -> Result<Vec<u8>, Fail> {
    let script = b"a open local
a begin
a new
a store 0000000000000001 0000000000000000 616263
a vote \"\" \"\"
a finish
";
    let empty = volume_with(alloc, b"", b"")?;
    let mut made = ran(rt, alloc, &["run"], script, empty)?;
    bytes_of(alloc, &mut made.volume, Area::Main)
}

/// The index file of that file, by its format: the gate, the end, two counts, two transactions and two
/// records.
const HINT: [u8; 107] = [
    0x01, 0x00, 0x00, 0x00, 0x00, 0x00, 0x00, 0x00, 0xea, 0x00, 0x00, 0x00, 0x00, 0x00, 0x00, 0x00,
    0x02, 0x00, 0x00, 0x00, 0x00, 0x00, 0x00, 0x00, 0x02, 0x03, 0xf5, 0x8e, 0x00, 0x00, 0x00, 0x00,
    0x00, 0x00, 0x00, 0x00, 0x00, 0x00, 0x00, 0x00, 0x04, 0x20, 0x03, 0xf5, 0x8e, 0x00, 0x00, 0x00,
    0x00, 0x01, 0x00, 0x00, 0x00, 0x00, 0x00, 0x00, 0x00, 0x9e, 0x20, 0x00, 0x00, 0x00, 0x00, 0x00,
    0x00, 0x00, 0x00, 0x03, 0xf5, 0x8e, 0x00, 0x00, 0x00, 0x00, 0x00, 0x00, 0x00, 0x00, 0x00, 0x00,
    0x00, 0x00, 0x34, 0x00, 0x00, 0x00, 0x00, 0x00, 0x00, 0x00, 0x01, 0x03, 0xf5, 0x8e, 0x00, 0x00,
    0x00, 0x00, 0x01, 0x00, 0x00, 0x00, 0x00, 0x00, 0x00, 0x00, 0xb5,
];

const INDEXED: &[u8] = b"indexed 234\n";

const LIST: &[u8] = b"03f58e0000000001 \"\" \"\"
03f58e0000000000 \"\" \"initial database creation\"
";

#[test]
fn index_is_written_by_its_format(rt: HostRuntime) -> Result<(), Fail> {
    let alloc: Global = rt.alloc();
    let file = first_commit(&rt, alloc)?;
    let mut made = ran(
        &rt,
        alloc,
        &["index"],
        b"",
        volume_with(alloc, file.as_slice(), b"")?,
    )?;
    assert!(rt; made.written.as_slice() == INDEXED);
    let hint = bytes_of(alloc, &mut made.volume, Area::Hint)?;
    assert!(rt; hint.as_slice() == HINT.as_slice());
    Ok(())
}

#[test]
fn list_is_the_same_with_an_index(rt: HostRuntime) -> Result<(), Fail> {
    let alloc: Global = rt.alloc();
    let file = first_commit(&rt, alloc)?;
    let mut closed = HINT;
    closed[0] = 0;
    for hint in [HINT.as_slice(), closed.as_slice(), &HINT[..106], &HINT[..0]] {
        let volume = volume_with(alloc, file.as_slice(), hint)?;
        let listed = ran(&rt, alloc, &["undolog"], b"", volume)?;
        assert!(rt; listed.written.as_slice() == LIST);
    }
    Ok(())
}

/// A script of so many commits of an object of 500 bytes each.
fn commits(alloc: Global, count: u64) -> Result<Vec<u8>, AllocError> {
    let mut script = Vec::from_slice(alloc, b"a open local\n")?;
    for number in 1..count.saturating_add(1) {
        let line = format!(in alloc; "a begin\na store {number:016x} 0000000000000000 ")?;
        script.extend_from_slice(line.as_bytes())?;
        for _ in 0..500 {
            script.extend_from_slice(b"61")?;
        }
        script.extend_from_slice(b"\na vote \"\" \"\"\na finish\n")?;
    }
    Ok(script)
}

#[test]
fn indexed_file_is_not_scanned(rt: HostRuntime) -> Result<(), Fail> {
    let alloc: Global = rt.alloc();
    let script = commits(alloc, 1000)?;
    let empty = volume_with(alloc, b"", b"")?;
    let mut made = ran(&rt, alloc, &["run"], script.as_slice(), empty)?;
    let file = bytes_of(alloc, &mut made.volume, Area::Main)?;
    // 1,000 records of 500 bytes, and their headers
    assert!(rt; file.len() > 500_000);
    let asked = ["show", "0000000000000007"];
    let plain = volume_with(alloc, file.as_slice(), b"")?;
    let scanned = ran(&rt, alloc, &asked, b"", plain)?;
    assert!(rt; scanned.volume.read_of_main() >= file.len() as u64);
    let again = volume_with(alloc, file.as_slice(), b"")?;
    let mut indexed = ran(&rt, alloc, &["index"], b"", again)?;
    let hint = bytes_of(alloc, &mut indexed.volume, Area::Hint)?;
    let opened = volume_with(alloc, file.as_slice(), hint.as_slice())?;
    let asked_again = ran(&rt, alloc, &asked, b"", opened)?;
    assert!(rt; asked_again.written == scanned.written);
    // a piece where the file begins, one behind the end of the index file, and the record
    assert!(rt; asked_again.volume.read_of_main() < 100_000);
    Ok(())
}
