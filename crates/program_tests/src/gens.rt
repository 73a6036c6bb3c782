//! The command `gen`: its script is the same each time, and the tree that it leaves is sound.

use crate::counted::CountedVolume;
use crate::opening::{ran, volume_with};
use std::alloc::Global;
use std::test::Fail;

/// What is written of a script of one round, over a new database.
const ONE: &[u8] = b"gen 1 committed 3 conflicts 0 refused 2 transactions 4 objects 2\n";

#[test]
fn made_script_of_one_round(rt: HostRuntime) -> Result<(), Fail> {
    let alloc: Global = rt.alloc();
    let made = ran(
        &rt,
        alloc,
        &["gen", "1"],
        b"",
        volume_with(alloc, b"", b"")?,
    )?;
    assert!(rt; made.written.as_slice() == ONE);
    Ok(())
}

#[test]
fn made_script_is_the_same_each_time(rt: HostRuntime) -> Result<(), Fail> {
    let alloc: Global = rt.alloc();
    let once = ran(
        &rt,
        alloc,
        &["gen", "400"],
        b"",
        volume_with(alloc, b"", b"")?,
    )?;
    let twice = ran(
        &rt,
        alloc,
        &["gen", "400"],
        b"",
        volume_with(alloc, b"", b"")?,
    )?;
    assert!(rt; once.written.starts_with(b"gen 400 committed "));
    assert!(rt; once.written == twice.written);
    Ok(())
}

#[test]
fn tree_of_a_made_script_is_sound(rt: HostRuntime) -> Result<(), Fail> {
    let alloc: Global = rt.alloc();
    let made = ran(
        &rt,
        alloc,
        &["gen", "200"],
        b"",
        volume_with(alloc, b"", b"")?,
    )?;
    let checked = ran(&rt, alloc, &["check", "0000000000000001"], b"", made.volume)?;
    assert!(rt; checked.written.starts_with(b"sound "));
    Ok(())
}
