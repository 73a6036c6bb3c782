//! The calls of a volume in memory: steps, and what a read gives and a crash may leave.

use row_cases::{Row, RowError, bytes_of, number, push_bytes, trimmed};
use std::alloc::Global;
use std::fmt::Write;
use zb_volume::{Area, MemoryVolume, Volume};

fn area_of(word: Option<&str>) -> Result<Area, RowError> {
    match word {
        Some("main") => Ok(Area::Main),
        Some("side") => Ok(Area::Side),
        Some("hint") => Ok(Area::Hint),
        _ => Err(RowError::Value),
    }
}

fn number_of(word: Option<&str>) -> Result<u64, RowError> {
    number(word.unwrap_or(""))
}

/// Writes at a place that is not behind the end, for which the length is asked first.
fn write_at(volume: &mut MemoryVolume, area: Area, at: u64, bytes: &[u8]) -> Result<(), RowError> {
    let Ok(length) = volume.len(area) else {
        return Ok(());
    };
    if at > length {
        return Err(RowError::Value);
    }
    let _ = volume.write_at(area, at, bytes);
    Ok(())
}

/// Cuts to a length that is not behind the end, for which the length is asked first.
fn cut(volume: &mut MemoryVolume, area: Area, to: u64) -> Result<(), RowError> {
    let Ok(length) = volume.len(area) else {
        return Ok(());
    };
    if to > length {
        return Err(RowError::Value);
    }
    let _ = volume.cut(area, to);
    Ok(())
}

/// Makes the call of a step, which may fail: `write AREA AT HEX`, `cut AREA TO`, `sync AREA` or
/// `replace`.
fn take(alloc: Global, volume: &mut MemoryVolume, step: &str) -> Result<(), RowError> {
    let mut words = step.split(' ');
    let call = words.next().unwrap_or("");
    if call == "replace" {
        let _ = volume.replace();
        return Ok(());
    }
    let area = area_of(words.next())?;
    match call {
        "sync" => {
            let _ = volume.sync(area);
            Ok(())
        }
        "cut" => cut(volume, area, number_of(words.next())?),
        "write" => {
            let at = number_of(words.next())?;
            let bytes = bytes_of(alloc, words.next().unwrap_or(""))?;
            write_at(volume, area, at, bytes.as_slice())
        }
        _ => Err(RowError::Value),
    }
}

/// A volume whose call of the number in the first field fails, behind the steps of the fields from
/// one on.
fn volume_of(alloc: Global, row: &Row, from: usize) -> Result<MemoryVolume, RowError> {
    let mut failing = Vec::new(alloc);
    failing.push(row.number(0)?)?;
    let mut volume = MemoryVolume::new(alloc, failing);
    for field in row.fields.iter().skip(from) {
        take(alloc, &mut volume, field.as_str())?;
    }
    Ok(volume)
}

/// What a read gives of an area.
fn content(alloc: Global, volume: &mut MemoryVolume, area: Area) -> Result<Vec<u8>, RowError> {
    let Ok(length) = volume.len(area) else {
        return Err(RowError::Value);
    };
    let mut bytes = vec![in alloc; 0; length as usize]?;
    match volume.read(area, 0, &mut bytes) {
        Ok(()) => Ok(bytes),
        Err(_) => Err(RowError::Value),
    }
}

/// The digits of what a read gives of an area, `-` for no byte.
fn push_content(
    alloc: Global,
    text: &mut String,
    volume: &mut MemoryVolume,
    area: Area,
) -> Result<(), RowError> {
    let bytes = content(alloc, volume, area)?;
    if bytes.is_empty() {
        return Ok(text.push_str("-")?);
    }
    push_bytes(alloc, text, bytes.as_slice())
}

/// What is read of an area in the greatest image and in the least.
fn push_images(
    alloc: Global,
    text: &mut String,
    volume: &MemoryVolume,
    area: Area,
) -> Result<(), RowError> {
    let mut greatest = volume.image(true)?;
    let mut least = volume.image(false)?;
    push_content(alloc, text, &mut greatest, area)?;
    text.push_str(" ")?;
    push_content(alloc, text, &mut least, area)
}

/// What a read gives of an area, and the same of the images.
fn push_area(
    alloc: Global,
    text: &mut String,
    volume: &mut MemoryVolume,
    area: Area,
) -> Result<(), RowError> {
    push_content(alloc, text, volume, area)?;
    text.push_str(" ")?;
    push_images(alloc, text, volume, area)
}

/// Main and Side behind steps.
fn volume(alloc: Global, row: &Row) -> Result<String, RowError> {
    let mut volume = volume_of(alloc, row, 1)?;
    let mut text = String::from_str(alloc, "main ")?;
    push_area(alloc, &mut text, &mut volume, Area::Main)?;
    text.push_str("; side ")?;
    push_area(alloc, &mut text, &mut volume, Area::Side)?;
    Ok(text)
}

/// Each of the three areas behind steps.
fn areas(alloc: Global, row: &Row) -> Result<String, RowError> {
    let mut volume = volume_of(alloc, row, 1)?;
    let mut text = String::from_str(alloc, "main ")?;
    push_area(alloc, &mut text, &mut volume, Area::Main)?;
    text.push_str("; side ")?;
    push_area(alloc, &mut text, &mut volume, Area::Side)?;
    text.push_str("; hint ")?;
    push_area(alloc, &mut text, &mut volume, Area::Hint)?;
    Ok(text)
}

/// Which of some images a crash behind steps may leave of Main. The first field is 0, the second
/// one the images with commas between them.
fn torn(alloc: Global, row: &Row) -> Result<String, RowError> {
    let volume = volume_of(alloc, row, 2)?;
    let mut text = String::new(alloc);
    for image in row.text(1)?.split(',') {
        let bytes = bytes_of(alloc, image)?;
        let may = volume.may_leave(Area::Main, bytes.as_slice())?;
        write!(text, " {may}")?;
    }
    trimmed(alloc, &text)
}

/// The answer of a call of volumes, if the row names one.
pub fn answer(alloc: Global, row: &Row) -> Result<Option<String>, RowError> {
    let text = match row.call.as_str() {
        "volume" => volume(alloc, row)?,
        "areas" => areas(alloc, row)?,
        "torn" => torn(alloc, row)?,
        _ => return Ok(None),
    };
    Ok(Some(text))
}
