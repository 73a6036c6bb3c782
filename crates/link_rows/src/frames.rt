//! The calls of frames.

use row_cases::{Row, RowError, bytes_of, push_bytes};
use std::alloc::Global;
use std::fmt::Write;
use zb_ids::{ListOf, Text8};
use zeo_frames::{FRAME_LIMIT, FrameError, Frames, frame};
use zeo_reading::read_message;

/// What a feed gives: each payload, `-` for none, or why there is none.
fn push_fed(
    alloc: Global,
    text: &mut String,
    fed: &Result<ListOf<Text8>, FrameError>,
) -> Result<(), RowError> {
    match fed {
        Ok(payloads) if payloads.is_empty() => Ok(text.push_str("-")?),
        Ok(payloads) => {
            let mut mark = "";
            for payload in payloads.as_slice() {
                text.push_str(mark)?;
                push_bytes(alloc, text, payload.as_slice())?;
                mark = " ";
            }
            Ok(())
        }
        Err(FrameError::Memory) => Err(RowError::Memory),
        Err(error) => Ok(write!(text, "{error:?}")?),
    }
}

/// What the feeds of the pieces in the fields give, one after another.
fn feed(alloc: Global, row: &Row) -> Result<String, RowError> {
    let mut frames = Frames::new(alloc);
    let mut text = String::new(alloc);
    let mut mark = "";
    for field in &row.fields {
        text.push_str(mark)?;
        let piece = bytes_of(alloc, field.as_str())?;
        push_fed(alloc, &mut text, &frames.feed(piece.as_slice()))?;
        mark = "; ";
    }
    Ok(text)
}

/// The frame of a payload that isn't above the limit.
fn framed(alloc: Global, row: &Row) -> Result<String, RowError> {
    let payload = row.bytes(alloc, 0)?;
    if payload.len() > FRAME_LIMIT as usize {
        return Err(RowError::Value);
    }
    let mut text = String::new(alloc);
    push_bytes(
        alloc,
        &mut text,
        frame(alloc, payload.as_slice())?.as_slice(),
    )?;
    Ok(text)
}

/// How many payloads a feed gives.
fn count_of(fed: &Result<ListOf<Text8>, FrameError>) -> u64 {
    match fed {
        Ok(payloads) => payloads.len() as u64,
        Err(_) => 0,
    }
}

/// How many payloads the fronts of the bytes have, each front fed as one piece: the first length at which
/// there are so many, for each number of payloads.
fn fronts(alloc: Global, row: &Row) -> Result<String, RowError> {
    let bytes = row.bytes(alloc, 0)?;
    let mut text = String::new(alloc);
    let mut before = 0u64;
    text.push_str("0 from 0")?;
    for length in 0..bytes.len() + 1 {
        let count = count_of(&Frames::new(alloc).feed(&bytes[..length]));
        if count != before {
            write!(text, ", {count} from {length}")?;
        }
        before = count;
    }
    Ok(text)
}

/// What a stream has in it so far.
#[derive(Clone, Copy)]
struct Counts {
    payloads: u64,
    bytes: u64,
    messages: u64,
}

/// Counts payloads, and those that are messages.
fn count_payloads(alloc: Global, counts: &mut Counts, payloads: &ListOf<Text8>) {
    for payload in payloads.as_slice() {
        let payload = payload.as_slice();
        counts.payloads = counts.payloads.saturating_add(1);
        counts.bytes = counts.bytes.saturating_add(payload.len() as u64);
        if read_message(alloc, payload).is_ok() {
            counts.messages = counts.messages.saturating_add(1);
        }
    }
}

/// How many payloads come of the bytes in pieces of so many, how many bytes these have, and how many of
/// them are messages.
fn stream(alloc: Global, row: &Row) -> Result<String, RowError> {
    let size = row.number(0)?;
    let bytes = row.bytes(alloc, 1)?;
    let mut frames = Frames::new(alloc);
    let mut counts = Counts {
        payloads: 0,
        bytes: 0,
        messages: 0,
    };
    if size == 0 {
        return Err(RowError::Value);
    }
    for piece in bytes.as_slice().chunks(size as usize) {
        match frames.feed(piece) {
            Ok(payloads) => count_payloads(alloc, &mut counts, &payloads),
            Err(error) => return Ok(format!(in alloc; "{error:?}")?),
        }
    }
    let Counts {
        payloads,
        bytes,
        messages,
    } = counts;
    Ok(format!(in alloc; "{payloads} payloads of {bytes} bytes, {messages} messages")?)
}

/// The answer of a call of frames, if the row names one.
pub fn answer(alloc: Global, row: &Row) -> Result<Option<String>, RowError> {
    let text = match row.call.as_str() {
        "feed" => feed(alloc, row)?,
        "frame" => framed(alloc, row)?,
        "frame_fronts" => fronts(alloc, row)?,
        "stream" => stream(alloc, row)?,
        _ => return Ok(None),
    };
    Ok(Some(text))
}
