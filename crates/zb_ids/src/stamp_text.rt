//! Reading stamps of whole seconds.

ghost use Rattle.std.specs.Prelude.{◌≡◌, ◌↔◌, ◌<◌, ◌+◌, ◌*◌, IfOk, IsOk, IsOkAnd, length};
ghost use Rattle.zb_ids.specs.Calendar.{IsStampOf};
ghost use Rattle.zb_ids.specs.Spelling.{IsTextOf, ReadsTime, time_at, time_in, time_of, time_text, two_in};

use crate::stamp::{OutOfRange, Stamp};

fn digit(value: u32) -> u8
    requires { value < 10 }
    ensures { result ≡ 48 + value }
{
    b'0' + value as u8
}

/// The text of a stamp, without the part of the second that has gone by.
fn spelled(stamp: Stamp) -> [u8; 19]
    ensures { result ≡ time_text (time_of stamp) }
{
    let year = u32::from(stamp.year);
    let month = u32::from(stamp.month);
    let day = u32::from(stamp.day);
    let hour = u32::from(stamp.hour);
    let minute = u32::from(stamp.minute);
    let second = stamp.micros / 1_000_000;
    [
        digit(year / 100 / 10),
        digit(year / 100 % 10),
        digit(year % 100 / 10),
        digit(year % 100 % 10),
        b'-',
        digit(month / 10),
        digit(month % 10),
        b'-',
        digit(day / 10),
        digit(day % 10),
        b'T',
        digit(hour / 10),
        digit(hour % 10),
        b':',
        digit(minute / 10),
        digit(minute % 10),
        b':',
        digit(second / 10),
        digit(second % 10),
    ]
}

/// The number that two bytes spell at a place, where they are decimal digits.
fn two_in(bytes: &[u8], at: usize) -> u8
    requires { at + 1 < length bytes.now }
    ensures { result ≡ two_in bytes.now at }
{
    10 * (bytes[at] % 16) + bytes[at + 1] % 16
}

/// The stamp of what stands at the places of the digits.
fn stamp_in(bytes: &[u8]) -> Result<Stamp, OutOfRange>
    requires { length bytes.now ≡ 19 }
    ensures exists { IsOk result ↔ IsStampOf (time_in bytes.now).year (time_in bytes.now).month (time_in bytes.now).day
        (time_in bytes.now).hour (time_in bytes.now).minute ((time_in bytes.now).second * 1000000) }
    ensures value { IfOk result (λ stamp. (time_of stamp ≡ time_in bytes.now) × (stamp.micros ≡ (time_in bytes.now).second * 1000000)) }
{
    let year = u16::from(two_in(bytes, 0)) * 100 + u16::from(two_in(bytes, 2));
    let micros = u32::from(two_in(bytes, 17)) * 1_000_000;
    Stamp::new(
        year,
        two_in(bytes, 5),
        two_in(bytes, 8),
        two_in(bytes, 11),
        two_in(bytes, 14),
        micros,
    )
}

/// The stamp that a text spells.
#[tactic(auto, unfolding(crate::specs::Spelling::time_at), using(crate::proofs::TimeLaws::time_is, crate::proofs::TimeLaws::no_time, crate::proofs::TimeLaws::too_long, crate::proofs::TimeLaws::another_text))]
fn stamp_at(bytes: &[u8]) -> Result<Stamp, OutOfRange>
    ensures { ReadsTime result (time_at bytes.now) }
{
    if bytes.len() != 19 {
        return Err(OutOfRange);
    }
    let stamp = stamp_in(bytes)?;
    // What stands at a digit's place and is none shows here, and so does a wrong mark.
    if spelled(stamp).as_slice() == bytes {
        Ok(stamp)
    } else {
        Err(OutOfRange)
    }
}

impl Stamp {
    /// The stamp that a text spells: `YYYY-MM-DDThh:mm:ss`, with exactly so many decimal digits and
    /// nothing before or behind them. It is `OutOfRange` exactly where the text isn't of this form, or the
    /// date and the time that it names are no stamp.
    #[tactic(auto, using(crate::proofs::TimeLaws::text_found, crate::proofs::TimeLaws::only_text))]
    pub fn read(text: &str) -> Result<Stamp, OutOfRange>
        ensures found { IfOk result (λ stamp. IsTextOf text.now stamp) }
        ensures only { (stamp : Stamp) → IsTextOf text.now stamp → IsOkAnd result (λ found. (time_of found ≡ time_of stamp) × (found.micros ≡ stamp.micros)) }
        ensures exact { ReadsTime result (time_at text.now) }
    {
        stamp_at(text.as_bytes())
    }
}
