//! The host's clock.

ghost use Rattle.std.specs.Prelude.{◌≡◌, ◌+◌, ◌*◌, ◌/◌, ◌↔◌, pos, None, IfSome, IsSome};
ghost use Rattle.jiff.specs.Words.{IsBetween};

use crate::clock::Clock;
use jiff::Timestamp;
use jiff::civil::DateTime;
use jiff::tz::Offset;
use std::time;
use zb_ids::Stamp;

/// The clock of the host, in coordinated universal time. It gives 1900-01-01 00:00:00 where the
/// host's clock gives no stamp: where it can't be read, or shows a year before 1900
/// or after 9916.
#[derive(Debug, Drop)]
pub struct HostClock<C: time::Clock> {
    host: C,
}

impl<C: time::Clock> HostClock<C> {
    /// A clock over the host's, which is a runtime or a reference to one.
    pub fn new(host: C) -> HostClock<C>
        ensures { ⟦<HostClock<C> as Clock>⟧.stamps result ≡ None }
    {
        HostClock { host }
    }
}

impl<C: time::Clock> Clock for HostClock<C> {
    ghost stamps = { λ _. None };

    fn stamp(&mut self) -> Stamp {
        Timestamp::now(&self.host)
            .ok()
            .and_then(|moment| stamp_of(Offset::UTC.to_datetime(moment)))
            .unwrap_or(FIRST)
    }
}

/// The first moment that a stamp names.
const FIRST: Stamp = Stamp {
    year: 1900,
    month: 1,
    day: 1,
    hour: 0,
    minute: 0,
    micros: 0,
};

/// The stamp of a date and time, whose parts of a microsecond are dropped, or `None` where the year
/// isn't one of a stamp.
fn stamp_of(moment: DateTime) -> Option<Stamp>
    ensures exists { IsSome result ↔ IsBetween (pos 1900) (pos 9916) moment.date.year }
    ensures year { IfSome result (λ stamp. pos stamp.year ≡ moment.date.year) }
    ensures month { IfSome result (λ stamp. stamp.month ≡ moment.date.month) }
    ensures day { IfSome result (λ stamp. stamp.day ≡ moment.date.day) }
    ensures hour { IfSome result (λ stamp. stamp.hour ≡ moment.time.hour) }
    ensures minute { IfSome result (λ stamp. stamp.minute ≡ moment.time.minute) }
    ensures micros { IfSome result (λ stamp. stamp.micros
        ≡ moment.time.second * 1_000_000 + moment.time.subsec_nanosecond / 1_000) }
{
    Stamp::new(
        u16::try_from(moment.year()).ok()?,
        moment.month() as u8,
        moment.day() as u8,
        moment.hour() as u8,
        moment.minute() as u8,
        moment.second() as u32 * 1_000_000 + moment.subsec_nanosecond() as u32 / 1_000,
    )
    .ok()
}
