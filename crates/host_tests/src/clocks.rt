//! The host's clock, over a host that shows one moment.

use std::io::ErrorKind;
use std::test::Fail;
use std::time::Duration;
use std::{io, time};
use zb_ids::Stamp;
use zb_outside::{Clock, HostClock};

/// A host whose clock shows a moment, or can't be read.
#[derive(Drop)]
struct FixedHost(Option<Duration>);

impl time::Clock for FixedHost {
    fn monotonic(&self) -> io::Result<Duration> {
        self.since_1970()
    }

    fn since_1970(&self) -> io::Result<Duration> {
        self.0.ok_or(ErrorKind::Other.into())
    }
}

#[test]
fn host_clock_gives_the_stamp_of_the_moment(rt: HostRuntime) -> Result<(), Fail> {
    let never = Stamp::new(1900, 1, 1, 0, 0, 0)?;
    for (moment, want) in [
        (None, never),
        (Some((0, 0)), Stamp::new(1970, 1, 1, 0, 0, 0)?),
        (
            Some((1_709_210_070, 1_999)),
            Stamp::new(2024, 2, 29, 12, 34, 30_000_001)?,
        ),
        (
            Some((250_783_084_799, 999_999_999)),
            Stamp::new(9916, 12, 31, 23, 59, 59_999_999)?,
        ),
        (Some((250_783_084_800, 0)), never),
        (Some((u64::MAX, 0)), never),
    ] {
        let since = moment.map(|(seconds, nanos)| Duration::new(seconds, nanos));
        assert_eq!(rt; HostClock::new(FixedHost(since)).stamp(), want);
    }
    Ok(())
}
