//! A clock that is lent.

use zb_ids::Stamp;
use zb_outside::Clock;

/// A clock that is lent to a hub.
#[derive(Drop)]
pub(crate) struct LentClock<'c, C: Clock> {
    /// The clock.
    pub(crate) clock: &'c mut C,
}

impl<'c, C: Clock> Clock for LentClock<'c, C> {
    ghost stamps = { λ lent. C.stamps lent.clock.now };

    fn stamp(&mut self) -> Stamp {
        self.clock.stamp()
    }
}
