//! A clock.

ghost use Rattle.std.specs.Prelude.{◌≡◌, List, Option, IfSome, slice_get};
ghost use Rattle.std.specs.Option.{option_map};
ghost use Rattle.zb_ids.specs.declared.stamp.Stamp.{Stamp};
ghost use Rattle.zb_outside.specs.Stamps.{stamps_after};

use zb_ids::Stamp;

/// Gives the time. It has no fault.
pub trait Clock {
    /// The stamps that calls will give one after another, the last of them again and again, where
    /// the clock tells. That list isn't empty.
    ghost stamps: { Self → Option (List Stamp) };

    /// The time now: where the clock tells, the first of its stamps, which is then dropped unless
    /// it is the last.
    fn stamp(&mut self) -> Stamp
        ensures first { IfSome (stamps self.old) (λ told. slice_get told 0 ≡ Some result) }
        ensures left { stamps self.new ≡ option_map stamps_after (stamps self.old) };
}
