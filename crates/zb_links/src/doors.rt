//! Doors through which links come in.

ghost use Rattle.std.specs.Prelude.{◌≡◌, ℕ, Option, IfOk, OnOk, OnErr};
ghost use Rattle.std.specs.Option.{option_map};
ghost use Rattle.zb_base.specs.Counts.{HasCause};
ghost use Rattle.zb_links.specs.Told.{Told, bound_with, Gives};

use zb_outside::{Failed, Sink, Source};

/// Accepts links, one after another: each is a source of what its client sends, and a sink for what
/// is answered.
pub trait Doors {
    /// What a client sends.
    type In: Source + Send + Drop;

    /// What is sent to a client.
    type Out: Sink + Send + Drop;

    /// The port that the doors were bound with last, and the links that they gave, each as the
    /// bytes that its source held, where the doors tell.
    ghost told: { Self → Option Told };

    /// How many calls failed, from 0 to 2^64-1, where the count stays.
    ghost faults: { Self → ℕ };

    /// Opens the doors at a port, in place of one at which they were open. At port 0 whoever gives
    /// ports picks one. It is `Failed` only where the count of faults rose, and then what is told
    /// is as before; else the count stands.
    fn bind(&mut self, port: u16) -> Result<(), Failed>
        ensures bound { OnOk result (told self.new ≡ option_map (bound_with port) (told self.old)) }
        ensures kept { OnErr result (told self.new ≡ told self.old) }
        ensures cause { HasCause (faults self.old) (faults self.new) result }
        ensures uncounted { OnOk result (faults self.new ≡ faults self.old) };

    /// The next link, for which it may wait. Where the doors tell, its source does, and it becomes
    /// the last link that they tell of. It is `Failed` only where the count of faults rose, and
    /// then what is told is as before; else the count stands.
    fn accept(&mut self) -> Result<(Self::In, Self::Out), Failed>
        ensures given { IfOk result (λ link.
            Gives (told self.old) (told self.new) (Self.In.left link.0)) }
        ensures kept { OnErr result (told self.new ≡ told self.old) }
        ensures cause { HasCause (faults self.old) (faults self.new) result }
        ensures uncounted { OnOk result (faults self.new ≡ faults self.old) };
}
