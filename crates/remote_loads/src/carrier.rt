//! What carries a client's messages.

use std::alloc::Global;
use zb_ids::Text8;
use zeo_client::ClientError;

/// The way to the desk of one session, and back.
pub trait Carrier {
    ghost use Rattle.std.specs.Prelude.{◌≡◌, ◌<◌, ◌≤◌, ℕ, Bool, IfErr, IfOk, OnErr, length};
    ghost use Rattle.zodb_core.specs.declared.reply.Reply.{Reply};
    ghost use Rattle.zodb_core.specs.declared.request.Request.{Request};
    ghost use Rattle.zodb_core.specs.Machine.{Machine};
    ghost use Rattle.zeo_desk.specs.Desks.{DeskState};
    ghost use Rattle.remote_loads.specs.Carrying.{BreaksOff, Carries, IsMachineStep};
    ghost use Rattle.remote_loads.specs.Causes.{IsCarryCause};

    /// How many calls failed, from 0 to 2^64-1, where the count stays.
    ghost faults: { Self → ℕ };

    /// Whether the stream of what comes has ended.
    ghost closed: { Self → Bool };

    /// A fact where a carrier of this type tells what stands at its other end.
    ghost told: { Type 0 };

    /// What stands there.
    ghost End: { Type 0 };

    ghost end: { Self → End };

    /// The desk of the session there, and the number of that.
    ghost desk: { Self → DeskState };

    ghost session: { Self → ℕ };

    /// The machine that stands there.
    ghost machine: { End → Machine };

    /// A step of a session there, between a request and its reply.
    ghost steps: { ℕ → Request → Reply → End → End → Type 0 };

    /// Where what it borrows lies.
    ghost Place: { Type 0 };

    ghost place: { Self → Place };

    /// What holds of a carrier and of itself later on, whatever it carried between.
    ghost later: { Self → Self → Type 0 };

    /// Sends the bytes, which may be none, and gives at least one byte that came. Where it tells, and the bytes are
    /// frames of a client's messages, what comes is all that the desk sends for them; with an error some first steps
    /// that they name are made, and none of the frames for them comes any more.
    ///
    /// `LinkFault` comes only where the count of faults rose, `Closed` only where the stream of what comes has ended,
    /// `Memory` where there was none; and no other error.
    fn carry(&mut self, alloc: Global, bytes: &[u8]) -> Result<Text8, ClientError>
        ensures some { IfOk result (λ given. 0 < length given) }
        ensures carried { IfOk result (λ given. told → Carries (steps (session self.old)) (end self.old)
            (desk self.old) bytes.now given (end self.new) (desk self.new)) }
        ensures broken { OnErr result (told → BreaksOff (steps (session self.old)) (end self.old)
            (desk self.old) bytes.now (end self.new) (desk self.new)) }
        ensures cause { IfErr result (IsCarryCause (faults self.old) (faults self.new) (closed self.new)) }
        ensures counted { faults self.old ≤ faults self.new }
        ensures session { session self.new ≡ session self.old }
        ensures place { place self.new ≡ place self.old }
        ensures later { later self.old self.new };

    /// A step is one that the machine may make.
    ghost stepped: { (n : ℕ) (q : Request) (r : Reply) (before after : End) → told → steps n q r before after
        → IsMachineStep (machine before) n q r (machine after) };

    /// It holds where nothing was carried, and from each moment over another one to a third.
    ghost at_once: { (c : Self) → later c c };

    ghost later_on: { (a b c : Self) → later a b → later b c → later a c };
}
