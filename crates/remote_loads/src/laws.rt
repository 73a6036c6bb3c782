//! What a desk sends for a call. A law is the contract of a function that does nothing.

ghost use Rattle.std.specs.Prelude.{ℕ};
ghost use Rattle.remote_loads.specs.Served.{OneCallIsServed};

use crate::carrier::Carrier;
use zeo_reading::payloads_are_read_back;

/// For the message of a call that names one step, of a client that has registered, the desk at the other end of a
/// carrier makes that step and sends the frames of its reply.
pub fn one_call_is_served<W: Carrier>()
    ensures { (session : ℕ) → OneCallIsServed (W.steps session) }
{
    payloads_are_read_back();
}
