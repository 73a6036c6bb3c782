//! Frames are sent.

ghost use Rattle.std.specs.Prelude.{◌≤◌, length, OnOk, OnErr};
ghost use Rattle.std.specs.Io.KnownBytes.{Appends};
ghost use Rattle.std.specs.List.{concat};
ghost use Rattle.zb_base.specs.Counts.{HasCause};
ghost use Rattle.zb_outside.specs.Written.{AppendsPrefix};

use zb_ids::Text8;
use zb_outside::{Failed, Sink};

/// Writes until the sink has taken all the bytes. Each write offers all that are left, so that a sink
/// that takes each piece whole has no other bytes between them. Where a write failed, the sink has taken
/// some front of them.
#[tactic(auto, using(zb_outside::specs::WrittenLaws::appends_more, zb_outside::specs::WrittenLaws::front_kept))]
pub fn send_frame<O: Sink>(link_out: &mut O, bytes: &[u8]) -> Result<(), Failed>
    ensures ok { OnOk result (Appends (O.taken link_out.old) (O.taken link_out.new) bytes.now) }
    ensures err { OnErr result (AppendsPrefix (O.taken link_out.old) (O.taken link_out.new) bytes.now) }
    ensures cause { HasCause (O.faults link_out.old) (O.faults link_out.new) result }
{
    let mut at = 0;
    'sending: while at < bytes.len() {
        at += link_out.write(&bytes[at..])?;
    }
    Ok(())
}

/// Sends frames, one after another. Where a write failed, the sink has taken some front of their bytes.
#[tactic(auto, using(crate::proofs::Frames::more_sent, crate::proofs::Frames::all_sent))]
pub(crate) fn send_frames<O: Sink>(link_out: &mut O, frames: &[Text8]) -> Result<(), Failed>
    ensures ok { OnOk result (Appends (O.taken link_out.old) (O.taken link_out.new) (concat frames.now)) }
    ensures err { OnErr result (AppendsPrefix (O.taken link_out.old) (O.taken link_out.new) (concat frames.now)) }
    ensures cause { HasCause (O.faults link_out.old) (O.faults link_out.new) result }
{
    for frame in frames {
        send_frame(link_out, frame.as_slice())?;
    }
    Ok(())
}
