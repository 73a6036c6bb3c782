//! A text is written whole.

ghost use Rattle.std.specs.Prelude.{◌≤◌, ◌<◌, length, IfOk, OnOk, OnErr};
ghost use Rattle.std.specs.Io.KnownBytes.{Appends, WriteAppends};
ghost use Rattle.zb_base.specs.Counts.{Rose};
ghost use Rattle.zb_outside.specs.Written.{AppendsPrefix};

use crate::failed::Failed;
use crate::sink::Sink;

/// How many bytes a write offers at most.
const PIECE: usize = 65_536;

/// Has the sink take a front of the bytes, of at most 65,536.
#[tactic(auto, using(crate::specs::WrittenLaws::appends_within))]
fn write_piece<K: Sink>(sink: &mut K, bytes: &[u8]) -> Result<usize, Failed>
    ensures fits { IfOk result (λ count. count ≤ length bytes.now) }
    ensures some { IfOk result (λ count. 0 < length bytes.now → 0 < count) }
    ensures bytes { WriteAppends (K.taken sink.old) (K.taken sink.new) result bytes.now }
    ensures failed { OnErr result (Rose (K.faults sink.old) (K.faults sink.new)) }
    ensures counted { K.faults sink.old ≤ K.faults sink.new }
{
    let end = bytes.len().min(PIECE);
    sink.write(&bytes[..end])
}

/// Writes, in pieces of 65,536, until the sink has taken all the bytes, in their order. Where a write
/// failed, the sink has taken some front of them.
#[tactic(auto, using(crate::specs::WrittenLaws::appends_more, crate::specs::WrittenLaws::front_kept))]
pub fn write_all<K: Sink>(sink: &mut K, bytes: &[u8]) -> Result<(), Failed>
    ensures ok { OnOk result (Appends (K.taken sink.old) (K.taken sink.new) bytes.now) }
    ensures err { OnErr result (AppendsPrefix (K.taken sink.old) (K.taken sink.new) bytes.now) }
    ensures failed { OnErr result (Rose (K.faults sink.old) (K.faults sink.new)) }
    ensures counted { K.faults sink.old ≤ K.faults sink.new }
{
    let mut at = 0;
    'writing: while at < bytes.len() {
        at += write_piece(sink, &bytes[at..])?;
    }
    Ok(())
}
