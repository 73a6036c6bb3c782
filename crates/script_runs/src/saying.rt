//! Lines beside replies, and how the program ends.

ghost use Rattle.std.specs.Prelude.{◌≡◌, ◌≤◌, ◌++◌, ◌∷◌, [], IfOk, OnErr, OnOk};
ghost use Rattle.std.specs.Io.KnownBytes.{Appends};
ghost use Rattle.zb_base.specs.Counts.{Rose};
ghost use Rattle.zb_outside.specs.Written.{AppendsPrefix};
ghost use Rattle.script_runs.specs.Texts.{cut_lines, joined};
ghost use Rattle.script_runs.specs.Written.{IsWritten};

use crate::status::Status;
use itoa::Buffer;
use std::alloc::{AllocError, Global};
use zb_ids::{ListOf, Text8};
use zb_outside::{Failed, Sink, write_all};

/// Writes the line that tells of an ending, and answers its status. A sink that fails then has some
/// prefix of the line, and changes nothing of the status.
#[tactic(auto, using(zb_outside::specs::WrittenLaws::all_front))]
pub fn say<K: Sink>(sink: &mut K, text: &[u8], status: Status) -> Status
    ensures status { result ≡ status }
    ensures counted { K.faults sink.old ≤ K.faults sink.new }
    ensures written { IsWritten (K.taken sink.old) (K.taken sink.new) (K.faults sink.old) (K.faults sink.new) text.now }
{
    let _ = write_all(sink, text);
    status
}

/// Writes a line.
fn write_line<K: Sink>(sink: &mut K, line: &Text8) -> Result<(), Failed>
    ensures ok { OnOk result (Appends (K.taken sink.old) (K.taken sink.new) line.now) }
    ensures err { OnErr result (AppendsPrefix (K.taken sink.old) (K.taken sink.new) line.now) }
    ensures failed { OnErr result (Rose (K.faults sink.old) (K.faults sink.new)) }
    ensures counted { K.faults sink.old ≤ K.faults sink.new }
{
    write_all(sink, line.as_slice())
}

/// Writes lines in their order, each by a write of its own.
#[tactic(auto, using(crate::proofs::Written::start_lines, crate::proofs::Written::one_line, crate::proofs::Written::all_lines, crate::proofs::Written::prefix_lines))]
pub fn write_lines<K: Sink>(sink: &mut K, lines: &[Text8]) -> Result<(), Failed>
    ensures ok { OnOk result (Appends (K.taken sink.old) (K.taken sink.new) (joined lines.now)) }
    ensures err { OnErr result (AppendsPrefix (K.taken sink.old) (K.taken sink.new) (joined lines.now)) }
    ensures failed { OnErr result (Rose (K.faults sink.old) (K.faults sink.new)) }
    ensures counted { K.faults sink.old ≤ K.faults sink.new }
{
    for line in lines {
        write_line(sink, line)?;
    }
    Ok(())
}

/// Writes lines, and then more, each by a write of its own.
#[tactic(auto, using(crate::specs::PrefixLaws::both_lines, crate::specs::PrefixLaws::first_prefix, crate::specs::PrefixLaws::second_prefix))]
pub fn write_both<K: Sink>(sink: &mut K, lines: &[Text8], more: &[Text8]) -> Result<(), Failed>
    ensures ok { OnOk result (Appends (K.taken sink.old) (K.taken sink.new) (joined (lines.now ++ more.now))) }
    ensures err { OnErr result (AppendsPrefix (K.taken sink.old) (K.taken sink.new) (joined (lines.now ++ more.now))) }
    ensures failed { OnErr result (Rose (K.faults sink.old) (K.faults sink.new)) }
    ensures counted { K.faults sink.old ≤ K.faults sink.new }
{
    write_lines(sink, lines)?;
    write_lines(sink, more)
}

/// Writes lines, and then one that stands where it is.
#[tactic(auto, using(crate::specs::PrefixLaws::both_lines, crate::specs::PrefixLaws::first_prefix, crate::specs::PrefixLaws::second_prefix))]
pub fn write_behind<K: Sink>(sink: &mut K, lines: &[Text8], last: &[u8]) -> Result<(), Failed>
    ensures ok { OnOk result (Appends (K.taken sink.old) (K.taken sink.new) (joined (lines.now ++ last.now ∷ []))) }
    ensures err { OnErr result (AppendsPrefix (K.taken sink.old) (K.taken sink.new) (joined (lines.now ++ last.now ∷ []))) }
    ensures failed { OnErr result (Rose (K.faults sink.old) (K.faults sink.new)) }
    ensures counted { K.faults sink.old ≤ K.faults sink.new }
{
    write_lines(sink, lines)?;
    write_all(sink, last)
}

/// Writes lines, and then the line that tells of an ending, and answers its status. A sink that fails then has
/// some prefix of them, and changes nothing of the status.
#[tactic(auto, using(crate::specs::PrefixLaws::said_behind))]
pub fn say_behind<K: Sink>(sink: &mut K, lines: &[Text8], text: &[u8], status: Status) -> Status
    ensures status { result ≡ status }
    ensures counted { K.faults sink.old ≤ K.faults sink.new }
    ensures written { IsWritten (K.taken sink.old) (K.taken sink.new) (K.faults sink.old) (K.faults sink.new) (joined lines.now ++ text.now) }
{
    let _ = write_behind(sink, lines, text);
    status
}

/// The line of a tail that was cut off, where one was.
pub fn cut_lines(alloc: Global, cut: Option<u64>) -> Result<ListOf<Text8>, AllocError>
    ensures { IfOk result (λ lines. lines ≡ cut_lines cut) }
{
    let mut lines = ListOf::new(alloc);
    if let Some(at) = cut {
        let mut text = Vec::from_slice(alloc, b"cut ")?;
        let mut buffer = Buffer::new();
        text.extend_from_slice(buffer.format(at).as_bytes())?;
        text.push(b'\n')?;
        lines.push(Text8::from_vec(text))?;
    }
    Ok(lines)
}
