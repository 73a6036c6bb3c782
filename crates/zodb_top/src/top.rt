//! The top call.

ghost use Rattle.std.specs.Prelude.{map, string_bytes};
ghost use Rattle.file_store.specs.Hinting.{HasHonestHint};
ghost use Rattle.zodb_top.specs.Outside.{outside};
ghost use Rattle.zodb_top.specs.Promise.{Promise, links_seen, program_seen};
ghost use Rattle.program_words.specs.Words.{command_of};

use crate::answering::answer_file;
use crate::generating::gen_file;
use crate::indexing::index_file;
use crate::packing::pack_file;
use crate::script::run_source;
use crate::serving::serve_file;
use program_words::{Command, command_of};
use script_runs::{Manner, Status, say};
use std::alloc::Global;
use std::sync::Wait;
use std::thread::Threads;
use zb_links::{Doors, Spawner};
use zb_outside::{Clock, Sink, Source};
use zb_volume::Volume;

/// All that the program does, over what the system gives it: a runtime, the words behind the program's
/// name, a source of the script, a sink for the answers, the volume whose area Main is the file, a clock,
/// doors for the links of other programs, and a spawner, which runs the workers of links. The volume is
/// handed back. It may wait, where the clients of a script run side by side.
///
/// What it promises is one record, `Promise`, over what is seen outside at the call and at the
/// return: what the source has left and its count of faults; what the doors tell, their count of faults
/// and the spawner's; what the sink has taken and its count; the clock's stamps; and of the volume its
/// log and its counts of failed reads and of other failed calls. Where the volume tells, the index file
/// in Hint has to say what Main has, or be none that is believed, as an empty one. `docs/ARCHITECTURE.md` leads from there to the definition of a database.
#[tactic(auto, using(zb_model::specs::StayLaws::stays_same, crate::proofs::Untouched::still_honest))]
pub fn zodb_main<S, K, V, C, D, P, R>(
    rt: &R,
    alloc: Global,
    words: &[String],
    source: &mut S,
    sink: &mut K,
    volume: V,
    clock: &mut C,
    doors: &mut D,
    spawner: &mut P,
) -> (Status, V)
where
    S: Source,
    K: Sink,
    V: Volume + Drop + Send,
    C: Clock + Send,
    D: Doors,
    P: Spawner,
    R: Threads + Wait + Sync,
    requires honest { V.told → HasHonestHint (V.state volume).log }
    ensures promise { Promise V.told (command_of (map string_bytes words.now)) result.0
        (program_seen (S.left source.old) (S.faults source.old)
        (links_seen (D.told doors.old) (D.faults doors.old) (P.faults spawner.old))
        (outside (K.taken sink.old) (K.faults sink.old) (C.stamps clock.old) (V.state volume)))
        (program_seen (S.left source.new) (S.faults source.new)
        (links_seen (D.told doors.new) (D.faults doors.new) (P.faults spawner.new))
        (outside (K.taken sink.new) (K.faults sink.new) (C.stamps clock.new) (V.state result.1))) }
{
    let Ok(read) = command_of(alloc, words) else {
        return (Status::NoMemory, volume);
    };
    let Some(command) = read else {
        return (say(sink, b"usage\n", Status::Usage), volume);
    };
    match command {
        Command::Run => run_source(rt, alloc, Manner::InTurn, source, sink, volume, clock),
        Command::Ask(asked) => answer_file(alloc, asked, sink, volume, clock),
        Command::Pack(pack) => pack_file(alloc, pack, sink, volume, clock),
        Command::Index => index_file(alloc, sink, volume, clock),
        Command::Play => run_source(rt, alloc, Manner::SideBySide, source, sink, volume, clock),
        Command::Serve(request) => serve_file(
            rt, alloc, request, sink, volume, clock, doors, spawner,
        ),
        Command::Gen { rounds } => gen_file(alloc, rounds, sink, volume, clock),
    }
}
