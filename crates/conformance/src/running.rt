//! A case is run through the program.

ghost use Rattle.std.specs.Prelude.{IfOk};
ghost use Rattle.zb_volume.specs.Kept.{log_of};
ghost use Rattle.file_store.specs.Hinting.{LeavesHonest};
ghost use Rattle.conformance.specs.Starts.{MayStart};

use run_cases::{
    Case, Each, Left, Outcome, Outside, Run, difference_of, main_of, spend, tell, volume_with,
};
use std::alloc::{AllocError, Global};
use std::sync::Wait;
use std::thread::Threads;
use zb_links::{CountedSpawner, MemoryDoors};
use zb_outside::{Clock, ListClock, MemorySink, MemorySource};
use zb_volume::MemoryVolume;
use zodb_top::zodb_main;

/// The calls that fail in a run, beside those that it names itself: at most one of each.
#[derive(Clone, Copy)]
struct Failing {
    read: u64,
    write: u64,
    call: u64,
}

const NONE_FAIL: Failing = Failing {
    read: 0,
    write: 0,
    call: 0,
};

/// Numbers, and one more that is none where it is 0.
fn with(alloc: Global, numbers: &[u64], more: u64) -> Result<Vec<u64>, AllocError> {
    let mut all = Vec::from_slice(alloc, numbers)?;
    all.push(more)?;
    Ok(all)
}

/// Doors in memory that have no link to give.
fn closed_doors(alloc: Global) -> MemoryDoors<MemorySink> {
    MemoryDoors::new(Vec::new(alloc), Vec::new(alloc))
}

/// What the program did with a volume.
#[derive(Drop)]
struct Ending {
    status: u8,
    written: Vec<u8>,
    unread: u64,
    clock: ListClock,
    volume: MemoryVolume,
}

fn run_over<R: Threads + Wait + Sync>(
    rt: &R,
    alloc: Global,
    run: &Run,
    failing: Failing,
    volume: MemoryVolume,
) -> Result<Ending, AllocError>
    requires { MayStart (log_of volume.done) }
    ensures { IfOk result (λ ending. LeavesHonest (log_of ending.volume.done)) }
{
    let reads = with(alloc, run.failing_reads.as_slice(), failing.read)?;
    let writes = with(alloc, run.failing_writes.as_slice(), failing.write)?;
    let script = Vec::from_slice(alloc, run.script.as_slice())?;
    let later = Vec::from_slice(alloc, run.later_stamps.as_slice())?;
    let mut source = MemorySource::new(script, reads);
    let mut sink = MemorySink::new(alloc, writes);
    let mut clock = ListClock::new(run.first_stamp, later);
    let mut doors = closed_doors(alloc);
    let mut spawner = CountedSpawner::new(Vec::new(alloc));
    let (status, volume) = zodb_main(
        rt,
        alloc,
        run.words.as_slice(),
        &mut source,
        &mut sink,
        volume,
        &mut clock,
        &mut doors,
        &mut spawner,
    );
    Ok(Ending {
        status: status as u8,
        written: Vec::from_slice(alloc, sink.bytes())?,
        unread: source.left().len() as u64,
        clock,
        volume,
    })
}

/// What `undolog` writes over an image, and the status where it isn't 0.
fn listed<R: Threads + Wait + Sync>(
    rt: &R,
    alloc: Global,
    run: &Run,
    image: MemoryVolume,
) -> Result<Vec<u8>, AllocError>
    requires { MayStart (log_of image.done) }
{
    let mut words = Vec::new(alloc);
    words.push(String::from_str(alloc, "image.fs")?)?;
    words.push(String::from_str(alloc, "undolog")?)?;
    let mut source = MemorySource::new(Vec::new(alloc), Vec::new(alloc));
    let mut sink = MemorySink::new(alloc, Vec::new(alloc));
    let mut clock = ListClock::new(run.first_stamp, Vec::new(alloc));
    let mut doors = closed_doors(alloc);
    let mut spawner = CountedSpawner::new(Vec::new(alloc));
    let (status, _) = zodb_main(
        rt,
        alloc,
        words.as_slice(),
        &mut source,
        &mut sink,
        image,
        &mut clock,
        &mut doors,
        &mut spawner,
    );
    let mut lines = Vec::from_slice(alloc, sink.bytes())?;
    let status = status as u8;
    if status != 0 {
        let line = format!(in alloc; "status {status}\n")?;
        lines.extend_from_slice(line.as_bytes())?;
    }
    Ok(lines)
}

/// What a stop now leaves: with all that waits for a sync, or with none of it.
#[tactic(auto, using(crate::proofs::Starts::may_start))]
fn image_of(volume: &MemoryVolume, all: bool) -> Result<MemoryVolume, AllocError>
    requires { LeavesHonest (log_of volume.now.done) }
    ensures { IfOk result (λ v. MayStart (log_of v.done)) }
{
    let image = volume.image(all)?;
    Ok(image)
}

/// What a stop now leaves of Main: with all that waits for a sync, or with none of it.
#[tactic(auto, using(crate::proofs::Starts::starts_same))]
fn left_by_stop<R: Threads + Wait + Sync>(
    rt: &R,
    alloc: Global,
    run: &Run,
    volume: &MemoryVolume,
    all: bool,
) -> Result<Left, AllocError>
    requires { LeavesHonest (log_of volume.now.done) }
{
    let mut image = image_of(volume, all)?;
    if main_of(alloc, &mut image)?.is_empty() {
        return Ok(Left::Empty);
    }
    Ok(Left::Listed(listed(rt, alloc, run, image)?))
}

/// What a stop leaves, if it is asked for.
fn left_if<R: Threads + Wait + Sync>(
    rt: &R,
    alloc: Global,
    run: &Run,
    volume: &MemoryVolume,
    wanted: &Option<Left>,
    all: bool,
) -> Result<Option<Left>, AllocError>
    requires { LeavesHonest (log_of volume.now.done) }
{
    match wanted {
        None => Ok(None),
        Some(_) => Ok(Some(left_by_stop(rt, alloc, run, volume, all)?)),
    }
}

/// What a difference says, if there is one, and the volume behind the run.
#[tactic(auto, using(crate::proofs::Starts::honest_same))]
fn run_once<R: Threads + Wait + Sync>(
    rt: &R,
    alloc: Global,
    run: &Run,
    failing: Failing,
    volume: MemoryVolume,
    before: Vec<u8>,
    failing_calls: &[u64],
) -> Result<(Option<String>, MemoryVolume), AllocError>
    requires { MayStart (log_of volume.done) }
    ensures { IfOk result (λ r. LeavesHonest (log_of r.1.done)) }
{
    let mut ending = run_over(rt, alloc, run, failing, volume)?;
    spend(&mut ending.volume, failing_calls);
    let expected = &run.expected;
    let outcome = Outcome {
        written: ending.written,
        status: ending.status,
        before,
        main: main_of(alloc, &mut ending.volume)?,
        unread: ending.unread,
        next: ending.clock.stamp(),
        greatest: left_if(rt, alloc, run, &ending.volume, &expected.greatest, true)?,
        least: left_if(rt, alloc, run, &ending.volume, &expected.least, false)?,
    };
    let text = match difference_of(expected, &outcome) {
        None => None,
        Some(difference) => Some(tell(alloc, difference, expected, &outcome)?),
    };
    Ok((text, ending.volume))
}

/// The difference in the first run of a case in which there is one, where these calls fail in the
/// first run.
#[tactic(auto, using(crate::proofs::Starts::starts_new, crate::proofs::Starts::starts_same))]
fn run_all<R: Threads + Wait + Sync>(
    rt: &R,
    alloc: Global,
    case: &Case,
    failing: Failing,
) -> Result<Option<String>, AllocError> {
    let calls = with(alloc, case.failing_calls.as_slice(), failing.call)?;
    let mut volume = volume_with(alloc, case.main.as_slice(), calls.as_slice())?;
    let mut before = Vec::from_slice(alloc, case.main.as_slice())?;
    let mut failing = failing;
    let mut number = 0u64;
    'runs: for run in &case.runs {
        number = number.saturating_add(1);
        let (text, behind) = run_once(rt, alloc, run, failing, volume, before, calls.as_slice())?;
        if let Some(text) = text {
            if number == 1 {
                return Ok(Some(text));
            }
            return Ok(Some(format!(in alloc; "run {number}: {text}")?));
        }
        volume = image_of(&behind, true)?;
        before = main_of(alloc, &mut volume)?;
        failing = NONE_FAIL;
    }
    Ok(None)
}

/// The call of this number, to fail.
fn failing_of(of: Outside, number: u64) -> Failing {
    match of {
        Outside::Source => Failing {
            read: number,
            ..NONE_FAIL
        },
        Outside::Sink => Failing {
            write: number,
            ..NONE_FAIL
        },
        Outside::Volume => Failing {
            call: number,
            ..NONE_FAIL
        },
    }
}

fn run_each<R: Threads + Wait + Sync>(
    rt: &R,
    alloc: Global,
    case: &Case,
    each: Each,
) -> Result<Option<String>, AllocError> {
    for number in each.first..each.last.saturating_add(1) {
        if let Some(text) = run_all(rt, alloc, case, failing_of(each.of, number))? {
            return Ok(Some(format!(in alloc; "call {number} fails: {text}")?));
        }
    }
    Ok(None)
}

/// In what a case first differs from what is expected, if it does.
pub fn run_case<R: Threads + Wait + Sync>(
    rt: &R,
    alloc: Global,
    case: &Case,
) -> Result<Option<String>, AllocError> {
    match case.each {
        None => run_all(rt, alloc, case, NONE_FAIL),
        Some(each) => run_each(rt, alloc, case, each),
    }
}
