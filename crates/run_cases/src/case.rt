//! A case: what the program is given, run after run over one Main, and what is expected of each run.

use zb_ids::Stamp;

/// What is expected of Main behind a run.
#[derive(Drop)]
pub enum After {
    /// It is as it was before the run.
    Same,
    /// It has these bytes.
    Bytes(Vec<u8>),
    /// It has so many bytes, and they have this SHA-256.
    Digest {
        /// How many.
        length: u64,
        /// Their digest.
        sha256: [u8; 32],
    },
}

/// What a stop leaves of Main in one image.
#[derive(Drop)]
pub enum Left {
    /// No byte.
    Empty,
    /// Bytes over which `undolog` writes this.
    Listed(Vec<u8>),
}

/// What is expected of a run. What is `None` isn't compared.
#[derive(Drop)]
pub struct Expectation {
    /// All that is written.
    pub written: Vec<u8>,
    /// The exit status.
    pub status: u8,
    /// Main behind the run.
    pub after: After,
    /// How many bytes of the source are left.
    pub unread: Option<u64>,
    /// What the clock gives next.
    pub next: Option<Stamp>,
    /// The image with all that waits for a sync.
    pub greatest: Option<Left>,
    /// The image with none of it.
    pub least: Option<Left>,
}

/// One run of the program.
#[derive(Drop)]
pub struct Run {
    /// The words of the command line: the path, and those behind it.
    pub words: Vec<String>,
    /// What the source holds.
    pub script: Vec<u8>,
    /// The numbers of the calls of the source that fail, counted from 1.
    pub failing_reads: Vec<u64>,
    /// The same of the sink.
    pub failing_writes: Vec<u64>,
    /// The first stamp of the clock.
    pub first_stamp: Stamp,
    /// The stamps that it gives behind the first.
    pub later_stamps: Vec<Stamp>,
    /// What is expected of the run.
    pub expected: Expectation,
}

/// What the program calls.
#[derive(Clone, Copy)]
pub enum Outside {
    /// Its source.
    Source,
    /// Its sink.
    Sink,
    /// Its volume.
    Volume,
}

/// Calls that fail one at a time, each in a first run of its own.
#[derive(Clone, Copy)]
pub struct Each {
    /// What is called.
    pub of: Outside,
    /// The number of the first call that fails, counted from 1.
    pub first: u64,
    /// The number of the last one.
    pub last: u64,
}

/// A case.
#[derive(Drop)]
pub struct Case {
    /// What it is called.
    pub name: String,
    /// Main before the first run.
    pub main: Vec<u8>,
    /// The numbers of the calls of the volume that fail in the first run, counted from 1.
    pub failing_calls: Vec<u64>,
    /// The calls of which each fails in a first run of its own, if there are such.
    pub each: Option<Each>,
    /// The runs, one after another over one Main.
    pub runs: Vec<Run>,
    /// The difference that is to be reported, where the case is a wrong one.
    pub differs: Option<String>,
}
