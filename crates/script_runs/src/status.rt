//! How the program ends.

ghost use Rattle.std.specs.Prelude.{◌≡◌};
ghost use Rattle.script_runs.specs.Numbers.{number_of};

/// How the program ends. Each has the number that is its exit status.
#[derive(Clone, Copy, Debug, PartialEq, Eq)]
pub enum Status {
    /// All was done.
    Done = 0,
    /// There was not enough memory, and the run ended there.
    NoMemory = 1,
    /// The words are no command.
    Usage = 2,
    /// The script could not be read: the source's count of faults rose.
    SourceFault = 3,
    /// A line could not be written: the sink's count of faults rose.
    SinkFault = 4,
    /// A call of the volume failed: any, while the file was opened, or in a turn one that would change it.
    StoreFault = 5,
    /// The file is damaged.
    Damaged = 6,
    /// A worker of a link wasn't started.
    NoWorkers = 7,
    /// A line is none, or can't stand in its place.
    BadLine = 8,
    /// The script passes a limit.
    Limit = 9,
    /// No further link came: the doors failed.
    NoLink = 10,
    /// The history of all sessions is full.
    StepsSpent = 11,
}

impl Status {
    /// The exit status.
    pub fn number(self) -> u8
        ensures { result ≡ number_of self }
    {
        self as u8
    }
}
