//! What a program is given from outside, a source of bytes, a sink for bytes and a clock, and what
//! contracts say of each: in memory, where all is told, and over the host, where little is.
#![tactic(auto)]

mod clock;
mod failed;
mod host_clock;
mod list_clock;
mod memory_sink;
mod memory_source;
mod read_source;
mod reading;
mod sink;
mod source;
mod write_sink;
mod writing;

pub use clock::Clock;
pub use failed::Failed;
pub use host_clock::HostClock;
pub use list_clock::ListClock;
pub use memory_sink::MemorySink;
pub use memory_source::MemorySource;
pub use read_source::ReadSource;
pub use reading::{ReadAllError, read_all};
pub use sink::Sink;
pub use source::Source;
pub use write_sink::WriteSink;
pub use writing::write_all;
