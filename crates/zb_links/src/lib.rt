//! The outside of a server: doors that accept links, workers and what gives them, spawners that run
//! them, and one sink for two handles; in memory, where all is told, and over the host, where
//! little is.
#![tactic(auto)]

mod counted_spawner;
mod doors;
mod memory_doors;
mod running;
mod shared_sink;
mod spawner;
mod tcp_doors;
mod thread_spawner;
mod worker;

pub use counted_spawner::CountedSpawner;
pub use doors::Doors;
pub use memory_doors::MemoryDoors;
pub use shared_sink::SharedSink;
pub use spawner::{NoWorkers, Spawner};
pub use tcp_doors::TcpDoors;
pub use thread_spawner::ThreadSpawner;
pub use worker::{Feeder, Worker};
