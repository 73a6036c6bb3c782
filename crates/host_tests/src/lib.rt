//! Tests alone, of what the host gives and what it takes: streams, the clock, files, sockets, pipes
//! and threads; of sessions, links and clients in threads over one hub whose list is in memory; and of
//! what a client with a link sends.
#![tactic(auto)]

#[cfg(test)]
mod adapters;
#[cfg(test)]
mod clocks;
#[cfg(test)]
mod doors;
#[cfg(test)]
mod files;
#[cfg(test)]
mod links;
#[cfg(test)]
mod loads;
#[cfg(test)]
mod made;
#[cfg(test)]
mod messages;
#[cfg(test)]
mod numbers;
#[cfg(test)]
mod piped;
#[cfg(test)]
mod pushes;
#[cfg(test)]
mod recorder;
#[cfg(test)]
mod served;
#[cfg(test)]
mod serves;
#[cfg(test)]
mod sessions;
#[cfg(test)]
mod sinks;
#[cfg(test)]
mod spawners;
#[cfg(test)]
mod steps;
#[cfg(test)]
mod streams;
#[cfg(test)]
mod votes;
