//! Tests alone, of whole runs of the program: of a file that is opened with an index file, what is written, what
//! is believed, and how much of the file is read; of scripts that are made from a number; and of clients
//! side by side.
#![tactic(auto)]

#[cfg(test)]
mod clients;
#[cfg(test)]
mod counted;
#[cfg(test)]
mod gens;
#[cfg(test)]
mod opening;
