//! Tests alone, of the turns of clients: how many bytes a client sends over its link.
#![tactic(auto)]

#[cfg(test)]
mod sent;
