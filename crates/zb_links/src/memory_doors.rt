//! Doors in memory.

ghost use Rattle.std.specs.Prelude.{◌≡◌, ◌↔◌, ◌⊎◌, [], ◌∷◌, ◌++◌, Contains, Some, None, IfOk, IsErr, OnOk, OnErr};
ghost use Rattle.zb_base.specs.Counts.{HasCause, one_more};
ghost use Rattle.zb_links.specs.MemoryState.{DoorsState};

use crate::doors::Doors;
use std::collections::VecDeque;
use std::marker::Model;
use std::snapshot::Snapshot;
use zb_outside::{Failed, MemorySource, Sink};

/// Doors that give the links of a list in its order, and fail at the calls that they are told and
/// where no link is left.
#[derive(Drop)]
pub struct MemoryDoors<O: Sink + Drop> {
    all: Snapshot<VecDeque<(MemorySource, O)>>,
    links: VecDeque<(MemorySource, O)>,
    at: usize,
    port: Option<u16>,
    failing: Vec<u64>,
    calls: u64,
    faults: u64,
}

impl<O: Sink + Drop> Model for MemoryDoors<O> {
    ghost use Rattle.std.specs.Prelude.{◌≡◌, ◌≤◌, take, drop, map, length};
    ghost use Rattle.zb_links.specs.MemoryState.{DoorsState};

    ghost Value = { DoorsState O };

    ghost view = { λ doors. record {
      left = doors.links.items;
      port = doors.port;
      given = map (λ link. link.0.left) (take doors.at doors.all.value.items);
      failing = doors.failing.items;
      calls = doors.calls;
      faults = doors.faults;
    } };

    ghost invariant = { λ doors. (doors.links.items ≡ drop doors.at doors.all.value.items)
        × (doors.at ≤ length doors.all.value.items) };
}

impl<O: Sink + Drop> MemoryDoors<O> {
    /// Doors that give these links, each a source of what its client sends and the sink that
    /// answers it. No call was made yet. The calls whose numbers are in `failing` will fail, the
    /// first call being number 1, be it of `bind` or of `accept`.
    pub fn new(links: Vec<(MemorySource, O)>, failing: Vec<u64>) -> MemoryDoors<O>
        ensures { result ≡ record {
          left = links.items;
          port = None;
          given = [];
          failing = failing.items;
          calls = 0;
          faults = 0;
        } }
    {
        let links = VecDeque::from_vec(links);
        MemoryDoors {
            all: Snapshot::of(&links),
            links,
            at: 0,
            port: None,
            failing,
            calls: 0,
            faults: 0,
        }
    }

    /// How many calls failed.
    pub fn faults(&self) -> u64
        ensures { result ≡ self.now.faults }
    {
        self.faults
    }
}

impl<O: Sink + Send + Drop> Doors for MemoryDoors<O> {
    type In = MemorySource;

    type Out = O;

    ghost told = { λ doors. Some (record { port = doors.port; given = doors.given }) };

    ghost faults = { λ doors. doors.faults };

    /// It fails exactly where the number of the call is told.
    fn bind(&mut self, port: u16) -> Result<(), Failed>
        ensures cause { HasCause self.old.faults self.new.faults result }

        ensures exactly { IsErr result ↔ Contains self.old.failing self.new.calls }
        ensures ok { OnOk result (self.new ≡ record self.old {
          port = Some port;
          calls = one_more self.old.calls;
        }) }
        ensures err { OnErr result (self.new ≡ record self.old {
          calls = one_more self.old.calls;
          faults = one_more self.old.faults;
        }) }
    {
        self.calls = self.calls.saturating_add(1);
        if self.failing.contains(&self.calls) {
            self.faults = self.faults.saturating_add(1);
            return Err(Failed);
        }
        self.port = Some(port);
        Ok(())
    }

    /// It fails exactly where the number of the call is told or no link is left, and else gives the
    /// first link that is left.
    fn accept(&mut self) -> Result<(MemorySource, O), Failed>
        ensures cause { HasCause self.old.faults self.new.faults result }

        ensures exactly { IsErr result
            ↔ (Contains self.old.failing self.new.calls ⊎ (self.old.left ≡ [])) }
        ensures first { IfOk result (λ link. self.old.left ≡ link ∷ self.new.left) }
        ensures ok { IfOk result (λ link. self.new ≡ record self.old {
          left = self.new.left;
          given = self.old.given ++ link.0.left ∷ [];
          calls = one_more self.old.calls;
        }) }
        ensures err { OnErr result (self.new ≡ record self.old {
          calls = one_more self.old.calls;
          faults = one_more self.old.faults;
        }) }
    {
        self.calls = self.calls.saturating_add(1);
        if self.failing.contains(&self.calls) {
            self.faults = self.faults.saturating_add(1);
            return Err(Failed);
        }
        let Some(link) = self.links.pop_front() else {
            self.faults = self.faults.saturating_add(1);
            return Err(Failed);
        };
        self.at += 1;
        Ok(link)
    }
}
