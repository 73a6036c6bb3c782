//! Numbers kept by node.

ghost use Rattle.std.specs.Prelude.{◌≡◌, ◌≤◌, ℕ, [], ◌∷◌, ◌++◌, ◌==◌, if◌then◌else◌, Some, reverse, length, OnOk, OnErr, IfOk};
ghost use Rattle.std.specs.Ordering.{nat_cmp};
ghost use Rattle.std.specs.BTreeMap.{get};
ghost use Rattle.pickle_writing.specs.Numbers.{number_of, kept};
ghost use Rattle.pickle_writing.specs.Numbers;

use std::alloc::{AllocError, Global};
use std::collections::BTreeMap;
use std::marker::Model;

/// So many nodes of a graph stand for each number that is kept before there is a table of all nodes.
const NODES_FOR_A_NUMBER: usize = 64;

/// Where the numbers are found.
#[derive(Drop)]
pub(crate) enum Found {
    /// By node, while only a small part of the graph has numbers.
    Few(BTreeMap<u32, u64>),
    /// In a place for each node.
    Many(Vec<Option<u64>>),
}

/// Numbers, each kept for a node. Contracts see the nodes with their numbers, the newest first.
///
/// The time of a call doesn't grow with the graph, on average over all calls: a table of all nodes is made
/// once a certain part of them has numbers.
#[derive(Drop)]
pub(crate) struct NodeMap {
    found: Found,
    pairs: Vec<(u32, u64)>,
    nodes: usize,
}

impl Model for NodeMap {
    ghost use Rattle.std.specs.Prelude.{List, ℕ, ◌≡◌, reverse};
    ghost use Rattle.pickle_writing.specs.Numbers.{number_of, kept};

    ghost Value = { List (ℕ × ℕ) };

    ghost view = { λ map. reverse map.pairs.items };

    ghost invariant = { λ map. (node : ℕ) → kept map.found node ≡ number_of node (reverse map.pairs.items) };
}

/// Gives a table no fewer places, which hold what they held.
#[tactic(auto, using(crate::proofs::Tables::in_resize))]
fn widen(table: &mut Vec<Option<u64>>, places: usize) -> Result<(), AllocError>
    ensures places { OnOk result (places ≤ length table.new.items) }
    ensures same { OnOk result ((node : ℕ) → Numbers.number_in table.new.items node ≡ Numbers.number_in table.old.items node) }
{
    if places <= table.len() {
        return Ok(());
    }
    table.resize(places, None)?;
    Ok(())
}

/// Writes a number in the place of a node.
#[tactic(auto, using(crate::proofs::Tables::in_set))]
#[inline(always)]
fn write_number(table: &mut Vec<Option<u64>>, node: u32, number: u64) -> Result<(), AllocError>
    ensures { OnOk result
        ((m : ℕ) → Numbers.number_in table.new.items m ≡ (if node == m then Some number else Numbers.number_in table.old.items m)) }
{
    let place = node as usize;
    if place < table.len() {
        table[place] = Some(number);
        return Ok(());
    }
    widen(table, place + 1)?;
    table[place] = Some(number);
    Ok(())
}

/// The number in the place of a node.
#[tactic(auto, using(crate::proofs::Tables::in_some, crate::proofs::Tables::in_none))]
#[inline(always)]
fn number_in(table: &[Option<u64>], node: u32) -> Option<u64>
    ensures { result ≡ Numbers.number_in table.now node }
{
    match table.get(node as usize) {
        Some(number) => *number,
        None => None,
    }
}

/// The table of these nodes with their numbers, the oldest first.
fn table_of(
    alloc: Global,
    pairs: &[(u32, u64)],
    places: usize,
) -> Result<Vec<Option<u64>>, AllocError>
    ensures { IfOk result (λ table. (m : ℕ) → Numbers.number_in table.items m ≡ number_of m (reverse pairs.now)) }
{
    let mut table = Vec::new(alloc);
    widen(&mut table, places)?;
    for pair in pairs {
        write_number(&mut table, pair.0, pair.1)?;
    }
    Ok(table)
}

/// Keeps one more number in a map.
#[inline(always)]
fn insert_number(few: &mut BTreeMap<u32, u64>, node: u32, number: u64) -> Result<(), AllocError>
    ensures { OnOk result ((m : ℕ) → get nat_cmp few.new m ≡ (if node == m then Some number else get nat_cmp few.old m)) }
{
    few.insert(node, number)?;
    Ok(())
}

/// The table of these nodes with their numbers, the oldest first, and of one more.
#[inline(never)]
fn table_with(
    alloc: Global,
    pairs: &[(u32, u64)],
    places: usize,
    node: u32,
    number: u64,
) -> Result<Found, AllocError>
    ensures { IfOk result (λ more. (m : ℕ) → kept more m ≡ number_of m ((node, number) ∷ reverse pairs.now)) }
{
    let mut table = table_of(alloc, pairs, places)?;
    write_number(&mut table, node, number)?;
    Ok(Found::Many(table))
}

/// Keeps one more number, in a table once there are many.
#[inline(always)]
fn find(
    alloc: Global,
    found: &mut Found,
    pairs: &[(u32, u64)],
    nodes: usize,
    node: u32,
    number: u64,
) -> Result<(), AllocError>
    requires { (m : ℕ) → kept found.old m ≡ number_of m (reverse pairs.now) }
    ensures { OnOk result ((m : ℕ) → kept found.new m ≡ number_of m ((node, number) ∷ reverse pairs.now)) }
{
    match found {
        Found::Many(table) => write_number(table, node, number),
        Found::Few(few) => {
            if pairs.len() < nodes / NODES_FOR_A_NUMBER {
                return insert_number(few, node, number);
            }
            *found = table_with(alloc, pairs, nodes, node, number)?;
            Ok(())
        }
    }
}

/// Keeps one more number, and the pair of it and its node.
#[inline(always)]
fn keep(
    found: &mut Found,
    pairs: &mut Vec<(u32, u64)>,
    nodes: usize,
    node: u32,
    number: u64,
) -> Result<(), AllocError>
    requires { (m : ℕ) → kept found.old m ≡ number_of m (reverse pairs.old.items) }
    ensures found { OnOk result ((m : ℕ) → kept found.new m ≡ number_of m ((node, number) ∷ reverse pairs.old.items)) }
    ensures pairs { OnOk result (pairs.new.items ≡ pairs.old.items ++ (node, number) ∷ []) }
{
    find(
        *pairs.allocator(),
        found,
        pairs.as_slice(),
        nodes,
        node,
        number,
    )?;
    pairs.push((node, number))?;
    Ok(())
}

impl NodeMap {
    /// No numbers, of a graph of so many nodes.
    pub fn new(alloc: Global, nodes: usize) -> NodeMap
        ensures { result ≡ [] }
    {
        NodeMap {
            found: Found::Few(BTreeMap::new(alloc)),
            pairs: Vec::new(alloc),
            nodes,
        }
    }

    /// The number kept last for a node.
    #[inline(always)]
    pub fn get(&self, node: u32) -> Option<u64>
        ensures { result ≡ number_of node self.now }
    {
        match &self.found {
            Found::Few(few) => few.get(&node).copied(),
            Found::Many(table) => number_in(table.as_slice(), node),
        }
    }

    /// How many numbers were kept.
    pub fn len(&self) -> usize
        ensures { result ≡ length self.now }
    {
        self.pairs.len()
    }

    /// Keeps one more number, for a node. Where there is no memory, none is left.
    #[inline(always)]
    pub fn push(&mut self, node: u32, number: u64) -> Result<(), AllocError>
        ensures ok { OnOk result (self.new ≡ (node, number) ∷ self.old) }
        ensures err { OnErr result (self.new ≡ []) }
    {
        match keep(&mut self.found, &mut self.pairs, self.nodes, node, number) {
            Ok(()) => Ok(()),
            Err(e) => {
                *self = NodeMap::new(*self.pairs.allocator(), self.nodes);
                Err(e)
            }
        }
    }
}
