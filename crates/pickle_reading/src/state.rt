//! What a reader keeps.

ghost use Rattle.std.specs.Prelude.{◌≡◌, ◌<◌, ◌≤◌, [], ◌∷◌, ◌++◌, length, slice_get, slice_set, OnOk, OnErr, IfOk, MatchOption, Some, None};
ghost use Rattle.std.specs.Option.{option_copied};
ghost use Rattle.pickle_reading.specs.Stacks.{top_of, above_mark, top_values, values_taken, put_at, node_at};

use std::alloc::{AllocError, AllocFailed, Global};
use std::collections::BTreeMap;
use std::marker::Model;
use std::mem;
use zb_ids::ListOf;

/// What stands on the stack.
#[derive(Clone, Copy)]
pub enum Item {
    /// The number of a node.
    Value(u32),
    /// A mark, below which a token leaves what is there.
    Mark,
}

/// Which values a token takes from the stack.
#[derive(Clone, Copy)]
pub enum Extent {
    /// Those above the last mark, and the mark.
    Marked,
    /// So many from the top.
    Top(usize),
}

/// The stack. Contracts see it with its top first.
#[derive(Drop)]
pub struct Stack {
    items: Vec<Item>,
}

impl Model for Stack {
    ghost use Rattle.std.specs.Prelude.{List, reverse};
    ghost use Rattle.pickle_reading.specs.declared.state.Item.{Item};

    ghost Value = { List Item };

    ghost view = { λ s. reverse s.items.items };
}

impl Stack {
    /// The empty stack.
    pub fn new(alloc: Global) -> Stack
        ensures { result ≡ [] }
    {
        Stack {
            items: Vec::new(alloc),
        }
    }

    /// Puts an item on the top.
    pub fn push(&mut self, item: Item) -> Result<(), AllocError>
        ensures ok { OnOk result (self.new ≡ item ∷ self.old) }
        ensures err { OnErr result (self.new ≡ self.old) }
    {
        self.items.push(item)?;
        Ok(())
    }

    /// Takes the item on the top.
    pub fn pop(&mut self) -> Option<Item>
        ensures { MatchOption result ((self.old ≡ []) × (self.new ≡ [])) (λ item. self.old ≡ item ∷ self.new) }
    {
        self.items.pop()
    }

    /// The item on the top.
    pub fn top(&self) -> Option<Item>
        ensures { result ≡ top_of self.now }
    {
        self.items.last().copied()
    }

    /// Takes the values above the last mark, the lowest first, and the mark.
    fn pop_to_mark(&mut self, alloc: Global) -> Result<Option<ListOf<u32>>, AllocError>
        ensures { IfOk result (λ popped. MatchOption popped (above_mark self.old [] ≡ None)
            (λ values. above_mark self.old [] ≡ Some (values, self.new))) }
    {
        let mut values: Vec<u32> = Vec::new(alloc);
        while let Some(item) = self.pop() {
            match item {
                Item::Mark => {
                    values.reverse();
                    return Ok(Some(ListOf::from_vec(values)));
                }
                Item::Value(value) => values.push(value)?,
            }
        }
        Ok(None)
    }

    /// Takes so many values from the top, the lowest first.
    fn pop_values(&mut self, alloc: Global, count: usize) -> Result<Option<ListOf<u32>>, AllocError>
        ensures { IfOk result (λ popped. MatchOption popped (top_values count self.old [] ≡ None)
            (λ values. top_values count self.old [] ≡ Some (values, self.new))) }
    {
        let mut values: Vec<u32> = Vec::new(alloc);
        let mut left = count;
        while left > 0 {
            let Some(Item::Value(value)) = self.pop() else {
                return Ok(None);
            };
            values.push(value)?;
            left -= 1;
        }
        values.reverse();
        Ok(Some(ListOf::from_vec(values)))
    }

    /// Takes the values of an extent, the lowest first, or answers `None` where there are too few.
    /// Nothing is said of what is left then, or where there is no memory.
    pub fn take(&mut self, alloc: Global, extent: Extent) -> Result<Option<ListOf<u32>>, AllocError>
        ensures { IfOk result (λ popped. MatchOption popped (values_taken extent self.old ≡ None)
            (λ values. values_taken extent self.old ≡ Some (values, self.new))) }
    {
        match extent {
            Extent::Marked => self.pop_to_mark(alloc),
            Extent::Top(count) => self.pop_values(alloc, count),
        }
    }
}

/// The nodes that were put, by their numbers. Contracts see the pairs of a number and a node in the
/// order of the numbers.
#[derive(Drop)]
pub struct Memo {
    /// Those under the numbers from 0 on, which were put in this order.
    first: Vec<u32>,
    /// Those under other numbers.
    pairs: BTreeMap<u64, u32>,
}

impl Model for Memo {
    ghost use Rattle.std.specs.Prelude.{List, ℕ, ◌++◌};
    ghost use Rattle.pickle_reading.specs.Stacks.{numbered_from};

    ghost Value = { List (ℕ × ℕ) };

    ghost view = { λ memo. numbered_from 0 memo.first.items ++ memo.pairs.entries };
}

impl Memo {
    /// The memo in which nothing was put.
    pub fn new(alloc: Global) -> Memo
        ensures { result ≡ [] }
    {
        Memo {
            first: Vec::new(alloc),
            pairs: BTreeMap::new(alloc),
        }
    }

    /// Puts a node under a number, in place of what stood there. Nothing is said of the memo where
    /// there is no memory.
    #[inline(always)]
    #[tactic(auto, using(crate::proofs::Memos::put_below, crate::proofs::Memos::put_next, crate::proofs::Memos::put_above))]
    pub fn put(&mut self, number: u64, node: u32) -> Result<(), AllocError>
        ensures { OnOk result (self.new ≡ put_at self.old number node) }
    {
        let count = self.first.len() as u64;
        if number < count {
            self.first[number as usize] = node;
            return Ok(());
        }
        if number == count && self.pairs.is_empty() {
            self.first.push(node)?;
            return Ok(());
        }
        self.pairs.insert(number, node)?;
        Ok(())
    }

    /// The node that was put under a number last.
    #[inline(always)]
    #[tactic(auto, using(crate::proofs::Memos::get_below, crate::proofs::Memos::get_above))]
    pub fn get(&self, number: u64) -> Option<u32>
        ensures { result ≡ node_at self.now number }
    {
        if number < self.first.len() as u64 {
            return Some(self.first[number as usize]);
        }
        self.pairs.get(&number).copied()
    }
}

/// A node is expected for each so many bytes of a pickle.
const BYTES_FOR_A_NODE: usize = 8;

/// Room is made for no more nodes than these before the first token.
const MOST_ROOM: usize = 32_768;

/// For how many nodes room is made before the first token, where so many bytes are left.
pub fn first_room(bytes: usize) -> usize
    ensures { result ≤ 32_768 }
{
    (bytes / BYTES_FOR_A_NODE).min(MOST_ROOM)
}

/// What is kept of the nodes so far, by number.
#[derive(Drop)]
pub struct NodeTable<L> {
    items: Vec<L>,
}

impl<L> Model for NodeTable<L> {
    ghost use Rattle.std.specs.Prelude.{List};

    ghost Value = { List L };

    ghost view = { λ nodes. nodes.items.items };
}

impl<L: Drop> NodeTable<L> {
    /// No nodes, with room for so many where there is memory for it.
    pub fn new(alloc: Global, room: usize) -> NodeTable<L>
        ensures { result ≡ [] }
    {
        let mut items = Vec::new(alloc);
        let _ = items.reserve(room);
        NodeTable { items }
    }

    /// These nodes, with room for so many more where there is memory for it.
    pub fn from_list(nodes: ListOf<L>, room: usize) -> NodeTable<L>
        ensures { result ≡ nodes }
    {
        let mut items = nodes.into_vec();
        let _ = items.reserve(room);
        NodeTable { items }
    }

    /// The same nodes, with room for so many more where there is memory for it.
    pub fn widened(self, room: usize) -> NodeTable<L>
        ensures { result ≡ self }
    {
        let NodeTable { mut items } = self;
        let _ = items.reserve(room);
        NodeTable { items }
    }

    /// How many nodes there are.
    pub fn len(&self) -> usize
        ensures { result ≡ length self.now }
    {
        self.items.len()
    }

    /// What is kept of the node of a number.
    pub fn get(&self, number: u32) -> Option<&L>
        ensures { option_copied result ≡ slice_get self.now number }
    {
        self.items.get(number as usize)
    }

    /// Puts a node at the end, whose number is how many there were.
    pub fn push(&mut self, node: L) -> Result<(), AllocFailed<L>>
        ensures { OnOk result (self.new ≡ self.old ++ node ∷ []) }
    {
        self.items.push(node)
    }

    /// Puts a node in the place of another, and gives that one back.
    pub fn replace(&mut self, number: u32, node: L) -> L
        requires { number < length self.old }
        ensures old { slice_get self.old number ≡ Some result }
        ensures new { self.new ≡ slice_set self.old number node }
    {
        mem::replace(&mut self.items[number as usize], node)
    }

    /// The list of the nodes.
    pub fn into_list(self) -> ListOf<L>
        ensures { result ≡ self }
    {
        let NodeTable { items } = self;
        ListOf::from_vec(items)
    }
}

/// What is kept of the nodes so far, the stack and the memo. No more nodes than the limit are made.
#[derive(Drop)]
pub struct State<L> {
    pub limit: u32,
    pub nodes: NodeTable<L>,
    pub stack: Stack,
    pub memo: Memo,
}

impl<L: Drop> State<L> {
    /// The state before the first token, with room for so many nodes.
    pub fn new(alloc: Global, limit: u32, room: usize) -> State<L>
        ensures limit { result.limit ≡ limit }
        ensures nodes { result.nodes ≡ [] }
        ensures stack { result.stack ≡ [] }
        ensures memo { result.memo ≡ [] }
    {
        State {
            limit,
            nodes: NodeTable::new(alloc, room),
            stack: Stack::new(alloc),
            memo: Memo::new(alloc),
        }
    }

    /// The state of the next pickle's reader before its first token, behind one that left these
    /// nodes and this memo.
    pub fn behind(alloc: Global, limit: u32, nodes: NodeTable<L>, memo: Memo) -> State<L>
        ensures limit { result.limit ≡ limit }
        ensures nodes { result.nodes ≡ nodes }
        ensures stack { result.stack ≡ [] }
        ensures memo { result.memo ≡ memo }
    {
        State {
            limit,
            nodes,
            stack: Stack::new(alloc),
            memo,
        }
    }
}
