//! Objects to put, in their order.

ghost use Rattle.std.specs.Prelude.{◌≡◌, ◌++◌, ◌∷◌, [], ◌≤◌, ◌<◌, Some, slice_get, length, OnOk, IfOk, MatchOption};
ghost use Rattle.btree_putting.specs.Puts.{add_put, put_place, sort_puts};

use btree_shapes::{Node, Shared};
use pickle_graph::Pickle;
use std::alloc::{AllocError, Global};
use std::collections::VecDeque;
use std::marker::Model;
use zb_ids::Oid;

/// An object that is put: its number, its class, whether its children are leaves, and what it
/// holds.
#[derive(Drop)]
pub struct Put {
    pub oid: Oid,
    pub class: Shared<Pickle>,
    pub leaves: bool,
    pub node: Node,
}

/// Objects to put, in order.
#[derive(Drop)]
pub struct Puts {
    list: VecDeque<Put>,
}

impl Model for Puts {
    ghost use Rattle.std.specs.Prelude.{List};
    ghost use Rattle.btree_putting.specs.declared.puts.Put.{Put};

    ghost Value = { List Put };

    ghost view = { λ puts. puts.list.items };
}

impl Puts {
    /// Nothing to put.
    pub fn new(alloc: Global) -> Puts
        ensures { result ≡ [] }
    {
        Puts {
            list: VecDeque::new(alloc),
        }
    }

    /// How many there are.
    pub fn len(&self) -> usize
        ensures { result ≡ length self.now }
    {
        self.list.len()
    }

    /// One more behind the others.
    pub fn push(&mut self, put: Put) -> Result<(), AllocError>
        ensures { OnOk result (self.new ≡ self.old ++ put ∷ []) }
    {
        self.list.push_back(put)?;
        Ok(())
    }

    /// The last one leaves.
    fn pop(&mut self) -> Option<Put>
        ensures { MatchOption result ((self.old ≡ []) × (self.new ≡ []))
            (λ put. self.old ≡ self.new ++ put ∷ []) }
    {
        self.list.pop_back()
    }

    /// The first one leaves.
    pub(crate) fn take(&mut self) -> Option<Put>
        ensures { MatchOption result ((self.old ≡ []) × (self.new ≡ []))
            (λ put. self.old ≡ put ∷ self.new) }
    {
        self.list.pop_front()
    }

    /// The one at a place.
    pub fn at(&self, place: usize) -> &Put
        requires { place < length self.now }
        ensures { slice_get self.now place ≡ Some result.now }
    {
        &self.list[place]
    }

    /// How many at the front have smaller numbers.
    fn place_of(&self, oid: Oid) -> usize
        ensures is { result ≡ put_place oid self.now }
        ensures within { result ≤ length self.now }
    {
        let mut place = 0;
        'places: while place < self.list.len() {
            if self.list[place].oid.0 >= oid.0 {
                return place;
            }
            place += 1;
        }
        place
    }

    /// One more, before all whose numbers aren't smaller.
    #[tactic(auto, using(crate::proofs::Sorting::add_at))]
    fn add(&mut self, put: Put) -> Result<(), AllocError>
        ensures { OnOk result (self.new ≡ add_put put self.old) }
    {
        let place = self.place_of(put.oid);
        self.list.insert(place, put)?;
        Ok(())
    }
}

/// All in rising order of their numbers, of several with one number the new ones first.
#[tactic(auto, using(crate::proofs::Sorting::add_all_last, crate::proofs::Sorting::add_all_append))]
pub fn in_order(alloc: Global, news: Puts, olds: Puts) -> Result<Puts, AllocError>
    ensures { IfOk result (λ puts. puts ≡ sort_puts (news ++ olds)) }
{
    let mut news = news;
    let mut olds = olds;
    let mut all = Puts::new(alloc);
    'olds: while let Some(put) = olds.pop() {
        all.add(put)?;
    }
    'news: while let Some(put) = news.pop() {
        all.add(put)?;
    }
    Ok(all)
}
