//! The store in memory.

ghost use Rattle.std.specs.Prelude.{◌≡◌, ◌+◌, ◌<◌, ◌^◌, ◌++◌, ◌∷◌, [], None, false, length, vec_len, vec_capacity, IfOk};
ghost use Rattle.std.specs.List.{sum_by};
ghost use Rattle.std.specs.Option.{ForSome};
ghost use Rattle.zb_model.specs.Database.{IsDatabase};
ghost use Rattle.zb_model.specs.DatabaseLaws.{ForSome-IsDatabase-prop, IsDatabase-prop};

use crate::gathering::{gather_history, gather_undo_log, gather_undo_log_before};
use crate::making::{copy_of, copy_of_change, find_below, make_voted};
use crate::packing::{copied_length, count_changes, pack_list};
use crate::walks::{count_to, first_above, greatest_oid_of, pack_point_of, transaction_with};
use std::alloc::{AllocError, Global};
use zb_ids::{ListOf, Oid, Tid};
use zb_model::{
    Change, Copied, Found, LogLine, NewTransaction, OidSet, Packed, Revision, Store, StoreError,
    Transaction, newest_of, serial_in,
};
use zb_volume::StoreFault;

/// A pack that is begun: how far it goes, and what is copied of the packed list.
#[derive(Drop)]
pub struct Begun {
    tid: Tid,
    copied: ListOf<Transaction>,
}

/// A store that keeps the plain list of its transactions. Each call goes over the whole list. It is in
/// memory alone: no call of it answers a fault, and nothing of it outlives a crash.
///
/// A list has fewer than 2^64 changes. A vote that would pass that is refused for want of memory.
#[derive(Drop)]
pub struct MappingStore {
    items: Vec<Transaction>,
    /// How many changes the list has.
    count: u64,
    voted: Option<Transaction>,
    begun: Option<Begun>,
    ghost database: { IsDatabase items.items } by { IsDatabase-prop items.items },
    ghost counted: { sum_by (λ t. length t.changes) items.items ≡ count },
    ghost bounded: { count < 2 ^ 64 },
    ghost voted_room: { ForSome voted (λ _. vec_len items < vec_capacity items) },
    ghost voted_database: { ForSome voted (λ t. IsDatabase (items.items ++ t ∷ [])) } by { ForSome-IsDatabase-prop voted (λ t. items.items ++ t ∷ []) },
    ghost voted_counted: { ForSome voted (λ t. count + length t.changes < 2 ^ 64) },
}

impl MappingStore {
    /// A store that has this transaction, with nothing voted. The one error is want of memory.
    pub fn new(alloc: Global, first: Transaction) -> Result<MappingStore, AllocError>
        requires { IsDatabase (first ∷ []) }
        ensures list { IfOk result (λ s. (⟦<MappingStore as Store>⟧.state s).list ≡ first ∷ []) }
        ensures voted { IfOk result (λ s. (⟦<MappingStore as Store>⟧.state s).voted ≡ None) }
        ensures begun { IfOk result (λ s. (⟦<MappingStore as Store>⟧.state s).begun ≡ None) }
        ensures broken { IfOk result (λ s. (⟦<MappingStore as Store>⟧.state s).broken ≡ false) }
    {
        let count = first.changes.len() as u64;
        let mut items = Vec::new(alloc);
        items.push(first)?;
        Ok(MappingStore {
            items,
            count,
            voted: None,
            begun: None,
        })
    }

    /// The transactions, the oldest first, where they stand.
    pub fn list(&self) -> &[Transaction]
        ensures { result.now ≡ (⟦<MappingStore as Store>⟧.state self.now).list }
    {
        self.items.as_slice()
    }
}

impl Store for MappingStore {
    ghost use Rattle.std.specs.Prelude.{[], false};
    ghost use Rattle.std.specs.Option.{option_map};
    ghost use Rattle.zb_model.specs.Database.{newest_tid};

    ghost told = { Unit {0} };

    ghost lasts = { ⊥ };

    ghost stands = { λ _ _. ⊥ };

    ghost state = { λ store. record {
      list = store.items.items;
      voted = store.voted;
      begun = option_map (λ b. record { tid = b.tid; copied = b.copied }) store.begun;
      newest = newest_tid store.items.items;
      broken = false;
      log = [];
      faults = 0;
      read_faults = 0;
    } };

    ghost database = { λ store _ _. store.database };

    ghost lasting = { λ store lasts. absurd lasts };

    fn newest(&self) -> Tid {
        newest_of(self.items.as_slice())
    }

    fn pack_point(&self) -> Tid {
        pack_point_of(self.items.as_slice())
    }

    fn greatest_oid(&self) -> Oid {
        greatest_oid_of(self.items.as_slice())
    }

    fn serial_of(&self, oid: Oid) -> Tid {
        serial_in(self.items.as_slice(), oid)
    }

    fn changes_to(&self, tid: Tid) -> u64 {
        count_to(self.items.as_slice(), tid)
    }

    fn first_tid_after(&self, tid: Tid) -> Option<Tid> {
        match first_above(self.items.as_slice(), tid) {
            Some(transaction) => Some(transaction.tid),
            None => None,
        }
    }

    fn load_before(&mut self, _alloc: Global, oid: Oid, front: Tid) -> Result<Found, StoreError> {
        let found = find_below(self.items.as_slice(), oid, front)?;
        Ok(found)
    }

    fn transaction(&mut self, _alloc: Global, tid: Tid) -> Result<Option<Transaction>, StoreError> {
        let found = copy_of(transaction_with(self.items.as_slice(), tid))?;
        Ok(found)
    }

    fn after(&mut self, _alloc: Global, tid: Tid) -> Result<Option<Transaction>, StoreError> {
        let found = copy_of(first_above(self.items.as_slice(), tid))?;
        Ok(found)
    }

    fn change_at(
        &mut self,
        _alloc: Global,
        tid: Tid,
        number: u64,
    ) -> Result<Option<Change>, StoreError> {
        let found = copy_of_change(transaction_with(self.items.as_slice(), tid), number)?;
        Ok(found)
    }

    fn history(&mut self, alloc: Global, oid: Oid) -> Result<ListOf<Revision>, StoreError> {
        let lines = gather_history(alloc, self.items.as_slice(), oid)?;
        Ok(ListOf::from_vec(lines))
    }

    fn undo_log(&mut self, alloc: Global) -> Result<ListOf<LogLine>, StoreError> {
        let lines = gather_undo_log(alloc, self.items.as_slice())?;
        Ok(ListOf::from_vec(lines))
    }

    fn undo_log_before(
        &mut self,
        alloc: Global,
        below: Tid,
        count: u64,
    ) -> Result<ListOf<LogLine>, StoreError> {
        let lines = gather_undo_log_before(alloc, self.items.as_slice(), below, count)?;
        Ok(ListOf::from_vec(lines))
    }

    #[tactic(auto, using(zb_model::specs::VotingLaws::voted_database))]
    fn vote(&mut self, alloc: Global, new: &NewTransaction) -> Result<(), StoreError> {
        let voted = make_voted(alloc, self.items.as_slice(), new)?;
        let Some(_) = self.count.checked_add(voted.changes.len() as u64) else {
            return Err(StoreError::Memory);
        };
        self.items.reserve(1)?;
        self.voted = Some(voted);
        Ok(())
    }

    #[tactic(auto, using(crate::proofs::Votes::pushed))]
    fn finish(&mut self) -> Result<(), StoreFault> {
        if let Some(voted) = self.voted.take() {
            self.count += voted.changes.len() as u64;
            let _ = self.items.push(voted);
        }
        Ok(())
    }

    fn abort(&mut self) -> Result<(), StoreFault> {
        self.voted = None;
        Ok(())
    }

    fn pack_begin(&mut self, alloc: Global, tid: Tid) -> Result<(), StoreError> {
        self.begun = Some(Begun {
            tid,
            copied: ListOf::new(alloc),
        });
        Ok(())
    }

    fn pack_copy(&mut self, alloc: Global, keep: &OidSet) -> Result<Copied, StoreError> {
        let (tid, first) = match self.begun.take() {
            Some(begun) => (begun.tid, begun.copied.len()),
            None => (Tid(0), 0),
        };
        let mut packed = pack_list(alloc, self.items.as_slice(), tid, keep)?;
        let length = copied_length(packed.as_slice(), first);
        let whole = length == packed.len();
        packed.truncate(length);
        let count = count_changes(packed.as_slice());
        self.begun = Some(Begun {
            tid,
            copied: ListOf::from_vec(packed),
        });
        Ok(Copied { count, whole })
    }

    fn pack_switch(&mut self, alloc: Global, keep: &OidSet) -> Result<Packed, StoreError> {
        let tid = match self.begun.take() {
            Some(begun) => begun.tid,
            None => Tid(0),
        };
        let packed = pack_list(alloc, self.items.as_slice(), tid, keep)?;
        let kept = count_changes(packed.as_slice());
        let dropped = self.count - kept;
        self.items = packed;
        self.count = kept;
        Ok(Packed { kept, dropped })
    }

    fn pack_drop(&mut self) {
        self.begun = None;
    }
}
