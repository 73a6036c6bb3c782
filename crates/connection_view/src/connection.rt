//! A connection, over any loads.

ghost use Rattle.std.specs.Prelude.{◌≡◌, ◌≢◌, ◌≤◌, ℕ, Err, IfErr, IfOk, IsOk, Ok, OnErr, OnOk, None, Some, false, true};
ghost use Rattle.zb_model.specs.declared.refusal.Refusal.{Refusal};
ghost use Rattle.zb_model.specs.declared.refusal.Refusal.TheVariants as refusal;
ghost use Rattle.connection_view.specs.Loading.{IsServerRefusal, Reads};
ghost use Rattle.connection_view.specs.Works.{Work};
ghost use Rattle.connection_view.specs.Views.{Client, View, renewed};
ghost use Rattle.connection_view.specs.Connections.{Between, InView, IsNewWork, IsFrontBy, IsReadBy, begin_refusal, work_of};

use crate::changing::opened;
use crate::loads::Loads;
use crate::named::{Named, forget};
use crate::reading::{Sight, read};
use crate::work::OpenWork;
use object_cache::ObjectCache;
use savepoints::Waiting;
use std::alloc::{AllocError, Global};
use zb_ids::{Oid, Text8, Tid};
use zb_model::Refusal;

/// How many objects a connection caches.
pub const CACHED_OBJECTS: usize = 400;

/// What a client keeps from turn to turn: its open transaction, if it has one, and the objects that it read last.
/// Which objects are cached no contract says: a read is answered from the view alone.
#[derive(Drop)]
pub struct Connection {
    pub(crate) alloc: Global,
    pub(crate) is_open: bool,
    pub(crate) work: Option<OpenWork>,
    /// What votes of the open transaction may change that were asked for.
    pub(crate) asked: Named,
    /// What news names that isn't yet applied to the cache.
    pub(crate) stale: Named,
    pub(crate) cache: ObjectCache,
}

impl Connection {
    /// An open connection without a transaction, with nothing cached. The one error is want of memory.
    pub fn new(alloc: Global) -> Result<Connection, AllocError>
        ensures open { IfOk result (λ k. work_of k ≡ Err refusal.NoTransaction) }
        ensures between { IfOk result (λ k. (c : Client) → ((oid : ℕ) → c.voted oid ≡ false) → Between k c) }
    {
        Ok(Connection {
            alloc,
            is_open: true,
            work: None,
            asked: Named::none(alloc),
            stale: Named::none(alloc),
            cache: ObjectCache::with_capacity(alloc, CACHED_OBJECTS)?,
        })
    }

    /// Closes the connection: each later call is refused `NotOpen`. Its transaction and all that is cached are dropped.
    /// Its session is closed by a step of its own.
    pub fn close(&mut self)
        ensures closed { work_of self.new ≡ Err refusal.NotOpen }
        ensures between { (c : Client) → ((oid : ℕ) → c.voted oid ≡ false) → Between self.new c }
    {
        self.clear();
        self.is_open = false;
    }

    /// Drops the open transaction, if there is one, and all that is cached; a closed connection stays closed. No call
    /// is made: this is for a client whose session is closed by a step of its own.
    #[tactic(auto, using(crate::proofs::Told::told_none))]
    pub fn clear(&mut self)
        ensures none { (work_of self.old ≢ Err refusal.NotOpen) → work_of self.new ≡ Err refusal.NoTransaction }
        ensures closed { work_of self.old ≡ Err refusal.NotOpen → work_of self.new ≡ Err refusal.NotOpen }
        ensures between { (c : Client) → ((oid : ℕ) → c.voted oid ≡ false) → Between self.new c }
    {
        self.work = None;
        self.stale = Named::none(self.alloc);
        self.cache.clear();
    }

    /// Begins a transaction: its view is the one that a front gives, and nothing of an older view is read in it. Its
    /// front is answered. `NotOpen` comes exactly where the connection is closed, then `InTransaction` where a
    /// transaction is open; other refusals are those of the front. After each the connection is as before.
    #[tactic(auto, using(crate::proofs::Told::view_of_told, crate::proofs::Told::begun_in, crate::proofs::Told::never_older))]
    pub fn begin<L: Loads>(&mut self, loads: &mut L) -> Result<Tid, Refusal>
        ensures front { IfOk result (λ front. (c : Client) → L.stands loads.old c
            → front ≡ (L.fresh loads.old c).front) }
        ensures never_older { IfOk result (λ front. (c : Client) → L.stands loads.old c → c.known.front ≤ front) }
        ensures begun { IfOk result (λ front. (w : Work) × (work_of self.new ≡ Ok w) × IsNewWork front w) }
        ensures view { OnOk result ((c : Client) → L.stands loads.old c → Between self.old c
            → InView self.new (L.fresh loads.old c) (renewed (L.fresh loads.old c) c)) }
        ensures stands { OnOk result ((c : Client) → L.stands loads.old c
            → L.stands loads.new (renewed (L.fresh loads.old c) c)) }
        ensures refused { (r : Refusal) → begin_refusal (work_of self.old) ≡ Some r
            → (result ≡ Err r) × (loads.new ≡ loads.old) }
        ensures makes { begin_refusal (work_of self.old) ≡ None → IsFrontBy L.makes loads.old loads.new result }
        ensures own { begin_refusal (work_of self.old) ≡ None → IfErr result IsServerRefusal }
        ensures err { OnErr result (self.new ≡ self.old) }
        ensures same { OnErr result ((c : Client) → L.stands loads.old c → L.stands loads.new c) }
        ensures state { L.told → L.state loads.new ≡ L.state loads.old }
        ensures place { L.place loads.new ≡ L.place loads.old }
    {
        if !self.is_open {
            return Err(Refusal::NotOpen);
        }
        if self.work.is_some() {
            return Err(Refusal::InTransaction);
        }
        let told = match loads.front() {
            Err(refusal) => return Err(refusal),
            Ok(told) => told,
        };
        self.stale.add_news(&told.news);
        forget(&mut self.cache, &self.stale);
        self.stale = Named::none(self.alloc);
        self.asked = Named::none(self.alloc);
        self.work = Some(OpenWork {
            front: told.front,
            switches: told.switches,
            waiting: Waiting::new(self.alloc),
            is_voted: false,
        });
        Ok(told.front)
    }

    /// Takes a front in the middle of a transaction, or where none is open, and answers its number. The view stays;
    /// the news is kept for the next `begin`. `NotOpen` comes exactly where the connection is closed; other refusals
    /// are those of the front. After each the connection is as before.
    #[tactic(auto, using(crate::proofs::Told::sees_delivered, crate::proofs::Told::told_delivered, crate::proofs::Told::never_older))]
    pub fn deliver<L: Loads>(&mut self, loads: &mut L) -> Result<Tid, Refusal>
        ensures front { IfOk result (λ front. (c : Client) → L.stands loads.old c
            → front ≡ (L.fresh loads.old c).front) }
        ensures never_older { IfOk result (λ front. (c : Client) → L.stands loads.old c → c.known.front ≤ front) }
        ensures view { OnOk result ((u : View) (c : Client) → L.stands loads.old c → InView self.old u c
            → InView self.new u (renewed (L.fresh loads.old c) c)) }
        ensures between { OnOk result ((c : Client) → L.stands loads.old c → Between self.old c
            → Between self.new (renewed (L.fresh loads.old c) c)) }
        ensures stands { OnOk result ((c : Client) → L.stands loads.old c
            → L.stands loads.new (renewed (L.fresh loads.old c) c)) }
        ensures refused { work_of self.old ≡ Err refusal.NotOpen
            → (result ≡ Err refusal.NotOpen) × (loads.new ≡ loads.old) }
        ensures makes { (work_of self.old ≢ Err refusal.NotOpen) → IsFrontBy L.makes loads.old loads.new result }
        ensures own { IfErr result IsServerRefusal }
        ensures work { work_of self.new ≡ work_of self.old }
        ensures err { OnErr result (self.new ≡ self.old) }
        ensures same { OnErr result ((c : Client) → L.stands loads.old c → L.stands loads.new c) }
        ensures state { L.told → L.state loads.new ≡ L.state loads.old }
        ensures place { L.place loads.new ≡ L.place loads.old }
    {
        if !self.is_open {
            return Err(Refusal::NotOpen);
        }
        let told = match loads.front() {
            Err(refusal) => return Err(refusal),
            Ok(told) => told,
        };
        let news = &told.news;
        self.stale.add_news(news);
        Ok(told.front)
    }

    /// The serial and the bytes that an object has in the view of the open transaction, whatever waits there.
    /// `NotOpen` and `NoTransaction` come exactly where the connection is closed and where no transaction is open.
    /// `Missing` with `false` says that the view has nothing of the object, and with `true` that a pack was made since
    /// and that the list has nothing of it there any more; other refusals are those of a load, or want of memory.
    pub fn load<L: Loads>(&mut self, loads: &mut L, oid: Oid) -> Result<(Tid, Text8), Refusal>
        ensures reads { (u : View) (c : Client) → L.stands loads.old c → InView self.old u c
            → Reads u (L.state loads.old) oid result }
        ensures view { (u : View) (c : Client) → L.stands loads.old c → InView self.old u c → InView self.new u c }
        ensures between { (c : Client) → Between self.old c → Between self.new c }
        ensures stands { (c : Client) → L.stands loads.old c → L.stands loads.new c }
        ensures refused { (r : Refusal) → work_of self.old ≡ Err r → (result ≡ Err r) × (loads.new ≡ loads.old) }
        ensures makes { (w : Work) → work_of self.old ≡ Ok w
            → IsReadBy L.makes loads.old loads.new oid w.front w.switches result }
        ensures work { work_of self.new ≡ work_of self.old }
        ensures state { L.told → L.state loads.new ≡ L.state loads.old }
        ensures place { L.place loads.new ≡ L.place loads.old }
    {
        let sight = match self.sight() {
            Err(refusal) => return Err(refusal),
            Ok(sight) => sight,
        };
        read(&mut self.cache, loads, &sight, oid)
    }

    /// Whether a transaction is open.
    pub fn is_in_transaction(&self) -> bool
        ensures yes { result ≡ true → (w : Work) × (work_of self.now ≡ Ok w) }
        ensures no { result ≡ false → (r : Refusal) × (work_of self.now ≡ Err r) }
    {
        self.sight().is_ok()
    }

    /// Where the open transaction sees from.
    pub(crate) fn sight(&self) -> Result<Sight, Refusal>
        ensures ok { IfOk result (λ sight. (w : Work) × (work_of self.now ≡ Ok w) × (sight.front ≡ w.front)
            × (sight.switches ≡ w.switches)) }
        ensures err { IfErr result (λ r. work_of self.now ≡ Err r) }
    {
        let work = opened(self.is_open, &self.work)?;
        Ok(Sight {
            front: work.front,
            switches: work.switches,
        })
    }
}
