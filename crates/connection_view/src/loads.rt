//! Where a connection reads from and commits to.

use zb_ids::{ListOf, Oid, Text8, Tid};
use zb_model::{News, PendingCheck, PendingStore, Refusal};

/// What a front answers.
#[derive(Debug, Drop)]
pub struct FrontView {
    /// The tid after the newest one of the view that it gives.
    pub front: Tid,
    /// What happened since the front before it.
    pub news: News,
    /// How often the list of the view had been packed.
    pub switches: u64,
}

/// What a load answers.
#[derive(Debug, Drop)]
pub enum Loaded {
    /// What the object has below the front.
    Held {
        /// The serial of its last revision there.
        serial: Tid,
        /// The bytes of that revision, which are never empty.
        bytes: Text8,
    },
    /// The list has nothing of the object below the front.
    Nothing {
        /// How often it was packed by now.
        switches: u64,
    },
}

/// The calls of one client on its session, for one turn. Contracts speak of every client that may be the one at
/// this end, with all that it was told; each call says which client that is afterwards.
pub trait Loads {
    ghost use Rattle.std.specs.Prelude.{◌≡◌, ◌<◌, ◌≤◌, ◌+◌, ◌++◌, ◌∷◌, [], ℕ, None, Some, IfOk, IfErr, OnOk, OnErr, MatchOption};
    ghost use Rattle.zb_model.specs.declared.data.Transaction.{Transaction};
    ghost use Rattle.connection_view.specs.Views.{Client, Later, Server, View, committed, each_object, renewed, stored_in, unvoted, view_of, voting};
    ghost use Rattle.connection_view.specs.Loading.{AreVotable, IsFront, IsLoaded, IsNothingDone, IsServerRefusal, IsShortText, LoadsCall};
    ghost use Rattle.connection_view.specs.Loading.{Abort, Finish, Front, Load, NewOid, Undo, Vote};

    /// A fact where loads of this type tell what stands at their other end.
    ghost told: { Type 0 };

    /// What stands at the other end, where it is told.
    ghost state: { Self → Server };

    /// This client may be the one at this end; where nothing is told, none may.
    ghost stands: { Self → Client → Type 0 };

    /// The view that a front gives to this client now.
    ghost fresh: { Self → Client → View };

    /// Whose loads these are, and where what they borrow lies: for callers who have that back.
    ghost Place: { Type 0 };

    ghost place: { Self → Place };

    /// These loads may make this call, be answered so, and be left so.
    ghost makes: { Self → LoadsCall → Self → Type 0 };

    /// A front: the view that is fresh now, and the news since the front before. The client is told of it.
    fn front(&mut self) -> Result<FrontView, Refusal>
        ensures front { IfOk result (λ r. (c : Client) → stands self.old c → IsFront c (fresh self.old c) r) }
        ensures renewed { OnOk result ((c : Client) → stands self.old c
            → stands self.new (renewed (fresh self.old c) c)) }
        ensures same { OnErr result ((c : Client) → stands self.old c → stands self.new c) }
        ensures refusal { IfErr result IsServerRefusal }
        ensures state { told → state self.new ≡ state self.old }
        ensures makes { makes self.old (Front result) self.new }
        ensures place { place self.new ≡ place self.old };

    /// What an object has below a front, which is not above that of the view that the client was told of. Nothing
    /// is changed.
    fn load(&mut self, oid: Oid, front: Tid) -> Result<Loaded, Refusal>
        ensures loaded { IfOk result (λ r. (c : Client) → stands self.old c → front ≤ c.told.front
            → IsLoaded oid front c.told (state self.old) r) }
        ensures same { (c : Client) → stands self.old c → stands self.new c }
        ensures refusal { IfErr result IsServerRefusal }
        ensures state { told → state self.new ≡ state self.old }
        ensures makes { makes self.old (Load oid front result) self.new }
        ensures place { place self.new ≡ place self.old };

    /// A number that no object had in the list at any moment and that was never handed out.
    fn new_oid(&mut self) -> Result<Oid, Refusal>
        ensures ok { IfOk result (λ oid. told → (oid ≡ (state self.old).greatest + 1)
            × (state self.new ≡ record (state self.old) { greatest = oid })) }
        ensures err { OnErr result (told → state self.new ≡ state self.old) }
        ensures same { (c : Client) → stands self.old c → stands self.new c }
        ensures refusal { IfErr result IsServerRefusal }
        ensures makes { makes self.old (NewOid result) self.new }
        ensures place { place self.new ≡ place self.old };

    /// Votes on stores, deletes and checks, which are given away: their bytes may go on without being copied, and where
    /// the vote is refused, they are dropped. The session may hold a vote on them all the same, if the way to the server
    /// failed.
    fn vote(
        &mut self,
        user: &Text8,
        description: &Text8,
        stores: ListOf<PendingStore>,
        checks: ListOf<PendingCheck>,
    ) -> Result<(), Refusal>
        requires user { IsShortText user.now }
        requires description { IsShortText description.now }
        requires stores { AreVotable stores }
        ensures voted { (c : Client) → stands self.old c → stands self.new (voting (stored_in stores) c) }
        ensures refusal { IfErr result IsServerRefusal }
        ensures state { told → state self.new ≡ state self.old }
        ensures makes { makes self.old (Vote user.now description.now stores checks result) self.new }
        ensures place { place self.new ≡ place self.old };

    /// Votes on undoing transactions. What that changes, no contract says.
    fn undo(&mut self, user: &Text8, description: &Text8, tids: &[Tid]) -> Result<(), Refusal>
        requires user { IsShortText user.now }
        requires description { IsShortText description.now }
        ensures voted { (c : Client) → stands self.old c → stands self.new (voting each_object c) }
        ensures refusal { IfErr result IsServerRefusal }
        ensures state { told → state self.new ≡ state self.old }
        ensures makes { makes self.old (Undo user.now description.now tids.now result) self.new }
        ensures place { place self.new ≡ place self.old };

    /// Commits what is voted, and answers its tid, or `None` where there was nothing to write. After a refusal for
    /// which the list may have it all the same, nothing is promised of a client any more.
    fn finish(&mut self) -> Result<Option<Tid>, Refusal>
        ensures committed { IfOk result (λ tid. MatchOption tid
            ((c : Client) → stands self.old c → stands self.new (unvoted c))
            (λ tid. (c : Client) → stands self.old c → stands self.new (committed (view_of (state self.new)) c))) }
        ensures list { IfOk result (λ tid. told → MatchOption tid (state self.new ≡ state self.old)
            (λ tid. (t : Transaction) × (t.tid ≡ tid) × ((state self.new).list ≡ (state self.old).list ++ t ∷ []))) }
        ensures same { IfErr result (λ r. IsNothingDone r → (c : Client) → stands self.old c → stands self.new c) }
        ensures refusal { IfErr result IsServerRefusal }
        ensures makes { makes self.old (Finish result) self.new }
        ensures place { place self.new ≡ place self.old };

    /// Drops the vote, if the session holds one.
    fn abort(&mut self) -> Result<(), Refusal>
        ensures unvoted { OnOk result ((c : Client) → stands self.old c → stands self.new (unvoted c)) }
        ensures same { OnErr result ((c : Client) → stands self.old c → stands self.new c) }
        ensures refusal { IfErr result IsServerRefusal }
        ensures state { told → state self.new ≡ state self.old }
        ensures makes { makes self.old (Abort result) self.new }
        ensures place { place self.new ≡ place self.old };

    /// What stands at the other end is the list of the view that the client was told of, as it became by commits and
    /// packs since.
    ghost told_before: { (loads : Self) (c : Client) → stands loads c → Later c.told (view_of (state loads)) };
}
