//! Commits that overtake a pack.

ghost use Rattle.std.specs.Prelude.{◌≡◌, List, false};
ghost use Rattle.std.specs.Option.{option_or};
ghost use Rattle.zb_model.specs.declared.data.Transaction.{Transaction};
ghost use Rattle.zb_model.specs.Stores.{IsOnlyRead};
ghost use Rattle.pack_reach.specs.Marking.{HasGrown, IsMarkedWhole, KeepsMarks, MayMark};
ghost use Rattle.pack_reach.specs.Late.{late_with};
ghost use Rattle.pack_reach.specs.Outcomes.{FindsLate, IsLate, ReadsToMark};

use crate::marker::Marker;
use crate::refusal::PackRefusal;
use std::alloc::Global;
use zb_ids::{Oid, Tid};
use zb_model::{Refs, Store, StoreError};

impl Marker {
    /// At the switch of a pack, whose copying began when all was marked over a front of the list: the first
    /// commit behind that front after which an object is reached that wasn't marked and has a revision up to
    /// the pack's tid, whose records were to go; and the least such object after it. Where there is no such
    /// commit, the marked objects are then those that are reached.
    ///
    /// A record that the reach follows and that can't be read is refused first, the least of several. It
    /// only reads the store.
    pub fn late<St: Store, F: Refs>(
        &mut self,
        alloc: Global,
        store: &mut St,
        refs: &F,
    ) -> Result<Option<(Oid, Tid)>, PackRefusal>
        requires { (St.state store.old).broken ≡ false }
        ensures late { St.told → (front commits : List Transaction)
            → HasGrown self.old.tid front commits (St.state store.old).list
            → IsMarkedWhole (F.named refs.now) front self.old
            → IsLate (F.named refs.now) front commits self.old self.new result }
        ensures may_mark { St.told → MayMark (F.named refs.now) (St.state store.old).list self.old
            → MayMark (F.named refs.now) (St.state store.old).list self.new }
        ensures keeps { KeepsMarks self.old self.new }
        ensures counted { self.new.counted ≡ self.old.counted }
        ensures read { ReadsToMark (St.state store.old) (St.state store.new) result }
    {
        let late = self.mark_commits(alloc, store, refs)?;
        self.readable()?;
        Ok(late)
    }

    /// Reads one commit after another, and follows what it leads to. Answers the first commit after which a
    /// followed object has a revision up to the pack's tid, and the least such object.
    fn mark_commits<St: Store, F: Refs>(
        &mut self,
        alloc: Global,
        store: &mut St,
        refs: &F,
    ) -> Result<Option<(Oid, Tid)>, StoreError>
        requires { (St.state store.old).broken ≡ false }
        ensures late { St.told → (front commits : List Transaction)
            → HasGrown self.old.tid front commits (St.state store.old).list
            → IsMarkedWhole (F.named refs.now) front self.old
            → FindsLate (F.named refs.now) front commits self.old self.new result }
        ensures may_mark { St.told → MayMark (F.named refs.now) (St.state store.old).list self.old
            → MayMark (F.named refs.now) (St.state store.old).list self.new }
        ensures keeps { KeepsMarks self.old self.new }
        ensures counted { self.new.counted ≡ self.old.counted }
        ensures read { IsOnlyRead (St.state store.old) (St.state store.new) result }
    {
        let mut late = None;
        for _i in 0..u64::MAX {
            if !self.mark_next(alloc, store, refs)? {
                return Ok(late);
            }
            let least = self.follow_all(alloc, store, refs, u64::MAX)?;
            late = late_with(late, least, self.seen);
        }
        Ok(late)
    }
}

/// What was late already, or else the object that is, at this commit.
fn late_with(late: Option<(Oid, Tid)>, least: Option<Oid>, tid: Tid) -> Option<(Oid, Tid)>
    ensures { result ≡ late_with late least tid }
{
    match (late, least) {
        (Some(first), _) => Some(first),
        (None, Some(oid)) => Some((oid, tid)),
        (None, None) => None,
    }
}
