//! Turns that mark.

ghost use Rattle.std.specs.Prelude.{◌≡◌, ◌<◌, ◌≤◌, ◌+◌, ◌^◌, OnOk, OnErr, IfOk, false, true};
ghost use Rattle.std.specs.FinSet as set;
ghost use Rattle.pack_reach.specs.Marking.{IsMarkedWhole, KeepsMarks, MayMark};
ghost use Rattle.pack_reach.specs.Outcomes.{IsMarkTurn, IsMarked, ReadsToMark};
ghost use Rattle.pack_reach.specs.Packed.{marks_a_turn};

use crate::marker::{Marked, Marker};
use crate::refusal::PackRefusal;
use std::alloc::Global;
use zb_model::{Refs, Store};

/// How many objects a turn marks.
const MARKS_A_TURN: u64 = 64;

impl Marker {
    /// Marks 64 more of the objects that a pack reaches over the list of a store, and answers how many are
    /// marked so far, or marks all, where at most 64 were left.
    ///
    /// The marks go on from those that were made over what the list begins with: each transaction behind
    /// that is above the pack's tid. A record is read once, and refused where it can't be read only once
    /// all is marked. Of several that can't, the one of the least object is named, then of the least
    /// serial. A read of the store that failed and want of memory leave the marks that were made, and the
    /// count as it was. It only reads the store.
    ///
    /// Each turn follows 64 of the objects that wait, also where enough are marked already: so what is read
    /// never lags behind what is counted, and the last turn has no more to read than those before it.
    pub fn mark_turn<St: Store, F: Refs>(
        &mut self,
        alloc: Global,
        store: &mut St,
        refs: &F,
    ) -> Result<Marked, PackRefusal>
        requires whole { (St.state store.old).broken ≡ false }
        requires may_mark { St.told → MayMark (F.named refs.now) (St.state store.old).list self.old }
        ensures turn { St.told →
            IsMarkTurn (F.named refs.now) (St.state store.old).list self.old.counted self.new result }
        ensures whole { St.told → IfOk result (λ marked. marked.whole ≡ true →
            IsMarkedWhole (F.named refs.now) (St.state store.old).list self.new) }
        ensures may_mark { St.told → MayMark (F.named refs.now) (St.state store.old).list self.new }
        ensures keeps { KeepsMarks self.old self.new }
        ensures counted { IfOk result (λ marked. self.new.counted ≡ marked.count) }
        ensures same { OnErr result (self.new.counted ≡ self.old.counted) }
        ensures count { IfOk result (λ marked. marked.count ≤ set.len self.new.set) }
        ensures bound { IfOk result (λ marked. marked.count < 2 ^ 63) }
        ensures more { IfOk result (λ marked. marked.whole ≡ false →
            marked.count ≡ self.old.counted + marks_a_turn) }
        ensures read { ReadsToMark (St.state store.old) (St.state store.new) result }
    {
        let limit = self.counted.saturating_add(MARKS_A_TURN);
        let count = self.mark_ahead(alloc, store, refs, MARKS_A_TURN, limit)?;
        if limit < count {
            self.counted = limit;
            return Ok(Marked {
                count: limit,
                whole: false,
            });
        }
        self.readable()?;
        self.counted = count;
        Ok(Marked { count, whole: true })
    }

    /// Marks all that a pack reaches over the list of a store, as many turns do, and answers how many objects
    /// that is.
    pub fn mark_all<St: Store, F: Refs>(
        &mut self,
        alloc: Global,
        store: &mut St,
        refs: &F,
    ) -> Result<u64, PackRefusal>
        requires whole { (St.state store.old).broken ≡ false }
        requires may_mark { St.told → MayMark (F.named refs.now) (St.state store.old).list self.old }
        ensures marked { St.told → IsMarked (F.named refs.now) (St.state store.old).list self.new result }
        ensures whole { St.told → OnOk result
            (IsMarkedWhole (F.named refs.now) (St.state store.old).list self.new) }
        ensures may_mark { St.told → MayMark (F.named refs.now) (St.state store.old).list self.new }
        ensures keeps { KeepsMarks self.old self.new }
        ensures counted { IfOk result (λ count. self.new.counted ≡ count) }
        ensures same { OnErr result (self.new.counted ≡ self.old.counted) }
        ensures count { IfOk result (λ count. count ≡ set.len self.new.set) }
        ensures bound { IfOk result (λ count. count < 2 ^ 63) }
        ensures read { ReadsToMark (St.state store.old) (St.state store.new) result }
    {
        let count = self.mark_ahead(alloc, store, refs, 0, u64::MAX)?;
        self.readable()?;
        self.counted = count;
        Ok(count)
    }
}
