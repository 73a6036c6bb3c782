//! How far a copy goes on.

ghost use Rattle.std.specs.Prelude.{◌≡◌, ℕ, ◌+◌, ◌≤◌, ◌<◌, false, IsTrue};
ghost use Rattle.zb_model.specs.Packs.{changes_a_turn};

/// A turn ends once it has copied so many changes.
const CHANGES_A_TURN: u64 = 64;

/// How far a copy goes on.
#[derive(Clone, Copy)]
pub(crate) enum Extent {
    /// Until that many changes more are copied than these.
    Turn(u64),
    /// To the end.
    Rest,
}

/// Whether a turn has copied enough, where so many changes are copied in all.
pub(crate) fn is_over(extent: Extent, changes: u64) -> bool
    ensures turn { (before : ℕ) → extent ≡ Extent.Turn before → IsTrue result
        → before + changes_a_turn ≤ changes }
    ensures early { (before : ℕ) → extent ≡ Extent.Turn before → result ≡ false
        → changes < before + changes_a_turn }
    ensures rest { extent ≡ Extent.Rest → result ≡ false }
{
    match extent {
        Extent::Turn(before) => changes.saturating_sub(before) >= CHANGES_A_TURN,
        Extent::Rest => false,
    }
}
