//! What stands where a transaction may begin.

ghost use Rattle.std.specs.Prelude.{◌≡◌, ◌-◌, ◌≤◌, ℕ, List, length, drop, IfOk};
ghost use Rattle.fs_records.specs.Headers.{header_of};
ghost use Rattle.fs_records.specs.Rules.{verdict};
ghost use Rattle.fs_recovery.specs.Windows.{Shows};
ghost use Rattle.fs_recovery.specs.Heads.{Decides, IsFit, IsOpen, Judges, closed};
ghost use Rattle.zb_volume.specs.Disk.{main_bytes};
ghost use Rattle.zb_volume.specs.States.{OnlyReads};

use crate::head::Head;
use crate::held::Window;
use crate::pieces::{header_at, number_behind};
use fs_records::{COMMITTED, Field, HEADER_LENGTH, Header, PACKED, VOTED};
use zb_ids::Tid;
use zb_volume::{StoreFault, Volume};

/// What the status and the length in a header decide, where so many bytes are left from its place
/// on. The length is compared with the room that is left, so that no sum wraps.
#[tactic(auto, unfolding(fs_records::specs::Rules::verdict))]
fn judge_front(header: &Header, room: u64) -> Option<Head>
    requires { 23 ≤ room }
    ensures { Decides result header.now room }
{
    if header.status == VOTED || header.status == 0 {
        return Some(Head::Tail);
    }
    if !(header.status == COMMITTED || header.status == PACKED) {
        return Some(Head::Fault(Field::Status));
    }
    if room - 8 < header.length {
        return Some(Head::Tail);
    }
    let texts = header.user as u64 + header.description as u64 + header.extension as u64;
    if header.length < HEADER_LENGTH as u64 + texts {
        return Some(Head::Fault(Field::Length));
    }
    None
}

/// What a header is by its closing length, behind transactions up to this number.
fn judge_end(header: Header, closing: u64, newest: Tid) -> Head
    ensures judges { (rest : List ℕ) → header ≡ header_of rest → verdict newest rest
        ≡ closed newest header closing
        → Judges result newest rest }
    ensures fit { (room : ℕ) → IsOpen header room → IsFit result newest room }
{
    if closing != header.length {
        return Head::Fault(Field::Closing);
    }
    if header.tid <= newest || header.tid.0 == u64::MAX {
        return Head::Fault(Field::Tid);
    }
    Head::Begun(header)
}

/// What stands at a place, behind transactions up to this number.
#[tactic(auto, unfolding(fs_records::specs::Rules::verdict))]
pub fn judge<V: Volume, const N: usize>(
    volume: &mut V,
    window: &mut Window<N>,
    p: u64,
    newest: Tid,
) -> Result<Head, StoreFault>
    requires small { 42 ≤ N }
    requires order { p ≤ window.old.length }
    requires shows { V.told → Shows window.old (main_bytes (V.state volume.old).log) }
    ensures value { V.told → IfOk result (λ x.
        Judges x newest (drop p (main_bytes (V.state volume.old).log))) }
    ensures fit { IfOk result (λ x. IsFit x newest (window.old.length - p)) }
    ensures shows { V.told → Shows window.new (main_bytes (V.state volume.old).log) }
    ensures length { window.new.length ≡ window.old.length }
    ensures read { OnlyReads (V.state volume.old) (V.state volume.new) result }
{
    let room = window.length - p;
    if room == 0 {
        return Ok(Head::Ends);
    }
    if room < HEADER_LENGTH as u64 {
        return Ok(Head::Tail);
    }
    let header = header_at(volume, window, p)?;
    if let Some(head) = judge_front(&header, room) {
        return Ok(head);
    }
    let closing = number_behind(volume, window, p, header.length)?;
    Ok(judge_end(header, closing, newest))
}
