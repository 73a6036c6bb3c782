//! The list of the transactions that may be undone.

ghost use Rattle.std.specs.Prelude.{◌≡◌, ◌<◌, ◌^◌, length, reverse, take, IfOk};
ghost use Rattle.std.specs.List.{AllByRecursion, filter_map};
ghost use Rattle.zb_model.specs.Lists.{undo_log_before, undo_log_of};
ghost use Rattle.fs_records.specs.Blocks.{Reached, Begins};
ghost use Rattle.fs_index.specs.Places.{IsRising};
ghost use Rattle.fs_reading.specs.Main.{AreStarts};
ghost use Rattle.fs_reading.specs.Showing.{Shows};
ghost use Rattle.fs_reading.specs.Standing.{log_line_at, HasTexts};
ghost use Rattle.zb_volume.specs.Disk.{main_bytes};
ghost use Rattle.fs_reading.specs.Reads.{OnlyReadsMain};

use crate::backwards::{go_back, head_of, no_piece, texts_of};
use crate::errors::ReadError;
use crate::piece::Piece;
use crate::pieces::keep;
use fs_index::{Place, count_below};
use fs_records::PACKED;
use std::alloc::Global;
use zb_ids::{ListOf, Tid};
use zb_model::LogLine;
use zb_volume::Volume;

/// The line of the transaction at a place, if no pack has gone over it; `before` is where the
/// transaction before it stands. What is held is what `go_back` reads.
fn line_at<V: Volume>(
    alloc: Global,
    volume: &mut V,
    piece: &mut Piece,
    place: Place,
    before: u64,
) -> Result<Option<LogLine>, ReadError>
    requires short { V.told → length (main_bytes (V.state volume.old).log) < 2 ^ 64 }
    requires texts { V.told → HasTexts (main_bytes (V.state volume.old).log) place.at }
    requires shows { V.told → Shows piece.old (main_bytes (V.state volume.old).log) }
    ensures value { V.told → IfOk result (λ line.
        line ≡ log_line_at (main_bytes (V.state volume.old).log) place) }
    ensures shows { V.told → Shows piece.new (main_bytes (V.state volume.new).log) }
    ensures read { OnlyReadsMain (V.state volume.old) (V.state volume.new) result }
{
    go_back(alloc, volume, piece, place.at, before)?;
    let header = head_of(volume, piece, place.at)?;
    if header.status == PACKED {
        return Ok(None);
    }
    let (user, description) = texts_of(alloc, volume, piece, place.at, &header)?;
    Ok(Some(LogLine {
        tid: header.tid,
        user,
        description,
    }))
}

/// Where the last of these places is, or 0 where there is none.
fn last_of(places: &[Place]) -> u64 {
    match places.last() {
        Some(place) => place.at,
        None => 0,
    }
}

/// The lines of the transactions at these places, the last one first.
fn lines_at<V: Volume>(
    alloc: Global,
    volume: &mut V,
    places: &[Place],
) -> Result<ListOf<LogLine>, ReadError>
    requires short { V.told → length (main_bytes (V.state volume.old).log) < 2 ^ 64 }
    requires texts { V.told
        → AllByRecursion (λ p. HasTexts (main_bytes (V.state volume.old).log) p.at) places.now }
    ensures lines { V.told → IfOk result (λ lines.
        lines ≡ reverse (filter_map (log_line_at (main_bytes (V.state volume.old).log))
        places.now)) }
    ensures read { OnlyReadsMain (V.state volume.old) (V.state volume.new) result }
{
    let mut lines = ListOf::new(alloc);
    let mut piece = no_piece(alloc);
    let mut left = places.len();
    while left > 0 {
        left -= 1;
        let before = last_of(&places[..left]);
        let line = line_at(alloc, volume, &mut piece, places[left], before)?;
        keep(&mut lines, line)?;
    }
    Ok(lines)
}

/// The list of the transactions that no pack has gone over, the newest first, with the tid, the user
/// and the description of each, by the places of the transactions in what was read of the file, in
/// the order in which they stand. It reads pieces of 64 KiB at most from the
/// last transaction on back, each with at least two of these transactions, or one transaction's header
/// and those two texts alone, and nothing that stands behind what was read; memory is that of the list
/// and of one piece. It is `ReadFault` only where a read
/// failed, and else `Memory`. The volume is as it was.
pub fn read_undo_log_at<V: Volume>(
    alloc: Global,
    volume: &mut V,
    places: &[Place],
) -> Result<ListOf<LogLine>, ReadError>
    requires { V.told → AreStarts (main_bytes (V.state volume.old).log) places.now }
    ensures lines { V.told → (reached : Reached)
        → Begins (main_bytes (V.state volume.old).log) reached
        → places.now ≡ reached.starts → IfOk result (λ lines. lines ≡ undo_log_of reached.list) }
    ensures read { OnlyReadsMain (V.state volume.old) (V.state volume.new) result }
{
    lines_at(alloc, volume, places)
}

#[tactic(auto, using(crate::proofs::Below::all_lines, crate::proofs::Below::enough_lines))]
/// No more than so many lines of the transactions at these places, the last one first. It reads no
/// transaction behind the last line.
fn lines_before<V: Volume>(
    alloc: Global,
    volume: &mut V,
    places: &[Place],
    count: u64,
) -> Result<ListOf<LogLine>, ReadError>
    requires short { V.told → length (main_bytes (V.state volume.old).log) < 2 ^ 64 }
    requires texts { V.told
        → AllByRecursion (λ p. HasTexts (main_bytes (V.state volume.old).log) p.at) places.now }
    ensures lines { V.told → IfOk result (λ lines.
        lines ≡ take count (reverse (filter_map
        (log_line_at (main_bytes (V.state volume.old).log)) places.now))) }
    ensures read { OnlyReadsMain (V.state volume.old) (V.state volume.new) result }
{
    let mut lines = ListOf::new(alloc);
    let mut piece = no_piece(alloc);
    let mut left = places.len();
    while left > 0 {
        if lines.len() as u64 >= count {
            return Ok(lines);
        }
        left -= 1;
        let before = last_of(&places[..left]);
        let line = line_at(alloc, volume, &mut piece, places[left], before)?;
        keep(&mut lines, line)?;
    }
    Ok(lines)
}

/// The newest lines of the list of the transactions below a tid that no pack has gone over, no more
/// than so many, by the places of the transactions as in `read_undo_log_at`. It reads in
/// pieces as that does, which end behind the first of these lines; memory is that of the lines and of
/// one piece. It is `ReadFault` only where a read failed, and else `Memory`. The
/// volume is as it was.
pub fn read_undo_log_before<V: Volume>(
    alloc: Global,
    volume: &mut V,
    places: &[Place],
    below: Tid,
    count: u64,
) -> Result<ListOf<LogLine>, ReadError>
    requires starts { V.told → AreStarts (main_bytes (V.state volume.old).log) places.now }
    requires rising { IsRising places.now }
    ensures lines { V.told → (reached : Reached)
        → Begins (main_bytes (V.state volume.old).log) reached → places.now ≡ reached.starts
        → IfOk result (λ lines. lines ≡ undo_log_before below count reached.list) }
    ensures read { OnlyReadsMain (V.state volume.old) (V.state volume.new) result }
{
    let (before, _) = places.split_at(count_below(places, below));
    lines_before(alloc, volume, before, count)
}
