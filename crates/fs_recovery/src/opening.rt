//! A file is opened.

ghost use Rattle.std.specs.Prelude.{◌≡◌, ◌≢◌, ◌+◌, ◌<◌, ◌≤◌, ◌^◌, ℕ, List, [], length, take, IfOk, OnOk};
ghost use Rattle.std.specs.Str.{bytes_eq};
ghost use Rattle.zb_volume.specs.declared.areas.Area.{Area};
ghost use Rattle.zb_volume.specs.Disk.{IsSettled, main_bytes};
ghost use Rattle.zb_volume.specs.Moments.{StaysAs};
ghost use Rattle.zb_base.specs.Bytes.{AreBytes};
ghost use Rattle.fs_records.specs.Blocks.{magic};
ghost use Rattle.fs_records.specs.Rules.{texts_length};
ghost use Rattle.fs_recovery.specs.Reading.{CountsFault, OnlyReadsToOpen, RefusesMain};
ghost use Rattle.fs_recovery.specs.Windows.{Shows};
ghost use Rattle.fs_recovery.specs.Heads.{HeaderBegins};
ghost use Rattle.fs_recovery.specs.Opens.{newest_kept, KeptBefore, BlockRead, IsBounded, IsKnownOf, IsUpTo, IsNoList, IsWhole, Opens, OpensMain, MomentsOfOpening, ImagesStand};
ghost use Rattle.fs_recovery.specs.Counting.{Numbered};
ghost use Rattle.zb_volume.specs.States.{OnlyReads, OthersStay};

use crate::blocks::judge;
use crate::errors::OpenError;
use crate::head::Head;
use crate::held::Window;
use crate::numbers::Numbers;
use crate::records::read_records;
use crate::tail::keep_front;
use fs_index::{Index, Place, last_of};
use fs_records::{HEADER_LENGTH, Header, PACKED};
use std::alloc::Global;
use zb_ids::Tid;
use zb_volume::{Area, StoreFault, Volume};

/// How many bytes a read of Main asks for at most.
const WINDOW: usize = 65_536;

/// A file that was opened.
#[derive(Drop)]
pub struct Opened {
    /// Where the records of each object stand, and where the transactions do.
    pub index: Index,
    /// What the transactions change, counted.
    pub numbers: Numbers,
    /// The place behind the last transaction, where the next one is to stand: at least 4, and below
    /// 2^63.
    pub end: u64,
    /// Where a transaction that was never finished was cut off, which is at `end`, or `None` where
    /// there was none.
    pub cut: Option<u64>,
}

/// Puts the transaction with this header at this place into the index and the numbers.
fn keep_block<V: Volume, const N: usize>(
    volume: &mut V,
    window: &mut Window<N>,
    p: u64,
    header: &Header,
    index: &mut Index,
    numbers: &mut Numbers,
) -> Result<(), OpenError>
    requires small { 42 ≤ N }
    requires within { p + header.now.length + 8 ≤ window.old.length }
    requires texts { 23 + texts_length header.now ≤ header.now.length }
    requires above { newest_kept index.old < header.now.tid }
    requires before { KeptBefore index.old p }
    requires shows { V.told → Shows window.old (main_bytes (V.state volume.old).log) }
    requires bytes { V.told → AreBytes (main_bytes (V.state volume.old).log) }
    ensures before { OnOk result (KeptBefore index.new (p + header.now.length + 8)) }
    ensures newest { OnOk result (newest_kept index.new ≡ header.now.tid) }
    ensures block { V.told
        → HeaderBegins (main_bytes (V.state volume.old).log) p (newest_kept index.old) header.now
        → Numbered (main_bytes (V.state volume.old).log) p
        (newest_kept index.old) index.old numbers.old
        → BlockRead (main_bytes (V.state volume.old).log)
        (p + header.now.length + 8) header.now.tid index.new numbers.new result }
    ensures shows { V.told → Shows window.new (main_bytes (V.state volume.old).log) }
    ensures length { window.new.length ≡ window.old.length }
    ensures read { OnlyReadsToOpen (V.state volume.old) (V.state volume.new) result }
{
    let texts = header.user as u64 + header.description as u64 + header.extension as u64;
    let from = p + (HEADER_LENGTH as u64 + texts);
    let counted = read_records(
        volume,
        window,
        p,
        header.tid,
        from,
        p + header.length,
        index,
    )?;
    index.push_transaction(Place {
        serial: header.tid,
        at: p,
    })?;
    numbers.add_counted(header.tid, header.status == PACKED, counted)?;
    Ok(())
}

/// The number of the last transaction that is kept, or 0.
fn newest_of(index: &Index) -> Tid
    ensures { result ≡ newest_kept index.now }
{
    match last_of(index.transactions()) {
        Some(place) => place.serial,
        None => Tid(0),
    }
}

/// What is known of a file before any of its transactions was read.
fn nothing_known(alloc: Global) -> Opened
    ensures known { (bytes : List ℕ) → IsKnownOf bytes result }
    ensures bounded { IsBounded result }
    ensures end { result.end ≡ 4 }
{
    let index = Index::new(alloc);
    let numbers = Numbers::new(alloc);
    Opened {
        index,
        numbers,
        end: 4,
        cut: None,
    }
}

/// Reads the transactions of a file on from the end of what is known of it.
fn read_blocks<V: Volume, const N: usize>(
    volume: &mut V,
    window: &mut Window<N>,
    known: Opened,
) -> Result<Opened, OpenError>
    requires small { 42 ≤ N }
    requires bounded { IsBounded known }
    requires within { known.end ≤ window.old.length }
    requires shows { V.told → Shows window.old (main_bytes (V.state volume.old).log) }
    requires bytes { V.told → AreBytes (main_bytes (V.state volume.old).log) }
    ensures opens { V.told → IsUpTo (main_bytes (V.state volume.old).log) known
        → Opens (main_bytes (V.state volume.old).log) result }
    ensures bounded { IfOk result (λ o. IsBounded o) }
    ensures end { IfOk result (λ o. o.end ≤ window.old.length) }
    ensures read { OnlyReadsToOpen (V.state volume.old) (V.state volume.new) result }
{
    let Opened {
        mut index,
        mut numbers,
        end,
        cut: _,
    } = known;
    let mut newest = newest_of(&index);
    let mut p = end;
    'scan: loop {
        match judge(volume, window, p, newest)? {
            Head::Ends => {
                return Ok(Opened {
                    index,
                    numbers,
                    end: p,
                    cut: None,
                });
            }
            Head::Tail => {
                return Ok(Opened {
                    index,
                    numbers,
                    end: p,
                    cut: Some(p),
                });
            }
            Head::Fault(field) => return Err(OpenError::BadRecord { at: p, field }),
            Head::Begun(header) => {
                keep_block(volume, window, p, &header, &mut index, &mut numbers)?;
                newest = header.tid;
                p = p + header.length + 8;
            }
        }
    }
}

/// Whether these are the first bytes of a file.
fn is_magic(front: &[u8]) -> bool
    ensures { result ≡ bytes_eq front.now magic }
{
    front == b"FS30".as_slice()
}

/// Whether Main begins as a file does.
fn has_magic<V: Volume, const N: usize>(
    volume: &mut V,
    window: &mut Window<N>,
) -> Result<bool, StoreFault>
    requires small { 42 ≤ N }
    requires long { 4 ≤ window.old.length }
    requires shows { V.told → Shows window.old (main_bytes (V.state volume.old).log) }
    ensures value { V.told →
        IfOk result (λ b. b ≡ bytes_eq (take 4 (main_bytes (V.state volume.old).log)) magic) }
    ensures shows { V.told → Shows window.new (main_bytes (V.state volume.old).log) }
    ensures length { window.new.length ≡ window.old.length }
    ensures read { OnlyReads (V.state volume.old) (V.state volume.new) result }
{
    let mut front = [0; 4];
    window.read(volume, 0, &mut front)?;
    Ok(is_magic(&front))
}

/// What is known of a file, where it ends within so many bytes, else nothing.
fn known_within(alloc: Global, known: Opened, long: u64) -> Opened
    requires known { IsBounded known }
    requires long { 4 ≤ long }
    ensures known { (bytes : List ℕ) → IsKnownOf bytes known → IsKnownOf bytes result }
    ensures bounded { IsBounded result }
    ensures end { result.end ≤ long }
{
    if long < known.end {
        return nothing_known(alloc);
    }
    known
}

/// Reads Main, which has so many bytes, on from the end of what is known of it.
fn read_main<V: Volume>(
    alloc: Global,
    volume: &mut V,
    long: u64,
    known: Opened,
) -> Result<Opened, OpenError>
    requires limit { long < 2 ^ 63 }
    requires known { IsBounded known }
    requires some { V.told → main_bytes (V.state volume.old).log ≢ [] }
    requires length { V.told → long ≡ length (main_bytes (V.state volume.old).log) }
    requires bytes { V.told → AreBytes (main_bytes (V.state volume.old).log) }
    ensures opens { V.told → IsKnownOf (main_bytes (V.state volume.old).log) known
        → Opens (main_bytes (V.state volume.old).log) result }
    ensures bounded { IfOk result (λ o. IsBounded o) }
    ensures end { IfOk result (λ o. o.end ≤ long) }
    ensures read { OnlyReadsToOpen (V.state volume.old) (V.state volume.new) result }
{
    if long < 4 {
        return Err(OpenError::NotFileStorage);
    }
    let mut window: Window<WINDOW> = Window::new(long);
    if !has_magic(volume, &mut window)? {
        return Err(OpenError::NotFileStorage);
    }
    let known = known_within(alloc, known, long);
    read_blocks(volume, &mut window, known)
}

/// Reads the file in Main, which isn't empty, forward, and changes nothing: for one of which nothing
/// is pending and which has no tail, as one that was just made. Any other is to be opened by
/// `open_main`.
///
/// Its answers are those of `open_main`, but that a StoreFault comes only where a read failed.
pub fn read_file<V: Volume>(alloc: Global, volume: &mut V) -> Result<Opened, OpenError>
    requires { V.told → main_bytes (V.state volume.old).log ≢ [] }
    ensures opens { V.told → Opens (main_bytes (V.state volume.old).log) result }
    ensures bounded { IfOk result (λ o. IsBounded o) }
    ensures read { OnlyReadsToOpen (V.state volume.old) (V.state volume.new) result }
{
    let long = volume.len(Area::Main)?;
    read_main(alloc, volume, long, nothing_known(alloc))
}

/// Opens the file in Main on from the end of what is known of it.
fn open_from<V: Volume>(alloc: Global, volume: &mut V, known: Opened) -> Result<Opened, OpenError>
    requires known { IsBounded known }
    requires some { V.told → main_bytes (V.state volume.old).log ≢ [] }
    ensures opens { V.told → IsKnownOf (main_bytes (V.state volume.old).log) known
        → Opens (main_bytes (V.state volume.old).log) result }
    ensures content { V.told →
        IfOk result (λ o. main_bytes (V.state volume.new).log
        ≡ take o.end (main_bytes (V.state volume.old).log)) }
    ensures whole { V.told → IsKnownOf (main_bytes (V.state volume.old).log) known
        → IfOk result (λ o. IsWhole (main_bytes (V.state volume.new).log) o) }
    ensures settled { V.told → OnOk result (IsSettled (V.state volume.new).log Area.Main) }
    ensures untouched { RefusesMain result → (V.state volume.new).log ≡ (V.state volume.old).log }
    ensures harmed { V.told → IsKnownOf (main_bytes (V.state volume.old).log) known
        → IsNoList (main_bytes (V.state volume.old).log)
        → (V.state volume.new).log ≡ (V.state volume.old).log }
    ensures others { V.told → OthersStay Area.Main (V.state volume.old).log
        (V.state volume.new).log }
    ensures any_moment { V.told → IsKnownOf (main_bytes (V.state volume.old).log) known
        → MomentsOfOpening (V.state volume.old).log (V.state volume.new).log }
    ensures images { V.told → IsKnownOf (main_bytes (V.state volume.old).log) known
        → ImagesStand (V.state volume.old).log (V.state volume.new).log }
    ensures bounded { IfOk result (λ o. IsBounded o) }
    ensures counts { CountsFault (V.state volume.old) (V.state volume.new) result }
{
    let long = volume.len(Area::Main)?;
    let opened = read_main(alloc, volume, long, known)?;
    keep_front(volume, long, opened.end)?;
    Ok(opened)
}

/// Opens the file in Main, which isn't empty, as `open_main` does, but reads it on from the end of what
/// is known of it. Where Main is shorter than that, it is read whole.
///
/// Where that end is one of a transaction of Main, or behind its first four bytes, and the index and
/// the numbers are those of Main up to it, the answers are those of `open_main`, and it leaves the same.
pub fn read_on<V: Volume>(alloc: Global, volume: &mut V, known: Opened) -> Result<Opened, OpenError>
    requires known { IsBounded known }
    requires some { V.told → main_bytes (V.state volume.old).log ≢ [] }
    ensures opens { V.told → IsKnownOf (main_bytes (V.state volume.old).log) known
        → OpensMain (V.state volume.old).log (V.state volume.new).log result }
    ensures content { V.told →
        IfOk result (λ o. main_bytes (V.state volume.new).log
        ≡ take o.end (main_bytes (V.state volume.old).log)) }
    ensures settled { V.told → OnOk result (IsSettled (V.state volume.new).log Area.Main) }
    ensures untouched { RefusesMain result → (V.state volume.new).log ≡ (V.state volume.old).log }
    ensures others { V.told → OthersStay Area.Main (V.state volume.old).log
        (V.state volume.new).log }
    ensures bounded { IfOk result (λ o. IsBounded o) }
    ensures counts { CountsFault (V.state volume.old) (V.state volume.new) result }
{
    open_from(alloc, volume, known)
}

/// Opens the file in Main, which isn't empty: reads it forward, cuts off a transaction at its end
/// that was never finished, and syncs Main, also where there was nothing to cut.
///
/// It is `Ok` exactly where Main stands for a list of transactions, `NotFileStorage` exactly where
/// its first four bytes aren't `FS30`, and else `BadRecord` with the first rule that fails and its
/// place; only a failed call of the volume or want of memory comes between. Bytes stand for at most
/// one list, and what stands for one is not damaged, so each answer rules out the others.
///
/// Memory is that of the index, of the numbers and of one window of 65,536 bytes. Headers that lie
/// close together share a read, a closing length is read together with the header behind it, long
/// content is skipped, and no file takes more than two reads for each transaction, two for each data
/// record and one besides.
pub fn open_main<V: Volume>(alloc: Global, volume: &mut V) -> Result<Opened, OpenError>
    requires { V.told → main_bytes (V.state volume.old).log ≢ [] }
    ensures opens { V.told → Opens (main_bytes (V.state volume.old).log) result }
    ensures content { V.told →
        IfOk result (λ o. main_bytes (V.state volume.new).log
        ≡ take o.end (main_bytes (V.state volume.old).log)) }
    ensures whole { V.told → IfOk result (λ o. IsWhole (main_bytes (V.state volume.new).log) o) }
    ensures settled { V.told → OnOk result (IsSettled (V.state volume.new).log Area.Main) }
    ensures untouched { RefusesMain result → (V.state volume.new).log ≡ (V.state volume.old).log }
    ensures harmed { V.told → IsNoList (main_bytes (V.state volume.old).log)
        → (V.state volume.new).log ≡ (V.state volume.old).log }
    ensures side { V.told → StaysAs Area.Side (V.state volume.old).log (V.state volume.new).log }
    ensures hint { V.told → StaysAs Area.Hint (V.state volume.old).log (V.state volume.new).log }
    ensures any_moment { V.told → MomentsOfOpening (V.state volume.old).log
        (V.state volume.new).log }
    ensures images { V.told → ImagesStand (V.state volume.old).log (V.state volume.new).log }
    ensures bounded { IfOk result (λ o. IsBounded o) }
    ensures counts { CountsFault (V.state volume.old) (V.state volume.new) result }
{
    open_from(alloc, volume, nothing_known(alloc))
}
