//! Headers and numbers of Main.

ghost use Rattle.std.specs.Prelude.{◌≡◌, ◌+◌, ◌<◌, ◌≤◌, length, drop, IfOk};
ghost use Rattle.fs_records.specs.Headers.{header_of, data_header_of};
ghost use Rattle.fs_records.specs.Numbers.{number_in};
ghost use Rattle.fs_recovery.specs.Windows.{Shows};
ghost use Rattle.zb_volume.specs.Disk.{main_bytes};
ghost use Rattle.zb_volume.specs.States.{OnlyReads};

use crate::held::Window;
use byteorder::{BigEndian, ByteOrder};
use fs_records::{
    DATA_HEADER_LENGTH, DataHeader, HEADER_LENGTH, Header, read_data_header, read_header,
};
use zb_volume::{StoreFault, Volume};

/// The header of a transaction at a place.
#[inline(always)]
pub fn header_at<V: Volume, const N: usize>(
    volume: &mut V,
    window: &mut Window<N>,
    at: u64,
) -> Result<Header, StoreFault>
    requires small { 42 ≤ N }
    requires within { at + 23 ≤ window.old.length }
    requires shows { V.told → Shows window.old (main_bytes (V.state volume.old).log) }
    ensures value { V.told → IfOk result (λ h. h
        ≡ header_of (drop at (main_bytes (V.state volume.old).log))) }
    ensures shows { V.told → Shows window.new (main_bytes (V.state volume.old).log) }
    ensures length { window.new.length ≡ window.old.length }
    ensures read { OnlyReads (V.state volume.old) (V.state volume.new) result }
{
    let mut buffer = [0; HEADER_LENGTH];
    window.read(volume, at, &mut buffer)?;
    Ok(read_header(&buffer))
}

/// The header of a data record at a place.
#[inline(always)]
pub fn data_header_at<V: Volume, const N: usize>(
    volume: &mut V,
    window: &mut Window<N>,
    at: u64,
) -> Result<DataHeader, StoreFault>
    requires small { 42 ≤ N }
    requires within { at + 42 ≤ window.old.length }
    requires shows { V.told → Shows window.old (main_bytes (V.state volume.old).log) }
    ensures value { V.told →
        IfOk result (λ h. h ≡ data_header_of (drop at (main_bytes (V.state volume.old).log))) }
    ensures shows { V.told → Shows window.new (main_bytes (V.state volume.old).log) }
    ensures length { window.new.length ≡ window.old.length }
    ensures read { OnlyReads (V.state volume.old) (V.state volume.new) result }
{
    let mut buffer = [0; DATA_HEADER_LENGTH];
    window.read(volume, at, &mut buffer)?;
    Ok(read_data_header(&buffer))
}

/// The number in the 8 bytes that stand n bytes behind a place. The window stays where it is.
#[tactic(auto, unfolding(fs_records::specs::Numbers::number_in))]
#[inline(always)]
pub fn number_behind<V: Volume, const N: usize>(
    volume: &mut V,
    window: &mut Window<N>,
    at: u64,
    n: u64,
) -> Result<u64, StoreFault>
    requires within { at + n + 8 ≤ window.old.length }
    requires shows { V.told → Shows window.old (main_bytes (V.state volume.old).log) }
    ensures value { V.told
        → IfOk result (λ x. x
        ≡ number_in 8 (drop n (drop at (main_bytes (V.state volume.old).log)))) }
    ensures shows { V.told → Shows window.new (main_bytes (V.state volume.old).log) }
    ensures length { window.new.length ≡ window.old.length }
    ensures read { OnlyReads (V.state volume.old) (V.state volume.new) result }
{
    let mut buffer = [0; 8];
    window.peek(volume, at + n, &mut buffer)?;
    Ok(BigEndian::read_u64(&buffer))
}
