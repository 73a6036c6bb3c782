//! What stands in an index file, one entry after another.

ghost use Rattle.std.specs.Prelude.{◌≡◌, ◌==◌, ◌+◌, ◌*◌, ◌≤◌, length, drop};
ghost use Rattle.fs_records.specs.Numbers.{number_in};
ghost use Rattle.fs_index_file.specs.Hints.{head_of, start_of, record_of, size_by};

use byteorder::{BigEndian, ByteOrder};
use fs_index::{Place, Placed};
use zb_ids::{Oid, Tid};

/// How many bytes stand before the transactions.
pub const HEAD_LENGTH: usize = 25;

/// How many bytes the entry of a transaction has.
pub const START_LENGTH: usize = 17;

/// How many bytes the entry of a data record has.
pub const RECORD_LENGTH: usize = 24;

/// The gate of a file that may be believed.
pub const OPEN: u8 = 1;

/// The gate of a file that may not.
pub const CLOSED: u8 = 0;

/// The 25 bytes at the head of an index file. All numbers have their highest byte first. Own format.
#[derive(Clone, Copy, Debug, PartialEq, Eq)]
pub struct Head {
    /// 1 where the file may be believed: byte 0.
    pub gate: u8,
    /// The place in Main up to which it says what stands there: bytes 1 to 8.
    pub end: u64,
    /// How many transactions it names: bytes 9 to 16.
    pub starts: u64,
    /// How many data records: bytes 17 to 24.
    pub records: u64,
}

/// Where a transaction stands, and its status.
#[derive(Clone, Copy, Debug, PartialEq, Eq)]
pub struct Start {
    /// Its number: bytes 0 to 7 of the entry. Its place: bytes 8 to 15.
    pub place: Place,
    /// Its status, as in Main: byte 16.
    pub status: u8,
}

/// The number in the 8 bytes from a place on.
#[tactic(auto, unfolding(fs_records::specs::Numbers::number_in))]
fn number_at(bytes: &[u8], at: usize) -> u64
    requires { at + 8 ≤ length bytes.now }
    ensures { result ≡ number_in 8 (drop at bytes.now) }
{
    BigEndian::read_u64(&bytes[at..])
}

/// The head that these bytes are. Any bytes are one.
#[tactic(auto, unfolding(crate::specs::Hints::head_of))]
pub(crate) fn head_in(bytes: &[u8; HEAD_LENGTH]) -> Head
    ensures { result ≡ head_of bytes.now }
{
    Head {
        gate: bytes[0],
        end: number_at(bytes, 1),
        starts: number_at(bytes, 9),
        records: number_at(bytes, 17),
    }
}

/// The entry of a transaction that these bytes are. Any bytes are one.
#[tactic(auto, unfolding(crate::specs::Hints::start_of))]
pub(crate) fn start_in(bytes: &[u8; START_LENGTH]) -> Start
    ensures { result ≡ start_of bytes.now }
{
    Start {
        place: Place {
            serial: Tid(number_at(bytes, 0)),
            at: number_at(bytes, 8),
        },
        status: bytes[16],
    }
}

/// The entry of a data record that these bytes are: the object in bytes 0 to 7, the number of its
/// transaction in bytes 8 to 15, and its place in bytes 16 to 23. Any bytes are one.
#[tactic(auto, unfolding(crate::specs::Hints::record_of))]
pub(crate) fn record_in(bytes: &[u8; RECORD_LENGTH]) -> Placed
    ensures { result ≡ record_of bytes.now }
{
    Placed {
        oid: Oid(number_at(bytes, 0)),
        place: Place {
            serial: Tid(number_at(bytes, 8)),
            at: number_at(bytes, 16),
        },
    }
}

/// Whether a file with this head has so many bytes.
pub(crate) fn has_size(head: &Head, length: u64) -> bool
    ensures { result ≡ (length == size_by head.now) }
{
    let starts = START_LENGTH as u128 * head.starts as u128;
    let records = RECORD_LENGTH as u128 * head.records as u128;
    length as u128 == HEAD_LENGTH as u128 + starts + records
}
