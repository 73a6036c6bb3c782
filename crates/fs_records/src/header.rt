//! The two headers.

ghost use Rattle.std.specs.Prelude.{◌≡◌, ◌+◌, ◌≤◌, length, drop};
ghost use Rattle.fs_records.specs.Numbers.{number_in};
ghost use Rattle.fs_records.specs.HeaderLaws.{IsHeader, IsDataHeader};
ghost use Rattle.fs_records.specs.Headers.{header_of, header_text, data_header_of, data_header_text};

use byteorder::{BigEndian, ByteOrder};
use zb_ids::{Oid, Tid};

/// How many bytes the header of a transaction has.
pub const HEADER_LENGTH: usize = 23;

/// How many bytes the header of a data record has.
pub const DATA_HEADER_LENGTH: usize = 42;

/// Where the status stands in the header of a transaction.
pub const STATUS_PLACE: usize = 16;

/// The status of a transaction that is committed, 20 in hexadecimal.
pub const COMMITTED: u8 = b' ';

/// The status of a transaction that a pack has gone over, 70 in hexadecimal.
pub const PACKED: u8 = b'p';

/// The status of a transaction that was only voted, 63 in hexadecimal.
pub const VOTED: u8 = b'c';

/// The 23 bytes at the head of a transaction. Behind them stand the user, the description, the
/// extension, the data records, and the length once more, in 8 bytes. All numbers have their
/// highest byte first. Source: the FileStorage format notes.
#[derive(Clone, Copy, Debug, PartialEq, Eq)]
pub struct Header {
    /// The transaction's number: bytes 0 to 7.
    pub tid: Tid,
    /// How many bytes the transaction has without its closing length: bytes 8 to 15.
    pub length: u64,
    /// `COMMITTED`, `PACKED` or `VOTED`, or any other in bytes that are no file: byte 16.
    pub status: u8,
    /// How many bytes the user has: bytes 17 and 18.
    pub user: u16,
    /// How many bytes the description has: bytes 19 and 20.
    pub description: u16,
    /// How many bytes the extension has: bytes 21 and 22.
    pub extension: u16,
}

/// The 42 bytes at the head of a data record. Behind them stand the object's bytes, or where there
/// are none a back pointer of 8 bytes. All numbers have their highest byte first. Source: the
/// FileStorage format notes.
#[derive(Clone, Copy, Debug, PartialEq, Eq)]
pub struct DataHeader {
    /// The object: bytes 0 to 7.
    pub oid: Oid,
    /// The number of the record's transaction: bytes 8 to 15.
    pub tid: Tid,
    /// Where the object's record before this one stands, or 0: bytes 16 to 23. No reader looks at
    /// it.
    pub previous: u64,
    /// Where the record's transaction stands: bytes 24 to 31.
    pub transaction: u64,
    /// The length of a version's name, which is always 0: bytes 32 and 33.
    pub version: u16,
    /// How many bytes the object's content has, or 0 where a back pointer stands in their place:
    /// bytes 34 to 41.
    pub length: u64,
}

/// The number in the 8 bytes from a place on.
#[tactic(auto, unfolding(crate::specs::Numbers::number_in))]
fn u64_at(bytes: &[u8], at: usize) -> u64
    requires { at + 8 ≤ length bytes.now }
    ensures { result ≡ number_in 8 (drop at bytes.now) }
{
    BigEndian::read_u64(&bytes[at..])
}

/// The number in the 2 bytes from a place on.
#[tactic(auto, unfolding(crate::specs::Numbers::number_in))]
fn u16_at(bytes: &[u8], at: usize) -> u16
    requires { at + 2 ≤ length bytes.now }
    ensures { result ≡ number_in 2 (drop at bytes.now) }
{
    BigEndian::read_u16(&bytes[at..])
}

/// The header that these bytes are. Any bytes are one.
#[tactic(auto, unfolding(crate::specs::Headers::header_of))]
pub fn read_header(bytes: &[u8; HEADER_LENGTH]) -> Header
    ensures value { result ≡ header_of bytes.now }
    ensures text { header_text result ≡ bytes.now }
{
    Header {
        tid: Tid(u64_at(bytes, 0)),
        length: u64_at(bytes, 8),
        status: bytes[STATUS_PLACE],
        user: u16_at(bytes, 17),
        description: u16_at(bytes, 19),
        extension: u16_at(bytes, 21),
    }
}

/// A header's numbers fit into their fields.
fn is_header(header: Header)
    ensures { IsHeader header }
{}

/// A data record's numbers fit into their fields.
fn is_data_header(header: DataHeader)
    ensures { IsDataHeader header }
{}

/// The bytes of a header.
#[tactic(auto, unfolding(crate::specs::Headers::header_text, crate::specs::Numbers::number))]
pub fn write_header(header: &Header) -> [u8; HEADER_LENGTH]
    ensures text { result ≡ header_text header.now }
    ensures value { header_of result ≡ header.now }
{
    is_header(*header);
    let t = header.tid.0.to_be_bytes();
    let l = header.length.to_be_bytes();
    let u = header.user.to_be_bytes();
    let d = header.description.to_be_bytes();
    let e = header.extension.to_be_bytes();
    [
        t[0],
        t[1],
        t[2],
        t[3],
        t[4],
        t[5],
        t[6],
        t[7],
        l[0],
        l[1],
        l[2],
        l[3],
        l[4],
        l[5],
        l[6],
        l[7],
        header.status,
        u[0],
        u[1],
        d[0],
        d[1],
        e[0],
        e[1],
    ]
}

/// The header of a data record that these bytes are. Any bytes are one.
#[tactic(auto, unfolding(crate::specs::Headers::data_header_of))]
pub fn read_data_header(bytes: &[u8; DATA_HEADER_LENGTH]) -> DataHeader
    ensures value { result ≡ data_header_of bytes.now }
    ensures text { data_header_text result ≡ bytes.now }
{
    DataHeader {
        oid: Oid(u64_at(bytes, 0)),
        tid: Tid(u64_at(bytes, 8)),
        previous: u64_at(bytes, 16),
        transaction: u64_at(bytes, 24),
        version: u16_at(bytes, 32),
        length: u64_at(bytes, 34),
    }
}

/// The bytes of a data record's header.
#[tactic(auto, unfolding(crate::specs::Headers::data_header_text, crate::specs::Numbers::number))]
pub fn write_data_header(header: &DataHeader) -> [u8; DATA_HEADER_LENGTH]
    ensures text { result ≡ data_header_text header.now }
    ensures value { data_header_of result ≡ header.now }
{
    is_data_header(*header);
    let mut out = [0; DATA_HEADER_LENGTH];
    BigEndian::write_u64(&mut out[0..8], header.oid.0);
    BigEndian::write_u64(&mut out[8..16], header.tid.0);
    BigEndian::write_u64(&mut out[16..24], header.previous);
    BigEndian::write_u64(&mut out[24..32], header.transaction);
    BigEndian::write_u16(&mut out[32..34], header.version);
    BigEndian::write_u64(&mut out[34..42], header.length);
    out
}
