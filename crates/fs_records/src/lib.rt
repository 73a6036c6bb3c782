//! What a FileStorage file is made of: its two headers, what a file stands for, where its damage
//! is, what an index of it gives, and how a transaction is written.
#![tactic(auto)]

mod field;
mod header;
mod laws;
mod placing;
mod verdict;
mod writing;

pub use field::Field;
pub use header::{
    COMMITTED, DATA_HEADER_LENGTH, DataHeader, HEADER_LENGTH, Header, PACKED, STATUS_PLACE, VOTED,
    read_data_header, read_header, write_data_header, write_header,
};
pub use laws::{
    always, below_is, bytes_have_one_reading, list_is_a_database, lookups_are_revisions,
    never_both, newest_is_the_last_record, one_damage, one_list, records_are_revisions,
    stands_where_a_record_was_read, written_blocks_are_read,
};
pub use placing::placed_records;
pub use verdict::Verdict;
pub use writing::{finishing_sets_the_status, record_length, write_transaction};
