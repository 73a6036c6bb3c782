//! The values of payloads as pickles spell them where nothing is shared: written, and read loosely.
#![tactic(auto)]

mod ids;
mod keys;
mod leaves;
mod values;

pub use ids::{behind_ids, oids_at, oids_in, tids_in};
pub use keys::is_key_spelled;
pub use leaves::{
    behind, behind_bytes, behind_count, behind_maybe_count, behind_maybe_id, behind_name, byte_in,
    bytes_in, count_in, id_in, items_in, maybe_count_in, maybe_id_in, name_in, small, truth_in,
};
pub use values::{
    count_length, put_bytes, put_closing, put_count, put_id, put_maybe_count, put_maybe_id,
    put_name, put_oids, put_opening, put_tids, put_truth,
};
