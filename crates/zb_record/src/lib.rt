//! Records of objects. A record is two pickles, one behind the other and nothing else: the object's
//! class and its state.
#![tactic(auto)]

mod error;
mod laws;
mod printing;
mod reading;
mod record;
mod writing;

pub use error::RecordError;
pub use laws::{alike_records_are_kept, records_are_two_pickles, written_records_read_back};
pub use printing::object_literal;
pub use reading::{read_record, references};
pub use record::ObjectRecord;
pub use writing::write_record;
