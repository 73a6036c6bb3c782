//! Literals of the values that pickles hold, and their printing. Each value without objects and sharing
//! has one spelling.
#![tactic(auto)]

mod hexadecimal;
mod laws;
mod node_map;
mod parts;
mod printing;
mod records;
mod texts;

pub use hexadecimal::push_digits;
pub use laws::{plain_graphs_have_script_literals, trees_unfold_again};
pub use printing::{node_literal, write_literal};
pub use records::{push_record_literal, raw_literal, record_literal};
pub use texts::{is_name_byte, is_plain, is_quoted, push_escape, push_text};
