//! The opcodes and tokens of pickles, as far as this project reads them: forty opcodes of protocols
//! 0 to 3. A token is an opcode with its argument. No call takes memory.
#![tactic(auto)]

mod argument;
mod laws;
mod table;
mod token;

pub use laws::{bytes_stand_once, spelled_tokens_are_read};
pub use table::{Kind, Op, OpTable, Row, TABLE, op_of};
pub use token::{Token, TokenError, next_token};
