//! A line of the script.

use zb_ids::Text8;

/// A line of the script: whose it is, and what it says.
#[derive(Debug, Drop)]
pub struct GenLine {
    /// The client's number, from 0 to 3.
    pub client: u64,
    /// What stands behind the client's name and a blank.
    pub text: Text8,
}
