//! The texts of a transaction.

use zb_ids::Text8;

/// The texts of a transaction.
#[derive(Debug, Drop)]
pub struct Texts {
    /// Who makes it.
    pub user: Text8,
    /// What it is for.
    pub description: Text8,
    /// Further notes of the program that makes it.
    pub extension: Text8,
}
