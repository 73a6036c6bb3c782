//! A transaction that is to be voted.

use zb_ids::{ListOf, Oid, Text8, Tid};

/// What a new transaction makes of an object.
#[derive(Debug, Drop)]
pub enum NewContent {
    /// The object's record, which isn't empty.
    Bytes(Text8),
    /// The object isn't there from then on.
    Absent,
    /// The record that the object has in its revision with this serial.
    AsOf(Tid),
}

/// One object's new content.
#[derive(Debug, Drop)]
pub struct NewChange {
    /// The object.
    pub oid: Oid,
    /// What it is to be from then on.
    pub content: NewContent,
}

/// A transaction that a store is asked to vote.
#[derive(Debug, Drop)]
pub struct NewTransaction {
    /// Its number, greater than those of all transactions before it and below 2^64-1.
    pub tid: Tid,
    /// Who makes it, at most 65,535 bytes.
    pub user: Text8,
    /// What it is for, at most 65,535 bytes.
    pub description: Text8,
    /// Further notes of the program that makes it, at most 65,535 bytes.
    pub extension: Text8,
    /// The changes, in the order in which they were first stored. They name each object at most once.
    pub changes: ListOf<NewChange>,
}
