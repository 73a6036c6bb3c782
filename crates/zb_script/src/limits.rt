//! The limits of a script.

ghost use Rattle.std.specs.Prelude.{◌≡◌, ◌≤◌, nat_lt, length, map, IfOk, OnOk};
ghost use Rattle.zb_script.specs.Limits.{clients_of, first_limit, first_word, limit_count, limit_name, with_name};
ghost use Rattle.zb_script.specs.Lines.{pieces};

use crate::cutting::{first_line, place_of};
use crate::name::Name;
use crate::shape::is_among;
use std::alloc::{AllocError, Global};
use thiserror::Error;
use zb_ids::ListOf;

/// A limit of a script. They are tested in this order.
#[derive(Clone, Copy, Debug, PartialEq, Eq, Error)]
pub enum Limit {
    /// How many bytes there may be.
    #[error("more than 67108864 bytes")]
    Bytes,
    /// How many lines there may be.
    #[error("more than 100000 lines")]
    Lines,
    /// How many words of a name's form may stand first on a line.
    #[error("more than 64 clients")]
    Clients,
}

impl Limit {
    /// Its name: `bytes`, `lines` or `clients`.
    pub fn name(self) -> &'static [u8]
        ensures { result.now ≡ limit_name self }
    {
        match self {
            Limit::Bytes => b"bytes",
            Limit::Lines => b"lines",
            Limit::Clients => b"clients",
        }
    }

    /// The greatest number that doesn't pass it.
    pub fn count(self) -> u64
        ensures { result ≡ limit_count self }
    {
        match self {
            Limit::Bytes => 67_108_864,
            Limit::Lines => 100_000,
            Limit::Clients => 64,
        }
    }
}

fn count_lines(bytes: &[u8]) -> usize
    ensures { result ≡ length (pieces bytes.now) }
{
    let mut count = 0;
    let mut rest = bytes;
    while !rest.is_empty() {
        let (_, after) = first_line(rest);
        count += 1;
        rest = after;
    }
    count
}

fn first_word(text: &[u8]) -> &[u8]
    ensures { result.now ≡ first_word text.now }
{
    match place_of(b' ', text) {
        Some(i) => text.split_at(i).0,
        None => text,
    }
}

/// Puts a word behind the names, where it has a name's form and isn't there yet.
fn note_name(names: &mut ListOf<Name>, word: &[u8]) -> Result<(), AllocError>
    ensures { OnOk result (names.new ≡ with_name names.old word.now) }
{
    let Some(name) = Name::new(word) else {
        return Ok(());
    };
    if is_among(name, names.as_slice()) {
        return Ok(());
    }
    names.push(name)?;
    Ok(())
}

/// Whether more than 64 words of a name's form stand first on a line.
fn has_many_clients(alloc: Global, bytes: &[u8]) -> Result<bool, AllocError>
    ensures { IfOk result (λ many. many ≡ nat_lt 64 (length (clients_of bytes.now))) }
{
    let mut names = ListOf::new(alloc);
    let mut rest = bytes;
    while !rest.is_empty() {
        let (text, after) = first_line(rest);
        note_name(&mut names, first_word(text))?;
        if names.len() > 64 {
            return Ok(true);
        }
        rest = after;
    }
    Ok(false)
}

/// The first limit that the bytes pass.
pub(crate) fn first_limit(alloc: Global, bytes: &[u8]) -> Result<Option<Limit>, AllocError>
    ensures { IfOk result (λ limit. limit ≡ first_limit bytes.now) }
{
    if bytes.len() > 67_108_864 {
        return Ok(Some(Limit::Bytes));
    }
    if count_lines(bytes) > 100_000 {
        return Ok(Some(Limit::Lines));
    }
    if has_many_clients(alloc, bytes)? {
        return Ok(Some(Limit::Clients));
    }
    Ok(None)
}
