//! Which turn is its client's last.

ghost use Rattle.std.specs.Prelude.{◌≡◌, IfOk, not};
ghost use Rattle.client_turns.specs.Output.{has, last_flags, with_name};

use std::alloc::{AllocError, Global};
use zb_script::{Name, Turn};

/// Whether a name is among these.
fn is_among(names: &[Name], name: &Name) -> bool
    ensures { result ≡ has name.now names.now }
{
    names
        .iter()
        .any(|other| other.as_bytes() == name.as_bytes())
}

/// Puts a name among these where it isn't yet, and answers whether it wasn't.
fn remember(names: &mut Vec<Name>, name: Name) -> Result<bool, AllocError>
    ensures new { IfOk result (λ is_new. is_new ≡ not (has name names.old.items)) }
    ensures names { IfOk result (λ is_new. names.new.items ≡ with_name names.old.items name is_new) }
{
    if is_among(names.as_slice(), &name) {
        return Ok(false);
    }
    names.push(name)?;
    Ok(true)
}

/// Of each turn whether it is its client's last. The one error is want of memory.
#[tactic(auto, using(crate::proofs::Lasting::found_start, crate::proofs::Lasting::found_more, crate::proofs::Lasting::found_all))]
pub fn last_turns(alloc: Global, turns: &[Turn]) -> Result<Vec<bool>, AllocError>
    ensures flags { IfOk result (λ flags. flags.items ≡ last_flags turns.now) }
{
    let mut names: Vec<Name> = Vec::new(alloc);
    let mut flags: Vec<bool> = Vec::new(alloc);
    let mut i = turns.len();
    while i > 0 {
        i -= 1;
        let is_last = remember(&mut names, turns[i].client)?;
        flags.push(is_last)?;
    }
    flags.reverse();
    Ok(flags)
}
