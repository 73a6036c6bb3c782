//! What the words behind a path name, as clap reads them.

ghost use Rattle.std.specs.Prelude.{◌≡◌, IfOk, codes, map, option_map, string_bytes, false};
ghost use Rattle.std.specs.List.{AllByRecursion};
ghost use Rattle.clap.specs.Words.{subcommand_rows_of};
ghost use Rattle.program_words.specs.Words.{is_dashed, named_of};
ghost use Rattle.clap.specs.Values.{kind_of};
ghost use Rattle.program_words.specs.Table.{is_starved, named_in};

use crate::table::program;
use clap::error::ErrorKind;
use clap::{ArgMatches, Error};
use std::alloc::{AllocError, Global};

/// A command's name, and the words at its positions, where they are there.
pub(crate) type Named<'a> = (&'a str, Option<&'a str>, Option<&'a str>);

/// The subcommand that was met, and the values of its positions.
#[tactic(auto, using(crate::proofs::Matched::entered_some, crate::proofs::Matched::entered_none))]
fn entered<'a>(matches: &ArgMatches<'a>) -> Option<Named<'a>>
    ensures { option_map (λ p. (p.0.now, option_map (λ s. s.now) p.1, option_map (λ s. s.now) p.2)) result ≡ named_in (subcommand_rows_of matches.now) }
{
    match matches.subcommand() {
        Some((name, inner)) => Some((name, inner.get_str("position"), inner.get_str("more"))),
        None => None,
    }
}

/// Whether an error tells of want of memory.
fn is_starved(error: &Error) -> bool
    ensures { result ≡ is_starved (kind_of error.now) }
{
    match error.kind() {
        ErrorKind::OutOfMemory => true,
        _ => false,
    }
}

/// What words without a dash name.
#[tactic(auto, using(crate::proofs::Matched::ok_named, crate::proofs::Matched::err_named))]
pub(crate) fn named<'a>(alloc: Global, words: &'a [String]) -> Result<Option<Named<'a>>, AllocError>
    requires { AllByRecursion (λ word. is_dashed word ≡ false) (map string_bytes words.now) }
    ensures { IfOk result (λ found. option_map (λ p. (p.0.now, option_map (λ s. s.now) p.1, option_map (λ s. s.now) p.2)) found ≡ named_of (map string_bytes words.now)) }
{
    match program(alloc)?.try_get_matches_from(words) {
        Ok(matches) => Ok(entered(&matches)),
        Err(error) => {
            if is_starved(&error) {
                return Err(AllocError);
            }
            Ok(None)
        }
    }
}
