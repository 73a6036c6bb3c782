//! The table of commands, as clap reads it: each is a subcommand, with one position, none, or up to two.

ghost use Rattle.std.specs.Prelude.{◌≡◌, IfOk};
ghost use Rattle.clap.specs.Words.{app_of};
ghost use Rattle.program_words.specs.Table.{AddsApp, alone, placed, placed_pair, placed_twice, program_app, program_top};

use clap::{Arg, Command};
use std::alloc::{AllocError, Global};

/// A command without a position.
fn alone<'a>(alloc: Global, name: &'a str) -> Command<'a>
    ensures { AddsApp result (alone name.entry.now) }
{
    Command::new(alloc, name)
}

/// A command with one position.
fn placed<'a>(alloc: Global, name: &'a str) -> Result<Command<'a>, AllocError>
    ensures { IfOk result (λ c. AddsApp c (placed name.entry.now)) }
{
    Command::new(alloc, name).arg(Arg::new(alloc, "position").required(true))
}

/// A command with one position, and a second one that may be left out.
fn placed_twice<'a>(alloc: Global, name: &'a str) -> Result<Command<'a>, AllocError>
    ensures { IfOk result (λ c. AddsApp c (placed_twice name.entry.now)) }
{
    let once = Command::new(alloc, name).arg(Arg::new(alloc, "position").required(true))?;
    once.arg(Arg::new(alloc, "more"))
}

/// A command with two positions.
fn placed_pair<'a>(alloc: Global, name: &'a str) -> Result<Command<'a>, AllocError>
    ensures { IfOk result (λ c. AddsApp c (placed_pair name.entry.now)) }
{
    let once = Command::new(alloc, name).arg(Arg::new(alloc, "position").required(true))?;
    once.arg(Arg::new(alloc, "more").required(true))
}

/// The program, without its commands.
fn bare<'a>(alloc: Global) -> Command<'a>
    ensures { app_of result ≡ program_top }
{
    Command::new(alloc, "zodb")
        .no_binary_name(true)
        .disable_help_flag(true)
        .disable_help_subcommand(true)
        .disable_version_flag(true)
        .subcommand_required(true)
}

/// The commands behind a path.
pub(crate) fn program<'a>(alloc: Global) -> Result<Command<'a>, AllocError>
    ensures { IfOk result (λ c. app_of c ≡ program_app) }
{
    bare(alloc)
        .subcommand(alone(alloc, "run"))?
        .subcommand(alone(alloc, "undolog"))?
        .subcommand(placed(alloc, "history")?)?
        .subcommand(placed(alloc, "show")?)?
        .subcommand(placed(alloc, "digest")?)?
        .subcommand(placed_twice(alloc, "pack")?)?
        .subcommand(placed(alloc, "check")?)?
        .subcommand(alone(alloc, "index"))?
        .subcommand(alone(alloc, "play"))?
        .subcommand(placed_pair(alloc, "serve")?)?
        .subcommand(placed(alloc, "gen")?)
}
