//! The turns of the script, made as they are taken.

ghost use Rattle.std.specs.Prelude.{◌≡◌, ◌<◌, ◌≤◌, IfOk, OnOk, IfSome, Some, length, slice_get};
ghost use Rattle.zb_script.specs.Names.{IsName};
ghost use Rattle.zb_script.specs.Spelling.{IsLine, IsLineText};
ghost use Rattle.gen_script.specs.Left.{GivesNext, IsReady, SaysLine, lines_left};
ghost use Rattle.gen_script.specs.Script.{client_name, gen_lines};

use crate::blocks::{round, setup};
use crate::counting::{count_down, counts_of};
use crate::line::GenLine;
use std::alloc::{AllocError, Global};
use zb_ids::ListOf;
use zb_script::{Line, Name, ScriptError, Turn, read_line};

/// How many rounds the script has at most.
pub const MOST_ROUNDS: u64 = 8_000;

/// A turn of the script.
#[derive(Drop)]
pub struct GenTurn {
    /// The turn.
    pub turn: Turn,
    /// Whether it is its client's last.
    pub is_last: bool,
}

/// What is left of the script of `gen N`. One round of it is kept as lines, and each turn is read when it is
/// taken.
#[derive(Drop)]
pub struct GenTurns {
    alloc: Global,
    block: ListOf<GenLine>,
    at: usize,
    round: u64,
    x: u64,
    rounds_left: u64,
    counts: [u64; 4],
}

/// The name that these bytes are.
fn named(bytes: &[u8]) -> Name
    requires { IsName bytes.now }
    ensures { result ≡ bytes.now }
{
    match Name::new(bytes) {
        Some(name) => name,
        None => unreachable!(),
    }
}

/// The name of a client.
fn name_of(client: u64) -> Name
    requires { client < 4 }
    ensures { result ≡ client_name client }
{
    match client {
        0 => named(b"c0"),
        1 => named(b"c1"),
        2 => named(b"c2"),
        _ => named(b"c3"),
    }
}

/// The line at a place.
fn line_at(block: &[GenLine], at: usize) -> &GenLine
    requires { at < length block.now }
    ensures { slice_get block.now at ≡ Some result.now }
{
    &block[at]
}

/// The line that a text says.
fn line_of(alloc: Global, text: &[u8]) -> Result<Line, AllocError>
    requires { SaysLine text.now }
    ensures found { IfOk result (λ line. IsLineText text.now line) }
    ensures fields { IfOk result IsLine }
{
    match read_line(alloc, text) {
        Ok(line) => Ok(line),
        Err(ScriptError::Memory) => Err(AllocError),
        Err(ScriptError::Limit(_)) | Err(ScriptError::BadLine { .. }) => unreachable!(),
    }
}

impl GenTurns {
    /// The script of so many rounds, none of which was taken.
    pub fn new(alloc: Global, rounds: u64) -> Result<GenTurns, AllocError>
        requires { rounds ≤ 8000 }
        ensures lines { IfOk result (λ turns. lines_left turns ≡ gen_lines rounds) }
        ensures ready { IfOk result IsReady }
    {
        let block = setup(alloc)?;
        Ok(GenTurns {
            alloc,
            block,
            at: 0,
            round: 1,
            x: rounds,
            rounds_left: rounds,
            counts: counts_of(rounds),
        })
    }

    /// Makes the next round, where the last one was taken whole.
    fn fill(&mut self) -> Result<(), AllocError>
        requires ready { IsReady self.old }
        requires over { length self.old.block ≤ self.old.at }
        requires more { 0 < self.old.rounds_left }
        ensures lines { OnOk result (lines_left self.new ≡ lines_left self.old) }
        ensures ready { OnOk result (IsReady self.new) }
        ensures some { OnOk result (self.new.at < length self.new.block) }
    {
        let (block, x) = round(self.alloc, self.round, self.x)?;
        self.block = block;
        self.at = 0;
        self.round += 1;
        self.x = x;
        self.rounds_left -= 1;
        Ok(())
    }

    /// Takes the first line of the round that was made last.
    fn take(&mut self) -> Result<GenTurn, AllocError>
        requires ready { IsReady self.old }
        requires some { self.old.at < length self.old.block }
        ensures taken { IfOk result (λ turn. GivesNext (lines_left self.old) (Some turn) (lines_left self.new)) }
        ensures ready { OnOk result (IsReady self.new) }
        ensures fields { IfOk result (λ turn. IsLine turn.turn.line) }
    {
        let first = line_at(self.block.as_slice(), self.at);
        let client = first.client;
        let line = line_of(self.alloc, first.text.as_slice())?;
        self.at += 1;
        let is_last = count_down(&mut self.counts, client);
        Ok(GenTurn {
            turn: Turn {
                client: name_of(client),
                line,
            },
            is_last,
        })
    }

    /// Takes the next turn, or `None` where none is left. The one error is want of memory.
    pub fn next(&mut self) -> Result<Option<GenTurn>, AllocError>
        requires ready { IsReady self.old }
        ensures given { IfOk result (λ given. GivesNext (lines_left self.old) given (lines_left self.new)) }
        ensures ready { OnOk result (IsReady self.new) }
        ensures fields { IfOk result (λ given. IfSome given (λ turn. IsLine turn.turn.line)) }
    {
        if self.at >= self.block.len() {
            if self.rounds_left == 0 {
                return Ok(None);
            }
            self.fill()?;
        }
        let turn = self.take()?;
        Ok(Some(turn))
    }
}
