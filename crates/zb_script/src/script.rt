//! Reading a script.

ghost use Rattle.std.specs.Prelude.{◌≡◌, ◌≤◌, ◌⊎◌, ℕ, List, Option, Some, None, length, IfOk, Ok, Err, IsOkUnless, []};
ghost use Rattle.std.specs.List.{AllByRecursion};
ghost use Rattle.zb_script.specs.declared.limits.Limit.{Limit};
ghost use Rattle.zb_script.specs.declared.line.Line.{Line};
ghost use Rattle.zb_script.specs.declared.line.Turn.{Turn};
ghost use Rattle.zb_script.specs.Limits;
ghost use Rattle.zb_script.specs.Lines.{pieces};
ghost use Rattle.zb_script.specs.Reading.{ReadsAs, turn_at, turn_placed, turns_at};
ghost use Rattle.zb_script.specs.Script.{IsBadLine, IsScript};
ghost use Rattle.zb_script.specs.Shape.{ClientsOpenFirst};
ghost use Rattle.zb_script.specs.Spelling.{IsLine, IsLineText, IsTurn};
ghost use Rattle.zb_script.specs.Turns.{GivesTurns};

use crate::cutting::first_line;
use crate::errors::{ReadError, ScriptError};
use crate::limits::first_limit;
use crate::line::{Line, Turn};
use crate::opened::Opened;
use crate::reading::{line_of, turn_of};
use crate::shape::{can_stand, note_open};
use literal_reading::literals_are_exact;
use std::alloc::Global;
use zb_ids::ListOf;

/// The turn that a line spells, where it can stand behind the opens of these clients.
fn placed_turn(alloc: Global, opened: &Opened, text: &[u8]) -> Result<Turn, ReadError>
    ensures { ReadsAs (λ turn. turn) result (turn_placed opened.now (turn_at text.now)) }
{
    let turn = turn_of(alloc, text)?;
    if !can_stand(opened, &turn) {
        return Err(ReadError::Bad);
    }
    Ok(turn)
}

fn turns_of(alloc: Global, bytes: &[u8]) -> Result<ListOf<Turn>, ScriptError>
    ensures given { GivesTurns result (turns_at [] (pieces bytes.now)) }
    ensures fewer { IfOk result (λ turns. length turns ≤ length bytes.now) }
{
    let mut turns = ListOf::new(alloc);
    let mut opened = Opened {
        clients: ListOf::new(alloc),
        linked: ListOf::new(alloc),
    };
    let mut rest = bytes;
    while !rest.is_empty() {
        let (text, after) = first_line(rest);
        match placed_turn(alloc, &opened, text) {
            Ok(turn) => {
                note_open(&mut opened, &turn)?;
                turns.push(turn)?;
            }
            Err(ReadError::Memory) => return Err(ScriptError::Memory),
            Err(ReadError::Bad) => {
                return Err(ScriptError::BadLine {
                    number: turns.len() as u64 + 1,
                });
            }
        }
        rest = after;
    }
    Ok(turns)
}

/// The turns that the bytes spell.
///
/// `Limit` is answered exactly where the bytes pass a limit, with the first of them: bytes, lines, clients.
/// Within the limits it is `BadLine` exactly where a line is no turn's text or can't stand in its place, with
/// the number of the first such line. `Memory` is answered only for want of it. Nothing is left of what was
/// read.
pub fn read_script(alloc: Global, bytes: &[u8]) -> Result<ListOf<Turn>, ScriptError>
    // What is read is spelled so.
    ensures found { IfOk result (λ turns. IsScript bytes.now turns) }

    // What is spelled so within the limits is read, unless memory runs out.
    ensures only { (turns : List Turn) → IsScript bytes.now turns → Limits.first_limit bytes.now ≡ None → IsOkUnless result ScriptError.Memory }

    // The line that is named is the first bad one.
    ensures bad { (n : ℕ) → result ≡ Err (ScriptError.BadLine n) → IsBadLine bytes.now n }

    // A bad line is named where no limit is passed, unless memory runs out.
    ensures only_bad { (n : ℕ) → IsBadLine bytes.now n → Limits.first_limit bytes.now ≡ None → (result ≡ Err (ScriptError.BadLine n)) ⊎ (result ≡ Err ScriptError.Memory) }

    // The limit that is named is the first that is passed.
    ensures limit { (l : Limit) → result ≡ Err (ScriptError.Limit l) → Limits.first_limit bytes.now ≡ Some l }

    // A limit that is passed is named, unless memory runs out.
    ensures only_limit { (l : Limit) → Limits.first_limit bytes.now ≡ Some l → (result ≡ Err (ScriptError.Limit l)) ⊎ (result ≡ Err ScriptError.Memory) }

    // What a turn holds is in its range.
    ensures each { IfOk result (λ turns. AllByRecursion IsTurn turns) }

    // There is no line without a byte.
    ensures fewer { IfOk result (λ turns. length turns ≤ length bytes.now) }
{
    literals_are_exact();
    match first_limit(alloc, bytes)? {
        None => turns_of(alloc, bytes),
        Some(limit) => Err(ScriptError::Limit(limit)),
    }
}

/// The line that bytes spell, without a client's name before it.
///
/// `BadLine`, with the number 1, is answered exactly where they spell none, and `Memory` only for want of it.
pub fn read_line(alloc: Global, text: &[u8]) -> Result<Line, ScriptError>
    // What is read is spelled so.
    ensures found { IfOk result (λ line. IsLineText text.now line) }

    // What is spelled so is read, unless memory runs out.
    ensures only { (line : Line) → IsLineText text.now line → (result ≡ Ok line) ⊎ (result ≡ Err ScriptError.Memory) }

    // What the line holds is in its range.
    ensures fields { IfOk result IsLine }
{
    literals_are_exact();
    match line_of(alloc, text) {
        Ok(line) => Ok(line),
        Err(ReadError::Memory) => Err(ScriptError::Memory),
        Err(ReadError::Bad) => Err(ScriptError::BadLine { number: 1 }),
    }
}

/// The law that bytes are at most one script.
pub fn one_script()
    ensures { (bytes : List ℕ) (one other : List Turn) → IsScript bytes one → IsScript bytes other → one ≡ other }
{
    literals_are_exact();
}

/// The law of where lines stand: they stand in their places exactly where each client's first line is its
/// open, it has no other, and a client with a link has none that needs no link.
pub fn clients_open_first()
    ensures { ClientsOpenFirst }
{}
