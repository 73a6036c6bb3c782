//! The lines of each client.

ghost use Rattle.std.specs.Prelude.{◌≡◌, ◌∷◌, [], IfNone, IfOk, IfSome, filter, length, map, option_copied, slice_get};
ghost use Rattle.std.specs.List.{AllByRecursion};
ghost use Rattle.client_turns.specs.Output.{is_turn_of};
ghost use Rattle.client_turns.specs.Refusing.{IsFittingLine};
ghost use Rattle.zb_script.specs.Shape.{is_open, openers};
ghost use Rattle.side_by_side.specs.Orders.{is_done, lines_of_each};

use std::alloc::{AllocError, Global};
use std::collections::VecDeque;
use std::marker::Model;
use zb_script::{Line, Name, Turn};

/// A client, and what is left of its lines. Contracts see its name and the turns.
#[derive(Drop)]
pub struct ClientLines<'t> {
    name: Name,
    left: VecDeque<&'t Turn>,
}

impl<'t> Model for ClientLines<'t> {
    ghost use Rattle.std.specs.Prelude.{map};
    ghost use Rattle.std.specs.List.{AllByRecursion};
    ghost use Rattle.client_turns.specs.Refusing.{IsFittingLine};
    ghost use Rattle.side_by_side.specs.Orders.{ClientLeft};

    ghost Value = { ClientLeft };

    ghost view = { λ c. record { name = c.name; left = map (λ t. t.now) c.left.items } };

    ghost invariant = { λ c. AllByRecursion (λ t. IsFittingLine t.line) (map (λ t. t.now) c.left.items) };
}

impl<'t> ClientLines<'t> {
    /// The client's name.
    pub fn name(&self) -> Name
        ensures { result ≡ self.now.name }
    {
        self.name
    }

    /// How many lines are left.
    pub(crate) fn count(&self) -> u64
        ensures { result ≡ length self.now.left }
    {
        self.left.len() as u64
    }

    /// The line that is taken next, if one is left.
    pub(crate) fn first(&self) -> Option<&Turn>
        ensures { option_copied result ≡ slice_get self.now.left 0 }
    {
        match self.left.front() {
            Some(turn) => Some(*turn),
            None => None,
        }
    }

    /// Takes the next line away, and answers with it whether it is the last.
    pub(crate) fn take_first(&mut self) -> Option<(&'t Turn, bool)>
        ensures first { IfSome result (λ p. self.old.left ≡ p.0.now ∷ self.new.left) }
        ensures last { IfSome result (λ p. p.1 ≡ is_done self.new.left) }
        ensures fits { IfSome result (λ p. IsFittingLine p.0.now.line) }
        ensures none { IfNone result (self.old.left ≡ []) }
        ensures name { self.new.name ≡ self.old.name }
    {
        let turn = self.left.pop_front()?;
        Some((turn, self.left.is_empty()))
    }
}

/// The lines of the client of this name, in their order.
#[tactic(auto, using(crate::proofs::Reading::line_more, crate::proofs::Reading::line_passed, crate::proofs::Reading::lines_all))]
fn lines_of<'t>(
    alloc: Global,
    turns: &'t [Turn],
    name: &Name,
) -> Result<VecDeque<&'t Turn>, AllocError>
    ensures { IfOk result (λ lines. map (λ t. t.now) lines.items ≡ filter (is_turn_of name.now) turns.now) }
{
    let mut lines = VecDeque::new(alloc);
    for turn in turns {
        if turn.client.as_bytes() == name.as_bytes() {
            lines.push_back(turn)?;
        }
    }
    Ok(lines)
}

/// Whether a line opens a session.
fn is_open(line: &Line) -> bool
    ensures { result ≡ is_open line.now }
{
    matches!(line, Line::Open { .. })
}

/// The clients of a script with all their lines, in the order of their `open` lines. The one error is want of
/// memory.
#[tactic(auto, using(crate::proofs::Reading::client_more, crate::proofs::Reading::client_passed, crate::proofs::Reading::clients_all, crate::proofs::Reading::fits_filtered))]
pub fn client_lines<'t>(
    alloc: Global,
    turns: &'t [Turn],
) -> Result<Vec<ClientLines<'t>>, AllocError>
    requires fitting { AllByRecursion (λ t. IsFittingLine t.line) turns.now }
    ensures { IfOk result (λ clients. clients.items ≡ lines_of_each turns.now) }
{
    let mut clients = Vec::new(alloc);
    for turn in turns {
        if is_open(&turn.line) {
            let left = lines_of(alloc, turns, &turn.client)?;
            clients.push(ClientLines {
                name: turn.client,
                left,
            })?;
        }
    }
    Ok(clients)
}
