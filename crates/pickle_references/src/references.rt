//! References.

ghost use Rattle.std.specs.Prelude.{◌≡◌, ◌<◌, ◌≤◌, drop, length, IfOk, IfErr};
ghost use Rattle.pickle_reading.specs.Reading.{read_from};
ghost use Rattle.pickle_references.specs.References;
ghost use Rattle.pickle_references.specs.References.{parts, root_at, oids_at};
ghost use Rattle.pickle_references.specs.Shown.{sight_of, IsSeen};
ghost use Rattle.pickle_reading.specs.Sound.{IsSoundState};
ghost use Rattle.pickle_reading.specs.Steps.{AnswersAs, RefusesAs};

use crate::finding::{Finding, find};
use crate::shapes::Shape;
use pickle_ops::next_token;
use pickle_reading::{Item, NODE_LIMIT, PickleError, ends, first_room};
use std::alloc::Global;
use zb_ids::{ListOf, Oid};

/// What a persistent id names.
#[derive(Clone, Copy)]
pub(crate) enum Named {
    /// An object that is referred to.
    Strong(Oid),
    /// Something weak or foreign, which is not followed.
    Weak,
    /// Nothing: references have no such ids.
    Bad,
}

/// The number of the value on the top, at the STOP of a place.
fn root_on_top(sight: &Finding<Shape>, at: usize) -> Result<u32, PickleError>
    ensures root { AnswersAs result (root_at at sight.now.state.stack) }
{
    match sight.state.stack.top() {
        Some(Item::Value(root)) => Ok(root),
        _ => Err(PickleError::Stack { at }),
    }
}

/// Goes on to STOP. The answer is the number of the value on the top there, and the place behind.
///
/// Where what is kept shows what a reader of graphs found, the answer shows what that reader finds
/// then.
pub(crate) fn look_to_stop(
    alloc: Global,
    sight: &mut Finding<Shape>,
    input: &[u8],
    at: usize,
) -> Result<(u32, usize), PickleError>
    ensures seen { IfOk result (λ r. (f : References.Finding) → sight.old ≡ sight_of f
        → IsSoundState f.state
        → IsSeen r.0 r.1 f.state.limit sight.new (read_from parts 0 f at (drop at input.now))) }
    ensures refused { IfErr result (λ e. (f : References.Finding) → sight.old ≡ sight_of f
        → IsSoundState f.state
        → RefusesAs e (read_from parts 0 f at (drop at input.now))) }
    ensures behind { IfOk result (λ r. at < r.1) }
    ensures inside { IfOk result (λ r. r.1 ≤ length input.now) }
{
    let mut place = at;
    loop {
        let (token, next) = next_token(input, place)?;
        if ends(token.op) {
            let root = root_on_top(sight, place)?;
            return Ok((root, next));
        }
        let bytes = &input[token.start..token.start + token.length];
        find(alloc, sight, token, place, bytes)?;
        place = next;
    }
}

/// The oids that the pickle at a place of the input refers to, in the order of their tokens,
/// whether or not the root reaches them, and the place behind its STOP.
///
/// A persistent id is an oid, which is eight bytes or a string of Python 2 of eight, the highest
/// byte first; or a tuple whose first item is an oid; or a list, which is a weak or foreign
/// reference and is left out. `BadReference` is answered at the token of any other id. All other
/// refusals are those of [`read_pickle`](crate::read_pickle), and the first token that has one
/// decides; a token that would make one node too many is `TooLarge` also where its id is bad.
pub fn references_of(
    alloc: Global,
    input: &[u8],
    at: usize,
) -> Result<(ListOf<Oid>, usize), PickleError>
    ensures oids { AnswersAs result (oids_at at (drop at input.now)) }
    ensures behind { IfOk result (λ r. at < r.1) }
    ensures inside { IfOk result (λ r. r.1 ≤ length input.now) }
{
    let room = first_room(input.len().saturating_sub(at));
    let mut sight: Finding<Shape> = Finding::new(alloc, NODE_LIMIT, room);
    let stop = look_to_stop(alloc, &mut sight, input, at)?;
    Ok((sight.oids, stop.1))
}
