//! Lines that a connection answers, over any loads.

ghost use Rattle.std.specs.Prelude.{◌≡◌, true};
ghost use Rattle.client_turns.specs.Asking.{is_of_connection};
ghost use Rattle.client_turns.specs.Calls.{CallsLine};
ghost use Rattle.client_turns.specs.Refusing.{IsFittingLine};

use crate::answers::{answered, begun, data_of, delivered, finished, object_of, saved};
use connection_view::{Connection, Loads};
use std::alloc::Global;
use zb_answers::Answer;
use zb_ids::Text8;
use zb_model::Refusal;
use zb_script::Line;

/// A line of a client that its connection answers. Memory may be wanting for what it stores, and then nothing is called.
pub(crate) fn call_line<L: Loads>(
    alloc: Global,
    connection: &mut Connection,
    loads: &mut L,
    line: &Line,
) -> Answer
    requires fitting { IsFittingLine line.now }
    requires asked { is_of_connection line.now ≡ true }
    ensures calls { CallsLine L.stands L.fresh L.makes L.state connection.old loads.old line.now result
        connection.new loads.new }
    ensures place { L.place loads.new ≡ L.place loads.old }
{
    match line {
        Line::Begin => begun(connection.begin(loads)),
        Line::Load { oid } => data_of(connection.load(loads, *oid)),
        Line::Get { oid } => object_of(connection.get(loads, *oid)),
        Line::Store { oid, base, bytes } => {
            let Ok(bytes) = Text8::from_slice(alloc, bytes.as_slice()) else {
                return Answer::Refused(Refusal::Memory);
            };
            answered(connection.store(loads, *oid, *base, bytes), Answer::Stored)
        }
        Line::Put { oid, bytes } => {
            let Ok(bytes) = Text8::from_slice(alloc, bytes.as_slice()) else {
                return Answer::Refused(Refusal::Memory);
            };
            answered(connection.put(loads, *oid, bytes), Answer::Stored)
        }
        Line::Check { oid, serial } => {
            answered(connection.check(loads, *oid, *serial), Answer::Checked)
        }
        Line::Delete { oid, base } => {
            answered(connection.delete(loads, *oid, *base), Answer::Deleted)
        }
        Line::Savepoint => saved(connection.savepoint(loads)),
        Line::Rollback { number } => answered(
            connection.rollback(loads, *number),
            Answer::Rolled { number: *number },
        ),
        Line::Vote { user, description } => {
            answered(connection.vote(loads, user, description), Answer::Voted)
        }
        Line::Undo {
            user,
            description,
            tids,
        } => answered(
            connection.undo(loads, user, description, tids.as_slice()),
            Answer::Voted,
        ),
        Line::Finish => finished(connection.finish(loads)),
        Line::Abort => answered(connection.abort(loads), Answer::Aborted),
        Line::Deliver => delivered(connection.deliver(loads)),
        _ => unreachable!(),
    }
}
