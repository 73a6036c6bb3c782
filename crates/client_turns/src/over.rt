//! Lines that the connection of a client with a link answers, over a carrier to its session.

ghost use Rattle.std.specs.Prelude.{◌≡◌, true};
ghost use Rattle.remote_loads.specs.Keeping.{KeepsWay};
ghost use Rattle.client_turns.specs.Asking.{is_of_connection, is_plain_call};
ghost use Rattle.client_turns.specs.OverCarrier.{CalledOver, LineOver, link_at};
ghost use Rattle.client_turns.specs.Refusing.{IsFittingLine};

use crate::answers::delivered;
use crate::calls::call_line;
use crate::reads_over::{get_over, load_over, put_over, undo_over, vote_over};
use connection_view::Connection;
use remote_loads::{Carrier, Remote};
use zb_answers::Answer;
use zb_ids::Text8;
use zb_model::Refusal;
use zb_script::Line;

/// Whether a line is answered as the call of its connection is, whatever the link.
fn is_plain(line: &Line) -> bool
    ensures { result ≡ is_plain_call line.now }
{
    matches!(
        line,
        Line::Begin
            | Line::Store { .. }
            | Line::Check { .. }
            | Line::Delete { .. }
            | Line::Savepoint
            | Line::Rollback { .. }
            | Line::Finish
            | Line::Abort
    )
}

/// A line that is answered as the call of its connection is.
fn plain_over<'c, W: Carrier>(
    connection: &mut Connection,
    remote: &mut Remote<'c, W>,
    line: &Line,
) -> Answer
    requires fitting { IsFittingLine line.now }
    requires asked { is_of_connection line.now ≡ true }
    requires plain { is_plain_call line.now ≡ true }
    ensures line { LineOver W.told W.steps W.machine line.now connection.old
        (link_at (W.end remote.old.carrier) (W.session remote.old.carrier) (W.desk remote.old.carrier) remote.old.client.now)
        result connection.new
        (link_at (W.end remote.new.carrier) (W.session remote.new.carrier) (W.desk remote.new.carrier) remote.new.client.now) }
    ensures keeps { KeepsWay W.session W.place W.later remote.old.carrier remote.new.carrier
        remote.old.client.ghost_name remote.new.client.ghost_name }
{
    let alloc = remote.alloc;
    call_line(alloc, connection, remote, line)
}

/// `deliver`: the client is told what was committed, and an open transaction stays as it is.
pub(crate) fn deliver_over<'c, W: Carrier>(
    connection: &mut Connection,
    remote: &mut Remote<'c, W>,
) -> Answer
    ensures line { CalledOver W.told W.steps W.machine (Line.Deliver) connection.old
        (link_at (W.end remote.old.carrier) (W.session remote.old.carrier) (W.desk remote.old.carrier) remote.old.client.now)
        result connection.new
        (link_at (W.end remote.new.carrier) (W.session remote.new.carrier) (W.desk remote.new.carrier) remote.new.client.now) }
    ensures keeps { KeepsWay W.session W.place W.later remote.old.carrier remote.new.carrier
        remote.old.client.ghost_name remote.new.client.ghost_name }
{
    match remote.sync() {
        Ok(_) => {}
        Err(refusal) => return Answer::Refused(refusal),
    }
    delivered(connection.deliver(remote))
}

/// A line of a client that its connection answers. Memory may be wanting for what it stores, and then nothing is called.
pub(crate) fn line_over<'c, W: Carrier>(
    connection: &mut Connection,
    remote: &mut Remote<'c, W>,
    line: &Line,
) -> Answer
    requires fitting { IsFittingLine line.now }
    requires asked { is_of_connection line.now ≡ true }
    ensures line { LineOver W.told W.steps W.machine line.now connection.old
        (link_at (W.end remote.old.carrier) (W.session remote.old.carrier) (W.desk remote.old.carrier) remote.old.client.now)
        result connection.new
        (link_at (W.end remote.new.carrier) (W.session remote.new.carrier) (W.desk remote.new.carrier) remote.new.client.now) }
    ensures keeps { KeepsWay W.session W.place W.later remote.old.carrier remote.new.carrier
        remote.old.client.ghost_name remote.new.client.ghost_name }
{
    if is_plain(line) {
        return plain_over(connection, remote, line);
    }
    match line {
        Line::Load { oid } => load_over(connection, remote, *oid),
        Line::Get { oid } => get_over(connection, remote, *oid),
        Line::Put { oid, bytes } => {
            let Ok(bytes) = Text8::from_slice(remote.alloc, bytes.as_slice()) else {
                return Answer::Refused(Refusal::Memory);
            };
            put_over(connection, remote, *oid, bytes)
        }
        Line::Vote { user, description } => vote_over(connection, remote, user, description),
        Line::Undo {
            user,
            description,
            tids,
        } => undo_over(connection, remote, user, description, tids.as_slice()),
        Line::Deliver => deliver_over(connection, remote),
        _ => unreachable!(),
    }
}
