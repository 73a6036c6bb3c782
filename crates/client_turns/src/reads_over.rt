//! Lines of a client with a link that read, vote or undo, over a carrier to its session.

ghost use Rattle.std.specs.Prelude.{◌≡◌, ◌<◌, ◌≤◌, length};
ghost use Rattle.connection_view.specs.Connections;
ghost use Rattle.remote_loads.specs.Keeping.{KeepsWay};
ghost use Rattle.client_turns.specs.OverCarrier.{CalledOver, FittingOver, fitting, heard_of, link_at};

use crate::answers::{answered, data_of, object_of};
use connection_view::Connection;
use remote_loads::{Carrier, Remote};
use zb_answers::Answer;
use zb_ids::{ListOf, Oid, Text8, Tid};
use zb_model::Refusal;
use zb_script::Line;
use zeo_frames::FRAME_LIMIT;

/// The longest record for which the shortest answer that it may come in fits a frame.
const RECORD_LIMIT: usize = (FRAME_LIMIT - 51) as usize;

/// What was read over a link, which has fitted a frame. That each entry of a cache, and each object that a connection
/// keeps, came in one, none of their contracts says: where it couldn't have, which never is, there was no memory.
fn fitting(read: Result<(Tid, Text8), Refusal>) -> Result<(Tid, Text8), Refusal>
    ensures { result ≡ fitting read }
{
    match read {
        Ok((serial, bytes)) => {
            if bytes.len() <= RECORD_LIMIT {
                Ok((serial, bytes))
            } else {
                Err(Refusal::Memory)
            }
        }
        Err(refusal) => Err(refusal),
    }
}

/// The base of what is put, by what was read.
fn base_read(read: Result<(Tid, Text8), Refusal>) -> Result<Tid, Refusal>
    ensures { result ≡ Connections.base_read read }
{
    match read {
        Ok(read) => Ok(read.0),
        Err(
            Refusal::Missing {
                oid: _,
                packed: false,
            },
        ) => Ok(Tid(0)),
        Err(refusal) => Err(refusal),
    }
}

/// What is heard of a vote or an undo. What was asked for is no bad message: where an answer says so, the answer itself
/// couldn't be sent, as a conflict that names a key in no spelling of one, and is lost.
fn heard_of(done: Result<(), Refusal>) -> Result<(), Refusal>
    ensures { result ≡ heard_of done }
{
    match done {
        Err(Refusal::BadMessage) => Err(Refusal::Memory),
        done => done,
    }
}

/// `load`: what a read answers.
pub(crate) fn load_over<'c, W: Carrier>(
    connection: &mut Connection,
    remote: &mut Remote<'c, W>,
    oid: Oid,
) -> Answer
    ensures line { CalledOver W.told W.steps W.machine (Line.Load oid) connection.old
        (link_at (W.end remote.old.carrier) (W.session remote.old.carrier) (W.desk remote.old.carrier) remote.old.client.now)
        result connection.new
        (link_at (W.end remote.new.carrier) (W.session remote.new.carrier) (W.desk remote.new.carrier) remote.new.client.now) }
    ensures keeps { KeepsWay W.session W.place W.later remote.old.carrier remote.new.carrier
        remote.old.client.ghost_name remote.new.client.ghost_name }
{
    data_of(fitting(connection.load(remote, oid)))
}

/// What a transaction has of an object: what waits for it, or else what a read answers.
pub(crate) fn read_over<'c, W: Carrier>(
    connection: &mut Connection,
    remote: &mut Remote<'c, W>,
    oid: Oid,
) -> Result<(Tid, Text8), Refusal>
    ensures got { FittingOver W.told W.steps W.machine connection.old
        (link_at (W.end remote.old.carrier) (W.session remote.old.carrier) (W.desk remote.old.carrier) remote.old.client.now)
        oid result connection.new
        (link_at (W.end remote.new.carrier) (W.session remote.new.carrier) (W.desk remote.new.carrier) remote.new.client.now) }
    ensures keeps { KeepsWay W.session W.place W.later remote.old.carrier remote.new.carrier
        remote.old.client.ghost_name remote.new.client.ghost_name }
{
    fitting(connection.get(remote, oid))
}

/// `get`: what waits for the object, or else what a read answers.
pub(crate) fn get_over<'c, W: Carrier>(
    connection: &mut Connection,
    remote: &mut Remote<'c, W>,
    oid: Oid,
) -> Answer
    ensures line { CalledOver W.told W.steps W.machine (Line.Get oid) connection.old
        (link_at (W.end remote.old.carrier) (W.session remote.old.carrier) (W.desk remote.old.carrier) remote.old.client.now)
        result connection.new
        (link_at (W.end remote.new.carrier) (W.session remote.new.carrier) (W.desk remote.new.carrier) remote.new.client.now) }
    ensures keeps { KeepsWay W.session W.place W.later remote.old.carrier remote.new.carrier
        remote.old.client.ghost_name remote.new.client.ghost_name }
{
    object_of(read_over(connection, remote, oid))
}

/// `put`: a store that waits keeps its base, else the base is the serial that a read answers. What was read is tested as
/// each read is, so this is a read and a store; that nothing is stored first tells whether the transaction may be changed.
pub(crate) fn put_over<'c, W: Carrier>(
    connection: &mut Connection,
    remote: &mut Remote<'c, W>,
    oid: Oid,
    bytes: Text8,
) -> Answer
    requires filled { 0 < length bytes }
    ensures line { CalledOver W.told W.steps W.machine (Line.Put oid bytes) connection.old
        (link_at (W.end remote.old.carrier) (W.session remote.old.carrier) (W.desk remote.old.carrier) remote.old.client.now)
        result connection.new
        (link_at (W.end remote.new.carrier) (W.session remote.new.carrier) (W.desk remote.new.carrier) remote.new.client.now) }
    ensures keeps { KeepsWay W.session W.place W.later remote.old.carrier remote.new.carrier
        remote.old.client.ghost_name remote.new.client.ghost_name }
{
    match connection.store_all(ListOf::new(remote.alloc)) {
        Ok(()) => {}
        Err(refusal) => return Answer::Refused(refusal),
    }
    let base = match base_read(read_over(connection, remote, oid)) {
        Ok(base) => base,
        Err(refusal) => return Answer::Refused(refusal),
    };
    answered(connection.store(remote, oid, base, bytes), Answer::Stored)
}

/// `vote`: what waits is voted on.
pub(crate) fn vote_over<'c, W: Carrier>(
    connection: &mut Connection,
    remote: &mut Remote<'c, W>,
    user: &Text8,
    description: &Text8,
) -> Answer
    requires user { length user.now ≤ 65535 }
    requires description { length description.now ≤ 65535 }
    ensures line { CalledOver W.told W.steps W.machine (Line.Vote user.now description.now) connection.old
        (link_at (W.end remote.old.carrier) (W.session remote.old.carrier) (W.desk remote.old.carrier) remote.old.client.now)
        result connection.new
        (link_at (W.end remote.new.carrier) (W.session remote.new.carrier) (W.desk remote.new.carrier) remote.new.client.now) }
    ensures keeps { KeepsWay W.session W.place W.later remote.old.carrier remote.new.carrier
        remote.old.client.ghost_name remote.new.client.ghost_name }
{
    answered(
        heard_of(connection.vote(remote, user, description)),
        Answer::Voted,
    )
}

/// `undo`: undoing transactions is voted on.
pub(crate) fn undo_over<'c, W: Carrier>(
    connection: &mut Connection,
    remote: &mut Remote<'c, W>,
    user: &Text8,
    description: &Text8,
    tids: &[Tid],
) -> Answer
    requires user { length user.now ≤ 65535 }
    requires description { length description.now ≤ 65535 }
    ensures line { CalledOver W.told W.steps W.machine (Line.Undo user.now description.now tids.now) connection.old
        (link_at (W.end remote.old.carrier) (W.session remote.old.carrier) (W.desk remote.old.carrier) remote.old.client.now)
        result connection.new
        (link_at (W.end remote.new.carrier) (W.session remote.new.carrier) (W.desk remote.new.carrier) remote.new.client.now) }
    ensures keeps { KeepsWay W.session W.place W.later remote.old.carrier remote.new.carrier
        remote.old.client.ghost_name remote.new.client.ghost_name }
{
    answered(
        heard_of(connection.undo(remote, user, description, tids)),
        Answer::Voted,
    )
}
