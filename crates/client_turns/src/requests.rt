//! What a line asks of the hub, and what it is answered.

ghost use Rattle.std.specs.Prelude.{◌≡◌, IfSome};
ghost use Rattle.zodb_core.specs.HubState.{IsFitting};
ghost use Rattle.client_turns.specs.Asking;
ghost use Rattle.client_turns.specs.Asking.{IsPlain, plain_request};
ghost use Rattle.client_turns.specs.Lines.{answer_of, end_of};

use crate::errors::TurnError;
use zb_answers::Answer;
use zb_model::Refusal;
use zb_script::Line;
use zodb_core::{Reply, Request};

/// Whether a line is one that a connection answers.
pub(crate) fn is_of_connection(line: &Line) -> bool
    ensures { result ≡ Asking.is_of_connection line.now }
{
    match line {
        Line::Begin | Line::Load { .. } | Line::Get { .. } => true,
        Line::Store { .. } | Line::Put { .. } => true,
        Line::Check { .. } | Line::Delete { .. } => true,
        Line::Savepoint | Line::Rollback { .. } => true,
        Line::Vote { .. } | Line::Undo { .. } => true,
        Line::Finish | Line::Abort | Line::Deliver => true,
        _ => false,
    }
}

/// Whether a line asks nothing of a connection, and its answer comes in a message over a link.
pub(crate) fn is_question_line(line: &Line) -> bool
    ensures { result ≡ Asking.is_question_line line.now }
{
    match line {
        Line::New | Line::History { .. } | Line::UndoLog => true,
        Line::Pack { .. } | Line::PackBegin { .. } | Line::PackTurn => true,
        _ => false,
    }
}

/// Whether a line is asked by the client itself: of its connection, or, where it has a link, over that.
pub(crate) fn asks_by(is_linked: bool, line: &Line) -> bool
    ensures { result ≡ Asking.asks_by is_linked line.now }
{
    is_of_connection(line) || (is_linked && is_question_line(line))
}

/// The request of a line that asks nothing of the connection.
pub(crate) fn plain_request(line: &Line) -> Option<Request>
    ensures request { result ≡ plain_request line.now }
    ensures fitting { IfSome result IsFitting }
    ensures plain { IfSome result IsPlain }
{
    match line {
        Line::New => Some(Request::NewOids { count: 1 }),
        Line::History { oid } => Some(Request::History { oid: *oid }),
        Line::UndoLog => Some(Request::UndoLog),
        Line::Pack { tid, collect } => Some(Request::Pack {
            tid: *tid,
            collect: *collect,
        }),
        Line::PackBegin { tid, collect } => Some(Request::PackBegin {
            tid: *tid,
            collect: *collect,
        }),
        Line::PackTurn => Some(Request::PackTurn),
        Line::Close => Some(Request::Close),
        _ => None,
    }
}

/// What a line is answered that was this step.
pub(crate) fn answer_of(reply: Reply) -> Answer
    ensures { result ≡ answer_of reply }
{
    match reply {
        Reply::Front {
            front,
            news: _,
            switches: _,
        } => Answer::Begun { front },
        Reply::Loaded {
            serial,
            bytes,
            end: _,
            upto: _,
        } => Answer::Data { serial, bytes },
        Reply::Nothing { oid, switches: _ } => {
            Answer::Refused(Refusal::Missing { oid, packed: false })
        }
        Reply::Oids { first, count: _ } => Answer::Oid { oid: first },
        Reply::Voted => Answer::Voted,
        Reply::Committed { tid } => Answer::Committed { tid },
        Reply::Empty => Answer::Empty,
        Reply::Aborted => Answer::Aborted,
        Reply::History { list } => Answer::History { list },
        Reply::UndoLog { list } => Answer::UndoLog { list },
        Reply::Packed { kept, dropped } => Answer::Packed { kept, dropped },
        Reply::Packing { tid } => Answer::Packing { tid },
        Reply::Marking { count } => Answer::Marking { count },
        Reply::Marked { count } => Answer::Marked { count },
        Reply::Copying { count } => Answer::Copying { count },
        Reply::Copied { count } => Answer::Copied { count },
        Reply::Last { .. } | Reply::Since { .. } => Answer::Empty,
        Reply::Closed => Answer::Closed,
        Reply::Refused(why) => Answer::Refused(why),
    }
}

/// How an answer ends the run, if it does.
pub(crate) fn end_of(answer: &Answer) -> Option<TurnError>
    ensures { result ≡ end_of answer.now }
{
    match answer {
        Answer::Refused(Refusal::StoreFault) => Some(TurnError::StoreFault),
        Answer::Refused(Refusal::Memory) => Some(TurnError::Memory),
        _ => None,
    }
}
