//! What a remote client asks of its server beside the calls of its loads.

ghost use Rattle.std.specs.Prelude.{◌≡◌, true};
ghost use Rattle.connection_view.specs.Views.{Client};
ghost use Rattle.zeo_messages.specs.Calls.{HoldsCall};
ghost use Rattle.remote_loads.specs.Keeping.{GoesItsWay};
ghost use Rattle.remote_loads.specs.Making.{IsMadeBy, left_alone};
ghost use Rattle.remote_loads.specs.Requesting.{QuestionLeaves, asks_history, call_of, empty_reply, is_question, reply_in, turned_reply};
ghost use Rattle.remote_loads.specs.Standing.{Stands};

use crate::carrier::Carrier;
use crate::causes::far_refusal;
use crate::holding::are_ids;
use crate::remote::Remote;
use std::alloc::Global;
use zb_ids::{ListOf, Oid};
use zb_model::Refusal;
use zeo_client::whole_pieces_are_heard;
use zeo_messages::{Answer, Call, Stage};
use zeo_reading::payloads_are_read_back;
use zodb_core::{Reply, Request};

/// The call of a question.
fn call_of(request: &Request) -> Call
    requires question { is_question request.now ≡ true }
    ensures call { result ≡ call_of request.now }
    ensures held { HoldsCall result }
{
    match request {
        Request::History { oid } => {
            are_ids(oid.0, oid.0);
            Call::History { oid: *oid }
        }
        Request::UndoLog => Call::UndoInfo,
        Request::Pack { tid, collect } => {
            are_ids(tid.0, tid.0);
            Call::Pack {
                tid: *tid,
                collect: *collect,
            }
        }
        Request::PackBegin { tid, collect } => {
            are_ids(tid.0, tid.0);
            Call::PackBegin {
                tid: *tid,
                collect: *collect,
            }
        }
        Request::PackTurn => Call::PackTurn,
        _ => Call::LastTransaction,
    }
}

/// The reply that an empty list is.
fn empty_reply(alloc: Global, history: bool) -> Reply
    ensures { result ≡ empty_reply history }
{
    if history {
        Reply::History {
            list: ListOf::new(alloc),
        }
    } else {
        Reply::UndoLog {
            list: ListOf::new(alloc),
        }
    }
}

/// A turn of a pack that isn't its last.
fn turned_reply(stage: Stage, count: u64) -> Reply
    ensures { result ≡ turned_reply stage count }
{
    match stage {
        Stage::Marking => Reply::Marking { count },
        Stage::Marked => Reply::Marked { count },
        Stage::Copying => Reply::Copying { count },
        Stage::Copied => Reply::Copied { count },
    }
}

/// The reply that the answer to a question is.
fn reply_in(alloc: Global, history: bool, answer: Answer) -> Result<Reply, Refusal>
    ensures { result ≡ reply_in history answer }
{
    match answer {
        Answer::EmptyList => Ok(empty_reply(alloc, history)),
        Answer::Revisions { list } => Ok(Reply::History { list }),
        Answer::LogLines { list } => Ok(Reply::UndoLog { list }),
        Answer::Packed { kept, dropped } => Ok(Reply::Packed { kept, dropped }),
        Answer::Switched { kept, dropped } => Ok(Reply::Packed { kept, dropped }),
        Answer::OneTid { tid } => Ok(Reply::Packing { tid }),
        Answer::Turned { stage, count } => Ok(turned_reply(stage, count)),
        Answer::TidAndCount { tid, count } => Ok(Reply::Last {
            tid,
            changes: count,
        }),
        Answer::Refused { refusal } => Err(far_refusal(refusal)),
        Answer::Done => Err(Refusal::BadMessage),
        Answer::Loaded { .. } => Err(Refusal::BadMessage),
        Answer::Nothing { .. } => Err(Refusal::BadMessage),
        Answer::Oids { .. } => Err(Refusal::BadMessage),
        Answer::Commits { .. } => Err(Refusal::BadMessage),
    }
}

/// Whether the changes of an object are asked for.
fn asks_history(request: &Request) -> bool
    ensures { result ≡ asks_history request.now }
{
    matches!(request, Request::History { .. })
}

impl<'c, W: Carrier> Remote<'c, W> {
    /// A question, by its call.
    #[tactic(auto, using(crate::proofs::Made::made_refused, crate::proofs::Made::made_answers))]
    fn question_made(&mut self, request: &Request) -> Result<Reply, Refusal>
        requires question { is_question request.now ≡ true }
        ensures way { GoesItsWay W.faults W.closed W.session W.place W.later self.old.carrier
            self.new.carrier self.old.client self.new.client result }
        ensures held { HoldsCall (call_of request.now) }
        ensures told { W.told → IsMadeBy (W.steps (W.session self.old.carrier))
            (W.end self.old.carrier) (W.desk self.old.carrier) self.old.client.now
            (call_of request.now) (reply_in (asks_history request.now)) left_alone
            result self.new.client.now (W.end self.new.carrier) (W.desk self.new.carrier) }
    {
        let answer = match self.ask(call_of(request)) {
            Ok(answer) => answer,
            Err(refusal) => return Err(refusal),
        };
        reply_in(self.alloc, asks_history(request), answer)
    }

    /// Asks for a history, the list of what may be undone, a pack, the begin or a turn of one, or the newest
    /// transaction, and answers the reply. `TooLong` says how long the answer is where it doesn't fit a frame. One step
    /// at most is made, and exactly one where a reply or a refusal of the server is answered.
    pub fn request(&mut self, request: Request) -> Result<Reply, Refusal>
        requires question { is_question request ≡ true }
        ensures way { GoesItsWay W.faults W.closed W.session W.place W.later self.old.carrier
            self.new.carrier self.old.client self.new.client result }
        ensures exact { W.told → (c : Client) → Stands (W.machine (W.end self.old.carrier))
            (W.session self.old.carrier) (W.desk self.old.carrier) self.old.client.now c
            → QuestionLeaves (W.steps (W.session self.old.carrier)) W.machine
            (W.session self.old.carrier) (W.end self.old.carrier) request c result
            self.new.client.now (W.end self.new.carrier) (W.desk self.new.carrier) }
    {
        payloads_are_read_back();
        whole_pieces_are_heard();
        self.question_made(&request)
    }
}
