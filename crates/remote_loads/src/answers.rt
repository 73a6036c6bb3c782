//! What an answer says.

ghost use Rattle.std.specs.Prelude.{◌≡◌};
ghost use Rattle.remote_loads.specs.Answers.{count_answer, done_answer, finish_answer, load_answer, oid_answer, refusal_in, tid_answer};

use crate::causes::far_refusal;
use connection_view::Loaded;
use zb_ids::{Oid, Tid};
use zb_model::Refusal;
use zeo_messages::Answer;

/// Why a call is refused by an answer that doesn't serve it.
fn refusal_in(answer: Answer) -> Refusal
    ensures { result ≡ refusal_in answer }
{
    match answer {
        Answer::Refused { refusal } => far_refusal(refusal),
        _ => Refusal::BadMessage,
    }
}

/// What a load is answered.
pub(crate) fn load_answer(answer: Answer) -> Result<Loaded, Refusal>
    ensures { result ≡ load_answer answer }
{
    match answer {
        Answer::Loaded {
            bytes,
            serial,
            end: _,
            upto: _,
        } => Ok(Loaded::Held { serial, bytes }),
        Answer::Nothing { switches } => Ok(Loaded::Nothing { switches }),
        answer => Err(refusal_in(answer)),
    }
}

/// What the asking for a number is answered.
pub(crate) fn oid_answer(answer: Answer) -> Result<Oid, Refusal>
    ensures { result ≡ oid_answer answer }
{
    match answer {
        Answer::Oids { oids } => match oids.as_slice() {
            [] => Err(Refusal::BadMessage),
            [first, ..] => Ok(*first),
        },
        answer => Err(refusal_in(answer)),
    }
}

/// What a vote, an undo or an abort is answered.
pub(crate) fn done_answer(answer: Answer) -> Result<(), Refusal>
    ensures { result ≡ done_answer answer }
{
    match answer {
        Answer::Done => Ok(()),
        answer => Err(refusal_in(answer)),
    }
}

/// What a registering is answered.
pub(crate) fn tid_answer(answer: Answer) -> Result<Tid, Refusal>
    ensures { result ≡ tid_answer answer }
{
    match answer {
        Answer::OneTid { tid } => Ok(tid),
        answer => Err(refusal_in(answer)),
    }
}

/// What a finish is answered.
pub(crate) fn finish_answer(answer: Answer) -> Result<Option<Tid>, Refusal>
    ensures { result ≡ finish_answer answer }
{
    match answer {
        Answer::OneTid { tid } => Ok(Some(tid)),
        Answer::Done => Ok(None),
        answer => Err(refusal_in(answer)),
    }
}

/// What the asking for the front is answered.
pub(crate) fn count_answer(answer: Answer) -> Result<Tid, Refusal>
    ensures { result ≡ count_answer answer }
{
    match answer {
        Answer::TidAndCount { tid, count: _ } => Ok(tid),
        answer => Err(refusal_in(answer)),
    }
}
