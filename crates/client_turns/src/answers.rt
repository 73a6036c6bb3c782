//! What lines are answered.

ghost use Rattle.std.specs.Prelude.{◌≡◌};
ghost use Rattle.client_turns.specs.Asking.{answered, begun_as, delivered_with, finished_as, saved_as};
ghost use Rattle.client_turns.specs.Lines.{data_of, object_of};

use zb_answers::Answer;
use zb_ids::{Text8, Tid};
use zb_model::Refusal;

/// What a line is answered that gives nothing: this, or the refusal.
pub(crate) fn answered(done: Result<(), Refusal>, answer: Answer) -> Answer
    ensures { result ≡ answered done answer }
{
    match done {
        Ok(()) => answer,
        Err(why) => Answer::Refused(why),
    }
}

/// What `begin` is answered.
pub(crate) fn begun(front: Result<Tid, Refusal>) -> Answer
    ensures { result ≡ begun_as front }
{
    match front {
        Ok(front) => Answer::Begun { front },
        Err(why) => Answer::Refused(why),
    }
}

/// What `deliver` is answered.
pub(crate) fn delivered(front: Result<Tid, Refusal>) -> Answer
    ensures { result ≡ delivered_with front }
{
    match front {
        Ok(front) => Answer::Delivered { front },
        Err(why) => Answer::Refused(why),
    }
}

/// What `savepoint` is answered.
pub(crate) fn saved(number: Result<u64, Refusal>) -> Answer
    ensures { result ≡ saved_as number }
{
    match number {
        Ok(number) => Answer::Savepoint { number },
        Err(why) => Answer::Refused(why),
    }
}

/// What `finish` is answered.
pub(crate) fn finished(tid: Result<Option<Tid>, Refusal>) -> Answer
    ensures { result ≡ finished_as tid }
{
    match tid {
        Ok(Some(tid)) => Answer::Committed { tid },
        Ok(None) => Answer::Empty,
        Err(why) => Answer::Refused(why),
    }
}

/// What `load` is answered.
pub(crate) fn data_of(read: Result<(Tid, Text8), Refusal>) -> Answer
    ensures { result ≡ data_of read }
{
    match read {
        Ok((serial, bytes)) => Answer::Data { serial, bytes },
        Err(why) => Answer::Refused(why),
    }
}

/// What `get` is answered.
pub(crate) fn object_of(read: Result<(Tid, Text8), Refusal>) -> Answer
    ensures { result ≡ object_of read }
{
    match read {
        Ok((serial, bytes)) => Answer::Object { serial, bytes },
        Err(why) => Answer::Refused(why),
    }
}
