//! Questions of a client with a link, which ask nothing of its connection, and new numbers, over a carrier to its
//! session.

ghost use Rattle.std.specs.Prelude.{◌≡◌, true};
ghost use Rattle.remote_loads.specs.Keeping.{KeepsWay};
ghost use Rattle.remote_loads.specs.Requesting.{is_question};
ghost use Rattle.client_turns.specs.OverCarrier.{link_at};
ghost use Rattle.client_turns.specs.OverQuestions.{NumberOver, QuestionOver, number_answer, question_answer, question_heard};

use crate::requests::answer_of;
use connection_view::Loads;
use remote_loads::{Carrier, Remote};
use zb_answers::Answer;
use zb_ids::Oid;
use zb_model::Refusal;
use zodb_core::{Reply, Request};

/// What is heard of a question. No list has a text that is longer than its rows allow, and no question is a conflict:
/// where an answer says so, it is lost.
fn question_heard(asked: Result<Reply, Refusal>) -> Result<Reply, Refusal>
    ensures { result ≡ question_heard asked }
{
    match asked {
        Err(Refusal::BadMessage) => Err(Refusal::Memory),
        Err(Refusal::Conflict { .. }) => Err(Refusal::Memory),
        asked => asked,
    }
}

/// What a question is answered.
fn question_answer(asked: Result<Reply, Refusal>) -> Answer
    ensures { result ≡ question_answer asked }
{
    match asked {
        Ok(reply) => answer_of(reply),
        Err(why) => Answer::Refused(why),
    }
}

/// What `new` is answered.
pub(crate) fn number_answer(number: Result<Oid, Refusal>) -> Answer
    ensures { result ≡ number_answer number }
{
    match number {
        Ok(oid) => Answer::Oid { oid },
        Err(why) => Answer::Refused(why),
    }
}

/// A question.
pub(crate) fn question_over<'c, W: Carrier>(remote: &mut Remote<'c, W>, request: Request) -> Answer
    requires question { is_question request ≡ true }
    ensures asked { QuestionOver W.told W.steps W.machine
        (link_at (W.end remote.old.carrier) (W.session remote.old.carrier) (W.desk remote.old.carrier) remote.old.client.now)
        request result
        (link_at (W.end remote.new.carrier) (W.session remote.new.carrier) (W.desk remote.new.carrier) remote.new.client.now) }
    ensures keeps { KeepsWay W.session W.place W.later remote.old.carrier remote.new.carrier
        remote.old.client.ghost_name remote.new.client.ghost_name }
{
    question_answer(question_heard(remote.request(request)))
}

/// A new number.
pub(crate) fn number_over<'c, W: Carrier>(remote: &mut Remote<'c, W>) -> Result<Oid, Refusal>
    ensures number { NumberOver W.told W.steps W.machine
        (link_at (W.end remote.old.carrier) (W.session remote.old.carrier) (W.desk remote.old.carrier) remote.old.client.now)
        result
        (link_at (W.end remote.new.carrier) (W.session remote.new.carrier) (W.desk remote.new.carrier) remote.new.client.now) }
    ensures keeps { KeepsWay W.session W.place W.later remote.old.carrier remote.new.carrier
        remote.old.client.ghost_name remote.new.client.ghost_name }
{
    remote.new_oid()
}
