//! Which answers a call may have.

ghost use Rattle.std.specs.Prelude.{◌≡◌};
ghost use Rattle.zeo_client.specs.Rows.{are_commits, are_lines, are_oids, are_revisions, answers_call, answers_last, is_done, is_pack, is_refusal, is_revision, is_tid, is_tid_and_count, is_tid_or_done, is_turn, is_value_of, may_come};

use zeo_messages::{Answer, Call, Message};

fn is_done(answer: &Answer) -> bool
    ensures { result ≡ is_done answer.now }
{
    matches!(answer, Answer::Done)
}

fn is_tid(answer: &Answer) -> bool
    ensures { result ≡ is_tid answer.now }
{
    matches!(answer, Answer::OneTid { .. })
}

fn is_tid_or_done(answer: &Answer) -> bool
    ensures { result ≡ is_tid_or_done answer.now }
{
    matches!(answer, Answer::OneTid { .. } | Answer::Done)
}

fn is_revision(answer: &Answer) -> bool
    ensures { result ≡ is_revision answer.now }
{
    matches!(answer, Answer::Loaded { .. } | Answer::Nothing { .. })
}

fn are_oids(count: u32, answer: &Answer) -> bool
    ensures { result ≡ are_oids count answer.now }
{
    match answer {
        Answer::Oids { oids } => oids.len() == count as usize,
        _ => false,
    }
}

fn are_revisions(answer: &Answer) -> bool
    ensures { result ≡ are_revisions answer.now }
{
    matches!(answer, Answer::Revisions { .. } | Answer::EmptyList)
}

fn are_lines(answer: &Answer) -> bool
    ensures { result ≡ are_lines answer.now }
{
    matches!(answer, Answer::LogLines { .. } | Answer::EmptyList)
}

fn are_commits(answer: &Answer) -> bool
    ensures { result ≡ are_commits answer.now }
{
    matches!(
        answer,
        Answer::Commits { .. } | Answer::EmptyList | Answer::Done
    )
}

fn is_pack(answer: &Answer) -> bool
    ensures { result ≡ is_pack answer.now }
{
    matches!(answer, Answer::Packed { .. })
}

fn is_turn(answer: &Answer) -> bool
    ensures { result ≡ is_turn answer.now }
{
    matches!(answer, Answer::Turned { .. } | Answer::Switched { .. })
}

fn is_tid_and_count(answer: &Answer) -> bool
    ensures { result ≡ is_tid_and_count answer.now }
{
    matches!(answer, Answer::TidAndCount { .. })
}

fn is_refusal(answer: &Answer) -> bool
    ensures { result ≡ is_refusal answer.now }
{
    matches!(answer, Answer::Refused { .. })
}

/// Whether the value is of the call's row.
fn is_value_of(call: &Call, answer: &Answer) -> bool
    ensures { result ≡ is_value_of call.now answer.now }
{
    match call {
        Call::Register { .. } => is_tid(answer),
        Call::LoadBefore { .. } => is_revision(answer),
        Call::NewOids { count } => are_oids(*count, answer),
        Call::TpcBegin { .. } => false,
        Call::Storea { .. } => false,
        Call::DeleteObject { .. } => false,
        Call::CheckCurrentSerial { .. } => false,
        Call::Vote => is_done(answer),
        Call::Undoa { .. } => is_done(answer),
        Call::TpcFinish => is_tid_or_done(answer),
        Call::TpcAbort => is_done(answer),
        Call::History { .. } => are_revisions(answer),
        Call::UndoInfo => are_lines(answer),
        Call::Pack { .. } => is_pack(answer),
        Call::PackBegin { .. } => is_tid(answer),
        Call::PackTurn => is_turn(answer),
        Call::Sync => is_tid_and_count(answer),
        Call::LastTransaction => is_tid_and_count(answer),
        Call::GetInvalidations { .. } => are_commits(answer),
    }
}

/// Whether the answer may be the call's.
fn answers_call(call: &Call, answer: &Answer) -> bool
    ensures { result ≡ answers_call call.now answer.now }
{
    is_refusal(answer) || is_value_of(call, answer)
}

fn answers_last(last: &Option<Call>, answer: &Answer) -> bool
    ensures { result ≡ answers_last last.now answer.now }
{
    match last {
        None => false,
        Some(call) => answers_call(call, answer),
    }
}

/// Whether the message is one that a server sends without being asked, or the answer to the last call.
pub(crate) fn may_come(number: u32, last: &Option<Call>, message: &Message) -> bool
    ensures { result ≡ may_come number last.now message.now }
{
    match message {
        Message::Told { .. } => true,
        Message::Answered { number: n, answer } => *n == number && answers_last(last, answer),
        Message::Asked { .. } => false,
    }
}
