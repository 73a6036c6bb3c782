//! The frames of answers.

ghost use Rattle.std.specs.Prelude.{◌≡◌, ◌<◌, ◌≤◌, ◌^◌, ◌∷◌, [], length, IfOk, IfSome, IfNone, true};
ghost use Rattle.zeo_messages.specs.declared.answer.Answer.{Answer};
ghost use Rattle.zeo_messages.specs.Answers.{fits_answer};
ghost use Rattle.zeo_desk.specs.Answering.{answer_frame, bytes_round, counted_length, in_place_of, is_allowed, reply_frames, sent_answer, IsShortAnswer};

use crate::answering::told;
use crate::asked::Asked;
use crate::told::Told;
use std::alloc::{AllocError, Global};
use zb_ids::{ListOf, Text8, Tid};
use zb_model::Refusal;
use zeo_frames::{FRAME_LIMIT, frame};
use zeo_messages::{Answer, Message, fits, write_message};
use zeo_values::count_length;
use zodb_core::Reply;

/// The frame of an answer that fits whatever it says. The one error is want of memory.
#[tactic(auto, using(crate::proofs::Rows::answer_fits))]
fn short_frame(alloc: Global, number: u32, answer: Answer) -> Result<Text8, AllocError>
    requires number { number < 2 ^ 31 }
    requires short { IsShortAnswer number answer }
    ensures { IfOk result (λ text. text ≡ answer_frame number answer) }
{
    let payload = write_message(alloc, &Message::Answered { number, answer })?;
    frame(alloc, payload.as_slice())
}

/// The frame of a refusal that fits whatever it says, as the only one. The one error is want of memory.
pub(crate) fn refusal_frames(
    alloc: Global,
    number: u32,
    refusal: Refusal,
) -> Result<ListOf<Text8>, AllocError>
    requires number { number < 2 ^ 31 }
    requires short { IsShortAnswer number (Answer.Refused refusal) }
    ensures { IfOk result (λ frames. frames ≡ answer_frame number (Answer.Refused refusal) ∷ []) }
{
    let mut frames = ListOf::new(alloc);
    frames.push(short_frame(alloc, number, Answer::Refused { refusal })?)?;
    Ok(frames)
}

/// The frame of what is answered in the place of an answer that doesn't fit. The one error is want of
/// memory.
#[tactic(auto, using(crate::proofs::Lengths::done_fits, crate::proofs::Lengths::too_long_fits))]
fn frame_in_place(
    alloc: Global,
    number: u32,
    asked: &Asked,
    length: u64,
) -> Result<Text8, AllocError>
    requires number { number < 2 ^ 31 }
    ensures { IfOk result (λ text. text ≡ answer_frame number (in_place_of asked.now length)) }
{
    match asked {
        Asked::Since => short_frame(alloc, number, Answer::Done),
        _ => short_frame(
            alloc,
            number,
            Answer::Refused {
                refusal: Refusal::TooLong { length },
            },
        ),
    }
}

/// How many bytes more than its record the counted length of a revision's answer has.
fn bytes_round(end: &Option<Tid>) -> u64
    ensures { result ≡ bytes_round end.now }
{
    match end {
        Some(_) => 60,
        None => 51,
    }
}

/// The counted length of an answer that needn't be written to see that it doesn't fit a frame: of a
/// revision whose record alone doesn't fit.
#[tactic(auto, using(crate::proofs::Lengths::loaded_length, crate::proofs::Sent::record_allowed))]
fn known_excess(answer: &Answer) -> Option<u64>
    ensures above { IfSome result (λ n. FRAME_LIMIT < n) }
    ensures some { IfSome result (λ n. counted_length answer.now ≡ n) }
    ensures allowed { IfSome result (λ _. is_allowed answer.now ≡ true) }
    ensures none { IfNone result (is_allowed answer.now ≡ fits_answer answer.now) }
{
    match answer {
        Answer::Loaded {
            bytes,
            serial: _,
            end,
            upto: _,
        } => {
            let bytes = bytes.as_slice();
            if bytes.len() <= FRAME_LIMIT as usize {
                return None;
            }
            Some(bytes.len() as u64 + bytes_round(end))
        }
        _ => None,
    }
}

/// The frame of an answer that is written to see whether it fits, or of what is answered in its place.
/// The one error is want of memory.
#[tactic(auto, using(crate::proofs::Lengths::bad_message_fits, crate::proofs::Lengths::payload_counted, crate::proofs::Rows::row_refused, crate::proofs::Rows::row_allowed, crate::proofs::Sent::sent_whole, crate::proofs::Sent::sent_long, crate::proofs::Sent::sent_bad))]
fn written_frame(
    alloc: Global,
    number: u32,
    asked: &Asked,
    answer: Answer,
) -> Result<Text8, AllocError>
    requires number { number < 2 ^ 31 }
    requires allowed { is_allowed answer ≡ fits_answer answer }
    ensures { IfOk result (λ text. text ≡ answer_frame number (sent_answer asked.now answer)) }
{
    let message = Message::Answered { number, answer };
    if !fits(&message) {
        let refusal = Refusal::BadMessage;
        return short_frame(alloc, number, Answer::Refused { refusal });
    }
    let text = write_message(alloc, &message)?;
    let payload = text.as_slice();
    let length = payload.len() + 5 - count_length(u64::from(number));
    if length > FRAME_LIMIT as usize {
        return frame_in_place(alloc, number, asked, length as u64);
    }
    frame(alloc, payload)
}

/// The frame of an answer, or of what is answered in its place. The one error is want of memory.
#[tactic(auto, using(crate::proofs::Sent::sent_long))]
fn sent_frame(
    alloc: Global,
    number: u32,
    asked: &Asked,
    answer: Answer,
) -> Result<Text8, AllocError>
    requires number { number < 2 ^ 31 }
    ensures { IfOk result (λ text. text ≡ answer_frame number (sent_answer asked.now answer)) }
{
    match known_excess(&answer) {
        Some(length) => frame_in_place(alloc, number, asked, length),
        None => written_frame(alloc, number, asked, answer),
    }
}

/// The frames that a reply is answered by: its news, and its answer. The one error is want of memory.
pub(crate) fn reply_frames(
    alloc: Global,
    number: u32,
    asked: &Asked,
    reply: Reply,
) -> Result<ListOf<Text8>, AllocError>
    requires number { number < 2 ^ 31 }
    ensures { IfOk result (λ frames. frames ≡ reply_frames number asked.now reply) }
{
    let Told { mut frames, answer } = told(alloc, asked, reply)?;
    frames.push(sent_frame(alloc, number, asked, answer)?)?;
    Ok(frames)
}
