//! The frames of calls.

ghost use Rattle.std.specs.Prelude.{◌≡◌, ◌+◌, ◌-◌, ◌<◌, ◌≤◌, ◌^◌, IfOk, length, true};
ghost use Rattle.zeo_frames.specs.Frames as frames;
ghost use Rattle.zeo_messages.specs.Messages.{payload_of};
ghost use Rattle.zeo_messages.specs.Calls.{fits_call};
ghost use Rattle.zeo_values.specs.Values.{count_text};
ghost use Rattle.zeo_client.specs.Asking.{IsTooLong, call_frame, call_length, next_number};

use std::alloc::{AllocError, Global};
use thiserror::Error;
use zb_ids::Text8;
use zeo_frames::{FRAME_LIMIT, frame};
use zeo_messages::{Call, LAST_NUMBER, Message, write_message};

/// Why a call isn't sent.
#[derive(Clone, Copy, Debug, PartialEq, Eq, Error)]
pub enum AskError {
    /// Its payload doesn't fit a frame.
    #[error("a message of {length} bytes, which don't fit a frame")]
    TooLong {
        /// The length of the payload, with the number of the call counted as 5 bytes.
        length: u64,
    },
    /// There was no memory for it.
    #[error("out of memory")]
    Memory,
}

impl From<AllocError> for AskError {
    ghost use Rattle.std.specs.Prelude.{◌≡◌};
    ghost use Rattle.zeo_client.specs.declared.asking.AskError.TheVariants.{Memory};

    ghost from_gives = { λ _ error. error ≡ Memory };

    fn from(_error: AllocError) -> AskError {
        AskError::Memory
    }
}

/// The number of the call behind one.
pub(crate) fn next_number(number: u32) -> u32
    ensures next { result ≡ next_number number }
    ensures fits { result < 2 ^ 31 }
{
    if number < LAST_NUMBER { number + 1 } else { 1 }
}

/// How many bytes the number of a call has in a payload.
#[tactic(auto, using(crate::proofs::Lengths::count_of_one, crate::proofs::Lengths::count_of_two, crate::proofs::Lengths::count_of_four))]
fn number_size(number: u32) -> usize
    requires { number < 2 ^ 31 }
    ensures size { result ≡ length (count_text number) }
    ensures few { result ≤ 5 }
{
    if number < 256 {
        2
    } else if number < 65_536 {
        3
    } else {
        5
    }
}

/// A call with its payload, or its frame.
#[derive(Drop)]
pub(crate) struct FramedCall {
    /// The call.
    pub(crate) call: Call,
    /// Its text.
    pub(crate) text: Text8,
}

/// The call that was asked, given back.
fn call_of(message: Message) -> Option<Call>
    ensures { (n : _) (call : _) → message ≡ Message.Asked n call → result ≡ Some call }
{
    match message {
        Message::Asked { number: _, call } => Some(call),
        Message::Answered {
            number: _,
            answer: _,
        } => None,
        Message::Told { notice: _ } => None,
    }
}

/// A call with its payload. The one error is want of memory.
fn spelled(alloc: Global, number: u32, call: Call) -> Result<FramedCall, AllocError>
    requires number { number < 2 ^ 31 }
    requires fits { fits_call call ≡ true }
    ensures call { IfOk result (λ spelled. spelled.call ≡ call) }
    ensures text { IfOk result (λ spelled. spelled.text ≡ payload_of (Message.Asked number call)) }
{
    let message = Message::Asked { number, call };
    let text = write_message(alloc, &message)?;
    match call_of(message) {
        Some(call) => Ok(FramedCall { call, text }),
        None => Err(AllocError),
    }
}

/// The frame of a payload of a call with this number. `TooLong` comes exactly where it is too long, with the number
/// counted as 5 bytes.
fn frame_of(alloc: Global, number: u32, payload: &[u8]) -> Result<Text8, AskError>
    requires number { number < 2 ^ 31 }
    ensures text { IfOk result (λ text. text ≡ frames.frame payload.now) }
    ensures within { IfOk result (λ _. length payload.now + 5 - length (count_text number) ≤ FRAME_LIMIT) }
    ensures long { (n : _) → result ≡ Err (AskError.TooLong n) → (length payload.now + 5 - length (count_text number) ≡ n) × (FRAME_LIMIT < n) }
{
    let length = payload.len() + 5 - number_size(number);
    if length > FRAME_LIMIT as usize {
        let length = length as u64;
        return Err(AskError::TooLong { length });
    }
    let text = frame(alloc, payload)?;
    Ok(text)
}

/// The frame of a call. `TooLong` comes exactly where its payload, with its number counted as 5 bytes, is
/// longer than a frame's may be.
#[tactic(auto, using(crate::proofs::Lengths::call_counted))]
pub(crate) fn framed(alloc: Global, number: u32, call: Call) -> Result<FramedCall, AskError>
    requires number { number < 2 ^ 31 }
    requires fits { fits_call call ≡ true }
    ensures call { IfOk result (λ framed. framed.call ≡ call) }
    ensures text { IfOk result (λ framed. framed.text ≡ call_frame number call) }
    ensures within { IfOk result (λ framed. call_length call ≤ FRAME_LIMIT) }
    ensures long { (n : _) → result ≡ Err (AskError.TooLong n) → IsTooLong call n }
{
    let FramedCall { call, text } = spelled(alloc, number, call)?;
    let text = frame_of(alloc, number, text.as_slice())?;
    Ok(FramedCall { call, text })
}
