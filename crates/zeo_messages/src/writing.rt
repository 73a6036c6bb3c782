//! Writing messages.

ghost use Rattle.std.specs.Prelude.{◌≡◌, ◌++◌, ◌∷◌, [], OnOk, IfOk, IsTrue};
ghost use Rattle.zeo_messages.specs.Messages.{fits, payload_of, notice_name, notice_fields};
ghost use Rattle.zeo_messages.specs.Messages;
ghost use Rattle.zeo_values.specs.Values.{count_text, name_text, tuple_text};

use crate::answer::Answer;
use crate::answer_text::{kind_of, put_value};
use crate::call::Call;
use crate::call_text::{flag_of, method_of, put_arguments, put_one_id};
use crate::message::{Message, Notice};
use std::alloc::{AllocError, Global};
use zb_ids::Text8;
use zeo_values::{count_length, put_count, put_id, put_name, put_oids};

/// Writes PROTO 3, the mark, a number, a flag and a method.
fn put_head(text: &mut Vec<u8>, number: u64, flag: u64, method: &[u8]) -> Result<(), AllocError>
    ensures { OnOk result (text.new.items ≡ text.old.items ++ 0x80 ∷ 3 ∷ 0x28 ∷ (count_text number ++ (count_text flag ++ name_text method.now))) }
{
    text.extend_from_slice(&[0x80, 3, 0x28])?;
    put_count(text, number)?;
    put_count(text, flag)?;
    put_name(text, method)
}

fn name_of(notice: &Notice) -> &'static [u8]
    ensures { result.now ≡ notice_name notice.now }
{
    match notice {
        Notice::Invalidate { .. } => b"invalidateTransaction",
        Notice::Forget { .. } => b"forget",
        Notice::Packed { .. } => b"packed",
    }
}

fn put_notice(text: &mut Vec<u8>, notice: &Notice) -> Result<(), AllocError>
    ensures { OnOk result (text.new.items ≡ text.old.items ++ tuple_text (notice_fields notice.now)) }
{
    match notice {
        Notice::Invalidate { tid, oids } => {
            put_id(text, tid.0)?;
            put_oids(text, oids.as_slice())?;
            Ok(text.push(0x86)?)
        }
        Notice::Forget { front } => put_one_id(text, front.0),
        Notice::Packed { tid } => put_one_id(text, tid.0),
    }
}

/// Writes a message behind what is there.
fn put_message(text: &mut Vec<u8>, message: &Message) -> Result<(), AllocError>
    ensures { OnOk result (text.new.items ≡ text.old.items ++ payload_of message.now) }
{
    match message {
        Message::Asked { number, call } => {
            put_head(text, u64::from(*number), flag_of(call), method_of(call))?;
            put_arguments(text, call)?;
        }
        Message::Answered { number, answer } => {
            put_head(text, u64::from(*number), 0, kind_of(answer))?;
            put_value(text, answer)?;
        }
        Message::Told { notice } => {
            put_head(text, 0, 1, name_of(notice))?;
            put_notice(text, notice)?;
        }
    }
    text.extend_from_slice(&[0x74, 0x2e])
}

/// Room for the payload of a message, so that what is long in it is written without growing.
fn room_for(message: &Message) -> usize {
    let record = match message {
        Message::Asked {
            call: Call::Storea { bytes, .. },
            ..
        } => bytes.len(),
        Message::Answered {
            answer: Answer::Loaded { bytes, .. },
            ..
        } => bytes.len(),
        _ => 0,
    };
    record.saturating_add(64)
}

/// The payload of a message: the one pickle that spells it. The one error is want of memory.
pub fn write_message(alloc: Global, message: &Message) -> Result<Text8, AllocError>
    requires fits { IsTrue (fits message.now) }
    ensures { IfOk result (λ payload. payload ≡ payload_of message.now) }
{
    let mut text = Vec::with_capacity(alloc, room_for(message))?;
    put_message(&mut text, message)?;
    Ok(Text8::from_vec(text))
}

/// How long the payload of a message is, in bytes, with the number of a call or of an answer taken as the
/// greatest one, which has 5 bytes. This is the length that decides whether a message fits a frame,
/// whatever its number. The payload is written to see it; the one error is want of memory.
#[tactic(auto, using(crate::specs::LengthLaws::answer_counted, crate::specs::LengthLaws::call_counted))]
pub fn length_of(alloc: Global, message: &Message) -> Result<u64, AllocError>
    requires fits { IsTrue (fits message.now) }
    ensures { IfOk result (λ length. length ≡ Messages.length_of message.now) }
{
    let payload = write_message(alloc, message)?;
    let length = payload.len();
    match message {
        Message::Asked { number, call: _ } => {
            Ok((length + 5 - count_length(u64::from(*number))) as u64)
        }
        Message::Answered { number, answer: _ } => {
            Ok((length + 5 - count_length(u64::from(*number))) as u64)
        }
        Message::Told { notice: _ } => Ok(length as u64),
    }
}
