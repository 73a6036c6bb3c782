//! Reading messages.

ghost use Rattle.std.specs.Prelude.{◌≡◌, IfOk, IsErrOf, IsTrue};
ghost use Rattle.zeo_reading.specs.Loose.{answer_in, loose_message, named_message, notice_in};
ghost use Rattle.zeo_messages.specs.Messages.{fits, payload_of};
ghost use Rattle.zeo_reading.specs.Reading.{IsNoMessage, IsRead, message_in, Reads};

use crate::answer_reading::reply_in;
use crate::call_reading::call_in;
use crate::error::MessageError;
use crate::refusal_reading::refusal_in;
use std::alloc::{AllocError, Global};
use zb_ids::Tid;
use zeo_messages::{Answer, Message, Notice, fits, write_message};
use zeo_values::{behind, behind_count, behind_name, count_in, id_in, name_in, oids_in, small};

/// What is told without being asked.
fn notice_in(alloc: Global, name: &[u8], rest: &[u8]) -> Result<Option<Notice>, AllocError>
    ensures { IfOk result (λ notice. notice ≡ notice_in name.now rest.now) }
{
    if name == b"invalidateTransaction".as_slice() {
        let oids = oids_in(alloc, behind(10, rest))?;
        return Ok(Some(Notice::Invalidate {
            tid: Tid(id_in(rest)),
            oids,
        }));
    }
    if name == b"forget".as_slice() {
        return Ok(Some(Notice::Forget {
            front: Tid(id_in(rest)),
        }));
    }
    if name == b"packed".as_slice() {
        return Ok(Some(Notice::Packed {
            tid: Tid(id_in(rest)),
        }));
    }
    Ok(None)
}

/// An answer.
fn answer_in(alloc: Global, name: &[u8], rest: &[u8]) -> Result<Option<Answer>, AllocError>
    ensures { IfOk result (λ answer. answer ≡ answer_in name.now rest.now) }
{
    if name == b".reply".as_slice() {
        let answer = reply_in(alloc, rest)?;
        return Ok(Some(answer));
    }
    if name == b".error".as_slice() {
        return match refusal_in(alloc, rest)? {
            Some(refusal) => Ok(Some(Answer::Refused { refusal })),
            None => Ok(None),
        };
    }
    Ok(None)
}

/// A message by its number and its method.
fn named_message(
    alloc: Global,
    number: u32,
    name: &[u8],
    rest: &[u8],
) -> Result<Option<Message>, AllocError>
    ensures { IfOk result (λ message. message ≡ named_message number name.now rest.now) }
{
    if let Some(answer) = answer_in(alloc, name, rest)? {
        return Ok(Some(Message::Answered { number, answer }));
    }
    if let Some(notice) = notice_in(alloc, name, rest)? {
        return Ok(Some(Message::Told { notice }));
    }
    match call_in(alloc, name, rest)? {
        Some(call) => Ok(Some(Message::Asked { number, call })),
        None => Ok(None),
    }
}

/// A message, whose fields are taken for what they are to be.
fn loose_message(alloc: Global, payload: &[u8]) -> Result<Option<Message>, AllocError>
    ensures { IfOk result (λ message. message ≡ loose_message payload.now) }
{
    let number = behind(3, payload);
    let method = behind(2, behind_count(number));
    named_message(
        alloc,
        small(count_in(number)),
        name_in(method),
        behind_name(method),
    )
}

/// The message that a payload spells, as it is read loosely and then compared.
#[tactic(auto, unfolding(crate::specs::Reading::message_in))]
fn checked_message(alloc: Global, payload: &[u8]) -> Result<Message, MessageError>
    ensures exact { Reads result (message_in payload.now) }
    ensures ok { IfOk result (λ message. IsRead payload.now message) }
{
    let Some(message) = loose_message(alloc, payload)? else {
        return Err(MessageError::BadMessage);
    };
    if !fits(&message) {
        return Err(MessageError::BadMessage);
    }
    let spelled = write_message(alloc, &message)?;
    if spelled.as_slice() == payload {
        Ok(message)
    } else {
        Err(MessageError::BadMessage)
    }
}

/// The message that a payload spells. It takes room for the message and for its spelling, and copies the
/// bytes of both once.
///
/// `BadMessage` is answered exactly where no message of a row has this payload, and `Memory` where there
/// was none.
pub fn read_message(alloc: Global, payload: &[u8]) -> Result<Message, MessageError>
    ensures exact { Reads result (message_in payload.now) }
    ensures ok { IfOk result (λ message. IsRead payload.now message) }
    ensures bad { IsErrOf result MessageError.BadMessage → IsNoMessage payload.now }
{
    checked_message(alloc, payload)
}
