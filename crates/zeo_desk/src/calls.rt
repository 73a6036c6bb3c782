//! The calls of clients.

ghost use Rattle.std.specs.Prelude.{◌≡◌, ◌<◌, ◌^◌, IfOk, IsErrOf, None, Some, true};
ghost use Rattle.zeo_messages.specs.Calls.{fits_call};
ghost use Rattle.zeo_reading.specs.Reading.{message_in};
ghost use Rattle.zeo_desk.specs.Desks.{call_in, is_answered, is_register};

use crate::error::DeskError;
use std::alloc::Global;
use zeo_messages::{Call, Message};
use zeo_reading::{MessageError, read_message};

/// A call and its number.
#[derive(Drop)]
pub(crate) struct NumberedCall {
    pub(crate) number: u32,
    pub(crate) call: Call,
}

/// The call that a payload spells. `BadMessage` is answered exactly where it is no message of a client.
#[tactic(auto, using(crate::proofs::Rows::number_fits, crate::proofs::Rows::call_fits))]
pub(crate) fn read_call(alloc: Global, payload: &[u8]) -> Result<NumberedCall, DeskError>
    ensures ok { IfOk result (λ c. call_in (message_in payload.now) ≡ Some (c.number, c.call)) }
    ensures number { IfOk result (λ c. c.number < 2 ^ 31) }
    ensures fits { IfOk result (λ c. fits_call c.call ≡ true) }
    ensures bad { IsErrOf result DeskError.BadMessage → call_in (message_in payload.now) ≡ None }
{
    match read_message(alloc, payload) {
        Ok(message) => match message {
            Message::Asked { number, call } => Ok(NumberedCall { number, call }),
            Message::Answered {
                number: _,
                answer: _,
            } => Err(DeskError::BadMessage),
            Message::Told { notice: _ } => Err(DeskError::BadMessage),
        },
        Err(error) => match error {
            MessageError::BadMessage => Err(DeskError::BadMessage),
            MessageError::Memory => Err(DeskError::Memory),
        },
    }
}

/// Whether a call is `register`.
pub(crate) fn is_register(call: &Call) -> bool
    ensures { result ≡ is_register call.now }
{
    matches!(call, Call::Register { .. })
}

/// Whether a call is answered.
pub(crate) fn is_answered(call: &Call) -> bool
    ensures { result ≡ is_answered call.now }
{
    match call {
        Call::TpcBegin { .. } => false,
        Call::Storea { .. } => false,
        Call::DeleteObject { .. } => false,
        Call::CheckCurrentSerial { .. } => false,
        _ => true,
    }
}
