//! Reading what comes.

ghost use Rattle.std.specs.Prelude.{◌≡◌, IfErr, IfOk, IsErrOf, None, Some};
ghost use Rattle.zeo_reading.specs.Reading.{message_in};
ghost use Rattle.zeo_client.specs.Errors.{IsReadError};
ghost use Rattle.zeo_client.specs.Rows.{if_it_may};

use crate::error::ClientError;
use crate::rows::may_come;
use std::alloc::Global;
use zeo_messages::{Call, Message};
use zeo_reading::read_message;

/// The message that a payload spells, where it may come behind the last call, which had this number.
/// `BadMessage` is answered exactly where none may.
pub(crate) fn read_coming(
    alloc: Global,
    number: u32,
    last: &Option<Call>,
    payload: &[u8],
) -> Result<Message, ClientError>
    ensures ok { IfOk result (λ message. if_it_may number last.now (message_in payload.now) ≡ Some message) }
    ensures bad { IsErrOf result ClientError.BadMessage → if_it_may number last.now (message_in payload.now) ≡ None }
    ensures cause { IfErr result IsReadError }
{
    let message = read_message(alloc, payload)?;
    if may_come(number, last, &message) {
        Ok(message)
    } else {
        Err(ClientError::BadMessage)
    }
}
