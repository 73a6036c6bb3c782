//! Payloads that come.

ghost use Rattle.std.specs.Prelude.{◌≡◌, ◌++◌, ◌∷◌, [], IfErr, OnOk};
ghost use Rattle.zeo_client.specs.Errors.{IsReadError};
ghost use Rattle.zeo_client.specs.Taking.{IsTaken, Takes};

use crate::error::ClientError;
use crate::hearing::hear;
use crate::reading::read_coming;
use std::alloc::{AllocError, Global};
use zb_ids::{ListOf, Text8};
use zeo_cache::ZeoCache;
use zeo_messages::{Call, Message};
use zeo_serving::Standing;

/// Takes one payload.
fn take_one(
    alloc: Global,
    number: u32,
    last: &Option<Call>,
    cache: &mut ZeoCache,
    standing: &mut Standing,
    payload: &[u8],
) -> Result<Message, ClientError>
    ensures taken { IsTaken number last.now payload.now (record { cache = cache.old; standing = standing.old }) result (record { cache = cache.new; standing = standing.new }) }
    ensures cause { IfErr result IsReadError }
{
    let message = match read_coming(alloc, number, last, payload) {
        Ok(message) => message,
        Err(error) => return Err(error),
    };
    hear(alloc, cache, standing, last, &message);
    Ok(message)
}

/// Puts a message at the end. The one error is want of memory.
fn push(messages: &mut ListOf<Message>, message: Message) -> Result<(), AllocError>
    ensures { OnOk result (messages.new ≡ messages.old ++ message ∷ []) }
{
    match messages.push(message) {
        Ok(()) => Ok(()),
        Err(_) => Err(AllocError),
    }
}

/// Takes payloads, one after another, and gives their messages.
#[tactic(auto, using(crate::proofs::Takings::begins, crate::proofs::Takings::goes_on, crate::proofs::Takings::is_refused, crate::proofs::Takings::is_starved, crate::proofs::Takings::is_whole))]
pub(crate) fn take_all(
    alloc: Global,
    number: u32,
    last: &Option<Call>,
    cache: &mut ZeoCache,
    standing: &mut Standing,
    payloads: &[Text8],
) -> Result<ListOf<Message>, ClientError>
    ensures taken { Takes number last.now payloads.now (record { cache = cache.old; standing = standing.old }) result (record { cache = cache.new; standing = standing.new }) }
    ensures cause { IfErr result IsReadError }
{
    let mut messages = ListOf::new(alloc);
    for payload in payloads {
        let message = match take_one(alloc, number, last, cache, standing, payload.as_slice()) {
            Ok(message) => message,
            Err(error) => return Err(error),
        };
        match push(&mut messages, message) {
            Ok(()) => {}
            Err(_) => return Err(ClientError::Memory),
        }
    }
    Ok(messages)
}
