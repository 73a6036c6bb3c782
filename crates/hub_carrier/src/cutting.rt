//! The payloads of a piece.

ghost use Rattle.std.specs.Prelude.{◌≡◌, ◌==◌, ◌+◌, ◌<◌, length, IfOk, IfErr, IfSome, IfNone};
ghost use Rattle.zeo_frames.specs.Frames.{frames};
ghost use Rattle.hub_carrier.specs.Cutting.{AreItsPayloads};
ghost use Rattle.hub_carrier.specs.Served.{IsEndOrMemory};

use std::alloc::Global;
use zb_ids::{ListOf, Text8};
use zeo_client::ClientError;
use zeo_frames::{FrameError, Frames};

/// How many bytes of a payload's length there are.
const LENGTH_BYTES: usize = 4;

/// How many of so many bytes are left behind the frame of a payload, if there are enough.
fn left_behind(payload: &Text8, left: usize) -> Option<usize>
    ensures some { IfSome result (λ behind. behind + (4 + length payload.now) ≡ left) }
    ensures none { IfNone result (left < 4 + length payload.now) }
{
    if left < LENGTH_BYTES {
        return None;
    }
    let rest = left - LENGTH_BYTES;
    if rest < payload.len() {
        return None;
    }
    Some(rest - payload.len())
}

/// Whether the frames of these payloads have so many bytes.
#[tactic(auto, using(crate::proofs::Cuts::length_next, crate::proofs::Cuts::length_last))]
fn have_length(payloads: &[Text8], count: usize) -> bool
    ensures { result ≡ (length (frames payloads.now) == count) }
{
    let mut left = count;
    for payload in payloads {
        let Some(behind) = left_behind(payload, left) else {
            return false;
        };
        left = behind;
    }
    left == 0
}

/// The payloads of a piece that is whole frames. Where it is none such, or has 2^32 bytes or more, it is as
/// the end of a stream.
#[tactic(auto, using(crate::proofs::Cuts::its_payloads))]
pub(crate) fn payloads_of(alloc: Global, piece: &[u8]) -> Result<ListOf<Text8>, ClientError>
    ensures cut { IfOk result (AreItsPayloads piece.now) }
    ensures cause { IfErr result IsEndOrMemory }
{
    if piece.len() > u32::MAX as usize {
        return Err(ClientError::Closed);
    }
    let mut frames = Frames::new(alloc);
    let payloads = match frames.feed(piece) {
        Ok(payloads) => payloads,
        Err(error) => return Err(end_of(error)),
    };
    if !have_length(payloads.as_slice(), piece.len()) {
        return Err(ClientError::Closed);
    }
    Ok(payloads)
}

/// What a piece that can't be cut is to its sender.
fn end_of(error: FrameError) -> ClientError
    ensures cause { IsEndOrMemory result }
{
    match error {
        FrameError::FrameTooLong { length: _ } => ClientError::Closed,
        FrameError::Memory => ClientError::Memory,
    }
}
