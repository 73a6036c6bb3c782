//! Writing frames.

ghost use Rattle.std.specs.Prelude.{◌≡◌, ◌≤◌, length, IfOk};
ghost use Rattle.zeo_frames.specs.Frames as frames;

use crate::limit::FRAME_LIMIT;
use std::alloc::{AllocError, Global};
use zb_ids::Text8;

/// The frame of a payload: its length in four bytes, the highest first, and the payload. It takes its
/// room once, and copies the payload once. The one error is want of memory.
#[tactic(auto, unfolding(crate::specs::Frames::frame))]
pub fn frame(alloc: Global, payload: &[u8]) -> Result<Text8, AllocError>
    requires within { length payload.now ≤ FRAME_LIMIT }
    ensures { IfOk result (λ text. text ≡ frames.frame payload.now) }
{
    let mut text = Vec::with_capacity(alloc, payload.len() + 4)?;
    text.extend_from_slice(&(payload.len() as u32).to_be_bytes())?;
    text.extend_from_slice(payload)?;
    Ok(Text8::from_vec(text))
}
