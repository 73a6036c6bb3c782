//! The bytes of a frame that isn't whole yet.

ghost use Rattle.std.specs.Prelude.{◌≡◌, ℕ, ◌+◌, ◌-◌, ◌<◌, ◌≤◌, ◌^◌, ◌++◌, min, [], length, take, IfOk, IfSome, IfNone};
ghost use Rattle.byteorder.specs.Endian.{big_bytes};
ghost use Rattle.zeo_frames.specs.Frames.{frame, length_field, IsHeld, IsWhole, Steps};

use crate::limit::FRAME_LIMIT;
use byteorder::{BigEndian, ByteOrder};
use std::alloc::{AllocError, Global};
use std::mem::replace;
use zb_ids::Text8;

/// What has come of a frame.
#[derive(Drop)]
pub(crate) struct Unfinished {
    /// The bytes of its length, up to four.
    pub head: Vec<u8>,
    /// The bytes of its payload, none before the length is there.
    pub body: Vec<u8>,
}

/// What a piece made of the frame.
#[derive(Clone, Copy)]
pub(crate) enum Filled {
    /// All bytes of the piece belong to the frame, and it isn't whole.
    All,
    /// So many bytes of the piece belong to the frame, and it is whole.
    Whole(usize),
    /// The frame's length is above the limit.
    TooLong(u32),
}

/// The payload's length, once it is there.
#[tactic(auto, using(crate::proofs::Heads::head_spelled))]
fn length_said(head: &[u8]) -> Option<u32>
    ensures some { IfSome result (λ n. (4 ≤ length head.now) × (n ≡ length_field head.now)) }
    ensures none { IfNone result (length head.now < 4) }
    ensures spelled { length head.now ≡ 4 → big_bytes 4 (length_field head.now) ≡ head.now }
{
    if head.len() < 4 {
        return None;
    }
    Some(BigEndian::read_u32(head))
}

/// The first bytes of a piece, at most so many.
fn front(piece: &[u8], count: usize) -> &[u8]
    ensures { result.now ≡ take count piece.now }
{
    if count < piece.len() {
        &piece[..count]
    } else {
        piece
    }
}

/// Takes bytes of a piece until there are so many, and answers how many were taken. The room grows to
/// twice of what is there, and not past what the bytes will be.
fn take_up_to(bytes: &mut Vec<u8>, whole: usize, piece: &[u8]) -> Result<usize, AllocError>
    requires { length bytes.old.items ≤ whole }
    ensures text { IfOk result (λ count. bytes.new.items ≡ bytes.old.items ++ take count piece.now) }
    ensures count { IfOk result (λ count. count ≡ min (whole - length bytes.old.items) (length piece.now)) }
{
    let missing = whole - bytes.len();
    let part = front(piece, missing);
    if bytes.capacity() - bytes.len() < part.len() {
        let more = missing.min(bytes.len()).max(part.len());
        bytes.reserve_exact(more)?;
    }
    bytes.extend_from_slice(part)?;
    Ok(part.len())
}

impl Unfinished {
    /// Nothing has come.
    pub fn new(alloc: Global) -> Unfinished
        ensures head { result.head.items ≡ [] }
        ensures body { result.body.items ≡ [] }
    {
        Unfinished {
            head: Vec::new(alloc),
            body: Vec::new(alloc),
        }
    }

    #[tactic(auto, using(crate::proofs::Filling::long_stands, crate::proofs::Filling::all_taken, crate::proofs::Filling::all_filled))]
    /// Takes what belongs to the frame from a piece. The one error is want of memory.
    pub fn fill(&mut self, piece: &[u8]) -> Result<Filled, AllocError>
        requires held { IsHeld self.old.head.items self.old.body.items }
        ensures { IfOk result (λ filled. Steps filled (self.old.head.items ++ self.old.body.items) piece.now self.new.head.items self.new.body.items) }
    {
        let first = take_up_to(&mut self.head, 4, piece)?;
        let Some(length) = length_said(self.head.as_slice()) else {
            return Ok(Filled::All);
        };
        if length > FRAME_LIMIT {
            return Ok(Filled::TooLong(length));
        }
        let behind = piece.split_at(first).1;
        let second = take_up_to(&mut self.body, length as usize, behind)?;
        if self.body.len() < length as usize {
            Ok(Filled::All)
        } else {
            Ok(Filled::Whole(first + second))
        }
    }

    #[tactic(auto, unfolding(crate::specs::Frames::frame))]
    /// The payload of the frame, which is whole. Nothing has come of the next one.
    pub fn take_payload(&mut self) -> Text8
        requires whole { IsWhole self.old.head.items self.old.body.items }
        ensures text { frame result ≡ self.old.head.items ++ self.old.body.items }
        ensures payload { result ≡ self.old.body.items }
        ensures head { self.new.head.items ≡ [] }
        ensures body { self.new.body.items ≡ [] }
    {
        let next = Vec::new(*self.body.allocator());
        self.head.clear();
        Text8::from_vec(replace(&mut self.body, next))
    }
}
