//! Reading frames.

ghost use Rattle.std.specs.Prelude.{◌≡◌, ◌++◌, [], ℕ, List, Some, None, IfOk, IfErr};
ghost use Rattle.zeo_frames.specs.Frames.{HasCome, GoesOn, StaysEnded, payloads_of, IsHeld, Cuts};

use crate::error::FrameError;
use crate::unfinished::{Filled, Unfinished};
use std::alloc::{AllocError, Global};
use std::marker::Model;
use zb_ids::{ListOf, Text8};

/// Reads a stream of frames piece by piece. It keeps the bytes of at most one frame that isn't whole
/// yet. Contracts see these bytes, and why no more is read.
#[derive(Drop)]
pub struct Frames {
    unfinished: Unfinished,
    ended: Option<FrameError>,
}

impl Model for Frames {
    ghost use Rattle.std.specs.Prelude.{◌++◌};
    ghost use Rattle.zeo_frames.specs.Frames.{Reading, IsHeld};

    ghost Value = { Reading };

    ghost view = { λ frames. record { rest = frames.unfinished.head.items ++ frames.unfinished.body.items; ended = frames.ended } };

    ghost invariant = { λ frames. IsHeld frames.unfinished.head.items frames.unfinished.body.items };
}

/// The payloads of a piece, and the length above the limit that stands behind them, if one does.
#[derive(Drop)]
struct Cut {
    payloads: ListOf<Text8>,
    excess: Option<u32>,
}

/// Cuts a piece behind what has come of a frame.
#[tactic(auto, using(crate::proofs::Cuts::cut_none, crate::proofs::Cuts::cut_more, crate::proofs::Cuts::cut_all, crate::proofs::Cuts::long_on))]
fn cut_piece(alloc: Global, unfinished: &mut Unfinished, piece: &[u8]) -> Result<Cut, AllocError>
    requires held { IsHeld unfinished.old.head.items unfinished.old.body.items }
    ensures { IfOk result (λ cut. Cuts ((unfinished.old.head.items ++ unfinished.old.body.items) ++ piece.now) cut.payloads cut.excess
        unfinished.new.head.items unfinished.new.body.items) }
{
    let mut payloads = ListOf::new(alloc);
    let mut rest = piece;
    while !rest.is_empty() {
        match unfinished.fill(rest)? {
            Filled::All => {
                return Ok(Cut {
                    payloads,
                    excess: None,
                });
            }
            Filled::Whole(count) => {
                payloads.push(unfinished.take_payload())?;
                rest = &rest[count..];
            }
            Filled::TooLong(length) => {
                return Ok(Cut {
                    payloads,
                    excess: Some(length),
                });
            }
        }
    }
    Ok(Cut {
        payloads,
        excess: None,
    })
}

impl Frames {
    /// A reader of a stream of which nothing has come. It takes no memory before something comes.
    pub fn new(alloc: Global) -> Frames
        ensures rest { result.rest ≡ [] }
        ensures ended { result.ended ≡ None }
        ensures begun { HasCome [] [] result }
    {
        Frames {
            unfinished: Unfinished::new(alloc),
            ended: None,
        }
    }

    #[tactic(auto, using(crate::proofs::Cuts::come_on, crate::proofs::Cuts::come_off, crate::proofs::Cuts::come_ended))]
    /// Takes the next piece of the stream, and gives the payloads of the frames that became whole in it,
    /// in their order. It takes room for a frame as its bytes come, and copies each byte at most twice.
    ///
    /// `FrameTooLong` is answered exactly where a length above the limit was reached, in this piece or an
    /// earlier one, and no payload became whole in this one. After it, and after `Memory`, each feed answers
    /// the same again.
    pub fn feed(&mut self, piece: &[u8]) -> Result<ListOf<Text8>, FrameError>
        // What came so far, cut into frames, is what was given so far and what is kept.
        ensures come { (came : List ℕ) (given : List (List ℕ)) → HasCome came given self.old
            → HasCome (came ++ piece.now) (given ++ payloads_of result) self.new }
        ensures ok { IfOk result (λ payloads. GoesOn payloads self.new.ended) }
        ensures err { IfErr result (λ error. self.new.ended ≡ Some error) }
        ensures ever_after { StaysEnded self.old.ended self.old self.new result }
    {
        if let Some(error) = self.ended {
            return Err(error);
        }
        let alloc = *self.unfinished.body.allocator();
        let Ok(Cut { payloads, excess }) = cut_piece(alloc, &mut self.unfinished, piece) else {
            self.unfinished = Unfinished::new(alloc);
            self.ended = Some(FrameError::Memory);
            return Err(FrameError::Memory);
        };
        let Some(length) = excess else {
            return Ok(payloads);
        };
        let error = FrameError::FrameTooLong { length };
        self.unfinished = Unfinished::new(alloc);
        self.ended = Some(error);
        if payloads.is_empty() {
            Err(error)
        } else {
            Ok(payloads)
        }
    }
}
