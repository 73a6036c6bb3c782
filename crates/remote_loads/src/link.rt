//! A carrier over a link.

ghost use Rattle.std.specs.Prelude.{◌≡◌, ◌+◌, ◌<◌, ◌≤◌, IfErr, IfOk, false, length};
ghost use Rattle.remote_loads.specs.Causes.{IsCarryCause};

use crate::carrier::Carrier;
use std::alloc::Global;
use zb_ids::Text8;
use zb_outside::{Sink, Source, write_all};
use zeo_client::ClientError;

/// How many bytes are read at once.
const PIECE: usize = 4096;

/// A carrier over a link: what is sent goes to its sink, and what comes is read from its source. It tells nothing of
/// what stands at the other end.
#[derive(Drop)]
pub struct LinkCarrier<I: Source, O: Sink> {
    link_in: I,
    link_out: O,
    ended: bool,
}

/// Reads at least one byte of what comes.
fn read_piece<I: Source>(
    alloc: Global,
    link_in: &mut I,
    ended: &mut bool,
) -> Result<Text8, ClientError>
    ensures some { IfOk result (λ given. 0 < length given) }
    ensures cause { IfErr result (IsCarryCause (I.faults link_in.old) (I.faults link_in.new) ended.new) }
    ensures counted { I.faults link_in.old ≤ I.faults link_in.new }
{
    let mut piece = [0; PIECE];
    let Ok(count) = link_in.read(&mut piece) else {
        return Err(ClientError::LinkFault);
    };
    if count == 0 {
        *ended = true;
        return Err(ClientError::Closed);
    }
    match Text8::from_slice(alloc, &piece[..count]) {
        Ok(text) => Ok(text),
        Err(_) => Err(ClientError::Memory),
    }
}

impl<I: Source, O: Sink> LinkCarrier<I, O> {
    /// A carrier over a link that was just opened.
    pub fn new(link_in: I, link_out: O) -> LinkCarrier<I, O>
        ensures open { ⟦<LinkCarrier<I, O> as Carrier>⟧.closed result ≡ false }
        ensures faults { ⟦<LinkCarrier<I, O> as Carrier>⟧.faults result ≡ I.faults link_in + O.faults link_out }
    {
        LinkCarrier {
            link_in,
            link_out,
            ended: false,
        }
    }

    /// The two ends of the link.
    pub fn into_parts(self) -> (I, O)
        ensures { I.faults result.0 + O.faults result.1 ≡ ⟦<LinkCarrier<I, O> as Carrier>⟧.faults self }
    {
        let LinkCarrier {
            link_in,
            link_out,
            ended: _,
        } = self;
        (link_in, link_out)
    }
}

impl<I: Source, O: Sink> Carrier for LinkCarrier<I, O> {
    ghost use Rattle.std.specs.Prelude.{ℕ, ◌+◌, List, [], false, None};
    ghost use Rattle.zodb_core.specs.Machine.{machine_over};
    ghost use Rattle.zeo_desk.specs.Desks.{new_desk};

    ghost faults = { λ c. I.faults c.link_in + O.faults c.link_out };

    ghost closed = { λ c. c.ended };

    ghost told = { ⊥ };

    ghost End = { Unit {0} };

    ghost end = { λ c. tt };

    ghost desk = { λ c. new_desk };

    ghost session = { λ c. 0 };

    ghost machine = { λ e. machine_over [] };

    ghost steps = { λ n q r before after. ⊥ };

    ghost Place = { Unit {0} };

    ghost place = { λ c. tt };

    ghost later = { λ a b. Unit {0} };

    ghost at_once = { λ c. tt };

    ghost later_on = { λ a b c before behind. tt };

    ghost stepped = { λ n q r before after told step. absurd told };

    fn carry(&mut self, alloc: Global, bytes: &[u8]) -> Result<Text8, ClientError> {
        if write_all(&mut self.link_out, bytes).is_err() {
            return Err(ClientError::LinkFault);
        }
        read_piece(alloc, &mut self.link_in, &mut self.ended)
    }
}
