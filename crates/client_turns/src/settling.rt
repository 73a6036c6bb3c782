//! What a line over a link is answered, by what went wrong in its steps.

ghost use Rattle.std.specs.Prelude.{◌≡◌};
ghost use Rattle.client_turns.specs.Settling.{calm, settled, settled_result};

use hub_carrier::Trouble;
use zb_answers::Answer;
use zb_ids::{Oid, Text8, Tid};
use zb_model::Refusal;

/// A refusal of a line in whose steps nothing went wrong: a link in the same program is lost for want of memory alone.
fn calm(refusal: Refusal) -> Refusal
    ensures { result ≡ calm refusal }
{
    match refusal {
        Refusal::LinkFault | Refusal::Closed => Refusal::Memory,
        Refusal::StoreFault | Refusal::ReadFault => Refusal::BadMessage,
        refusal => refusal,
    }
}

/// What a line is answered: what went wrong in its steps, whether or not their answers came back, or else this.
pub(crate) fn settled(answer: Answer, trouble: Trouble) -> Answer
    ensures { result ≡ settled answer trouble }
{
    match trouble {
        Trouble::StoreFault => Answer::Refused(Refusal::StoreFault),
        Trouble::ReadFault => Answer::Refused(Refusal::ReadFault),
        Trouble::NoFault => match answer {
            Answer::Refused(refusal) => Answer::Refused(calm(refusal)),
            answer => answer,
        },
    }
}

/// And so a number that is drawn.
pub(crate) fn settled_number(number: Result<Oid, Refusal>, trouble: Trouble) -> Result<Oid, Refusal>
    ensures { result ≡ settled_result number trouble }
{
    match trouble {
        Trouble::StoreFault => Err(Refusal::StoreFault),
        Trouble::ReadFault => Err(Refusal::ReadFault),
        Trouble::NoFault => match number {
            Ok(oid) => Ok(oid),
            Err(refusal) => Err(calm(refusal)),
        },
    }
}

/// And what is read.
pub(crate) fn settled_read(
    read: Result<(Tid, Text8), Refusal>,
    trouble: Trouble,
) -> Result<(Tid, Text8), Refusal>
    ensures { result ≡ settled_result read trouble }
{
    match trouble {
        Trouble::StoreFault => Err(Refusal::StoreFault),
        Trouble::ReadFault => Err(Refusal::ReadFault),
        Trouble::NoFault => match read {
            Ok(got) => Ok(got),
            Err(refusal) => Err(calm(refusal)),
        },
    }
}
