//! What went wrong in the steps of a turn.

ghost use Rattle.std.specs.Prelude.{◌≡◌};
ghost use Rattle.zodb_core.specs.Outcomes.{outcome_of};
ghost use Rattle.hub_carrier.specs.Ends.{worse};

use zb_model::Refusal;
use zodb_core::Reply;

/// What went wrong in the steps of a turn, whether or not its client heard of it.
#[derive(Clone, Copy, Debug, PartialEq, Eq)]
pub enum Trouble {
    /// No call of the store failed.
    NoFault,
    /// A read failed, and no other call of the store.
    ReadFault,
    /// The store failed.
    StoreFault,
}

/// What a reply adds to what went wrong before it.
pub(crate) fn worse(trouble: Trouble, reply: &Reply) -> Trouble
    ensures { result ≡ worse trouble (outcome_of reply.now) }
{
    match trouble {
        Trouble::StoreFault => Trouble::StoreFault,
        Trouble::ReadFault => match reply {
            Reply::Refused(Refusal::StoreFault) => Trouble::StoreFault,
            _ => Trouble::ReadFault,
        },
        Trouble::NoFault => match reply {
            Reply::Refused(Refusal::StoreFault) => Trouble::StoreFault,
            Reply::Refused(Refusal::ReadFault) => Trouble::ReadFault,
            _ => Trouble::NoFault,
        },
    }
}
