//! Why a call is refused.

ghost use Rattle.std.specs.Prelude.{◌≡◌};
ghost use Rattle.remote_loads.specs.Causes.{behind_commit, far_refusal, refusal_of, unasked};

use zb_model::Refusal;
use zeo_client::{AskError, ClientError};

/// The refusal that an error is.
pub(crate) fn refusal_of(error: ClientError) -> Refusal
    ensures { result ≡ refusal_of error }
{
    match error {
        ClientError::FrameTooLong { length } => Refusal::FrameTooLong { length },
        ClientError::BadMessage => Refusal::BadMessage,
        ClientError::LinkFault => Refusal::LinkFault,
        ClientError::Closed => Refusal::Closed,
        ClientError::Memory => Refusal::Memory,
    }
}

/// The refusal of a call that isn't sent.
pub(crate) fn unasked(error: AskError) -> Refusal
    ensures { result ≡ unasked error }
{
    match error {
        AskError::TooLong { length } => Refusal::TooLong { length },
        AskError::Memory => Refusal::Memory,
    }
}

/// A server's refusal, which is none of those that a connection or a link has of its own.
pub(crate) fn far_refusal(refusal: Refusal) -> Refusal
    ensures { result ≡ far_refusal refusal }
{
    match refusal {
        Refusal::Missing { .. } => Refusal::BadMessage,
        Refusal::NoTransaction => Refusal::BadMessage,
        Refusal::InTransaction => Refusal::BadMessage,
        Refusal::NoSavepoint { .. } => Refusal::BadMessage,
        Refusal::Mixed { .. } => Refusal::BadMessage,
        Refusal::NotATree { .. } => Refusal::BadMessage,
        Refusal::NodeMissing { .. } => Refusal::BadMessage,
        Refusal::BadKey => Refusal::BadMessage,
        Refusal::LinkFault => Refusal::BadMessage,
        Refusal::Closed => Refusal::BadMessage,
        Refusal::FrameTooLong { .. } => Refusal::BadMessage,
        Refusal::Connected { .. } => Refusal::BadMessage,
        refusal => refusal,
    }
}

/// What is refused behind a commit, told so that it leaves open what the client knows.
pub(crate) fn behind_commit(refusal: Refusal) -> Refusal
    ensures { result ≡ behind_commit refusal }
{
    match refusal {
        Refusal::StoreFault => Refusal::StoreFault,
        Refusal::Memory => Refusal::Memory,
        Refusal::LinkFault => Refusal::LinkFault,
        Refusal::Closed => Refusal::Closed,
        Refusal::FrameTooLong { length } => Refusal::FrameTooLong { length },
        _ => Refusal::BadMessage,
    }
}
