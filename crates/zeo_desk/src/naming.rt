//! The steps that calls name by themselves.

ghost use Rattle.std.specs.Prelude.{◌≡◌, ℕ, true};
ghost use Rattle.zodb_core.specs.HubState.{IsFitting};
ghost use Rattle.zeo_messages.specs.Calls.{fits_call};
ghost use Rattle.zeo_desk.specs.Desks.{DeskState, asks, called, names_step};

use crate::asked::Asked;
use zeo_messages::Call;
use zodb_core::Request;

/// A step of the session, and what its reply answers.
#[derive(Drop)]
pub(crate) struct NamedStep {
    pub(crate) asked: Asked,
    pub(crate) request: Request,
}

/// A step whose reply says all of its answer.
fn plain(request: Request) -> NamedStep
    ensures asked { result.asked ≡ Asked.Other }
    ensures request { result.request ≡ request }
{
    NamedStep {
        asked: Asked::Other,
        request,
    }
}

/// The step that a call names by itself, whatever a desk keeps.
#[tactic(auto, using(crate::proofs::Rows::oids_fit, crate::proofs::Rows::undo_fits))]
pub(crate) fn step_of(call: Call) -> NamedStep
    requires names { names_step call ≡ true }
    requires fits { fits_call call ≡ true }
    ensures step { (d : DeskState) (n : ℕ) → called d n call ≡ asks d n result.asked result.request }
    ensures fitting { IsFitting result.request }
{
    match call {
        Call::LoadBefore { oid, front } => plain(Request::LoadBefore { oid, front }),
        Call::NewOids { count } => plain(Request::NewOids { count }),
        Call::Undoa {
            user,
            description,
            tids,
        } => plain(Request::Undo {
            user,
            description,
            tids,
        }),
        Call::TpcFinish => NamedStep {
            asked: Asked::Finish,
            request: Request::Finish,
        },
        Call::TpcAbort => plain(Request::Abort),
        Call::History { oid } => plain(Request::History { oid }),
        Call::UndoInfo => plain(Request::UndoLog),
        Call::Pack { tid, collect } => plain(Request::Pack { tid, collect }),
        Call::PackBegin { tid, collect } => plain(Request::PackBegin { tid, collect }),
        Call::PackTurn => NamedStep {
            asked: Asked::PackTurn,
            request: Request::PackTurn,
        },
        Call::Sync => plain(Request::Front),
        Call::LastTransaction => plain(Request::Last),
        Call::GetInvalidations { tid, changes } => NamedStep {
            asked: Asked::Since,
            request: Request::Since { tid, changes },
        },
        _ => unreachable!(),
    }
}
