//! Lines of a client with a link that ask nothing of its connection, numbers that it draws and what its transaction has
//! of an object, over the hub.

ghost use Rattle.std.specs.Prelude.{◌≡◌, Some, true};
ghost use Rattle.remote_loads.specs.Requesting.{is_question};
ghost use Rattle.zodb_core.specs.HubState.{rules_of};
ghost use Rattle.client_turns.specs.Asking.{is_question_line, plain_request};
ghost use Rattle.client_turns.specs.Lines.{outcome_of_answer, outcome_of_result};
ghost use Rattle.client_turns.specs.Linked.{MayStand, TakesLinked, TakesLinkedDraw, TakesLinkedRead};
ghost use Rattle.client_turns.specs.Members.{far};
ghost use Rattle.client_turns.specs.OverQuestions.{ReadsLinked};
ghost use Rattle.client_turns.specs.Refusing.{IsFittingLine};
ghost use Rattle.client_turns.specs.Standing.{IsGotWhere, LeavesHub, packs_list};

use crate::linked::LinkedClient;
use crate::questions_over::{number_answer, number_over, question_over};
use crate::reads_over::read_over;
use crate::settling::{settled, settled_number, settled_read};
use hub_carrier::HubCarrier;
use remote_loads::Remote;
use std::alloc::Global;
use zb_answers::Answer;
use zb_ids::{Oid, Text8, Tid};
use zb_model::{Refs, Refusal, Resolver, Store};
use zb_outside::Clock;
use zb_script::Line;
use zodb_core::{Hub, Request};

/// Whether a line packs, in one step or in turns.
fn packs_list(line: &Line) -> bool
    ensures { result ≡ packs_list line.now }
{
    matches!(
        line,
        Line::Pack { .. } | Line::PackBegin { .. } | Line::PackTurn
    )
}

/// A line that asks a question.
fn linked_question<St: Store, R: Resolver, F: Refs, C: Clock>(
    alloc: Global,
    hub: &mut Hub<St, R, F>,
    client: &mut LinkedClient,
    line: &Line,
    request: Request,
    clock: &mut C,
) -> Answer
    requires asks { plain_request line.now ≡ Some request }
    requires question { is_question request ≡ true }
    ensures line { TakesLinked St.told (rules_of R.rules F.named hub.old) line.now result hub.old hub.new client.old
        client.new (C.stamps clock.old) (C.stamps clock.new) }
    ensures hub { LeavesHub (St.told × MayStand hub.old client.old) St.lasts St.stands
        (rules_of R.rules F.named hub.old) (Some (far client.old)) line.now (outcome_of_answer result) hub.old hub.new }
    ensures name { client.new.name ≡ client.old.name }
    ensures session { client.new.session ≡ client.old.session }
{
    let packs = packs_list(line);
    let carrier = HubCarrier::new(hub, client.session, &mut client.desk, clock, packs);
    let mut remote = Remote::new(alloc, &mut client.client, carrier);
    let answer = question_over(&mut remote, request);
    let trouble = &remote.carrier.trouble;
    settled(answer, *trouble)
}

/// `new`: a new number.
fn linked_new<St: Store, R: Resolver, F: Refs, C: Clock>(
    alloc: Global,
    hub: &mut Hub<St, R, F>,
    client: &mut LinkedClient,
    clock: &mut C,
) -> Answer
    ensures line { TakesLinked St.told (rules_of R.rules F.named hub.old) (Line.New) result hub.old hub.new client.old
        client.new (C.stamps clock.old) (C.stamps clock.new) }
    ensures hub { LeavesHub (St.told × MayStand hub.old client.old) St.lasts St.stands
        (rules_of R.rules F.named hub.old) (Some (far client.old)) (Line.New) (outcome_of_answer result) hub.old hub.new }
    ensures name { client.new.name ≡ client.old.name }
    ensures session { client.new.session ≡ client.old.session }
{
    let carrier = HubCarrier::new(hub, client.session, &mut client.desk, clock, false);
    let mut remote = Remote::new(alloc, &mut client.client, carrier);
    let number = number_over(&mut remote);
    let trouble = &remote.carrier.trouble;
    settled(number_answer(number), *trouble)
}

/// A line of a client with a link that asks nothing of its connection, and whose answer comes in a message.
pub(crate) fn linked_asking<St: Store, R: Resolver, F: Refs, C: Clock>(
    alloc: Global,
    hub: &mut Hub<St, R, F>,
    client: &mut LinkedClient,
    line: &Line,
    clock: &mut C,
) -> Answer
    requires fitting { IsFittingLine line.now }
    requires asked { is_question_line line.now ≡ true }
    ensures line { TakesLinked St.told (rules_of R.rules F.named hub.old) line.now result hub.old hub.new client.old
        client.new (C.stamps clock.old) (C.stamps clock.new) }
    ensures hub { LeavesHub (St.told × MayStand hub.old client.old) St.lasts St.stands
        (rules_of R.rules F.named hub.old) (Some (far client.old)) line.now (outcome_of_answer result) hub.old hub.new }
    ensures name { client.new.name ≡ client.old.name }
    ensures session { client.new.session ≡ client.old.session }
{
    let request = match line {
        Line::New => return linked_new(alloc, hub, client, clock),
        Line::History { oid } => Request::History { oid: *oid },
        Line::UndoLog => Request::UndoLog,
        Line::Pack { tid, collect } => Request::Pack {
            tid: *tid,
            collect: *collect,
        },
        Line::PackBegin { tid, collect } => Request::PackBegin {
            tid: *tid,
            collect: *collect,
        },
        Line::PackTurn => Request::PackTurn,
        _ => unreachable!(),
    };
    linked_question(alloc, hub, client, line, request, clock)
}

/// A number that the client's session draws.
pub(crate) fn linked_number<St: Store, R: Resolver, F: Refs, C: Clock>(
    alloc: Global,
    hub: &mut Hub<St, R, F>,
    client: &mut LinkedClient,
    clock: &mut C,
) -> Result<Oid, Refusal>
    ensures draw { TakesLinkedDraw St.told result hub.old hub.new client.old client.new (C.stamps clock.old)
        (C.stamps clock.new) }
    ensures hub { ReadsLinked (St.told × MayStand hub.old client.old) St.lasts St.stands (outcome_of_result result)
        hub.old hub.new }
    ensures name { client.new.name ≡ client.old.name }
    ensures session { client.new.session ≡ client.old.session }
{
    let carrier = HubCarrier::new(hub, client.session, &mut client.desk, clock, false);
    let mut remote = Remote::new(alloc, &mut client.client, carrier);
    let number = number_over(&mut remote);
    let trouble = &remote.carrier.trouble;
    settled_number(number, *trouble)
}

/// What the client's transaction has of an object: what waits for it, or else what a read answers.
pub(crate) fn linked_get<St: Store, R: Resolver, F: Refs, C: Clock>(
    alloc: Global,
    hub: &mut Hub<St, R, F>,
    client: &mut LinkedClient,
    oid: Oid,
    clock: &mut C,
) -> Result<(Tid, Text8), Refusal>
    ensures read { TakesLinkedRead St.told IsGotWhere oid result hub.old hub.new client.old client.new
        (C.stamps clock.old) (C.stamps clock.new) }
    ensures hub { ReadsLinked (St.told × MayStand hub.old client.old) St.lasts St.stands (outcome_of_result result)
        hub.old hub.new }
    ensures name { client.new.name ≡ client.old.name }
    ensures session { client.new.session ≡ client.old.session }
{
    let carrier = HubCarrier::new(hub, client.session, &mut client.desk, clock, false);
    let mut remote = Remote::new(alloc, &mut client.client, carrier);
    let read = read_over(&mut client.connection, &mut remote, oid);
    let trouble = &remote.carrier.trouble;
    settled_read(read, *trouble)
}
