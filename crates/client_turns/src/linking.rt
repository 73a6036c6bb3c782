//! Lines of a client with a link that its connection answers, over the hub.

ghost use Rattle.std.specs.Prelude.{◌≡◌, Some, true};
ghost use Rattle.zodb_core.specs.HubState.{rules_of};
ghost use Rattle.client_turns.specs.Asking.{is_of_connection};
ghost use Rattle.client_turns.specs.Lines.{outcome_of_answer};
ghost use Rattle.client_turns.specs.Linked.{MayStand, TakesLinked};
ghost use Rattle.client_turns.specs.Members.{far};
ghost use Rattle.client_turns.specs.Refusing.{IsFittingLine};
ghost use Rattle.client_turns.specs.Standing.{LeavesHub};

use crate::linked::LinkedClient;
use crate::over::line_over;
use crate::settling::settled;
use hub_carrier::HubCarrier;
use remote_loads::Remote;
use std::alloc::Global;
use zb_answers::Answer;
use zb_model::{Refs, Resolver, Store};
use zb_outside::Clock;
use zb_script::Line;
use zodb_core::Hub;

/// A line of a client with a link that its connection answers: over its link to its desk, and from that to the hub and
/// back. What went wrong in steps of the hub comes before what the client says of it.
pub(crate) fn linked_line<St: Store, R: Resolver, F: Refs, C: Clock>(
    alloc: Global,
    hub: &mut Hub<St, R, F>,
    client: &mut LinkedClient,
    line: &Line,
    clock: &mut C,
) -> Answer
    requires fitting { IsFittingLine line.now }
    requires asked { is_of_connection line.now ≡ true }
    ensures line { TakesLinked St.told (rules_of R.rules F.named hub.old) line.now result hub.old hub.new client.old
        client.new (C.stamps clock.old) (C.stamps clock.new) }
    ensures hub { LeavesHub (St.told × MayStand hub.old client.old) St.lasts St.stands
        (rules_of R.rules F.named hub.old) (Some (far client.old)) line.now (outcome_of_answer result) hub.old hub.new }
    ensures name { client.new.name ≡ client.old.name }
    ensures session { client.new.session ≡ client.old.session }
{
    let carrier = HubCarrier::new(hub, client.session, &mut client.desk, clock, false);
    let mut remote = Remote::new(alloc, &mut client.client, carrier);
    let answer = line_over(&mut client.connection, &mut remote, line);
    let trouble = &remote.carrier.trouble;
    settled(answer, *trouble)
}
