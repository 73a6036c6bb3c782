//! Lines of one client that its connection answers, over the hub.

ghost use Rattle.std.specs.Prelude.{◌≡◌, ◌<◌, ◌≤◌, Some, length, true};
ghost use Rattle.zodb_core.specs.HubState.{rules_of};
ghost use Rattle.client_turns.specs.declared.member.Member.TheVariants.{Near};
ghost use Rattle.client_turns.specs.Asking.{TakesLine, TakesRead, is_of_connection};
ghost use Rattle.client_turns.specs.Lines.{outcome_of_answer, outcome_of_result};
ghost use Rattle.client_turns.specs.Refusing.{IsFittingLine};
ghost use Rattle.client_turns.specs.Standing.{IsGotWhere, LeavesHub, ReadsHub};

use crate::calls::call_line;
use crate::client::Client;
use local_loads::LocalLoads;
use std::alloc::Global;
use zb_answers::Answer;
use zb_ids::{Oid, Text8, Tid};
use zb_model::{Refs, Refusal, Resolver, Store};
use zb_outside::Clock;
use zb_script::Line;
use zodb_core::Hub;

/// A line of a client that its connection answers.
pub(crate) fn connection_line<St: Store, R: Resolver, F: Refs, C: Clock>(
    alloc: Global,
    hub: &mut Hub<St, R, F>,
    client: &mut Client,
    line: &Line,
    clock: &mut C,
) -> Answer
    requires fitting { IsFittingLine line.now }
    requires asked { is_of_connection line.now ≡ true }
    ensures line { TakesLine St.told (rules_of R.rules F.named hub.old) line.now result hub.old hub.new client.old
        client.new (C.stamps clock.old) (C.stamps clock.new) }
    ensures hub { LeavesHub St.told St.lasts St.stands (rules_of R.rules F.named hub.old) (Some (Near client.old)) line.now
        (outcome_of_answer result) hub.old hub.new }
{
    let mut loads = LocalLoads::new(alloc, hub, client.session, clock, client.told);
    let answer = call_line(alloc, &mut client.connection, &mut loads, line);
    let told = &loads.told;
    client.told = *told;
    answer
}

/// What a client's transaction has of an object: what waits for it, or else what a read answers.
pub(crate) fn get_of<St: Store, R: Resolver, F: Refs, C: Clock>(
    alloc: Global,
    hub: &mut Hub<St, R, F>,
    client: &mut Client,
    oid: Oid,
    clock: &mut C,
) -> Result<(Tid, Text8), Refusal>
    ensures read { TakesRead St.told IsGotWhere oid result hub.old hub.new client.old client.new
        (C.stamps clock.old) (C.stamps clock.new) }
    ensures hub { ReadsHub St.told St.lasts St.stands (outcome_of_result result) hub.old hub.new }
{
    let mut loads = LocalLoads::new(alloc, hub, client.session, clock, client.told);
    let got = client.connection.get(&mut loads, oid);
    let told = &loads.told;
    client.told = *told;
    got
}
