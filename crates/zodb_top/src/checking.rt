//! A tree of the file is checked, by steps of one session of a hub.

ghost use Rattle.std.specs.Prelude.{◌≡◌, ◌∷◌, ◌++◌, [], ℕ, false, decimal, IfOk, OnOk};
ghost use Rattle.btree_checking.specs.declared.verdict.Verdict.TheVariants as verdict;
ghost use Rattle.btree_checking.specs.Fed.{HasLessRoom, IsCheckOf, IsProgressOf, room_of};
ghost use Rattle.zodb_core.specs.HubState.{StandsForMachine};
ghost use Rattle.zodb_core.specs.Machine.{Machine, front_of};
ghost use Rattle.zodb_top.specs.Asked.{last_contents, last_verdict};
ghost use Rattle.zodb_top.specs.Asking.{AsksOnly, reply_content};
ghost use Rattle.zodb_top.specs.Texts.{verdict_line};

use crate::asking::{AskError, ask, front, only_line};
use btree_checking::{Checking, Progress, Rule, Verdict};
use itoa::Buffer;
use std::alloc::{AllocError, Global};
use zb_ids::{ListOf, Oid, Text8, Tid, hex};
use zb_model::Store;
use zb_outside::Clock;
use zb_resolve::{StockRefs, StockResolver};
use zodb_core::{Hub, Reply, Request};

/// Puts a number at the end, in decimal digits.
fn push_number(text: &mut Vec<u8>, number: u64) -> Result<(), AllocError>
    ensures { OnOk result (text.new.items ≡ text.old.items ++ decimal number) }
{
    let mut buffer = Buffer::new();
    text.extend_from_slice(buffer.format(number).as_bytes())
}

/// The line of a tree that is sound.
fn sound_line(alloc: Global, items: u64, nodes: u64) -> Result<Text8, AllocError>
    ensures { IfOk result (λ text. text ≡ verdict_line (verdict.Sound items nodes)) }
{
    let mut text = Vec::from_slice(alloc, b"sound ")?;
    push_number(&mut text, items)?;
    text.push(b' ')?;
    push_number(&mut text, nodes)?;
    text.push(b'\n')?;
    Ok(Text8::from_vec(text))
}

/// The line of an object that breaks a rule.
fn broken_line(alloc: Global, oid: Oid, rule: Rule) -> Result<Text8, AllocError>
    ensures { IfOk result (λ text. text ≡ verdict_line (verdict.Broken oid rule)) }
{
    let mut text = Vec::from_slice(alloc, b"broken ")?;
    text.extend_from_slice(&hex(oid.0))?;
    text.push(b' ')?;
    text.extend_from_slice(rule.name().as_bytes())?;
    text.push(b'\n')?;
    Ok(Text8::from_vec(text))
}

/// The line of a verdict.
fn verdict_line(alloc: Global, verdict: Verdict) -> Result<Text8, AllocError>
    ensures { IfOk result (λ text. text ≡ verdict_line verdict) }
{
    match verdict {
        Verdict::Sound { items, nodes } => sound_line(alloc, items, nodes),
        Verdict::Broken { oid, rule } => broken_line(alloc, oid, rule),
    }
}

/// What the reply to a load says that an object has.
fn content_in(reply: Reply) -> Option<Text8>
    ensures { result ≡ reply_content reply }
{
    match reply {
        Reply::Loaded { bytes, .. } => Some(bytes),
        _ => None,
    }
}

/// What an object has below a front.
fn content_below<St: Store, C: Clock>(
    alloc: Global,
    hub: &mut Hub<St, StockResolver, StockRefs>,
    session: u32,
    oid: Oid,
    front: Tid,
    clock: &mut C,
) -> Result<Option<Text8>, AskError>
    ensures content { St.told → (m : Machine) → StandsForMachine hub.old m → front ≡ front_of m.list → IfOk result (λ content. content ≡ last_contents m.list oid) }
    ensures asks { AsksOnly St.told hub.old hub.new
        (C.stamps clock.old) (C.stamps clock.new) result }
{
    let reply = ask(
        alloc,
        hub,
        session,
        Request::LoadBefore { oid, front },
        clock,
    )?;
    Ok(content_in(reply))
}

/// A check is told what it wants to read.
fn feed<St: Store, C: Clock>(
    alloc: Global,
    hub: &mut Hub<St, StockResolver, StockRefs>,
    session: u32,
    check: Checking,
    front: Tid,
    clock: &mut C,
) -> Result<Progress, AskError>
    ensures progress { St.told → (m : Machine) → StandsForMachine hub.old m → front ≡ front_of m.list
        → (root : ℕ) → IsCheckOf (last_contents m.list) root check → IfOk result (IsProgressOf (last_contents m.list) root) }
    ensures room { IfOk result (HasLessRoom (room_of check)) }
    ensures asks { AsksOnly St.told hub.old hub.new
        (C.stamps clock.old) (C.stamps clock.new) result }
{
    let content = content_below(alloc, hub, session, check.wanted(), front, clock)?;
    Ok(check.told(alloc, &content)?)
}

/// What a check says at its end.
fn run<St: Store, C: Clock>(
    alloc: Global,
    hub: &mut Hub<St, StockResolver, StockRefs>,
    session: u32,
    check: Checking,
    front: Tid,
    clock: &mut C,
) -> Result<Verdict, AskError>
    ensures verdict { St.told → (m : Machine) → StandsForMachine hub.old m → hub.old.store.broken ≡ false → front ≡ front_of m.list
        → (root : ℕ) → IsCheckOf (last_contents m.list) root check → IfOk result (λ v. v ≡ last_verdict root m.list) }
    ensures asks { AsksOnly St.told hub.old hub.new
        (C.stamps clock.old) (C.stamps clock.new) result }
{
    let mut check = check;
    'steps: loop {
        match feed(alloc, hub, session, check, front, clock)? {
            Progress::Wants(next) => check = next,
            Progress::Ended(verdict) => return Ok(verdict),
        }
    }
}

/// Whether the tree with this root is sound, by what each object has last.
fn last_verdict<St: Store, C: Clock>(
    alloc: Global,
    hub: &mut Hub<St, StockResolver, StockRefs>,
    session: u32,
    root: Oid,
    clock: &mut C,
) -> Result<Verdict, AskError>
    ensures verdict { St.told → (m : Machine) → StandsForMachine hub.old m → hub.old.store.broken ≡ false → IfOk result (λ v. v ≡ last_verdict root m.list) }
    ensures asks { AsksOnly St.told hub.old hub.new
        (C.stamps clock.old) (C.stamps clock.new) result }
{
    let front = front(alloc, hub, session, clock)?;
    let check = Checking::new(alloc, root);
    run(alloc, hub, session, check, front, clock)
}

/// The line that says whether the tree with this root is sound.
pub(crate) fn check<St: Store, C: Clock>(
    alloc: Global,
    hub: &mut Hub<St, StockResolver, StockRefs>,
    session: u32,
    root: Oid,
    clock: &mut C,
) -> Result<ListOf<Text8>, AskError>
    ensures lines { St.told → (m : Machine) → StandsForMachine hub.old m → hub.old.store.broken ≡ false → IfOk result (λ lines. lines ≡ verdict_line (last_verdict root m.list) ∷ []) }
    ensures asks { AsksOnly St.told hub.old hub.new
        (C.stamps clock.old) (C.stamps clock.new) result }
{
    let verdict = last_verdict(alloc, hub, session, root, clock)?;
    Ok(only_line(alloc, verdict_line(alloc, verdict)?)?)
}
