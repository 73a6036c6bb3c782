//! The frames of a vote.

ghost use Rattle.std.specs.Prelude.{◌≡◌, ◌≤◌, ◌^◌, ◌∷◌, [], IfOk, OnOk, map, true};
ghost use Rattle.zb_model.specs.Database.{IsRecord};
ghost use Rattle.commit_phases.specs.Pending.{length_of_content};
ghost use Rattle.connection_view.specs.Loading.{AreVotable, IsShortText};
ghost use Rattle.zeo_messages.specs.declared.call.Call.{Call};
ghost use Rattle.zeo_messages.specs.Calls.{fits_call};
ghost use Rattle.zeo_client.specs.Asking.{AreSpelled, SpellsBehind, check_call, store_call, vote_calls};

use crate::asking::{AskError, FramedCall, framed, next_number};
use std::alloc::{AllocError, Global};
use zb_ids::Text8;
use zb_model::{Content, PendingCheck, PendingStore};
use zeo_messages::Call;

/// The frames of calls, one behind the other, and the number of the last of them.
#[derive(Drop)]
pub(crate) struct CallText {
    /// The frames.
    pub(crate) text: Text8,
    /// The number.
    pub(crate) number: u32,
}

/// Puts the frame of a call behind the others.
#[tactic(auto, using(crate::proofs::Spelling::put_one))]
fn put(calls: &mut CallText, alloc: Global, call: Call) -> Result<(), AskError>
    requires fits { fits_call call ≡ true }
    ensures { OnOk result (SpellsBehind (call ∷ []) calls.old.text calls.old.number calls.new.text calls.new.number) }
{
    let number = next_number(calls.number);
    let framed = framed(alloc, number, call)?;
    calls.text.extend_from_slice(framed.text.as_slice())?;
    calls.number = number;
    Ok(())
}

/// The call that lets a store or a delete wait. The one error is want of memory.
#[tactic(auto, using(crate::proofs::Spelling::record_fits))]
fn store_call(store: &PendingStore) -> Result<Call, AllocError>
    requires record { IsRecord store.now.content }
    requires short { length_of_content store.now.content ≤ 2 ^ 24 }
    ensures call { IfOk result (λ call. call ≡ store_call store.now) }
    ensures fits { IfOk result (λ call. fits_call call ≡ true) }
{
    match &store.content {
        Content::Held(bytes) => {
            let bytes = bytes.clone()?;
            Ok(Call::Storea {
                oid: store.oid,
                base: store.base,
                bytes,
            })
        }
        Content::Absent => Ok(Call::DeleteObject {
            oid: store.oid,
            base: store.base,
        }),
    }
}

/// Puts the frames of stores and deletes behind the others.
#[tactic(auto, using(crate::proofs::Spelling::none_behind, crate::proofs::Spelling::one_more_behind))]
fn put_stores(calls: &mut CallText, alloc: Global, stores: &[PendingStore]) -> Result<(), AskError>
    requires stores { AreVotable stores.now }
    ensures { OnOk result (SpellsBehind (map store_call stores.now) calls.old.text calls.old.number calls.new.text calls.new.number) }
{
    for store in stores {
        let call = store_call(store)?;
        put(calls, alloc, call)?;
    }
    Ok(())
}

/// Puts the frames of checks behind the others.
#[tactic(auto, using(crate::proofs::Spelling::none_behind, crate::proofs::Spelling::one_more_behind))]
fn put_checks(calls: &mut CallText, alloc: Global, checks: &[PendingCheck]) -> Result<(), AskError>
    ensures { OnOk result (SpellsBehind (map check_call checks.now) calls.old.text calls.old.number calls.new.text calls.new.number) }
{
    for check in checks {
        let call = Call::CheckCurrentSerial {
            oid: check.oid,
            serial: check.serial,
        };
        put(calls, alloc, call)?;
    }
    Ok(())
}

/// Puts the frame behind the others that empties what waits and says the texts of the votes that follow.
fn put_texts(
    calls: &mut CallText,
    alloc: Global,
    user: &Text8,
    description: &Text8,
) -> Result<(), AskError>
    requires user { IsShortText user.now }
    requires description { IsShortText description.now }
    ensures { OnOk result (SpellsBehind (Call.TpcBegin user.now description.now [] ∷ []) calls.old.text calls.old.number calls.new.text calls.new.number) }
{
    let call = Call::TpcBegin {
        user: user.clone()?,
        description: description.clone()?,
        extension: Text8::new(alloc),
    };
    put(calls, alloc, call)
}

/// Puts the frames of a vote behind the others.
#[tactic(auto, using(crate::proofs::Spelling::twice_behind))]
fn put_vote(
    calls: &mut CallText,
    alloc: Global,
    user: &Text8,
    description: &Text8,
    stores: &[PendingStore],
    checks: &[PendingCheck],
) -> Result<(), AskError>
    requires user { IsShortText user.now }
    requires description { IsShortText description.now }
    requires stores { AreVotable stores.now }
    ensures { OnOk result (SpellsBehind (vote_calls user.now description.now stores.now checks.now)
        calls.old.text calls.old.number calls.new.text calls.new.number) }
{
    put_texts(calls, alloc, user, description)?;
    put_stores(calls, alloc, stores)?;
    put_checks(calls, alloc, checks)?;
    put(calls, alloc, Call::Vote)
}

/// The frames of a vote, behind the number of a call.
#[tactic(auto, using(crate::proofs::Spelling::from_none))]
pub(crate) fn vote_text(
    alloc: Global,
    number: u32,
    user: &Text8,
    description: &Text8,
    stores: &[PendingStore],
    checks: &[PendingCheck],
) -> Result<CallText, AskError>
    requires user { IsShortText user.now }
    requires description { IsShortText description.now }
    requires stores { AreVotable stores.now }
    ensures { IfOk result (λ calls. AreSpelled number (vote_calls user.now description.now stores.now checks.now) calls.text calls.number) }
{
    let mut calls = CallText {
        text: Text8::new(alloc),
        number,
    };
    put_vote(&mut calls, alloc, user, description, stores, checks)?;
    Ok(calls)
}
