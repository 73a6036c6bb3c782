//! Reading refusals loosely.

ghost use Rattle.std.specs.Prelude.{◌≡◌, IfOk};
ghost use Rattle.zeo_reading.specs.Loose.{bare_refusal, conflict_in, counting_refusal, double_refusal, key_in, named_refusal, other_bare_refusal, plain_why, refusal_in, refusal_start, short_refusal, single_refusal, why_in};

use std::alloc::{AllocError, Global};
use zb_ids::{Oid, Text8, Tid};
use zb_model::{Refusal, Why};
use zeo_values::{behind, behind_name, byte_in, count_in, id_in, name_in, small, truth_in};

/// The bytes up to the last three.
fn key_in(rest: &[u8]) -> &[u8]
    ensures { result.now ≡ key_in rest.now }
{
    rest.split_at(rest.len().saturating_sub(3)).0
}

/// A reason without a key.
fn plain_why(name: &[u8]) -> Option<Why>
    ensures { result ≡ plain_why name.now }
{
    if name == b"NoRule".as_slice() {
        return Some(Why::NoRule);
    }
    if name == b"Gone".as_slice() {
        return Some(Why::Gone);
    }
    if name == b"NoOld".as_slice() {
        return Some(Why::NoOld);
    }
    if name == b"Unreadable".as_slice() {
        return Some(Why::Unreadable);
    }
    if name == b"NotEmbedded".as_slice() {
        return Some(Why::NotEmbedded);
    }
    if name == b"Link".as_slice() {
        return Some(Why::Link);
    }
    if name == b"EmptySide".as_slice() {
        return Some(Why::EmptySide);
    }
    if name == b"FirstKey".as_slice() {
        return Some(Why::FirstKey);
    }
    if name == b"Overflow".as_slice() {
        return Some(Why::Overflow);
    }
    None
}

/// A reason. A key is copied.
fn why_in(alloc: Global, name: &[u8], rest: &[u8]) -> Result<Why, AllocError>
    ensures { IfOk result (λ why. why ≡ why_in name.now rest.now) }
{
    match plain_why(name) {
        Some(why) => Ok(why),
        None => Ok(Why::Key(Text8::from_slice(alloc, key_in(rest))?)),
    }
}

/// A refusal without a field.
fn bare_refusal(name: &[u8]) -> Option<Refusal>
    ensures { result ≡ bare_refusal name.now }
{
    if name == b"TidsSpent".as_slice() {
        return Some(Refusal::TidsSpent);
    }
    if name == b"StoreFault".as_slice() {
        return Some(Refusal::StoreFault);
    }
    if name == b"NoTransaction".as_slice() {
        return Some(Refusal::NoTransaction);
    }
    if name == b"InTransaction".as_slice() {
        return Some(Refusal::InTransaction);
    }
    if name == b"NotVoted".as_slice() {
        return Some(Refusal::NotVoted);
    }
    if name == b"Voted".as_slice() {
        return Some(Refusal::Voted);
    }
    if name == b"OidsSpent".as_slice() {
        return Some(Refusal::OidsSpent);
    }
    if name == b"NotOpen".as_slice() {
        return Some(Refusal::NotOpen);
    }
    None
}

/// A further refusal without a field.
fn other_bare_refusal(name: &[u8]) -> Option<Refusal>
    ensures { result ≡ other_bare_refusal name.now }
{
    if name == b"BadMessage".as_slice() {
        return Some(Refusal::BadMessage);
    }
    if name == b"LinkFault".as_slice() {
        return Some(Refusal::LinkFault);
    }
    if name == b"Closed".as_slice() {
        return Some(Refusal::Closed);
    }
    if name == b"NoPack".as_slice() {
        return Some(Refusal::NoPack);
    }
    if name == b"BadKey".as_slice() {
        return Some(Refusal::BadKey);
    }
    if name == b"ReadFault".as_slice() {
        return Some(Refusal::ReadFault);
    }
    if name == b"StepsSpent".as_slice() {
        return Some(Refusal::StepsSpent);
    }
    if name == b"Memory".as_slice() {
        return Some(Refusal::Memory);
    }
    None
}

/// A refusal with a number.
fn counting_refusal(name: &[u8], count: u64) -> Option<Refusal>
    ensures { result ≡ counting_refusal name.now count }
{
    if name == b"TooLong".as_slice() {
        return Some(Refusal::TooLong { length: count });
    }
    if name == b"Busy".as_slice() {
        return Some(Refusal::Busy {
            holder: small(count),
        });
    }
    if name == b"PackRunning".as_slice() {
        return Some(Refusal::PackRunning {
            session: small(count),
        });
    }
    if name == b"JournalFull".as_slice() {
        return Some(Refusal::JournalFull { count });
    }
    if name == b"TooManySessions".as_slice() {
        return Some(Refusal::TooManySessions {
            count: small(count),
        });
    }
    if name == b"NoSavepoint".as_slice() {
        return Some(Refusal::NoSavepoint { number: count });
    }
    if name == b"FrameTooLong".as_slice() {
        return Some(Refusal::FrameTooLong {
            length: small(count),
        });
    }
    if name == b"Mixed".as_slice() {
        return Some(Refusal::Mixed { stores: count });
    }
    if name == b"Connected".as_slice() {
        return Some(Refusal::Connected {
            session: small(count),
        });
    }
    None
}

/// A refusal of one object or of one transaction.
fn single_refusal(name: &[u8], id: u64) -> Option<Refusal>
    ensures { result ≡ single_refusal name.now id }
{
    if name == b"UndoUnknown".as_slice() {
        return Some(Refusal::UndoUnknown { tid: Tid(id) });
    }
    if name == b"UndoPacked".as_slice() {
        return Some(Refusal::UndoPacked { tid: Tid(id) });
    }
    if name == b"PackedAlready".as_slice() {
        return Some(Refusal::PackedAlready { packed: Tid(id) });
    }
    if name == b"NotATree".as_slice() {
        return Some(Refusal::NotATree { oid: Oid(id) });
    }
    if name == b"NodeMissing".as_slice() {
        return Some(Refusal::NodeMissing { oid: Oid(id) });
    }
    None
}

/// A refusal of an object and a transaction.
fn double_refusal(name: &[u8], oid: u64, tid: u64) -> Option<Refusal>
    ensures { result ≡ double_refusal name.now oid tid }
{
    let oid = Oid(oid);
    let tid = Tid(tid);
    if name == b"UndoConflict".as_slice() {
        return Some(Refusal::UndoConflict { oid, later: tid });
    }
    if name == b"Overtaken".as_slice() {
        return Some(Refusal::Overtaken { oid, tid });
    }
    if name == b"Unreadable".as_slice() {
        return Some(Refusal::Unreadable { oid, tid });
    }
    if name == b"NothingToDelete".as_slice() {
        return Some(Refusal::NothingToDelete { oid, current: tid });
    }
    None
}

/// A refusal of an object and more.
fn conflict_in(alloc: Global, name: &[u8], rest: &[u8]) -> Result<Option<Refusal>, AllocError>
    ensures { IfOk result (λ refusal. refusal ≡ conflict_in name.now rest.now) }
{
    let oid = Oid(id_in(rest));
    if name == b"Conflict".as_slice() {
        let reason = behind(30, rest);
        let why = why_in(alloc, name_in(reason), behind_name(reason))?;
        return Ok(Some(Refusal::Conflict {
            oid,
            base: Tid(id_in(behind(10, rest))),
            current: Tid(id_in(behind(20, rest))),
            why,
        }));
    }
    if name == b"ReadConflict".as_slice() {
        return Ok(Some(Refusal::ReadConflict {
            oid,
            base: Tid(id_in(behind(10, rest))),
            current: Tid(id_in(behind(20, rest))),
        }));
    }
    if name == b"Missing".as_slice() {
        return Ok(Some(Refusal::Missing {
            oid,
            packed: truth_in(behind(10, rest)),
        }));
    }
    Ok(None)
}

/// A refusal that copies nothing.
fn short_refusal(name: &[u8], rest: &[u8]) -> Option<Refusal>
    ensures { result ≡ short_refusal name.now rest.now }
{
    if let Some(refusal) = bare_refusal(name) {
        return Some(refusal);
    }
    if let Some(refusal) = other_bare_refusal(name) {
        return Some(refusal);
    }
    if let Some(refusal) = counting_refusal(name, count_in(rest)) {
        return Some(refusal);
    }
    if let Some(refusal) = single_refusal(name, id_in(rest)) {
        return Some(refusal);
    }
    double_refusal(name, id_in(rest), id_in(behind(10, rest)))
}

fn named_refusal(alloc: Global, name: &[u8], rest: &[u8]) -> Result<Option<Refusal>, AllocError>
    ensures { IfOk result (λ refusal. refusal ≡ named_refusal name.now rest.now) }
{
    if let Some(refusal) = conflict_in(alloc, name, rest)? {
        return Ok(Some(refusal));
    }
    Ok(short_refusal(name, rest))
}

/// The refusal of a tuple.
pub(crate) fn refusal_in(alloc: Global, bytes: &[u8]) -> Result<Option<Refusal>, AllocError>
    ensures { IfOk result (λ refusal. refusal ≡ refusal_in bytes.now) }
{
    let start = if byte_in(0, bytes) == 0x28 {
        behind(1, bytes)
    } else {
        bytes
    };
    named_refusal(alloc, name_in(start), behind_name(start))
}
