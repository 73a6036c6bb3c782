//! Reading calls loosely.

ghost use Rattle.std.specs.Prelude.{◌≡◌, IfOk};
ghost use Rattle.zeo_reading.specs.Loose.{bare_call, call_in, counting_call, double_call, long_call, short_call, single_call};
ghost use Rattle.zeo_values.specs.Leaves.{behind, behind_bytes, bytes_in, id_in, ids_in};

use std::alloc::{AllocError, Global};
use zb_ids::{Oid, Text8, Tid};
use zeo_messages::Call;
use zeo_values::{behind, behind_bytes, byte_in, bytes_in, count_in, id_in, small, tids_in};

/// A call without arguments.
fn bare_call(name: &[u8]) -> Option<Call>
    ensures { result ≡ bare_call name.now }
{
    if name == b"vote".as_slice() {
        return Some(Call::Vote);
    }
    if name == b"tpc_finish".as_slice() {
        return Some(Call::TpcFinish);
    }
    if name == b"tpc_abort".as_slice() {
        return Some(Call::TpcAbort);
    }
    if name == b"undoInfo".as_slice() {
        return Some(Call::UndoInfo);
    }
    if name == b"packTurn".as_slice() {
        return Some(Call::PackTurn);
    }
    if name == b"sync".as_slice() {
        return Some(Call::Sync);
    }
    if name == b"lastTransaction".as_slice() {
        return Some(Call::LastTransaction);
    }
    None
}

/// A call of one object or of one transaction.
fn single_call(name: &[u8], id: u64) -> Option<Call>
    ensures { result ≡ single_call name.now id }
{
    if name == b"history".as_slice() {
        return Some(Call::History { oid: Oid(id) });
    }
    let tid = Tid(id);
    if name == b"pack".as_slice() {
        return Some(Call::Pack { tid, collect: true });
    }
    if name == b"packNoGc".as_slice() {
        return Some(Call::Pack {
            tid,
            collect: false,
        });
    }
    if name == b"packBegin".as_slice() {
        return Some(Call::PackBegin { tid, collect: true });
    }
    if name == b"packBeginNoGc".as_slice() {
        return Some(Call::PackBegin {
            tid,
            collect: false,
        });
    }
    None
}

/// A call of an object and a transaction.
fn double_call(name: &[u8], oid: u64, tid: u64) -> Option<Call>
    ensures { result ≡ double_call name.now oid tid }
{
    let oid = Oid(oid);
    if name == b"loadBefore".as_slice() {
        return Some(Call::LoadBefore {
            oid,
            front: Tid(tid),
        });
    }
    if name == b"checkCurrentSerialInTransaction".as_slice() {
        return Some(Call::CheckCurrentSerial {
            oid,
            serial: Tid(tid),
        });
    }
    if name == b"deleteObject".as_slice() {
        return Some(Call::DeleteObject {
            oid,
            base: Tid(tid),
        });
    }
    None
}

fn storea_in(alloc: Global, rest: &[u8]) -> Result<Call, AllocError>
    ensures { IfOk result (λ call. call ≡ Call.Storea (id_in rest.now) (id_in (behind 10 rest.now)) (bytes_in (behind 20 rest.now))) }
{
    Ok(Call::Storea {
        oid: Oid(id_in(rest)),
        base: Tid(id_in(behind(10, rest))),
        bytes: Text8::from_slice(alloc, bytes_in(behind(20, rest)))?,
    })
}

fn tpc_begin_in(alloc: Global, rest: &[u8]) -> Result<Call, AllocError>
    ensures { IfOk result (λ call. call ≡ Call.TpcBegin (bytes_in rest.now) (bytes_in (behind_bytes rest.now)) (bytes_in (behind_bytes (behind_bytes rest.now)))) }
{
    let description = behind_bytes(rest);
    Ok(Call::TpcBegin {
        user: Text8::from_slice(alloc, bytes_in(rest))?,
        description: Text8::from_slice(alloc, bytes_in(description))?,
        extension: Text8::from_slice(alloc, bytes_in(behind_bytes(description)))?,
    })
}

fn undoa_in(alloc: Global, rest: &[u8]) -> Result<Call, AllocError>
    ensures { IfOk result (λ call. call ≡ Call.Undoa (bytes_in rest.now) (bytes_in (behind_bytes rest.now)) (ids_in (behind_bytes (behind_bytes rest.now)))) }
{
    let description = behind_bytes(rest);
    Ok(Call::Undoa {
        user: Text8::from_slice(alloc, bytes_in(rest))?,
        description: Text8::from_slice(alloc, bytes_in(description))?,
        tids: tids_in(alloc, behind_bytes(description))?,
    })
}

/// A call with bytes, which are copied.
fn long_call(alloc: Global, name: &[u8], rest: &[u8]) -> Result<Option<Call>, AllocError>
    ensures { IfOk result (λ call. call ≡ long_call name.now rest.now) }
{
    if name == b"storea".as_slice() {
        let call = storea_in(alloc, rest)?;
        return Ok(Some(call));
    }
    if name == b"tpc_begin".as_slice() {
        let call = tpc_begin_in(alloc, rest)?;
        return Ok(Some(call));
    }
    if name == b"undoa".as_slice() {
        let call = undoa_in(alloc, rest)?;
        return Ok(Some(call));
    }
    Ok(None)
}

/// A call with numbers.
fn counting_call(name: &[u8], rest: &[u8]) -> Option<Call>
    ensures { result ≡ counting_call name.now rest.now }
{
    if name == b"register".as_slice() {
        return Some(Call::Register {
            again: byte_in(5, rest) == b'2',
        });
    }
    if name == b"new_oids".as_slice() {
        return Some(Call::NewOids {
            count: small(count_in(rest)),
        });
    }
    if name == b"getInvalidations".as_slice() {
        return Some(Call::GetInvalidations {
            tid: Tid(id_in(rest)),
            changes: count_in(behind(10, rest)),
        });
    }
    None
}

/// A call that copies nothing.
fn short_call(name: &[u8], rest: &[u8]) -> Option<Call>
    ensures { result ≡ short_call name.now rest.now }
{
    if let Some(call) = double_call(name, id_in(rest), id_in(behind(10, rest))) {
        return Some(call);
    }
    if let Some(call) = bare_call(name) {
        return Some(call);
    }
    if let Some(call) = single_call(name, id_in(rest)) {
        return Some(call);
    }
    counting_call(name, rest)
}

/// The call of this method, from what stands behind it.
pub(crate) fn call_in(alloc: Global, name: &[u8], rest: &[u8]) -> Result<Option<Call>, AllocError>
    ensures { IfOk result (λ call. call ≡ call_in name.now rest.now) }
{
    if let Some(call) = long_call(alloc, name, rest)? {
        return Ok(Some(call));
    }
    Ok(short_call(name, rest))
}
